//! The program: runs a call list through a bus cab and a pulse cab, and lays what they answer and
//! show side by side. Its exit status is 0 where nothing differs, 1 where something does, 2 for
//! trouble.
#![tactic(auto)]

ghost use Rattle.std.specs.Prelude.{◌≡◌, MatchResult};
ghost use Rattle.std.specs.Process.{exit_status};
ghost use Rattle.side_by_side.specs.Status.{status_number};

mod failure;
mod input;
mod line;
mod notes;
mod options;
mod report;
mod run;
mod sides;
mod summary;
mod table;
mod tsv;
mod words;

use failure::Failure;
use options::{Asked, read_options};
use run::run_options;
use side_by_side::Status;
use std::process::ExitCode;

const HELP: &str = "usage: cabcheck [--tsv] [--second LIST2] [LIST]

Runs the calls of LIST through two cab units, one on a bus end and one on a
pulse end, and compares what they answer and show. LIST is a file; without it,
or for -, the list comes from standard input.

  --tsv           print tab-separated rows, all of the bus cab, then all of
                  the pulse cab; the last lines go to standard error
  --second LIST2  run LIST2 in the pulse cab
  --help, -h      print this
  --version       print the version

The status is 0 where nothing differs (AGREE); 1 where something does: an
answer, a message or a note that is compared, or lists that are not the same up
to blocks and the order of neighbouring accepted texts (DIFFER); 2 for trouble:
a bad option or a bad line, a list that cannot be read, output not written, want
of memory, and where neither cab was asked for a call.
";

// Does what is asked, and answers how it ended.
fn answer_asked<'a>(
    rt: &HostRuntime,
    asked: &'a anyhow::Result<Asked>,
) -> Result<Status, Failure<'a>> {
    match asked {
        Ok(Asked::Help) => rt.print(HELP)?,
        Ok(Asked::Version) => rt.println("cabcheck 0.3.0")?,
        Ok(Asked::Run(options)) => return run_options(rt, options),
        Err(error) => return Err(Failure::Options(error)),
    }
    Ok(Status::Agree)
}

// The status that the program ends with. A failure is trouble, and is said on standard error first,
// but for a closed output.
fn ending(rt: &HostRuntime, outcome: Result<Status, Failure<'_>>) -> ExitCode
    ensures { MatchResult outcome.entry (λ s. exit_status result ≡ status_number s)
        (λ _. exit_status result ≡ 2) }
{
    let status = match outcome {
        Ok(status) => status,
        Err(failure) => {
            if !failure.is_closed_output() {
                let _ = eprintln!(rt; "{failure}");
            }
            Status::Trouble
        }
    };
    ExitCode::from(status.number())
}

fn main(rt: HostRuntime) -> ExitCode {
    let asked = read_options(&rt);
    let outcome = answer_asked(&rt, &asked);
    ending(&rt, outcome)
}
