ghost use Rattle.std.specs.Prelude.{◌≡◌, ◌<◌, ◌+◌, ◌&&◌, length, is_ok, IfOk, IfErr};
ghost use Rattle.bench.specs.Both.{Laws};
ghost use Rattle.bench.specs.View.{has_room, ShownOn};
ghost use Rattle.compare.specs.Cabs.{ran};
ghost use Rattle.compare.specs.Verdicts.{VerdictOf};

use crate::run::Run;
use crate::verdict::{Verdict, compare_runs};
use bench::{Ran, Ready, run_lent};
use std::alloc::{AllocError, Global};
use train_end::TrainEnd;

/// Two cabs after their runs, and what is found of these.
pub struct Compared<'p, 'a, E, F> {
    /// The one cab after its run.
    pub one: Ran<'p, 'a, E>,
    /// The other cab after its run.
    pub other: Ran<'p, 'a, F>,
    /// What is found of both runs. Want of memory for it is the only error, comes only where a cab
    /// has a call, and leaves the runs as they are.
    pub verdict: Result<Verdict<'a>, AllocError>,
}

/// Runs two cabs as `run_lent` does, and compares their runs. The caller switches the units off.
///
/// Where a cab has not as many places as calls, nothing is run: the error is both cabs as they
/// were. Want of memory stands in the place of the verdict.
pub fn compare_cabs<'p, 'a, E: TrainEnd, F: TrainEnd>(
    heap: Global,
    one: Ready<'p, 'a, E>,
    other: Ready<'p, 'a, F>,
) -> Result<Compared<'p, 'a, E, F>, (Ready<'p, 'a, E>, Ready<'p, 'a, F>)>
    ensures fits { is_ok result ≡ (has_room one.entry && has_room other.entry) }
    ensures laws { IfOk result (λ c. Laws (ran E.TrainEnd F.TrainEnd one.entry other.entry c)) }
    ensures on { IfOk result (λ c. ShownOn
        (ran E.TrainEnd F.TrainEnd one.entry other.entry c) c.one.on c.other.on) }
    ensures verdict { IfOk result (λ c. IfOk c.verdict
        (λ v. VerdictOf (ran E.TrainEnd F.TrainEnd one.entry other.entry c) v)) }
    ensures memory { IfOk result (λ c. IfErr c.verdict
        (λ _. 0 < length one.entry.calls.now + length other.entry.calls.now)) }
    ensures calls { IfOk result (λ c. (c.one.calls ≡ one.entry.calls) ×
        (c.other.calls ≡ other.entry.calls)) }
    ensures back { IfErr result (λ back. (back.0 ≡ one.entry) × (back.1 ≡ other.entry)) }
{
    let (one, other) = run_lent(one, other)?;
    let verdict = compare_runs(
        heap,
        Run {
            calls: one.calls,
            answers: &one.answers,
            speeds: &one.speeds,
        },
        Run {
            calls: other.calls,
            answers: &other.answers,
            speeds: &other.speeds,
        },
    );
    Ok(Compared {
        one,
        other,
        verdict,
    })
}
