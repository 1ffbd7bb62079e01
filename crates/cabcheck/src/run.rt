use crate::failure::Failure;
use crate::input::read_source;
use crate::options::Options;
use crate::report::report_runs;
use call_list::{Listed, read_list};
use side_by_side::Status;
use std::io::BufWriter;

// The calls of a list.
fn load<'n>(rt: &HostRuntime, name: &'n str) -> Result<Vec<Listed>, Failure<'n>> {
    let text = match read_source(rt, name) {
        Ok(text) => text,
        Err(error) => return Err(Failure::Source { name, error }),
    };
    match read_list(rt.alloc(), &text) {
        Ok(listed) => Ok(listed),
        Err(fault) => Err(Failure::of_list(name, fault)),
    }
}

// Runs the lists in both cabs and prints what came of it; answers how the runs compare.
pub fn run_options<'o>(rt: &HostRuntime, options: &'o Options) -> Result<Status, Failure<'o>> {
    let heap = rt.alloc();
    let listed = load(rt, options.list.as_deref().unwrap_or("-"))?;
    let second = match options.second.as_deref() {
        Some(name) => Some(load(rt, name)?),
        None => None,
    };
    let mut out = BufWriter::new(heap, rt.stdout())?;
    let mut err = BufWriter::new(heap, rt.stderr())?;
    report_runs(
        &mut out,
        &mut err,
        heap,
        options.tsv,
        &listed,
        second.as_deref(),
    )
}
