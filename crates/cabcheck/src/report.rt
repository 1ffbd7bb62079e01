ghost use Rattle.std.specs.Prelude.{IfOk};
ghost use Rattle.plan.specs.Calls.{list_or};
ghost use Rattle.side_by_side.specs.Lists.{StatusOfLists};

use crate::failure::Failure;
use crate::notes::{NotesCompared, compare_notes};
use crate::sides::{Side, Sides};
use crate::summary::print_summary;
use crate::table::print_table;
use crate::tsv::print_tsv;
use bench::Ran;
use call_list::Listed;
use compare::Verdict;
use driver_desk::Answer;
use plan::{Cab, Plan, Plans, plan_lists};
use side_by_side::{BothCabs, Finding, ReadyCabs, Status};
use std::alloc::Global;
use std::io;
use std::io::Write;
use train_end::{BusEnd, PulseEnd, TrainEnd};

const NOTHING_COMPARED: &str =
    "cabcheck: neither cab was asked for a call, so nothing was compared";

// What is kept of a cab whose unit is switched off.
#[derive(Drop)]
struct Kept {
    on: Answer,
    answers: Vec<Answer>,
    speeds: Vec<Option<u16>>,
}

fn switch_off<E: TrainEnd + Drop>(ran: Ran<'_, '_, E>) -> Kept {
    let Ran {
        unit,
        on,
        calls: _,
        answers,
        speeds,
    } = ran;
    let _end = unit.switch_off();
    Kept {
        on,
        answers,
        speeds,
    }
}

// What one cab was asked and what came of it.
fn side<'p, 'a>(
    cab: Cab,
    plan: &'p Plan<'a>,
    kept: &'p Kept,
    messages: &'p [Option<&'a [u8]>],
) -> Side<'p, 'a> {
    Side {
        cab,
        rows: &plan.rows,
        calls: &plan.calls,
        on: &kept.on,
        answers: &kept.answers,
        speeds: &kept.speeds,
        messages,
    }
}

// Prints what came of both runs, and says so where nothing was compared.
fn print_noted<W: Write + Drop, S: Write + Drop>(
    out: &mut W,
    err: &mut S,
    heap: Global,
    tsv: bool,
    sides: &Sides<'_, '_>,
    verdict: &Verdict<'_>,
    notes: &NotesCompared,
    status: Status,
) -> io::Result<()> {
    if tsv {
        print_tsv(out, sides)?;
    } else {
        print_table(out, heap, sides, &verdict.marks, notes)?;
    }
    if status == Status::Trouble {
        out.flush()?;
        writeln!(err, "{NOTHING_COMPARED}")?;
    } else if tsv {
        out.flush()?;
        print_summary(err, sides, verdict, notes, status)?;
    } else {
        print_summary(out, sides, verdict, notes, status)?;
        out.flush()?;
    }
    err.flush()
}

fn print_sides<W: Write + Drop, S: Write + Drop>(
    out: &mut W,
    err: &mut S,
    heap: Global,
    tsv: bool,
    sides: &Sides<'_, '_>,
    finding: &Finding<'_>,
    status: Status,
) -> Result<(), Failure<'static>> {
    let verdict = &finding.verdict;
    let notes = compare_notes(heap, sides, &verdict.marks)?;
    print_noted(out, err, heap, tsv, sides, verdict, &notes, status)?;
    Ok(())
}

// Runs a list in both cabs, or the second in the pulse cab where there is one, and prints what came
// of it: the table with its last lines, or rows on `out` and the last lines on `err`. Answers how
// the runs compare.
pub fn report_runs<'l, W: Write + Drop, S: Write + Drop>(
    out: &mut W,
    err: &mut S,
    heap: Global,
    tsv: bool,
    listed: &'l [Listed],
    second: Option<&'l [Listed]>,
) -> Result<Status, Failure<'static>>
    ensures { IfOk result (λ s. StatusOfLists listed.entry.now
        (list_or listed.entry.now second.entry) s) }
{
    let plans = plan_lists(heap, &*listed, second)?;
    let Ok(ready) = ReadyCabs::new(heap, &plans, BusEnd::new(), PulseEnd::new()) else {
        return Err(Failure::NoMemory);
    };
    let both = ready.run(heap);
    let status = both.status();
    let BothCabs {
        bus,
        pulse,
        finding,
    } = both;
    let bus = switch_off(bus);
    let pulse = switch_off(pulse);
    let finding = finding?;
    let sides = Sides {
        bus: side(Cab::Bus, &plans.bus, &bus, &finding.verdict.messages),
        pulse: side(
            Cab::Pulse,
            &plans.pulse,
            &pulse,
            &finding.verdict.other_messages,
        ),
        two_lists: second.is_some(),
    };
    print_sides(out, err, heap, tsv, &sides, &finding, status)?;
    Ok(status)
}
