ghost use Rattle.std.specs.Prelude.{◌≡◌, ◌<◌, false, ◌++◌, map, length, IfOk, IfErr, OnOk};
ghost use Rattle.plan.specs.Notes.{bound_behind, first_mark, note_bounds, note_trace, other_marks};

use crate::note::Note;
use crate::rows::{Row, Told};
use std::alloc::{AllocError, Global};

// The bound in front of a call; none where the call before it is inside a stretch.
fn add_bound(trace: &mut Vec<Option<u8>>, inside: bool) -> Result<(), AllocError>
    ensures { OnOk result (trace.new.items ≡ trace.old.items ++ bound_behind inside) }
{
    if !inside {
        trace.push(None)?;
    }
    Ok(())
}

// The number of what was refused; an end gives nothing.
fn add_note(trace: &mut Vec<Option<u8>>, note: Note) -> Result<(), AllocError>
    ensures { OnOk result (trace.new.items ≡ trace.old.items ++ note_bounds note) }
{
    match note {
        Note::Draft(_) | Note::Fault(_) => trace.push(Some(note.number()))?,
        Note::End(_) => {}
    }
    Ok(())
}

// The next mark and the marks behind it; past the last one nothing is inside.
fn next_mark(marks: &[bool]) -> (bool, &[bool])
    ensures first { result.0 ≡ first_mark marks.now }
    ensures others { result.1.now ≡ other_marks marks.now }
{
    match marks {
        [] => (false, marks),
        [mark, others @ ..] => (*mark, others),
    }
}

/// What is compared of the rows of a cab beside its calls: a bound, `None`, in front of each call,
/// and between the bounds, by its number, what was refused there. The end of a telegram gives
/// nothing.
///
/// `inside` has a mark for each call, `true` where the next call goes on in the same stretch of
/// texts in another order; a call without a mark counts as `false`. Behind a `true` there is no
/// bound, so what stands between the calls of a stretch counts as standing behind them.
///
/// Want of memory is the only error, and comes only where there is a row.
pub fn note_trace(
    heap: Global,
    rows: &[Row],
    inside: &[bool],
) -> Result<Vec<Option<u8>>, AllocError>
    ensures trace { IfOk result (λ v. v.items ≡
        note_trace false inside.now (map (λ r. r.told) rows.now)) }
    ensures memory { IfErr result (λ _. 0 < length rows.now) }
{
    let mut trace = Vec::new(heap);
    let mut before = false;
    let mut marks = inside;
    for row in rows {
        match row.told {
            Told::Call(_) => {
                add_bound(&mut trace, before)?;
                (before, marks) = next_mark(marks);
            }
            Told::Note(note) => add_note(&mut trace, note)?,
        }
    }
    Ok(trace)
}
