ghost use Rattle.std.specs.Prelude.{◌≡◌, ◌<◌, ◌+◌, map, length, IfOk, IfErr, Decides};
ghost use Rattle.compare.specs.Marks.{is_inside};
ghost use Rattle.side_by_side.specs.Findings.{agrees, notes_of};

use compare::{Mark, Verdict};
use plan::{Row, note_trace};
use std::alloc::{AllocError, Global};

/// What is found of two cabs.
#[derive(Drop)]
pub struct Finding<'a> {
    /// The verdict on both runs.
    pub verdict: Verdict<'a>,
    /// Whether both lists tell the same beside their calls: the faults of telegrams and the records
    /// that no draft takes, by their refusal numbers.
    pub notes_agree: bool,
}

impl Finding<'_> {
    /// Whether the lists are alike and no answer, message or note that is compared differs. Speeds
    /// do not count here.
    pub fn agrees(&self) -> bool
        ensures { result ≡ agrees self.now }
    {
        let Verdict { alike, tallies, .. } = &self.verdict;
        *alike
            && tallies.answers.differing == 0
            && tallies.messages.differing == 0
            && self.notes_agree
    }
}

fn inside_marks(heap: Global, marks: &[Mark]) -> Result<Vec<bool>, AllocError>
    ensures inside { IfOk result (λ v. v.items ≡ map is_inside marks.now) }
    ensures memory { IfErr result (λ _. 0 < length marks.now) }
{
    let mut inside = Vec::new(heap);
    for mark in marks {
        inside.push(mark.is_inside())?;
    }
    Ok(inside)
}

fn same_notes(one: &[Option<u8>], other: &[Option<u8>]) -> bool
    ensures { Decides result (one.now ≡ other.now) }
{
    one == other
}

// Whether the notes of two cabs agree, of whose places the marks tell.
pub(crate) fn notes_agree(
    heap: Global,
    marks: &[Mark],
    rows: &[Row],
    other_rows: &[Row],
) -> Result<bool, AllocError>
    ensures agree { IfOk result (λ b. Decides b
        (notes_of marks.now rows.now ≡ notes_of marks.now other_rows.now)) }
    ensures memory { IfErr result (λ _. 0 <
        length marks.now + length rows.now + length other_rows.now) }
{
    let inside = inside_marks(heap, marks)?;
    let notes = note_trace(heap, rows, &inside)?;
    let other_notes = note_trace(heap, other_rows, &inside)?;
    Ok(same_notes(&notes, &other_notes))
}
