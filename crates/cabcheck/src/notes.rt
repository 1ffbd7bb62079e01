ghost use Rattle.std.specs.Prelude.{◌≡◌, length};
ghost use Rattle.std.specs.Iterator.{at_most};

use crate::sides::Sides;
use compare::Mark;
use itertools::Itertools;
use plan::{Note, Row, Told};
use std::alloc::{AllocError, Global};

// A fault or a refused record: its refusal number, its row and line, and how many bounds stand in
// front of it, one for each call but for those that go on in a stretch.
#[derive(Clone, Copy)]
pub struct Noted {
    behind: usize,
    pub row: usize,
    pub line: usize,
    pub number: u8,
}

// The notes of both cabs that differ, one beside the other where both have one, and how many pairs
// were compared.
#[derive(Drop)]
pub struct NotesCompared {
    pub compared: usize,
    pub differing: Vec<(Option<Noted>, Option<Noted>)>,
    bus_rows: Vec<usize>,
    pulse_rows: Vec<usize>,
}

pub fn number_of(note: Option<Noted>) -> Option<u8> {
    Some(note?.number)
}

pub fn line_of(note: Option<Noted>) -> Option<usize> {
    Some(note?.line)
}

fn has_row(rows: &[usize], row: Option<usize>) -> bool {
    match row {
        Some(row) => rows.binary_search(&row).is_ok(),
        None => false,
    }
}

// An end of a telegram is told and not compared.
fn is_compared(note: &Note) -> bool {
    !matches!(note, Note::End(_))
}

// The rows of one cab that are left, each with its note where that is compared. What stands inside
// a stretch that came in another order counts as standing behind it.
#[derive(Drop)]
struct NoteRows<'p> {
    rows: &'p [Row],
    marks: &'p [Mark],
    row: usize,
    inside: bool,
    behind: usize,
}

impl<'p> NoteRows<'p> {
    fn new(rows: &'p [Row], marks: &'p [Mark]) -> NoteRows<'p> {
        NoteRows {
            rows,
            marks,
            row: 0,
            inside: false,
            behind: 0,
        }
    }

    fn pass_call(&mut self)
        ensures { self.new.rows ≡ self.old.rows }
    {
        if !self.inside {
            self.behind = self.behind.wrapping_add(1);
        }
        self.inside = matches!(self.marks.split_off_first(), Some(mark) if mark.is_inside());
    }
}

impl Iterator for NoteRows<'_> {
    type Item = Option<Noted>;

    ghost remaining = { λ s. at_most (length s.rows.now) };

    fn next(&mut self) -> Option<Option<Noted>> {
        let Row { line, told } = *self.rows.split_off_first()?;
        let row = self.row;
        self.row = row.wrapping_add(1);
        match told {
            Told::Call(_) => {
                self.pass_call();
                Some(None)
            }
            Told::Note(note) if is_compared(&note) => Some(Some(Noted {
                behind: self.behind,
                row,
                line,
                number: note.number(),
            })),
            Told::Note(_) => Some(None),
        }
    }
}

// The notes of both cabs, compared in their order between the same two calls.
pub fn compare_notes(
    heap: Global,
    sides: &Sides<'_, '_>,
    marks: &[Mark],
) -> Result<NotesCompared, AllocError> {
    let bus = NoteRows::new(sides.bus.rows, marks).filter_map(|note| note);
    let pulse = NoteRows::new(sides.pulse.rows, marks).filter_map(|note| note);
    let mut found = NotesCompared {
        compared: 0,
        differing: Vec::new(heap),
        bus_rows: Vec::new(heap),
        pulse_rows: Vec::new(heap),
    };
    for pair in bus.merge_join_by(pulse, |one, other| one.behind.cmp(&other.behind)) {
        let (one, other) = pair.left_and_right();
        found.compared = found.compared.wrapping_add(1);
        if number_of(one) != number_of(other) {
            found.add(one, other)?;
        }
    }
    Ok(found)
}

impl NotesCompared {
    fn add(&mut self, one: Option<Noted>, other: Option<Noted>) -> Result<(), AllocError> {
        if let Some(note) = one {
            self.bus_rows.push(note.row)?;
        }
        if let Some(note) = other {
            self.pulse_rows.push(note.row)?;
        }
        self.differing.push((one, other))?;
        Ok(())
    }

    // Whether the note in a row of either cab differs.
    pub fn differs(&self, bus_row: Option<usize>, pulse_row: Option<usize>) -> bool {
        has_row(&self.bus_rows, bus_row) || has_row(&self.pulse_rows, pulse_row)
    }
}
