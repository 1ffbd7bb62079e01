ghost use Rattle.std.specs.Prelude.{length};
ghost use Rattle.std.specs.Iterator.{at_most};

use cab_unit::Call;
use driver_desk::Answer;
use plan::{Cab, Note, Places, Row, Told};

// What one cab was asked, answered and showed, with the rows that tell of it. Of each call there
// are an answer, a speed and a message.
#[derive(Clone, Copy)]
pub struct Side<'p, 'a> {
    pub cab: Cab,
    pub rows: &'p [Row],
    pub calls: &'p [Call<'a>],
    pub on: &'p Answer,
    pub answers: &'p [Answer],
    pub speeds: &'p [Option<u16>],
    pub messages: &'p [Option<&'a [u8]>],
}

// Both cabs, and whether each has a list of its own.
#[derive(Clone, Copy)]
pub struct Sides<'p, 'a> {
    pub bus: Side<'p, 'a>,
    pub pulse: Side<'p, 'a>,
    pub two_lists: bool,
}

// A call with what came of it: its place among the calls, from 0, and that of its order in a
// telegram.
#[derive(Clone, Copy)]
pub struct Answered<'p, 'a> {
    pub place: usize,
    pub places: Option<Places>,
    pub call: &'p Call<'a>,
    pub answer: &'p Answer,
    pub speed: Option<u16>,
    pub message: Option<&'a [u8]>,
}

// What a row tells.
#[derive(Clone, Copy)]
pub enum Item<'p, 'a> {
    Call(Answered<'p, 'a>),
    Note(Note),
}

// A row: its place among the rows, from 0, and the line of the list that it tells of.
#[derive(Clone, Copy)]
pub struct Entry<'p, 'a> {
    pub row: usize,
    pub line: usize,
    pub item: Item<'p, 'a>,
}

impl<'p, 'a> Entry<'p, 'a> {
    pub fn is_of_call(&self) -> bool {
        matches!(self.item, Item::Call(_))
    }
}

impl<'p, 'a> Side<'p, 'a> {
    // The rows with what they tell, in their order.
    pub fn entries(&self) -> Entries<'p, 'a> {
        Entries {
            rest: *self,
            row: 0,
            place: 0,
        }
    }

    // The row of the call at a place.
    pub fn entry_of(&self, place: usize) -> Option<(Entry<'p, 'a>, Answered<'p, 'a>)> {
        for entry in self.entries() {
            if let Item::Call(answered) = entry.item
                && answered.place == place
            {
                return Some((entry, answered));
            }
        }
        None
    }
}

// The rows of one cab that are left: each that tells of a call takes the next call and what came of
// it.
#[derive(Drop)]
pub struct Entries<'p, 'a> {
    rest: Side<'p, 'a>,
    row: usize,
    place: usize,
}

impl<'p, 'a> Iterator for Entries<'p, 'a> {
    type Item = Entry<'p, 'a>;

    ghost remaining = { λ s. at_most (length s.rest.rows.now) };

    fn next(&mut self) -> Option<Entry<'p, 'a>> {
        let Row { line, told } = *self.rest.rows.split_off_first()?;
        let row = self.row;
        self.row = row.wrapping_add(1);
        let item = match told {
            Told::Note(note) => Item::Note(note),
            Told::Call(places) => {
                let place = self.place;
                self.place = place.wrapping_add(1);
                Item::Call(Answered {
                    place,
                    places,
                    call: self.rest.calls.split_off_first()?,
                    answer: self.rest.answers.split_off_first()?,
                    speed: *self.rest.speeds.split_off_first()?,
                    message: *self.rest.messages.split_off_first()?,
                })
            }
        };
        Some(Entry { row, line, item })
    }
}
