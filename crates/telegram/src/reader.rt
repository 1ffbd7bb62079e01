ghost use Rattle.std.specs.Prelude.{◌≡◌};
ghost use Rattle.telegram.specs.Reading.{answer_at, answer_of, read_at};
ghost use Rattle.telegram.specs.Laws.{ReadWhereItStands, place_after};

use crate::faults::{Fault, Refused};
use crate::fields::{read_fields, rest};
use crate::kinds::Kind;
use crate::orders::Placed;

/// Reads a telegram from its start, an order at a time. It takes no memory.
#[derive(Drop)]
pub struct Reader<'a> {
    telegram: &'a [u8],
    place: usize,
}

impl<'a> Reader<'a> {
    /// A reader in front of the first byte. The telegram may have any length, also none.
    pub fn new(telegram: &'a [u8]) -> Reader<'a>
        ensures telegram { result.telegram ≡ telegram.entry }
        ensures place { result.place ≡ 0 }
    {
        Reader { telegram, place: 0 }
    }

    /// The place of the byte that it reads next, counted from 0; at the end, the telegram's length.
    pub fn place(&self) -> usize
        ensures { result ≡ self.now.place }
    {
        self.place
    }

    /// Reads the next order and stands behind it; `None` where no byte is left.
    ///
    /// Where the order is faulty, the answer is why, with its place, and the reader stays in front
    /// of it. So the end and a fault are answered again at each further call.
    pub fn next(&mut self) -> Result<Option<Placed<'a>>, Refused>
        ensures answer { answer_of self.new.place result ≡
            read_at self.old.telegram.now self.old.place }
        ensures place { self.new.place ≡
            place_after self.old.place (answer_of self.new.place result) }
        ensures telegram { self.new.telegram ≡ self.old.telegram }
        ensures law { ReadWhereItStands self.old.telegram.now self.old.place
            (answer_of self.new.place result) }
    {
        let first = self.place;
        let read = read_at(self.telegram, first).map_err(|fault| Refused { fault, first })?;
        if let Some(placed) = read {
            self.place = placed.after;
        }
        Ok(read)
    }
}

// What stands at a place of a telegram, the refusals in their order.
fn read_at(telegram: &[u8], place: usize) -> Result<Option<Placed<'_>>, Fault>
    ensures { answer_at place result ≡ read_at telegram.now place }
{
    let left = rest(telegram, place);
    let (high, low) = match left {
        [] => return Ok(None),
        [_] => return Err(Fault::CutShort),
        [high, low, ..] => (*high, *low),
    };
    let kind = Kind::try_from(high / 16)?;
    let length = u16::from_be_bytes([high % 16, low]) as usize;
    if !kind.takes_length(length) {
        return Err(Fault::WrongLength);
    }
    let fields = left.get(2..length).ok_or(Fault::CutShort)?;
    let order = read_fields(kind, fields)?;
    Ok(Some(Placed {
        order,
        first: place,
        after: place + length,
    }))
}
