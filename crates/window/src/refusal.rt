ghost use Rattle.std.specs.Prelude.{◌≡◌, Some};
ghost use Rattle.window.specs.Refusals.{refusal_number, refusal_text, refusal_of};

use ordering::shelf::ShelfRefusal;
use std::fmt;

/// Why a call of the window was refused. A refusal leaves the window as before.
#[derive(Clone, Copy, PartialEq, Eq, Debug)]
pub enum Refusal {
    /// Number 50: every row of the window is in use.
    NoFreeLine = 50,
    /// Number 51: a line with the number stands already.
    NumberThere = 51,
    /// Number 52: no line has the number, or none stands at the position.
    NoSuchLine = 52,
    /// Number 53: the text of the line does not lie in the store.
    OutsideStore = 53,
}

impl Refusal {
    /// The number of the refusal, 50 to 53.
    pub fn number(&self) -> u8
        ensures { result ≡ refusal_number self.now }
    {
        *self as u8
    }
}

/// A shelf that is full has no free line; a position that it lacks is no line.
impl From<ShelfRefusal> for Refusal {
    ghost from_gives = { λ why r. r ≡ refusal_of why };

    fn from(why: ShelfRefusal) -> Refusal {
        match why {
            ShelfRefusal::NoFreePlace => Refusal::NoFreeLine,
            ShelfRefusal::NoSuchPosition => Refusal::NoSuchLine,
        }
    }
}

/// The refusal as a sentence for people.
impl fmt::Display for Refusal {
    ghost output = { λ r. Some (refusal_text r) };

    fn fmt<W: fmt::Write>(&self, f: &mut fmt::Formatter<W>) -> fmt::Result {
        f.write_str(match self {
            Refusal::NoFreeLine => "No line is free.",
            Refusal::NumberThere => "The number is there already.",
            Refusal::NoSuchLine => "There is no such line.",
            Refusal::OutsideStore => "The text lies outside the store.",
        })
    }
}
