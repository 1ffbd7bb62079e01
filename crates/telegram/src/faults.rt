ghost use Rattle.std.specs.Prelude.{◌≡◌, Some};
ghost use Rattle.telegram.specs.Faults.{fault_number, fault_words};

use std::fmt;

/// Why an order of a telegram is refused.
#[derive(Clone, Copy, Debug, PartialEq, Eq)]
pub enum Fault {
    /// Number 20: one byte alone is left, or fewer bytes than the order's length says.
    CutShort = 20,
    /// Number 21: the kind is 0 or above 7.
    UnknownKind = 21,
    /// Number 22: the length is none that an order of this kind can have.
    WrongLength = 22,
    /// Number 23: the two bits of a mode or of a level are 3, which stands for none.
    OutsideList = 23,
    /// Number 24: a filler bit, which has to be 0, is 1.
    FillerSet = 24,
    /// Number 25: a byte of a text is neither 32 to 126 nor 160 to 255.
    TextByte = 25,
}

impl Fault {
    /// The number of the refusal, 20 to 25.
    pub fn number(self) -> u8
        ensures { result ≡ fault_number self }
    {
        self as u8
    }
}

/// The refusal in words for people, as `cut short`.
impl fmt::Display for Fault {
    ghost output = { λ f. Some (fault_words f) };

    fn fmt<W: fmt::Write>(&self, f: &mut fmt::Formatter<W>) -> fmt::Result {
        let words = match self {
            Fault::CutShort => "cut short",
            Fault::UnknownKind => "unknown kind",
            Fault::WrongLength => "wrong length",
            Fault::OutsideList => "value outside its list",
            Fault::FillerSet => "filler bit set",
            Fault::TextByte => "text byte outside its list",
        };
        write!(f, "{words}")
    }
}

/// A faulty order of a telegram.
#[derive(Clone, Copy, Debug, PartialEq, Eq)]
pub struct Refused {
    /// Why it is refused.
    pub fault: Fault,
    /// The place of its first byte in the telegram, counted from 0.
    pub first: usize,
}
