ghost use Rattle.std.specs.Prelude.{◌≡◌, Some};
ghost use Rattle.call_list.specs.Faults.{wrong_text};
ghost use Rattle.call_list.specs.declared.entry.LineFault.TheVariants.{Bad, NoMemory};

use std::alloc::AllocError;
use std::fmt;
use telegram::Order;

/// What a line of a call list asks for.
#[derive(Drop)]
pub enum Entry {
    /// A cycle. A block may be any bytes, of any number.
    Cycle {
        /// The block for the end of the bus cab.
        bus: Vec<u8>,
        /// The block for the end of the pulse cab.
        pulse: Vec<u8>,
    },
    /// A telegram of these bytes, to be read from its start.
    Telegram(Vec<u8>),
    /// A press of the button with this number, 0 to 255.
    Press(u8),
    /// The numbers of a train, each 0 to 4294967295. No range is asked here: that is done when a
    /// draft is made of them.
    Record {
        /// The driver number.
        driver: u32,
        /// The length in m.
        length: u32,
        /// The brake percentage.
        percentage: u32,
        /// The maximum speed in km/h.
        speed: u32,
    },
    /// An order that comes from no telegram. It may name any of the ten modes, and as a level any
    /// number from 0 to 255; a text has no words.
    Order(Order<'static>),
}

/// What is wrong with a line of a call list.
#[derive(Clone, Copy, PartialEq, Eq, Debug)]
pub enum Wrong {
    /// The first word is none of `cycle`, `telegram`, `press`, `record` and `order`.
    UnknownCall,
    /// There are fewer words than the call wants.
    MissingWord,
    /// There are more words than the call wants.
    ExtraWord,
    /// The word for a block or a telegram is neither `-` nor hexadecimal digits, two to a byte.
    NotHexadecimal,
    /// A word is no decimal number, or the number is too large for its place.
    NotANumber,
    /// The word after `order` is none that names an order.
    UnknownOrder,
    /// The word for a mode is the letters of none of the ten.
    UnknownMode,
    /// The word behind the number of a text is neither `wanted` nor `shown`.
    NeitherWantedNorShown,
}

/// What is wrong in words for people, as they are printed behind the number of the line.
impl fmt::Display for Wrong {
    ghost output = { λ w. Some (wrong_text w) };

    fn fmt<W: fmt::Write>(&self, f: &mut fmt::Formatter<W>) -> fmt::Result {
        f.write_str(match self {
            Wrong::UnknownCall => "no such call",
            Wrong::MissingWord => "a word is missing",
            Wrong::ExtraWord => "there are words after the call's last",
            Wrong::NotHexadecimal => "bytes are pairs of hexadecimal digits, or - for none",
            Wrong::NotANumber => "a number is wanted, and it is not in its range",
            Wrong::UnknownOrder => "no such order",
            Wrong::UnknownMode => "no such mode",
            Wrong::NeitherWantedNorShown => "a text is wanted or shown",
        })
    }
}

// Why a line was not read.
#[derive(Clone, Copy, PartialEq, Eq, Debug)]
pub(crate) enum LineFault {
    Bad(Wrong),
    NoMemory,
}

impl From<Wrong> for LineFault {
    ghost from_gives = { λ w r. r ≡ Bad w };

    fn from(wrong: Wrong) -> LineFault {
        LineFault::Bad(wrong)
    }
}

impl From<AllocError> for LineFault {
    ghost from_gives = { λ _ r. r ≡ NoMemory };

    fn from(_e: AllocError) -> LineFault {
        LineFault::NoMemory
    }
}
