ghost use Rattle.std.specs.Prelude.{◌≡◌};
ghost use Rattle.call_list.specs.declared.listed.ListFault.TheVariants.{NoMemory};

use crate::entry::{Entry, Wrong};
use std::alloc::AllocFailed;

/// A call of a list.
#[derive(Drop)]
pub struct Listed {
    /// The number of its line, counted from 1.
    pub line: usize,
    /// What the line asks for.
    pub entry: Entry,
}

/// Why a call list was not read.
#[derive(Clone, Copy)]
pub enum ListFault {
    /// A line is bad.
    Line {
        /// The number of the first bad line, counted from 1.
        line: usize,
        /// What is wrong with it.
        wrong: Wrong,
    },
    /// Memory for the calls or for their bytes is wanting.
    NoMemory,
}

impl<T: Drop> From<AllocFailed<T>> for ListFault {
    ghost from_gives = { λ _ r. r ≡ NoMemory };

    fn from(_e: AllocFailed<T>) -> ListFault {
        ListFault::NoMemory
    }
}
