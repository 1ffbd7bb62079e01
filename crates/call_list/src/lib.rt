//! Call lists: a text with one call to a line, for the bus cab and the pulse cab alike.
//!
//! The crate reads a list, or names its first bad line. It knows the words of the format, and not
//! what a unit answers to a call.
#![tactic(auto)]

mod entry;
mod hexadecimal;
mod line;
mod list;
mod listed;
mod modes;
mod numbers;
mod order;
mod words;

pub use entry::{Entry, Wrong};
pub use list::read_list;
pub use listed::{ListFault, Listed};
