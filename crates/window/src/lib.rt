//! The message window: lines of text for the driver, and which of them is on top.
//!
//! The window holds no words. A line says where its text lies in a store of bytes, and the store is
//! given to the call that shows it. The lines stand on memory that the owner lends.
#![tactic(auto)]

ghost use Rattle.ordering.specs.Shelf.{items};
ghost use Rattle.window.specs.Lines.{NumbersDiffer};

use line::Line;
use ordering::shelf::Shelf;

pub mod line;
mod methods;
pub mod refusal;

/// A message window. Its lines stand front to back, counted from position 0, and the line that was
/// added last is in front. No two of them have the same number.
#[derive(Drop)]
pub struct Window<'a> {
    shelf: Shelf<'a, Line>,
    ghost distinct: { NumbersDiffer (items shelf) },
}
