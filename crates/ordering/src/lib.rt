//! Records that stand in an order, as waiting requests and lines of text do.
//!
//! The crate finds which record of a run is the first. It also has a shelf: a row of records on
//! memory that its owner lends, so that keeping them needs no memory of its own. It knows nothing
//! of what a record means.
#![tactic(auto)]

pub mod order;
pub mod shelf;
