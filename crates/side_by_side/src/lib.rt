//! Two cabs laid side by side: what call lists ask of a bus cab and a pulse cab is run and compared
//! in one call, and what is found has a status.
#![tactic(auto)]

mod cabs;
mod finding;
mod ready;
mod status;

pub use cabs::BothCabs;
pub use finding::Finding;
pub use ready::ReadyCabs;
pub use status::Status;
