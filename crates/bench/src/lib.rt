//! The bench runs whole lists of calls in two cabs, each with a unit just switched on at its own
//! end. Its definitions keep the book of requests from calls and answers alone, and its contracts
//! say the laws over runs of every list, accepted and refused calls alike.
#![tactic(auto)]

mod edges;
mod laws;
mod runs;

pub use edges::edges_stand;
pub use laws::laws_stand;
pub use runs::{Ran, Ready, run_lent};
