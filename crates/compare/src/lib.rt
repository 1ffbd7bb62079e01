//! Two cabs run side by side: whether they were asked alike, and what differs in speeds, answers
//! and messages. Where neighbouring texts came in another order, it marks the places whose answers
//! or messages are left open.
#![tactic(auto)]

mod account;
mod asked;
mod cabs;
mod compare;
mod laws;
mod marks;
mod run;
mod tally;
mod verdict;

pub use asked::same_asked;
pub use cabs::{Compared, compare_cabs};
pub use laws::verdicts_stand;
pub use marks::Mark;
pub use tally::Tally;
pub use verdict::{Tallies, Verdict, same_message};
