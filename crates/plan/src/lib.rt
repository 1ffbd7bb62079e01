//! What a call list asks of a cab: the calls that each of the two cabs gets, and the rows that tell
//! of them and of what is no call, that is refused records and how the reading of a telegram ended.
#![tactic(auto)]

mod cab;
mod laws;
mod lists;
mod note;
mod rows;
mod trace;

pub use cab::Cab;
pub use laws::plans_stand;
pub use lists::{Plan, Plans, plan_list, plan_lists};
pub use note::Note;
pub use rows::{Places, Row, Told};
pub use trace::note_trace;
