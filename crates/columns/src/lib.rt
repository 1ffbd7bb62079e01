//! What a row of the program tells, in words and in tab-separated columns: a call, a request, an
//! answer, and what is no call. It also finds the first column in which two answers differ.
#![tactic(auto)]

mod answers;
mod difference;
mod names;
mod values;
mod words;

pub use answers::{AnswerColumns, NoteColumns};
pub use difference::{first_difference, same_part};
pub use names::{COLUMNS, Column, HEADING, heading_stands};
pub use values::ColumnValue;
pub use words::{CallWords, RequestWords, SpeedWords, outcome_number};
