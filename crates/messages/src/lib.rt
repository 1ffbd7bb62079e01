//! What a cab's message window shows over a run of calls, told from the calls and their answers
//! alone. Its contracts also say when two windows show the same behind texts that came in another
//! order.
#![tactic(auto)]

mod laws;
mod messages;
mod run;

pub use laws::messages_stand;
pub use run::top_messages;
