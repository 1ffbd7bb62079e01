//! Telegrams: the orders that the line side sends to the train, as a string of bytes.
//!
//! The crate reads the orders one after another, and says where each stands or why one is refused.
//! The ten modes are here too, since orders name them. What an order makes the unit do is not known
//! here.
#![tactic(auto)]

mod examples;
mod faults;
mod fields;
mod kinds;
mod modes;
mod orders;
mod reader;
mod whole;

pub use examples::halt_telegram;
pub use faults::{Fault, Refused};
pub use modes::Mode;
pub use orders::{Order, Placed};
pub use reader::Reader;
pub use whole::{Reading, read_all};
