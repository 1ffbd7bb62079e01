//! What passes over the driver's desk: levels, requests to the driver, what the unit answers to a
//! call and why it refuses one, and the record of the train.
//!
//! How the unit comes to an answer is not known here.
#![tactic(auto)]

mod answer;
mod level;
mod refusal;
mod request;
mod train_record;

pub use answer::Answer;
pub use level::Level;
pub use refusal::Refusal;
pub use request::{CYCLES_TO_ACKNOWLEDGE, Class, Request};
pub use train_record::{Confirmed, Draft, TrainRecord};
