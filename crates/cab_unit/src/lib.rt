//! The unit that decides for one desk. It holds the mode, the level, the requests that wait for the
//! driver and the train record, and it owns the train end whose brake line it sets.
//! Each cycle, order, press and taking is answered with all that the desk then shows; a refused one
//! changes nothing.
#![tactic(auto)]

mod button;
mod cab;
mod call;
mod cycles;
mod desk;
mod examples;
mod limits;
mod orders;
mod presses;
mod speed;
mod unit;
mod waiting;

pub use call::Call;
pub use desk::Desk;
pub use driver_desk::{Answer, Class, Confirmed, Draft, Level, Refusal, Request, TrainRecord};
pub use examples::confirm_one;
pub use limits::{LONGEST_SILENCE, MOST_TEXTS, MOST_WAITING, OVERRIDE_SPEED};
pub use unit::Unit;
