//! A train end is one desk's source of speed and its hold on the brake line.
//!
//! The crate says what every make of train end owes the unit above it, and has two makes: one that
//! is fed by the vehicle bus, and one that is fed by wheel pulses. It knows nothing of modes,
//! orders or buttons.
#![tactic(auto)]

mod brake_line;
mod bus;
mod end;
mod pulse;

pub use brake_line::BrakeLine;
pub use bus::BusEnd;
pub use end::TrainEnd;
pub use pulse::PulseEnd;
