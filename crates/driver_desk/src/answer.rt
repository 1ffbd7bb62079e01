use crate::level::Level;
use crate::refusal::Refusal;
use crate::request::Request;
use telegram::Mode;
use train_end::BrakeLine;

/// What the unit answers to a cycle, an order, a press or the taking of a record.
///
/// It can be asked for between calls too. Then, and after a refusal, the last three parts are none,
/// none and 0.
#[derive(Clone, Copy, PartialEq, Eq)]
pub struct Answer {
    /// Why the call was refused, or none where it was accepted.
    pub outcome: Option<Refusal>,
    /// The mode after the call.
    pub mode: Mode,
    /// The level after the call.
    pub level: Level,
    /// The brake line that the train end itself holds after the call.
    pub line: BrakeLine,
    /// Which buttons are enabled: bit 0, the least, is for button 1, and bit 8 for button 9.
    pub buttons: u16,
    /// How many requests wait, 0 to 16.
    pub waiting: u8,
    /// The first of the waiting requests, or none.
    pub first: Option<Request>,
    /// The request that this call raised, or none.
    pub raised: Option<Request>,
    /// The request that this call acknowledged, or none.
    pub acknowledged: Option<Request>,
    /// How many requests this call withdrew, 0 to 16.
    pub withdrawn: u8,
}
