//! The numbers that the unit counts up to, or judges by.

/// With so many silent cycles of the line side, of 0.1 s each, a moving train is braked, and a
/// standing one has lost its authority. Silence is counted no further.
pub const LONGEST_SILENCE: u16 = 401;

/// The speed in km/h up to which Override is enabled.
pub const OVERRIDE_SPEED: u16 = 20;

/// How many texts may wait for the driver at the same time.
pub const MOST_TEXTS: usize = 12;

/// For how many requests a unit has room: one of each class but text, and the texts.
pub const MOST_WAITING: usize = 16;
