use crate::note::Note;

/// Where an order stands in its telegram, in bytes counted from 0.
#[derive(Clone, Copy)]
pub struct Places {
    /// The place of its first byte.
    pub first: usize,
    /// The place of the byte after it.
    pub after: usize,
}

/// What a row tells.
#[derive(Clone, Copy)]
pub enum Told {
    /// The next call of the plan; of an order from a telegram also where it stands there.
    Call(Option<Places>),
    /// What is no call of the unit.
    Note(Note),
}

/// A row of a plan: what it tells, and of which line of the list.
#[derive(Clone, Copy)]
pub struct Row {
    /// The number of that line, as the list counts it.
    pub line: usize,
    /// What it tells.
    pub told: Told,
}
