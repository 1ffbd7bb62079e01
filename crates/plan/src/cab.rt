ghost use Rattle.std.specs.Prelude.{◌≡◌};
ghost use Rattle.plan.specs.Calls.{block_for, cab_name};

/// One of the two cabs of a train: that with the bus end, or that with the pulse end.
#[derive(Clone, Copy, PartialEq, Eq)]
pub enum Cab {
    /// The cab whose end is fed by the vehicle bus, with 2 bytes a cycle.
    Bus,
    /// The cab whose end is fed by wheel pulses, with 4 bytes a cycle.
    Pulse,
}

impl Cab {
    /// The word that a row has for this cab: `bus` or `pulse`.
    pub fn name(self) -> &'static str
        ensures { result.now ≡ cab_name self }
    {
        match self {
            Cab::Bus => "bus",
            Cab::Pulse => "pulse",
        }
    }

    // This cab's own one of the two blocks of a cycle.
    pub(crate) fn block_of<'a>(self, bus: &'a [u8], pulse: &'a [u8]) -> &'a [u8]
        ensures { result.now ≡ block_for self bus.now pulse.now }
    {
        match self {
            Cab::Bus => bus,
            Cab::Pulse => pulse,
        }
    }
}
