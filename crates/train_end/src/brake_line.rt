ghost use Rattle.std.specs.Prelude.{◌≡◌};
ghost use Rattle.train_end.specs.Line.{line_number};

/// What the brake line demands of the brakes.
#[derive(Clone, Copy, PartialEq, Eq, Debug)]
pub enum BrakeLine {
    /// No braking: number 0.
    Released = 0,
    /// Service braking: number 1.
    Service = 1,
    /// Emergency braking: number 2.
    Emergency = 2,
}

impl BrakeLine {
    /// The line as a number: 0 released, 1 service, 2 emergency.
    pub fn number(self) -> u8
        ensures { result ≡ line_number self }
    {
        self as u8
    }
}
