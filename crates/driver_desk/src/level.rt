ghost use Rattle.std.specs.Prelude.{◌≡◌};
ghost use Rattle.driver_desk.specs.Numbers.{level_number, listed_level};

use crate::refusal::Refusal;

/// The three levels of the unit.
#[derive(Clone, Copy, PartialEq, Eq, Debug)]
pub enum Level {
    /// Level 0.
    Zero = 0,
    /// Level 1.
    One = 1,
    /// Level 2.
    Two = 2,
}

impl Level {
    /// The level as a number, 0 to 2.
    pub fn number(self) -> u8
        ensures { result ≡ level_number self }
    {
        self as u8
    }
}

/// The level with a number; a number above 2 gives `OutsideList` (23).
impl TryFrom<u8> for Level {
    type Error = Refusal;

    ghost try_from_gives = { λ number result. result ≡ listed_level number };

    fn try_from(number: u8) -> Result<Level, Refusal> {
        match number {
            0 => Ok(Level::Zero),
            1 => Ok(Level::One),
            2 => Ok(Level::Two),
            _ => Err(Refusal::OutsideList),
        }
    }
}
