ghost use Rattle.std.specs.Prelude.{◌≡◌};
ghost use Rattle.cab_unit.specs.Buttons.{supervised, startable};
ghost use Rattle.cab_unit.specs.Heard.{is_listed};
ghost use Rattle.cab_unit.specs.Line.{listening};
ghost use Rattle.driver_desk.specs.Numbers.{level_of};

use driver_desk::Level;
use telegram::Mode;

// The level with a number up to 2. An order with another number was refused before.
pub fn level_numbered(number: u8) -> Level
    ensures { result ≡ level_of number }
{
    Level::try_from(number).unwrap_or(Level::Two)
}

// The supervised modes are those that an authority can be for.
pub fn is_supervised(mode: Mode) -> bool
    ensures supervised { result ≡ supervised mode }
    ensures listed { result ≡ is_listed mode }
{
    matches!(
        mode,
        Mode::FullSupervision | Mode::OnSight | Mode::LimitedSupervision
    )
}

pub fn is_startable(mode: Mode) -> bool
    ensures { result ≡ startable mode }
{
    matches!(mode, Mode::Standby | Mode::PostTrip)
}

/// What a unit holds besides its requests, its train record, its cycle number and its train end.
#[derive(Clone, Copy)]
pub struct Desk {
    /// The mode that stands.
    pub mode: Mode,
    /// The level: 0, 1 or 2.
    pub level: Level,
    /// Whether an authority is held.
    pub authority: bool,
    /// Whether a start is pending: from Start at level 2 to an authority, a permission, Close desk
    /// or System Failure.
    pub pending: bool,
    /// For how many cycles the line side has been silent, 0 to 401. It counts at level 2, in Full
    /// Supervision or On Sight, while an authority is held; elsewhere it is 0.
    pub silence: u16,
}

impl Desk {
    // Whether the silence of the line side is counted.
    pub(crate) fn is_listening(&self) -> bool
        ensures { result ≡ listening self.now }
    {
        self.level == Level::Two
            && matches!(self.mode, Mode::FullSupervision | Mode::OnSight)
            && self.authority
    }
}
