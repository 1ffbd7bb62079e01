ghost use Rattle.std.specs.Prelude.{◌≡◌};
ghost use Rattle.cab_unit.specs.State.{standing, moving, crawling};

use crate::limits::OVERRIDE_SPEED;

// Known and 0. An unknown speed is neither standing nor moving.
pub fn is_standing(speed: Option<u16>) -> bool
    ensures { result ≡ standing speed }
{
    speed == Some(0)
}

pub fn is_moving(speed: Option<u16>) -> bool
    ensures { result ≡ moving speed }
{
    speed.is_some_and(|v| v > 0)
}

// At most the speed of Override.
pub fn is_crawling(speed: Option<u16>) -> bool
    ensures { result ≡ crawling speed }
{
    speed.is_some_and(|v| v <= OVERRIDE_SPEED)
}
