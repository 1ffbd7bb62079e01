ghost use Rattle.cab_unit.specs.Buttons.{ButtonNumbered};

use driver_desk::{Level, Refusal, Request};

// The nine buttons of the desk.
#[derive(Clone, Copy)]
pub enum Button {
    Acknowledge,
    Start,
    Shunting,
    ExitShunting,
    Override,
    Level(Level),
    CloseDesk,
}

// The buttons have the numbers 1 to 9.
impl TryFrom<u8> for Button {
    type Error = Refusal;

    ghost try_from_gives = { ButtonNumbered };

    fn try_from(number: u8) -> Result<Button, Refusal> {
        match number {
            1 => Ok(Button::Acknowledge),
            2 => Ok(Button::Start),
            3 => Ok(Button::Shunting),
            4 => Ok(Button::ExitShunting),
            5 => Ok(Button::Override),
            6 => Ok(Button::Level(Level::Zero)),
            7 => Ok(Button::Level(Level::One)),
            8 => Ok(Button::Level(Level::Two)),
            9 => Ok(Button::CloseDesk),
            _ => Err(Refusal::NoSuchButton),
        }
    }
}

// What takes a look at the requests or the speed, found once for all nine buttons.
#[derive(Clone, Copy)]
pub struct Grounds {
    pub first: Option<Request>,
    pub stands: bool,
    pub crawls: bool,
    // The train stands in Standby or Post Trip, and no request of class mode waits.
    pub free: bool,
}
