ghost use Rattle.std.specs.Prelude.{◌≡◌, Some};
ghost use Rattle.driver_desk.specs.Numbers.{outcome_number};
ghost use Rattle.cab_unit.specs.Events.{said};
ghost use Rattle.columns.specs.Words.{call_words, request_column, speed_column};

use cab_unit::Call;
use driver_desk::{Refusal, Request};
use std::fmt;
use telegram::Order;

/// A call in the words of its row. An order is told as a line of a call list has it, without the
/// word `order` and without the words of a text; a cycle without its block, a taking without its
/// numbers.
#[derive(Clone, Copy)]
pub struct CallWords<'a>(pub &'a Call<'a>);

impl fmt::Display for CallWords<'_> {
    ghost output = { λ w. Some (call_words (said w.0.now)) };

    fn fmt<W: fmt::Write>(&self, f: &mut fmt::Formatter<W>) -> fmt::Result {
        match *self.0 {
            Call::Cycle(_) => f.write_str("cycle"),
            Call::Press(button) => write!(f, "press {button}"),
            Call::Take(_) => f.write_str("take"),
            Call::Order(Order::Authority(mode)) => write!(f, "authority {}", mode.name()),
            Call::Order(Order::Level(level)) => write!(f, "level {level}"),
            Call::Order(Order::Text { number, wanted, .. }) => {
                let mark = if wanted { "wanted" } else { "shown" };
                write!(f, "text {number} {mark}")
            }
            Call::Order(Order::TextWithdrawal(number)) => write!(f, "withdraw {number}"),
            Call::Order(Order::EmergencyStop) => f.write_str("stop"),
            Call::Order(Order::Sign) => f.write_str("sign"),
            Call::Order(Order::Permission) => f.write_str("permission"),
        }
    }
}

/// A request as CLASS:NUMBER@CYCLE and t or u for timed or untimed, or - where there is none.
#[derive(Clone, Copy)]
pub struct RequestWords(pub Option<Request>);

impl fmt::Display for RequestWords {
    ghost output = { λ w. Some (request_column w.0) };

    fn fmt<W: fmt::Write>(&self, f: &mut fmt::Formatter<W>) -> fmt::Result {
        match self.0 {
            None => f.write_str("-"),
            Some(request) => write!(f, "{request}"),
        }
    }
}

/// A speed in whole km/h, 0 to 600, or ? where it is unknown.
#[derive(Clone, Copy)]
pub struct SpeedWords(pub Option<u16>);

impl fmt::Display for SpeedWords {
    ghost output = { λ w. Some (speed_column w.0) };

    fn fmt<W: fmt::Write>(&self, f: &mut fmt::Formatter<W>) -> fmt::Result {
        match self.0 {
            None => f.write_str("?"),
            Some(speed) => write!(f, "{speed}"),
        }
    }
}

/// 0 for a call that was accepted, or the number of its refusal, 1 to 40.
pub fn outcome_number(outcome: Option<Refusal>) -> u8
    ensures { result ≡ outcome_number outcome }
{
    outcome.map_or(0, |refusal| refusal.number())
}
