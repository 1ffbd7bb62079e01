ghost use Rattle.std.specs.Prelude.{◌≡◌};
ghost use Rattle.call_list.specs.Orders.{name_of, wanted_of, order_of, ReadsOrder};

use crate::entry::Wrong;
use crate::modes::mode_of;
use crate::numbers::byte_wanted;
use crate::words::{last_word, next_word, no_word, split_word};
use telegram::Order;

// What the word after `order` stands for.
#[derive(Clone, Copy)]
pub(crate) enum OrderName {
    Authority,
    Level,
    Text,
    Withdraw,
    Stop,
    Permission,
    Sign,
}

impl<'a> TryFrom<&'a [u8]> for OrderName {
    type Error = Wrong;

    ghost try_from_gives = { λ word r. r ≡ name_of word.now };

    fn try_from(word: &'a [u8]) -> Result<OrderName, Wrong> {
        match word {
            b"" => Err(Wrong::MissingWord),
            b"authority" => Ok(OrderName::Authority),
            b"level" => Ok(OrderName::Level),
            b"text" => Ok(OrderName::Text),
            b"withdraw" => Ok(OrderName::Withdraw),
            b"stop" => Ok(OrderName::Stop),
            b"permission" => Ok(OrderName::Permission),
            b"sign" => Ok(OrderName::Sign),
            _ => Err(Wrong::UnknownOrder),
        }
    }
}

fn wanted_of(word: &[u8]) -> Result<bool, Wrong>
    ensures { result ≡ wanted_of word.now }
{
    match word {
        b"wanted" => Ok(true),
        b"shown" => Ok(false),
        _ => Err(Wrong::NeitherWantedNorShown),
    }
}

// The order that the words after `order` say.
pub(crate) fn order_of(text: &[u8]) -> Result<Order<'static>, Wrong>
    ensures { ReadsOrder (order_of text.now) result }
{
    let (name, rest) = split_word(text);
    match OrderName::try_from(name)? {
        OrderName::Authority => {
            let mode = last_word(rest)?;
            let mode = mode_of(mode).ok_or(Wrong::UnknownMode)?;
            Ok(Order::Authority(mode))
        }
        OrderName::Level => {
            let level = last_word(rest)?;
            Ok(Order::Level(byte_wanted(level)?))
        }
        OrderName::Text => {
            let (number, rest) = next_word(rest)?;
            let wanted = last_word(rest)?;
            let number = byte_wanted(number)?;
            let wanted = wanted_of(wanted)?;
            Ok(Order::Text {
                number,
                wanted,
                text: b"",
            })
        }
        OrderName::Withdraw => {
            let number = last_word(rest)?;
            Ok(Order::TextWithdrawal(byte_wanted(number)?))
        }
        OrderName::Stop => {
            no_word(rest)?;
            Ok(Order::EmergencyStop)
        }
        OrderName::Permission => {
            no_word(rest)?;
            Ok(Order::Permission)
        }
        OrderName::Sign => {
            no_word(rest)?;
            Ok(Order::Sign)
        }
    }
}
