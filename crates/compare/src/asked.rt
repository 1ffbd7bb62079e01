ghost use Rattle.std.specs.Prelude.{◌≡◌, Decides};
ghost use Rattle.cab_unit.specs.Events.{is_cycle, said, unblocked};
ghost use Rattle.compare.specs.Asked.{text_key};

use cab_unit::Call;
use telegram::Order;

// What a text order says, so that texts can be put in order.
#[derive(Clone, Copy, PartialEq, Eq, PartialOrd, Ord)]
pub(crate) struct TextKey<'a> {
    number: u8,
    wanted: bool,
    text: &'a [u8],
}

pub(crate) fn text_key<'a>(call: &Call<'a>) -> Option<TextKey<'a>>
    ensures { result ≡ text_key call.now }
{
    match *call {
        Call::Order(
            Order::Text {
                number,
                wanted,
                text,
            },
        ) => Some(TextKey {
            number,
            wanted,
            text,
        }),
        _ => None,
    }
}

pub(crate) fn is_cycle(call: &Call<'_>) -> bool
    ensures { result ≡ is_cycle (said call.now) }
{
    matches!(*call, Call::Cycle(_))
}

/// Whether two calls are the same: of two cycles whatever their blocks, of two texts with their
/// bytes, of two takings with their four numbers.
pub fn same_asked(call: &Call<'_>, other: &Call<'_>) -> bool
    ensures { Decides result (unblocked (said call.now) ≡ unblocked (said other.now)) }
{
    match (call, other) {
        (Call::Cycle(_), Call::Cycle(_)) => true,
        _ => call == other,
    }
}
