use cab_unit::Call;
use std::alloc::Global;
use std::process::Abort;
use telegram::Order;

fn text(number: u8, wanted: bool, text: &[u8]) -> Call<'_> {
    Call::Order(Order::Text {
        number,
        wanted,
        text,
    })
}

// The call that a sign stands for. A digit or a small letter up to d is a text that wants acknowledgement, of that number to the base 16,
// and a capital up to M one that wants none, numbered from 1; its words are the sign itself.
fn call_of(sign: &[u8]) -> Call<'_> {
    match sign {
        // 0 and 5 km/h on the vehicle bus, 0 and 6 km/h in wheel pulses
        [b'o'] => Call::Cycle(&[0x80, 0]),
        [b'v'] => Call::Cycle(&[0x80, 5]),
        [b'O'] => Call::Cycle(&[0, 0, 0, 0]),
        [b'V'] => Call::Cycle(&[0, 5, 0, 5]),
        [n @ b'0'..=b'9'] => text(*n - b'0', true, sign),
        [n @ b'a'..=b'd'] => text(*n - b'a' + 10, true, sign),
        [n @ b'A'..=b'M'] => text(*n - b'A' + 1, false, sign),
        // text 4 with other words, and without words
        [b'='] => text(4, true, sign),
        [b'_'] => text(4, true, b""),
        [b'w'] => Call::Order(Order::TextWithdrawal(4)),
        // the buttons Acknowledge, Level 0 and Close desk
        [b'!'] => Call::Press(1),
        [b'l'] => Call::Press(6),
        [b'x'] => Call::Press(9),
        _ => Call::Order(Order::Sign),
    }
}

// The calls that signs stand for.
pub fn calls_of<'a>(rt: &impl Abort, heap: Global, signs: &'a [u8]) -> Vec<Call<'a>> {
    let mut calls = Vec::new(heap);
    for sign in signs.chunks(1) {
        calls.push(call_of(sign)).expect(rt, "memory for a call");
    }
    calls
}
