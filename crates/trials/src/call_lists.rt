use crate::checks::{check, check_words};
use call_list::{Entry, ListFault, Wrong, read_list};
use std::alloc::Global;
use telegram::Order;

// The first bad line of a list and what is wrong there; none where all are good.
fn bad_line(heap: Global, list: &str) -> Option<(usize, Wrong)> {
    match read_list(heap, list.as_bytes()) {
        Err(ListFault::Line { line, wrong }) => Some((line, wrong)),
        _ => None,
    }
}

// A list, its first bad line, and what is wrong there.
const BAD_LISTS: &[(&str, usize, Wrong)] = &[
    ("cycle 8000", 1, Wrong::MissingWord),
    (
        "\n# a comment\n  cycle 8000 00000000 x\n",
        3,
        Wrong::ExtraWord,
    ),
    ("cycle 8000 0000000\ncycle", 1, Wrong::NotHexadecimal),
    ("cycle 80g0 -", 1, Wrong::NotHexadecimal),
    ("cycle x", 1, Wrong::MissingWord),
    ("telegram x y", 1, Wrong::ExtraWord),
    ("telegram 6002 6002", 1, Wrong::ExtraWord),
    ("cycle - -\r\ncycles - -", 2, Wrong::UnknownCall),
    ("press 255\npress 256", 2, Wrong::NotANumber),
    ("press 1A", 1, Wrong::NotANumber),
    ("press x y", 1, Wrong::ExtraWord),
    ("press\u{b}1", 1, Wrong::UnknownCall),
    ("Press 1", 1, Wrong::UnknownCall),
    ("record 1 2 3", 1, Wrong::MissingWord),
    ("record x 2 3", 1, Wrong::MissingWord),
    ("record 1 2 x 4294967296", 1, Wrong::NotANumber),
    ("order", 1, Wrong::MissingWord),
    ("order halt 1 2", 1, Wrong::UnknownOrder),
    ("order Sign", 1, Wrong::UnknownOrder),
    ("order level 256", 1, Wrong::NotANumber),
    ("order withdraw 256", 1, Wrong::NotANumber),
    ("order text 1", 1, Wrong::MissingWord),
    ("order text 256 seen", 1, Wrong::NotANumber),
    ("order stop 1", 1, Wrong::ExtraWord),
    ("order authority fs", 1, Wrong::UnknownMode),
    ("order text 1 seen", 1, Wrong::NeitherWantedNorShown),
];

#[test]
fn a_list_is_refused_at_its_first_bad_line_and_told_why(rt: HostRuntime) {
    for &(list, line, wrong) in BAD_LISTS {
        check(&rt, list, bad_line(rt.alloc(), list), Some((line, wrong)));
    }
    for &(wrong, words) in &[
        (Wrong::UnknownCall, "no such call"),
        (Wrong::MissingWord, "a word is missing"),
        (Wrong::ExtraWord, "there are words after the call's last"),
        (
            Wrong::NotHexadecimal,
            "bytes are pairs of hexadecimal digits, or - for none",
        ),
        (
            Wrong::NotANumber,
            "a number is wanted, and it is not in its range",
        ),
        (Wrong::UnknownOrder, "no such order"),
        (Wrong::UnknownMode, "no such mode"),
        (Wrong::NeitherWantedNorShown, "a text is wanted or shown"),
    ] {
        check_words(&rt, rt.alloc(), &wrong, words);
    }
}

// Bytes as one number, the first byte the highest.
fn number(bytes: &[u8]) -> usize {
    let mut number = 0usize;
    for byte in bytes {
        number = number.wrapping_mul(256).wrapping_add(*byte as usize);
    }
    number
}

// What a line asks for in numbers: its kind, then what it holds; bytes as their count and one number.
fn numbers(entry: &Entry) -> [usize; 5] {
    match entry {
        Entry::Cycle { bus, pulse } => [10, bus.len(), number(bus), pulse.len(), number(pulse)],
        Entry::Telegram(bytes) => [11, bytes.len(), number(bytes), 0, 0],
        Entry::Press(n) => [1, *n as usize, 0, 0, 0],
        Entry::Record {
            driver,
            length,
            percentage,
            speed,
        } => [
            2,
            *driver as usize,
            *length as usize,
            *percentage as usize,
            *speed as usize,
        ],
        Entry::Order(Order::Authority(mode)) => [3, mode.code() as usize, 0, 0, 0],
        Entry::Order(Order::Level(n)) => [4, *n as usize, 0, 0, 0],
        Entry::Order(
            Order::Text {
                number,
                wanted,
                text,
            },
        ) => [
            5,
            *number as usize,
            *wanted as usize,
            !text.is_empty() as usize,
            0,
        ],
        Entry::Order(Order::TextWithdrawal(n)) => [6, *n as usize, 0, 0, 0],
        Entry::Order(Order::EmergencyStop) => [7, 0, 0, 0, 0],
        Entry::Order(Order::Permission) => [8, 0, 0, 0, 0],
        Entry::Order(Order::Sign) => [9, 0, 0, 0, 0],
    }
}

// How many calls a list has, and the line and the numbers of the one at a place.
fn call_at(heap: Global, list: &str, place: usize) -> Option<(usize, usize, [usize; 5])> {
    let Ok(listed) = read_list(heap, list.as_bytes()) else {
        return None;
    };
    let call = listed.get(place)?;
    Some((listed.len(), call.line, numbers(&call.entry)))
}

// A list of one call, and the call's numbers.
const CALLS: &[(&str, [usize; 5])] = &[
    ("press 010", [1, 10, 0, 0, 0]),
    ("press 000000000010", [1, 10, 0, 0, 0]),
    ("press 255", [1, 255, 0, 0, 0]),
    (
        "record 4294967295 4294967294 4294967293 4294967292",
        [2, 4294967295, 4294967294, 4294967293, 4294967292],
    ),
    ("record 7 4294967295 0 12", [2, 7, 4294967295, 0, 12]),
    ("order authority SF", [3, 9, 0, 0, 0]),
    ("order level 3", [4, 3, 0, 0, 0]),
    ("order level 255", [4, 255, 0, 0, 0]),
    ("order text 20 wanted", [5, 20, 1, 0, 0]),
    ("order text 21 shown", [5, 21, 0, 0, 0]),
    ("order text 255 shown", [5, 255, 0, 0, 0]),
    ("order withdraw 20", [6, 20, 0, 0, 0]),
    ("order withdraw 255", [6, 255, 0, 0, 0]),
    ("order stop", [7, 0, 0, 0, 0]),
    ("order permission", [8, 0, 0, 0, 0]),
    ("order sign", [9, 0, 0, 0, 0]),
];

const NARROW: &str = "# a morning\n\n\tcycle 80Ff -\r\ntelegram 6002";

const WIDE: &str = "# a morning\n  #in May\n \r\n\tcycle 80Ff -\r\ntelegram  6002 ";

// A list of a cycle and a telegram, the place of one of them, its line and its numbers.
const LISTS: &[(&str, usize, usize, [usize; 5])] = &[
    (NARROW, 0, 3, [10, 2, 0x80ff, 0, 0]),
    (NARROW, 1, 4, [11, 2, 0x6002, 0, 0]),
    (WIDE, 0, 4, [10, 2, 0x80ff, 0, 0]),
    (WIDE, 1, 5, [11, 2, 0x6002, 0, 0]),
];

#[test]
fn calls_are_read_past_comments_and_blanks(rt: HostRuntime) {
    for &(list, numbers) in CALLS {
        let found = call_at(rt.alloc(), list, 0);
        check(&rt, list, found, Some((1, 1, numbers)));
    }
    for &(list, place, line, numbers) in LISTS {
        let found = call_at(rt.alloc(), list, place);
        check(&rt, list, found, Some((2, line, numbers)));
    }
}
