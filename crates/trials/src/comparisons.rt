use crate::cabs::{ready, switch_off};
use crate::checks::{InShort, check, check_each};
use crate::signs::calls_of;
use cab_unit::Call;
use compare::{Compared, Mark, Tallies, Tally, Verdict, compare_cabs, same_asked, same_message};
use std::alloc::Global;
use std::process::Abort;
use telegram::Order;
use train_end::{BusEnd, PulseEnd};

const HALT: Call<'static> = Call::Order(Order::Text {
    number: 7,
    wanted: true,
    text: b"Halt",
});

const OTHER_WORDS: Call<'static> = Call::Order(Order::Text {
    number: 7,
    wanted: true,
    text: b"Hall",
});

const OTHER_NUMBER: Call<'static> = Call::Order(Order::Text {
    number: 8,
    wanted: true,
    text: b"Halt",
});

const NOT_WANTED: Call<'static> = Call::Order(Order::Text {
    number: 7,
    wanted: false,
    text: b"Halt",
});

// Two calls, and whether they are the same up to blocks.
const ASKED: &[(Call<'static>, Call<'static>, bool)] = &[
    (Call::Cycle(&[0x80, 0]), Call::Cycle(&[]), true),
    (Call::Cycle(&[]), Call::Press(1), false),
    (Call::Press(1), Call::Press(1), true),
    (Call::Press(1), Call::Press(2), false),
    (HALT, HALT, true),
    (HALT, OTHER_WORDS, false),
    (HALT, OTHER_NUMBER, false),
    (HALT, NOT_WANTED, false),
];

#[test]
fn calls_are_the_same_up_to_blocks(rt: HostRuntime) {
    for (call, other, same) in ASKED {
        assert!(rt; same_asked(call, other) == *same);
    }
}

// All differ: a line without words is not the same as no line.
const WORDS: &[Option<&[u8]>] = &[None, Some(b""), Some(b"Halt"), Some(b"Hall")];

#[test]
fn messages_are_the_same_where_their_words_are(rt: HostRuntime) {
    for (i, one) in WORDS.iter().enumerate() {
        for (k, other) in WORDS.iter().enumerate() {
            let is_same = same_message(*one, *other);
            check(&rt, "places, same", (i, k, is_same), (i, k, i == k));
        }
    }
}

// How many samples were compared, how many of them differ, and the place of the first that differs.
type Count = (usize, usize, Option<usize>);

// What a case shows; two lists in signs, the first for the bus cab and the other for the pulse cab; whether they are alike; what is
// compared of each place, by the first letter of its mark; the words on top of the bus cab's window behind each call, - where there is
// no line; and what is found of speeds, answers and messages.
struct Case(
    &'static str,
    &'static str,
    &'static str,
    bool,
    &'static str,
    &'static str,
    [Count; 3],
);

const CASES: &[Case] = &[
    Case(
        "no call",
        "",
        "",
        true,
        "",
        "",
        [(0, 0, None), (0, 0, None), (0, 0, None)],
    ),
    Case(
        "one list: each text has its answer and its message compared",
        "o21!x",
        "O21!x",
        true,
        "CCCCC",
        "-212-",
        [(1, 0, None), (5, 0, None), (5, 0, None)],
    ),
    Case(
        "behind twelve texts that wait a thirteenth is refused in both",
        "123456789abcd",
        "213456789abcd",
        true,
        "ILCCCCCCCCCCC",
        "1111111111111",
        [(0, 0, None), (11, 0, None), (12, 0, None)],
    ),
    Case(
        "a stretch ends where the same texts came",
        "12345",
        "21345",
        true,
        "ILCCC",
        "11111",
        [(0, 0, None), (3, 0, None), (4, 0, None)],
    ),
    Case(
        "two stretches behind each other",
        "1234",
        "2143",
        true,
        "ILIL",
        "1111",
        [(0, 0, None), (0, 0, None), (2, 0, None)],
    ),
    Case(
        "a text that comes twice in a stretch",
        "AAB?",
        "BAA?",
        true,
        "IILC",
        "AAAA",
        [(0, 0, None), (1, 0, None), (2, 0, None)],
    ),
    Case(
        "of two texts of one number the one that came last stands behind the stretch",
        "4D?",
        "D4?",
        true,
        "ILC",
        "4DD",
        [(0, 0, None), (1, 0, None), (2, 2, Some(1))],
    ),
    Case(
        "behind eleven lines two of a larger number in two orders: the last of the twelve makes room, and the other one is left",
        "123456789abLM!!!!!!!!!!!",
        "123456789abML!!!!!!!!!!!",
        true,
        "CCCCCCCCCCCILCCCCCCCCCCC",
        "111111111111123456789abM",
        [(0, 0, None), (22, 0, None), (23, 1, Some(23))],
    ),
    Case(
        "a line without words against no line",
        "?_",
        "??",
        false,
        "CC",
        "- ",
        [(0, 0, None), (2, 1, Some(1)), (2, 1, Some(1))],
    ),
    Case(
        "5 km/h against 6 at the second of three cycles",
        "ovo?",
        "OVO?",
        true,
        "CCCC",
        "----",
        [(3, 1, Some(1)), (4, 0, None), (4, 0, None)],
    ),
    Case(
        "one list goes on",
        "o?",
        "O",
        false,
        "C",
        "--",
        [(1, 0, None), (1, 0, None), (1, 0, None)],
    ),
    Case(
        "other calls, equal answers",
        "o?",
        "Ol",
        false,
        "CC",
        "--",
        [(1, 0, None), (2, 0, None), (2, 0, None)],
    ),
    Case(
        "a text changes places with a cycle, which is no sample of speed then",
        "o1o",
        "OO1",
        false,
        "CCC",
        "-11",
        [(1, 0, None), (3, 2, Some(1)), (3, 1, Some(1))],
    ),
    Case(
        "texts that never come even",
        "123",
        "234",
        false,
        "CCC",
        "111",
        [(0, 0, None), (3, 3, Some(0)), (3, 3, Some(0))],
    ),
    Case(
        "a refused text is in no stretch",
        "442",
        "424",
        false,
        "CCC",
        "442",
        [(0, 0, None), (3, 2, Some(1)), (3, 1, Some(1))],
    ),
    Case(
        "on top is the latest cycle, and of one cycle the smallest number",
        "94o5",
        "94O5",
        true,
        "CCCC",
        "9445",
        [(1, 0, None), (4, 0, None), (4, 0, None)],
    ),
    Case(
        "of twelve lines that of text 12 makes room for text 13, which is left when the others are acknowledged",
        "1L23456789abM!!!!!!!!!!!",
        "1L23456789abM!!!!!!!!!!!",
        true,
        "CCCCCCCCCCCCCCCCCCCCCCCC",
        "111111111111123456789abM",
        [(0, 0, None), (24, 0, None), (24, 0, None)],
    ),
    Case(
        "behind twelve that wait one of a smaller number is refused",
        "23456789abcd1",
        "23456789abcd1",
        true,
        "CCCCCCCCCCCCC",
        "2222222222222",
        [(0, 0, None), (13, 0, None), (13, 0, None)],
    ),
    Case(
        "withdrawn, and again, which is refused",
        "94ww",
        "94ww",
        true,
        "CCCC",
        "9499",
        [(0, 0, None), (4, 0, None), (4, 0, None)],
    ),
    Case(
        "acknowledged",
        "94!!",
        "94!!",
        true,
        "CCCC",
        "949-",
        [(0, 0, None), (4, 0, None), (4, 0, None)],
    ),
    Case(
        "a hold that is acknowledged has number 0, and takes no text 0 out",
        "v0o!!",
        "V0O!!",
        true,
        "CCCCC",
        "-000-",
        [(2, 1, Some(0)), (5, 0, None), (5, 0, None)],
    ),
    Case(
        "Close desk, refused before the train is known to stand",
        "1xox",
        "1xOx",
        true,
        "CCCC",
        "111-",
        [(1, 0, None), (4, 0, None), (4, 0, None)],
    ),
    Case(
        "a text that waits is refused, and one of its number that wants no acknowledgement takes its line",
        "4=D",
        "4=D",
        true,
        "CCC",
        "44D",
        [(0, 0, None), (3, 0, None), (3, 0, None)],
    ),
];

impl InShort<u8> for Mark {
    fn in_short(&self) -> u8 {
        match self {
            Mark::Compared => b'C',
            Mark::Inside => b'I',
            Mark::Last => b'L',
        }
    }
}

impl InShort<u8> for Option<&[u8]> {
    fn in_short(&self) -> u8 {
        match self {
            Some([letter]) => *letter,
            Some(_) => b' ',
            None => b'-',
        }
    }
}

fn count(tally: Tally) -> Count {
    (tally.compared, tally.differing, tally.first)
}

impl InShort<[Count; 3]> for Tallies {
    fn in_short(&self) -> [Count; 3] {
        [
            count(self.speeds),
            count(self.answers),
            count(self.messages),
        ]
    }
}

// What is found of a list in a bus cab and another in a pulse cab.
fn verdict_of<'a>(
    rt: &impl Abort,
    heap: Global,
    calls: &'a [Call<'a>],
    other_calls: &'a [Call<'a>],
) -> Verdict<'a> {
    let one = ready(rt, heap, BusEnd::new(), calls);
    let other = ready(rt, heap, PulseEnd::new(), other_calls);
    match compare_cabs(heap, one, other) {
        Ok(ran) => {
            let Compared {
                one,
                other,
                verdict,
            } = ran;
            let _runs = (switch_off(one), switch_off(other));
            verdict.expect(rt, "memory for the verdict")
        }
        Err(_cabs) => panic!(rt; "the places do not fit"),
    }
}

fn check_case(rt: &impl Abort, heap: Global, case: &Case) {
    let Case(shows, list, other_list, alike, marks, words, counts) = case;
    let calls = calls_of(rt, heap, list.as_bytes());
    let other_calls = calls_of(rt, heap, other_list.as_bytes());
    let verdict = verdict_of(rt, heap, &calls, &other_calls);
    check(rt, shows, verdict.alike, *alike);
    check_each(rt, shows, &verdict.marks, marks.as_bytes());
    check_each(rt, shows, &verdict.messages, words.as_bytes());
    check(rt, shows, verdict.tallies.in_short(), *counts);
}

#[test]
fn runs_are_compared_place_by_place(rt: HostRuntime) {
    for case in CASES {
        check_case(&rt, rt.alloc(), case);
    }
}
