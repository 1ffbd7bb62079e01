use crate::cabs::{ready, run_two};
use crate::checks::check;
use crate::noting::NotingEnd;
use cab_unit::{Answer, Call, Draft, TrainRecord, Unit};
use std::alloc::Global;
use std::process::Abort;
use telegram::Order;
use train_end::BusEnd;

pub const TRAIN: TrainRecord = TrainRecord {
    driver: 12345678,
    length: 400,
    percentage: 120,
    speed: 160,
};

// 0, or the number of the refusal.
pub fn outcome(answer: &Answer) -> u8 {
    match answer.outcome {
        Some(refusal) => refusal.number(),
        None => 0,
    }
}

// 0, or the number of the draft's refusal.
fn drafted(driver: u32, length: u32, percentage: u32, speed: u32) -> u8 {
    match Draft::new(driver, length, percentage, speed) {
        Ok(_draft) => 0,
        Err(refusal) => refusal.number(),
    }
}

// Driver number, length, brake percentage and maximum speed, and what comes of a draft of them.
const DRAFTS: &[(u32, u32, u32, u32, u8)] = &[
    (1, 1, 10, 5, 0),
    (99999999, 4095, 250, 600, 0),
    (0, 0, 0, 0, 10),
    (100000000, 1, 10, 5, 10),
    (1, 0, 0, 0, 11),
    (1, 4096, 10, 5, 11),
    (1, 1, 9, 0, 12),
    (1, 1, 251, 5, 12),
    (1, 1, 10, 0, 13),
    (1, 1, 10, 605, 13),
    (1, 1, 10, 12, 13),
];

#[test]
fn a_draft_is_refused_by_its_first_bad_number(rt: HostRuntime) {
    for &(driver, length, percentage, speed, refusal) in DRAFTS {
        let found = drafted(driver, length, percentage, speed);
        check(
            &rt,
            "numbers, refusal",
            (driver, length, percentage, speed, found),
            (driver, length, percentage, speed, refusal),
        );
    }
}

// A train that is not known to stand takes no record; the driver's number comes back with the refusal.
#[test]
fn a_taking_that_is_refused_hands_the_record_back(rt: HostRuntime) {
    let draft = Draft::new(12345678, 400, 120, 160).expect(&rt, "a draft");
    let mut unit = Unit::switch_on(BusEnd::new());
    let taken = match unit.take(draft.yes()) {
        Ok(answer) => (outcome(&answer), 0),
        Err((answer, confirmed)) => (outcome(&answer), confirmed.numbers().driver),
    };
    let _end = unit.switch_off();
    check(&rt, "taking", taken, (14, 12345678));
}

// Calls, and what their end has noted when the unit was switched on, made the calls up to this one, and was switched off.
const NOTED: &[(Call<'static>, &str)] = &[
    // refused: no button is enabled
    (Call::Press(2), "12"),
    // 7 km/h in Standby: held
    (Call::Cycle(&[1]), "1b12"),
    // refused: moving, not heard, no such text, no such button, not taken
    (Call::Press(1), "1b12"),
    (Call::Order(Order::EmergencyStop), "1b12"),
    (Call::Order(Order::TextWithdrawal(7)), "1b12"),
    (Call::Press(10), "1b12"),
    (Call::Take(TRAIN), "1b12"),
    (Call::Order(Order::Sign), "1b112"),
    // standing, and the hold acknowledged
    (Call::Cycle(&[]), "1b11b12"),
    (Call::Press(1), "1b11b102"),
    (Call::Take(TRAIN), "1b11b1002"),
    // refused: no driver has that number
    (Call::Take(TrainRecord { driver: 0, ..TRAIN }), "1b11b1002"),
];

// Holds what the end has noted of a run of these calls against what is wanted.
fn check_notes(rt: &impl Abort, heap: Global, calls: &[Call<'_>], noted: &str) {
    let one = ready(rt, heap, NotingEnd::new(heap), calls);
    let other = ready(rt, heap, BusEnd::new(), &[]);
    let (done, _) = run_two(rt, one, other);
    check(rt, noted, done.end.notes.as_slice(), noted.as_bytes());
}

// The line is set once at switching on, in each accepted call and at switching off, behind the block that a cycle gives.
#[test]
fn a_refused_call_sets_no_line_and_gives_no_block(rt: HostRuntime) {
    let mut calls = Vec::new(rt.alloc());
    for (call, noted) in NOTED {
        calls.push(*call).expect(&rt, "memory for a call");
        check_notes(&rt, rt.alloc(), &calls, noted);
    }
}
