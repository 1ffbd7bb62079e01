use crate::checks::{check, check_words};
use crate::units::TRAIN;
use driver_desk::{Class, Draft, Level, Refusal, Request};
use ordering::order::Ordered;

#[test]
fn levels_classes_and_refusals_have_numbers(rt: HostRuntime) {
    for &(level, number) in &[(Level::Zero, 0), (Level::One, 1), (Level::Two, 2)] {
        check(&rt, "level", level.number(), number);
        check(&rt, "number", Level::try_from(number), Ok(level));
    }
    check(&rt, "3", Level::try_from(3), Err(Refusal::OutsideList));
    for &(class, number) in &[
        (Class::Trip, 0),
        (Class::Mode, 1),
        (Class::Level, 2),
        (Class::Hold, 3),
        (Class::Text, 4),
    ] {
        check(&rt, "class", class.number(), number);
    }
    for &(refusal, number) in &[
        (Refusal::NoSuchButton, 1),
        (Refusal::ButtonNotEnabled, 2),
        (Refusal::DriverNumber, 10),
        (Refusal::TrainLength, 11),
        (Refusal::BrakePercentage, 12),
        (Refusal::MaximumSpeed, 13),
        (Refusal::RecordNotTaken, 14),
        (Refusal::OutsideList, 23),
        (Refusal::NotHeard, 30),
        (Refusal::TextWaits, 31),
        (Refusal::TwelveTextsWait, 32),
        (Refusal::NoSuchText, 33),
        (Refusal::TextOverdue, 34),
        (Refusal::InSystemFailure, 40),
    ] {
        check(&rt, "refusal", refusal.number(), number);
    }
}

// Of a request: class, number, since which cycle, and whether it is timed.
type Asked = (Class, u8, u32, bool);

fn request(asked: &Asked) -> Request {
    let (class, number, raised, timed) = *asked;
    Request {
        class,
        number,
        raised,
        timed,
    }
}

// The cycle decides, then the class, then the number, each the smaller first; the mark says nothing.
const IN_ORDER: &[Asked] = &[
    (Class::Text, 255, 6, true),
    (Class::Trip, 0, 7, false),
    (Class::Mode, 6, 7, true),
    (Class::Level, 0, 7, true),
    (Class::Hold, 0, 7, false),
    (Class::Text, 4, 7, true),
    (Class::Text, 9, 7, false),
];

const WRITTEN: &[(Asked, &str)] = &[
    ((Class::Mode, 3, 2, true), "1:3@2t"),
    ((Class::Hold, 0, 4294967295, false), "3:0@4294967295u"),
];

#[test]
fn requests_stand_in_order_and_are_written(rt: HostRuntime) {
    for (i, one) in IN_ORDER.iter().enumerate() {
        for (k, other) in IN_ORDER.iter().enumerate() {
            let is_before = request(one).is_before(&request(other));
            check(&rt, "places, is before", (i, k, is_before), (i, k, i < k));
        }
    }
    for (asked, words) in WRITTEN {
        check_words(&rt, rt.alloc(), &request(asked), words);
    }
}

// A No leaves the numbers as they were entered; a Yes leaves them in the record.
#[test]
fn drafts_keep_their_numbers(rt: HostRuntime) {
    for confirms in [false, true] {
        let draft = Draft::new(12345678, 400, 120, 160).expect(&rt, "a draft");
        let numbers = if confirms {
            *draft.yes().numbers()
        } else {
            draft.no()
        };
        check(&rt, "numbers", numbers, TRAIN);
    }
}
