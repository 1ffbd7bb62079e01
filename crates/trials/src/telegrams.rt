use crate::checks::{check, check_words};
use telegram::{Fault, Mode, Order, Placed, Reader, Refused, halt_telegram, read_all};

// The next answer in short: 0 and the byte after an order, or how the telegram ends.
fn outcome(reader: &mut Reader<'_>) -> (u8, usize) {
    match reader.next() {
        Ok(Some(placed)) => (0, placed.after),
        Ok(None) => ending_outcome(Ok(reader.place())),
        Err(refused) => ending_outcome(Err(refused)),
    }
}

// An ending in short: 1 and the place of the end, or a fault's number and its order's first byte.
fn ending_outcome(ending: Result<usize, Refused>) -> (u8, usize) {
    match ending {
        Ok(place) => (1, place),
        Err(refused) => (refused.fault.number(), refused.first),
    }
}

fn front(bytes: &[u8], count: usize) -> &[u8] {
    if count < bytes.len() {
        &bytes[0..count]
    } else {
        bytes
    }
}

// A telegram, and in short what is answered at its start.
const STARTS: &[(&[u8], (u8, usize))] = &[
    // an order is read
    (&[0x10, 3, 0x40], (0, 3)),
    (&[0x20, 3, 0x80], (0, 3)),
    (&[0x30, 6, 7, 0x80, 32, 126], (0, 6)),
    (&[0x30, 6, 7, 0x00, 160, 255], (0, 6)),
    (&[0x40, 3, 255], (0, 3)),
    (&[0x50, 2], (0, 2)),
    (&[0x60, 2], (0, 2)),
    (&[0x70, 2, 0, 0, 0, 0], (0, 2)),
    (&[], (1, 0)),
    // 20: one byte left; before an unknown kind
    (&[0x10], (20, 0)),
    (&[0x00], (20, 0)),
    // 21: before a wrong length, and before an end that comes too soon
    (&[0x00, 2], (21, 0)),
    (&[0x80, 0, 0, 0, 0, 0], (21, 0)),
    (&[0xf0, 9], (21, 0)),
    // 22: before an end that comes too soon, a value, a filler and a text byte
    (&[0x30, 4, 7, 0x80], (22, 0)),
    (&[0x50, 3, 0], (22, 0)),
    (&[0x1f, 3, 0x40], (22, 0)),
    (&[0x10, 4, 0], (22, 0)),
    (&[0x10, 4, 0xc0, 0], (22, 0)),
    (&[0x20, 2, 0x41], (22, 0)),
    (&[0x30, 205, 7, 0, 31, 0], (22, 0)),
    // 20: past the end; before a filler and a text byte
    (&[0x10, 3], (20, 0)),
    (&[0x30, 6, 7, 0x81, 0x48], (20, 0)),
    (&[0x30, 6, 7, 0x80, 31], (20, 0)),
    // 23: before a filler
    (&[0x10, 3, 0xc0], (23, 0)),
    (&[0x20, 3, 0xc0], (23, 0)),
    (&[0x10, 3, 0xc1], (23, 0)),
    // 24: before a text byte
    (&[0x10, 3, 0x41], (24, 0)),
    (&[0x20, 3, 0x20], (24, 0)),
    (&[0x30, 5, 7, 0x81, 31], (24, 0)),
    // 25
    (&[0x30, 5, 7, 0, 31], (25, 0)),
    (&[0x30, 6, 7, 0, 65, 127], (25, 0)),
    (&[0x30, 6, 7, 0, 159, 65], (25, 0)),
];

#[test]
fn orders_are_read_or_refused(rt: HostRuntime) {
    for (telegram, answer) in STARTS {
        let found = outcome(&mut Reader::new(telegram));
        check(&rt, "answer", found, *answer);
    }
}

const HALT: &[u8] = &[0x30, 8, 7, 0x80, 0x48, 0x61, 0x6c, 0x74];

// A telegram of one order, and the order.
const ORDERS: &[(&[u8], Order<'static>)] = &[
    (&[0x10, 3, 0x00], Order::Authority(Mode::FullSupervision)),
    (&[0x10, 3, 0x40], Order::Authority(Mode::OnSight)),
    (&[0x10, 3, 0x80], Order::Authority(Mode::LimitedSupervision)),
    (&[0x20, 3, 0x00], Order::Level(0)),
    (&[0x20, 3, 0x40], Order::Level(1)),
    (&[0x20, 3, 0x80], Order::Level(2)),
    (&[0x40, 3, 0x07], Order::TextWithdrawal(7)),
    (
        HALT,
        Order::Text {
            number: 7,
            wanted: true,
            text: b"Halt",
        },
    ),
];

#[test]
fn values_and_texts_stand_at_their_bits(rt: HostRuntime) {
    check(&rt, "Halt", halt_telegram().as_slice(), HALT);
    for (telegram, order) in ORDERS {
        let placed = Placed {
            order: *order,
            first: 0,
            after: telegram.len(),
        };
        check(&rt, "order", Reader::new(telegram).next(), Ok(Some(placed)));
    }
}

#[test]
fn the_longest_text_is_read_and_no_longer_one(rt: HostRuntime) {
    for (length, answer) in [(204u8, (0, 204)), (205, (22, 0))] {
        let mut telegram = [65u8; 205];
        telegram[0] = 0x30;
        telegram[1] = length;
        telegram[3] = 0x80;
        let found = outcome(&mut Reader::new(front(&telegram, length as usize)));
        check(&rt, "answer", found, answer);
    }
}

// An order and what comes behind it, and what is answered there.
const ENDS: &[(&[u8], (u8, usize))] = &[
    (&[0x50, 2], (1, 2)),
    (&[0x50, 2, 0x10, 3, 0x41, 0x50, 2], (24, 2)),
];

#[test]
fn the_end_and_a_fault_are_answered_again(rt: HostRuntime) {
    for (telegram, again) in ENDS {
        let mut reader = Reader::new(telegram);
        check(&rt, "order", outcome(&mut reader), (0, 2));
        for _ in 0..3 {
            let found = (outcome(&mut reader), reader.place());
            check(&rt, "again", found, (*again, 2));
        }
    }
}

#[test]
fn a_telegram_is_read_to_its_first_fault(rt: HostRuntime) {
    let telegram = [0x10, 3, 0x40, 0x40, 3, 7, 0x10, 3, 0xc0, 0x50, 2];
    for (count, ending) in [(11, (23, 6)), (6, (1, 6))] {
        let reading = read_all(rt.alloc(), front(&telegram, count)).expect(&rt, "memory");
        check(&rt, "orders", reading.orders.len(), 2);
        check(&rt, "ending", ending_outcome(reading.ending), ending);
    }
}

#[test]
fn modes_and_faults_have_numbers_and_words(rt: HostRuntime) {
    for &(mode, code, name) in &[
        (Mode::Standby, 0, "SB"),
        (Mode::StaffResponsible, 1, "SR"),
        (Mode::FullSupervision, 2, "FS"),
        (Mode::OnSight, 3, "OS"),
        (Mode::LimitedSupervision, 4, "LS"),
        (Mode::Shunting, 5, "SH"),
        (Mode::Unfitted, 6, "UN"),
        (Mode::Trip, 7, "TR"),
        (Mode::PostTrip, 8, "PT"),
        (Mode::SystemFailure, 9, "SF"),
    ] {
        check(&rt, name, (mode.code(), mode.name()), (code, name));
    }
    for &(fault, number, words) in &[
        (Fault::CutShort, 20, "cut short"),
        (Fault::UnknownKind, 21, "unknown kind"),
        (Fault::WrongLength, 22, "wrong length"),
        (Fault::OutsideList, 23, "value outside its list"),
        (Fault::FillerSet, 24, "filler bit set"),
        (Fault::TextByte, 25, "text byte outside its list"),
    ] {
        check(&rt, words, fault.number(), number);
        check_words(&rt, rt.alloc(), &fault, words);
    }
}
