use crate::checks::check;
use train_end::{BrakeLine, BusEnd, PulseEnd, TrainEnd};

// The speed of an end after one block.
fn after<E: TrainEnd + Drop>(mut end: E, block: &[u8]) -> Option<u16> {
    end.give_block(block);
    end.speed()
}

// A block, what is to be seen at it, and the speed that it means.
type Block = (&'static [u8], &'static str, Option<u16>);

const BUS_BLOCKS: &[Block] = &[
    (&[], "no byte", None),
    (&[0x80], "one byte", None),
    (&[0x80, 0x14], "two bytes", Some(20)),
    (&[0x80, 0x14, 0x80], "three bytes", None),
    (&[0x80, 0x14, 0x80, 0x14], "four bytes", None),
    (&[0x80, 0x14, 0x80, 0x14, 0x00], "five bytes", None),
    (&[0x84, 0x14], "a filler bit is set", None),
    (&[0x88, 0x14], "a filler bit is set", None),
    (&[0x90, 0x14], "a filler bit is set", None),
    (&[0xa0, 0x14], "a filler bit is set", None),
    (&[0xc0, 0x14], "a filler bit is set", None),
    (&[0x00, 0x14], "the valid bit is not set", None),
];

const PULSE_BLOCKS: &[Block] = &[
    (&[], "no byte", None),
    (&[0], "one byte", None),
    (&[0, 9], "two bytes", None),
    (&[0, 9, 0], "three bytes", None),
    (&[0, 9, 0, 12], "four bytes", Some(13)),
    (&[0, 9, 0, 12, 0], "five bytes", None),
    (&[0, 100, 0, 103], "the counts differ by 3", Some(112)),
    (&[0, 104, 0, 100], "the counts differ by 4", None),
    (&[0x02, 0x2b, 0x02, 0x28], "555 pulses", Some(600)),
    (&[0x02, 0x2c, 0x02, 0x2c], "556 pulses", None),
];

#[test]
fn blocks_mean_speeds(rt: HostRuntime) {
    for (block, seen, speed) in BUS_BLOCKS {
        check(&rt, seen, after(BusEnd::new(), block), *speed);
    }
    for (block, seen, speed) in PULSE_BLOCKS {
        check(&rt, seen, after(PulseEnd::new(), block), *speed);
    }
}

// The line of an end, as a number, when it is new and after it was set, and its speed.
fn lines<E: TrainEnd + Drop>(mut end: E, line: BrakeLine) -> (u8, u8, Option<u16>) {
    let new = end.line().number();
    end.set_line(line);
    (new, end.line().number(), end.speed())
}

#[test]
fn brake_lines_have_numbers(rt: HostRuntime) {
    for &(line, number) in &[
        (BrakeLine::Released, 0),
        (BrakeLine::Service, 1),
        (BrakeLine::Emergency, 2),
    ] {
        check(&rt, "bus", lines(BusEnd::new(), line), (2, number, None));
        check(
            &rt,
            "pulse",
            lines(PulseEnd::new(), line),
            (2, number, None),
        );
    }
}
