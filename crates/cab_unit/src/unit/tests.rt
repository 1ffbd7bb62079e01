use crate::Unit;
use driver_desk::Answer;
use telegram::Order;
use train_end::{BusEnd, TrainEnd};

// 0, or the number of the refusal.
fn outcome(answer: &Answer) -> u8 {
    match answer.outcome {
        Some(refusal) => refusal.number(),
        None => 0,
    }
}

// A unit at the last cycle number with one text waiting; then a cycle and a press.
#[test]
fn fails_at_the_last_cycle(rt: HostRuntime) {
    let mut unit = Unit::switch_on(BusEnd::new());
    unit.cab.cycle = u32::MAX;
    let text = unit.order(Order::Text {
        number: 9,
        wanted: true,
        text: &[0x48],
    });
    let failed = unit.cycle(&[0x80, 0x00]);
    let pressed = unit.press(0);
    let again = unit.cycle(&[0x80, 0x00]);
    let end = unit.switch_off();
    assert_eq!(rt;
        (outcome(&text), text.waiting, text.line.number()),
        (0, 1, 1)
    );
    assert_eq!(rt; (outcome(&failed), failed.mode.name()), (0, "SF"));
    assert_eq!(rt;
        (failed.line.number(), failed.waiting, failed.withdrawn),
        (2, 0, 1)
    );
    assert_eq!(rt;
        (outcome(&pressed), outcome(&again), again.buttons),
        (40, 40, 0)
    );
    assert_eq!(rt;
        (end.speed(), end.line().number()),
        (None, 2),
        "the block is not given"
    );
}

// The cycle before the last is a cycle like others.
#[test]
fn runs_up_to_the_last_cycle(rt: HostRuntime) {
    let mut unit = Unit::switch_on(BusEnd::new());
    unit.cab.cycle = u32::MAX - 1;
    let last = unit.cycle(&[0x80, 0x00]);
    let end = unit.switch_off();
    assert_eq!(rt;
        (outcome(&last), last.mode.name(), last.line.number()),
        (0, "SB", 0)
    );
    assert_eq!(rt; last.buttons, 484);
    assert_eq!(rt; end.speed(), Some(0));
}
