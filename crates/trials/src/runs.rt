use crate::cabs::{Done, ready, run_two};
use crate::checks::{InShort, check, check_each};
use crate::noting::NotingEnd;
use crate::units::{TRAIN, outcome};
use bench::{Ready, run_lent};
use cab_unit::Call;
use driver_desk::Answer;
use std::process::Abort;
use telegram::{Mode, Order};
use train_end::{BusEnd, PulseEnd, TrainEnd};

// Outcome, mode, line, enabled buttons and number waiting.
type Shown = (u8, &'static str, u8, u16, u8);

impl InShort<Shown> for Answer {
    fn in_short(&self) -> Shown {
        (
            outcome(self),
            self.mode.name(),
            self.line.number(),
            self.buttons,
            self.waiting,
        )
    }
}

// Holds what a unit answered to its calls, and the speeds of its end, against what is wanted.
fn check_run<E>(rt: &impl Abort, done: &Done<E>, answers: &[Shown], speeds: &[Option<u16>]) {
    check(rt, "on", done.on.in_short(), (0, "SB", 1, 0, 0));
    check_each(rt, "answers", &done.answers, answers);
    check(rt, "speeds", done.speeds.as_slice(), speeds);
}

// Runs two cabs, and holds what both answered and the speeds of either end against what is wanted.
fn check_both<'a, E: TrainEnd + Drop, F: TrainEnd + Drop>(
    rt: &impl Abort,
    cabs: (Ready<'a, 'a, E>, Ready<'a, 'a, F>),
    answers: &[Shown],
    speeds: &[Option<u16>],
    other_speeds: &[Option<u16>],
) {
    let (one, other) = run_two(rt, cabs.0, cabs.1);
    check_run(rt, &one, answers, speeds);
    check_run(rt, &other, answers, other_speeds);
}

// A train that rolls in Standby is held.
const ROLLING: &[Shown] = &[
    (2, "SB", 1, 0, 0),
    (0, "SB", 1, 0, 1),
    (2, "SB", 1, 0, 1),
    (30, "SB", 1, 0, 1),
];

const ROLLING_SPEEDS: &[Option<u16>] = &[None, Some(7), Some(7), Some(7)];

const NOTING_CALLS: &[Call<'static>] = &[
    Call::Press(1),
    Call::Cycle(&[1]),
    Call::Press(1),
    Call::Order(Order::EmergencyStop),
];

const BUS_CALLS: &[Call<'static>] = &[
    Call::Press(1),
    Call::Cycle(&[0x80, 0x07]),
    Call::Press(1),
    Call::Order(Order::EmergencyStop),
];

#[test]
fn a_unit_on_an_end_of_a_third_make_answers_as_one_on_a_bus_end(rt: HostRuntime) {
    let one = ready(&rt, rt.alloc(), NotingEnd::new(rt.alloc()), NOTING_CALLS);
    let other = ready(&rt, rt.alloc(), BusEnd::new(), BUS_CALLS);
    check_both(&rt, (one, other), ROLLING, ROLLING_SPEEDS, ROLLING_SPEEDS);
}

// What a bus cab and a pulse cab are asked, what both answer, and the speeds of either end.
struct Run {
    bus: &'static [Call<'static>],
    pulse: &'static [Call<'static>],
    answers: &'static [Shown],
    bus_speeds: &'static [Option<u16>],
    pulse_speeds: &'static [Option<u16>],
}

const RUNS: &[Run] = &[
    // each end has its own speed after a block, and keeps it until the next one
    Run {
        bus: &[
            Call::Order(Order::Sign),
            Call::Cycle(&[0x80, 0x05]),
            Call::Press(1),
            Call::Cycle(&[0x00, 0x05]),
        ],
        pulse: &[
            Call::Order(Order::Sign),
            Call::Cycle(&[0, 5, 0, 5]),
            Call::Press(1),
            Call::Cycle(&[0, 5]),
        ],
        answers: &[
            (0, "SB", 1, 0, 0),
            (0, "SB", 1, 0, 1),
            (2, "SB", 1, 0, 1),
            (0, "SB", 1, 0, 1),
        ],
        bus_speeds: &[None, Some(5), Some(5), None],
        pulse_speeds: &[None, Some(6), Some(6), None],
    },
    // Level 1, record, Start, Acknowledge: Staff Responsible
    Run {
        bus: &[
            Call::Cycle(&[0x80, 0x00]),
            Call::Press(7),
            Call::Take(TRAIN),
            Call::Press(2),
            Call::Press(1),
            Call::Order(Order::Authority(Mode::Shunting)),
            Call::Order(Order::Level(3)),
            Call::Press(10),
        ],
        pulse: &[
            Call::Cycle(&[0, 0, 0, 0]),
            Call::Press(7),
            Call::Take(TRAIN),
            Call::Press(2),
            Call::Press(1),
            Call::Order(Order::Authority(Mode::Shunting)),
            Call::Order(Order::Level(3)),
            Call::Press(10),
        ],
        answers: &[
            (0, "SB", 0, 484, 0),
            (0, "SB", 0, 484, 0),
            (0, "SB", 0, 486, 0),
            (0, "SB", 0, 257, 1),
            (0, "SR", 0, 256, 0),
            (23, "SR", 0, 256, 0),
            (23, "SR", 0, 256, 0),
            (1, "SR", 0, 256, 0),
        ],
        bus_speeds: &[Some(0); 8],
        pulse_speeds: &[Some(0); 8],
    },
];

#[test]
fn a_bus_cab_and_a_pulse_cab_answer_alike(rt: HostRuntime) {
    for run in RUNS {
        let bus = ready(&rt, rt.alloc(), BusEnd::new(), run.bus);
        let pulse = ready(&rt, rt.alloc(), PulseEnd::new(), run.pulse);
        check_both(
            &rt,
            (bus, pulse),
            run.answers,
            run.bus_speeds,
            run.pulse_speeds,
        );
    }
}

const ONE_PRESS: &[Call<'static>] = &[Call::Press(1)];

const TWO_PRESSES: &[Call<'static>] = &[Call::Press(1), Call::Press(2)];

#[test]
fn with_a_place_too_few_nothing_is_run(rt: HostRuntime) {
    let one = ready(&rt, rt.alloc(), NotingEnd::new(rt.alloc()), ONE_PRESS);
    let mut other = ready(&rt, rt.alloc(), BusEnd::new(), TWO_PRESSES);
    let _place = other.speeds.pop();
    match run_lent(one, other) {
        Err((one, other)) => {
            let places = (
                one.calls.len(),
                one.speeds.len(),
                other.calls.len(),
                other.speeds.len(),
            );
            check(&rt, "calls and places", places, (1, 1, 2, 1));
            check(&rt, "notes", one.end.notes.len(), 0);
        }
        Ok(_) => panic!(rt; "it ran"),
    }
}
