use crate::checks::{InShort, check, check_each, check_words};
use ordering::shelf::ShelfRefusal;
use std::process::Abort;
use window::Window;
use window::line::Line;
use window::refusal::Refusal;

fn line(cycle: u32, number: u8, place: usize, length: usize) -> Line {
    Line {
        cycle,
        number,
        place,
        length,
    }
}

// A line of this cycle and number is added, or the line of this number is taken out.
enum Change {
    Add(u32, u8),
    Remove(u8),
}

// The cycle and the number of a line, and the place and the length of its text.
type ShortLine = (u32, u8, usize, usize);

// A change, what is answered, and then: which line is on top, and the cycle and number of each line.
struct Step(
    Change,
    Result<(), Refusal>,
    Option<usize>,
    &'static [ShortLine],
);

const NO_LINE: &[Step] = &[Step(Change::Add(1, 4), Err(Refusal::NoFreeLine), None, &[])];

// In a full window the number that is there already is told first.
const ONE_LINE: &[Step] = &[
    Step(Change::Add(1, 4), Ok(()), Some(0), &[(1, 4, 0, 0)]),
    Step(
        Change::Add(2, 4),
        Err(Refusal::NumberThere),
        Some(0),
        &[(1, 4, 0, 0)],
    ),
    Step(
        Change::Add(2, 5),
        Err(Refusal::NoFreeLine),
        Some(0),
        &[(1, 4, 0, 0)],
    ),
    Step(
        Change::Remove(5),
        Err(Refusal::NoSuchLine),
        Some(0),
        &[(1, 4, 0, 0)],
    ),
    Step(Change::Remove(4), Ok(()), None, &[]),
];

const THREE_LINES: &[Step] = &[
    Step(Change::Add(7, 9), Ok(()), Some(0), &[(7, 9, 0, 0)]),
    Step(
        Change::Add(7, 4),
        Ok(()),
        Some(0),
        &[(7, 4, 0, 0), (7, 9, 0, 0)],
    ),
    Step(
        Change::Add(6, 1),
        Ok(()),
        Some(1),
        &[(6, 1, 0, 0), (7, 4, 0, 0), (7, 9, 0, 0)],
    ),
    Step(
        Change::Add(8, 4),
        Err(Refusal::NumberThere),
        Some(1),
        &[(6, 1, 0, 0), (7, 4, 0, 0), (7, 9, 0, 0)],
    ),
    Step(
        Change::Add(8, 5),
        Err(Refusal::NoFreeLine),
        Some(1),
        &[(6, 1, 0, 0), (7, 4, 0, 0), (7, 9, 0, 0)],
    ),
    Step(
        Change::Remove(4),
        Ok(()),
        Some(1),
        &[(6, 1, 0, 0), (7, 9, 0, 0)],
    ),
    Step(
        Change::Remove(4),
        Err(Refusal::NoSuchLine),
        Some(1),
        &[(6, 1, 0, 0), (7, 9, 0, 0)],
    ),
];

impl InShort<ShortLine> for Line {
    fn in_short(&self) -> ShortLine {
        (self.cycle, self.number, self.place, self.length)
    }
}

fn take_steps(rt: &impl Abort, room: &mut [Line], steps: &[Step]) {
    let mut window = Window::new(room);
    check(rt, "a new window", window.top(), None);
    for Step(change, wanted, top, lines) in steps {
        let answer = match *change {
            Change::Add(cycle, number) => window.add(line(cycle, number, 0, 0)),
            Change::Remove(number) => window.remove(number),
        };
        check(rt, "answer", answer, *wanted);
        check(rt, "top line", window.top(), *top);
        check(rt, "how many lines", window.len(), lines.len());
        check_each(rt, "lines", window.lines(), lines);
    }
    let behind = window.show(window.len(), b"belts");
    check(rt, "behind the last", behind, Err(Refusal::NoSuchLine));
}

#[test]
fn lines_come_and_go(rt: HostRuntime) {
    take_steps(&rt, &mut [], NO_LINE);
    take_steps(&rt, &mut [line(0, 0, 0, 0)], ONE_LINE);
    take_steps(&rt, &mut [line(0, 0, 0, 0); 3], THREE_LINES);
}

// The place and length of a line's text, and what is shown of the store "belts".
const PARTS: &[(usize, usize, Result<&[u8], Refusal>)] = &[
    (1, 3, Ok(b"elt")),
    (0, 5, Ok(b"belts")),
    (5, 0, Ok(b"")),
    (5, 1, Err(Refusal::OutsideStore)),
    (usize::MAX, 0, Err(Refusal::OutsideStore)),
    (usize::MAX, 2, Err(Refusal::OutsideStore)),
];

#[test]
fn texts_are_parts_of_a_store(rt: HostRuntime) {
    for (place, length, part) in PARTS {
        let mut room = [line(0, 0, 0, 0)];
        let mut window = Window::new(&mut room);
        let added = window.add(line(1, 4, *place, *length));
        check(&rt, "added", added, Ok(()));
        check(&rt, "shown", window.show(0, b"belts"), *part);
        check(
            &rt,
            "no line",
            window.show(1, b"belts"),
            Err(Refusal::NoSuchLine),
        );
    }
}

#[test]
fn refusals_have_numbers_and_words(rt: HostRuntime) {
    for &(of_the_shelf, refusal) in &[
        (ShelfRefusal::NoFreePlace, Refusal::NoFreeLine),
        (ShelfRefusal::NoSuchPosition, Refusal::NoSuchLine),
    ] {
        check(&rt, "of the shelf", Refusal::from(of_the_shelf), refusal);
    }
    for &(refusal, number, words) in &[
        (Refusal::NoFreeLine, 50, "No line is free."),
        (Refusal::NumberThere, 51, "The number is there already."),
        (Refusal::NoSuchLine, 52, "There is no such line."),
        (
            Refusal::OutsideStore,
            53,
            "The text lies outside the store.",
        ),
    ] {
        check(&rt, words, refusal.number(), number);
        check_words(&rt, rt.alloc(), &refusal, words);
    }
}
