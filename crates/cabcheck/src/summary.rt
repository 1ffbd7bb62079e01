use crate::notes::{NotesCompared, line_of, number_of};
use crate::sides::{Answered, Entry, Sides};
use crate::words::Message;
use cab_unit::Call;
use columns::{CallWords, ColumnValue, SpeedWords, first_difference};
use compare::{Tallies, Tally, Verdict, same_asked};
use side_by_side::Status;
use std::io::Write;
use std::{fmt, io};
use telegram::Order;

// A number of things: the word for one, or for more.
#[derive(Clone, Copy)]
struct Count(usize, &'static str, &'static str);

impl fmt::Display for Count {
    fn fmt<W: fmt::Write>(&self, f: &mut fmt::Formatter<W>) -> fmt::Result {
        let Count(number, one, more) = *self;
        let word = if number == 1 { one } else { more };
        write!(f, "{number} {word}")
    }
}

// The calls of both cabs at a place: one where they are told in the same words.
#[derive(Clone, Copy)]
struct Calls<'p>(&'p Call<'p>, &'p Call<'p>);

// The words of calls leave out blocks, the words of texts and the numbers of records.
fn has_same_words(one: &Call<'_>, other: &Call<'_>) -> bool {
    match (*one, *other) {
        (
            Call::Order(Order::Text { number, wanted, .. }),
            Call::Order(
                Order::Text {
                    number: other_number,
                    wanted: other_wanted,
                    ..
                },
            ),
        ) => number == other_number && wanted == other_wanted,
        (Call::Take(_), Call::Take(_)) => true,
        _ => same_asked(one, other),
    }
}

impl fmt::Display for Calls<'_> {
    fn fmt<W: fmt::Write>(&self, f: &mut fmt::Formatter<W>) -> fmt::Result {
        let Calls(one, other) = *self;
        if has_same_words(one, other) {
            write!(f, "{}", CallWords(one))
        } else {
            write!(f, "{} <> {}", CallWords(one), CallWords(other))
        }
    }
}

// How many of those compared differ.
#[derive(Clone, Copy)]
struct Differing(usize);

impl fmt::Display for Differing {
    fn fmt<W: fmt::Write>(&self, f: &mut fmt::Formatter<W>) -> fmt::Result {
        match self.0 {
            0 => f.write_str("none differs"),
            1 => f.write_str("1 differs"),
            number => write!(f, "{number} differ"),
        }
    }
}

// The line of a list, or the lines of both.
#[derive(Clone, Copy)]
struct At {
    bus: Option<usize>,
    pulse: Option<usize>,
    two_lists: bool,
}

impl fmt::Display for At {
    fn fmt<W: fmt::Write>(&self, f: &mut fmt::Formatter<W>) -> fmt::Result {
        match (self.two_lists, self.bus, self.pulse) {
            (true, Some(bus), Some(pulse)) => write!(f, "at line {bus} and line {pulse}"),
            (true, Some(bus), None) => write!(f, "at line {bus} of the bus cab"),
            (true, None, Some(pulse)) => write!(f, "at line {pulse} of the pulse cab"),
            (_, Some(line), _) | (_, None, Some(line)) => write!(f, "at line {line}"),
            (_, None, None) => Ok(()),
        }
    }
}

// The number of a note, or none.
#[derive(Clone, Copy)]
struct Number(Option<u8>);

impl fmt::Display for Number {
    fn fmt<W: fmt::Write>(&self, f: &mut fmt::Formatter<W>) -> fmt::Result {
        match self.0 {
            Some(number) => write!(f, "{number}"),
            None => f.write_str("none"),
        }
    }
}

// The calls of both cabs at a place, and where they stand.
struct Placed<'p, 'a> {
    at: At,
    one: Answered<'p, 'a>,
    other: Answered<'p, 'a>,
}

fn calls_at<'p, 'a>(sides: &Sides<'p, 'a>, place: Option<usize>) -> Option<Placed<'p, 'a>> {
    let place = place?;
    let (entry, one) = sides.bus.entry_of(place)?;
    let (other_entry, other) = sides.pulse.entry_of(place)?;
    let (
        Entry { line, .. },
        Entry {
            line: other_line,
            ..
        },
    ) = (entry, other_entry);
    let at = At {
        bus: Some(line),
        pulse: Some(other_line),
        two_lists: sides.two_lists,
    };
    Some(Placed { at, one, other })
}

fn print_speeds<W: Write>(out: &mut W, sides: &Sides<'_, '_>, speeds: &Tally) -> io::Result<()> {
    let samples = Count(speeds.compared, "sample", "samples");
    let differing = Differing(speeds.differing);
    write!(out, "speeds: {samples}, {differing}")?;
    if let Some(Placed { at, one, other }) = calls_at(sides, speeds.first) {
        let speed = SpeedWords(one.speed);
        let other_speed = SpeedWords(other.speed);
        write!(out, ", first {at}: {speed} <> {other_speed} km/h")?;
    }
    writeln!(out)
}

fn print_answers<W: Write>(out: &mut W, sides: &Sides<'_, '_>, answers: &Tally) -> io::Result<()> {
    let differing = Differing(answers.differing);
    write!(out, "answers: {} compared, {differing}", answers.compared)?;
    if let Some(Placed { at, one, other }) = calls_at(sides, answers.first)
        && let Some(column) = first_difference(one.answer, other.answer)
    {
        let name = column.name();
        let call = Calls(one.call, other.call);
        let value = ColumnValue(column, one.answer);
        let other_value = ColumnValue(column, other.answer);
        write!(
            out,
            ", first {at} ({call}): {name} {value} <> {other_value}"
        )?;
    }
    writeln!(out)
}

fn print_messages<W: Write>(
    out: &mut W,
    sides: &Sides<'_, '_>,
    messages: &Tally,
) -> io::Result<()> {
    let differing = Differing(messages.differing);
    write!(out, "messages: {} compared, {differing}", messages.compared)?;
    if let Some(Placed { at, one, other }) = calls_at(sides, messages.first) {
        let call = Calls(one.call, other.call);
        let message = Message(one.message);
        let other_message = Message(other.message);
        write!(
            out,
            ", first {at} ({call}): message {message} <> {other_message}"
        )?;
    }
    writeln!(out)
}

fn print_notes<W: Write>(
    out: &mut W,
    sides: &Sides<'_, '_>,
    notes: &NotesCompared,
) -> io::Result<()> {
    let differing = Differing(notes.differing.len());
    write!(out, "notes: {} compared, {differing}", notes.compared)?;
    if let Some((bus, pulse)) = notes.differing.first().copied() {
        let at = At {
            bus: line_of(bus),
            pulse: line_of(pulse),
            two_lists: sides.two_lists,
        };
        let number = Number(number_of(bus));
        let other_number = Number(number_of(pulse));
        write!(out, ", first {at}: {number} <> {other_number}")?;
    }
    writeln!(out)
}

// What came of the comparison: whether the lists are alike, what was compared and what differs, and
// then one word.
pub fn print_summary<W: Write>(
    out: &mut W,
    sides: &Sides<'_, '_>,
    verdict: &Verdict<'_>,
    notes: &NotesCompared,
    status: Status,
) -> io::Result<()> {
    let Tallies {
        speeds,
        answers,
        messages,
    } = &verdict.tallies;
    let calls = Count(sides.bus.calls.len(), "call", "calls");
    let pulse_calls = sides.pulse.calls.len();
    let likeness = if verdict.alike { "alike" } else { "not alike" };
    writeln!(
        out,
        "lists: {calls} in the bus cab, {pulse_calls} in the pulse cab, {likeness}"
    )?;
    print_speeds(out, sides, speeds)?;
    print_answers(out, sides, answers)?;
    print_messages(out, sides, messages)?;
    print_notes(out, sides, notes)?;
    match status {
        Status::Agree => writeln!(out, "AGREE"),
        Status::Differ => writeln!(out, "DIFFER"),
        Status::Trouble => Ok(()),
    }
}
