use crate::line::Line;
use crate::notes::NotesCompared;
use crate::sides::{Answered, Entry, Item, Sides};
use crate::words::{Message, RecordWords, Untold, Words};
use cab_unit::Call;
use columns::{COLUMNS, CallWords, ColumnValue, RequestWords, outcome_number, same_part};
use compare::{Mark, same_asked, same_message};
use driver_desk::Answer;
use itertools::{EitherOrBoth, Itertools};
use plan::{Note, Places};
use std::alloc::Global;
use std::io::Write;
use std::{fmt, io};
use telegram::Refused;

// How wide these columns are.
const MARK_WIDTH: usize = 6;

const LINE_WIDTH: usize = 7;

const CAB_WIDTH: usize = 6;

const CALL_WIDTH: usize = 14;

const FIRST_WIDTH: usize = 14;

// What stands behind the requests: the places of a telegram's order, or what the two ends mean
// after a cycle.
#[derive(Clone, Copy)]
enum Column {
    Blank,
    Placed(Places),
    Speeds {
        bus: Option<u16>,
        pulse: Option<u16>,
    },
}

impl fmt::Display for Column {
    fn fmt<W: fmt::Write>(&self, f: &mut fmt::Formatter<W>) -> fmt::Result {
        match *self {
            Column::Blank => f.write_str("             "),
            Column::Placed(Places { first, after }) => write!(f, " {first:>4} to {after:<4}"),
            Column::Speeds { bus, pulse } => {
                let sign = if bus == pulse { "= " } else { "<>" };
                write!(f, " {} {sign} {}", Speed(bus), Speed(pulse))
            }
        }
    }
}

// A speed in km/h, or ? for unknown.
#[derive(Clone, Copy)]
struct Speed(Option<u16>);

impl fmt::Display for Speed {
    fn fmt<W: fmt::Write>(&self, f: &mut fmt::Formatter<W>) -> fmt::Result {
        match self.0 {
            Some(kmh) => write!(f, "{kmh:>4}"),
            None => f.write_str("   ?"),
        }
    }
}

// The words of a note in its last columns.
#[derive(Clone, Copy)]
struct NoteWords(Note);

impl fmt::Display for NoteWords {
    fn fmt<W: fmt::Write>(&self, f: &mut fmt::Formatter<W>) -> fmt::Result {
        match self.0 {
            Note::Draft(_) => Ok(()),
            Note::Fault(Refused { fault, first }) => write!(f, "  at {first}: {fault}"),
            Note::End(place) => write!(f, "  at {place}"),
        }
    }
}

// What is said of two rows beside each other, or of one alone, in the column in front.
#[derive(Clone, Copy, PartialEq, Eq)]
enum Said {
    Nothing,
    // Something that is compared differs.
    Differ,
    // The calls lie in a stretch of texts that came in another order, and nothing that is compared
    // differs.
    Order,
    // The calls are not the same, and nothing that is compared differs.
    Call,
}

impl Said {
    fn word(self) -> &'static str {
        match self {
            Said::Nothing => "",
            Said::Differ => "differ",
            Said::Order => "order",
            Said::Call => "call",
        }
    }
}

// Two rows that stand beside each other, or one alone.
type Pair<'p, 'a> = EitherOrBoth<Entry<'p, 'a>, Entry<'p, 'a>>;

// What is found of two calls at one place.
#[derive(Clone, Copy)]
struct Found {
    mark: Mark,
    same_call: bool,
    same_answer: bool,
    same_message: bool,
}

impl Found {
    fn of_calls(marks: &[Mark], one: &Answered<'_, '_>, other: &Answered<'_, '_>) -> Found {
        Found {
            mark: marks.get(one.place).copied().unwrap_or(Mark::Compared),
            same_call: same_asked(one.call, other.call),
            same_answer: one.answer == other.answer,
            same_message: same_message(one.message, other.message),
        }
    }

    fn answer_differs(&self) -> bool {
        !self.mark.is_open() && !self.same_answer
    }

    fn message_differs(&self) -> bool {
        !self.mark.is_inside() && !self.same_message
    }

    fn said(&self) -> Said {
        if self.answer_differs() || self.message_differs() {
            Said::Differ
        } else if self.mark.is_open() {
            Said::Order
        } else if self.same_call {
            Said::Nothing
        } else {
            Said::Call
        }
    }

    // One row tells of both.
    fn is_same(&self) -> bool {
        self.same_call && self.same_answer && self.same_message
    }
}

// Where the rows are printed, and the line that is put together.
#[derive(Drop)]
struct Table<'o, W> {
    out: &'o mut W,
    line: Line,
    two_lists: bool,
}

impl<W: Write> Table<'_, W> {
    // The columns in front of what a row tells: the mark, the lines and the cab.
    fn begin(&mut self, said: Said, bus: Option<usize>, pulse: Option<usize>, cab: &str) {
        self.line.left_word(said.word(), MARK_WIDTH);
        if self.two_lists {
            self.put_number(bus);
            self.put_number(pulse);
        } else {
            self.put_number(bus.or(pulse));
        }
        self.line.put_word(" ");
        self.line.left_word(cab, CAB_WIDTH);
    }

    fn put_number(&mut self, number: Option<usize>) {
        match number {
            Some(line) => self.line.put(format_args!(" {line:>6}")),
            None => self.line.put_word("      -"),
        }
    }

    fn put_answer(&mut self, answer: &Answer, column: Column) {
        let outcome = outcome_number(answer.outcome);
        let mode = answer.mode.name();
        let level = answer.level.number();
        let brake = answer.line.number();
        self.line.put(format_args!(" {outcome:>3}  {mode:<4} {level:>5} {brake:>5}"));
        let buttons = answer.buttons;
        let waiting = answer.waiting;
        self.line.put(format_args!(" {buttons:>7} {waiting:>7}  "));
        self.line.left(RequestWords(answer.first), FIRST_WIDTH);
        self.line.put(column);
    }

    // The row of one cab; behind a call that stands in no telegram comes `column`.
    fn put_entry(&mut self, entry: &Entry<'_, '_>, column: Column) {
        match entry.item {
            Item::Call(answered) => {
                self.line.left(CallWords(answered.call), CALL_WIDTH);
                let column = answered.places.map_or(column, Column::Placed);
                self.put_answer(answered.answer, column);
                if let Some(words) = answered.message {
                    self.line.put_word("   ");
                    self.line.put(Words(Some(words)));
                }
            }
            Item::Note(note) => {
                self.line.left_word(note.name(), CALL_WIDTH);
                let number = note.number();
                self.line.put(format_args!(" {number:>3}"));
                self.line.put(NoteWords(note));
            }
        }
    }

    fn end(&mut self) -> io::Result<()> {
        self.line.print(self.out)
    }

    // One row that tells of both cabs.
    fn print_both(
        &mut self,
        said: Said,
        one: &Entry<'_, '_>,
        other: &Entry<'_, '_>,
        column: Column,
    ) -> io::Result<()> {
        self.begin(said, Some(one.line), Some(other.line), "");
        self.put_entry(one, column);
        self.end()
    }

    // The row of each cab; where one has no call, that it has nothing.
    fn print_each(
        &mut self,
        said: Said,
        one: Option<&Entry<'_, '_>>,
        other: Option<&Entry<'_, '_>>,
        column: Column,
    ) -> io::Result<()> {
        self.begin(said, line_of(one), None, "bus");
        self.put_or_nothing(one, column)?;
        self.begin(said, None, line_of(other), "pulse");
        self.put_or_nothing(other, column)
    }

    fn put_or_nothing(&mut self, entry: Option<&Entry<'_, '_>>, column: Column) -> io::Result<()> {
        match entry {
            Some(entry) => self.put_entry(entry, column),
            None => self.line.put_word("nothing"),
        }
        self.end()
    }

    // A piece of what differs, behind those that were put.
    fn put_difference<D: fmt::Display + Drop, F: fmt::Display + Drop>(
        &mut self,
        first: &mut bool,
        name: &str,
        one: D,
        other: F,
    ) {
        self.line.put_word(if *first { "" } else { ", " });
        *first = false;
        self.line.put(format_args!("{name} {one} <> {other}"));
    }

    // What differs of two calls, each by its column and both values.
    fn print_differences(
        &mut self,
        found: &Found,
        one: &Answered<'_, '_>,
        other: &Answered<'_, '_>,
    ) -> io::Result<()> {
        self.line.left_word(found.said().word(), MARK_WIDTH);
        let lines = if self.two_lists { 2 } else { 1 };
        self.line.left_word("", LINE_WIDTH * lines + CAB_WIDTH + 1);
        let mut first = true;
        match Untold::of_calls(one.call, other.call) {
            // In a stretch that came in another order other words are no difference.
            _ if found.mark.is_open() => {}
            Untold::Nothing => {}
            Untold::Texts(text, other_text) => {
                let text = Message(Some(text));
                let other_text = Message(Some(other_text));
                self.put_difference(&mut first, "call", text, other_text);
            }
            Untold::Records(train, other_train) => {
                let train = RecordWords(train);
                let other_train = RecordWords(other_train);
                self.put_difference(&mut first, "call", train, other_train);
            }
        }
        if found.answer_differs() {
            for column in COLUMNS {
                let value = ColumnValue(column, one.answer);
                let other_value = ColumnValue(column, other.answer);
                if !same_part(column, one.answer, other.answer) {
                    self.put_difference(&mut first, column.name(), value, other_value);
                }
            }
        }
        if found.message_differs() {
            let message = Message(one.message);
            let other_message = Message(other.message);
            self.put_difference(&mut first, "message", message, other_message);
        }
        if first {
            self.line.clear();
            return Ok(());
        }
        self.end()
    }

    // Two calls at one place.
    fn print_calls(
        &mut self,
        entries: (&Entry<'_, '_>, &Entry<'_, '_>),
        calls: (&Answered<'_, '_>, &Answered<'_, '_>),
        marks: &[Mark],
    ) -> io::Result<()> {
        let (one, other) = calls;
        let found = Found::of_calls(marks, one, other);
        let column = match (one.call, other.call) {
            (Call::Cycle(_), Call::Cycle(_)) => Column::Speeds {
                bus: one.speed,
                pulse: other.speed,
            },
            _ => Column::Blank,
        };
        if found.is_same() {
            return self.print_both(found.said(), entries.0, entries.1, column);
        }
        self.print_each(found.said(), Some(entries.0), Some(entries.1), column)?;
        if matches!(found.said(), Said::Differ | Said::Call) {
            self.print_differences(&found, one, other)?;
        }
        Ok(())
    }

    // What is no call, of both cabs or of one.
    fn print_notes(
        &mut self,
        one: Option<&Entry<'_, '_>>,
        other: Option<&Entry<'_, '_>>,
        notes: &NotesCompared,
    ) -> io::Result<()> {
        let bus = of_note(notes.differs(row_of(one), None));
        let pulse = of_note(notes.differs(None, row_of(other)));
        if let (Some(entry), Some(other_entry)) = (one, other)
            && is_same_note(entry, other_entry)
            && bus == pulse
        {
            return self.print_both(bus, entry, other_entry, Column::Blank);
        }
        if let Some(entry) = one {
            self.begin(bus, Some(entry.line), None, "bus");
            self.put_or_nothing(one, Column::Blank)?;
        }
        if let Some(entry) = other {
            self.begin(pulse, None, Some(entry.line), "pulse");
            self.put_or_nothing(other, Column::Blank)?;
        }
        Ok(())
    }

    fn print_pair(
        &mut self,
        pair: Pair<'_, '_>,
        marks: &[Mark],
        notes: &NotesCompared,
    ) -> io::Result<()> {
        let (one, other) = pair.left_and_right();
        let (one, other) = (one.as_ref(), other.as_ref());
        if let (Some(entry), Some(other_entry)) = (one, other)
            && let (Item::Call(call), Item::Call(other_call)) = (&entry.item, &other_entry.item)
        {
            return self.print_calls((entry, other_entry), (call, other_call), marks);
        }
        if is_of_call(one) || is_of_call(other) {
            return self.print_each(Said::Differ, one, other, Column::Blank);
        }
        self.print_notes(one, other, notes)
    }

    fn print_on(&mut self, on: &Answer) -> io::Result<()> {
        self.begin(Said::Nothing, Some(0), Some(0), "");
        self.line.left_word("on", CALL_WIDTH);
        self.put_answer(on, Column::Blank);
        self.end()
    }

    fn print_head(&mut self) -> io::Result<()> {
        let lines = if self.two_lists {
            "    bus  pulse"
        } else {
            "   line"
        };
        self.line.left_word("mark", MARK_WIDTH);
        self.line.put_word(lines);
        self.line.put_word(" cab   call           out  mode level brake buttons waiting  ");
        self.line.put_word("first          bytes or km/h  message");
        self.end()
    }
}

fn line_of(entry: Option<&Entry<'_, '_>>) -> Option<usize> {
    Some(entry?.line)
}

fn row_of(entry: Option<&Entry<'_, '_>>) -> Option<usize> {
    Some(entry?.row)
}

fn is_of_call(entry: Option<&Entry<'_, '_>>) -> bool {
    match entry {
        Some(entry) => entry.is_of_call(),
        None => false,
    }
}

// What is said of a note.
fn of_note(differs: bool) -> Said {
    if differs { Said::Differ } else { Said::Nothing }
}

fn is_same_note(one: &Entry<'_, '_>, other: &Entry<'_, '_>) -> bool {
    match (one.item, other.item) {
        (Item::Note(note), Item::Note(other_note)) => note == other_note,
        _ => false,
    }
}

// The table of both cabs. Calls stand beside calls: what is no call comes first, and alone where
// the other cab has a call.
pub fn print_table<W: Write + Drop>(
    out: &mut W,
    heap: Global,
    sides: &Sides<'_, '_>,
    marks: &[Mark],
    notes: &NotesCompared,
) -> io::Result<()> {
    let Sides {
        bus,
        pulse,
        two_lists,
    } = *sides;
    let line = Line::new(heap);
    let mut table = Table {
        out,
        line,
        two_lists,
    };
    table.print_head()?;
    table.print_on(bus.on)?;
    for pair in bus.entries().merge_join_by(
        pulse.entries(),
        |entry, other| entry.is_of_call().cmp(&other.is_of_call()),
    ) {
        table.print_pair(pair, marks, notes)?;
    }
    Ok(())
}
