ghost use Rattle.std.specs.Prelude.{◌≡◌, ◌<◌, ℕ, List, [], true, false, map, length, Some, MatchOption, slice_get};
ghost use Rattle.cab_unit.specs.Events.{Event, said};
ghost use Rattle.ordering.specs.Order.{NoneBefore};
ghost use Rattle.window.specs.Lines.{newer, has, removed};
ghost use Rattle.window.specs.Window.{lines, rows};
ghost use Rattle.messages.specs.Shown.{dark, showing, without, making_room, with_text, with_acknowledged, after_call, top};
ghost use Rattle.messages.specs.Texts.{text_at, words};

use cab_unit::Call;
use driver_desk::{Answer, Class};
use ordering::order::Ordered;
use telegram::Order;
use window::Window;
use window::line::Line;

// How many lines a window has.
pub const ROWS: usize = 12;

// The number of the button Close desk. A press is told by its number, which may be that of no
// button.
const CLOSE_DESK: u8 = 9;

// A line that nothing shows yet.
pub const FREE: Line = Line {
    cycle: 0,
    number: 0,
    place: 0,
    length: 0,
};

// The window of one cab, and how many cycles were accepted, up to 4294967295. A line's place is
// that of the call whose text it shows.
#[derive(Drop)]
pub struct Messages<'w> {
    window: Window<'w>,
    cycle: u32,
    ghost twelve: { rows window ≡ 12 },
}

impl<'w> Messages<'w> {
    ghost use Rattle.messages.specs.View.{view};

    // A window of the lines that are lent, which shows nothing.
    pub fn new(run: &'w mut [Line; ROWS]) -> Messages<'w>
        ensures { (es : List Event) → view es result ≡ dark }
    {
        Messages {
            window: Window::new(run),
            cycle: 0,
        }
    }

    // What the call at a place of a run does to the window.
    pub fn show_call(&mut self, call: &Call<'_>, place: usize, answer: &Answer)
        ensures { (es : List Event) → slice_get es place ≡ Some (said call.now) → view es self.new ≡
            after_call (said call.now) answer.now (view es self.old) }
    {
        if answer.outcome.is_some() {
            return;
        }
        match *call {
            Call::Cycle(_) => self.cycle = self.cycle.saturating_add(1),
            Call::Order(Order::Text { number, text, .. }) => {
                self.bring_in(number, place, text.len());
            }
            Call::Order(Order::TextWithdrawal(number)) => self.take_out(number),
            Call::Press(CLOSE_DESK) => self.clear(),
            Call::Press(_) => self.end_acknowledged(answer),
            _ => {}
        }
    }

    // The words of the top line, if there is one.
    pub fn top_words<'a>(&self, calls: &[Call<'a>]) -> Option<&'a [u8]>
        ensures { words result ≡ top (view (map said calls.now) self.now).lines }
    {
        let position = self.window.top()?;
        let line = &self.window.lines()[position];
        Some(words_at(calls, line.place))
    }

    // Brings the text of a call in. One of the same number goes, or else the last of a full window.
    fn bring_in(&mut self, number: u8, place: usize, length: usize)
        ensures { (es : List Event) → view es self.new ≡
            with_text number (text_at es place) (view es self.old) }
    {
        self.take_out(number);
        self.make_room();
        let line = Line {
            cycle: self.cycle,
            number,
            place,
            length,
        };
        let _ = self.window.add(line);
    }

    // Where every line is in use, the last of them goes.
    fn make_room(&mut self)
        ensures room { length (lines self.new.window) < 12 }
        ensures others { (n : ℕ) → has n (lines self.old.window) ≡ false →
            has n (lines self.new.window) ≡ false }
        ensures shown { (es : List Event) → view es self.new ≡
            showing (making_room (view es self.old).lines) (view es self.old) }
    {
        if self.window.len() < ROWS {
            return;
        }
        let lines = self.window.lines();
        if let Some(last) = place_of_last(lines) {
            let number = lines[last].number;
            self.take_out(number);
        }
    }

    // A text that was acknowledged goes.
    fn end_acknowledged(&mut self, answer: &Answer)
        ensures { (es : List Event) → view es self.new ≡
            with_acknowledged answer.now.acknowledged (view es self.old) }
    {
        if let Some(request) = answer.acknowledged
            && request.class == Class::Text
        {
            self.take_out(request.number);
        }
    }

    // Takes the line of a number out, if there is one.
    fn take_out(&mut self, number: u8)
        ensures left { lines self.new.window ≡ removed number (lines self.old.window) }
        ensures shown { (es : List Event) → view es self.new ≡
            showing (without number (view es self.old).lines) (view es self.old) }
    {
        let _ = self.window.remove(number);
    }

    // Takes all lines out.
    fn clear(&mut self)
        ensures { (es : List Event) → view es self.new ≡ showing [] (view es self.old) }
    {
        while let Some(number) = self.front_number() {
            self.take_out(number);
        }
    }

    // The number of the line that was added last.
    fn front_number(&self) -> Option<u8>
        ensures { MatchOption result (lines self.now.window ≡ [])
            (λ n. has n (lines self.now.window) ≡ true) }
    {
        self.window.lines().first().map(|line| line.number)
    }
}

// The words of the text order at a place; none of any other call.
fn words_at<'a>(calls: &[Call<'a>], place: usize) -> &'a [u8]
    ensures { result.now ≡ text_at (map said calls.now) place }
{
    match calls.get(place) {
        Some(&Call::Order(Order::Text { text, .. })) => text,
        _ => &[],
    }
}

// The place of the line that none is behind.
fn place_of_last(lines: &[Line]) -> Option<usize>
    ensures { NoneBefore (λ x y. newer y x) lines.now result }
{
    if lines.is_empty() {
        return None;
    }
    let mut last = 0;
    for (i, line) in lines.iter().enumerate() {
        if lines[last].is_before(line) {
            last = i;
        }
    }
    Some(last)
}
