ghost use Rattle.std.specs.Prelude.{◌≡◌, ◌+◌, ◌-◌, ◌<◌, ◌≤◌, false, if◌then◌else◌, Some, None};
ghost use Rattle.cab_unit.specs.Buttons.{settable as is_settable, enabled, buttons_of, grounds_of};
ghost use Rattle.cab_unit.specs.declared.limits.TheConstants.{MOST_WAITING};
ghost use Rattle.cab_unit.specs.Line.{line_rule, settled};
ghost use Rattle.cab_unit.specs.Moves.{entered, withdrawn_at, raised as raised_in, request as request_in};
ghost use Rattle.cab_unit.specs.Places.{limit};
ghost use Rattle.driver_desk.specs.Requests.{waits, number_of, any_overdue};
ghost use Rattle.cab_unit.specs.Steps.{answering};
ghost use Rattle.cab_unit.specs.View.{view, done as done_with};
ghost use Rattle.driver_desk.specs.declared.request.Class.TheVariants as class;

use crate::button::{Button, Grounds};
use crate::desk::{Desk, is_startable, is_supervised};
use crate::limits::LONGEST_SILENCE;
use crate::speed::{is_crawling, is_standing};
use crate::waiting::Waiting;
use driver_desk::{Answer, Class, Level, Refusal, Request, TrainRecord};
use telegram::Mode;
use train_end::{BrakeLine, TrainEnd};

// What a unit is made of: the desk, the record of the train, the cycle number, the requests that
// wait, and the train end.
pub struct Cab<E> {
    pub desk: Desk,
    pub train: Option<TrainRecord>,
    pub cycle: u32,
    pub waiting: Waiting,
    pub end: E,
}

// What an accepted call did, beside the state that it left.
#[derive(Clone, Copy, Default)]
pub struct Done {
    pub raised: Option<Request>,
    pub ended: Option<Request>,
    pub withdrawn: u8,
}

impl Done {
    pub fn withdrawing(number: u8) -> Done
        ensures { result ≡ done_with None None number }
    {
        Done {
            withdrawn: number,
            ..Done::default()
        }
    }

    // A request was raised after some were withdrawn.
    pub fn raising(request: Request, number: u8) -> Done
        ensures { result ≡ done_with (Some request) None number }
    {
        Done {
            raised: Some(request),
            ..Done::withdrawing(number)
        }
    }
}

fn bit(on: bool, value: u16) -> u16
    ensures value { result ≡ (if on then value else 0) }
    ensures most { result ≤ value }
{
    if on { value } else { 0 }
}

impl<E: TrainEnd> Cab<E> {
    // Whether the level can be set by a button, and a record be taken.
    pub fn settable(&self) -> bool
        ensures { result ≡ is_settable (view E.TrainEnd self.now) }
    {
        let stands = is_standing(self.end.speed());
        let unasked = self.waiting.number_of(Class::Mode) == 0;
        self.desk.mode == Mode::Standby && stands && unasked && !self.desk.pending
    }

    // The requests are counted only where that tells.
    pub fn grounds(&self) -> Grounds
        ensures { result ≡ grounds_of (view E.TrainEnd self.now) }
    {
        let speed = self.end.speed();
        let stands = is_standing(speed);
        Grounds {
            first: self.waiting.first(),
            stands,
            crawls: is_crawling(speed),
            free: is_startable(self.desk.mode)
                && stands
                && self.waiting.number_of(Class::Mode) == 0,
        }
    }

    #[tactic(auto, unfolding(crate::specs::Buttons::enabled))]
    pub fn enabled(&self, button: Button, grounds: Grounds) -> bool
        requires { grounds ≡ grounds_of (view E.TrainEnd self.now) }
        ensures { result ≡ enabled button (view E.TrainEnd self.now) }
    {
        let desk = self.desk;
        let Grounds {
            first,
            stands,
            crawls,
            free,
        } = grounds;
        match button {
            // A trip and a hold are acknowledged only when standing.
            Button::Acknowledge => first.is_some_and(|request| {
                stands || !matches!(request.class, Class::Trip | Class::Hold)
            }),
            Button::Start => free && self.train.is_some() && !desk.pending,
            Button::Shunting => free && desk.mode == Mode::Standby && desk.level != Level::Two,
            Button::ExitShunting => desk.mode == Mode::Shunting && stands,
            Button::Override => is_supervised(desk.mode) && crawls,
            Button::Level(_) => free && desk.mode == Mode::Standby && !desk.pending,
            Button::CloseDesk => stands && !matches!(desk.mode, Mode::Trip | Mode::SystemFailure),
        }
    }

    // The enabled buttons, a bit for each.
    #[tactic(auto, unfolding(crate::specs::Buttons::buttons_of))]
    fn buttons(&self, grounds: Grounds) -> u16
        requires { grounds ≡ grounds_of (view E.TrainEnd self.now) }
        ensures { result ≡ buttons_of (view E.TrainEnd self.now) }
    {
        bit(self.enabled(Button::Acknowledge, grounds), 1)
            + bit(self.enabled(Button::Start, grounds), 2)
            + bit(self.enabled(Button::Shunting, grounds), 4)
            + bit(self.enabled(Button::ExitShunting, grounds), 8)
            + bit(self.enabled(Button::Override, grounds), 16)
            + bit(self.enabled(Button::Level(Level::Zero), grounds), 32)
            + bit(self.enabled(Button::Level(Level::One), grounds), 64)
            + bit(self.enabled(Button::Level(Level::Two), grounds), 128)
            + bit(self.enabled(Button::CloseDesk, grounds), 256)
    }

    fn line_rule(&self) -> BrakeLine
        ensures { result ≡ line_rule (view E.TrainEnd self.now) }
    {
        if matches!(self.desk.mode, Mode::Trip | Mode::SystemFailure) {
            return BrakeLine::Emergency;
        }
        if self.desk.silence == LONGEST_SILENCE
            || self.end.speed().is_none()
            || self.waiting.any_overdue(self.cycle)
            || self.waiting.holds(Class::Hold, 0)
        {
            BrakeLine::Service
        } else {
            BrakeLine::Released
        }
    }

    // The silence rule, then the line rule.
    #[tactic(auto, unfolding(crate::specs::Line::settled))]
    pub fn settle(&mut self)
        ensures { view E.TrainEnd self.new ≡ settled (view E.TrainEnd self.old) }
    {
        if !self.desk.is_listening() {
            self.desk.silence = 0;
        }
        let line = self.line_rule();
        self.end.set_line(line);
    }

    pub fn answer(&self, outcome: Option<Refusal>, done: Done) -> Answer
        ensures { result ≡ answering outcome done.raised done.ended done.withdrawn
            (view E.TrainEnd self.now) }
    {
        let grounds = self.grounds();
        Answer {
            outcome,
            mode: self.desk.mode,
            level: self.desk.level,
            line: self.end.line(),
            buttons: self.buttons(grounds),
            waiting: self.waiting.len(),
            first: grounds.first,
            raised: done.raised,
            acknowledged: done.ended,
            withdrawn: done.withdrawn,
        }
    }

    // A refusal touches nothing.
    pub fn refuse(&self, refusal: Refusal) -> Answer
        ensures { result ≡ answering (Some refusal) None None 0 (view E.TrainEnd self.now) }
    {
        self.answer(Some(refusal), Done::default())
    }

    // What was done is settled, and then answered.
    pub fn finish(&mut self, done: Done) -> Answer
        ensures state { view E.TrainEnd self.new ≡ settled (view E.TrainEnd self.old) }
        ensures answer { result ≡ answering None done.raised done.ended done.withdrawn
            (settled (view E.TrainEnd self.old)) }
    {
        self.settle();
        self.answer(None, done)
    }

    // A change of mode withdraws what waits of class mode.
    pub fn enter(&mut self, mode: Mode) -> u8
        ensures state { view E.TrainEnd self.new ≡ entered mode (view E.TrainEnd self.old) }
        ensures number { result ≡ withdrawn_at mode (view E.TrainEnd self.old) }
        ensures most { result ≤ MOST_WAITING }
    {
        let number = if self.desk.mode == mode {
            0
        } else {
            self.waiting.withdraw_class(Class::Mode)
        };
        self.desk.mode = mode;
        number
    }

    pub fn raise(&mut self, class: Class, number: u8, timed: bool) -> Request
        requires room { number_of class (view E.TrainEnd self.old).waiting < limit class }
        requires fresh { waits class number (view E.TrainEnd self.old).waiting ≡ false }
        ensures state { view E.TrainEnd self.new ≡
            raised_in class number timed (view E.TrainEnd self.old) }
        ensures raised { result ≡ request_in class number timed (view E.TrainEnd self.old) }
    {
        let request = Request {
            class,
            number,
            raised: self.cycle,
            timed,
        };
        self.waiting.raise(request);
        request
    }

    // Raises a request of a class of which none waits.
    pub fn raise_alone(&mut self, class: Class, number: u8, timed: bool) -> Request
        requires { number_of class (view E.TrainEnd self.old).waiting ≡ 0 }
        ensures state { view E.TrainEnd self.new ≡
            raised_in class number timed (view E.TrainEnd self.old) }
        ensures raised { result ≡ request_in class number timed (view E.TrainEnd self.old) }
    {
        self.raise(class, number, timed)
    }
}
