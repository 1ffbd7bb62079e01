ghost use Rattle.std.specs.Prelude.{◌≡◌, ◌+◌, ◌-◌, ◌<◌, ◌≤◌, true, false, Some, None, IfOk, IfErr};
ghost use Rattle.cab_unit.specs.Buttons.{button_numbered};
ghost use Rattle.cab_unit.specs.Events as events;
ghost use Rattle.cab_unit.specs.Presses.{entered_by, acknowledge_change, start_change, close_change, pressed};
ghost use Rattle.cab_unit.specs.Refusing.{refusal as refusal_of};
ghost use Rattle.driver_desk.specs.Requests.{number_of};
ghost use Rattle.cab_unit.specs.Steps.{with_train};
ghost use Rattle.cab_unit.specs.View.{view, done, done_of};
ghost use Rattle.driver_desk.specs.declared.request.Class.TheVariants as class;

use crate::button::Button;
use crate::cab::{Cab, Done};
use crate::speed::{is_crawling, is_standing};
use driver_desk::{Class, Confirmed, Level, Refusal, Request};
use telegram::Mode;
use train_end::TrainEnd;

// The mode that an acknowledgement enters, if any.
fn entered_by(ended: Option<Request>) -> Option<Mode>
    ensures { result ≡ entered_by ended }
{
    let request = ended?;
    match request.class {
        Class::Trip => Some(Mode::PostTrip),
        Class::Mode if !request.timed => {
            if request.number == Mode::Unfitted.code() {
                Some(Mode::Unfitted)
            } else {
                Some(Mode::StaffResponsible)
            }
        }
        _ => None,
    }
}

impl<E: TrainEnd> Cab<E> {
    #[tactic(auto, unfolding(crate::specs::Presses::acknowledge_change))]
    fn acknowledge(&mut self) -> Done
        ensures state { view E.TrainEnd self.new ≡
            (acknowledge_change (view E.TrainEnd self.old)).state }
        ensures done { result ≡ done_of (acknowledge_change (view E.TrainEnd self.old)) }
    {
        let ended = self.waiting.end_first();
        let withdrawn = match entered_by(ended) {
            Some(mode) => self.enter(mode),
            // No mode is entered, so nothing is withdrawn.
            None => 0,
        };
        Done {
            ended,
            ..Done::withdrawing(withdrawn)
        }
    }

    #[tactic(auto, unfolding(crate::specs::Presses::start_change))]
    fn start(&mut self) -> Done
        requires { number_of class.Mode (view E.TrainEnd self.old).waiting ≡ 0 }
        ensures state { view E.TrainEnd self.new ≡ (start_change (view E.TrainEnd self.old)).state }
        ensures done { result ≡ done_of (start_change (view E.TrainEnd self.old)) }
    {
        let request = match self.desk.level {
            Level::Two => {
                self.desk.pending = true;
                return Done::default();
            }
            Level::One => self.raise_alone(Class::Mode, Mode::StaffResponsible.code(), false),
            Level::Zero => self.raise_alone(Class::Mode, Mode::Unfitted.code(), false),
        };
        Done::raising(request, 0)
    }

    fn close_desk(&mut self) -> Done
        ensures state { view E.TrainEnd self.new ≡ (close_change (view E.TrainEnd self.old)).state }
        ensures done { result ≡ done_of (close_change (view E.TrainEnd self.old)) }
    {
        self.desk.mode = Mode::Standby;
        self.desk.authority = false;
        self.desk.pending = false;
        self.train = None;
        let modes = self.waiting.withdraw_class(Class::Mode);
        let levels = self.waiting.withdraw_class(Class::Level);
        let texts = self.waiting.withdraw_class(Class::Text);
        Done::withdrawing(modes + levels + texts)
    }

    // By the unit's own mode and the button, an arm refuses, and touches nothing, or moves in place.
    #[tactic(auto, unfolding(crate::specs::Presses::press_change, crate::specs::Buttons::enabled))]
    pub fn step_press(&mut self, number: u8) -> Result<Done, Refusal>
        ensures accepted { IfOk result (λ _. refusal_of (events.Event.press number)
            (view E.TrainEnd self.old) ≡ None) }
        ensures state { IfOk result (λ _. view E.TrainEnd self.new ≡
            (pressed (button_numbered number) (view E.TrainEnd self.old)).state) }
        ensures done { IfOk result (λ d. d ≡
            done_of (pressed (button_numbered number) (view E.TrainEnd self.old))) }
        ensures refused { IfErr result (λ r. refusal_of (events.Event.press number)
            (view E.TrainEnd self.old) ≡ Some r) }
        ensures back { IfErr result (λ _. self.new ≡ self.old) }
    {
        let stands = is_standing(self.end.speed());
        let unasked = self.waiting.number_of(Class::Mode) == 0;
        match (self.desk.mode, Button::try_from(number)) {
            (Mode::SystemFailure, _) => Err(Refusal::InSystemFailure),
            (_, Err(refusal)) => Err(refusal),
            (_, Ok(Button::Acknowledge)) if self.enabled(Button::Acknowledge, self.grounds()) => Ok(
                self.acknowledge(),
            ),
            (Mode::Standby | Mode::PostTrip, Ok(Button::Start))
                if stands && self.train.is_some() && unasked && !self.desk.pending => Ok(
                self.start(),
            ),
            (Mode::Standby, Ok(Button::Shunting))
                if stands && self.desk.level != Level::Two && unasked => Ok(Done::withdrawing(
                self.enter(Mode::Shunting),
            )),
            (Mode::Shunting, Ok(Button::ExitShunting)) if stands => Ok(Done::withdrawing(self.enter(
                Mode::Standby,
            ))),
            (Mode::FullSupervision | Mode::OnSight | Mode::LimitedSupervision, Ok(Button::Override))
                if is_crawling(self.end.speed()) => {
                self.desk.authority = false;
                Ok(Done::withdrawing(self.enter(Mode::StaffResponsible)))
            }
            (Mode::Standby, Ok(Button::Level(level))) if stands && unasked && !self.desk.pending =>
                {
                    self.desk.level = level;
                    Ok(Done::default())
                }
            (mode, Ok(Button::CloseDesk)) if stands && mode != Mode::Trip => Ok(self.close_desk()),
            (_, Ok(_)) => Err(Refusal::ButtonNotEnabled),
        }
    }

    // A confirmed record is taken in place of any held before, or refused, which touches nothing.
    pub fn step_take(&mut self, confirmed: &Confirmed) -> Result<Done, Refusal>
        ensures accepted { IfOk result (λ _. refusal_of (events.Event.take confirmed.now.train)
            (view E.TrainEnd self.old) ≡ None) }
        ensures state { IfOk result (λ _. view E.TrainEnd self.new ≡
            with_train confirmed.now.train (view E.TrainEnd self.old)) }
        ensures done { IfOk result (λ d. d ≡ done None None 0) }
        ensures refused { IfErr result (λ r. refusal_of (events.Event.take confirmed.now.train)
            (view E.TrainEnd self.old) ≡ Some r) }
        ensures back { IfErr result (λ _. self.new ≡ self.old) }
    {
        match self.desk.mode {
            Mode::SystemFailure => Err(Refusal::InSystemFailure),
            Mode::Standby if self.settable() => {
                self.train = Some(*confirmed.numbers());
                Ok(Done::default())
            }
            _ => Err(Refusal::RecordNotTaken),
        }
    }
}
