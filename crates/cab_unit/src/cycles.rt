ghost use Rattle.std.specs.Prelude.{◌≡◌, ◌+◌, ◌-◌, ◌<◌, false, length, Some, None, IfOk, IfErr};
ghost use Rattle.telegram.specs.declared.modes.Mode.TheVariants as modes;
ghost use Rattle.cab_unit.specs.Cycles.{counted, lapsed, watched, cycle_change};
ghost use Rattle.cab_unit.specs.Events as events;
ghost use Rattle.cab_unit.specs.Facts.{Facts};
ghost use Rattle.cab_unit.specs.Moves.{failing};
ghost use Rattle.cab_unit.specs.Refusing.{refusal as refusal_of};
ghost use Rattle.driver_desk.specs.Numbers.{is_mode};
ghost use Rattle.driver_desk.specs.Requests.{waits, number_of};
ghost use Rattle.cab_unit.specs.View.{view, done_of, done as done_with};
ghost use Rattle.driver_desk.specs.declared.request.Class.TheVariants as class;

use crate::cab::{Cab, Done};
use crate::limits::LONGEST_SILENCE;
use crate::speed::{is_moving, is_standing};
use driver_desk::{Class, Refusal};
use telegram::Mode;
use train_end::TrainEnd;

impl<E: TrainEnd> Cab<E> {
    #[tactic(auto, unfolding(crate::specs::Cycles::counted))]
    fn count_silence(&mut self)
        ensures { view E.TrainEnd self.new ≡ counted (view E.TrainEnd self.old) }
    {
        if self.desk.is_listening() && self.desk.silence < LONGEST_SILENCE {
            self.desk.silence += 1;
        }
    }

    // A standing train has no authority after 401 silent cycles. A moving one is held in Standby
    // and Post Trip, and tripped in a supervised mode without authority.
    #[tactic(auto, unfolding(crate::specs::Cycles::lapsed, crate::specs::Cycles::watched))]
    fn watch(&mut self) -> Done
        requires untripped { is_mode self.old.desk.mode modes.Trip ≡ false →
            number_of class.Trip (view E.TrainEnd self.old).waiting ≡ 0 }
        requires unheld { waits class.Hold 0 (view E.TrainEnd self.old).waiting ≡ false →
            number_of class.Hold (view E.TrainEnd self.old).waiting ≡ 0 }
        ensures state { view E.TrainEnd self.new ≡
            (watched (lapsed (view E.TrainEnd self.old))).state }
        ensures done { result ≡ done_of (watched (lapsed (view E.TrainEnd self.old))) }
    {
        let speed = self.end.speed();
        match self.desk.mode {
            _ if self.desk.silence == LONGEST_SILENCE && is_standing(speed) => {
                self.desk.authority = false;
                Done::default()
            }
            Mode::Standby | Mode::PostTrip
                if is_moving(speed) && !self.waiting.holds(Class::Hold, 0) => {
                let request = self.raise_alone(Class::Hold, 0, false);
                Done::raising(request, 0)
            }
            Mode::FullSupervision | Mode::OnSight | Mode::LimitedSupervision
                if is_moving(speed) && !self.desk.authority => {
                let withdrawn = self.enter(Mode::Trip);
                let request = self.raise_alone(Class::Trip, 0, false);
                Done::raising(request, withdrawn)
            }
            _ => Done::default(),
        }
    }

    // System Failure: all requests are withdrawn, authority and any pending start end.
    fn fail(&mut self) -> Done
        ensures state { view E.TrainEnd self.new ≡ failing (view E.TrainEnd self.old) }
        ensures done { result ≡ done_with None None (length (view E.TrainEnd self.old).waiting) }
    {
        self.desk.mode = Mode::SystemFailure;
        self.desk.authority = false;
        self.desk.pending = false;
        Done::withdrawing(self.waiting.withdraw_all())
    }

    // What an accepted cycle does: the block's speed comes first, then silence, then what a moving
    // or standing train asks for. At the last cycle number the unit fails.
    #[tactic(auto, unfolding(crate::specs::Cycles::cycle_change))]
    fn cycle_change(&mut self, block: &[u8]) -> Done
        requires { ∥ Facts (view E.TrainEnd self.old) ∥₁ }
        ensures state { view E.TrainEnd self.new ≡
            (cycle_change (E.reading block.now) (view E.TrainEnd self.old)).state }
        ensures done { result ≡ done_of
            (cycle_change (E.reading block.now) (view E.TrainEnd self.old)) }
    {
        if self.cycle < u32::MAX {
            self.cycle += 1;
            self.end.give_block(block);
            self.count_silence();
            self.watch()
        } else {
            self.fail()
        }
    }

    // In System Failure a cycle is refused, which touches nothing.
    pub fn step_cycle(&mut self, block: &[u8]) -> Result<Done, Refusal>
        requires { ∥ Facts (view E.TrainEnd self.old) ∥₁ }
        ensures accepted { IfOk result (λ _. refusal_of (events.Event.cycle block.now)
            (view E.TrainEnd self.old) ≡ None) }
        ensures state { IfOk result (λ _. view E.TrainEnd self.new ≡
            (cycle_change (E.reading block.now) (view E.TrainEnd self.old)).state) }
        ensures done { IfOk result (λ d. d ≡
            done_of (cycle_change (E.reading block.now) (view E.TrainEnd self.old))) }
        ensures refused { IfErr result (λ r. refusal_of (events.Event.cycle block.now)
            (view E.TrainEnd self.old) ≡ Some r) }
        ensures back { IfErr result (λ _. self.new ≡ self.old) }
    {
        match self.desk.mode {
            Mode::SystemFailure => Err(Refusal::InSystemFailure),
            _ => Ok(self.cycle_change(block)),
        }
    }
}
