ghost use Rattle.std.specs.Prelude.{◌≡◌, ◌+◌, ◌-◌, ◌<◌, true, false, Some, None, IfOk, IfErr};
ghost use Rattle.telegram.specs.Format as orders;
ghost use Rattle.telegram.specs.Format.{value_of};
ghost use Rattle.telegram.specs.declared.modes.Mode.TheVariants as modes;
ghost use Rattle.cab_unit.specs.Events as events;
ghost use Rattle.cab_unit.specs.Facts.{Facts};
ghost use Rattle.cab_unit.specs.declared.limits.TheConstants.{MOST_TEXTS};
ghost use Rattle.driver_desk.specs.Numbers.{is_mode, is_level};
ghost use Rattle.cab_unit.specs.Orders.{authorized, authority_change, level_change, text_change, order_change};
ghost use Rattle.cab_unit.specs.Refusing.{refusal as refusal_of};
ghost use Rattle.driver_desk.specs.Requests.{waits, number_of};
ghost use Rattle.cab_unit.specs.View.{view, done_of};
ghost use Rattle.driver_desk.specs.declared.level.Level.TheVariants as levels;
ghost use Rattle.driver_desk.specs.declared.request.Class.TheVariants as class;

use crate::cab::{Cab, Done};
use crate::desk::{is_supervised, level_numbered};
use crate::limits::MOST_TEXTS;
use driver_desk::{Class, Level, Refusal};
use telegram::{Mode, Order};
use train_end::TrainEnd;

impl<E: TrainEnd> Cab<E> {
    // Nothing in the mode that stands; another is entered, and all but Full Supervision ask the
    // driver.
    #[tactic(auto, unfolding(crate::specs::Orders::authority_change))]
    fn go_on_in(&mut self, mode: Mode) -> Done
        ensures state { view E.TrainEnd self.new ≡
            (authority_change mode (view E.TrainEnd self.old)).state }
        ensures done { result ≡ done_of (authority_change mode (view E.TrainEnd self.old)) }
    {
        if self.desk.mode == mode {
            return Done::default();
        }
        let withdrawn = self.enter(mode);
        if mode == Mode::FullSupervision {
            return Done::withdrawing(withdrawn);
        }
        let request = self.raise_alone(Class::Mode, mode.code(), true);
        Done::raising(request, withdrawn)
    }

    fn authority(&mut self, mode: Mode) -> Done
        ensures state { view E.TrainEnd self.new ≡
            (authority_change mode (authorized (view E.TrainEnd self.old))).state }
        ensures done { result ≡ done_of
            (authority_change mode (authorized (view E.TrainEnd self.old))) }
    {
        self.desk.authority = true;
        self.desk.pending = false;
        self.desk.silence = 0;
        self.go_on_in(mode)
    }

    #[tactic(auto, unfolding(crate::specs::Orders::level_change))]
    fn change_level(&mut self, level: Level) -> Done
        requires fitted { is_level level levels.Zero ≡ true →
            is_mode self.old.desk.mode modes.Unfitted ≡ false }
        requires responsible { is_level self.old.desk.level levels.Zero ≡ true →
            is_mode self.old.desk.mode modes.StaffResponsible ≡ false }
        ensures state { view E.TrainEnd self.new ≡
            (level_change self.old.desk.level level (view E.TrainEnd self.old)).state }
        ensures done { result ≡ done_of
            (level_change self.old.desk.level level (view E.TrainEnd self.old)) }
    {
        let old = self.desk.level;
        self.desk.level = level;
        let levels = self.waiting.withdraw_class(Class::Level);
        if level == Level::Zero {
            let modes = self.enter(Mode::Unfitted);
            self.desk.authority = false;
            let request = self.raise_alone(Class::Mode, Mode::Unfitted.code(), true);
            Done::raising(request, levels + modes)
        } else if old == Level::Zero {
            let modes = self.enter(Mode::StaffResponsible);
            let request = self.raise_alone(Class::Mode, Mode::StaffResponsible.code(), true);
            Done::raising(request, levels + modes)
        } else {
            let request = self.raise_alone(Class::Level, level.number(), true);
            Done::raising(request, levels)
        }
    }

    fn text(&mut self, number: u8) -> Done
        requires fresh { waits class.Text number (view E.TrainEnd self.old).waiting ≡ false }
        requires room { number_of class.Text (view E.TrainEnd self.old).waiting < MOST_TEXTS }
        ensures state { view E.TrainEnd self.new ≡
            (text_change number true (view E.TrainEnd self.old)).state }
        ensures done { result ≡ done_of (text_change number true (view E.TrainEnd self.old)) }
    {
        let request = self.raise(Class::Text, number, true);
        Done::raising(request, 0)
    }

    fn withdraw_text(&mut self, number: u8) -> Done
        requires { waits class.Text number (view E.TrainEnd self.old).waiting ≡ true }
        ensures state { view E.TrainEnd self.new ≡
            (order_change (orders.OrderValue.withdrawal number) (view E.TrainEnd self.old)).state }
        ensures done { result ≡ done_of
            (order_change (orders.OrderValue.withdrawal number) (view E.TrainEnd self.old)) }
    {
        Done::withdrawing(self.waiting.withdraw_text(number))
    }

    fn stop(&mut self) -> Done
        requires { number_of class.Trip (view E.TrainEnd self.old).waiting ≡ 0 }
        ensures state { view E.TrainEnd self.new ≡
            (order_change orders.OrderValue.stop (view E.TrainEnd self.old)).state }
        ensures done { result ≡ done_of
            (order_change orders.OrderValue.stop (view E.TrainEnd self.old)) }
    {
        let withdrawn = self.enter(Mode::Trip);
        self.desk.authority = false;
        let request = self.raise_alone(Class::Trip, 0, false);
        Done::raising(request, withdrawn)
    }

    fn permission(&mut self) -> Done
        requires { number_of class.Mode (view E.TrainEnd self.old).waiting ≡ 0 }
        ensures state { view E.TrainEnd self.new ≡
            (order_change orders.OrderValue.permission (view E.TrainEnd self.old)).state }
        ensures done { result ≡ done_of
            (order_change orders.OrderValue.permission (view E.TrainEnd self.old)) }
    {
        self.desk.pending = false;
        let request = self.raise_alone(Class::Mode, Mode::StaffResponsible.code(), false);
        Done::raising(request, 0)
    }

    // At level 0 Staff Responsible does not stand, and Unfitted stands at no other.
    fn level(&mut self, number: u8) -> Done
        requires fitted { is_mode self.old.desk.mode modes.Unfitted ≡ true →
            is_level self.old.desk.level levels.Zero ≡ true }
        requires responsible { is_level self.old.desk.level levels.Zero ≡ true →
            is_mode self.old.desk.mode modes.StaffResponsible ≡ false }
        ensures state { view E.TrainEnd self.new ≡
            (order_change (orders.OrderValue.level number) (view E.TrainEnd self.old)).state }
        ensures done { result ≡ done_of
            (order_change (orders.OrderValue.level number) (view E.TrainEnd self.old)) }
    {
        let level = level_numbered(number);
        if level == self.desk.level {
            return Done::default();
        }
        self.change_level(level)
    }

    // By the unit's own mode and the order, an arm refuses, and touches nothing, or moves in place.
    // System Failure stands in a guard, so that the orders are told apart first.
    #[tactic(auto, using(crate::proofs::Known::known_no_trip, crate::proofs::Known::known_unasked, crate::proofs::Known::known_unfitted, crate::proofs::Known::known_responsible))]
    pub fn step_order(&mut self, order: Order<'_>) -> Result<Done, Refusal>
        requires { ∥ Facts (view E.TrainEnd self.old) ∥₁ }
        ensures accepted { IfOk result (λ _. refusal_of (events.Event.order (value_of order.entry))
            (view E.TrainEnd self.old) ≡ None) }
        ensures state { IfOk result (λ _. view E.TrainEnd self.new ≡
            (order_change (value_of order.entry) (view E.TrainEnd self.old)).state) }
        ensures done { IfOk result (λ d. d ≡
            done_of (order_change (value_of order.entry) (view E.TrainEnd self.old))) }
        ensures refused { IfErr result (λ r. refusal_of (events.Event.order (value_of order.entry))
            (view E.TrainEnd self.old) ≡ Some r) }
        ensures back { IfErr result (λ _. self.new ≡ self.old) }
    {
        match (self.desk.mode, order) {
            (mode, _) if mode == Mode::SystemFailure => Err(Refusal::InSystemFailure),
            (_, Order::Authority(mode)) if !is_supervised(mode) => Err(Refusal::OutsideList),
            (
                Mode::StaffResponsible
                | Mode::FullSupervision
                | Mode::OnSight
                | Mode::LimitedSupervision,
                Order::Authority(mode),
            ) => Ok(self.authority(mode)),
            (Mode::Standby | Mode::PostTrip, Order::Authority(mode)) if self.desk.pending => Ok(
                self.authority(mode),
            ),
            (_, Order::Level(number)) if number > 2 => Err(Refusal::OutsideList),
            (
                Mode::StaffResponsible
                | Mode::FullSupervision
                | Mode::OnSight
                | Mode::LimitedSupervision
                | Mode::Unfitted,
                Order::Level(number),
            ) => Ok(self.level(number)),
            (_, Order::Text { wanted: false, .. }) => Ok(Done::default()),
            (_, Order::Text { number, .. }) if self.waiting.holds(Class::Text, number) => Err(
                Refusal::TextWaits,
            ),
            (_, Order::Text { .. }) if self.waiting.number_of(Class::Text) as usize >= MOST_TEXTS =>
                Err(Refusal::TwelveTextsWait),
            (_, Order::Text { number, .. }) => Ok(self.text(number)),
            (_, Order::TextWithdrawal(number)) if !self.waiting.holds(Class::Text, number) => Err(
                Refusal::NoSuchText,
            ),
            (_, Order::TextWithdrawal(number))
                if self.waiting.holds_overdue(Class::Text, number, self.cycle) => Err(
                Refusal::TextOverdue,
            ),
            (_, Order::TextWithdrawal(number)) => Ok(self.withdraw_text(number)),
            (
                Mode::StaffResponsible
                | Mode::FullSupervision
                | Mode::OnSight
                | Mode::LimitedSupervision,
                Order::EmergencyStop,
            ) => Ok(self.stop()),
            (_, Order::Sign) => {
                self.desk.silence = 0;
                Ok(Done::default())
            }
            (_, Order::Permission) if self.desk.pending => Ok(self.permission()),
            (
                Mode::Standby
                | Mode::Shunting
                | Mode::Unfitted
                | Mode::Trip
                | Mode::PostTrip
                | Mode::SystemFailure,
                Order::Authority(_) | Order::EmergencyStop,
            ) => Err(Refusal::NotHeard),
            (
                Mode::Standby | Mode::Shunting | Mode::Trip | Mode::PostTrip | Mode::SystemFailure,
                Order::Level(_),
            ) => Err(Refusal::NotHeard),
            (_, Order::Permission) => Err(Refusal::NotHeard),
        }
    }
}
