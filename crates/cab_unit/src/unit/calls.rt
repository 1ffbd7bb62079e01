ghost use Rattle.std.specs.Prelude.{◌≡◌, None};
ghost use Rattle.telegram.specs.Format.{value_of};
ghost use Rattle.train_end.specs.declared.brake_line.BrakeLine.TheVariants.{Emergency};
ghost use Rattle.cab_unit.specs.Events.{Event.press as press_of, Event.order as order_of, Event.cycle as cycle_of, Event.take as taking_of};
ghost use Rattle.cab_unit.specs.Steps.{answering, switched_on};
ghost use Rattle.cab_unit.specs.Units.{state_of, after_call, answer_to, refusal_now, StaysIf, TakenOrBack};

use super::Unit;
use crate::cab::{Cab, Done};
use crate::desk::Desk;
use crate::waiting::Waiting;
use driver_desk::{Answer, Confirmed, Level};
use telegram::{Mode, Order};
use train_end::{BrakeLine, TrainEnd};

impl<E: TrainEnd> Unit<E> {
    /// A new unit on this end: in Standby at level 0, cycle number 0, with nothing held and nothing
    /// waiting. The end keeps its speed; its line is set to service where that is unknown, and is
    /// released where it is known.
    pub fn switch_on(end: E) -> Unit<E>
        ensures { state_of E.TrainEnd result ≡ switched_on (E.speed_of end) }
    {
        let desk = Desk {
            mode: Mode::Standby,
            level: Level::Zero,
            authority: false,
            pending: false,
            silence: 0,
        };
        let mut cab = Cab {
            desk,
            train: None,
            cycle: 0,
            waiting: Waiting::none(),
            end,
        };
        cab.settle();
        Unit { cab }
    }

    /// Uses the unit up and gives its end back, with the line at emergency and the speed as before.
    pub fn switch_off(self) -> E
        ensures line { E.line_of result ≡ Emergency }
        ensures speed { E.speed_of result ≡ (state_of E.TrainEnd self).speed }
    {
        let Unit {
            cab: Cab {
                desk: _,
                train: _,
                cycle: _,
                waiting: _,
                mut end,
            },
        } = self;
        end.set_line(BrakeLine::Emergency);
        end
    }

    /// What the desk shows between calls. `outcome`, `raised` and `acknowledged` are none, and
    /// `withdrawn` is 0. It is answered in System Failure too, and changes nothing.
    pub fn answer(&self) -> Answer
        ensures { result ≡ answering None None None 0 (state_of E.TrainEnd self.now) }
    {
        self.cab.answer(None, Done::default())
    }

    /// The speed of the unit's own end in km/h, 0 to 600; none where it is unknown. Nothing
    /// changes.
    pub fn speed(&self) -> Option<u16>
        ensures { result ≡ (state_of E.TrainEnd self.now).speed }
    {
        self.cab.end.speed()
    }

    /// Presses the button of this number: 1 Acknowledge, 2 Start, 3 Shunting, 4 Exit shunting,
    /// 5 Override, 6 to 8 Level 0 to 2, 9 Close desk. Acknowledge ends the first waiting request
    /// alone.
    ///
    /// Refused, with unit and end as before: `InSystemFailure` (40); a number from 0 to 255 that is
    /// none of these, `NoSuchButton` (1); a button that is not enabled, `ButtonNotEnabled` (2).
    pub fn press(&mut self, button: u8) -> Answer
        ensures state { state_of E.TrainEnd self.new ≡
            after_call E.TrainEnd (press_of button) self.old }
        ensures answer { result ≡ answer_to E.TrainEnd (press_of button) self.old }
        ensures refused { StaysIf (refusal_now E.TrainEnd (press_of button) self.old)
            self.old self.new }
    {
        match self.cab.step_press(button) {
            Err(refusal) => self.cab.refuse(refusal),
            Ok(done) => self.cab.finish(done),
        }
    }

    /// Delivers an order, from a telegram or from elsewhere. The mode that stands, and a pending
    /// start, decide whether it is heard.
    ///
    /// Refused, with unit and end as before, by the first that applies: `InSystemFailure` (40);
    /// `OutsideList` (23), an Authority for a mode that is not Full Supervision, On Sight or
    /// Limited Supervision, or a level above 2; `NotHeard` (30). A text that wants acknowledgement
    /// meets `TextWaits` (31), then `TwelveTextsWait` (32); a Text withdrawal `NoSuchText` (33),
    /// then `TextOverdue` (34).
    pub fn order(&mut self, order: Order<'_>) -> Answer
        ensures state { state_of E.TrainEnd self.new ≡
            after_call E.TrainEnd (order_of (value_of order.entry)) self.old }
        ensures answer { result ≡ answer_to E.TrainEnd (order_of (value_of order.entry)) self.old }
        ensures refused { StaysIf (refusal_now E.TrainEnd (order_of (value_of order.entry)) self.old)
            self.old self.new }
    {
        match self.cab.step_order(order) {
            Err(refusal) => self.cab.refuse(refusal),
            Ok(done) => self.cab.finish(done),
        }
    }

    /// One cycle: the cycle number goes up by 1, the end gets the block, and then silence and
    /// movement are judged. What speed the block means, and that it may mean none, is the end's
    /// reading. With the number at 4294967295 the unit enters System Failure instead: the call is
    /// accepted, and number and speed are as before.
    ///
    /// Refused, with unit and end as before: `InSystemFailure` (40).
    pub fn cycle(&mut self, block: &[u8]) -> Answer
        ensures state { state_of E.TrainEnd self.new ≡
            after_call E.TrainEnd (cycle_of block.now) self.old }
        ensures answer { result ≡ answer_to E.TrainEnd (cycle_of block.now) self.old }
        ensures refused { StaysIf (refusal_now E.TrainEnd (cycle_of block.now) self.old)
            self.old self.new }
    {
        match self.cab.step_cycle(block) {
            Err(refusal) => self.cab.refuse(refusal),
            Ok(done) => self.cab.finish(done),
        }
    }

    /// Takes a confirmed record in place of any held before, and uses it up.
    ///
    /// Refused, with unit and end as before, and the record handed back beside the answer:
    /// `InSystemFailure` (40); `RecordNotTaken` (14) where the Level buttons are not enabled.
    pub fn take(&mut self, confirmed: Confirmed) -> Result<Answer, (Answer, Confirmed)>
        ensures state { state_of E.TrainEnd self.new ≡
            after_call E.TrainEnd (taking_of confirmed.train) self.old }
        ensures answer { TakenOrBack (refusal_now E.TrainEnd (taking_of confirmed.train) self.old)
            (answer_to E.TrainEnd (taking_of confirmed.train) self.old) confirmed result }
        ensures refused { StaysIf (refusal_now E.TrainEnd (taking_of confirmed.train) self.old)
            self.old self.new }
    {
        match self.cab.step_take(&confirmed) {
            Err(refusal) => Err((self.cab.refuse(refusal), confirmed)),
            Ok(done) => Ok(self.cab.finish(done)),
        }
    }
}
