ghost use Rattle.std.specs.Prelude.{◌≡◌};
ghost use Rattle.train_end.specs.declared.brake_line.BrakeLine.TheVariants.{Emergency};
ghost use Rattle.cab_unit.specs.Events as events;
ghost use Rattle.cab_unit.specs.Steps.{reply, switched_on};

use crate::unit::Unit;
use driver_desk::{Answer, Draft};
use train_end::TrainEnd;

/// A desk from switching on to switching off: the driver says Yes to the draft, and the unit on
/// this end takes the record.
///
/// Answers what the unit answered to the taking, and the end with its line at emergency and its
/// speed as before. Where the train does not stand, the taking is refused with `RecordNotTaken`
/// (14).
pub fn confirm_one<E: TrainEnd>(end: E, draft: Draft) -> (Answer, E)
    ensures answer { result.0 ≡ reply E.reading (events.Event.take draft.train)
        (switched_on (E.speed_of end)) }
    ensures line { E.line_of result.1 ≡ Emergency }
    ensures speed { E.speed_of result.1 ≡ E.speed_of end }
{
    let mut unit = Unit::switch_on(end);
    let confirmed = draft.yes();
    let answer = match unit.take(confirmed) {
        Ok(answer) => answer,
        Err((answer, _confirmed)) => answer,
    };
    (answer, unit.switch_off())
}
