ghost use Rattle.std.specs.Prelude.{◌≡◌, ◌<◌, ◌&&◌, true, map, length, is_ok, IfOk, IfErr, if◌then◌else◌, Some, None, vec_len};
ghost use Rattle.cab_unit.specs.Events.{said, Event.take as taken};
ghost use Rattle.cab_unit.specs.Refusing.{failed};
ghost use Rattle.driver_desk.specs.declared.refusal.Refusal.TheVariants.{InSystemFailure};
ghost use Rattle.cab_unit.specs.Steps.{answer_on, answering};
ghost use Rattle.cab_unit.specs.Units.{state_of, after_call, answer_to};
ghost use Rattle.bench.specs.Both.{AsDefined, Laws};
ghost use Rattle.bench.specs.Runs.{after, answers as answers_of, speeds as speeds_of};
ghost use Rattle.bench.specs.View.{has_room, run_by, runs, ShownOn};

use cab_unit::{Call, Unit};
use driver_desk::{Answer, Draft, Level, Refusal, TrainRecord};
use std::alloc::{AllocError, Global};
use telegram::Mode;
use train_end::{BrakeLine, TrainEnd};

/// A cab before its run. It can be run where it has as many places for answers, and as many for
/// speeds, as calls.
#[derive(Drop)]
pub struct Ready<'p, 'a, E> {
    /// The train end at which the unit is to be switched on.
    pub end: E,
    /// The calls that the unit is to get, in their order.
    pub calls: &'p [Call<'a>],
    /// A place for the answer to each call. What stands there before the run says nothing.
    pub answers: Vec<Answer>,
    /// A place for the speed after each call. What stands there before the run says nothing.
    pub speeds: Vec<Option<u16>>,
}

/// A cab after its run. Its unit is still switched on; the caller switches it off.
pub struct Ran<'p, 'a, E> {
    /// The unit as the last call left it.
    pub unit: Unit<E>,
    /// What the unit showed when it was switched on, before the first call.
    pub on: Answer,
    /// The calls that were made, in their order.
    pub calls: &'p [Call<'a>],
    /// The answer to each call, at the place that the call has, counted from 0.
    pub answers: Vec<Answer>,
    /// The speed of the unit's own end after each call, in km/h, 0 to 600; none where it is
    /// unknown.
    pub speeds: Vec<Option<u16>>,
}

// What a unit answers to numbers that no draft takes. In System Failure it says that before all
// else.
fn refuse_draft<E: TrainEnd>(unit: &Unit<E>, refusal: Refusal) -> Answer
    ensures { result ≡ answering
        (Some (if failed (state_of E.TrainEnd unit.now) then InSystemFailure else refusal))
        None None 0 (state_of E.TrainEnd unit.now) }
{
    let mut answer = unit.answer();
    answer.outcome = Some(if answer.mode == Mode::SystemFailure {
        Refusal::InSystemFailure
    } else {
        refusal
    });
    answer
}

// A draft of the numbers, Yes, and the taking.
fn take_record<E: TrainEnd>(unit: &mut Unit<E>, train: TrainRecord) -> Answer
    ensures state { state_of E.TrainEnd unit.new ≡ after_call E.TrainEnd (taken train) unit.old }
    ensures answer { result ≡ answer_to E.TrainEnd (taken train) unit.old }
{
    let draft = Draft::new(
        train.driver,
        train.length as u32,
        train.percentage as u32,
        train.speed as u32,
    );
    match draft {
        Ok(draft) => match unit.take(draft.yes()) {
            Ok(answer) => answer,
            Err((answer, _)) => answer,
        },
        Err(refusal) => refuse_draft(unit, refusal),
    }
}

// Makes one call of the unit.
fn make_call<E: TrainEnd>(unit: &mut Unit<E>, call: &Call<'_>) -> Answer
    ensures state { state_of E.TrainEnd unit.new ≡ after_call E.TrainEnd (said call.now) unit.old }
    ensures answer { result ≡ answer_to E.TrainEnd (said call.now) unit.old }
{
    match *call {
        Call::Cycle(block) => unit.cycle(block),
        Call::Order(order) => unit.order(order),
        Call::Press(button) => unit.press(button),
        Call::Take(train) => take_record(unit, train),
    }
}

// Makes the calls in their order, and writes the answer to each, and the speed after it, at its
// place.
fn run_into<E: TrainEnd>(
    unit: &mut Unit<E>,
    calls: &[Call<'_>],
    answers: &mut [Answer],
    speeds: &mut [Option<u16>],
)
    requires answers { length answers.old ≡ length calls.now }
    requires speeds { length speeds.old ≡ length calls.now }
    ensures state { state_of E.TrainEnd unit.new ≡
        after E.reading (map said calls.now) (state_of E.TrainEnd unit.old) }
    ensures answers { answers.new ≡
        answers_of E.reading (map said calls.now) (state_of E.TrainEnd unit.old) }
    ensures speeds { speeds.new ≡
        speeds_of E.reading (map said calls.now) (state_of E.TrainEnd unit.old) }
{
    for (i, call) in calls.iter().enumerate() {
        answers[i] = make_call(unit, call);
        speeds[i] = unit.speed();
    }
}

impl<'p, 'a, E: TrainEnd> Ready<'p, 'a, E> {
    /// A cab at this end with these calls, and with a place for each answer and each speed.
    ///
    /// Want of memory is the only error. It gives the end back as it was, and comes only where
    /// there is a call.
    pub fn new(heap: Global, end: E, calls: &'p [Call<'a>]) -> Result<Ready<'p, 'a, E>, E>
        ensures end { IfOk result (λ c. c.end ≡ end) }
        ensures calls { IfOk result (λ c. c.calls ≡ calls.entry) }
        ensures room { IfOk result (λ c. has_room c ≡ true) }
        ensures back { IfErr result (λ e. e ≡ end) }
        ensures memory { IfErr result (λ _. 0 < length calls.entry.now) }
    {
        match blank_places(heap, calls.len()) {
            Ok((answers, speeds)) => Ok(Ready {
                end,
                calls,
                answers,
                speeds,
            }),
            Err(AllocError) => Err(end),
        }
    }

    fn has_room(&self) -> bool
        ensures { result ≡ has_room self.now }
    {
        self.answers.len() == self.calls.len() && self.speeds.len() == self.calls.len()
    }

    // Switches a unit on at the end and makes the calls.
    fn run(self) -> Ran<'p, 'a, E>
        requires { has_room self ≡ true }
        ensures run { AsDefined (run_by E.TrainEnd self.entry result) }
        ensures calls { result.calls ≡ self.entry.calls }
        ensures on { result.on ≡ answer_on (E.speed_of self.entry.end) }
    {
        let Ready {
            end,
            calls,
            mut answers,
            mut speeds,
        } = self;
        let mut unit = Unit::switch_on(end);
        let on = unit.answer();
        run_into(
            &mut unit,
            calls,
            answers.as_mut_slice(),
            speeds.as_mut_slice(),
        );
        Ran {
            unit,
            on,
            calls,
            answers,
            speeds,
        }
    }
}

/// Runs two cabs: switches a unit on at the end of each, and makes its calls in their order. The
/// places come back with the answers and the speeds.
///
/// A taking is made from its four numbers when its turn comes: draft, Yes, taking. Numbers that no
/// draft takes are answered with the draft's refusal, 10 to 13, or with 40 in System Failure.
///
/// Where a cab has not as many places as calls, nothing is run: the error is both cabs as they
/// were.
pub fn run_lent<'p, 'a, 'q, 'b, E: TrainEnd, F: TrainEnd>(
    one: Ready<'p, 'a, E>,
    other: Ready<'q, 'b, F>,
) -> Result<(Ran<'p, 'a, E>, Ran<'q, 'b, F>), (Ready<'p, 'a, E>, Ready<'q, 'b, F>)>
    ensures fits { is_ok result ≡ (has_room one.entry && has_room other.entry) }
    ensures laws { IfOk result (λ r. Laws (runs E.TrainEnd F.TrainEnd one.entry other.entry r)) }
    ensures on { IfOk result (λ r. ShownOn
        (runs E.TrainEnd F.TrainEnd one.entry other.entry r) r.0.on r.1.on) }
    ensures calls { IfOk result (λ r. (r.0.calls ≡ one.entry.calls) ×
        (r.1.calls ≡ other.entry.calls)) }
    ensures back { IfErr result (λ back. (back.0 ≡ one.entry) × (back.1 ≡ other.entry)) }
{
    if !one.has_room() || !other.has_room() {
        return Err((one, other));
    }
    Ok((one.run(), other.run()))
}

// A place for each of n answers and speeds, none of them in memory where n is 0. What stands in a
// blank says nothing: a run writes over each.
fn blank_places(heap: Global, n: usize) -> Result<(Vec<Answer>, Vec<Option<u16>>), AllocError>
    ensures places { IfOk result (λ v. (vec_len v.0 ≡ n) × (vec_len v.1 ≡ n)) }
    ensures memory { IfErr result (λ _. 0 < n) }
{
    if n == 0 {
        return Ok((Vec::new(heap), Vec::new(heap)));
    }
    let blank = Answer {
        outcome: None,
        mode: Mode::Standby,
        level: Level::Zero,
        line: BrakeLine::Emergency,
        buttons: 0,
        waiting: 0,
        first: None,
        raised: None,
        acknowledged: None,
        withdrawn: 0,
    };
    Ok((vec![in heap; blank; n]?, vec![in heap; None; n]?))
}
