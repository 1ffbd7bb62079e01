use bench::{Ran, Ready, run_lent};
use cab_unit::Call;
use driver_desk::Answer;
use std::alloc::Global;
use std::process::Abort;
use train_end::TrainEnd;

// What a run leaves when its unit is switched off.
#[derive(Drop)]
pub struct Done<E> {
    pub end: E,
    pub on: Answer,
    pub answers: Vec<Answer>,
    pub speeds: Vec<Option<u16>>,
}

pub fn switch_off<E: TrainEnd>(ran: Ran<'_, '_, E>) -> Done<E> {
    let Ran {
        unit,
        on,
        calls: _,
        answers,
        speeds,
    } = ran;
    Done {
        end: unit.switch_off(),
        on,
        answers,
        speeds,
    }
}

// A cab that is ready for its calls.
pub fn ready<'a, E: TrainEnd + Drop>(
    rt: &impl Abort,
    heap: Global,
    end: E,
    calls: &'a [Call<'a>],
) -> Ready<'a, 'a, E> {
    match Ready::new(heap, end, calls) {
        Ok(cab) => cab,
        Err(_end) => panic!(rt; "no memory for the places"),
    }
}

// Runs two cabs and switches their units off.
pub fn run_two<'a, E: TrainEnd + Drop, F: TrainEnd + Drop>(
    rt: &impl Abort,
    one: Ready<'a, 'a, E>,
    other: Ready<'a, 'a, F>,
) -> (Done<E>, Done<F>) {
    match run_lent(one, other) {
        Ok((one, other)) => (switch_off(one), switch_off(other)),
        Err(_cabs) => panic!(rt; "the places do not fit"),
    }
}
