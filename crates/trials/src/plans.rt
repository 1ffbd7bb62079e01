use crate::checks::check;
use driver_desk::Refusal;
use plan::{Note, Row, Told, note_trace};
use telegram::{Fault, Refused};

const CALL: Row = Row {
    line: 1,
    told: Told::Call(None),
};

const DRAFT: Row = Row {
    line: 2,
    told: Told::Note(Note::Draft(Refusal::TrainLength)),
};

const FAULT: Row = Row {
    line: 3,
    told: Told::Note(Note::Fault(Refused {
        fault: Fault::OutsideList,
        first: 6,
    })),
};

const END: Row = Row {
    line: 4,
    told: Told::Note(Note::End(6)),
};

// Rows, which calls are inside a stretch, and what is compared of the notes.
const TRACES: &[(&[Row], &[bool], &[Option<u8>])] = &[
    (&[DRAFT, END], &[], &[Some(11)]),
    (
        &[CALL, DRAFT, CALL, FAULT, CALL],
        &[false, false, false],
        &[None, Some(11), None, Some(23), None],
    ),
    // a stretch of the first two calls: the draft counts behind both, wherever it stands
    (
        &[CALL, DRAFT, CALL, FAULT, CALL],
        &[true, false, false],
        &[None, Some(11), Some(23), None],
    ),
    (
        &[CALL, CALL, DRAFT, FAULT, CALL],
        &[true, false, false],
        &[None, Some(11), Some(23), None],
    ),
    // past the marks nothing is inside
    (&[CALL, CALL, CALL], &[true], &[None, None]),
];

#[test]
fn notes_in_a_stretch_count_behind_it(rt: HostRuntime) {
    for (rows, inside, trace) in TRACES {
        let found = note_trace(rt.alloc(), rows, inside).expect(&rt, "memory for the trace");
        check(&rt, "trace", found.as_slice(), *trace);
    }
}
