use crate::checks::{check, check_words};
use crate::units::TRAIN;
use cab_unit::Call;
use columns::{
    AnswerColumns, COLUMNS, CallWords, Column, ColumnValue, HEADING, NoteColumns, first_difference,
};
use driver_desk::{Answer, Class, Level, Refusal, Request};
use plan::Note;
use telegram::{Fault, Mode, Order, Refused};
use train_end::BrakeLine;

const WANTED: Order<'static> = Order::Text {
    number: 7,
    wanted: true,
    text: b"Halt",
};

const SHOWN: Order<'static> = Order::Text {
    number: 255,
    wanted: false,
    text: b"",
};

const CALLS: &[(Call<'static>, &str)] = &[
    (Call::Cycle(&[0x80, 0x00]), "cycle"),
    (Call::Press(10), "press 10"),
    (Call::Take(TRAIN), "take"),
    (Call::Order(Order::Authority(Mode::OnSight)), "authority OS"),
    (Call::Order(Order::Level(3)), "level 3"),
    (Call::Order(WANTED), "text 7 wanted"),
    (Call::Order(SHOWN), "text 255 shown"),
    (Call::Order(Order::TextWithdrawal(4)), "withdraw 4"),
    (Call::Order(Order::EmergencyStop), "stop"),
    (Call::Order(Order::Permission), "permission"),
    (Call::Order(Order::Sign), "sign"),
];

#[test]
fn calls_are_told(rt: HostRuntime) {
    for (call, words) in CALLS {
        check_words(&rt, rt.alloc(), &CallWords(call), words);
    }
}

const ANSWER: Answer = Answer {
    outcome: Some(Refusal::NotHeard),
    mode: Mode::Trip,
    level: Level::One,
    line: BrakeLine::Emergency,
    buttons: 257,
    waiting: 3,
    first: Some(Request {
        class: Class::Text,
        number: 4,
        raised: 1,
        timed: true,
    }),
    raised: None,
    acknowledged: Some(Request {
        class: Class::Hold,
        number: 0,
        raised: 5,
        timed: false,
    }),
    withdrawn: 6,
};

// The speed behind an answer, and the words of all columns.
const SPEEDS: &[(Option<u16>, &str)] = &[
    (Some(0), "30\tTR\t1\t2\t257\t3\t4:4@1t\t-\t3:0@5u\t6\t0"),
    (Some(600), "30\tTR\t1\t2\t257\t3\t4:4@1t\t-\t3:0@5u\t6\t600"),
    (None, "30\tTR\t1\t2\t257\t3\t4:4@1t\t-\t3:0@5u\t6\t?"),
];

// The words of each column alone.
const VALUES: &[&str; 10] = &[
    "30", "TR", "1", "2", "257", "3", "4:4@1t", "-", "3:0@5u", "6",
];

#[test]
fn an_answer_is_told(rt: HostRuntime) {
    check(&rt, HEADING, HEADING.split('\t').count(), 15);
    for (speed, words) in SPEEDS {
        check_words(&rt, rt.alloc(), &AnswerColumns(&ANSWER, *speed), words);
    }
    for (column, words) in COLUMNS.iter().zip(VALUES) {
        check_words(&rt, rt.alloc(), &ColumnValue(*column, &ANSWER), words);
    }
}

// Another answer in one part alone.
fn changed(column: Column) -> Answer {
    let mut answer = ANSWER;
    match column {
        Column::Outcome => answer.outcome = None,
        Column::Mode => answer.mode = Mode::PostTrip,
        Column::Level => answer.level = Level::Two,
        Column::Brake => answer.line = BrakeLine::Service,
        Column::Buttons => answer.buttons = 1,
        Column::Waiting => answer.waiting = 4,
        Column::First => answer.first = None,
        Column::Raised => answer.raised = answer.first,
        Column::Acked => answer.acknowledged = None,
        Column::Withdrawn => answer.withdrawn = 0,
    }
    answer
}

// The name of the first column in which two answers differ.
fn first_name(one: &Answer, other: &Answer) -> &'static str {
    match first_difference(one, other) {
        Some(column) => column.name(),
        None => "none",
    }
}

#[test]
fn the_first_column_that_differs_is_told(rt: HostRuntime) {
    check(&rt, "itself", first_name(&ANSWER, &ANSWER), "none");
    for column in &COLUMNS {
        let mut other = changed(*column);
        check(&rt, "alone", first_name(&ANSWER, &other), column.name());
        other.withdrawn = 7;
        check(
            &rt,
            "with the last",
            first_name(&other, &ANSWER),
            column.name(),
        );
    }
}

const FAULT: Refused = Refused {
    fault: Fault::OutsideList,
    first: 6,
};

// A note, its name, its number and its columns.
const NOTES: &[(Note, &str, u8, &str)] = &[
    (
        Note::Draft(Refusal::BrakePercentage),
        "draft",
        12,
        "12\t-\t-\t-\t-\t-\t-\t-\t-\t-\t-\t-",
    ),
    (
        Note::Fault(FAULT),
        "fault",
        23,
        "23\t6\t-\t-\t-\t-\t-\t-\t-\t-\t-\t-",
    ),
    (
        Note::End(11),
        "end",
        0,
        "0\t11\t-\t-\t-\t-\t-\t-\t-\t-\t-\t-",
    ),
];

#[test]
fn notes_are_told(rt: HostRuntime) {
    for &(note, name, number, columns) in NOTES {
        check(&rt, name, (note.name(), note.number()), (name, number));
        check_words(&rt, rt.alloc(), &NoteColumns(note), columns);
    }
}
