ghost use Rattle.std.specs.Prelude.{Some};
ghost use Rattle.columns.specs.Columns.{answer_columns, note_columns};

use crate::words::{RequestWords, SpeedWords, outcome_number};
use driver_desk::Answer;
use plan::Note;
use std::fmt;

/// An answer, and the speed of the unit's own end in km/h, 0 to 600, or none where it is unknown.
/// It writes the columns from `outcome` to `speed`, with a tab between two.
#[derive(Clone, Copy)]
pub struct AnswerColumns<'a>(pub &'a Answer, pub Option<u16>);

impl fmt::Display for AnswerColumns<'_> {
    ghost output = { λ w. Some (answer_columns w.0.now w.1) };

    fn fmt<W: fmt::Write>(&self, f: &mut fmt::Formatter<W>) -> fmt::Result {
        let answer = self.0;
        let outcome = outcome_number(answer.outcome);
        let mode = answer.mode.name();
        let level = answer.level.number();
        let line = answer.line.number();
        let buttons = answer.buttons;
        let waiting = answer.waiting;
        let first = RequestWords(answer.first);
        let raised = RequestWords(answer.raised);
        let acknowledged = RequestWords(answer.acknowledged);
        let withdrawn = answer.withdrawn;
        let speed = SpeedWords(self.1);
        write!(
            f,
            "{outcome}\t{mode}\t{level}\t{line}\t{buttons}\t{waiting}"
        )?;
        write!(
            f,
            "\t{first}\t{raised}\t{acknowledged}\t{withdrawn}\t{speed}"
        )
    }
}

/// What is no call of the unit. It writes the columns from `outcome` to `message`, with a tab
/// between two: its number in `outcome`, in `mode` the place in the telegram where it stands, or -
/// for a draft, and - in every later column.
#[derive(Clone, Copy)]
pub struct NoteColumns(pub Note);

impl fmt::Display for NoteColumns {
    ghost output = { λ w. Some (note_columns w.0) };

    fn fmt<W: fmt::Write>(&self, f: &mut fmt::Formatter<W>) -> fmt::Result {
        write!(f, "{}\t", self.0.number())?;
        match self.0 {
            Note::Draft(_) => f.write_str("-")?,
            Note::Fault(refused) => write!(f, "{}", refused.first)?,
            Note::End(place) => write!(f, "{place}")?,
        }
        f.write_str("\t-\t-\t-\t-\t-\t-\t-\t-\t-\t-")
    }
}
