ghost use Rattle.std.specs.Prelude.{Some};
ghost use Rattle.columns.specs.Columns.{column_words};

use crate::names::Column;
use crate::words::{RequestWords, outcome_number};
use driver_desk::Answer;
use std::fmt;

/// What one column tells of an answer, as `AnswerColumns` writes it: the column, then the answer.
#[derive(Clone, Copy)]
pub struct ColumnValue<'a>(pub Column, pub &'a Answer);

impl fmt::Display for ColumnValue<'_> {
    ghost output = { λ w. Some (column_words w.0 w.1.now) };

    fn fmt<W: fmt::Write>(&self, f: &mut fmt::Formatter<W>) -> fmt::Result {
        let answer = self.1;
        match self.0 {
            Column::Outcome => write!(f, "{}", outcome_number(answer.outcome)),
            Column::Mode => f.write_str(answer.mode.name()),
            Column::Level => write!(f, "{}", answer.level.number()),
            Column::Brake => write!(f, "{}", answer.line.number()),
            Column::Buttons => write!(f, "{}", answer.buttons),
            Column::Waiting => write!(f, "{}", answer.waiting),
            Column::First => write!(f, "{}", RequestWords(answer.first)),
            Column::Raised => write!(f, "{}", RequestWords(answer.raised)),
            Column::Acked => write!(f, "{}", RequestWords(answer.acknowledged)),
            Column::Withdrawn => write!(f, "{}", answer.withdrawn),
        }
    }
}
