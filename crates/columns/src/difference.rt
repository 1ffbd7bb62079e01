ghost use Rattle.std.specs.Prelude.{◌≡◌, ◌↔◌, None, IfSome, Decides};
ghost use Rattle.columns.specs.Difference.{DifferFirst, SamePart};

use crate::names::{COLUMNS, Column};
use driver_desk::Answer;

/// Whether two answers tell the same in a column.
pub fn same_part(column: Column, one: &Answer, other: &Answer) -> bool
    ensures { Decides result (SamePart column one.now other.now) }
{
    match column {
        Column::Outcome => one.outcome == other.outcome,
        Column::Mode => one.mode == other.mode,
        Column::Level => one.level == other.level,
        Column::Brake => one.line == other.line,
        Column::Buttons => one.buttons == other.buttons,
        Column::Waiting => one.waiting == other.waiting,
        Column::First => one.first == other.first,
        Column::Raised => one.raised == other.raised,
        Column::Acked => one.acknowledged == other.acknowledged,
        Column::Withdrawn => one.withdrawn == other.withdrawn,
    }
}

/// The first column in which two answers differ, in the order of `COLUMNS`; none exactly where they
/// are equal.
#[tactic(auto, using(crate::proofs::Parts::same_each))]
pub fn first_difference(one: &Answer, other: &Answer) -> Option<Column>
    ensures none { (result ≡ None) ↔ (one.now ≡ other.now) }
    ensures some { IfSome result (λ c. DifferFirst c one.now other.now) }
{
    for column in COLUMNS {
        if !same_part(column, one, other) {
            return Some(column);
        }
    }
    None
}
