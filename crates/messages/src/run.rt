ghost use Rattle.std.specs.Prelude.{◌≡◌, ◌<◌, map, length, IfOk, IfErr};
ghost use Rattle.cab_unit.specs.Events.{said};
ghost use Rattle.messages.specs.Shown.{messages_of};
ghost use Rattle.messages.specs.Texts.{words};

use crate::messages::{FREE, Messages, ROWS};
use cab_unit::Call;
use driver_desk::Answer;
use std::alloc::{AllocError, Global};

/// The words of the top message of a cab's window after each of its calls.
///
/// Takes the calls of a run and the answer to each, as far as both lists go. Answers, for each call
/// in its order, the bytes of the text on top, lent from the calls, or none where no line stands. A
/// line without words is told as no bytes.
///
/// # Errors
///
/// Memory for the list is wanting, and nothing else. For no calls none is needed.
pub fn top_messages<'a>(
    heap: Global,
    calls: &[Call<'a>],
    answers: &[Answer],
) -> Result<Vec<Option<&'a [u8]>>, AllocError>
    ensures value { IfOk result (λ v. map words v.items ≡
        messages_of (map said calls.now) answers.now) }
    ensures memory { IfErr result (λ _. (0 < length calls.now) × (0 < length answers.now)) }
{
    let mut lines = [FREE; ROWS];
    let mut messages = Messages::new(&mut lines);
    let mut tops = Vec::new(heap);
    for place in 0..calls.len().min(answers.len()) {
        messages.show_call(&calls[place], place, &answers[place]);
        tops.push(messages.top_words(calls))?;
    }
    Ok(tops)
}
