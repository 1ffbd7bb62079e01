ghost use Rattle.std.specs.Prelude.{◌≡◌, ℕ, ◌<◌, ◌+◌, false, map, length, min, None, Option, IfOk, IfErr, Decides, slice_index_or};
ghost use Rattle.cab_unit.specs.Events.{said};
ghost use Rattle.driver_desk.specs.declared.answer.Answer.{Answer};
ghost use Rattle.messages.specs.Texts.{words};
ghost use Rattle.compare.specs.Compared.{sampled};
ghost use Rattle.compare.specs.Marks.{kept, shown_kept};
ghost use Rattle.compare.specs.Verdicts.{Decided, Found, TalliesOf, Whole, lists_of};

use crate::asked::is_cycle;
use crate::compare::{Likeness, compare_lists};
use crate::marks::Mark;
use crate::run::{Answered, Run};
use crate::tally::Tally;
use cab_unit::Call;
use driver_desk::Answer;
use messages::top_messages;
use std::alloc::{AllocError, Global};

/// How many samples of speed, answers and messages were compared, and how many differ.
#[derive(Clone, Copy, PartialEq, Eq, Debug)]
pub struct Tallies {
    /// The speeds of both units' own ends, wherever both cabs were asked for a cycle.
    pub speeds: Tally,
    /// The answers, with all their parts, at each place that is not left open.
    pub answers: Tally,
    /// The messages, at each place that is `Compared` or `Last`.
    pub messages: Tally,
}

/// What is found of two runs.
#[derive(Drop)]
pub struct Verdict<'a> {
    /// Whether both cabs were asked the same, but for the blocks of cycles and for the order of
    /// neighbouring texts that both accepted. Of lists of unequal length it is false.
    pub alike: bool,
    /// What is compared of each place, as far as both lists go.
    pub marks: Vec<Mark>,
    /// The bytes on top of the one cab's window after each of its calls; none where no line stands.
    pub messages: Vec<Option<&'a [u8]>>,
    /// The same of the other cab.
    pub other_messages: Vec<Option<&'a [u8]>>,
    /// How much was compared, and how much of it differs.
    pub tallies: Tallies,
}

/// Whether two top messages are the same: the same bytes, or no line in both windows. A line
/// without words is not the same as no line.
pub fn same_message(one: Option<&[u8]>, other: Option<&[u8]>) -> bool
    ensures { Decides result (words one.entry ≡ words other.entry) }
{
    match (one, other) {
        (None, None) => true,
        (Some(words), Some(other_words)) => words == other_words,
        _ => false,
    }
}

fn same_messages(one: &[Option<&[u8]>], other: &[Option<&[u8]>], place: usize) -> bool
    requires { (place < length one.now) × (place < length other.now) }
    ensures { Decides result (words (slice_index_or one.now place None) ≡
        words (slice_index_or other.now place None)) }
{
    same_message(one[place], other[place])
}

fn same_answer(one: &Answer, other: &Answer) -> bool
    ensures { Decides result (one.now ≡ other.now) }
{
    one == other
}

fn same_answers(one: &[Answer], other: &[Answer], place: usize) -> bool
    requires { (place < length one.now) × (place < length other.now) }
    ensures { (d : Answer) → Decides result
        (slice_index_or one.now place d ≡ slice_index_or other.now place d) }
{
    same_answer(&one[place], &other[place])
}

fn same_speeds(one: &[Option<u16>], other: &[Option<u16>], place: usize) -> bool
    requires { (place < length one.now) × (place < length other.now) }
    ensures { (d : Option ℕ) → Decides result
        (slice_index_or one.now place d ≡ slice_index_or other.now place d) }
{
    one[place] == other[place]
}

// Whether both cabs were asked for a cycle.
#[tactic(auto, using(crate::proofs::Tallying::sampled_at))]
fn is_sample(one: &[Call<'_>], other: &[Call<'_>], place: usize) -> bool
    requires { (place < length one.now) × (place < length other.now) }
    ensures { result ≡ slice_index_or
        (sampled (map said one.now) (map said other.now)) place false }
{
    is_cycle(&one[place]) & is_cycle(&other[place])
}

fn is_kept(marks: &[Mark], place: usize) -> bool
    requires { place < length marks.now }
    ensures { result ≡ slice_index_or (kept marks.now) place false }
{
    !marks[place].is_open()
}

fn is_shown(marks: &[Mark], place: usize) -> bool
    requires { place < length marks.now }
    ensures { result ≡ slice_index_or (shown_kept marks.now) place false }
{
    !marks[place].is_inside()
}

// Compares what is to be compared of each place.
fn tally_places(
    one: Run<'_, '_>,
    other: Run<'_, '_>,
    marks: &[Mark],
    messages: &[Option<&[u8]>],
    other_messages: &[Option<&[u8]>],
) -> Tallies
    requires runs { Whole (lists_of one) × Whole (lists_of other) }
    requires marks { length marks.now ≡
        min (length (lists_of one).calls) (length (lists_of other).calls) }
    requires messages { (length messages.now ≡ length (lists_of one).calls) ×
        (length other_messages.now ≡ length (lists_of other).calls) }
    ensures { TalliesOf (lists_of one.entry) (lists_of other.entry) marks.now
        (map words messages.now) (map words other_messages.now) result }
{
    let mut speeds = Tally::none();
    let mut answers = Tally::none();
    let mut shown = Tally::none();
    for i in 0..marks.len() {
        let sample = is_sample(one.calls, other.calls, i);
        let speed = same_speeds(one.speeds, other.speeds, i);
        speeds.add(i, sample, speed);
        let kept = is_kept(marks, i);
        let answer = same_answers(one.answers, other.answers, i);
        answers.add(i, kept, answer);
        let is_shown = is_shown(marks, i);
        let message = same_messages(messages, other_messages, i);
        shown.add(i, is_shown, message);
    }
    Tallies {
        speeds,
        answers,
        messages: shown,
    }
}

// Compares two runs.
pub(crate) fn compare_runs<'a>(
    heap: Global,
    one: Run<'_, 'a>,
    other: Run<'_, 'a>,
) -> Result<Verdict<'a>, AllocError>
    requires { Whole (lists_of one) × Whole (lists_of other) }
    ensures found { IfOk result (λ v. Found (lists_of one.entry) (lists_of other.entry) v) }
    ensures decided { IfOk result (λ v. Decided (lists_of one.entry) (lists_of other.entry) v) }
    ensures memory { IfErr result (λ _. 0 <
        length one.entry.calls.now + length other.entry.calls.now) }
{
    let messages = top_messages(heap, one.calls, one.answers)?;
    let other_messages = top_messages(heap, other.calls, other.answers)?;
    let Likeness { alike, marks } = compare_lists(
        heap,
        Answered {
            calls: one.calls,
            answers: one.answers,
        },
        Answered {
            calls: other.calls,
            answers: other.answers,
        },
    )?;
    let tallies = tally_places(one, other, &marks, &messages, &other_messages);
    Ok(Verdict {
        alike,
        marks,
        messages,
        other_messages,
        tallies,
    })
}
