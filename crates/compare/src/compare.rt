ghost use Rattle.std.specs.Prelude.{◌≡◌, ◌<◌, ◌+◌, ◌^◌, true, ◌&&◌, [], ◌∷◌, ◌++◌, length, take, drop, is_some, IfSome, IfOk, IfErr, OnOk, Decides, vec_len};
ghost use Rattle.compare.specs.Asked.{asked, keyed};
ghost use Rattle.compare.specs.Decided.{LawDecided};
ghost use Rattle.compare.specs.Marks.{marks_of};
ghost use Rattle.compare.specs.Walked.{Apart, AsLong, Compared, Front, Walked, is_alike, is_reordered, shortest, text_next};

use crate::account::{Surplus, enter};
use crate::asked::{TextKey, same_asked, text_key};
use crate::marks::{Mark, Stretch};
use crate::run::Answered;
use std::alloc::{AllocError, Global};
use std::collections::BTreeMap;

// Whether two lists that were run are the same up to blocks and the order of neighbouring accepted
// texts, and what is compared of each place.
#[derive(Drop)]
pub(crate) struct Likeness {
    pub(crate) alike: bool,
    pub(crate) marks: Vec<Mark>,
}

// So many places more, in another order or not.
fn add_marks(marks: &mut Vec<Mark>, length: usize, reordered: bool) -> Result<(), AllocError>
    requires { vec_len marks.old + length < 2 ^ 64 }
    ensures items { OnOk result (marks.new.items ≡ marks.old.items ++ marks_of reordered length) }
    ensures len { OnOk result (vec_len marks.new ≡ vec_len marks.old + length) }
{
    let before = marks.len();
    if !reordered {
        marks.resize(before + length, Mark::Compared)?;
        return Ok(());
    }
    if length > 0 {
        marks.resize(before + length - 1, Mark::Inside)?;
        marks.push(Mark::Last)?;
    }
    Ok(())
}

// The text at this place of a run, where one stands there that was accepted.
fn text_at<'a>(run: Answered<'a>, place: usize) -> Option<TextKey<'a>>
    ensures found { is_some result ≡
        text_next (drop place (asked run.entry)) (drop place run.entry.answers.now) }
    ensures key { IfSome result (λ k. take (place + 1) (asked run.entry) ≡
        take place (asked run.entry) ++ (keyed k ∷ [])) }
{
    match (run.calls.get(place), run.answers.get(place)) {
        (Some(call), Some(answer)) if answer.outcome.is_none() => text_key(call),
        _ => None,
    }
}

// The first calls of two runs: how many, and how they compare.
#[derive(Clone, Copy)]
struct Step {
    length: usize,
    stretch: Stretch,
}

// The shortest stretch of accepted texts in which the same texts came, or all that both begin with.
fn stretch_ahead(heap: Global, run: Answered<'_>, other: Answered<'_>) -> Result<Step, AllocError>
    requires long { AsLong (asked run) run.answers.now (asked other) other.answers.now }
    requires texts { (text_next (asked run) run.answers.now &&
        text_next (asked other) other.answers.now) ≡ true }
    requires differ { Apart 2 (asked run) (asked other) }
    ensures { IfOk result (λ s. Front (is_alike s.stretch) (is_reordered s.stretch) s.length
        (asked run.entry) run.entry.answers.now (asked other.entry) other.entry.answers.now) }
{
    let mut account = BTreeMap::new(heap);
    let mut length: usize = 0;
    while let (Some(key), Some(other_key)) = (text_at(run, length), text_at(other, length)) {
        length += 1;
        enter(&mut account, key, Surplus { left: 1, right: 0 })?;
        enter(&mut account, other_key, Surplus { left: 0, right: 1 })?;
        if account.is_empty() {
            return Ok(Step {
                length,
                stretch: Stretch::Reordered,
            });
        }
    }
    Ok(Step {
        length,
        stretch: Stretch::Other,
    })
}

// One call of each run, or the accepted texts that both begin with.
fn compare_front(heap: Global, run: Answered<'_>, other: Answered<'_>) -> Result<Step, AllocError>
    requires { (0 < length (asked run)) ×
        AsLong (asked run) run.answers.now (asked other) other.answers.now }
    ensures { IfOk result (λ s. Front (is_alike s.stretch) (is_reordered s.stretch) s.length
        (asked run.entry) run.entry.answers.now (asked other.entry) other.entry.answers.now) }
{
    if same_asked(&run.calls[0], &other.calls[0]) {
        return Ok(Step {
            length: 1,
            stretch: Stretch::Same,
        });
    }
    if text_at(run, 0).is_none() || text_at(other, 0).is_none() {
        return Ok(Step {
            length: 1,
            stretch: Stretch::Other,
        });
    }
    stretch_ahead(heap, run, other)
}

// Lists with as many answers, front by front.
fn walk_lists(
    heap: Global,
    mut run: Answered<'_>,
    mut other: Answered<'_>,
) -> Result<Likeness, AllocError>
    requires { AsLong (asked run) run.answers.now (asked other) other.answers.now }
    ensures value { IfOk result (λ l. Walked l.alike l.marks.items
        (asked run.entry) run.entry.answers.now (asked other.entry) other.entry.answers.now) }
    ensures memory { IfErr result (λ _. 0 < length (asked run.entry)) }
{
    let mut alike = true;
    let mut marks = Vec::new(heap);
    while !run.calls.is_empty() {
        let step = compare_front(heap, run, other)?;
        run = run.behind(step.length);
        other = other.behind(step.length);
        alike &= step.stretch.is_alike();
        add_marks(&mut marks, step.length, step.stretch.is_reordered())?;
    }
    Ok(Likeness { alike, marks })
}

// No list of two runs is longer than another.
fn as_long(run: Answered<'_>, other: Answered<'_>) -> bool
    ensures { Decides result (AsLong (asked run.entry) run.entry.answers.now
        (asked other.entry) other.entry.answers.now) }
{
    other.calls.len() == run.calls.len()
        && run.answers.len() == run.calls.len()
        && other.answers.len() == run.calls.len()
}

// Compares two runs as far as all four lists go.
pub(crate) fn compare_lists(
    heap: Global,
    run: Answered<'_>,
    other: Answered<'_>,
) -> Result<Likeness, AllocError>
    ensures value { IfOk result (λ l. Compared l.alike l.marks.items
        (asked run.entry) run.entry.answers.now (asked other.entry) other.entry.answers.now) }
    ensures law { IfOk result (λ l. LawDecided l.alike l.marks.items
        (asked run.entry) run.entry.answers.now (asked other.entry) other.entry.answers.now) }
    ensures memory { IfErr result (λ _. 0 < shortest (asked run.entry) run.entry.answers.now
        (asked other.entry) other.entry.answers.now) }
{
    let n = run.len().min(other.len());
    let Likeness { alike, marks } = walk_lists(heap, run.cut(n), other.cut(n))?;
    Ok(Likeness {
        alike: as_long(run, other) & alike,
        marks,
    })
}
