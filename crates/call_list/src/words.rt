ghost use Rattle.std.specs.Prelude.{◌≡◌, true, false, Some, None};
ghost use Rattle.std.specs.Result.{MatchResult};
ghost use Rattle.call_list.specs.Words.{is_blank, word_of, after_word, is_empty, count_fault};
ghost use Rattle.call_list.specs.declared.entry.Wrong.TheVariants.{MissingWord};

use crate::entry::Wrong;

// A space, a tab or a carriage return.
fn is_blank(b: u8) -> bool
    ensures { result ≡ is_blank b }
{
    matches!(b, b' ' | b'\t' | b'\r')
}

// The first word of a text, empty where there is none, and what stands after it.
pub(crate) fn split_word(text: &[u8]) -> (&[u8], &[u8])
    ensures word { result.0.now ≡ word_of text.now }
    ensures after { result.1.now ≡ after_word text.now }
{
    let start = text
        .iter()
        .position(|b| !is_blank(*b))
        .unwrap_or(text.len());
    let (_, from) = text.split_at(start);
    let end = from.iter().position(|b| is_blank(*b)).unwrap_or(from.len());
    from.split_at(end)
}

// The next word of a text and what stands after it, where a word is due.
pub(crate) fn next_word(text: &[u8]) -> Result<(&[u8], &[u8]), Wrong>
    ensures { MatchResult result
        (λ p. (is_empty (word_of text.now) ≡ false) × (p.0.now ≡ word_of text.now) × (p.1.now ≡ after_word text.now))
        (λ w. (is_empty (word_of text.now) ≡ true) × (w ≡ MissingWord)) }
{
    let (word, after) = split_word(text);
    if word.is_empty() {
        return Err(Wrong::MissingWord);
    }
    Ok((word, after))
}

// Refuses a text with a word, where none is due.
pub(crate) fn no_word(text: &[u8]) -> Result<(), Wrong>
    ensures { MatchResult result (λ _. count_fault 0 text.now ≡ None)
        (λ w. count_fault 0 text.now ≡ Some w) }
{
    if split_word(text).0.is_empty() {
        Ok(())
    } else {
        Err(Wrong::ExtraWord)
    }
}

// The one word of a text.
pub(crate) fn last_word(text: &[u8]) -> Result<&[u8], Wrong>
    ensures { MatchResult result
        (λ word. (count_fault 1 text.now ≡ None) × (word.now ≡ word_of text.now))
        (λ w. count_fault 1 text.now ≡ Some w) }
{
    let (word, after) = next_word(text)?;
    no_word(after)?;
    Ok(word)
}
