ghost use Rattle.std.specs.Prelude.{◌≡◌, ◌≤◌, IfOk};
ghost use Rattle.call_list.specs.Numbers.{digits_value, number_of, number_wanted, Within, ReadsWritten};

use crate::entry::Wrong;

// The value of decimal digits; none where a byte is no digit, or the value passes the limit.
fn digits_value(word: &[u8], limit: u32) -> Option<u32>
    ensures { result ≡ digits_value limit 0 word.now }
{
    let mut value: u64 = 0;
    for b in word {
        if !b.is_ascii_digit() {
            return None;
        }
        let next = value * 10 + (*b - b'0') as u64;
        if next > limit as u64 {
            return None;
        }
        value = next;
    }
    Some(value as u32)
}

// The decimal number that a word writes; none where it writes none, or one past the limit.
fn number(word: &[u8], limit: u32) -> Option<u32>
    ensures value { result ≡ number_of limit word.now }
    ensures within { Within limit result }
    ensures written { ReadsWritten limit word.now result }
{
    if word.is_empty() {
        return None;
    }
    digits_value(word, limit)
}

pub(crate) fn number_wanted(word: &[u8], limit: u32) -> Result<u32, Wrong>
    ensures value { result ≡ number_wanted limit word.now }
    ensures within { IfOk result (λ n. n ≤ limit) }
{
    number(word, limit).ok_or(Wrong::NotANumber)
}

pub(crate) fn byte_wanted(word: &[u8]) -> Result<u8, Wrong>
    ensures { result ≡ number_wanted 255 word.now }
{
    Ok(number_wanted(word, u8::MAX as u32)? as u8)
}
