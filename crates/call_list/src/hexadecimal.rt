ghost use Rattle.std.specs.Prelude.{◌≡◌, true, Some, None, IfOk, is_some, vec_items};
ghost use Rattle.std.specs.Result.{MatchResult};
ghost use Rattle.std.specs.List.{list_all};
ghost use Rattle.hex.specs.Hex.{is_hex_digit};
ghost use Rattle.call_list.specs.Hex.{hex_bytes};
ghost use Rattle.call_list.specs.declared.entry.Wrong.TheVariants.{NotHexadecimal};

use crate::entry::Wrong;
use std::alloc::{AllocError, Global};

fn are_digits(word: &[u8]) -> bool
    ensures { result ≡ list_all is_hex_digit word.now }
{
    word.iter().all(|b| b.is_ascii_hexdigit())
}

// Whether a word names bytes: `-` for none, else pairs of hexadecimal digits.
fn names_bytes(word: &[u8]) -> bool
    ensures { result ≡ is_some (hex_bytes word.now) }
{
    word == b"-".as_slice() || word.len() % 2 == 0 && are_digits(word)
}

// A word that names bytes. All words of a line are looked at before memory is taken for one: a bad
// line never wants any.
pub(crate) fn hex_wanted(word: &[u8]) -> Result<&[u8], Wrong>
    ensures { MatchResult result
        (λ w. (w.now ≡ word.now) × (is_some (hex_bytes word.now) ≡ true))
        (λ w. (hex_bytes word.now ≡ None) × (w ≡ NotHexadecimal)) }
{
    if names_bytes(word) {
        Ok(word)
    } else {
        Err(Wrong::NotHexadecimal)
    }
}

// The bytes that such a word names.
pub(crate) fn decode(heap: Global, word: &[u8]) -> Result<Vec<u8>, AllocError>
    requires { is_some (hex_bytes word.now) ≡ true }
    ensures { IfOk result (λ v. hex_bytes word.now ≡ Some (vec_items v)) }
{
    if word == b"-".as_slice() {
        return Ok(Vec::new(heap));
    }
    hex::decode(heap, word).map_err(|_| AllocError)
}
