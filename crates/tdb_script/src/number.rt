// Numbers of openers.

ghost use Rattle.std.specs.Prelude.{◌≡◌, ℕ, IfSome, None};
ghost use Rattle.tdb_script.specs.Number.{IsNumber};

use crate::limits::MOST_NUMBER;
use crate::text::text_of;

/// The number that the word writes.
pub(crate) fn number_of(word: &[u8]) -> Option<u32>
    ensures read { IfSome result (λ n. IsNumber word.now n) }
    ensures refused { result ≡ None → (n : ℕ) → IsNumber word.now n → ⊥ }
{
    if word.first() == Some(&b'0') || word.first() == Some(&b'+') {
        return None;
    }
    let Some(text) = text_of(word) else {
        return None;
    };
    match text.parse::<u32>() {
        Ok(number) if 1 <= number && number <= MOST_NUMBER => Some(number),
        _ => None,
    }
}
