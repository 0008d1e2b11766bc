//! Numbers in decimal digits.

ghost use Rattle.std.specs.Prelude.{◌≡◌};
ghost use Rattle.values.specs.Numbers.{number_of, leads_by_zero, value_below};

/// The number below 2^32 that a word is, in decimal digits with no zero before them.
pub fn number_of(word: &[u8]) -> Option<u32>
    ensures { result ≡ number_of word.now }
{
    if word.is_empty() {
        return None;
    }
    if leads_by_zero(word) {
        return None;
    }
    value_below(word)
}

// Whether a word has a zero before other bytes.
fn leads_by_zero(word: &[u8]) -> bool
    ensures { result ≡ leads_by_zero word.now }
{
    matches!(word, [b'0', _, ..])
}

// The number below 2^32 that a word's digits make.
#[tactic(auto, unfolding(crate::specs::Numbers::value_below))]
fn value_below(word: &[u8]) -> Option<u32>
    ensures { result ≡ value_below 0 word.now }
{
    let mut value: u64 = 0;
    for byte in word {
        let digit = byte.wrapping_sub(b'0');
        if 9 < digit {
            return None;
        }
        value = 10 * value + u64::from(digit);
        if u64::from(u32::MAX) < value {
            return None;
        }
    }
    Some(value as u32)
}
