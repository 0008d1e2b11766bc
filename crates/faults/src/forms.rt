//! What a word looks like.

ghost use Rattle.std.specs.Prelude.{◌≡◌, ◌==◌, ◌||◌};
ghost use Rattle.values.specs.Numbers.{is_digit, leads_by_zero};
ghost use Rattle.values.specs.Prefixes.{slash, behind};
ghost use Rattle.faults.specs.Cures.{begins_digit, begins_wrong, made_of, digits, pointed, marked, dotted};
ghost use Rattle.faults.specs.Cures.{behind_digits, is_prefix, too_long, letter_unit, unit_meant, marked_utf8};
ghost use Rattle.faults.specs.Cures.{no_word, ends_rule};

use crate::word::{Word, any_word};
use field::ADDRESS_BITS;
use tokens::{CLOSE, COLON, OPEN};
use values::{NoPrefix, number_of, prefix_of};

// Whether a digit stands first.
pub(crate) fn begins_digit(word: &[u8]) -> bool
    ensures { result ≡ begins_digit word.now }
{
    match word {
        [] => false,
        [first, ..] => b'0' <= *first && *first <= b'9',
    }
}

// Whether a digit, - or _ stands first.
pub(crate) fn begins_wrong(word: &[u8]) -> bool
    ensures { result ≡ begins_wrong word.now }
{
    begins_digit(word) || matches!(word, [b'-' | b'_', ..])
}

// Whether a word has digits alone.
pub(crate) fn digits(word: &[u8]) -> bool
    ensures { result ≡ digits word.now }
{
    begins_digit(word) && made_of(b'0', b'0', word)
}

// Whether a word has digits with points.
pub(crate) fn pointed(word: &[u8]) -> bool
    ensures { result ≡ pointed word.now }
{
    begins_digit(word) && made_of(b'.', b'.', word)
}

// Whether a word has digits with commas and low lines.
pub(crate) fn marked(word: &[u8]) -> bool
    ensures { result ≡ marked word.now }
{
    begins_digit(word) && made_of(b',', b'_', word)
}

// Whether a word has digits with points and slashes.
pub(crate) fn dotted(word: &[u8]) -> bool
    ensures { result ≡ dotted word.now }
{
    begins_digit(word) && made_of(b'.', b'/', word)
}

// Whether a word is made of digits and two other bytes.
fn made_of(first: u8, second: u8, word: &[u8]) -> bool
    ensures { result ≡ made_of first second word.now }
{
    for &byte in word {
        if !is_one(first, second, byte) {
            return false;
        }
    }
    true
}

// Whether a byte is a digit or one of two others.
fn is_one(first: u8, second: u8, byte: u8) -> bool
    ensures { result ≡ (is_digit byte || byte == first || byte == second) }
{
    (b'0' <= byte && byte <= b'9') || byte == first || byte == second
}

// Whether a word has a zero before other bytes.
pub(crate) fn leads_by_zero(word: &[u8]) -> bool
    ensures { result ≡ leads_by_zero word.now }
{
    matches!(word, [b'0', _, ..])
}

// What stands behind the digits at the front.
pub(crate) fn behind_digits(word: &[u8]) -> &[u8]
    ensures { result.now ≡ behind_digits word.now }
{
    for (place, &byte) in word.iter().enumerate() {
        if byte < b'0' || b'9' < byte {
            return &word[place..];
        }
    }
    &[]
}

// Whether a word is a prefix, also one with bits behind its length.
pub(crate) fn is_prefix(word: &[u8]) -> bool
    ensures { result ≡ is_prefix word.now }
{
    match prefix_of(word) {
        Ok(_) | Err(NoPrefix::HostBits(_)) => true,
        Err(NoPrefix::NotOne) => false,
    }
}

// Whether a length above 32 stands behind a slash.
pub(crate) fn too_long(word: &[u8]) -> bool
    ensures { result ≡ too_long word.now }
{
    number_of(behind_slash(word)).unwrap_or(0) > ADDRESS_BITS
}

// What stands behind the first slash.
fn behind_slash(word: &[u8]) -> &[u8]
    ensures { result.now ≡ behind slash word.now }
{
    for (place, &byte) in word.iter().enumerate() {
        if byte == b'/' {
            return &word[place + 1..];
        }
    }
    &[]
}

// The unit of a word: its letter alone, or with a b behind it.
pub(crate) fn unit_meant(word: &[u8]) -> Option<Word>
    ensures { result ≡ unit_meant word.now }
{
    match word {
        [letter] | [letter, b'b' | b'B', ..] => letter_unit(*letter),
        _ => None,
    }
}

// The unit of a first letter, small or capital.
fn letter_unit(letter: u8) -> Option<Word>
    ensures { result ≡ letter_unit letter }
{
    match letter {
        b'k' | b'K' => Some(Word::Kbit),
        b'm' | b'M' => Some(Word::Mbit),
        b'g' | b'G' => Some(Word::Gbit),
        _ => None,
    }
}

// Whether a word begins with a byte order mark.
pub(crate) fn marked_utf8(word: &[u8]) -> bool
    ensures { result ≡ marked_utf8 word.now }
{
    matches!(word, [0xEF, 0xBB, 0xBF, ..])
}

// Whether no word is there: the end of the text, or a mark.
pub(crate) fn no_word(word: &[u8]) -> bool
    ensures { result ≡ no_word word.now }
{
    word.is_empty() || word == COLON || word == OPEN || word == CLOSE
}

// Whether a rule ends here: a node starts or ends, the text does, or another rule starts.
pub(crate) fn ends_rule(word: &[u8], colon: bool) -> bool
    ensures { result ≡ ends_rule word.now colon }
{
    word.is_empty() || word == CLOSE || any_word(word, &[Word::Node]) || colon
}
