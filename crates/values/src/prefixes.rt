//! Addresses and prefixes.

ghost use Rattle.std.specs.Prelude.{◌≡◌, ◌≤◌, IfSome, Some};
ghost use Rattle.std.specs.Net.Reader.{read_view};
ghost use Rattle.field.specs.Prefix.{address_bits};
ghost use Rattle.values.specs.Numbers.{up_to, number_of};
ghost use Rattle.values.specs.Prefixes.{prefix_of, prefix_from, length_behind, octet_of, before, behind};
ghost use Rattle.values.specs.Prefixes.{begins_octet, octet_from, octet_then, three_octets};

use crate::number_of;
use field::{ADDRESS_BITS, Prefix};

// The greatest octet.
const OCTET: u32 = 255;

/// Why a word is no prefix: it is none at all, or it is one but for bits behind its length.
#[derive(Clone, Copy, PartialEq, Eq)]
pub enum NoPrefix {
    NotOne,
    HostBits(Prefix),
}

/// The prefix that a word is: four octets and a length behind a slash, or four octets for a length of 32.
pub fn prefix_of(word: &[u8]) -> Result<Prefix, NoPrefix>
    ensures { result ≡ prefix_of word.now }
{
    let Some((front, rest)) = three_octets(word) else {
        return Err(NoPrefix::NotOne);
    };
    let (last, length) = cut(rest, b'/');
    let written = last.len() < rest.len();
    let Some(last) = octet_of(last) else {
        return Err(NoPrefix::NotOne);
    };
    let Some(length) = length_of(written, length) else {
        return Err(NoPrefix::NotOne);
    };
    prefix_from(front + last, length)
}

// The length that is written behind the slash, if there is a slash.
fn length_of(written: bool, word: &[u8]) -> Option<u32>
    ensures within { IfSome result (λ n. n ≤ address_bits) }
    ensures value { result ≡ length_behind written word.now }
{
    if written {
        number_up_to(word, ADDRESS_BITS)
    } else {
        Some(ADDRESS_BITS)
    }
}

// The prefix of an address and a length, if the address has no bits behind the length.
fn prefix_from(address: u32, length: u32) -> Result<Prefix, NoPrefix>
    requires { length ≤ address_bits }
    ensures { result ≡ prefix_from (Some address) (Some length) }
{
    let prefix = Prefix { address, length };
    if prefix.is_right() {
        Ok(prefix)
    } else {
        Err(NoPrefix::HostBits(prefix))
    }
}

// What the first three octets of an address are worth, and what stands behind their dots.
#[tactic(auto, unfolding(crate::specs::Prefixes::three_octets))]
fn three_octets(word: &[u8]) -> Option<(u32, &[u8])>
    ensures within { IfSome result (λ x. x.0 ≤ 4294967040) }
    ensures value { read_view (λ n. n) result ≡ three_octets word.now }
{
    let (first, rest) = octet_then(word)?;
    let (second, rest) = octet_then(rest)?;
    let (third, rest) = octet_then(rest)?;
    Some((16_777_216 * first + 65536 * second + 256 * third, rest))
}

// The octet up to a dot, and what stands behind the dot.
#[tactic(auto, unfolding(crate::specs::Prefixes::octet_then))]
fn octet_then(word: &[u8]) -> Option<(u32, &[u8])>
    ensures within { IfSome result (λ x. x.0 ≤ 255) }
    ensures value { read_view (λ n. n) result ≡ octet_then word.now }
{
    if begins_octet(word) {
        octet_from_start(word)
    } else {
        None
    }
}

// Whether a word begins by an octet that is not empty and has no zero before other digits.
fn begins_octet(word: &[u8]) -> bool
    ensures { result ≡ begins_octet word.now }
{
    match word {
        [] | [_] | [b'.', ..] => false,
        [b'0', second, ..] => *second == b'.',
        _ => true,
    }
}

// The number below 256 that the digits up to a dot make, and what stands behind the dot.
#[tactic(auto, unfolding(crate::specs::Prefixes::octet_from))]
fn octet_from_start(word: &[u8]) -> Option<(u32, &[u8])>
    ensures within { IfSome result (λ x. x.0 ≤ 255) }
    ensures value { read_view (λ n. n) result ≡ octet_from 0 word.now }
{
    let mut value = 0;
    for (place, byte) in word.iter().enumerate() {
        if *byte == b'.' {
            return Some((value, &word[place + 1..]));
        }
        let digit = byte.wrapping_sub(b'0');
        if 9 < digit {
            return None;
        }
        value = 10 * value + u32::from(digit);
        if OCTET < value {
            return None;
        }
    }
    None
}

// A number below 256.
fn octet_of(word: &[u8]) -> Option<u32>
    ensures within { IfSome result (λ n. n ≤ 255) }
    ensures value { result ≡ octet_of word.now }
{
    number_up_to(word, OCTET)
}

// The number that a word is, if it is no more than a limit.
fn number_up_to(word: &[u8], limit: u32) -> Option<u32>
    ensures within { IfSome result (λ n. n ≤ limit) }
    ensures value { result ≡ up_to limit (number_of word.now) }
{
    match number_of(word) {
        Some(number) if number <= limit => Some(number),
        _ => None,
    }
}

// What stands before the first of a byte, and what stands behind it.
fn cut(word: &[u8], mark: u8) -> (&[u8], &[u8])
    ensures before { result.0.now ≡ before mark word.now }
    ensures behind { result.1.now ≡ behind mark word.now }
{
    for (place, byte) in word.iter().enumerate() {
        if *byte == mark {
            return (&word[..place], &word[place + 1..]);
        }
    }
    (word, &[])
}
