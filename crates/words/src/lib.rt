//! Moves over lent buffers of 32-bit words, and words against bytes. Each is total, so that no caller has to prove a
//! place: one outside the buffer reads 0 and stores nothing.
#![tactic(auto)]

ghost use Rattle.std.specs.Prelude.{◌≡◌, slice_index};
ghost use Rattle.words.specs.Words.{copied, cleared};
ghost use Rattle.words.specs.Records.{flat};
ghost use Rattle.words.specs.Bytes.{words_in, bytes_of};

mod spelling;

pub use spelling::{Records, Spelling, Written};

/// How many bytes a word has.
pub const WORD_BYTES: usize = 4;

/// The word at a place, 0 outside.
pub fn word(words: &[u32], at: usize) -> u32
    ensures { result ≡ slice_index words.now at }
{
    words.get(at).copied().unwrap_or(0)
}

/// Stores some words from a place on, if all of them fit.
pub fn copy(out: &mut [u32], at: usize, words: &[u32])
    ensures { out.new ≡ copied at words.now out.old }
{
    if at <= out.len() && words.len() <= out.len() - at {
        out[at..at + words.len()].copy_from_slice(words);
    }
}

/// Sets the words from a place on to 0.
pub fn clear_from(out: &mut [u32], at: usize)
    ensures { out.new ≡ cleared at out.old }
{
    if at <= out.len() {
        out[at..].fill(0);
    }
}

/// Stores the words that some bytes are at the start of a buffer, if all of them fit.
pub fn from_bytes(bytes: &[u8], out: &mut [u32])
    ensures { out.new ≡ copied 0 (words_in bytes.now) out.old }
{
    let (fours, _) = bytes.as_chunks::<WORD_BYTES>();
    if fours.len() > out.len() {
        return;
    }
    // The words of the first i chunks are stored. Tried over a zip: what is written through it is not known behind the
    // loop.
    for (i, four) in fours.iter().enumerate() {
        out[i] = u32::from_le_bytes(*four);
    }
}

/// Stores the bytes of some words at the start of a buffer, if all of them fit.
pub fn to_bytes(words: &[u32], out: &mut [u8])
    ensures { out.new ≡ copied 0 (flat bytes_of words.now) out.old }
{
    if out.len() / WORD_BYTES < words.len() {
        return;
    }
    // The bytes of the first i words are stored: by number, as in `from_bytes`.
    for (i, word) in words.iter().enumerate() {
        let at = i * WORD_BYTES;
        out[at..at + WORD_BYTES].copy_from_slice(&word.to_le_bytes());
    }
}
