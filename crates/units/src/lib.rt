//! What a buffer of words is lent in: the words themselves, or their bytes, the lowest of each word first. What is
//! written over any unit is the same for both, and so is what is proved of it.
#![tactic(auto)]

ghost use Rattle.std.specs.Prelude.{◌≡◌, ℕ, List, map, set, length, take, ◌++◌, ◌*◌, ◌/◌, ◌≤◌, ◌<◌};
ghost use Rattle.words.specs.Records.{records};
ghost use Rattle.row.specs.Row.{row_length};

use row::{ROW_WORDS, RowWords};
use words::{WORD_BYTES, from_bytes};

/// How many bytes a row has.
pub const ROW_BYTES: usize = WORD_BYTES * ROW_WORDS;

/// A word as it lies in a buffer.
pub trait LyingWord: Copy {
    /// The word that it is.
    ghost word: { Self → ℕ };

    /// The same.
    fn word(self) -> u32
        ensures { result ≡ word self };
}

/// A row as it lies in a table.
pub trait LyingRow {
    /// The words of the row.
    ghost row_words: { Self → List ℕ };

    /// The same.
    fn row_words(&self) -> RowWords
        ensures { result ≡ row_words self.now };
}

/// What a buffer is lent in: `u32` for words, `u8` for their bytes.
pub trait Unit: Copy {
    type Word: LyingWord;

    type Row: LyingRow;

    /// The words that some units are. Bytes behind the last whole word are left out.
    ghost words: { List Self → List ℕ };

    /// How many units a word is.
    ghost SIZE: { ℕ };

    const SIZE: usize;

    /// The words of a buffer, where they lie.
    fn words(units: &[Self]) -> &[Self::Word]
        ensures { map Self.Word.word result.now ≡ words units.now };

    /// The rows of a table, where they lie. Words behind the last whole row are left out.
    fn rows(units: &[Self]) -> &[Self::Row]
        ensures { map Self.Row.row_words result.now
            ≡ records (length (words units.now) / row_length) row_length (words units.now) };

    /// Stores a word at a place; one outside stores nothing.
    fn put(units: &mut [Self], at: usize, word: u32)
        ensures { words units.new ≡ set (words units.old) at word };

    /// Room for so many words is so many units, and the first of them hold the first words.
    ghost fits: { (n : ℕ) (l : List Self) → n ≤ length (words l) → n * SIZE ≤ length l };

    ghost first: { (n : ℕ) (l : List Self) → n * SIZE ≤ length l → words (take (n * SIZE) l) ≡ take n (words l) };

    /// The words of whole words, and of what stands behind them.
    ghost joined: { (n : ℕ) (l m : List Self) → length l ≡ n * SIZE → words (l ++ m) ≡ words l ++ words m };
}

impl LyingWord for u32 {
    ghost word = { λ w. w };

    fn word(self) -> u32 {
        self
    }
}

impl LyingWord for [u8; WORD_BYTES] {
    ghost use Rattle.words.specs.Bytes.{word_of};

    ghost word = { word_of };

    fn word(self) -> u32 {
        u32::from_le_bytes(self)
    }
}

impl LyingRow for RowWords {
    ghost row_words = { λ r. r };

    fn row_words(&self) -> RowWords {
        *self
    }
}

impl LyingRow for [u8; ROW_BYTES] {
    ghost use Rattle.words.specs.Bytes.{words_in};

    ghost row_words = { words_in };

    fn row_words(&self) -> RowWords {
        let mut words = [0u32; ROW_WORDS];
        from_bytes(self, &mut words);
        words
    }
}

impl Unit for u32 {
    ghost use Rattle.units.specs.Laws.{words-fit, words-first, words-joined};

    type Word = u32;

    type Row = RowWords;

    ghost words = { λ l. l };

    ghost SIZE = { 1 };

    const SIZE: usize = 1;

    ghost fits = { words-fit };

    ghost first = { words-first };

    ghost joined = { words-joined };

    fn words(units: &[u32]) -> &[u32] {
        units
    }

    fn rows(units: &[u32]) -> &[RowWords] {
        units.as_chunks::<ROW_WORDS>().0
    }

    fn put(units: &mut [u32], at: usize, word: u32) {
        if at < units.len() {
            units[at] = word;
        }
    }
}

impl Unit for u8 {
    ghost use Rattle.words.specs.Bytes.{word_bytes, words_in};
    ghost use Rattle.units.specs.Laws.{bytes-fit, bytes-first, bytes-joined};

    type Word = [u8; WORD_BYTES];

    type Row = [u8; ROW_BYTES];

    ghost words = { words_in };

    ghost SIZE = { word_bytes };

    const SIZE: usize = WORD_BYTES;

    ghost fits = { bytes-fit };

    ghost first = { bytes-first };

    ghost joined = { bytes-joined };

    fn words(units: &[u8]) -> &[[u8; WORD_BYTES]] {
        units.as_chunks::<WORD_BYTES>().0
    }

    fn rows(units: &[u8]) -> &[[u8; ROW_BYTES]] {
        units.as_chunks::<ROW_BYTES>().0
    }

    fn put(units: &mut [u8], at: usize, word: u32) {
        if at < units.len() / WORD_BYTES {
            let from = at * WORD_BYTES;
            units[from..from + WORD_BYTES].copy_from_slice(&word.to_le_bytes());
        }
    }
}
