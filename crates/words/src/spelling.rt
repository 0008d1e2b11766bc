//! Records of one length that stand one behind the other in words, for every kind of record.

ghost use Rattle.std.specs.Prelude.{◌≡◌, ◌<◌, List, ℕ, length};
ghost use Rattle.words.specs.Words.{copied};
ghost use Rattle.words.specs.Records.{rows_of};
ghost use Rattle.words.specs.Left.{left};

use std::iter::DoubleEndedIterator;
use std::marker::PhantomData;

/// How a kind of record is read from words.
pub trait Spelling {
    type Item: Copy;

    /// How many words a record has.
    ghost WORDS: { ℕ };

    const WORDS: usize;

    /// The record that some words are. Words that are missing count as 0.
    ghost of_words: { List ℕ → Self.Item };

    /// The same. It is no From: words that are missing count as 0, so the conversion loses something.
    fn read(words: &[u32]) -> Self::Item
        ensures { result ≡ of_words words.now };

    /// A record has words.
    ghost some: { 0 < WORDS };
}

/// How a kind of record is written to words as well.
pub trait Written: Spelling {
    /// The words that a record is.
    ghost to_words: { Self.Item → List ℕ };

    /// Stores a record from a place on, if it fits: one line for each kind, over an array of a length of its own.
    fn write(words: &mut [u32], at: usize, item: Self::Item)
        ensures { words.new ≡ copied at (to_words item) words.old };

    /// A record has as many words as it is to have, and they are read back as that record.
    ghost long: { (r : Self.Item) → length (to_words r) ≡ Self.WORDS };

    ghost back: { (r : Self.Item) → Self.of_words (to_words r) ≡ r };
}

/// The records that some words hold, from the first or from the last. Words behind the last whole record are left out.
#[derive(Drop)]
pub struct Records<'a, S> {
    words: &'a [u32],
    kind: PhantomData<S>,
}

impl<'a, S: Spelling> Iterator for Records<'a, S> {
    type Item = S::Item;

    ghost use Rattle.std.specs.Iterator.{YieldsFirst, item_count};

    ghost next_gives = { YieldsFirst (λ s. rows_of S.WORDS S.of_words s.words.now) };

    ghost remaining = { item_count (λ s. rows_of S.WORDS S.of_words s.words.now) };

    fn next(&mut self) -> Option<S::Item> {
        if self.words.len() < S::WORDS {
            return None;
        }
        let (first, others) = self.words.split_at(S::WORDS);
        self.words = others;
        Some(S::read(first))
    }
}

impl<'a, S: Spelling> DoubleEndedIterator for Records<'a, S> {
    ghost use Rattle.std.specs.Iterator.{YieldsLast};

    ghost next_back_gives = { YieldsLast (λ s. rows_of S.WORDS S.of_words s.words.now) };

    fn next_back(&mut self) -> Option<S::Item> {
        let length = self.words.len();
        if length < S::WORDS {
            return None;
        }
        let (whole, _) = self.words.split_at(length - length % S::WORDS);
        let (others, last) = whole.split_at(whole.len() - S::WORDS);
        self.words = others;
        Some(S::read(last))
    }
}

impl<'a, S: Spelling> Records<'a, S> {
    /// All that the words hold.
    pub fn of(words: &'a [u32]) -> Self
        ensures { rows_of S.WORDS S.of_words (left result) ≡ rows_of S.WORDS S.of_words words.now }
    {
        Records {
            words,
            kind: PhantomData,
        }
    }
}
