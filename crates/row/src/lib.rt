//! An atom or a row: the words of a match, then an action's kind and rate.
#![tactic(auto)]

ghost use Rattle.std.specs.Prelude.{◌≡◌};
ghost use Rattle.row.specs.Row.{row_action, row_words, right_row_match, right_row_action, right_row};

use action::Action;
use flow::{MATCH_WORDS, Match};
use words::{Records, Spelling, Written, copy, word};

/// How many words an atom or a row has.
pub const ROW_WORDS: usize = MATCH_WORDS + 2;

// Where its action stands: the kind, then the rate.
const KIND: usize = MATCH_WORDS;

const RATE: usize = MATCH_WORDS + 1;

/// The most rows that a table may have.
pub const MOST_ROWS: usize = 4096;

pub type RowWords = [u32; ROW_WORDS];

/// An atom or a row.
pub type Row = theory::Row<Match, Action>;

/// How a row is spelled in words. A marker, since a row is theory's type: no crate gives another's type another's
/// trait.
pub struct RowSpelling;

/// The rows that some words hold, one behind the other.
pub type Rows<'a> = Records<'a, RowSpelling>;

impl Spelling for RowSpelling {
    type Item = Row;

    ghost use Rattle.row.specs.Row.{row_length, row_of};
    ghost use Rattle.row.specs.Spelled.{row-some};

    ghost WORDS = { row_length };

    const WORDS: usize = ROW_WORDS;

    ghost of_words = { row_of };

    ghost some = { row-some };

    fn read(words: &[u32]) -> Row {
        Row {
            matching: Match::read(words),
            action: row_action(words),
        }
    }
}

impl Written for RowSpelling {
    ghost use Rattle.row.specs.Row.{row_words};
    ghost use Rattle.row.specs.Spelled.{row-long, row_back};

    ghost to_words = { row_words };

    ghost long = { row-long };

    ghost back = { row_back };

    fn write(words: &mut [u32], at: usize, row: Row) {
        copy(words, at, &words_of_row(row));
    }
}

/// The action of a row.
#[tactic(auto, unfolding(crate::specs::Row::row_action))]
pub fn row_action(row: &[u32]) -> Action
    ensures { result ≡ row_action row.now }
{
    Action::from_words(word(row, KIND), word(row, RATE))
}

/// The words of a row.
pub fn words_of_row(row: Row) -> RowWords
    ensures { result ≡ row_words row }
{
    // Word by word: composed of the match's words and the action's, it makes the compile up to 1.2 times slower. No
    // From, since neither type is this crate's.
    let m = row.matching;
    let kind = row.action.kind();
    let rate = row.action.rate();
    [
        m.in_port,
        m.source.address,
        m.destination.address,
        m.protocol,
        m.source_port,
        m.destination_port,
        m.source.length,
        m.destination.length,
        m.flags,
        kind,
        rate,
    ]
}

/// Whether a row is right: a right match that is not empty, so without flag 16 and a contradiction, and a right action.
pub fn right_row(row: &[u32]) -> bool
    ensures { result ≡ right_row row.now }
{
    let m = Match::read(row);
    if !(m.is_plain() & right_row_action(row)) {
        return false;
    }
    !m.contradicts()
}

/// Whether the match of an atom or a row is right.
#[tactic(auto, unfolding(crate::specs::Row::right_row_match))]
pub fn right_row_match(row: &[u32]) -> bool
    ensures { result ≡ right_row_match row.now }
{
    Match::read(row).is_right()
}

/// Whether the action of an atom or a row is right.
#[tactic(auto, unfolding(crate::specs::Row::right_row_action))]
pub fn right_row_action(row: &[u32]) -> bool
    ensures { result ≡ right_row_action row.now }
{
    Action::right_words(word(row, KIND), word(row, RATE))
}
