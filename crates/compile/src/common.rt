//! The common rows of two tables, stored one behind the other in a lent buffer. Where there is no room
//! nothing is said of the words that are left, since the compile then clears the buffer.
//! The buffer and the place stay two parameters: in one struct, the proof of `rows::join_atom` did
//! not close.

ghost use Rattle.std.specs.Prelude.{◌≡◌, ◌+◌, ◌≤◌, length};
ghost use Rattle.words.specs.Words.{laid};
ghost use Rattle.compile.specs.Lays.{Lays};
ghost use Rattle.compile.specs.Tables.{common_words, common_with_words, common_rows_words};

use action::Operator;
use flow::Match;
use row::{ROW_WORDS, Row, Rows, row_action, words_of_row};
use words::Spelling;

// The common rows of two tables: each row of the left in order, with each row of the right in
// order. Each function answers the place past what it stored.
pub(crate) fn common_rows(
    operator: Operator,
    left: &[u32],
    right: &[u32],
    out: &mut [u32],
    at: usize,
) -> Option<usize>
    requires { at ≤ length out.old }
    ensures { Lays at (common_rows_words operator.cells left.now right.now)
        out.old out.new result }
{
    let mut done = at;
    // From at up to done stand the common rows of the left rows so far and those of the right.
    for row in Rows::of(left) {
        done = common_with(operator, row, right, out, done)?;
    }
    Some(done)
}

// The common rows of one row and a table.
pub(crate) fn common_with(
    operator: Operator,
    row: Row,
    table: &[u32],
    out: &mut [u32],
    at: usize,
) -> Option<usize>
    requires { at ≤ length out.old }
    ensures { Lays at (common_with_words operator.cells row table.now) out.old out.new result }
{
    let mut done = at;
    // From at up to done stand the common rows of the row and the rows gone over.
    for other in table.as_chunks::<ROW_WORDS>().0 {
        done = add_common(&operator, row, other, out, done)?;
    }
    Some(done)
}

// The common row of a row and the row that some words are; none where their matches do not overlap. By value, the
// operator was copied for each row of the table, and the compile of disjoint atoms took 1.4 times as long.
fn add_common(
    operator: &Operator,
    row: Row,
    other: &[u32],
    out: &mut [u32],
    at: usize,
) -> Option<usize>
    requires { at ≤ length out.old }
    ensures { Lays at (common_words operator.now.cells row other.now) out.old out.new result }
{
    let matching = Match::read(other);
    if !row.matching.overlap(matching) {
        return Some(at);
    }
    let matching = row.matching.common(matching);
    let action = operator.join(row.action, row_action(other));
    append(out, at, &words_of_row(Row { matching, action }))
}

// Stores some words from a place on, if they fit.
#[tactic(auto, using(crate::proofs::Going::put_words))]
pub(crate) fn append(out: &mut [u32], at: usize, words: &[u32]) -> Option<usize>
    requires { at ≤ length out.old }
    ensures { Lays at words.now out.old out.new result }
{
    let end = at + words.len();
    if out.len() < end {
        return None;
    }
    store(out, at, words);
    Some(end)
}

// Stores some words from a place on. Word by word: a copy of the slice asks for C's `memmove`, and an archive for C is
// to need no more from outside than it does.
pub(crate) fn store(out: &mut [u32], at: usize, words: &[u32])
    requires { at + length words.now ≤ length out.old }
    ensures { out.new ≡ laid at words.now out.old }
{
    // The first i words are stored.
    for (i, word) in words.iter().enumerate() {
        out[at + i] = *word;
    }
}
