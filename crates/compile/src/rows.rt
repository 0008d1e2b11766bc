//! Tables joined in their place, within two lent buffers that are as long as there is room. Where there
//! is none nothing is said of the words that are left, since the compile then clears both.
//! The buffers and the place stay parameters, for the reason that the head of `common` has.

ghost use Rattle.std.specs.Prelude.{◌≡◌, ◌++◌, ◌≤◌, length, drop};
ghost use Rattle.row.specs.Row.{row_words};
ghost use Rattle.compile.specs.Lays.{Lays};
ghost use Rattle.compile.specs.Places.{part, Behind, From, Before, Ending, Grows, PutUpTo};
ghost use Rattle.compile.specs.Tables.{common_with_words, join_words, atom_words, own_words};

use crate::common::{append, common_rows, common_with, store};
use action::Operator;
use row::{Row, Rows, words_of_row};

// Joins the tables at start..middle and middle..end: their common rows are made in scratch, and put
// before them.
pub(crate) fn join(
    operator: Operator,
    table: &mut [u32],
    scratch: &mut [u32],
    start: usize,
    middle: usize,
    end: usize,
) -> Option<usize>
    requires { Behind start middle end table.old scratch.old }
    ensures { Lays start
        (join_words operator.cells (part start middle table.old) (part middle end table.old))
        table.old table.new result }
{
    let whole = &*table;
    let made = common_rows(
        operator,
        &whole[start..middle],
        &whole[middle..end],
        scratch,
        start,
    )?;
    put_before(table, scratch, start, made, end)
}

// The table of a node's own atoms, folded from the last. It grows down from the end of scratch, so
// that nothing is moved when rows are put before it.
pub(crate) fn own_rows(
    operator: Operator,
    atoms: &[u32],
    table: &mut [u32],
    scratch: &mut [u32],
    start: usize,
) -> Option<usize>
    requires { From start table.old scratch.old }
    ensures { Lays start (own_words operator.cells atoms.now) table.old
        table.new result }
{
    let mut first = scratch.len();
    // Scratch from first on is the table of the atoms gone over, which stand behind those that are left.
    for atom in Rows::of(atoms).rev() {
        first = join_atom(operator, atom, table, scratch, start, first)?;
    }
    append(table, start, &scratch[first..])
}

// Puts the words at start..made of scratch before those at start..end of the table.
fn put_before(
    table: &mut [u32],
    scratch: &mut [u32],
    start: usize,
    made: usize,
    end: usize,
) -> Option<usize>
    requires { Before start made end table.old scratch.old }
    ensures { Lays start (part start made scratch.old ++ part start end table.old)
        table.old table.new result }
{
    if made == start {
        return Some(end);
    }
    let e = append(scratch, made, &table[start..end])?;
    store(table, start, &scratch[start..e]);
    Some(e)
}

// Joins an atom with the table that stands at the end of scratch, from its first word on. Its rows
// are made in the table from the start on, and put before that one. An atom with the empty match
// has no row.
fn join_atom(
    operator: Operator,
    atom: Row,
    table: &mut [u32],
    scratch: &mut [u32],
    start: usize,
    first: usize,
) -> Option<usize>
    requires { Ending start first table.old scratch.old }
    ensures { Grows start
        (join_words operator.cells (atom_words atom) (drop first scratch.old))
        table.old table.new scratch.new result }
{
    if atom.matching.is_empty() {
        return Some(first);
    }
    let end = row_before(operator, atom, &scratch[first..], table, start)?;
    put_up_to(scratch, start, first, &table[start..end])
}

// Puts some words before a place, if there is room for them from the start on. Answers where they
// start.
#[tactic(auto, using(crate::proofs::Own::put_up))]
fn put_up_to(out: &mut [u32], start: usize, place: usize, words: &[u32]) -> Option<usize>
    requires order { start ≤ place }
    requires within { place ≤ length out.old }
    ensures { PutUpTo start (words.now ++ drop place out.old) out.new result }
{
    if place - start < words.len() {
        return None;
    }
    let first = place - words.len();
    store(out, first, words);
    Some(first)
}

// The common rows of a row and a table, and then the row.
fn row_before(
    operator: Operator,
    row: Row,
    table: &[u32],
    out: &mut [u32],
    at: usize,
) -> Option<usize>
    requires { at ≤ length out.old }
    ensures { Lays at (common_with_words operator.cells row table.now ++ row_words row)
        out.old out.new result }
{
    let end = common_with(operator, row, table, out, at)?;
    append(out, end, &words_of_row(row))
}
