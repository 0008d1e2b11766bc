//! The pass over a table that takes out each row whose match lies inside one earlier row's match:
//! no packet reaches it.
#![tactic(auto)]

ghost use Rattle.std.specs.Prelude.{◌≡◌, length};
ghost use Rattle.words.specs.Words.{laid};
ghost use Rattle.theory.specs.Hidden.{inside_one};
ghost use Rattle.flow.specs.Match.{inside};
ghost use Rattle.row.specs.Row.{rows_in};
ghost use Rattle.table.specs.Table.{RightTable};
ghost use Rattle.hidden.specs.Hidden.{kept_words, kept_of, table_kept};

use flow::Match;
use refusal::Refusal;
use row::{ROW_WORDS, Rows};
use table::Table;
use words::{Spelling, clear_from};

/// Takes the hidden rows out of a table: the others move to its front, in order, and the words
/// behind them become 0. Answers how many rows stay.
pub fn drop_hidden(table: &mut [u32]) -> Result<usize, Refusal>
    ensures value { result ≡ kept_of table.old }
    ensures table_after { table.new ≡ table_kept table.old }
{
    Table::try_from(&*table)?;
    let end = keep_rows(table);
    clear_from(table, end);
    Ok(end / ROW_WORDS)
}

// Moves the rows that stay to the front, and answers where they end.
fn keep_rows(table: &mut [u32]) -> usize
    requires { RightTable table.old }
    ensures value { result ≡ length (kept_words table.old) }
    ensures table_after { table.new ≡ laid 0 (kept_words table.old) table.old }
{
    let mut to = 0;
    // Of the rows before row i, those that stay stand before to. Row i and those behind it are as they were.
    // By place: a turn writes over the table that the next one reads, so no iterator can hold it (no heap, in place).
    for i in 0..table.len() / ROW_WORDS {
        let from = i * ROW_WORDS;
        let end = from + ROW_WORDS;
        let m = Match::read(&table[from..end]);
        if !inside_one(m, &table[..to]) {
            table.copy_within(from..end, to);
            to += ROW_WORDS;
        }
    }
    to
}

// Whether a match lies inside that of one of some rows. Inlined into its caller, which leaves it fewer registers, it
// takes longer for disjoint rows.
#[inline(never)]
fn inside_one(m: Match, rows: &[u32]) -> bool
    ensures { result ≡ inside_one inside m (rows_in rows.now) }
{
    // It lies inside none of the rows before the next.
    for row in Rows::of(rows) {
        if m.lies_inside(row.matching) {
            return true;
        }
    }
    false
}
