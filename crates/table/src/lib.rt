//! Tables: rows that stand one behind the other, which tables are right, and the scan.
#![tactic(auto)]

ghost use Rattle.std.specs.Prelude.{◌≡◌, map, ◌==◌, ◌%◌, ◌/◌, ◌&&◌, nat_le, slice_index_or};
ghost use Rattle.std.specs.List.{position};
ghost use Rattle.table.specs.Table.{row_count, past, first_wrong, check_of, RightTable};
ghost use Rattle.table.specs.Scan.{met, found, scan_of};
ghost use Rattle.row.specs.Row.{row_length, most_rows, row_of, rows_in, right_row};
ghost use Rattle.refusal.specs.declared.Reason.TheVariants.{WrongRow};

use action::Action;
use flow::{Match, Packet};
use refusal::{Reason, Refusal};
use row::{MOST_ROWS, ROW_WORDS, right_row, row_action};
use std::alloc::AllocError;
use units::{LyingRow, Unit};
use words::Spelling;

/// What a scan finds: the action, and how many rows were tried. No Option: where none matches, it is don't care and the
/// row count, which callers use as they stand.
#[derive(Clone, Copy)]
pub struct Found {
    pub action: Action,
    pub tried: usize,
}

/// A tested table, lent as words or as bytes: right rows, and not too many.
pub struct Table<'a, U: Unit> {
    pub units: &'a [U],
    pub ghost right: { RightTable (U.words units.now) },
}

// By hand, since the bound on its units is none that a derive writes.
impl<'a, U: Unit> Copy for Table<'a, U> {}

impl<'a, U: Unit> Clone for Table<'a, U> {
    ghost is_clone = { λ t u. u ≡ t };

    fn clone(&self) -> Result<Table<'a, U>, AllocError> {
        Ok(*self)
    }
}

// The table that some units are, if they pass the check.
impl<'a, U: Unit> TryFrom<&'a [U]> for Table<'a, U> {
    type Error = Refusal;

    ghost use Rattle.table.specs.Checked.{Checked};

    ghost try_from_gives = { λ units r. Checked (λ t. U.words t.units.now) (U.words units.now) r };

    // Inlined into its callers, it leaves them fewer registers: captures took up to 1.2 times as long.
    #[inline(never)]
    fn try_from(units: &'a [U]) -> Result<Table<'a, U>, Refusal> {
        check(units)?;
        Ok(Table { units })
    }
}

impl<'a, U: Unit> Table<'a, U> {
    /// How many rows it has.
    pub fn row_count(self) -> usize
        ensures { result ≡ row_count (U.words self.entry.units.now) }
    {
        U::rows(self.units).len()
    }
}

/// Scans a table for a packet.
#[tactic(auto, unfolding(crate::specs::Scan::scan_of))]
pub fn scan<U: Unit>(table: &[U], packet: &[u32]) -> Result<Found, Refusal>
    ensures { result ≡ scan_of (U.words table.now) packet.now }
{
    let packet = Packet::try_from(packet)?;
    let table = Table::try_from(table)?;
    Ok(first_match(U::rows(table.units), packet))
}

/// Tests a table: its length, then each row. Answers how many rows it has.
#[tactic(auto, unfolding(crate::specs::Table::check_of))]
pub fn check<U: Unit>(table: &[U]) -> Result<usize, Refusal>
    ensures { result ≡ check_of (U.words table.now) }
{
    if !right_length(U::words(table).len()) {
        return Err(Reason::WrongTable.at(0));
    }
    check_rows(U::rows(table))
}

/// The place of the first row that a packet meets; none if it meets none.
#[inline]
pub fn first_met<R: LyingRow>(rows: &[R], packet: Packet) -> Option<usize>
    ensures { result ≡ position (λ row. met packet (R.row_words row)) rows.now }
{
    rows.iter()
        .position(|row| Match::read(&row.row_words()).meets(packet))
}

/// The first matching row's action and its place plus 1; don't care and the row count if none matches.
#[inline]
pub fn first_match<R: LyingRow>(rows: &[R], packet: Packet) -> Found
    ensures { result ≡ found 0 (map (λ row. row_of (R.row_words row)) rows.now) packet }
{
    // Only the row that matches has its action read.
    match first_met(rows, packet) {
        Some(place) => Found {
            action: row_action(&rows[place].row_words()),
            tried: place + 1,
        },
        None => Found {
            action: Action::DONT_CARE,
            tried: rows.len(),
        },
    }
}

/// The match of the row at a place; past the last row, that of no words.
pub fn match_at<U: Unit>(table: &[U], place: usize) -> Match
    ensures { result ≡ (slice_index_or (rows_in (U.words table.now)) place past).matching }
{
    match U::rows(table).get(place) {
        Some(row) => Match::read(&row.row_words()),
        None => Match::read(&[]),
    }
}

// Whether so many words are rows, and not too many.
fn right_length(words: usize) -> bool
    ensures { result ≡ (words % row_length == 0 && nat_le (words / row_length) most_rows) }
{
    (words % ROW_WORDS == 0) & (words / ROW_WORDS <= MOST_ROWS)
}

// The first wrong row, or how many rows there are. Inlined into its caller, a scan took up to 1.1 times as long.
#[inline(never)]
fn check_rows<R: LyingRow>(rows: &[R]) -> Result<usize, Refusal>
    ensures { result ≡ first_wrong right_row WrongRow 0 (map R.row_words rows.now) }
{
    // They are tested as raw words: a row that was read forgets a wrong kind.
    match rows.iter().position(|row| !right_row(&row.row_words())) {
        Some(place) => Err(Reason::WrongRow.at(place)),
        None => Ok(rows.len()),
    }
}
