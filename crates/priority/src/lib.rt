//! The numbering of a table's rows: levels, priorities, and the chain that forces their number.
#![tactic(auto)]

ghost use Rattle.std.specs.Prelude.{◌≡◌, map, ℕ, suc, ◌-◌, ◌≤◌, ◌<◌, ◌^◌, max, length, set, if◌then◌else◌, ◌==◌, slice_index};
ghost use Rattle.words.specs.Words.{laid};
ghost use Rattle.theory.specs.Number.{above, level_count, first_of_level, step_back, chain_under};
ghost use Rattle.flow.specs.Match.{match_of, overlap};
ghost use Rattle.row.specs.Row.{most_rows};
ghost use Rattle.table.specs.Table.{row_count};
ghost use Rattle.priority.specs.Numbering.{over, levels_of, priorities_of, chain_of, Answered};
ghost use Rattle.priority.specs.Numbering.{NumbersFit, LevelsBefore, ChainFits};

use flow::Match;
use refusal::{Reason, Refusal};
use table::{Table, match_at};
use units::{LyingRow, LyingWord, Unit};
use words::Spelling;

// A row's place: place 0 is scanned first.
#[derive(Clone, Copy)]
struct Place(usize);

// A row's priority: the highest is obeyed first.
#[derive(Clone, Copy)]
struct Priority(u32);

impl Place {
    // The first row of a level; the row count if there is none. No Option, here and in the step back: both are theory's
    // definitions, which answer a place for all levels, and the chain would only unwrap it.
    fn first_of_level<U: Unit>(levels: &[U], l: u32) -> Place
        ensures { result.0 ≡ first_of_level (U.words levels.now) l }
    {
        let levels = U::words(levels);
        Place(
            levels
                .iter()
                .position(|level| level.word() == l)
                .unwrap_or(levels.len()),
        )
    }

    // The first row before this one that overlaps it and has a level; this one if there is none.
    fn step_back<U: Unit>(self, table: Table<'_, U>, levels: &[U], l: u32) -> Place
        requires many { length (U.words levels.now) ≡ row_count (U.words table.units.now) }
        requires within { self.0 ≤ length (U.words levels.now) }
        ensures { result.0 ≡ step_back (over (U.words table.entry.units.now)) (U.words levels.now) self.0 l }
    {
        let m = match_at(table.units, self.0);
        // Both are cut: over two lists of one length the loop tests its end once.
        let found = U::words(levels)[..self.0]
            .iter()
            .zip(&U::rows(table.units)[..self.0])
            .position(|(level, row)| {
                level.word() == l && Match::read(&row.row_words()).overlap(m)
            });
        Place(found.unwrap_or(self.0))
    }

    // Stores the place as a step of the chain; nothing else writes the chain.
    fn put<U: Unit>(self, chain: &mut [U], step: u32)
        requires { self.0 < 2 ^ 32 }
        ensures { U.words chain.new ≡ set (U.words chain.old) step self.0 }
    {
        U::put(chain, step as usize, self.0 as u32);
    }
}

impl Priority {
    // Stores the priority of the row at a place, over its level; nothing else writes a priority.
    fn put<U: Unit>(self, priorities: &mut [U], at: Place)
        ensures { U.words priorities.new ≡ set (U.words priorities.old) at.0 self.0 }
    {
        U::put(priorities, at.0, self.0);
    }
}

/// Numbers a table: row i's priority goes to word i of one buffer, the chain to the first words of the other. Answers
/// how many priorities there are. All three are lent as words, or all as bytes.
pub fn number<U: Unit>(table: &[U], priorities: &mut [U], chain: &mut [U]) -> Result<u32, Refusal>
    ensures { Answered (U.words table.now) (U.words priorities.old) (U.words chain.old)
        result (U.words priorities.new) (U.words chain.new) }
{
    let table = Table::try_from(table)?;
    let rows = table.row_count();
    let fits = (rows <= U::words(priorities).len()) & (rows <= U::words(chain).len());
    if !fits {
        return Err(Reason::ShortBuffer.at(0));
    }
    Ok(put_numbers(table, &mut priorities[..rows * U::SIZE], chain))
}

// Leaves the priorities in a buffer of a word for each row, first as levels, and the chain; answers how many priorities
// there are.
fn put_numbers<U: Unit>(table: Table<'_, U>, priorities: &mut [U], chain: &mut [U]) -> u32
    requires { NumbersFit (U.words table.units.now) (U.words priorities.old) (U.words chain.old) }
    ensures count { result ≡ level_count (levels_of (U.words table.entry.units.now)) }
    ensures priorities_after { U.words priorities.new ≡ priorities_of (U.words table.entry.units.now) }
    ensures chain_after { U.words chain.new
        ≡ laid 0 (chain_of (U.words table.entry.units.now)) (U.words chain.old) }
{
    let count = put_levels(table, priorities);
    put_chain(table, priorities, count, chain);
    put_priorities(priorities, count);
    count
}

// Stores each row's level, and answers how many levels there are.
fn put_levels<U: Unit>(table: Table<'_, U>, levels: &mut [U]) -> u32
    requires { length (U.words levels.old) ≡ row_count (U.words table.units.now) }
    ensures count { result ≡ level_count (levels_of (U.words table.entry.units.now)) }
    ensures levels_after { U.words levels.new ≡ levels_of (U.words table.entry.units.now) }
{
    let mut count = 0;
    // The first i words are the levels of the first i rows, and count is how many levels these have. By place: a level
    // is stored in the buffer that the next ones are read from, so the table and its levels stay two parameters.
    for i in 0..table.row_count() {
        let l = level(table, levels, i, count);
        U::put(levels, i, l);
        count = count.max(l + 1);
    }
    count
}

// The level of row i, from those of the rows before it, which are below count. It goes back, and stops where no row can
// raise it. Inlined into its caller it is up to twice as slow.
#[inline(never)]
fn level<U: Unit>(table: Table<'_, U>, levels: &[U], i: usize, count: u32) -> u32
    requires { LevelsBefore (U.words table.units.now) (U.words levels.now) i count }
    ensures value { result ≡ above (over (U.words table.entry.units.now)) (U.words levels.now) i i }
    ensures bound { result ≤ count }
{
    let rows = U::rows(table.units);
    let levels = U::words(levels);
    let m = match_at(table.units, i);
    let mut best = 0;
    let mut j = i;
    // The level is the larger of best and what row j - 1 and those before it ask for. One test for both ends is one
    // jump back: as a `for` with a return, or over an iterator of the levels, it takes longer.
    while j != 0 && best < count {
        j -= 1;
        best = raised(&rows[j], m, levels[j].word(), best);
    }
    best
}

// What a row of a level makes of the best level so far; one of a level below that cannot raise it, whether it overlaps
// or not.
fn raised<R: LyingRow>(row: &R, m: Match, level: u32, best: u32) -> u32
    requires { level < most_rows }
    ensures { result ≡ max best (if overlap (match_of (R.row_words row.now)) m then suc level else 0) }
{
    if level < best {
        return best;
    }
    let overlaps = Match::read(&row.row_words()).overlap(m);
    if overlaps { level + 1 } else { best }
}

// Stores the chain from its end back to its start. Inlined into its caller its search took 1.5 times as long.
#[inline(never)]
fn put_chain<U: Unit>(table: Table<'_, U>, levels: &[U], count: u32, chain: &mut [U])
    requires { ChainFits (U.words table.units.now) (U.words levels.now) count (U.words chain.old) }
    ensures { U.words chain.new
        ≡ laid 0 (chain_under (over (U.words table.entry.units.now)) (U.words levels.now) count)
        (U.words chain.old) }
{
    if count == 0 {
        return;
    }
    let end = count - 1;
    let mut at = Place::first_of_level(levels, end);
    at.put(chain, end);
    // The places of the chain behind step l are stored, and at is the last that was. The number is a level, no place of
    // a list.
    for l in (0..end).rev() {
        at = at.step_back(table, levels, l);
        at.put(chain, l);
    }
}

// Turns levels into priorities.
fn put_priorities<U: Unit>(priorities: &mut [U], count: u32)
    requires { (j : ℕ) → j < length (U.words priorities.old) → slice_index (U.words priorities.old) j ≤ count }
    ensures { U.words priorities.new ≡ map (λ l. count - l) (U.words priorities.old) }
{
    // The words before i are priorities, the others still levels. By place, since a priority is stored at its row's.
    for i in 0..U::words(priorities).len() {
        let level = U::words(priorities)[i].word();
        Priority(count - level).put(priorities, Place(i));
    }
}
