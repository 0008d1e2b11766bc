//! The rules that decide nothing: without one of them every packet has the same action.
#![tactic(auto)]

ghost use Rattle.std.specs.Prelude.{◌≡◌, ◌<◌, Ok, IfOk};
ghost use Rattle.words.specs.Words.{copied};
ghost use Rattle.flow.specs.Match.{match_words, none};
ghost use Rattle.row.specs.Row.{rows_in};
ghost use Rattle.policy.specs.Read.{read_of};
ghost use Rattle.policy.specs.File.{tree_of};
ghost use Rattle.origins.specs.Origins.{action_inside};
ghost use Rattle.idle.specs.Idle.{decides, decides_by, idle_of, IsIdle};

use action::Action;
use flow::Match;
use policy::{ATOM_WORDS, Layout, read};
use refusal::Refusal;
use row::{Row, Rows};
use std::alloc::{AllocError, Global};
use trace::steps;
use words::{Spelling, Written};

/// Why there is no answer: memory ran out, or the words are no file that is accepted.
#[derive(Clone, Copy)]
pub enum IdleError {
    Memory,
    Refused(Refusal),
}

/// The places of the atoms that decide nothing in any row of a table: without one of them each row's action would be
/// the same. One at a time: of two equal atoms each is idle while the other stands. The rows are those that stay of the
/// file's table. A file that is not accepted gets its refusal.
pub fn idle(alloc: Global, file: &[u32], rows: &[u32]) -> Result<Vec<usize>, IdleError>
    ensures { IsIdle (λ places. places.items) file.now rows.now result }
{
    let layout = match read(file) {
        Ok(layout) => layout,
        Err(refusal) => return Err(IdleError::Refused(refusal)),
    };
    match idle_atoms(alloc, file, layout, rows) {
        Ok(places) => Ok(places),
        Err(_) => Err(IdleError::Memory),
    }
}

// The same of an accepted file.
fn idle_atoms(
    alloc: Global,
    file: &[u32],
    layout: Layout,
    rows: &[u32],
) -> Result<Vec<usize>, AllocError>
    requires { read_of file.now ≡ Ok layout }
    ensures { IfOk result (λ places. places.items ≡ idle_of file.now layout (rows_in rows.now)) }
{
    let mut places = Vec::new(alloc);
    // The places so far are those of the idle atoms before this one.
    for place in 0..layout.atoms {
        if !decides(alloc, file, layout, rows, place)? {
            places.push(place)?;
        }
    }
    Ok(places)
}

// Whether the atom at a place decides in some row.
fn decides(
    alloc: Global,
    file: &[u32],
    layout: Layout,
    rows: &[u32],
    place: usize,
) -> Result<bool, AllocError>
    requires accepted { read_of file.now ≡ Ok layout }
    requires within { place < layout.atoms }
    ensures { IfOk result (λ b. b ≡ decides file.now layout (rows_in rows.now) place) }
{
    let from = layout.first_atom() + ATOM_WORDS * place;
    let matching = Match::read(&file[from..from + ATOM_WORDS]);
    let changed = without(alloc, file, from)?;
    // No row before this one decides.
    for row in Rows::of(rows) {
        if decides_in(alloc, &changed, matching, row)? {
            return Ok(true);
        }
    }
    Ok(false)
}

// The file with the match at a word one that no packet meets.
fn without(alloc: Global, file: &[u32], from: usize) -> Result<Vec<u32>, AllocError>
    ensures { IfOk result (λ words. words.items ≡ copied from (match_words none) file.now) }
{
    let mut changed = Vec::from_slice(alloc, file)?;
    Match::write(&mut changed, from, Match::NONE);
    Ok(changed)
}

// Whether a row inside an atom's match has another action by the file without that atom.
fn decides_in(alloc: Global, changed: &[u32], matching: Match, row: Row) -> Result<bool, AllocError>
    ensures { (l : Layout) → read_of changed.now ≡ Ok l
        → IfOk result (λ b. b ≡ decides_by (tree_of changed.now l) matching row) }
{
    if !row.matching.lies_inside(matching) {
        return Ok(false);
    }
    let action = action_inside(alloc, changed, row.matching)?;
    Ok(action != row.action)
}

// The action of the tree of an accepted file over the atoms that a match lies inside.
fn action_inside(alloc: Global, file: &[u32], matching: Match) -> Result<Action, AllocError>
    ensures { (l : Layout) → read_of file.now ≡ Ok l
        → IfOk result (λ a. a ≡ action_inside (tree_of file.now l) matching) }
{
    match steps(alloc, file, &matching) {
        Ok(steps) => Ok(steps.nodes[0].made),
        Err(_) => Err(AllocError),
    }
}
