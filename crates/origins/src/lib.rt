//! Which atoms a row of a policy's table comes from.
#![tactic(auto)]

ghost use Rattle.std.specs.Prelude.{◌≡◌, IfOk};
ghost use Rattle.row.specs.Row.{rows_in};
ghost use Rattle.origins.specs.Origins.{origins_of};

use flow::Match;
use row::{ROW_WORDS, RowSpelling};
use std::alloc::{AllocError, Global};
use words::Spelling;

/// The places of the atoms in whose matches a match lies, counted from 0, in order: where a row of that match comes
/// from. Fails only for want of memory.
pub fn origins(alloc: Global, atoms: &[u32], matching: Match) -> Result<Vec<usize>, AllocError>
    ensures { IfOk result (λ places. places.items ≡ origins_of (rows_in atoms.now) matching) }
{
    let mut places = Vec::new(alloc);
    // The places so far are those of the atoms before this one.
    for place in 0..atoms.len() / ROW_WORDS {
        let from = place * ROW_WORDS;
        let atom = RowSpelling::read(&atoms[from..from + ROW_WORDS]);
        if matching.lies_inside(atom.matching) {
            places.push(place)?;
        }
    }
    Ok(places)
}
