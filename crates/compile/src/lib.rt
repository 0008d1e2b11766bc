//! The compile: the rows of a policy's tree, joined within the lent buffers, and refused for room
//! exactly when they must be.
//! The table and the scratch stay two parameters: both are lent by the caller, as two slices of C.
#![tactic(auto)]

ghost use Rattle.std.specs.Prelude.{◌≡◌};
ghost use Rattle.compile.specs.Compile.{room, Compiles};

use crate::build::subtree;
use nodes::{File, root};
use policy::read;
use refusal::{Reason, Refusal};
use row::{MOST_ROWS, ROW_WORDS};
use words::clear_from;

mod build;
mod common;
mod rows;

/// Compiles the policy in a file into a table, within the table and the scratch. Answers how many
/// rows the table has.
pub fn compile(file: &[u32], table: &mut [u32], scratch: &mut [u32]) -> Result<usize, Refusal>
    ensures { Compiles file.now table.old scratch.old table.new
        scratch.new result }
{
    let layout = read(file)?;
    let words = ROW_WORDS * room_of(table.len());
    if scratch.len() < words {
        return Err(Reason::NoScratch.at(0));
    }
    let start = root(layout);
    let built = subtree(
        File { words: file },
        start,
        &mut table[..words],
        &mut scratch[..words],
        0,
    );
    clear_from(scratch, 0);
    let Some(part) = built else {
        clear_from(table, 0);
        return Err(Reason::NoRoom.at(0));
    };
    clear_from(table, part.end);
    Ok(part.end / ROW_WORDS)
}

// The rows that a buffer of so many words has room for.
fn room_of(words: usize) -> usize
    ensures { result ≡ room words }
{
    (words / ROW_WORDS).min(MOST_ROWS)
}
