//! The rows of a policy that stay, with their priorities.

use crate::loaded::Loaded;
use compile::compile;
use hidden::drop_hidden;
use priority::number;
use refusal::Refusal;
use row::{ROW_WORDS, Row, Rows};
use show::ROOM;
use std::alloc::{AllocError, Global};

/// The rows that stay when those are out that no packet reaches, each with its priority, and the chain that forces as
/// many priorities as there are.
#[derive(Drop)]
pub struct Compiled {
    pub table: Vec<u32>,
    pub priorities: Vec<u32>,
    pub chain: Vec<u32>,
}

impl Compiled {
    /// The row at a place.
    pub(crate) fn row(&self, place: usize) -> Option<Row> {
        Rows::of(&self.table).nth(place)
    }

    /// Its priority.
    pub(crate) fn priority(&self, place: usize) -> u32 {
        self.priorities.get(place).copied().unwrap_or(0)
    }
}

/// The rows of a file, if there is room for them.
pub(crate) fn rows_of(
    alloc: Global,
    words: &[u32],
) -> Result<Result<Compiled, Refusal>, AllocError> {
    let mut table = vec![in alloc; 0u32; ROW_WORDS * ROOM]?;
    let mut scratch = vec![in alloc; 0u32; ROW_WORDS * ROOM]?;
    let rows = match compile(words, &mut table, &mut scratch) {
        Ok(rows) => rows,
        Err(refusal) => return Ok(Err(refusal)),
    };
    table.truncate(rows.saturating_mul(ROW_WORDS));
    let kept = match drop_hidden(&mut table) {
        Ok(kept) => kept,
        Err(refusal) => return Ok(Err(refusal)),
    };
    table.truncate(kept.saturating_mul(ROW_WORDS));
    numbered(alloc, table, kept)
}

// The same of a table of so many rows.
fn numbered(
    alloc: Global,
    table: Vec<u32>,
    rows: usize,
) -> Result<Result<Compiled, Refusal>, AllocError> {
    let mut priorities = vec![in alloc; 0u32; rows]?;
    let mut chain = vec![in alloc; 0u32; rows]?;
    match number(&table, &mut priorities, &mut chain) {
        Ok(count) => {
            chain.truncate(count as usize);
            Ok(Ok(Compiled {
                table,
                priorities,
                chain,
            }))
        }
        Err(refusal) => Ok(Err(refusal)),
    }
}
