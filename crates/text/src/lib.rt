//! The listing: the bytes of a policy file in, the text of its rows and priorities out.
#![tactic(auto)]

ghost use Rattle.std.specs.Prelude.{◌≡◌, ◌≤◌, ◌*◌, length, IfOk};
ghost use Rattle.row.specs.Row.{row_length};
ghost use Rattle.text.specs.Listing.{blank, right_input, kept_text, compiled_text, listing_of};

use compile::compile;
use hidden::drop_hidden;
use policy::LONGEST_FILE;
use refusal::{Reason, Refusal};
use row::ROW_WORDS;
use show::{ROOM, Text, list_table};
use streams::Sink;
use words::{WORD_BYTES, from_bytes};

/// How many bytes the longest input has.
pub const LONGEST_INPUT: usize = WORD_BYTES * LONGEST_FILE;

/// How many bytes a program reads into: one more than the longest input has shows that there are too many.
pub const INPUT_ROOM: usize = LONGEST_INPUT + 1;

/// Puts the listing of an input into a sink.
pub fn list<S: Sink>(input: &[u8], sink: &mut S)
    ensures { S.gives sink.old (listing_of input.now) sink.new }
{
    // Arrays here and below, since no function over words takes memory from a heap.
    let mut table = [0u32; ROW_WORDS * ROOM];
    match kept_rows(input, &mut table) {
        Ok(kept) => list_table(&table[..kept * ROW_WORDS], sink),
        Err(refusal) => refusal.put(sink),
    }
}

// Compiles an input into a blank table, and takes the hidden rows out. Answers how many rows stay.
fn kept_rows(input: &[u8], table: &mut [u32]) -> Result<usize, Refusal>
    requires { table.old ≡ blank }
    ensures listing { listing_of input.now ≡ kept_text table.new result }
    ensures within { IfOk result (λ kept. kept * row_length ≤ length table.new) }
{
    let rows = compiled_rows(input, table)?;
    drop_hidden(&mut table[..rows * ROW_WORDS])
}

// Compiles an input into a blank table. Answers how many rows there are.
fn compiled_rows(input: &[u8], table: &mut [u32]) -> Result<usize, Refusal>
    requires { table.old ≡ blank }
    ensures listing { listing_of input.now ≡ compiled_text table.new result }
    ensures within { IfOk result (λ rows. rows * row_length ≤ length table.new) }
{
    if !right_input(input) {
        return Err(Reason::WrongInput.at(0));
    }
    let mut file = [0u32; LONGEST_FILE];
    let mut scratch = [0u32; ROW_WORDS * ROOM];
    from_bytes(input, &mut file);
    compile(&file[..input.len() / WORD_BYTES], table, &mut scratch)
}

// Whether an input is whole words, and not longer than the longest file.
#[tactic(auto, unfolding(crate::specs::Listing::right_input))]
fn right_input(input: &[u8]) -> bool
    ensures { result ≡ right_input input.now }
{
    (input.len() % WORD_BYTES == 0) & (input.len() <= LONGEST_INPUT)
}
