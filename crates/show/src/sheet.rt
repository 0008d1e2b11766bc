//! A table as text: how many rows and priorities it has, and a line for each row with its priority.

ghost use Rattle.row.specs.Row.{rows_in};
ghost use Rattle.show.specs.Sheet.{lines, table_text};

use crate::{Head, Line, ROOM, Text};
use priority::number;
use row::{ROW_WORDS, Rows};
use streams::Sink;

/// Puts the text of a table into a sink.
pub fn list_table<S: Sink>(table: &[u32], sink: &mut S)
    ensures { S.gives sink.old (table_text table.now) sink.new }
{
    // Arrays, since no function over words takes memory from a heap.
    let mut priorities = [0u32; ROOM];
    let mut chain = [0u32; ROOM];
    match number(table, &mut priorities, &mut chain) {
        Ok(count) => {
            let head = Head {
                rows: table.len() / ROW_WORDS,
                priorities: count,
            };
            head.put(sink);
            list_rows(&priorities, table, sink);
        }
        Err(refusal) => refusal.put(sink),
    }
}

// A line for each row, with its priority; there may be more priorities than rows.
#[tactic(auto, using(std::proofs::lemmas::List::nil_from_length, crate::proofs::Listed::no_rows))]
fn list_rows<S: Sink>(priorities: &[u32], table: &[u32], sink: &mut S)
    ensures { S.gives sink.old (lines priorities.now (rows_in table.now)) sink.new }
{
    // Once the lines of the rows that are left are put, those of all rows are.
    for (&priority, row) in priorities.iter().zip(Rows::of(table)) {
        Line { priority, row }.put(sink);
    }
}
