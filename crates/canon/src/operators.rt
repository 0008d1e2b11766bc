//! Operators and their cells.

ghost use Rattle.std.specs.Prelude.{◌≡◌, ◌+◌, ◌<◌, is_some, slice_index};
ghost use Rattle.notation.specs.Operators.{builtin_of};
ghost use Rattle.notation.specs.Views.{operator_entry, operator_entries};
ghost use Rattle.canon.specs.Text.{padded, cell_word, cell_line, table_text, cells_text, operator_text, operators_text};

use crate::parts::{ALLOW, DENY, PARENT, RESERVE, SIBLING, put_indent, put_spaces};
use notation::NamedOperator;
use streams::Sink;

// The width of a column of cells.
const COLUMN: usize = 10;

// Operators one behind the other, and an empty line.
pub(crate) fn put_operators<S: Sink>(operators: &[NamedOperator], sink: &mut S)
    ensures { S.gives sink.old (operators_text (operator_entries operators.now)) sink.new }
{
    // Once the operators that are left are put, and the empty line, all are.
    for operator in operators {
        put_operator(operator, sink);
    }
    sink.put(b"\n");
}

// An operator, with its cells unless it is there from the start.
#[tactic(auto, unfolding(crate::specs::Text::operator_text))]
fn put_operator<S: Sink>(operator: &NamedOperator, sink: &mut S)
    ensures { S.gives sink.old (operator_text (operator_entry operator.now)) sink.new }
{
    sink.put(b"operator ");
    let name = operator.name.as_slice();
    sink.put(name);
    put_cells(name, &operator.operator.cells, sink);
}

// The cells of an operator of a name; one that is there from the start has none.
fn put_cells<S: Sink>(name: &[u8], cells: &[u32], sink: &mut S)
    ensures { S.gives sink.old (cells_text (builtin_of name.now) cells.now) sink.new }
{
    if is_builtin(name) {
        sink.put(b"\n");
    } else {
        put_table(cells, sink);
    }
}

// The operator is there from the start.
#[tactic(auto, unfolding(notation::specs::Operators::builtin_of))]
fn is_builtin(name: &[u8]) -> bool
    ensures { result ≡ is_some (builtin_of name.now) }
{
    name == SIBLING || name == PARENT
}

// The cells of an operator in their braces.
fn put_table<S: Sink>(cells: &[u32], sink: &mut S)
    ensures { S.gives sink.old (table_text cells.now) sink.new }
{
    sink.put(b" {\n");
    put_indent(1, sink);
    put_spaces(COLUMN, sink);
    put_padded(ALLOW, sink);
    put_padded(DENY, sink);
    sink.put(b"reserve\n");
    put_cell_line(ALLOW, cells, 0, sink);
    put_cell_line(DENY, cells, 3, sink);
    put_cell_line(RESERVE, cells, 6, sink);
    sink.put(b"}\n");
}

// The line of a left action's kind: three cells from a place on.
fn put_cell_line<S: Sink>(kind: &[u8], cells: &[u32], place: usize, sink: &mut S)
    requires { place < 7 }
    ensures { S.gives sink.old (cell_line kind.now cells.now place) sink.new }
{
    put_indent(1, sink);
    put_padded(kind, sink);
    put_padded(cell_word(cells, place), sink);
    put_padded(cell_word(cells, place + 1), sink);
    sink.put(cell_word(cells, place + 2));
    sink.put(b"\n");
}

// A word, and blanks up to the next column.
fn put_padded<S: Sink>(word: &[u8], sink: &mut S)
    ensures { S.gives sink.old (padded word.now) sink.new }
{
    sink.put(word);
    put_spaces(COLUMN.saturating_sub(word.len()), sink);
}

// The word of the cell at a place.
fn cell_word(cells: &[u32], place: usize) -> &'static [u8]
    ensures { result.now ≡ cell_word (slice_index cells.now place) }
{
    match words::word(cells, place) {
        1 => ALLOW,
        2 => DENY,
        3 => b"left",
        4 => b"right",
        5 => b"larger",
        6 => b"smaller",
        7 => b"sum",
        _ => b"",
    }
}
