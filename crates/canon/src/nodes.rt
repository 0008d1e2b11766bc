//! Nodes: their lines, their rules and their ends.

ghost use Rattle.std.specs.Prelude.{◌≡◌, [], suc, slice_index_or};
ghost use Rattle.depths.specs.Depths.{closings};
ghost use Rattle.notation.specs.Views.{operator_entries, node_entry, node_entries};
ghost use Rattle.canon.specs.Text.{name_at, clause_text, node_text, ends_text, between_text, after_text, nodes_text};

use crate::parts::{BELOW, BETWEEN, INSIDE, PARENT, SIBLING, put_behind, put_indent};
use crate::rules::put_rules;
use notation::{NamedNode, NamedOperator};
use streams::Sink;

// Nodes one behind the other, each with its end where no node inside it follows.
#[tactic(auto, using(crate::proofs::Ends::node_after))]
pub(crate) fn put_nodes<S: Sink>(operators: &[NamedOperator], nodes: &[NamedNode], sink: &mut S)
    ensures { S.gives sink.old
        (nodes_text (operator_entries operators.now) (node_entries nodes.now)) sink.new }
{
    let mut left = nodes;
    // Once the nodes that are left are put, all are.
    while let Some((node, rest)) = left.split_first() {
        put_node(operators, node, sink);
        put_after(node, rest, sink);
        left = rest;
    }
}

// What stands between a node's rules and the nodes behind it.
fn put_after<S: Sink>(node: &NamedNode, rest: &[NamedNode], sink: &mut S)
    ensures { S.gives sink.old (after_text (node_entry node.now) (node_entries rest.now)) sink.new }
{
    match rest.first() {
        None => put_ends(node.depth, node.depth, sink),
        Some(next) => put_between(node, next, sink),
    }
}

// The ends between two nodes, and the empty line.
fn put_between<S: Sink>(node: &NamedNode, next: &NamedNode, sink: &mut S)
    ensures { S.gives sink.old (between_text (node_entry node.now) (node_entry next.now)) sink.new }
{
    put_ends(closings(node.depth, next.depth), node.depth, sink);
    if node.rules.len() != 0 || next.depth.checked_sub(1) != Some(node.depth) {
        sink.put(b"\n");
    }
}

// How many nodes end between two depths.
fn closings(depth: usize, next: usize) -> usize
    ensures { result ≡ closings depth next }
{
    match next {
        0 => depth,
        next => depth.saturating_sub(next - 1),
    }
}

// The lines of so many closing braces, the first that of a node of a depth.
fn put_ends<S: Sink>(count: usize, depth: usize, sink: &mut S)
    ensures { S.gives sink.old (ends_text count depth) sink.new }
{
    let mut depth = depth;
    // Once the lines that are left are put, all are.
    for _ in 0..count {
        depth = depth.saturating_sub(1);
        put_indent(depth, sink);
        sink.put(b"}\n");
    }
}

// A node's line, and its rules.
#[tactic(auto, unfolding(crate::specs::Text::node_text))]
fn put_node<S: Sink>(operators: &[NamedOperator], node: &NamedNode, sink: &mut S)
    ensures { S.gives sink.old
        (node_text (operator_entries operators.now) (node_entry node.now)) sink.new }
{
    put_indent(node.depth.saturating_sub(1), sink);
    sink.put(b"node ");
    sink.put(node.name.as_slice());
    put_clause(INSIDE, SIBLING, operators, node.inner, sink);
    put_clause(BETWEEN, SIBLING, operators, node.sibling, sink);
    put_clause(BELOW, PARENT, operators, node.parent, sink);
    sink.put(b" {\n");
    put_rules(node.depth, node.rules.as_slice(), sink);
}

// The operator at an index behind a word, unless it is the one that stands for neither.
#[tactic(auto, unfolding(crate::specs::Text::clause_text))]
fn put_clause<S: Sink>(
    word: &[u8],
    other: &[u8],
    operators: &[NamedOperator],
    index: usize,
    sink: &mut S,
)
    ensures { S.gives sink.old
        (clause_text word.now other.now (operator_entries operators.now) index) sink.new }
{
    let name = name_at(operators, index);
    if name != other {
        put_behind(word, name, sink);
    }
}

// The name of the operator at an index.
fn name_at(operators: &[NamedOperator], index: usize) -> &[u8]
    ensures { result.now ≡ name_at (operator_entries operators.now) index }
{
    match operators.get(index) {
        Some(operator) => operator.name.as_slice(),
        None => b"",
    }
}
