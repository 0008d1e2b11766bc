//! Nodes: a name, operators, rules, and where they end.

ghost use Rattle.std.specs.Prelude.{◌≡◌, ◌-◌, [], ◌≤◌};
ghost use Rattle.policy.specs.Numbers.{most_nodes};
ghost use Rattle.tokens.specs.Left.{left};
ghost use Rattle.notation.specs.Reads.{Reads, Gives};
ghost use Rattle.notation.specs.Nodes.{operator_index, near_place, operator_for, clause_at, node_place};
ghost use Rattle.notation.specs.Nodes.{header_at, node_at, closed, innermost, no_node, nodes_at};
ghost use Rattle.notation.specs.Views.{operator_entries, node_entry, node_entries, entries};
ghost use Rattle.notation.specs.Whole.{header_of};

use crate::expect::{fault, take, wrong};
use crate::operators::{builtin_of, new_name};
use crate::rules::read_rules;
use crate::{Fault, NamedNode, NamedOperator, ReadError, Reason, Wanted};
use policy::{MOST_ATOMS, MOST_NODES, MOST_OPERATORS};
use std::alloc::Global;
use tokens::{CLOSE, OPEN, Tokens};
use values::{BELOW, BETWEEN, INSIDE, NODE, PARENT, SIBLING, near};

// How deep a node may be.
const DEEPEST: usize = 16;

// What stands before a node's rules: its name, and its operators by index.
#[derive(Clone, Copy)]
struct Header<'a> {
    name: &'a [u8],
    inner: usize,
    sibling: usize,
    parent: usize,
}

// The nodes, of which the root is the first; the operators that they use and that are there from the start are put
// behind the others.
pub(crate) fn read_nodes(
    alloc: Global,
    operators: &mut Vec<NamedOperator>,
    tokens: &mut Tokens,
) -> Result<Vec<NamedNode>, ReadError>
    ensures { Reads (λ ns. entries operators.new.items ns.items) result (left tokens.new)
        (nodes_at most_nodes (operator_entries operators.old.items) [] 0 (left tokens.old)) }
{
    let mut nodes = Vec::new(alloc);
    let mut unclosed = 0;
    let mut rules = 0;
    // What is read behind the nodes so far, of which some are open, is what is read behind none.
    loop {
        if !tokens.is(NODE) {
            return Err(no_node(unclosed, &nodes, tokens).into());
        }
        if nodes.len() == MOST_NODES {
            return Err(fault(Reason::TooManyNodes, tokens).into());
        }
        tokens.advance();
        let node = read_node(
            alloc,
            MOST_ATOMS - rules,
            operators,
            &nodes,
            unclosed,
            tokens,
        )?;
        rules += node.rules.len();
        nodes.push(node)?;
        unclosed = close(unclosed + 1, tokens);
        if unclosed == 0 {
            return Ok(nodes);
        }
    }
}

// A node behind its word: its header and its rules, for which there is so much room.
#[tactic(auto, unfolding(crate::specs::Nodes::node_at))]
fn read_node(
    alloc: Global,
    room: usize,
    operators: &mut Vec<NamedOperator>,
    nodes: &[NamedNode],
    unclosed: usize,
    tokens: &mut Tokens,
) -> Result<NamedNode, ReadError>
    requires { unclosed ≤ most_nodes }
    ensures { Reads
        (λ n. record { node = node_entry n; operators = operator_entries operators.new.items })
        result (left tokens.new)
        (node_at room (operator_entries operators.old.items) (node_entries nodes.now) unclosed
        (left tokens.old)) }
{
    let at = tokens.at();
    let header = read_header(alloc, operators, nodes, unclosed, tokens)?;
    let rules = read_rules(alloc, room, tokens)?;
    let name = Vec::from_slice(alloc, header.name)?;
    Ok(NamedNode {
        name,
        at,
        depth: unclosed + 1,
        inner: header.inner,
        sibling: header.sibling,
        parent: header.parent,
        rules,
    })
}

// What stands before a node's rules.
#[tactic(auto, unfolding(crate::specs::Nodes::header_at))]
fn read_header<'a>(
    alloc: Global,
    operators: &mut Vec<NamedOperator>,
    nodes: &[NamedNode],
    unclosed: usize,
    tokens: &mut Tokens<'a>,
) -> Result<Header<'a>, ReadError>
    ensures { Reads (header_of (operator_entries operators.new.items)) result (left tokens.new)
        (header_at (operator_entries operators.old.items) (node_entries nodes.now) unclosed
        (left tokens.old)) }
{
    let at = tokens.at();
    let here = *tokens;
    let seen = node_place(tokens.word(), nodes);
    let name = new_name(Wanted::NodeName, seen, tokens)?;
    if unclosed >= DEEPEST {
        return Err(fault(Reason::TooDeep, &here).into());
    }
    let inner = read_clause(alloc, INSIDE, SIBLING, at, operators, tokens)?;
    let sibling = read_clause(alloc, BETWEEN, SIBLING, at, operators, tokens)?;
    let parent = read_clause(alloc, BELOW, PARENT, at, operators, tokens)?;
    take(OPEN, Wanted::Block, tokens)?;
    Ok(Header {
        name,
        inner,
        sibling,
        parent,
    })
}

// An operator behind a word; where that is missing, the one of a name, used at a place.
#[tactic(auto, unfolding(crate::specs::Nodes::clause_at))]
fn read_clause(
    alloc: Global,
    word: &[u8],
    name: &[u8],
    place: usize,
    operators: &mut Vec<NamedOperator>,
    tokens: &mut Tokens,
) -> Result<usize, ReadError>
    ensures { Reads (λ i. record { index = i; operators = operator_entries operators.new.items })
        result (left tokens.new)
        (clause_at word.now name.now place (operator_entries operators.old.items)
        (left tokens.old)) }
{
    if !tokens.is(word) {
        return operator_for(alloc, name, place, operators);
    }
    tokens.advance();
    let index = operator_for(alloc, tokens.word(), tokens.at(), operators)?;
    tokens.advance();
    Ok(index)
}

// The index of the operator of a name, which is used at a place.
#[tactic(auto, unfolding(crate::specs::Nodes::operator_for))]
fn operator_for(
    alloc: Global,
    name: &[u8],
    place: usize,
    operators: &mut Vec<NamedOperator>,
) -> Result<usize, ReadError>
    ensures { Gives (λ i. record { index = i; operators = operator_entries operators.new.items })
        result
        (operator_for name.now place (operator_entries operators.old.items)) }
{
    if let Some(index) = operator_index(name, operators) {
        return Ok(index);
    }
    let Some(operator) = builtin_of(name) else {
        let reason = Reason::Unknown(near_place(name, operators));
        return Err(Fault { at: place, reason }.into());
    };
    let index = operators.len();
    if index >= MOST_OPERATORS {
        let reason = Reason::TooManyOperators;
        return Err(Fault { at: place, reason }.into());
    }
    let name = Vec::from_slice(alloc, name)?;
    operators.push(NamedOperator {
        name,
        at: place,
        operator,
    })?;
    Ok(index)
}

// The index of the first operator of a name.
fn operator_index(name: &[u8], operators: &[NamedOperator]) -> Option<usize>
    ensures { result ≡ operator_index name.now (operator_entries operators.now) }
{
    for (i, operator) in operators.iter().enumerate() {
        if operator.name.as_slice() == name {
            return Some(i);
        }
    }
    None
}

// Where the first operator stands whose name differs from a word by one byte.
fn near_place(name: &[u8], operators: &[NamedOperator]) -> Option<usize>
    ensures { result ≡ near_place name.now (operator_entries operators.now) }
{
    for operator in operators {
        if near(&operator.name, name) {
            return Some(operator.at);
        }
    }
    None
}

// Where the node of a name stands.
fn node_place(name: &[u8], nodes: &[NamedNode]) -> Option<usize>
    ensures { result ≡ node_place name.now (node_entries nodes.now) }
{
    for node in nodes {
        if node.name.as_slice() == name {
            return Some(node.at);
        }
    }
    None
}

// How many of some open nodes are open behind the closing braces.
fn close(unclosed: usize, tokens: &mut Tokens) -> usize
    ensures { (result, left tokens.new) ≡ closed unclosed (left tokens.old) }
{
    let mut unclosed = unclosed;
    while unclosed > 0 && tokens.is(CLOSE) {
        tokens.advance();
        unclosed -= 1;
    }
    unclosed
}

// What is wrong where neither a node nor a closing brace stands.
#[tactic(auto, unfolding(crate::specs::Nodes::no_node))]
fn no_node(unclosed: usize, nodes: &[NamedNode], tokens: &Tokens) -> Fault
    ensures { Err result ≡ no_node unclosed (node_entries nodes.now) (left tokens.now) }
{
    if unclosed == 0 {
        wrong(Wanted::Start, tokens)
    } else if tokens.ended() {
        fault(Reason::Unclosed(innermost(unclosed, nodes)), tokens)
    } else {
        wrong(Wanted::NodeOrEnd, tokens)
    }
}

// Where the last node of a depth stands; 0 if there is none.
fn innermost(depth: usize, nodes: &[NamedNode]) -> usize
    ensures { result ≡ innermost 0 depth (node_entries nodes.now) }
{
    let mut place = 0;
    for node in nodes {
        if node.depth == depth {
            place = node.at;
        }
    }
    place
}
