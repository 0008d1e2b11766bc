//! A policy file as a policy: its operators, nodes and rules get names by their index.

ghost use Rattle.std.specs.Prelude.{ℕ, ◌≡◌, List, Ok, ◌∷◌, ◌+◌, ◌*◌, ◌<◌, ◌≤◌, ◌^◌, map, length, reverse, IfOk};
ghost use Rattle.row.specs.Row.{row_length};
ghost use Rattle.words.specs.Records.{records};
ghost use Rattle.policy.specs.Numbers.{operator_length, node_length, most_operators, most_atoms};
ghost use Rattle.policy.specs.Sections.{children_of};
ghost use Rattle.policy.specs.Whole.{waiting_nodes, one_less, own_atoms};
ghost use Rattle.policy.specs.Node.{node_of};
ghost use Rattle.policy.specs.Read.{atoms_at, nodes_at, read_of};
ghost use Rattle.depths.specs.Depths.{depths_of};
ghost use Rattle.notation.specs.Views.{rule_entries, operator_entry, node_entry, operator_entries, node_entries};
ghost use Rattle.notation.specs.Whole.{entries_of};
ghost use Rattle.translate.specs.Names.{numbered, operator_name, operators_from, rules_from, nodes_from, policy_of};
ghost use Rattle.translate.specs.Made.{IsMade, node_made, Waits};

use action::Operator;
use itoa::Buffer;
use notation::{NamedNode, NamedOperator, Policy, Rule};
use policy::{ATOM_WORDS, FIRST_OPERATOR, Layout, NODE_WORDS, Node, OPERATOR_WORDS, read};
use refusal::Refusal;
use row::RowSpelling;
use std::alloc::{AllocError, Global};
use words::Spelling;

/// Why words give no policy: memory ran out, or they are no file that is accepted.
#[derive(Clone, Copy)]
pub enum FromError {
    Memory,
    Refused(Refusal),
}

/// The policy that a policy file is, with names made up; a file that is not accepted gets its refusal.
pub fn from_words(alloc: Global, words: &[u32]) -> Result<Policy, FromError>
    ensures { IsMade words.now result }
{
    let layout = match read(words) {
        Ok(layout) => layout,
        Err(refusal) => return Err(FromError::Refused(refusal)),
    };
    match made_policy(alloc, words, layout) {
        Ok(policy) => Ok(policy),
        Err(_) => Err(FromError::Memory),
    }
}

// The same of an accepted file.
fn made_policy(alloc: Global, words: &[u32], layout: Layout) -> Result<Policy, AllocError>
    requires accepted { read_of words.now ≡ Ok layout }
    requires few_operators { layout.operators ≤ most_operators }
    requires few_atoms { layout.atoms ≤ most_atoms }
    requires operators { 1 + operator_length * layout.operators ≤ length words.now }
    requires atoms { atoms_at layout.operators + 1 + row_length * layout.atoms ≤ length words.now }
    requires nodes { nodes_at layout.operators layout.atoms + 1 + node_length * layout.nodes ≤ length words.now }
    ensures { IfOk result (λ p. entries_of p ≡ policy_of words.now layout) }
{
    let atoms_at = FIRST_OPERATOR + layout.operators * OPERATOR_WORDS + 1;
    let nodes_at = atoms_at + layout.atoms * ATOM_WORDS + 1;
    let operators = made_operators(alloc, &words[FIRST_OPERATOR..], layout.operators)?;
    let nodes = made_nodes(alloc, &words[nodes_at..], layout.nodes, &words[atoms_at..])?;
    Ok(Policy::new(operators, nodes))
}

// The operators of a section.
fn made_operators(
    alloc: Global,
    words: &[u32],
    count: usize,
) -> Result<Vec<NamedOperator>, AllocError>
    requires { operator_length * count ≤ length words.now }
    ensures { IfOk result (λ os. operator_entries os.items
        ≡ operators_from 0 (records count operator_length words.now)) }
{
    let mut operators = Vec::new(alloc);
    let mut left = words;
    // The operators so far, and those in the words that are left, are all.
    for i in 0..count {
        let (cells, others) = left.split_at(OPERATOR_WORDS);
        operators.push(made_operator(alloc, i, cells)?)?;
        left = others;
    }
    Ok(operators)
}

// The operator at an index.
fn made_operator(alloc: Global, i: usize, cells: &[u32]) -> Result<NamedOperator, AllocError>
    requires { length cells.now ≡ operator_length }
    ensures { IfOk result (λ o. operator_entry o
        ≡ record { name = operator_name i cells.now; at = 0; cells = cells.now }) }
{
    let name = operator_name(alloc, i, cells)?;
    Ok(NamedOperator {
        name,
        at: 0,
        operator: Operator::from_words(cells),
    })
}

// Its name.
fn operator_name(alloc: Global, i: usize, cells: &[u32]) -> Result<Vec<u8>, AllocError>
    ensures { IfOk result (λ name. name.items ≡ operator_name i cells.now) }
{
    if i == 0 && cells == Operator::SIBLING.cells.as_slice() {
        Vec::from_slice(alloc, b"sibling")
    } else if i == 1 && cells == Operator::PARENT.cells.as_slice() {
        Vec::from_slice(alloc, b"parent")
    } else {
        numbered(alloc, b"operator", i)
    }
}

// A word and a number behind it.
fn numbered(alloc: Global, stem: &[u8], i: usize) -> Result<Vec<u8>, AllocError>
    ensures { IfOk result (λ name. name.items ≡ numbered stem.now i) }
{
    let mut buffer = Buffer::new();
    let mut name = Vec::from_slice(alloc, stem)?;
    name.push(b'-')?;
    name.extend_from_slice(buffer.format(i).as_bytes())?;
    Ok(name)
}

// The nodes of a section, each with its rules off the front of the atoms that are left.
fn made_nodes(
    alloc: Global,
    words: &[u32],
    count: usize,
    atoms: &[u32],
) -> Result<Vec<NamedNode>, AllocError>
    requires nodes { node_length * count ≤ length words.now }
    requires atoms { row_length * own_atoms (records count node_length words.now) ≤ length atoms.now }
    ensures { let rs : List (List ℕ) = records count node_length words.now in
        IfOk result (λ ns. node_entries ns.items ≡ nodes_from 0 rs (depths_of (map children_of rs))
        (rules_from 0 (records (own_atoms rs) row_length atoms.now))) }
{
    let mut nodes = Vec::new(alloc);
    let mut waiting = Vec::new(alloc);
    waiting.push(1)?;
    let mut left = words;
    let mut atoms_left = atoms;
    let mut rule = 0;
    // The nodes so far, and those in the words that are left, are all.
    for i in 0..count {
        let (words, others) = left.split_at(NODE_WORDS);
        let node = Node::read(words);
        let depth = depth_of_next(&mut waiting, node.children)?;
        let (own, atoms_behind) = atoms_left.split_at(node.own as usize * ATOM_WORDS);
        let rules = made_rules(alloc, rule, own, node.own as usize)?;
        nodes.push(made_node(alloc, i, depth, node, rules)?)?;
        left = others;
        atoms_left = atoms_behind;
        rule += node.own as usize;
    }
    Ok(nodes)
}

// The node at an index, of a depth, with its rules.
fn made_node(
    alloc: Global,
    i: usize,
    depth: usize,
    node: Node,
    rules: Vec<Rule>,
) -> Result<NamedNode, AllocError>
    ensures { IfOk result (λ n. node_entry n ≡ node_made i depth node (rule_entries rules.items)) }
{
    let name = numbered(alloc, b"node", i)?;
    Ok(NamedNode {
        name,
        at: 0,
        depth,
        inner: node.inner as usize,
        sibling: node.sibling as usize,
        parent: node.parent as usize,
        rules,
    })
}

// How deep the next node is, which has so many children: as deep as nodes wait for it, of which the innermost waits for
// one child less from now on.
fn depth_of_next(waiting: &mut Vec<u32>, children: u32) -> Result<usize, AllocError>
    ensures { let parents : List ℕ = waiting_nodes (reverse waiting.old.items) in
        IfOk result (λ depth. (depth ≡ length parents)
        × (reverse waiting.new.items ≡ children ∷ one_less parents)) }
{
    if let Some(count) = take_parent(waiting) {
        waiting.push(count - 1)?;
    }
    let depth = waiting.len();
    waiting.push(children)?;
    Ok(depth)
}

// Takes the nodes off that have all their children, and the innermost that waits; says for how many it does.
fn take_parent(waiting: &mut Vec<u32>) -> Option<u32>
    ensures { Waits (waiting_nodes (reverse waiting.old.items)) (reverse waiting.new.items) result }
{
    while let Some(count) = waiting.pop() {
        if count != 0 {
            return Some(count);
        }
    }
    None
}

// The rules that so many atoms are, from an index on.
fn made_rules(
    alloc: Global,
    first: usize,
    words: &[u32],
    count: usize,
) -> Result<Vec<Rule>, AllocError>
    requires there { row_length * count ≤ length words.now }
    requires few { first + count < 2 ^ 63 }
    ensures { IfOk result (λ rs. rule_entries rs.items
        ≡ rules_from first (records count row_length words.now)) }
{
    let mut rules = Vec::new(alloc);
    let mut left = words;
    // The rules so far, and those in the words that are left, are all.
    for i in 0..count {
        let (atom, others) = left.split_at(ATOM_WORDS);
        let label = numbered(alloc, b"rule", first + i)?;
        rules.push(Rule {
            label,
            at: 0,
            row: RowSpelling::read(atom),
        })?;
        left = others;
    }
    Ok(rules)
}
