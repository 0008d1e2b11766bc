//! The words of the policy file that a policy is.

ghost use Rattle.std.specs.Prelude.{◌≡◌, [], ◌<◌, ◌≤◌, ◌^◌, ◌++◌, map, length, IfOk, OnOk};
ghost use Rattle.logic.specs.Lists.{All};
ghost use Rattle.row.specs.Row.{row_words};
ghost use Rattle.policy.specs.Parts.{record_words, section_words};
ghost use Rattle.depths.specs.Depths.{children, child_counts};
ghost use Rattle.notation.specs.Nodes.{rule_count};
ghost use Rattle.notation.specs.Views.{rule_entries, node_entry, operator_entries, node_entries};
ghost use Rattle.notation.specs.Whole.{entries_of};
ghost use Rattle.translate.specs.Words.{node_record, node_records, all_rules, words_of, FitsWords, rule_words};

use notation::{NamedNode, NamedOperator, Policy, Rule};
use policy::NODE_WORDS;
use row::words_of_row;
use std::alloc::{AllocError, Global};

/// The words of the policy file that a policy is. Reading them accepts the file, or refuses it for a broken law.
pub fn to_words(alloc: Global, policy: &Policy) -> Result<Vec<u32>, AllocError>
    ensures { IfOk result (λ words. words.items ≡ words_of (entries_of policy.now)) }
{
    let mut words = Vec::new(alloc);
    put_operators(policy.operators(), &mut words)?;
    put_atoms(policy.nodes(), &mut words)?;
    put_nodes(policy.nodes(), &mut words)?;
    Ok(words)
}

// The section of the operators.
fn put_operators(operators: &[NamedOperator], words: &mut Vec<u32>) -> Result<(), AllocError>
    requires { length operators.now < 2 ^ 32 }
    ensures { OnOk result (words.new.items
        ≡ words.old.items ++ section_words (map (λ o. o.cells) (operator_entries operators.now)) []) }
{
    words.push(operators.len() as u32)?;
    // The words of the operators so far stand behind the count.
    for operator in operators {
        words.extend_from_slice(&operator.operator.cells)?;
    }
    Ok(())
}

// The section of the atoms: the rules of all nodes.
fn put_atoms(nodes: &[NamedNode], words: &mut Vec<u32>) -> Result<(), AllocError>
    requires { rule_count (node_entries nodes.now) < 2 ^ 32 }
    ensures { OnOk result (words.new.items
        ≡ words.old.items ++ section_words (map rule_words (all_rules (node_entries nodes.now))) []) }
{
    words.push(rule_count(nodes) as u32)?;
    // The words of the rules of the nodes so far stand behind the count.
    for node in nodes {
        put_rules(&node.rules, words)?;
    }
    Ok(())
}

// How many rules the nodes have.
fn rule_count(nodes: &[NamedNode]) -> usize
    requires { rule_count (node_entries nodes.now) < 2 ^ 32 }
    ensures { result ≡ rule_count (node_entries nodes.now) }
{
    let mut count = 0;
    // The rules of the nodes so far are counted.
    for node in nodes {
        count += node.rules.len();
    }
    count
}

// The words of rules.
fn put_rules(rules: &[Rule], words: &mut Vec<u32>) -> Result<(), AllocError>
    ensures { OnOk result (words.new.items
        ≡ words.old.items ++ record_words (map rule_words (rule_entries rules.now))) }
{
    // The words of the rules so far are put.
    for rule in rules {
        words.extend_from_slice(&words_of_row(rule.row))?;
    }
    Ok(())
}

// The section of the nodes.
fn put_nodes(nodes: &[NamedNode], words: &mut Vec<u32>) -> Result<(), AllocError>
    requires few { length nodes.now < 2 ^ 32 }
    requires fit { All FitsWords (node_entries nodes.now) }
    ensures { OnOk result (words.new.items ≡ words.old.items
        ++ section_words (node_records (node_entries nodes.now)
        (child_counts (map (λ n. n.depth) (node_entries nodes.now)))) []) }
{
    words.push(nodes.len() as u32)?;
    // The words of the nodes so far stand behind the count.
    for (i, node) in nodes.iter().enumerate() {
        let children = child_count(node.depth, &nodes[i + 1..]);
        words.extend_from_slice(&node_words(node, children))?;
    }
    Ok(())
}

// The words of a node with so many children.
fn node_words(node: &NamedNode, children: usize) -> [u32; NODE_WORDS]
    requires fit { FitsWords (node_entry node.now) }
    requires few { children < 2 ^ 32 }
    ensures { result ≡ node_record (node_entry node.now) children }
{
    let inner = node.inner as u32;
    let parent = node.parent as u32;
    let sibling = node.sibling as u32;
    let rules = node.rules.len() as u32;
    [inner, parent, sibling, rules, children as u32]
}

// How many of the nodes behind one of a depth are its children.
fn child_count(depth: usize, behind: &[NamedNode]) -> usize
    ensures count { result ≡ children depth (map (λ n. n.depth) (node_entries behind.now)) }
    ensures few { result ≤ length behind.now }
{
    let mut count = 0;
    // The children among the nodes so far are counted.
    for node in behind {
        if node.depth <= depth {
            return count;
        }
        if node.depth == depth + 1 {
            count += 1;
        }
    }
    count
}
