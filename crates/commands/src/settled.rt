//! How a tree comes to what it says of a packet: node by node the rules that are met, and what each operator made.

use crate::json;
use crate::names::operator_name;
use crate::page::put_spaces;
use action::Action;
use canon::{Kept, put_action, put_match};
use notation::{NamedNode, Policy};
use serde_json::{Value, json};
use std::alloc::{AllocError, Global};
use streams::Sink;
use trace::{NodeStep, RuleStep, Steps};

// The blanks for each node that another stands in.
const INDENT: usize = 2;

/// The steps of a tree: each node with its rules and what was made of them, the nodes inside it, and what was made of
/// all.
pub(crate) fn put_steps<S: Sink>(policy: &Policy, steps: &Steps, out: &mut S) {
    let mut first_rule = 0usize;
    for (index, node) in policy.nodes().iter().enumerate() {
        put_spaces(INDENT.saturating_mul(node.depth.saturating_sub(1)), out);
        out.put(&node.name);
        out.put(b"\n");
        let end = first_rule.saturating_add(node.rules.len());
        let own = steps.rules.get(first_rule..end).unwrap_or(&[]);
        put_rules(node, own, out);
        put_inner(policy, node, own, out);
        first_rule = end;
        let next = policy.nodes().get(index.saturating_add(1));
        put_ends(policy, steps, index, next.map_or(0, |next| next.depth), out);
    }
}

// The rules of a node, and whether each is met.
fn put_rules<S: Sink>(node: &NamedNode, steps: &[RuleStep], out: &mut S) {
    for (rule, step) in node.rules.iter().zip(steps) {
        put_spaces(INDENT.saturating_mul(node.depth), out);
        out.put(if step.met {
            b"met      ".as_slice()
        } else {
            b"not met  ".as_slice()
        });
        out.put(&rule.label);
        out.put(b": ");
        put_action(rule.row.action, out);
        put_match(rule.row.matching, out);
        out.put(b"\n");
    }
}

// The ends of the node of an index and of those that it stands in, down to a depth.
fn put_ends<S: Sink>(policy: &Policy, steps: &Steps, index: usize, depth: usize, out: &mut S) {
    let mut open = policy.nodes().get(index).map_or(0, |node| node.depth);
    let mut from = index;
    // At each turn the node that ends is the last before `from` of the depth `open`.
    for _ in 0..open {
        if open < depth {
            break;
        }
        if let Some(ending) = last_of_depth(policy, from, open) {
            put_end(policy, steps, ending, out);
            from = ending;
        }
        open = open.saturating_sub(1);
    }
}

// The last node of a depth up to an index.
fn last_of_depth(policy: &Policy, index: usize, depth: usize) -> Option<usize> {
    policy
        .nodes()
        .iter()
        .take(index.saturating_add(1))
        .rposition(|node| node.depth == depth)
}

// What the operators of a node made, and what it gives.
fn put_end<S: Sink>(policy: &Policy, steps: &Steps, index: usize, out: &mut S) {
    let (Some(node), Some(step)) = (policy.nodes().get(index), steps.nodes.get(index)) else {
        return;
    };
    let indent = INDENT.saturating_mul(node.depth);
    put_between(policy, steps, index, node, out);
    if (step.own != Action::DONT_CARE) & (step.below != Action::DONT_CARE) {
        put_spaces(indent, out);
        put_made(step.own, step.below, step.made, out);
        put_operator(b"below", operator_name(policy, node.parent), out);
    }
    put_spaces(indent, out);
    out.put(b"gives ");
    put_action(step.made, out);
    out.put(b"\n");
}

// The joins of a node's rules, from the last.
fn put_inner<S: Sink>(policy: &Policy, node: &NamedNode, own: &[RuleStep], out: &mut S) {
    for (rule, step) in node.rules.iter().zip(own).rev() {
        let action = rule.row.action;
        if step.met & (action != Action::DONT_CARE) & (step.rest != Action::DONT_CARE) {
            put_spaces(INDENT.saturating_mul(node.depth), out);
            put_made(action, step.rest, step.made, out);
            put_operator(b"inside", operator_name(policy, node.inner), out);
        }
    }
}

// The joins of the nodes inside a node, from the last.
fn put_between<S: Sink>(
    policy: &Policy,
    steps: &Steps,
    index: usize,
    node: &NamedNode,
    out: &mut S,
) {
    let behind = policy.nodes().get(index.saturating_add(1)..).unwrap_or(&[]);
    let inside = behind
        .iter()
        .position(|other| other.depth <= node.depth)
        .unwrap_or(behind.len());
    let steps = steps.nodes.get(index.saturating_add(1)..).unwrap_or(&[]);
    let nodes = behind.get(..inside).unwrap_or(behind);
    for (child, step) in nodes.iter().zip(steps).rev() {
        let joined = (step.made != Action::DONT_CARE) & (step.rest != Action::DONT_CARE);
        if (child.depth == node.depth.saturating_add(1)) & joined {
            put_spaces(INDENT.saturating_mul(node.depth), out);
            put_made(step.made, step.rest, step.joined, out);
            put_operator(b"between", operator_name(policy, node.sibling), out);
        }
    }
}

// Two actions, and what was made of them.
fn put_made<S: Sink>(left: Action, right: Action, made: Action, out: &mut S) {
    put_action(left, out);
    out.put(b" with ");
    put_action(right, out);
    out.put(b" is ");
    put_action(made, out);
}

// The operator that made it, and the word by which the node names it.
fn put_operator<S: Sink>(word: &[u8], name: &[u8], out: &mut S) {
    out.put(b" (");
    out.put(word);
    out.put(b": ");
    out.put(name);
    out.put(b")\n");
}

/// The steps for programs, node by node.
pub(crate) fn steps_value(
    alloc: Global,
    policy: &Policy,
    steps: &Steps,
) -> Result<Value, AllocError> {
    let mut nodes = Vec::new(alloc);
    let mut first_rule = 0usize;
    for (node, step) in policy.nodes().iter().zip(steps.nodes.iter()) {
        let end = first_rule.saturating_add(node.rules.len());
        let own = steps.rules.get(first_rule..end).unwrap_or(&[]);
        nodes.push(node_value(alloc, node, step, own)?)?;
        first_rule = end;
    }
    Ok(Value::Array(nodes))
}

fn node_value(
    alloc: Global,
    node: &NamedNode,
    step: &NodeStep,
    own: &[RuleStep],
) -> Result<Value, AllocError> {
    let mut rules = Vec::new(alloc);
    for (rule, step) in node.rules.iter().zip(own) {
        let label = json::string(alloc, &rule.label)?;
        let rest = json::action(alloc, step.rest)?;
        let made = json::action(alloc, step.made)?;
        rules.push(json!(in alloc; {"rule": label, "met": step.met, "rest": rest, "made": made})?)?;
    }
    let name = json::string(alloc, &node.name)?;
    let rules = Value::Array(rules);
    let own = json::action(alloc, step.own)?;
    let below = json::action(alloc, step.below)?;
    let made = json::action(alloc, step.made)?;
    let rest = json::action(alloc, step.rest)?;
    let joined = json::action(alloc, step.joined)?;
    json!(in alloc; {
        "node": name,
        "rules": rules,
        "own": own,
        "below": below,
        "made": made,
        "rest": rest,
        "joined": joined
    })
}
