//! What the things of a policy are called.

use canon::Kept;
use notation::{NamedNode, Policy, Rule};
use std::alloc::{AllocError, Global};
use streams::Sink;

/// A rule, and the node in which it stands.
#[derive(Clone, Copy)]
pub struct Placed<'a> {
    pub node: &'a NamedNode,
    pub rule: &'a Rule,
}

/// The rule that is the atom of an index.
pub(crate) fn rule_at(policy: &Policy, atom: usize) -> Option<Placed<'_>> {
    let mut left = atom;
    for node in policy.nodes() {
        if let Some(rule) = node.rules.get(left) {
            return Some(Placed { node, rule });
        }
        left = left.saturating_sub(node.rules.len());
    }
    None
}

// A rule by its node and its label: `studio.shut`.
fn put_rule<S: Sink>(policy: &Policy, atom: usize, sink: &mut S) {
    if let Some(placed) = rule_at(policy, atom) {
        sink.put(&placed.node.name);
        sink.put(b".");
        sink.put(&placed.rule.label);
    }
}

/// Some rules, by their atoms.
pub(crate) fn rules_text(
    alloc: Global,
    policy: &Policy,
    atoms: &[usize],
) -> Result<Vec<u8>, AllocError> {
    let mut text = Kept::new(alloc);
    for (i, atom) in atoms.iter().enumerate() {
        if i != 0 {
            text.put(b", ");
        }
        put_rule(policy, *atom, &mut text);
    }
    text.into_bytes()
}

/// The name of the operator of an index.
pub(crate) fn operator_name(policy: &Policy, index: usize) -> &[u8] {
    match policy.operators().get(index) {
        Some(operator) => &operator.name,
        None => b"",
    }
}
