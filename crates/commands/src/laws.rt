//! A broken law, in words.

use crate::names::operator_name;
use crate::page::{action_text, put_number};
use crate::problem::{Code, Problem};
use action::{Action, CELLS, LawFailure, Operator};
use canon::{Kept, put_action};
use notation::Policy;
use policy::{ATOM_WORDS, FIRST_OPERATOR, NODE_WORDS, OPERATOR_WORDS};
use refusal::Refusal;
use std::alloc::{AllocError, Global};
use streams::Sink;

// A node that uses an operator where order must not count, and how.
#[derive(Clone, Copy)]
struct Use {
    node: usize,
    inside: bool,
}

/// The problem of a policy that is refused for a broken law: which operator cannot settle what, and the actions that
/// show it. The place is that of its name; of a text of words, the caller has it.
pub(crate) fn law_problem(
    alloc: Global,
    words: &[u32],
    policy: Option<&Policy>,
    refusal: Refusal,
) -> Result<Problem, AllocError> {
    let mut message = Kept::new(alloc);
    put_operator(policy, refusal.place, &mut message);
    message.put(b" cannot settle the ");
    put_use(words, policy, refusal.place, &mut message);
    if let Some(failure) = refusal.reason.failure() {
        message.put(b": ");
        put_failure(operator_of(words, refusal.place), failure, &mut message);
    }
    let at = match policy {
        Some(policy) => policy
            .operators()
            .get(refusal.place)
            .map(|operator| operator.at),
        None => None,
    };
    Ok(Problem {
        code: Code::Refusal(refusal.reason.number()),
        at,
        message: message.into_bytes()?,
        help: Vec::from_slice(
            alloc,
            b"inside a node and between nodes no order may count; `below`, from a node to the nodes in it, it may",
        )?,
        rule: Vec::new(alloc),
    })
}

// The cells of the operator of an index.
fn operator_of(words: &[u32], index: usize) -> Operator {
    let at = FIRST_OPERATOR.saturating_add(index.saturating_mul(OPERATOR_WORDS));
    Operator::from_words(words.get(at..).unwrap_or(&[]))
}

fn put_operator<S: Sink>(policy: Option<&Policy>, index: usize, sink: &mut S) {
    match policy {
        Some(policy) => {
            sink.put(b"`");
            sink.put(operator_name(policy, index));
            sink.put(b"`");
        }
        None => {
            sink.put(b"operator ");
            put_number(index, sink);
        }
    }
}

// What it has to settle in the first node that uses it so.
fn put_use<S: Sink>(words: &[u32], policy: Option<&Policy>, index: usize, sink: &mut S) {
    let Some(found) = first_use(words, index) else {
        sink.put(b"rules of a node");
        return;
    };
    sink.put(if found.inside {
        b"rules inside ".as_slice()
    } else {
        b"nodes inside ".as_slice()
    });
    match policy.and_then(|policy| policy.nodes().get(found.node)) {
        Some(node) => {
            sink.put(b"`");
            sink.put(&node.name);
            sink.put(b"`");
        }
        None => {
            sink.put(b"node ");
            put_number(found.node, sink);
        }
    }
}

// The first node that names an operator for its rules or for the nodes in it.
fn first_use(words: &[u32], index: usize) -> Option<Use> {
    for (node, record) in nodes_of(words)
        .as_chunks::<NODE_WORDS>()
        .0
        .iter()
        .enumerate()
    {
        let [inner, _, sibling, _, _] = *record;
        if inner as usize == index {
            return Some(Use { node, inside: true });
        }
        if sibling as usize == index {
            return Some(Use {
                node,
                inside: false,
            });
        }
    }
    None
}

// The words of a file's nodes: behind the counts, the operators and the atoms.
fn nodes_of(words: &[u32]) -> &[u32] {
    let operators = words.first().map_or(0, |count| *count as usize);
    let atoms_at = FIRST_OPERATOR.saturating_add(operators.saturating_mul(OPERATOR_WORDS));
    let atoms = words.get(atoms_at).map_or(0, |count| *count as usize);
    let nodes_at = atoms_at
        .saturating_add(atoms.saturating_mul(ATOM_WORDS))
        .saturating_add(2);
    words.get(nodes_at..).unwrap_or(&[])
}

// The actions that show a broken law, and what they give the one way and the other.
fn put_failure<S: Sink>(operator: Operator, failure: LawFailure, sink: &mut S) {
    match failure {
        LawFailure::Commutativity(first, second) => {
            put_join(operator, first, second, sink);
            sink.put(b", but ");
            put_join(operator, second, first, sink);
        }
        LawFailure::Associativity(first, second, third) => {
            put_join(operator, first, second, sink);
            sink.put(b", and ");
            put_join(operator, operator.join(first, second), third, sink);
            sink.put(b", but ");
            put_join(operator, second, third, sink);
            sink.put(b", and ");
            put_join(operator, first, operator.join(second, third), sink);
        }
    }
}

// Two actions and what an operator makes of them: `allow with deny is deny`.
fn put_join<S: Sink>(operator: Operator, left: Action, right: Action, sink: &mut S) {
    put_action(left, sink);
    sink.put(b" with ");
    put_action(right, sink);
    sink.put(b" is ");
    put_action(operator.join(left, right), sink);
}
