//! A refused file of words, in words: what each number means, and where its place is in the text.

use crate::laws::law_problem;
use crate::page::{put_count, put_grouped, put_number};
use crate::problem::{Code, Problem};
use canon::Kept;
use policy::{ATOM_WORDS, FIRST_OPERATOR, NODE_WORDS, OPERATOR_WORDS};
use refusal::{Reason, Refusal};
use show::ROOM;
use std::alloc::{AllocError, Global};
use streams::Sink;

/// The problem of a file that is refused, whose words have places in a text, which ends at another.
pub(crate) fn refusal_problem(
    alloc: Global,
    words: &[u32],
    places: &[usize],
    end: usize,
    refusal: Refusal,
) -> Result<Problem, AllocError> {
    if refusal.reason.failure().is_some() {
        let problem = law_problem(alloc, words, None, refusal)?;
        let at = FIRST_OPERATOR.saturating_add(refusal.place.saturating_mul(OPERATOR_WORDS));
        return Ok(Problem {
            at: places.get(at).copied(),
            ..problem
        });
    }
    let mut message = Kept::new(alloc);
    put_reason(words, refusal, &mut message);
    Ok(Problem {
        code: Code::Refusal(refusal.reason.number()),
        at: word_of(words, refusal).map(|word| places.get(word).copied().unwrap_or(end)),
        message: message.into_bytes()?,
        help: Vec::from_slice(
            alloc,
            b"the words of a policy file: docs/FORMAT.md, \"The policy file\"",
        )?,
        rule: Vec::new(alloc),
    })
}

/// The problem of a policy whose rows are refused: there are more than there is room for.
pub(crate) fn rows_problem(alloc: Global, refusal: Refusal) -> Result<Problem, AllocError> {
    if refusal.reason == Reason::NoRoom {
        room_problem(alloc, Code::Refusal(refusal.reason.number()))
    } else {
        unforeseen(alloc, refusal)
    }
}

/// More rows than room, as an error or as a warning.
pub(crate) fn room_problem(alloc: Global, code: Code) -> Result<Problem, AllocError> {
    let mut message = Kept::new(alloc);
    message.put(b"more than ");
    put_grouped(ROOM, &mut message);
    message.put(b" rows, counted before hidden ones are taken out: there is no room for so many");
    Ok(Problem {
        code,
        at: None,
        message: message.into_bytes()?,
        help: Vec::from_slice(
            alloc,
            b"each rule that overlaps others makes a row with each set of them; narrow the rules that overlap most",
        )?,
        rule: Vec::new(alloc),
    })
}

/// A refusal of what was accepted before, which no policy gets.
pub(crate) fn unforeseen(alloc: Global, refusal: Refusal) -> Result<Problem, AllocError> {
    let mut message = Kept::new(alloc);
    message.put(b"refused with the number ");
    put_number(refusal.reason.number() as usize, &mut message);
    message.put(b", although the policy was accepted");
    Ok(Problem {
        code: Code::Refusal(refusal.reason.number()),
        at: None,
        message: message.into_bytes()?,
        help: Vec::new(alloc),
        rule: Vec::new(alloc),
    })
}

// The word at which a refused file is wrong, if its place is one.
fn word_of(words: &[u32], refusal: Refusal) -> Option<usize> {
    match refusal.reason {
        Reason::ShortFile
        | Reason::WrongCount
        | Reason::WrongCell
        | Reason::WrongMatch
        | Reason::WrongAction
        | Reason::WrongNode
        | Reason::ExtraWords => Some(refusal.place),
        Reason::NoTree => Some(node_word(words, refusal.place)),
        _ => None,
    }
}

// The word at which a node starts.
fn node_word(words: &[u32], node: usize) -> usize {
    let operators = words.first().map_or(0, |count| *count as usize);
    let atoms_at = FIRST_OPERATOR.saturating_add(operators.saturating_mul(OPERATOR_WORDS));
    let atoms = words.get(atoms_at).map_or(0, |count| *count as usize);
    atoms_at
        .saturating_add(atoms.saturating_mul(ATOM_WORDS))
        .saturating_add(node.saturating_mul(NODE_WORDS))
        .saturating_add(2)
}

fn put_reason<S: Sink>(words: &[u32], refusal: Refusal, sink: &mut S) {
    match refusal.reason {
        Reason::ShortFile => {
            sink.put(
                b"the words end before a count, or inside a section that a count announces: there are ",
            );
            put_number(refusal.place, sink);
        }
        Reason::WrongCount => sink.put(
            b"a count beyond its limits: operators 1 to 32, rules 0 to 1,024, nodes 1 to 256",
        ),
        Reason::WrongCell => sink.put(b"no code of a cell: 1 to 4, in the ninth cell 1 to 7"),
        Reason::WrongMatch => sink.put(
            b"a wrong match: a value too large, or not 0 without its flag, bits behind a prefix length, or other flags",
        ),
        Reason::WrongAction => sink.put(
            b"a wrong action: kinds are 0 to 3, and kind 3 alone has a rate, of 1 to 100,000,000 kbit/s",
        ),
        Reason::WrongNode => sink.put(
            b"a node with an operator that there is not, or with more than 1,024 rules or 255 children",
        ),
        Reason::ExtraWords => sink.put(b"words behind the last node"),
        Reason::NoTree => put_no_tree(words, refusal.place, sink),
        Reason::WrongSum => sink.put(
            b"the nodes' counts of rules do not add up to the number of rules",
        ),
        _ => {
            sink.put(b"refused with the number ");
            put_number(refusal.reason.number() as usize, sink);
        }
    }
}

// The nodes are not one tree: one too many or too deep, or some are missing.
fn put_no_tree<S: Sink>(words: &[u32], node: usize, sink: &mut S) {
    if node_word(words, node) >= words.len() {
        sink.put(b"the nodes are not one tree: behind the last of ");
        put_count(node, b"node", b"nodes", sink);
        sink.put(b", children are still missing");
    } else {
        sink.put(b"the nodes are not one tree: node ");
        put_number(node, sink);
        sink.put(b" comes after the end of the tree, or is more than 16 deep");
    }
}
