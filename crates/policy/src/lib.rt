//! Reading a policy file: every list of words gets its layout or one refusal. The file format is fixed here, by
//! edition: its header, its sections, their records, and what is asked of a file as a whole.
#![tactic(auto)]

pub use crate::nodes::Node;
pub use crate::stages::{read, read_as};
use action::CELLS;
use row::ROW_WORDS;

mod atoms;
mod by_edition;
mod laws;
mod nodes;
mod sections;
mod shape;
mod stages;

/// How many words stand before the first count of a file of the newest edition.
pub const HEADER_WORDS: usize = 0;

/// How many words an operator has.
pub const OPERATOR_WORDS: usize = CELLS;

/// How many words an atom has.
pub const ATOM_WORDS: usize = ROW_WORDS;

/// How many words a node has.
pub const NODE_WORDS: usize = 5;

/// Where the first operator stands, behind the count of the operators.
pub const FIRST_OPERATOR: usize = HEADER_WORDS + 1;

/// How many operators a file has at most.
pub const MOST_OPERATORS: usize = 32;

/// How many atoms a file has at most.
pub const MOST_ATOMS: usize = 1024;

/// How many nodes a file has at most.
pub const MOST_NODES: usize = 256;

/// How many words the longest file has: three counts, and three full sections.
pub const LONGEST_FILE: usize = HEADER_WORDS
    + 3
    + OPERATOR_WORDS * MOST_OPERATORS
    + ATOM_WORDS * MOST_ATOMS
    + NODE_WORDS * MOST_NODES;

/// The editions of the file format.
#[derive(Clone, Copy)]
pub enum Edition {
    First,
}

/// The newest edition.
pub const LATEST: Edition = Edition::First;

/// A section of the file. Nodes are held against the number of operators. Public because the proofs of `promises` speak
/// of sections; no other crate's code does.
#[derive(Clone, Copy)]
pub enum Section {
    Operators(Edition),
    Atoms(Edition),
    Nodes(usize),
}

/// How many records each section of an accepted file has.
#[derive(Clone, Copy)]
pub struct Layout {
    pub operators: usize,
    pub atoms: usize,
    pub nodes: usize,
}
