//! What a policy is made of, each thing by its name.

use action::Operator;
use row::Row;

/// An operator: its name, the byte of the text where that starts, and its cells.
#[derive(Drop)]
pub struct NamedOperator {
    pub name: Vec<u8>,
    pub at: usize,
    pub operator: Operator,
}

/// A rule: its label, the byte where that starts, and its match and action.
#[derive(Drop)]
pub struct Rule {
    pub label: Vec<u8>,
    pub at: usize,
    pub row: Row,
}

/// A node: its name, the byte where that starts, how deep it is (the root has depth 1), its operators by index, and its
/// rules.
#[derive(Drop)]
pub struct NamedNode {
    pub name: Vec<u8>,
    pub at: usize,
    pub depth: usize,
    pub inner: usize,
    pub sibling: usize,
    pub parent: usize,
    pub rules: Vec<Rule>,
}
