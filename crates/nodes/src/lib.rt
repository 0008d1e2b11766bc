//! Where a node, its operators and its atoms stand in a policy file. Each function is total, so that only
//! the walks know that a place was reached: outside the file all is 0, and there are no atoms.
#![tactic(auto)]

ghost use Rattle.std.specs.Prelude.{◌≡◌, ◌≤◌};
ghost use Rattle.action.specs.Operator.{join};
ghost use Rattle.nodes.specs.Nodes.{node_place, node_at, from_operator, cells_at};
ghost use Rattle.nodes.specs.Nodes.{atom_words_at, root_spot, spot_behind_own};

use action::{Action, Operator, join_by};
use policy::{ATOM_WORDS, FIRST_OPERATOR, Layout, NODE_WORDS, Node, OPERATOR_WORDS};
use words::Spelling;

/// A policy file, by its words.
#[derive(Clone, Copy)]
pub struct File<'a> {
    pub words: &'a [u32],
}

/// A place in the list of nodes: how many nodes are left from it on, and the word where the next
/// node's atoms start. By place, and no borrowed tree: the file's words are lent, and there is no heap.
#[derive(Clone, Copy)]
pub struct Spot {
    pub nodes_left: usize,
    pub next_atom: usize,
}

/// The place of the root, where a walk starts: all nodes are left, and the first atom is the next.
pub fn root(layout: Layout) -> Spot
    ensures { result ≡ root_spot layout }
{
    Spot {
        nodes_left: layout.nodes,
        next_atom: layout.first_atom(),
    }
}

impl Spot {
    /// The place behind a node's own atoms: that of its first child.
    #[tactic(auto, unfolding(crate::specs::Nodes::spot_behind_own))]
    pub fn behind_own(self, node: Node) -> Spot
        ensures { result ≡ spot_behind_own self node }
    {
        let own = ATOM_WORDS * (node.own as usize);
        Spot {
            nodes_left: self.nodes_left.saturating_sub(1),
            next_atom: self.next_atom.saturating_add(own),
        }
    }
}

impl<'a> File<'a> {
    /// The node that has so many nodes left from it on.
    pub fn node_at(self, nodes_left: usize) -> Node
        ensures { result ≡ node_at self.entry.words.now nodes_left }
    {
        // A known length spares a test for each word.
        let at = node_place(self.words.len(), nodes_left);
        Node::read(self.words.get(at..at + NODE_WORDS).unwrap_or(&[]))
    }

    /// The operator of an index.
    pub fn operator_at(self, index: u32) -> Operator
        ensures { result.cells ≡ cells_at self.entry.words.now index }
    {
        Operator::from_words(self.from_operator(index))
    }

    /// Two actions joined by the operator of an index.
    pub fn join_at(self, index: u32, left: Action, right: Action) -> Action
        ensures { result ≡ join (cells_at self.entry.words.now index) left right }
    {
        join_by(self.from_operator(index), left, right)
    }

    /// The words of so many atoms, from a word of the file on.
    pub fn atoms_at(self, from: usize, count: u32) -> &'a [u32]
        ensures { result.now ≡ atom_words_at self.entry.words.now from count }
    {
        let end = from.saturating_add(ATOM_WORDS * (count as usize));
        self.words.get(from..end).unwrap_or(&[])
    }

    // The words from the operator of an index on, none if it stands outside the file.
    fn from_operator(self, index: u32) -> &'a [u32]
        ensures { result.now ≡ from_operator self.entry.words.now index }
    {
        let at = FIRST_OPERATOR + OPERATOR_WORDS * (index as usize);
        &self.words[at.min(self.words.len())..]
    }
}

// The word where the node stands, or the end of the file.
fn node_place(length: usize, nodes_left: usize) -> usize
    ensures place { result ≡ node_place length nodes_left }
    ensures low { result ≤ length }
{
    if length / NODE_WORDS < nodes_left {
        return length;
    }
    length - NODE_WORDS * nodes_left
}
