//! A node: the five words that it is, and what is asked of them.

ghost use Rattle.std.specs.Prelude.{◌≡◌};
ghost use Rattle.policy.specs.Node.{right_node, names_operator};

use crate::{MOST_ATOMS, NODE_WORDS};
use words::{Records, Spelling, word};

/// A node's five words: operator indexes, own-atom count, child count.
#[derive(Clone, Copy)]
pub struct Node {
    pub inner: u32,
    pub parent: u32,
    pub sibling: u32,
    pub own: u32,
    pub children: u32,
}

/// The nodes that some words hold, one behind the other.
pub(crate) type Nodes<'a> = Records<'a, Node>;

// How many children a node may have.
const MOST_CHILDREN: usize = 255;

// Where its words stand.
const INNER: usize = 0;

const PARENT: usize = 1;

const SIBLING: usize = 2;

const OWN: usize = 3;

const CHILDREN: usize = 4;

impl Spelling for Node {
    type Item = Node;

    ghost use Rattle.policy.specs.Numbers.{node_length};
    ghost use Rattle.policy.specs.Node.{node_of, node-some};

    ghost WORDS = { node_length };

    const WORDS: usize = NODE_WORDS;

    ghost of_words = { node_of };

    ghost some = { node-some };

    fn read(words: &[u32]) -> Node {
        Node {
            inner: word(words, INNER),
            parent: word(words, PARENT),
            sibling: word(words, SIBLING),
            own: word(words, OWN),
            children: word(words, CHILDREN),
        }
    }
}

impl Node {
    // Whether it names an operator as inner or sibling.
    pub(crate) fn names(self, operator: usize) -> bool
        ensures { result ≡ names_operator operator self }
    {
        (self.inner as usize == operator) | (self.sibling as usize == operator)
    }

    // Whether its operators are among so many, and its counts within their limits.
    pub(crate) fn is_right(self, operators: usize) -> bool
        ensures { result ≡ right_node operators self }
    {
        ((self.inner as usize) < operators)
            & ((self.parent as usize) < operators)
            & ((self.sibling as usize) < operators)
            & (self.own as usize <= MOST_ATOMS)
            & (self.children as usize <= MOST_CHILDREN)
    }
}
