//! Whether the nodes are one tree of the depth allowed, and their own-atom counts.

ghost use Rattle.std.specs.Prelude.{◌≡◌, ◌≤◌, length};
ghost use Rattle.policy.specs.Numbers.{most_nodes};
ghost use Rattle.policy.specs.Whole.{nodes_by_words, shape_fault, own_atoms, sum_fault, Innermost};

use crate::NODE_WORDS;
use crate::nodes::Nodes;
use crate::sections::unless;
use arrayvec::ArrayVec;
use refusal::{Reason, Refusal};

// The root has depth 1.
const DEEPEST: usize = 16;

const MOST_OPEN: usize = DEEPEST + 1;

// The children still to come of each open node, the innermost last; the first count is for the root.
type Waiting = ArrayVec<u32, MOST_OPEN>;

// The first node that the tree has no place for: it had ended, or the node is too deep; or the node
// count, if children are missing.
pub(crate) fn shape_fault(nodes: &[u32]) -> Result<(), Refusal>
    ensures { result ≡ shape_fault (nodes_by_words nodes.now) }
{
    let mut waiting = Waiting::new();
    waiting.push(1);
    // The nodes before node i have a place.
    for (i, node) in Nodes::of(nodes).enumerate() {
        match take_parent(&mut waiting) {
            Some(count) if waiting.len() < DEEPEST => {
                waiting.push(count - 1);
                waiting.push(node.children);
            }
            _ => return Err(Reason::NoTree.at(i)),
        }
    }
    let ended = take_parent(&mut waiting).is_none();
    unless(ended, Reason::NoTree, nodes.len() / NODE_WORDS)
}

// Takes the nodes off that have all their children, and the innermost that waits; says for how many
// it does.
fn take_parent(waiting: &mut Waiting) -> Option<u32>
    ensures { Innermost waiting.old.items waiting.new.items result }
{
    while let Some(count) = waiting.pop() {
        if count != 0 {
            return Some(count);
        }
    }
    None
}

// Whether the own-atom counts add up to the atoms.
#[tactic(auto, unfolding(crate::specs::Whole::sum_fault))]
pub(crate) fn sum_fault(nodes: &[u32], atoms: usize) -> Result<(), Refusal>
    requires { length (nodes_by_words nodes.now) ≤ most_nodes }
    ensures { result ≡ sum_fault (nodes_by_words nodes.now) atoms }
{
    unless(own_atoms(nodes) == atoms, Reason::WrongSum, 0)
}

// How many atoms the nodes take together.
fn own_atoms(nodes: &[u32]) -> usize
    requires { length (nodes_by_words nodes.now) ≤ most_nodes }
    ensures { result ≡ own_atoms (nodes_by_words nodes.now) }
{
    Nodes::of(nodes).map(|node| node.own as usize).sum()
}
