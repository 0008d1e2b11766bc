//! The tree's action: what a policy file says of a packet.
#![tactic(auto)]

ghost use Rattle.std.specs.Prelude.{◌≡◌, ◌<◌, Ok};
ghost use Rattle.policy.specs.Read.{read_of};
ghost use Rattle.row.specs.Row.{row_of};
ghost use Rattle.nodes.specs.Nodes.{cells_at};
ghost use Rattle.nodes.specs.Walk.{Reached};
ghost use Rattle.tree.specs.Action.{tree_action_of, accepted_action};
ghost use Rattle.tree.specs.Steps.{own_action, with_atom, TreeGave, ChildrenGave};

use action::Action;
use flow::{Match, Packet};
use nodes::{File, Spot, root};
use policy::{ATOM_WORDS, Layout, read};
use refusal::Refusal;
use row::row_action;
use words::Spelling;

// A policy file and the packet that it is asked about.
#[derive(Clone, Copy)]
struct Query<'a> {
    file: File<'a>,
    packet: Packet,
}

/// What the policy in a file says of a packet.
#[tactic(auto, unfolding(crate::specs::Action::tree_action_of))]
pub fn tree_action(file: &[u32], packet: &[u32]) -> Result<Action, Refusal>
    ensures { result ≡ tree_action_of file.now packet.now }
{
    let layout = read(file)?;
    accepted_action(file, layout, packet)
}

// The same of an accepted file: the packet is tested, and the walk starts at the root.
fn accepted_action(file: &[u32], layout: Layout, packet: &[u32]) -> Result<Action, Refusal>
    requires { read_of file.now ≡ Ok layout }
    ensures { result ≡ accepted_action file.now layout packet.now }
{
    let query = Query {
        file: File { words: file },
        packet: Packet::try_from(packet)?,
    };
    let mut at = root(layout);
    Ok(query.subtree(&mut at))
}

impl Query<'_> {
    // The action of the subtree at a place, which goes behind it: the node's own on the left, its
    // children's on the right. It and `children` call each other, as a node's children are subtrees in
    // turn: at each place the atoms start where those of the nodes before end, and fewer nodes are left.
    #[cycle(children_subtree)]
    fn subtree(&self, at: &mut Spot) -> Action
        requires reached { Reached self.now.file.words.now at.old }
        requires there { 0 < at.old.nodes_left }
        ensures { TreeGave self.now.file.words.now at.old self.now.packet result at.new }
    {
        let node = self.file.node_at(at.nodes_left);
        let atoms = self.file.atoms_at(at.next_atom, node.own);
        let own = self.own_action(node.inner, atoms);
        *at = at.behind_own(node);
        let below = self.children(at, node.sibling, node.children);
        self.file.join_at(node.parent, own, below)
    }

    // The action of so many children from a place on, which goes behind them, folded from the last
    // under a sibling operator.
    #[cycle(children_subtree)]
    fn children(&self, at: &mut Spot, sibling: u32, count: u32) -> Action
        requires { Reached self.now.file.words.now at.old }
        ensures { ChildrenGave self.now.file.words.now at.old sibling count self.now.packet result
            at.new }
    {
        if (count == 0) | (at.nodes_left == 0) {
            return Action::DONT_CARE;
        }
        let first = self.subtree(at);
        let rest = self.children(at, sibling, count - 1);
        self.file.join_at(sibling, first, rest)
    }

    // A node's own action: its matching atoms, folded from the last.
    fn own_action(&self, inner: u32, atoms: &[u32]) -> Action
        ensures { result
            ≡ own_action (cells_at self.now.file.words.now inner) atoms.now self.now.packet }
    {
        let mut given = Action::DONT_CARE;
        // given is the action of the atoms gone over, which stand behind those that are left.
        for atom in atoms.as_chunks::<ATOM_WORDS>().0.iter().rev() {
            given = self.with_atom(inner, atom, given);
        }
        given
    }

    // One atom before the others. Its action is read only where its match is met.
    fn with_atom(&self, inner: u32, atom: &[u32], rest: Action) -> Action
        ensures { result
            ≡ with_atom (cells_at self.now.file.words.now inner) (row_of atom.now) self.now.packet rest }
    {
        if Match::read(atom).meets(self.packet) {
            self.file.join_at(inner, row_action(atom), rest)
        } else {
            rest
        }
    }
}
