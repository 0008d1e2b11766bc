//! The walk over the tree's nodes, which puts a step for each rule and each node.

ghost use Rattle.std.specs.Prelude.{◌≡◌, ◌<◌, ◌≤◌, ◌++◌, length, take, drop, reverse, IfOk, Ok};
ghost use Rattle.policy.specs.Read.{read_of};
ghost use Rattle.policy.specs.File.{tree_of};
ghost use Rattle.row.specs.Row.{row_of};
ghost use Rattle.nodes.specs.Nodes.{cells_at};
ghost use Rattle.nodes.specs.Walk.{Reached};
ghost use Rattle.trace.specs.Settled.{rule_step, RulesSettled, TreeSettled, ChildrenSettled, AllSettled};

use crate::Asked;
use action::Action;
use flow::Match;
use nodes::{File, Spot, root};
use policy::{ATOM_WORDS, Layout};
use refusal::Refusal;
use row::row_action;
use std::alloc::{AllocError, Global};
use words::Spelling;

/// What one rule came to: whether it is met, what the rules behind it in its node came to, and what it and these came
/// to.
#[derive(Clone, Copy)]
pub struct RuleStep {
    pub met: bool,
    pub rest: Action,
    pub made: Action,
}

/// What one node came to: its own rules, its children, and both under its parent operator; the siblings behind it, and
/// it with these under the sibling operator of the node above. The root has no siblings: don't care, and itself.
#[derive(Clone, Copy)]
pub struct NodeStep {
    pub own: Action,
    pub below: Action,
    pub made: Action,
    pub rest: Action,
    pub joined: Action,
}

/// The steps in file order: step i is that of atom i, and of node i.
#[derive(Drop)]
pub struct Steps {
    pub rules: Vec<RuleStep>,
    pub nodes: Vec<NodeStep>,
}

/// Why a file gives no steps: memory ran out, or it is not accepted.
#[derive(Clone, Copy)]
pub enum StepsError {
    Memory,
    Refused(Refusal),
}

// A policy file and what it is asked.
#[derive(Clone, Copy)]
struct Query<'a, Q> {
    file: File<'a>,
    asked: &'a Q,
}

// The same of an accepted file: the root's step is set when the walk is behind it.
pub(crate) fn accepted_steps<Q: Asked>(
    alloc: Global,
    file: &[u32],
    layout: Layout,
    asked: &Q,
) -> Result<Steps, AllocError>
    requires { read_of file.now ≡ Ok layout }
    ensures { IfOk result (AllSettled (λ m q. Q.meets q m) asked.now (tree_of file.now layout)) }
{
    let query = Query {
        file: File { words: file },
        asked,
    };
    let mut steps = Steps {
        rules: Vec::new(alloc),
        nodes: Vec::new(alloc),
    };
    let mut at = root(layout);
    steps.nodes.push(NodeStep::UNSETTLED)?;
    let step = query.subtree(&mut at, &mut steps)?;
    steps.nodes[0] = step;
    Ok(steps)
}

impl NodeStep {
    // What stands in a node's place while the walk is below it.
    const UNSETTLED: NodeStep = NodeStep {
        own: Action::DONT_CARE,
        below: Action::DONT_CARE,
        made: Action::DONT_CARE,
        rest: Action::DONT_CARE,
        joined: Action::DONT_CARE,
    };
}

impl<Q: Asked> Query<'_, Q> {
    // What the root of the subtree at a place came to, as if it had no siblings. The place goes behind the subtree, and
    // the steps of its rules and of the nodes below its root are put. It and `children` call each other, as a node's
    // children are subtrees in turn: at each place the atoms start where those of the nodes before end, and fewer nodes
    // are left.
    #[cycle(children_subtree)]
    fn subtree(&self, at: &mut Spot, steps: &mut Steps) -> Result<NodeStep, AllocError>
        requires reached { Reached self.now.file.words.now at.old }
        requires there { 0 < at.old.nodes_left }
        ensures { IfOk result (TreeSettled (λ m q. Q.meets q m) self.now.asked.now
            self.now.file.words.now at.old steps.old steps.new at.new) }
    {
        let node = self.file.node_at(at.nodes_left);
        let atoms = self.file.atoms_at(at.next_atom, node.own);
        let own = self.own_rules(node.inner, atoms, &mut steps.rules)?;
        *at = at.behind_own(node);
        let below = self.children(at, node.sibling, node.children, steps)?;
        let made = self.file.join_at(node.parent, own, below);
        Ok(NodeStep {
            own,
            below,
            made,
            rest: Action::DONT_CARE,
            joined: made,
        })
    }

    // What so many children from a place on came to, folded from the last under a sibling operator. The place goes
    // behind them, and their steps are put, each in the place that it has in the file.
    #[cycle(children_subtree)]
    fn children(
        &self,
        at: &mut Spot,
        sibling: u32,
        count: u32,
        steps: &mut Steps,
    ) -> Result<Action, AllocError>
        requires { Reached self.now.file.words.now at.old }
        ensures { IfOk result (ChildrenSettled (λ m q. Q.meets q m) self.now.asked.now
            self.now.file.words.now at.old sibling count steps.old steps.new at.new) }
    {
        if (count == 0) | (at.nodes_left == 0) {
            return Ok(Action::DONT_CARE);
        }
        let place = steps.nodes.len();
        steps.nodes.push(NodeStep::UNSETTLED)?;
        let step = self.subtree(at, steps)?;
        let rest = self.children(at, sibling, count - 1, steps)?;
        let joined = self.file.join_at(sibling, step.made, rest);
        steps.nodes[place] = NodeStep {
            rest,
            joined,
            ..step
        };
        Ok(joined)
    }

    // What a node's own rules came to, folded from the last. Their steps are put.
    fn own_rules(
        &self,
        inner: u32,
        atoms: &[u32],
        rules: &mut Vec<RuleStep>,
    ) -> Result<Action, AllocError>
        ensures { IfOk result (RulesSettled (λ m q. Q.meets q m) self.now.asked.now
            (cells_at self.now.file.words.now inner) atoms.now rules.old.items rules.new.items) }
    {
        let first = rules.len();
        let mut given = Action::DONT_CARE;
        // The steps of the atoms gone over, which stand behind those that are left, are put from the last, and given is
        // what they came to.
        for atom in atoms.as_chunks::<ATOM_WORDS>().0.iter().rev() {
            let step = self.rule_step(inner, atom, given);
            rules.push(step)?;
            given = step.made;
        }
        reverse_from(rules, first);
        Ok(given)
    }

    // The step of one rule before the others. Its action is read only where its match is met.
    fn rule_step(&self, inner: u32, atom: &[u32], rest: Action) -> RuleStep
        ensures { result ≡ rule_step (λ m q. Q.meets q m) self.now.asked.now
            (cells_at self.now.file.words.now inner) (row_of atom.now) rest }
    {
        let met = self.asked.meets_match(Match::read(atom));
        if met {
            let made = self.file.join_at(inner, row_action(atom), rest);
            RuleStep { met, rest, made }
        } else {
            RuleStep {
                met,
                rest,
                made: rest,
            }
        }
    }
}

// Reverses the steps from one on.
fn reverse_from(rules: &mut Vec<RuleStep>, first: usize)
    requires { first ≤ length rules.old.items }
    ensures { rules.new.items
        ≡ take first rules.old.items ++ reverse (drop first rules.old.items) }
{
    rules[first..].reverse();
}
