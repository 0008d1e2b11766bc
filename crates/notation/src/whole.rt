//! A policy as a text gives it.

ghost use Rattle.std.specs.Prelude.{◌≡◌};
ghost use Rattle.notation.specs.Right.{RightEntries};
ghost use Rattle.notation.specs.OneProof.{right-prop};
ghost use Rattle.notation.specs.Views.{entries};

use crate::{NamedNode, NamedOperator};

/// A policy that a text can give: its operators, and its nodes, each before those inside it. Names are names and
/// differ, cells, matches and actions are right, the nodes are one tree, and the limits of a file are kept.
#[derive(Drop)]
pub struct Policy {
    operators: Vec<NamedOperator>,
    nodes: Vec<NamedNode>,
    ghost right: { RightEntries (entries operators.items nodes.items) } by { right-prop _ },
}

impl Policy {
    /// A policy of operators and nodes that are right: what is required is the invariant of the type itself.
    pub fn new(operators: Vec<NamedOperator>, nodes: Vec<NamedNode>) -> Policy
        requires { RightEntries (entries operators.items nodes.items) }
        ensures operators { result.operators ≡ operators }
        ensures nodes { result.nodes ≡ nodes }
    {
        Policy { operators, nodes }
    }

    /// Its operators.
    pub fn operators(&self) -> &[NamedOperator]
        ensures { result.now ≡ self.now.operators.items }
    {
        &self.operators
    }

    /// Its nodes, each before those inside it.
    pub fn nodes(&self) -> &[NamedNode]
        ensures { result.now ≡ self.now.nodes.items }
    {
        &self.nodes
    }
}
