//! The laws of the operators that some node names as inner or sibling.

ghost use Rattle.std.specs.Prelude.{◌≡◌, ◌/◌, length};
ghost use Rattle.words.specs.Records.{records};
ghost use Rattle.policy.specs.Numbers.{operator_length_in};
ghost use Rattle.policy.specs.Cells.{operator_row, operator_rows};
ghost use Rattle.policy.specs.Whole.{nodes_by_words, named, broken, operator_fault, laws_fault};

use crate::Edition;
use crate::nodes::Nodes;
use action::LawFailure;
use refusal::{Reason, Refusal};

// The first operator, by index, that some node names and that breaks a law.
#[tactic(auto, using(crate::proofs::NodeWords::operator_turn), unfolding(crate::specs::Whole::laws_fault))]
pub(crate) fn laws_fault(nodes: &[u32], operators: &[u32], edition: Edition) -> Result<(), Refusal>
    ensures { result ≡ laws_fault (nodes_by_words nodes.now)
        (operator_rows edition
        (records (length operators.now / operator_length_in edition) (operator_length_in edition)
        operators.now)) }
{
    let step = edition.words().operator;
    // The operators before operator i keep the laws or are not named.
    for (i, operator) in operators.chunks_exact(step).enumerate() {
        operator_fault(operator, i, edition, nodes)?;
    }
    Ok(())
}

#[tactic(auto, using(crate::proofs::NodeWords::tested, crate::proofs::NodeWords::untested))]
fn operator_fault(words: &[u32], i: usize, edition: Edition, nodes: &[u32]) -> Result<(), Refusal>
    ensures { result ≡ operator_fault (nodes_by_words nodes.now) i (operator_row edition words.now) }
{
    if is_named(nodes, i) {
        broken(edition.operator(words).law_search(), i)
    } else {
        Ok(())
    }
}

// Whether some node names an operator as inner or sibling.
fn is_named(nodes: &[u32], operator: usize) -> bool
    ensures { result ≡ named operator (nodes_by_words nodes.now) }
{
    Nodes::of(nodes).any(|node| node.names(operator))
}

// The refusal for a broken law of the operator at an index.
fn broken(found: Result<(), LawFailure>, place: usize) -> Result<(), Refusal>
    ensures { result ≡ broken place found }
{
    found.map_err(|failure| Reason::LawBroken(failure).at(place))
}
