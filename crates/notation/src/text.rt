//! Reading a text.

ghost use Rattle.notation.specs.Reads.{Gives};
ghost use Rattle.notation.specs.Nodes.{read_of};
ghost use Rattle.notation.specs.Whole.{entries_of};

use crate::expect::wrong;
use crate::nodes::read_nodes;
use crate::operators::read_operators;
use crate::{Policy, ReadError, Wanted};
use std::alloc::Global;
use tokens::Tokens;

/// The policy that a text gives, or its first fault. Any bytes are a text.
pub fn read(alloc: Global, text: &[u8]) -> Result<Policy, ReadError>
    ensures { Gives entries_of result (read_of text.now) }
{
    let mut tokens = Tokens::of(text);
    let mut operators = read_operators(alloc, &mut tokens)?;
    let nodes = read_nodes(alloc, &mut operators, &mut tokens)?;
    if !tokens.ended() {
        return Err(wrong(Wanted::End, &tokens).into());
    }
    Ok(Policy::new(operators, nodes))
}
