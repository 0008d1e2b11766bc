//! The canonical text of a policy: each policy has one. See docs/NOTATION.md, "Canonical text".
#![tactic(auto)]

ghost use Rattle.std.specs.Prelude.{◌≡◌, IfOk};
ghost use Rattle.notation.specs.Whole.{entries_of};
ghost use Rattle.canon.specs.Text.{canonical};

pub use kept::Kept;
pub use matches::{put_address, put_match};
use nodes::put_nodes;
use notation::Policy;
use operators::put_operators;
pub use rules::put_action;
use std::alloc::{AllocError, Global};
use streams::Sink;

mod kept;
mod matches;
mod nodes;
mod operators;
mod parts;
mod rules;

/// Puts the canonical text of a policy into a sink, byte by byte in ASCII.
pub fn put_policy<S: Sink>(policy: &Policy, sink: &mut S)
    ensures { S.gives sink.old (canonical (entries_of policy.now)) sink.new }
{
    put_operators(policy.operators(), sink);
    put_nodes(policy.operators(), policy.nodes(), sink);
}

/// The canonical text of a policy, byte by byte in ASCII.
pub fn text_of(alloc: Global, policy: &Policy) -> Result<Vec<u8>, AllocError>
    ensures { IfOk result (λ text. text.items ≡ canonical (entries_of policy.now)) }
{
    let mut kept = Kept::new(alloc);
    put_policy(policy, &mut kept);
    kept.into_bytes()
}
