//! Policies that people write: a text is read as a policy, or gets its first fault. See docs/NOTATION.md.
#![tactic(auto)]

pub use crate::entries::{NamedNode, NamedOperator, Rule};
pub use crate::fault::{Fault, ReadError, Reason, Wanted};
pub use crate::text::read;
pub use crate::whole::Policy;

mod entries;
mod expect;
mod fault;
mod nodes;
mod operators;
mod rules;
mod text;
mod whole;
