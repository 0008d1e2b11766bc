//! A policy as the words of a policy file, and a policy file as a policy with names made up.
#![tactic(auto)]

pub use crate::file::to_words;
pub use crate::made::{FromError, from_words};

mod file;
mod made;
