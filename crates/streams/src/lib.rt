//! Where bytes come from and where they go. A reader and a writer can fail; an `Input` and an `Output` say themselves
//! whether one has, and keep the error, so that a function over them cannot give up and claim it.
#![tactic(auto)]

pub use crate::counter::{Counter, low};
pub use crate::ends::tell;
pub use crate::input::Input;
pub use crate::output::Output;
pub use crate::sink::Sink;

mod counter;
mod ends;
mod input;
mod output;
mod sink;
#[cfg(test)]
mod tests;
