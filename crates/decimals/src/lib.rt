//! A policy file as a text of decimal words, read and put.
#![tactic(auto)]

pub use crate::lines::put_words;
pub use crate::numbers::{ReadError, begins_with_digit, read};

mod lines;
mod numbers;
