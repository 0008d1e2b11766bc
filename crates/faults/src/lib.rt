//! The message of a fault: what is wrong in a text of the notation, where, and the likely cure. See docs/NOTATION.md,
//! "Messages".
#![tactic(auto)]

pub use crate::cure::{Advice, Cure};
pub use crate::message::put_message;
pub use crate::numbers::number;
pub use crate::word::Word;

mod cure;
mod cures;
mod forms;
mod message;
mod numbers;
mod phrases;
mod shown;
mod word;
