//! The calls of the program `answers`: how each is taken from an input, and how its reply is put into a sink as words.
//! What they look like stands in tests/README.md.
#![tactic(auto)]

ghost use Rattle.calls.specs.Theorems.{Theorems};

mod calls;
mod draft;
mod put;
mod replies;

pub use crate::calls::Room;
pub use crate::put::put_words;
pub use crate::replies::{
    Reply, TableRefusal, Value, reply_agent_number, reply_agent_scan, reply_capture, reply_compile,
    reply_hidden, reply_list, reply_number,
};

/// What is proved of the calls that are found in bytes. It does nothing: its contract is the statement.
pub fn theorems()
    ensures { Theorems }
{}
