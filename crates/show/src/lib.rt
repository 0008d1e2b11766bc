//! A listing's text: what the parts of its lines are, its first line, a row's line and a refusal's, and a table.
#![tactic(auto)]

ghost use Rattle.std.specs.Prelude.{ℕ, List};

mod parts;
mod sheet;

pub use parts::{Head, Line, PlainRefusal, plain};
pub use sheet::list_table;
use streams::Sink;

/// The rows that a listing has room for.
pub const ROOM: usize = 1024;

/// A value that has a text. No Display: its fmt may answer an error where a sink never does, and promises nothing then,
/// so that a text is always put could not be stated by it.
pub trait Text {
    /// The text of a value, byte by byte.
    ghost text: { Self → List ℕ };

    /// Puts the text of a value into a sink.
    fn put<S: Sink>(&self, sink: &mut S)
        ensures { S.gives sink.old (text self.now) sink.new };
}
