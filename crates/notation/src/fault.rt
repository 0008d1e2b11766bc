//! What is wrong in a text.

use field::Prefix;
use std::alloc::{AllocError, AllocFailed};

/// What was wanted where another word stands.
#[derive(Clone, Copy, PartialEq, Eq)]
pub enum Wanted {
    /// `operator` or `node`, where a text begins and behind an operator.
    Start,
    /// A name for an operator.
    OperatorName,
    /// `{` before an operator's cells.
    Table,
    /// `allow`, before a line of an operator's cells or over a column.
    AllowHeading,
    /// `deny`, before a line or over a column.
    DenyHeading,
    /// `reserve`, before a line or over a column.
    ReserveHeading,
    /// `allow`, `deny`, `left` or `right`.
    Cell,
    /// The same, or `larger`, `smaller` or `sum`.
    RateCell,
    /// `}` behind an operator's cells.
    TableEnd,
    /// A name for a node.
    NodeName,
    /// `inside`, `between` or `below` with an operator, in this order, or `{`.
    Block,
    /// A rule, which is a name and a colon first, or `node`, or `}`.
    Line,
    /// `node` or `}`, behind a node's end.
    NodeOrEnd,
    /// `allow`, `deny`, `reserve` or `none`.
    Action,
    /// A number of kbit/s, Mbit/s or Gbit/s.
    Rate,
    /// `kbit/s`, `Mbit/s` or `Gbit/s`.
    Unit,
    /// `any`, `never`, or `in`, a protocol, `from` or `to`.
    Match,
    /// A number of at most 65,535.
    Port,
    /// A number of at most 255.
    Protocol,
    /// A prefix, or `port`, behind `from` and `to`.
    Prefix,
    /// Nothing, behind the end of the root.
    End,
}

/// What is wrong at a place of a text. Places are counted in bytes from 0.
#[derive(Clone, Copy, PartialEq, Eq)]
pub enum Reason {
    /// Another word was wanted.
    Unexpected(Wanted),
    /// The name is given already, at a place.
    Twice(usize),
    /// There is no operator of this name; the place of one whose name differs by a byte.
    Unknown(Option<usize>),
    /// The address has bits behind the prefix length.
    HostBits(Prefix),
    /// A rate below 1 kbit/s or above 100,000,000.
    WrongRate,
    /// More than 32 operators.
    TooManyOperators,
    /// More than 1,024 rules.
    TooManyRules,
    /// More than 256 nodes.
    TooManyNodes,
    /// A node more than 16 deep.
    TooDeep,
    /// The text ends in a node, whose name stands at a place.
    Unclosed(usize),
}

/// The first fault of a text, and the byte where the word starts that is wrong.
#[derive(Clone, Copy, PartialEq, Eq)]
pub struct Fault {
    /// The byte, counted from 0.
    pub at: usize,
    /// What is wrong there.
    pub reason: Reason,
}

/// Why a text is not read: its first fault, or no memory.
#[derive(Drop)]
pub enum ReadError {
    /// No memory.
    Memory,
    /// The first fault.
    Fault(Fault),
}

impl From<AllocError> for ReadError {
    ghost use Rattle.std.specs.Prelude.{◌≡◌};
    ghost use Rattle.notation.specs.declared.fault.ReadError.TheVariants.{Memory};

    ghost from_gives = { λ _ e. e ≡ Memory };

    fn from(_: AllocError) -> ReadError {
        ReadError::Memory
    }
}

impl<T: Drop> From<AllocFailed<T>> for ReadError {
    ghost use Rattle.std.specs.Prelude.{◌≡◌};
    ghost use Rattle.notation.specs.declared.fault.ReadError.TheVariants.{Memory};

    ghost from_gives = { λ _ e. e ≡ Memory };

    fn from(_: AllocFailed<T>) -> ReadError {
        ReadError::Memory
    }
}

impl From<Fault> for ReadError {
    ghost use Rattle.std.specs.Prelude.{◌≡◌};
    ghost use Rattle.notation.specs.declared.fault.ReadError.TheVariants as errors;

    ghost from_gives = { λ f e. e ≡ errors.Fault f };

    fn from(fault: Fault) -> ReadError {
        ReadError::Fault(fault)
    }
}
