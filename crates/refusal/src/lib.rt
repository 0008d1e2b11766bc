//! Refusals: what a function that takes a policy file or a table gives where it has no result.
#![tactic(auto)]

ghost use Rattle.std.specs.Prelude.{◌≡◌};
ghost use Rattle.refusal.specs.Refusals.{reason_number, failure_of, refusal_at};

use action::LawFailure;
use flow::InvalidPacket;

/// Why a file, a packet, a table or a buffer is refused.
#[derive(Clone, Copy, PartialEq, Eq)]
pub enum Reason {
    /// The file ends before a count or inside a counted section.
    ShortFile,
    /// A count is beyond its limits.
    WrongCount,
    /// A cell has a code that is wrong there.
    WrongCell,
    /// An atom has a wrong match.
    WrongMatch,
    /// An atom has a wrong action.
    WrongAction,
    /// An operator index, own-atom count or child count is too large.
    WrongNode,
    /// Words stand after the last node.
    ExtraWords,
    /// The nodes are not one tree, or it is too deep.
    NoTree,
    /// The own-atom counts do not add up to the atoms.
    WrongSum,
    /// An operator breaks a law.
    LawBroken(LawFailure),
    /// Words are no packet.
    WrongPacket,
    /// There are more rows than room.
    NoRoom,
    /// Scratch is too short for the room.
    NoScratch,
    /// A table is not whole rows, or has too many.
    WrongTable,
    /// A row is wrong, or no packet can meet its match.
    WrongRow,
    /// A priority or chain buffer is shorter than the row count.
    ShortBuffer,
    /// The bytes of a file are not whole words, or too many.
    WrongInput,
    /// The words of a capture are not whole packets, or too many.
    WrongCapture,
    /// A buffer is too short for what is found for the packets of a capture.
    ShortAnswers,
    /// The bytes of a buffer are not whole words, or those of an answer not four.
    WrongBytes,
}

impl Reason {
    /// The number that a caller gets.
    pub fn number(self) -> u32
        ensures { result ≡ reason_number self }
    {
        match self {
            Reason::ShortFile => 1,
            Reason::WrongCount => 2,
            Reason::WrongCell => 3,
            Reason::WrongMatch => 4,
            Reason::WrongAction => 5,
            Reason::WrongNode => 6,
            Reason::ExtraWords => 7,
            Reason::NoTree => 8,
            Reason::WrongSum => 9,
            Reason::LawBroken(_) => 10,
            Reason::WrongPacket => 11,
            Reason::NoRoom => 12,
            Reason::NoScratch => 13,
            Reason::WrongTable => 15,
            Reason::WrongRow => 16,
            Reason::ShortBuffer => 17,
            Reason::WrongInput => 18,
            Reason::WrongCapture => 19,
            Reason::ShortAnswers => 20,
            Reason::WrongBytes => 21,
        }
    }

    /// The broken law and the actions that show it, if it is that.
    pub fn failure(self) -> Option<LawFailure>
        ensures { result ≡ failure_of self }
    {
        match self {
            Reason::LawBroken(failure) => Some(failure),
            _ => None,
        }
    }

    /// The refusal for it at a place.
    pub fn at(self, place: usize) -> Refusal
        ensures { result ≡ refusal_at self place }
    {
        Refusal {
            reason: self,
            place,
        }
    }
}

/// Why something is refused, and at which place of what was handed in.
#[derive(Clone, Copy, PartialEq, Eq)]
pub struct Refusal {
    pub reason: Reason,
    pub place: usize,
}

// Words that are no packet are refused at place 0.
impl From<InvalidPacket> for Refusal {
    ghost use Rattle.std.specs.Prelude.{◌≡◌};
    ghost use Rattle.refusal.specs.Refusals.{refusal_at};
    ghost use Rattle.refusal.specs.declared.Reason.TheVariants.{WrongPacket};

    ghost from_gives = { λ e r. r ≡ refusal_at WrongPacket 0 };

    fn from(_: InvalidPacket) -> Refusal {
        Reason::WrongPacket.at(0)
    }
}
