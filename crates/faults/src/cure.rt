//! The likely cure of a fault.

ghost use Rattle.std.specs.Prelude.{◌≡◌};
ghost use Rattle.tokens.specs.Left.{left};
ghost use Rattle.faults.specs.Cures.{tokens_at, word_at, cure_of, wanted_cure, meant_at, other_cure, operator_cure};

use crate::cures::{
    action_cure, blank_cure, block_cure, cell_cure, child_cure, end_cure, line_cure, match_cure,
    name_cure, number_cure, prefix_cure, protocol_cure, rate_cure, start_cure, unit_cure,
};
use crate::forms::marked_utf8;
use crate::word::{Word, any_word, candidates, meant, own};
use field::Prefix;
use notation::{Fault, Reason, Wanted};
use tokens::{COLON, Tokens};
use values::is_name;

/// What to do, where the words don't depend on the text.
#[derive(Clone, Copy, PartialEq, Eq)]
pub enum Advice {
    /// The text begins with the bytes EF BB BF.
    ByteOrderMark,
    /// A number stands where a text begins.
    Words,
    /// Cells behind `sibling` or `parent`.
    OwnCells,
    /// A name that begins with a digit, - or _.
    LetterFirst,
    /// A name with another byte.
    NameBytes,
    /// A second name behind a name.
    NoBlanks,
    /// Another word than a heading.
    Headings,
    /// A code of rates in another cell.
    LastCell,
    /// The operators of a node in another order, or one of them twice.
    ClauseOrder,
    /// A rule that begins with its action.
    Label,
    /// A rule's name without a colon.
    Colon,
    /// The parts of a match in another order.
    PartOrder,
    /// A second prefix behind one.
    OnePrefix,
    /// A number behind a prefix, or in its place.
    PortBefore,
    /// A rule behind a node's child.
    RulesFirst,
    /// An operator behind the root's word.
    OperatorsFirst,
    /// A rate without its word.
    ReserveBefore,
    /// A match without an action.
    ActionFirst,
    /// A number with commas or low lines.
    NoMarks,
    /// A number with a zero before it.
    NoZeros,
    /// A rate with a point.
    SmallerUnit,
    /// A rate and its unit in one word.
    UnitBlank,
    /// A prefix or a port without its side.
    SideBefore,
    /// A number without the word that says what it is.
    NumberBefore,
    /// A rule without a match.
    AnyPacket,
    /// The name of a protocol where its number is wanted.
    ProtocolName,
    /// A prefix length above 32.
    Length,
    /// Digits and dots that are no address.
    Octets,
    /// `any` in the place of a prefix.
    AnyAddress,
    /// A node behind the root.
    OneRoot,
    /// A closing brace behind the root's.
    TooManyEnds,
    /// A rule behind the root.
    RuleInside,
    /// A node that is not closed.
    CloseNode,
}

/// A likely cure.
#[derive(Clone, Copy, PartialEq, Eq)]
pub enum Cure {
    /// None is known.
    Nothing,
    /// Another word was meant.
    Mean(Word),
    /// The word at a place was meant.
    MeanAt(usize),
    /// An address was meant that was written as one number.
    MeanAddress(u32),
    /// The prefix without the bits behind its length, or its address alone.
    MeanPrefix(Prefix),
    /// The word is none that a name can be.
    OwnWord,
    /// What to do.
    Say(Advice),
}

// The words from a place on; where a word starts, it is the first of them.
#[tactic(auto, unfolding(crate::specs::Cures::tokens_at))]
fn tokens_at(text: &[u8], at: usize) -> Tokens
    ensures { left result ≡ tokens_at text.now at }
{
    Tokens::of(&text[at.min(text.len())..])
}

// The word at a place; no bytes at the end.
pub(crate) fn word_at(text: &[u8], at: usize) -> &[u8]
    ensures { result.now ≡ word_at text.now at }
{
    tokens_at(text, at).word()
}

// The cure of a fault.
pub(crate) fn cure_of(text: &[u8], fault: Fault) -> Cure
    ensures { result ≡ cure_of text.now fault }
{
    let mut tokens = tokens_at(text, fault.at);
    let word = tokens.word();
    match fault.reason {
        Reason::Unexpected(wanted) => {
            if marked_utf8(Tokens::of(text).word()) {
                return Cure::Say(Advice::ByteOrderMark);
            }
            tokens.advance();
            wanted_cure(wanted, word, tokens.is(COLON))
        }
        Reason::Unknown(near) => operator_cure(near, word),
        Reason::HostBits(prefix) => Cure::MeanPrefix(prefix),
        Reason::Unclosed(_) => Cure::Say(Advice::CloseNode),
        _ => Cure::Nothing,
    }
}

// Where another word stands than one that is wanted.
fn wanted_cure(wanted: Wanted, word: &[u8], colon: bool) -> Cure
    ensures { result ≡ wanted_cure wanted word.now colon }
{
    match meant_at(wanted, word, colon) {
        Some(meant) => Cure::Mean(meant),
        None => other_cure(wanted, word, colon),
    }
}

// The wanted word that was meant: none before a colon, and none by a word that the notation has.
fn meant_at(wanted: Wanted, word: &[u8], colon: bool) -> Option<Word>
    ensures { result ≡ meant_at wanted word.now colon }
{
    if colon || any_word(word, own()) {
        None
    } else {
        meant(word, candidates(wanted))
    }
}

// Where no wanted word can have been meant.
fn other_cure(wanted: Wanted, word: &[u8], colon: bool) -> Cure
    ensures { result ≡ other_cure wanted word.now colon }
{
    match wanted {
        Wanted::Start => start_cure(word),
        Wanted::OperatorName | Wanted::NodeName => name_cure(word),
        Wanted::Table => blank_cure(word),
        Wanted::AllowHeading | Wanted::DenyHeading | Wanted::ReserveHeading => {
            Cure::Say(Advice::Headings)
        }
        Wanted::Cell => cell_cure(word),
        Wanted::RateCell | Wanted::TableEnd => Cure::Nothing,
        Wanted::Block => block_cure(word),
        Wanted::Line => line_cure(word, colon),
        Wanted::NodeOrEnd => child_cure(word),
        Wanted::Action => action_cure(word),
        Wanted::Rate => rate_cure(word),
        Wanted::Unit => unit_cure(word),
        Wanted::Match => match_cure(word, colon),
        Wanted::Port => number_cure(word),
        Wanted::Protocol => protocol_cure(word),
        Wanted::Prefix => prefix_cure(word),
        Wanted::End => end_cure(word),
    }
}

// Where there is no operator of a name, and perhaps one near it at a place.
fn operator_cure(near: Option<usize>, word: &[u8]) -> Cure
    ensures { result ≡ operator_cure near word.now }
{
    if !is_name(word) {
        return name_cure(word);
    }
    match (meant(word, &[Word::Sibling, Word::Parent]), near) {
        (Some(meant), _) => Cure::Mean(meant),
        (None, Some(place)) => Cure::MeanAt(place),
        (None, None) => Cure::Nothing,
    }
}
