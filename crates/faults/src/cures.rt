//! The likely cure of a fault, by what was wanted and the word that was found.

ghost use Rattle.std.specs.Prelude.{◌≡◌};
ghost use Rattle.faults.specs.Cures.{actions, parts, name_cure, start_cure, blank_cure, cell_cure, block_cure};
ghost use Rattle.faults.specs.Cures.{line_cure, rule_cure, child_cure, action_cure, number_cure, rate_cure};
ghost use Rattle.faults.specs.Cures.{unit_cure, match_cure, protocol_cure, prefix_cure, side_cure, end_cure};

use crate::cure::{Advice, Cure};
use crate::forms::{
    begins_digit, begins_wrong, behind_digits, digits, dotted, ends_rule, is_prefix, leads_by_zero,
    marked, no_word, pointed, too_long, unit_meant,
};
use crate::word::{Word, any_word, own};
use tokens::{CLOSE, OPEN};
use values::{is_name, number_of};

// The largest port.
const MOST_PORT: u32 = 65535;

// Where a name is wanted.
pub(crate) fn name_cure(word: &[u8]) -> Cure
    ensures { result ≡ name_cure word.now }
{
    if begins_wrong(word) {
        Cure::Say(Advice::LetterFirst)
    } else if any_word(word, own()) {
        Cure::OwnWord
    } else if no_word(word) {
        Cure::Nothing
    } else {
        Cure::Say(Advice::NameBytes)
    }
}

// Where a text begins.
pub(crate) fn start_cure(word: &[u8]) -> Cure
    ensures { result ≡ start_cure word.now }
{
    if word == OPEN {
        Cure::Say(Advice::OwnCells)
    } else if digits(word) {
        Cure::Say(Advice::Words)
    } else {
        Cure::Nothing
    }
}

// Where a name stands behind a name.
pub(crate) fn blank_cure(word: &[u8]) -> Cure
    ensures { result ≡ blank_cure word.now }
{
    if is_name(word) {
        Cure::Say(Advice::NoBlanks)
    } else {
        Cure::Nothing
    }
}

// Where a cell is wanted.
pub(crate) fn cell_cure(word: &[u8]) -> Cure
    ensures { result ≡ cell_cure word.now }
{
    if any_word(word, &[Word::Larger, Word::Smaller, Word::Sum]) {
        Cure::Say(Advice::LastCell)
    } else {
        Cure::Nothing
    }
}

// Where a node's operators or its brace are wanted.
pub(crate) fn block_cure(word: &[u8]) -> Cure
    ensures { result ≡ block_cure word.now }
{
    if any_word(word, &[Word::Inside, Word::Between, Word::Below]) {
        Cure::Say(Advice::ClauseOrder)
    } else {
        blank_cure(word)
    }
}

// Where a rule is wanted.
pub(crate) fn line_cure(word: &[u8], colon: bool) -> Cure
    ensures { result ≡ line_cure word.now colon }
{
    if colon {
        name_cure(word)
    } else {
        rule_cure(word)
    }
}

// Where a rule is wanted, and no colon stands behind the word.
fn rule_cure(word: &[u8]) -> Cure
    ensures { result ≡ rule_cure word.now }
{
    if is_name(word) {
        Cure::Say(Advice::Colon)
    } else if any_word(word, actions()) {
        Cure::Say(Advice::Label)
    } else if any_word(word, parts()) {
        Cure::Say(Advice::PartOrder)
    } else if any_word(word, &[Word::Operator]) {
        Cure::Say(Advice::OperatorsFirst)
    } else if is_prefix(word) {
        Cure::Say(Advice::OnePrefix)
    } else if digits(word) {
        Cure::Say(Advice::PortBefore)
    } else {
        Cure::Nothing
    }
}

// Behind a node's end.
pub(crate) fn child_cure(word: &[u8]) -> Cure
    ensures { result ≡ child_cure word.now }
{
    if is_name(word) {
        Cure::Say(Advice::RulesFirst)
    } else if any_word(word, &[Word::Operator]) {
        Cure::Say(Advice::OperatorsFirst)
    } else {
        Cure::Nothing
    }
}

// Where an action is wanted.
pub(crate) fn action_cure(word: &[u8]) -> Cure
    ensures { result ≡ action_cure word.now }
{
    if digits(word) {
        Cure::Say(Advice::ReserveBefore)
    } else if any_word(word, &[Word::Any, Word::Never]) || any_word(word, parts()) {
        Cure::Say(Advice::ActionFirst)
    } else {
        Cure::Nothing
    }
}

// Where a number is wanted.
pub(crate) fn number_cure(word: &[u8]) -> Cure
    ensures { result ≡ number_cure word.now }
{
    if digits(word) && leads_by_zero(word) {
        Cure::Say(Advice::NoZeros)
    } else if digits(word) {
        Cure::Nothing
    } else if marked(word) {
        Cure::Say(Advice::NoMarks)
    } else {
        Cure::Nothing
    }
}

// Where a rate is wanted.
pub(crate) fn rate_cure(word: &[u8]) -> Cure
    ensures { result ≡ rate_cure word.now }
{
    if begins_digit(word) && unit_meant(behind_digits(word)).is_some() {
        Cure::Say(Advice::UnitBlank)
    } else if digits(word) {
        number_cure(word)
    } else if pointed(word) {
        Cure::Say(Advice::SmallerUnit)
    } else {
        number_cure(word)
    }
}

// Where a unit is wanted.
pub(crate) fn unit_cure(word: &[u8]) -> Cure
    ensures { result ≡ unit_cure word.now }
{
    match unit_meant(word) {
        Some(unit) => Cure::Mean(unit),
        None => Cure::Nothing,
    }
}

// Where a match is wanted.
pub(crate) fn match_cure(word: &[u8], colon: bool) -> Cure
    ensures { result ≡ match_cure word.now colon }
{
    if is_prefix(word) || any_word(word, &[Word::Port]) {
        Cure::Say(Advice::SideBefore)
    } else if digits(word) {
        Cure::Say(Advice::NumberBefore)
    } else if ends_rule(word, colon) {
        Cure::Say(Advice::AnyPacket)
    } else {
        Cure::Nothing
    }
}

// Where the number of a protocol is wanted.
pub(crate) fn protocol_cure(word: &[u8]) -> Cure
    ensures { result ≡ protocol_cure word.now }
{
    if any_word(word, &[Word::Tcp, Word::Udp, Word::Icmp]) {
        Cure::Say(Advice::ProtocolName)
    } else {
        number_cure(word)
    }
}

// Where a prefix is wanted.
pub(crate) fn prefix_cure(word: &[u8]) -> Cure
    ensures { result ≡ prefix_cure word.now }
{
    if any_word(word, &[Word::Any]) {
        Cure::Say(Advice::AnyAddress)
    } else if digits(word) {
        side_cure(number_of(word))
    } else if too_long(word) {
        Cure::Say(Advice::Length)
    } else if dotted(word) {
        Cure::Say(Advice::Octets)
    } else {
        Cure::Nothing
    }
}

// A number in the place of a prefix: above all ports it is an address as one number.
fn side_cure(found: Option<u32>) -> Cure
    ensures { result ≡ side_cure found }
{
    match found {
        Some(number) if MOST_PORT < number => Cure::MeanAddress(number),
        Some(_) => Cure::Say(Advice::PortBefore),
        None => Cure::Say(Advice::Octets),
    }
}

// Behind the root.
pub(crate) fn end_cure(word: &[u8]) -> Cure
    ensures { result ≡ end_cure word.now }
{
    if any_word(word, &[Word::Node]) {
        Cure::Say(Advice::OneRoot)
    } else if word == CLOSE {
        Cure::Say(Advice::TooManyEnds)
    } else if any_word(word, &[Word::Operator]) {
        Cure::Say(Advice::OperatorsFirst)
    } else if is_name(word) {
        Cure::Say(Advice::RuleInside)
    } else {
        Cure::Nothing
    }
}

// The words of actions.
fn actions() -> &'static [Word]
    ensures { result.now ≡ actions }
{
    &[Word::Allow, Word::Deny, Word::Reserve, Word::None]
}

// The words of the parts of a match.
fn parts() -> &'static [Word]
    ensures { result.now ≡ parts }
{
    &[
        Word::In,
        Word::Protocol,
        Word::Tcp,
        Word::Udp,
        Word::Icmp,
        Word::From,
        Word::To,
        Word::Port,
    ]
}
