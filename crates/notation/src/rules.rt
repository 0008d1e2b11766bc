//! Rules: a label, an action and a match.

ghost use Rattle.std.specs.Prelude.{◌≡◌, ◌*◌, [], Some, None, if◌then◌else◌};
ghost use Rattle.action.specs.Action.{right_rate};
ghost use Rattle.tokens.specs.Left.{left};
ghost use Rattle.notation.specs.Reads.{gave, Reads};
ghost use Rattle.notation.specs.Rules.{rate_at, action_at, optional_port, protocol_at, prefix_at, side_at, match_from};
ghost use Rattle.notation.specs.Rules.{parts_at, starts_part, match_at, label_place, labelled, body_at, rule_at};
ghost use Rattle.notation.specs.Rules.{flag_if, ends_rules, rules_at};
ghost use Rattle.notation.specs.Views.{rule_entry, rule_entries};

use crate::expect::{fault, number, value, wrong};
use crate::{Fault, ReadError, Reason, Rule, Wanted};
use action::{Action, LARGEST_RATE};
use field::Prefix;
use flow::{DESTINATION_PORT, IN_PORT, Match, PROTOCOL, SOURCE_PORT};
use row::Row;
use std::alloc::Global;
use tokens::{CLOSE, COLON, Tokens};
use values::{
    ALLOW, ANY, DENY, FROM, IN, NEVER, NODE, NONE, NoPrefix, PORT, PROTOCOL as PROTOCOL_WORD,
    RESERVE, TO, is_name, number_of, prefix_of, protocol_of, unit_of,
};

// The largest port.
const LARGEST_PORT: u32 = 65_535;

// The largest protocol.
const LARGEST_PROTOCOL: u32 = 255;

// A side of a match.
#[derive(Clone, Copy)]
struct Side {
    prefix: Prefix,
    port: Option<u32>,
}

// The prefix of all addresses.
const ALL: Prefix = Prefix {
    address: 0,
    length: 0,
};

// A side that constrains nothing.
const OPEN_SIDE: Side = Side {
    prefix: ALL,
    port: None,
};

// The rules of a node, where there is room for so many.
pub(crate) fn read_rules(
    alloc: Global,
    room: usize,
    tokens: &mut Tokens,
) -> Result<Vec<Rule>, ReadError>
    ensures { Reads (λ rs. rule_entries rs.items) result (left tokens.new)
        (rules_at room [] (left tokens.old)) }
{
    let mut rules = Vec::new(alloc);
    // What is read behind the rules so far is what is read behind none.
    while !ends_rules(tokens) {
        if rules.len() == room {
            return Err(fault(Reason::TooManyRules, tokens).into());
        }
        let rule = read_rule(alloc, &rules, tokens)?;
        rules.push(rule)?;
    }
    Ok(rules)
}

// Whether no rule comes: a node starts or ends, or the text does.
#[tactic(auto, unfolding(crate::specs::Rules::ends_rules))]
fn ends_rules(tokens: &Tokens) -> bool
    ensures { result ≡ ends_rules (left tokens.now) }
{
    tokens.is(CLOSE) || tokens.is(NODE) || tokens.ended()
}

// A rule, behind those of its node.
#[tactic(auto, unfolding(crate::specs::Rules::rule_at))]
fn read_rule(alloc: Global, rules: &[Rule], tokens: &mut Tokens) -> Result<Rule, ReadError>
    ensures { Reads rule_entry result (left tokens.new)
        (rule_at (rule_entries rules.now) (left tokens.old)) }
{
    if !labelled(tokens) {
        return Err(wrong(Wanted::Line, tokens).into());
    }
    if let Some(place) = label_place(tokens.word(), rules) {
        return Err(fault(Reason::Twice(place), tokens).into());
    }
    read_body(alloc, tokens)
}

// Whether a rule starts here.
fn labelled(tokens: &Tokens) -> bool
    ensures { result ≡ labelled (left tokens.now) }
{
    let mut behind = *tokens;
    behind.advance();
    is_name(tokens.word()) && behind.is(COLON)
}

// Where the rule of a label stands.
fn label_place(label: &[u8], rules: &[Rule]) -> Option<usize>
    ensures { result ≡ label_place label.now (rule_entries rules.now) }
{
    for rule in rules {
        if rule.label.as_slice() == label {
            return Some(rule.at);
        }
    }
    None
}

// A rule, whose label is the first word.
#[tactic(auto, unfolding(crate::specs::Rules::body_at))]
fn read_body(alloc: Global, tokens: &mut Tokens) -> Result<Rule, ReadError>
    ensures { Reads rule_entry result (left tokens.new) (body_at (left tokens.old)) }
{
    let at = tokens.at();
    let label = tokens.word();
    tokens.advance();
    tokens.advance();
    let action = read_action(tokens)?;
    let matching = read_match(tokens)?;
    let label = Vec::from_slice(alloc, label)?;
    Ok(Rule {
        label,
        at,
        row: Row { matching, action },
    })
}

// An action.
#[tactic(auto, unfolding(crate::specs::Rules::action_at))]
fn read_action(tokens: &mut Tokens) -> Result<Action, Fault>
    ensures { gave result (left tokens.new) ≡ action_at (left tokens.old) }
{
    let action = if tokens.is(ALLOW) {
        Action::Allow
    } else if tokens.is(DENY) {
        Action::Deny
    } else if tokens.is(NONE) {
        Action::DontCare
    } else if tokens.is(RESERVE) {
        tokens.advance();
        return read_rate(tokens);
    } else {
        return Err(wrong(Wanted::Action, tokens));
    };
    tokens.advance();
    Ok(action)
}

// A rate: a number and a unit.
#[tactic(auto, unfolding(crate::specs::Rules::rate_at))]
fn read_rate(tokens: &mut Tokens) -> Result<Action, Fault>
    ensures { gave result (left tokens.new) ≡ rate_at (left tokens.old) }
{
    let here = *tokens;
    let number = value(number_of(tokens.word()), Wanted::Rate, tokens)?;
    let unit = value(unit_of(tokens.word()), Wanted::Unit, tokens)?;
    match rate_in(number, unit) {
        Some(rate) => Ok(Action::Gmb(rate)),
        None => Err(fault(Reason::WrongRate, &here)),
    }
}

// A match: all packets, none, or one part at least.
#[tactic(auto, unfolding(crate::specs::Rules::match_at))]
fn read_match(tokens: &mut Tokens) -> Result<Match, Fault>
    ensures { gave result (left tokens.new) ≡ match_at (left tokens.old) }
{
    if tokens.is(ANY) {
        tokens.advance();
        Ok(match_from(None, None, OPEN_SIDE, OPEN_SIDE))
    } else if tokens.is(NEVER) {
        tokens.advance();
        Ok(Match::NONE)
    } else if starts_part(tokens) {
        read_parts(tokens)
    } else {
        Err(wrong(Wanted::Match, tokens))
    }
}

// Whether a part of a match starts here.
#[tactic(auto, unfolding(crate::specs::Rules::starts_part))]
fn starts_part(tokens: &Tokens) -> bool
    ensures { result ≡ starts_part (left tokens.now) }
{
    tokens.is(IN)
        || tokens.is(PROTOCOL_WORD)
        || protocol_of(tokens.word()).is_some()
        || tokens.is(FROM)
        || tokens.is(TO)
}

// The parts of a match in their order.
#[tactic(auto, unfolding(crate::specs::Rules::parts_at))]
fn read_parts(tokens: &mut Tokens) -> Result<Match, Fault>
    ensures { gave result (left tokens.new) ≡ parts_at (left tokens.old) }
{
    let in_port = read_optional_port(IN, tokens)?;
    let protocol = read_protocol(tokens)?;
    let source = read_side(FROM, tokens)?;
    let destination = read_side(TO, tokens)?;
    Ok(match_from(in_port, protocol, source, destination))
}

// A port behind a word, if that stands here.
#[tactic(auto, unfolding(crate::specs::Rules::optional_port, crate::specs::Rules::port_at))]
fn read_optional_port(word: &[u8], tokens: &mut Tokens) -> Result<Option<u32>, Fault>
    ensures { gave result (left tokens.new) ≡ optional_port word.now (left tokens.old) }
{
    if !tokens.is(word) {
        return Ok(None);
    }
    tokens.advance();
    let port = number(LARGEST_PORT, Wanted::Port, tokens)?;
    Ok(Some(port))
}

// A protocol, if one stands here, by its name or its number.
#[tactic(auto, unfolding(crate::specs::Rules::protocol_at, crate::specs::Rules::protocol_number_at))]
fn read_protocol(tokens: &mut Tokens) -> Result<Option<u32>, Fault>
    ensures { gave result (left tokens.new) ≡ protocol_at (left tokens.old) }
{
    if tokens.is(PROTOCOL_WORD) {
        tokens.advance();
        let number = number(LARGEST_PROTOCOL, Wanted::Protocol, tokens)?;
        return Ok(Some(number));
    }
    let named = protocol_of(tokens.word());
    if named.is_some() {
        tokens.advance();
    }
    Ok(named)
}

// A side behind a word, if that stands here: a prefix, a port, or both.
#[tactic(auto, unfolding(crate::specs::Rules::side_at))]
fn read_side(word: &[u8], tokens: &mut Tokens) -> Result<Side, Fault>
    ensures { gave result (left tokens.new) ≡ side_at word.now (left tokens.old) }
{
    if !tokens.is(word) {
        return Ok(OPEN_SIDE);
    }
    tokens.advance();
    let prefix = read_prefix(tokens)?;
    let port = read_optional_port(PORT, tokens)?;
    Ok(Side { prefix, port })
}

// A prefix, or that of all addresses where a port stands in its place.
#[tactic(auto, unfolding(crate::specs::Rules::prefix_at))]
fn read_prefix(tokens: &mut Tokens) -> Result<Prefix, Fault>
    ensures { gave result (left tokens.new) ≡ prefix_at (left tokens.old) }
{
    if tokens.is(PORT) {
        return Ok(ALL);
    }
    match prefix_of(tokens.word()) {
        Ok(prefix) => {
            tokens.advance();
            Ok(prefix)
        }
        Err(NoPrefix::NotOne) => Err(wrong(Wanted::Prefix, tokens)),
        Err(NoPrefix::HostBits(prefix)) => Err(fault(Reason::HostBits(prefix), tokens)),
    }
}

// The match of its parts.
fn match_from(in_port: Option<u32>, protocol: Option<u32>, source: Side, destination: Side) -> Match
    ensures { result ≡ match_from in_port protocol source destination }
{
    Match {
        in_port: in_port.unwrap_or(0),
        source: source.prefix,
        destination: destination.prefix,
        protocol: protocol.unwrap_or(0),
        source_port: source.port.unwrap_or(0),
        destination_port: destination.port.unwrap_or(0),
        flags: flag_if(IN_PORT, in_port)
            + flag_if(PROTOCOL, protocol)
            + flag_if(SOURCE_PORT, source.port)
            + flag_if(DESTINATION_PORT, destination.port),
    }
}

// A flag, if there is a value.
fn flag_if(flag: u32, value: Option<u32>) -> u32
    ensures { result ≡ flag_if flag value }
{
    if value.is_some() { flag } else { 0 }
}

// The rate of so many units, if a GMB may have it.
fn rate_in(number: u32, unit: u32) -> Option<u32>
    ensures { result ≡ (if right_rate (number * unit) then Some (number * unit) else None) }
{
    match number.checked_mul(unit) {
        Some(rate) if (1..=LARGEST_RATE).contains(&rate) => Some(rate),
        _ => None,
    }
}
