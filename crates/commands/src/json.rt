//! What is printed for programs.

use crate::Source;
use crate::names::rule_at;
use crate::problem::{Code, Problem, Warning};
use action::Action;
use field::Prefix;
use flow::{DESTINATION_PORT, IN_PORT, Match, PROTOCOL, Packet, SOURCE_PORT};
use notation::Policy;
use serde_json::{Map, Value, json};
use std::alloc::{AllocError, Global};
use std::net::Ipv4Addr;
use tokens::place_of;

/// A value as text, and a line end.
pub(crate) fn text(alloc: Global, value: &Value) -> Result<Vec<u8>, AllocError> {
    let mut text = Vec::from_slice(alloc, value.to_string(alloc)?.as_bytes())?;
    text.push(b'\n')?;
    Ok(text)
}

/// Some bytes as a string; what is no text is left out.
pub(crate) fn string(alloc: Global, bytes: &[u8]) -> Result<Value, AllocError> {
    Value::try_from_str(alloc, std::str::from_utf8(bytes).unwrap_or(""))
}

/// An action by its kind, and the rate of a reservation in kbit/s.
pub(crate) fn action(alloc: Global, action: Action) -> Result<Value, AllocError> {
    match action {
        Action::DontCare => json!(in alloc; {"kind": "none"}),
        Action::Allow => json!(in alloc; {"kind": "allow"}),
        Action::Deny => json!(in alloc; {"kind": "deny"}),
        Action::Gmb(rate) => json!(in alloc; {"kind": "reserve", "kbit/s": rate}),
    }
}

/// A match by the values that it constrains.
pub(crate) fn matching(alloc: Global, m: Match) -> Result<Value, AllocError> {
    let mut map = Map::new(alloc);
    for (flag, key, value) in [
        (IN_PORT, "in_port", m.in_port),
        (PROTOCOL, "protocol", m.protocol),
        (SOURCE_PORT, "source_port", m.source_port),
        (DESTINATION_PORT, "destination_port", m.destination_port),
    ] {
        if m.constrains(flag) {
            serde_json::put(&mut map, alloc, key, Value::from(value))?;
        }
    }
    let source = prefix(alloc, m.source)?;
    serde_json::put(&mut map, alloc, "source", source)?;
    let destination = prefix(alloc, m.destination)?;
    serde_json::put(&mut map, alloc, "destination", destination)?;
    Ok(Value::Object(map))
}

fn prefix(alloc: Global, prefix: Prefix) -> Result<Value, AllocError> {
    let address = Ipv4Addr::from(prefix.address);
    let length = prefix.length;
    Ok(Value::String(format!(in alloc; "{address}/{length}")?))
}

/// A packet by its six values.
pub(crate) fn packet(alloc: Global, packet: Packet) -> Result<Value, AllocError> {
    let source = Ipv4Addr::from(packet.source);
    let destination = Ipv4Addr::from(packet.destination);
    let source = format!(in alloc; "{source}")?;
    let destination = format!(in alloc; "{destination}")?;
    json!(in alloc; {
        "in_port": packet.in_port,
        "source": &source,
        "destination": &destination,
        "protocol": packet.protocol,
        "source_port": packet.source_port,
        "destination_port": packet.destination_port
    })
}

/// The rules of some atoms, each by its node and its label.
pub(crate) fn rules(alloc: Global, policy: &Policy, atoms: &[usize]) -> Result<Value, AllocError> {
    let mut values = Vec::new(alloc);
    for atom in atoms {
        if let Some(placed) = rule_at(policy, *atom) {
            let node = string(alloc, &placed.node.name)?;
            let label = string(alloc, &placed.rule.label)?;
            values.push(json!(in alloc; {"node": node, "rule": label})?)?;
        }
    }
    Ok(Value::Array(values))
}

/// A problem, with the number of its fault or its refusal.
pub(crate) fn problem(
    alloc: Global,
    source: Source<'_>,
    problem: &Problem,
) -> Result<Value, AllocError> {
    let mut map = Map::new(alloc);
    let message = string(alloc, &problem.message)?;
    serde_json::put(&mut map, alloc, "message", message)?;
    let name = Value::try_from_str(alloc, source.name)?;
    serde_json::put(&mut map, alloc, "file", name)?;
    match problem.code {
        Code::Fault(number) => serde_json::put(&mut map, alloc, "fault", Value::from(number))?,
        Code::Refusal(number) => serde_json::put(&mut map, alloc, "refusal", Value::from(number))?,
        Code::Warning(warning) => {
            let kind = match warning {
                Warning::Unmet => "unmet",
                Warning::Idle => "idle",
                Warning::Room => "room",
            };
            let kind = Value::try_from_str(alloc, kind)?;
            serde_json::put(&mut map, alloc, "warning", kind)?;
        }
        Code::Unread => {}
    }
    for (key, text) in [("help", &problem.help), ("rule", &problem.rule)] {
        if !text.is_empty() {
            let text = string(alloc, text)?;
            serde_json::put(&mut map, alloc, key, text)?;
        }
    }
    if let Some(at) = problem.at {
        let place = place_of(source.text, at);
        serde_json::put(&mut map, alloc, "line", Value::from(place.line))?;
        serde_json::put(&mut map, alloc, "column", Value::from(place.column))?;
    }
    Ok(Value::Object(map))
}
