//! `ask`: what a policy says of a packet, by which row, and how the tree comes to it.

use crate::answer::{Answer, Format, Source};
use crate::compiled::{Compiled, rows_of};
use crate::json;
use crate::loaded::{Loaded, load};
use crate::names::rules_text;
use crate::page::{action_text, match_text, put_count, put_number, put_word};
use crate::problem::{Code, Problem};
use crate::refused::unforeseen;
use crate::settled::{put_steps, steps_value};
use canon::Kept;
use flow::{Packet, PacketWords};
use origins::origins;
use packet_text::{Fault, Wanted};
use serde_json::{Value, json};
use std::alloc::{AllocError, Global};
use streams::Sink;
use table::{Found, scan};
use tokens::Tokens;
use trace::{Steps, StepsError, steps};

/// What the policy in a text says of the packet in another: the action, the row by which a switch gives it, and node by
/// node how the tree settles it.
pub fn ask(
    alloc: Global,
    source: Source<'_>,
    packet: Source<'_>,
    format: Format,
) -> Result<Answer, AllocError> {
    let asked = match packet_text::read(packet.text) {
        Ok(asked) => asked,
        Err(fault) => {
            let problem = packet_problem(alloc, packet.text, fault)?;
            return Answer::refused(alloc, packet, &problem, format);
        }
    };
    let loaded = match load(alloc, source.text)? {
        Ok(loaded) => loaded,
        Err(problem) => return Answer::refused(alloc, source, &problem, format),
    };
    let steps = match steps(alloc, &loaded.words, &asked) {
        Ok(steps) => steps,
        Err(StepsError::Refused(refusal)) => {
            let problem = unforeseen(alloc, refusal)?;
            return Answer::refused(alloc, source, &problem, format);
        }
        Err(StepsError::Memory) => return Err(AllocError),
    };
    let rows = rows_of(alloc, &loaded.words)?.ok();
    let mut out = Kept::new(alloc);
    if format == Format::Json {
        let value = answer_value(alloc, &loaded, rows.as_ref(), asked, &steps)?;
        out.put(&json::text(alloc, &value)?);
    } else {
        put_answer(alloc, &loaded, rows.as_ref(), asked, &steps, &mut out)?;
    }
    Answer::yes(alloc, out)
}

/// The problem of a text that is no packet.
pub(crate) fn packet_problem(
    alloc: Global,
    text: &[u8],
    fault: Fault,
) -> Result<Problem, AllocError> {
    let mut message = Kept::new(alloc);
    let word = Tokens::of(text.get(fault.at..).unwrap_or(b""));
    if word.ended() {
        message.put(b"the packet ends");
    } else {
        message.put(b"found ");
        put_word(word.word(), &mut message);
    }
    message.put(b", wanted ");
    message.put(match fault.wanted {
        Wanted::InPort => b"an in-port, a number of at most 65,535".as_slice(),
        Wanted::Source => b"a source address, as 10.1.1.1".as_slice(),
        Wanted::Destination => b"a destination address, as 10.7.3.9".as_slice(),
        Wanted::Protocol => b"a protocol: tcp, udp, icmp or a number of at most 255".as_slice(),
        Wanted::SourcePort => b"a source port, a number of at most 65,535".as_slice(),
        Wanted::DestinationPort => b"a destination port, a number of at most 65,535".as_slice(),
        Wanted::End => b"the end of the packet".as_slice(),
    });
    Ok(Problem {
        code: Code::Unread,
        at: Some(fault.at),
        message: message.into_bytes()?,
        help: Vec::from_slice(
            alloc,
            b"a packet is six words: in-port, source, destination, protocol, source port, destination port",
        )?,
        rule: Vec::new(alloc),
    })
}

// What a scan of the rows finds for a packet.
fn found(rows: &Compiled, packet: Packet) -> Option<Found> {
    let words = PacketWords::from(packet);
    scan(&rows.table, &words).ok()
}

/// The place of the row that was found: the last that was tried, if the packet meets it.
pub(crate) fn place_of(rows: &Compiled, found: Found, packet: Packet) -> Option<usize> {
    let place = found.tried.checked_sub(1)?;
    let row = rows.row(place)?;
    if row.matching.meets(packet) {
        Some(place)
    } else {
        None
    }
}

fn put_answer(
    alloc: Global,
    loaded: &Loaded,
    rows: Option<&Compiled>,
    packet: Packet,
    steps: &Steps,
    out: &mut Kept,
) -> Result<(), AllocError> {
    match steps.nodes.first() {
        Some(root) => out.put(&action_text(alloc, root.made)?),
        None => {}
    }
    out.put(b"\n");
    match rows {
        Some(rows) => put_row(alloc, loaded, rows, packet, out)?,
        None => out.put(b"the policy has more rows than there is room for, so none is looked up\n"),
    }
    out.put(b"\n");
    put_steps(&loaded.policy, steps, out);
    Ok(())
}

// The row by which a switch gives the action.
fn put_row(
    alloc: Global,
    loaded: &Loaded,
    rows: &Compiled,
    packet: Packet,
    out: &mut Kept,
) -> Result<(), AllocError> {
    let Some(found) = found(rows, packet) else {
        return Ok(());
    };
    let at = place_of(rows, found, packet).and_then(|place| rows
        .row(place)
        .map(|row| (place, row)));
    let Some((place, row)) = at else {
        out.put(b"no row, ");
        put_count(found.tried, b"row", b"rows", out);
        out.put(b" tried\n");
        return Ok(());
    };
    out.put(b"row ");
    put_number(place.saturating_add(1), out);
    out.put(b" of ");
    put_number(rows.priorities.len(), out);
    out.put(b", priority ");
    put_number(rows.priority(place) as usize, out);
    out.put(b": ");
    out.put(&match_text(alloc, row.matching)?);
    out.put(b" (");
    put_count(found.tried, b"row", b"rows", out);
    out.put(b" tried)\nrules: ");
    let atoms = origins(alloc, loaded.atoms(), row.matching)?;
    out.put(&rules_text(alloc, &loaded.policy, &atoms)?);
    out.put(b"\n");
    Ok(())
}

fn answer_value(
    alloc: Global,
    loaded: &Loaded,
    rows: Option<&Compiled>,
    packet: Packet,
    steps: &Steps,
) -> Result<Value, AllocError> {
    let action = match steps.nodes.first() {
        Some(root) => json::action(alloc, root.made)?,
        None => Value::Null,
    };
    let row = match rows.and_then(|rows| found(rows, packet).map(|found| (rows, found))) {
        Some((rows, found)) => row_value(alloc, loaded, rows, found, packet)?,
        None => Value::Null,
    };
    let asked = json::packet(alloc, packet)?;
    let nodes = steps_value(alloc, &loaded.policy, steps)?;
    json!(in alloc; {"packet": asked, "action": action, "found": row, "nodes": nodes})
}

/// The row that a scan finds for a packet, its number counted from 1, and how many were tried.
pub(crate) fn row_value(
    alloc: Global,
    loaded: &Loaded,
    rows: &Compiled,
    found: Found,
    packet: Packet,
) -> Result<Value, AllocError> {
    let tried = found.tried;
    match place_of(rows, found, packet).and_then(|place| rows.row(place).map(|row| (place, row))) {
        Some((place, row)) => {
            let atoms = origins(alloc, loaded.atoms(), row.matching)?;
            let rules = json::rules(alloc, &loaded.policy, &atoms)?;
            let number = place.saturating_add(1);
            json!(in alloc; {
                "row": number,
                "priority": rows.priority(place),
                "rules": rules,
                "tried": tried
            })
        }
        None => json!(in alloc; {"row": null, "tried": tried}),
    }
}
