//! `capture`: what the rows of a policy give each packet of a text, one a line.

use crate::answer::{Answer, Format, Source};
use crate::asked::{packet_problem, place_of, row_value};
use crate::compiled::{Compiled, rows_of};
use crate::loaded::{Loaded, load};
use crate::page::{action_text, put_number};
use crate::problem::Problem;
use crate::refused::{rows_problem, unforeseen};
use crate::{json, problem};
use action::Action;
use canon::Kept;
use capture::{FOUND_WORDS, MOST_PACKETS, scan_capture};
use flow::{PACKET_WORDS, Packet, PacketWords};
use packet_text::{put_packet, read};
use refusal::Refusal;
use serde_json::{Value, json};
use std::alloc::{AllocError, Global};
use streams::Sink;
use table::Found;
use tokens::Tokens;

// The packets of a text, and the lines that are none.
#[derive(Drop)]
struct Packets {
    packets: Vec<Asked>,
    problems: Vec<Problem>,
}

// A packet, and the line on which it stands, counted from 1.
#[derive(Clone, Copy)]
struct Asked {
    line: usize,
    packet: Packet,
}

/// What the rows of the policy in a text give each packet of another. A line that is no packet is named, and the answer
/// is no.
pub fn scan_packets(
    alloc: Global,
    source: Source<'_>,
    packets: Source<'_>,
    format: Format,
) -> Result<Answer, AllocError> {
    let loaded = match load(alloc, source.text)? {
        Ok(loaded) => loaded,
        Err(problem) => return Answer::refused(alloc, source, &problem, format),
    };
    let rows = match rows_of(alloc, &loaded.words)? {
        Ok(rows) => rows,
        Err(refusal) => {
            let problem = rows_problem(alloc, refusal)?;
            return Answer::refused(alloc, source, &problem, format);
        }
    };
    let asked = packets_of(alloc, packets.text)?;
    let found = match found_all(alloc, &rows, &asked.packets)? {
        Ok(found) => found,
        Err(refusal) => {
            let problem = unforeseen(alloc, refusal)?;
            return Answer::refused(alloc, source, &problem, format);
        }
    };
    if format == Format::Json {
        return json_answer(alloc, &loaded, &rows, packets, &asked, &found);
    }
    let mut out = Kept::new(alloc);
    for (asked, found) in asked.packets.iter().zip(found.iter()) {
        put_line(alloc, &rows, *asked, *found, &mut out)?;
    }
    let mut err = Kept::new(alloc);
    for problem in &asked.problems {
        problem::put(packets, problem, &mut err);
    }
    Ok(Answer {
        yes: asked.problems.is_empty(),
        out: out.into_bytes()?,
        err: err.into_bytes()?,
    })
}

// The packets of a text, one a line; lines without words are passed over.
fn packets_of(alloc: Global, text: &[u8]) -> Result<Packets, AllocError> {
    let mut found = Packets {
        packets: Vec::new(alloc),
        problems: Vec::new(alloc),
    };
    let mut start = 0usize;
    for (index, line) in text.split(|byte| *byte == b'\n').enumerate() {
        if !Tokens::of(line).ended() {
            match read(line) {
                Ok(packet) => found.packets.push(Asked {
                    line: index.saturating_add(1),
                    packet,
                })?,
                Err(fault) => {
                    let problem = packet_problem(alloc, line, fault)?;
                    found.problems.push(Problem {
                        at: Some(start.saturating_add(fault.at)),
                        ..problem
                    })?;
                }
            }
        }
        start = start.saturating_add(line.len()).saturating_add(1);
    }
    Ok(found)
}

// What the rows give each packet, a capture at a time.
fn found_all(
    alloc: Global,
    rows: &Compiled,
    asked: &[Asked],
) -> Result<Result<Vec<Found>, Refusal>, AllocError> {
    let mut found = Vec::new(alloc);
    for block in asked.chunks(MOST_PACKETS) {
        let mut words = Vec::new(alloc);
        for asked in block {
            words.extend_from_slice(&PacketWords::from(asked.packet))?;
        }
        let mut answers = vec![in alloc; 0u32; block.len().saturating_mul(FOUND_WORDS)]?;
        if let Err(refusal) = scan_capture(&rows.table, &words, &mut answers) {
            return Ok(Err(refusal));
        }
        for answer in answers.as_chunks::<FOUND_WORDS>().0 {
            let [kind, rate, tried] = *answer;
            found.push(Found {
                action: Action::from_words(kind, rate),
                tried: tried as usize,
            })?;
        }
    }
    Ok(Ok(found))
}

// A line for a packet: where it stood, the packet, the action, the row, and how many rows were tried.
fn put_line(
    alloc: Global,
    rows: &Compiled,
    asked: Asked,
    found: Found,
    out: &mut Kept,
) -> Result<(), AllocError> {
    put_number(asked.line, out);
    out.put(b": ");
    put_packet(asked.packet, out);
    out.put(b": ");
    out.put(&action_text(alloc, found.action)?);
    match place_of(rows, found, asked.packet) {
        Some(place) => {
            out.put(b", row ");
            put_number(place.saturating_add(1), out);
            out.put(b", priority ");
            put_number(rows.priority(place) as usize, out);
        }
        None => out.put(b", no row"),
    }
    out.put(b", tried ");
    put_number(found.tried, out);
    out.put(b"\n");
    Ok(())
}

fn json_answer(
    alloc: Global,
    loaded: &Loaded,
    rows: &Compiled,
    packets: Source<'_>,
    asked: &Packets,
    found: &[Found],
) -> Result<Answer, AllocError> {
    let mut values = Vec::new(alloc);
    for (asked, found) in asked.packets.iter().zip(found) {
        let packet = json::packet(alloc, asked.packet)?;
        let row = row_value(alloc, loaded, rows, *found, asked.packet)?;
        let action = json::action(alloc, found.action)?;
        let line = asked.line;
        values.push(
            json!(in alloc; {"line": line, "packet": packet, "action": action, "found": row})?,
        )?;
    }
    let mut errors = Vec::new(alloc);
    for problem in &asked.problems {
        errors.push(json::problem(alloc, packets, problem)?)?;
    }
    let values = Value::Array(values);
    let errors = Value::Array(errors);
    let mut out = Kept::new(alloc);
    out.put(&json::text(
        alloc,
        &json!(in alloc; {"packets": values, "errors": errors})?,
    )?);
    Ok(Answer {
        yes: asked.problems.is_empty(),
        out: out.into_bytes()?,
        err: Vec::new(alloc),
    })
}
