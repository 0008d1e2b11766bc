//! `why`: the chain of rows that forces as many priorities as there are, with a packet that meets each two neighbours.

use crate::answer::{Answer, Format, Source};
use crate::compiled::{Compiled, rows_of};
use crate::json;
use crate::loaded::{Loaded, load};
use crate::names::rules_text;
use crate::page::{action_text, digits, match_text, put_count, put_right, put_spaces};
use crate::refused::rows_problem;
use canon::Kept;
use origins::origins;
use packet_text::put_packet;
use row::Row;
use serde_json::{Value, json};
use std::alloc::{AllocError, Global};
use streams::Sink;
use witness::shared_packet;

/// Why the rows of the policy in a text have as many priorities as they have.
pub fn why(alloc: Global, source: Source<'_>, format: Format) -> Result<Answer, AllocError> {
    let loaded = match load(alloc, source.text)? {
        Ok(loaded) => loaded,
        Err(problem) => return Answer::refused(alloc, source, &problem, format),
    };
    let rows = match rows_of(alloc, &loaded.words)? {
        Ok(rows) => rows,
        Err(refusal) => {
            let problem = rows_problem(alloc, refusal)?;
            return Answer::refused(alloc, source, &problem, format);
        }
    };
    let mut out = Kept::new(alloc);
    if format == Format::Json {
        out.put(&json::text(alloc, &chain_value(alloc, &loaded, &rows)?)?);
    } else {
        put_chain(alloc, &loaded, &rows, &mut out)?;
    }
    Answer::yes(alloc, out)
}

fn put_chain(
    alloc: Global,
    loaded: &Loaded,
    rows: &Compiled,
    out: &mut Kept,
) -> Result<(), AllocError> {
    put_count(rows.chain.len(), b"priority", b"priorities", out);
    match rows.chain.len() {
        0 => out.put(b": there are no rows\n"),
        1 => out.put(b": no packet meets two rows\n"),
        _ => out.put(
            b": each row of this chain must stand above the next, since a packet meets both\n",
        ),
    }
    let width = digits(rows.chain.len());
    let mut above: Option<Row> = None;
    for place in &rows.chain {
        let place = *place as usize;
        let Some(row) = rows.row(place) else {
            continue;
        };
        if let Some(above) = above {
            put_witness(width, above, row, out);
        }
        out.put(b"\n");
        put_right(rows.priority(place) as usize, width, out);
        out.put(b"  ");
        out.put(&action_text(alloc, row.action)?);
        out.put(b" ");
        out.put(&match_text(alloc, row.matching)?);
        out.put(b"\n");
        put_spaces(width, out);
        out.put(b"  rules: ");
        let atoms = origins(alloc, loaded.atoms(), row.matching)?;
        out.put(&rules_text(alloc, &loaded.policy, &atoms)?);
        out.put(b"\n");
        above = Some(row);
    }
    Ok(())
}

// The packet that meets a row and the next of the chain.
fn put_witness(width: usize, above: Row, row: Row, out: &mut Kept) {
    if let Some(packet) = shared_packet(above.matching, row.matching) {
        put_spaces(width, out);
        out.put(b"  the packet ");
        put_packet(packet, out);
        out.put(b" meets this row and the next\n");
    }
}

fn chain_value(alloc: Global, loaded: &Loaded, rows: &Compiled) -> Result<Value, AllocError> {
    let mut values = Vec::new(alloc);
    let mut above: Option<Row> = None;
    for place in &rows.chain {
        let place = *place as usize;
        let Some(row) = rows.row(place) else {
            continue;
        };
        let atoms = origins(alloc, loaded.atoms(), row.matching)?;
        let rules = json::rules(alloc, &loaded.policy, &atoms)?;
        let matching = json::matching(alloc, row.matching)?;
        let action = json::action(alloc, row.action)?;
        let shared = above.and_then(|above| shared_packet(above.matching, row.matching));
        let packet = match shared {
            Some(packet) => json::packet(alloc, packet)?,
            None => Value::Null,
        };
        values.push(json!(in alloc; {
            "row": place.saturating_add(1),
            "priority": rows.priority(place),
            "match": matching,
            "action": action,
            "rules": rules,
            "met_with_the_row_above": packet
        })?)?;
        above = Some(row);
    }
    let values = Value::Array(values);
    json!(in alloc; {"priorities": rows.chain.len(), "chain": values})
}
