//! `list`: the rows of a policy, with their priorities and the rules that each comes from.

use crate::answer::{Answer, Format, Source};
use crate::compiled::{Compiled, rows_of};
use crate::json;
use crate::loaded::{Loaded, load};
use crate::names::rules_text;
use crate::page::{action_text, match_text, put_count, put_padded, put_right};
use crate::refused::rows_problem;
use canon::Kept;
use origins::origins;
use row::Rows;
use serde_json::{Value, json};
use show::list_table;
use std::alloc::{AllocError, Global};
use streams::Sink;

// The texts of a row.
#[derive(Drop)]
struct Line {
    priority: usize,
    packets: Vec<u8>,
    action: Vec<u8>,
    rules: Vec<u8>,
}

// How wide the columns are.
#[derive(Clone, Copy)]
struct Widths {
    packets: usize,
    action: usize,
}

// The headings of the columns.
const PRIORITY: &[u8] = b"priority";

const PACKETS: &[u8] = b"packets";

const ACTION: &[u8] = b"action";

const RULES: &[u8] = b"rules";

/// The rows of the policy in a text, in the order in which a scan tries them.
pub fn list(alloc: Global, source: Source<'_>, format: Format) -> Result<Answer, AllocError> {
    let loaded = match load(alloc, source.text)? {
        Ok(loaded) => loaded,
        Err(problem) => return Answer::refused(alloc, source, &problem, format),
    };
    let rows = match rows_of(alloc, &loaded.words)? {
        Ok(rows) => rows,
        Err(refusal) => {
            let problem = rows_problem(alloc, refusal)?;
            return Answer::refused(alloc, source, &problem, format);
        }
    };
    let mut out = Kept::new(alloc);
    match format {
        Format::Words => put_table(alloc, &loaded, &rows, &mut out)?,
        Format::Listing => list_table(&rows.table, &mut out),
        Format::Json => out.put(&json::text(alloc, &rows_value(alloc, &loaded, &rows)?)?),
    }
    Answer::yes(alloc, out)
}

// The rows for people: a first line, and a line for each row under headings.
fn put_table(
    alloc: Global,
    loaded: &Loaded,
    rows: &Compiled,
    out: &mut Kept,
) -> Result<(), AllocError> {
    put_count(rows.priorities.len(), b"row", b"rows", out);
    out.put(b", ");
    put_count(rows.chain.len(), b"priority", b"priorities", out);
    out.put(b"\n");
    if rows.priorities.is_empty() {
        return Ok(());
    }
    let lines = lines_of(alloc, loaded, rows)?;
    let widths = widths_of(&lines);
    out.put(b"\n");
    out.put(PRIORITY);
    out.put(b"  ");
    put_padded(PACKETS, widths.packets, out);
    out.put(b"  ");
    put_padded(ACTION, widths.action, out);
    out.put(b"  ");
    out.put(RULES);
    out.put(b"\n");
    for line in &lines {
        put_right(line.priority, PRIORITY.len(), out);
        out.put(b"  ");
        put_padded(&line.packets, widths.packets, out);
        out.put(b"  ");
        put_padded(&line.action, widths.action, out);
        out.put(b"  ");
        out.put(&line.rules);
        out.put(b"\n");
    }
    Ok(())
}

fn lines_of(alloc: Global, loaded: &Loaded, rows: &Compiled) -> Result<Vec<Line>, AllocError> {
    let mut lines = Vec::new(alloc);
    for (priority, row) in rows.priorities.iter().zip(Rows::of(&rows.table)) {
        let atoms = origins(alloc, loaded.atoms(), row.matching)?;
        lines.push(Line {
            priority: *priority as usize,
            packets: match_text(alloc, row.matching)?,
            action: action_text(alloc, row.action)?,
            rules: rules_text(alloc, &loaded.policy, &atoms)?,
        })?;
    }
    Ok(lines)
}

fn widths_of(lines: &[Line]) -> Widths {
    let mut widths = Widths {
        packets: PACKETS.len(),
        action: ACTION.len(),
    };
    for line in lines {
        widths.packets = widths.packets.max(line.packets.len());
        widths.action = widths.action.max(line.action.len());
    }
    widths
}

// The rows for programs.
fn rows_value(alloc: Global, loaded: &Loaded, rows: &Compiled) -> Result<Value, AllocError> {
    let mut values = Vec::new(alloc);
    let mut number = 0usize;
    for (priority, row) in rows.priorities.iter().zip(Rows::of(&rows.table)) {
        number = number.saturating_add(1);
        let atoms = origins(alloc, loaded.atoms(), row.matching)?;
        let rules = json::rules(alloc, &loaded.policy, &atoms)?;
        let matching = json::matching(alloc, row.matching)?;
        let action = json::action(alloc, row.action)?;
        values.push(json!(in alloc; {
            "row": number,
            "priority": *priority,
            "match": matching,
            "action": action,
            "rules": rules
        })?)?;
    }
    let values = Value::Array(values);
    json!(in alloc; {"priorities": rows.chain.len(), "rows": values})
}
