//! What is wrong in a text, and how it is shown: the line, and carets under the word.

use crate::Source;
use crate::page::{digits, put_number, put_right, put_spaces};
use streams::Sink;
use tokens::{Tokens, place_of};

// How much of a line is shown: a part of so many bytes, and of those before the word, where there are more than so
// many, the last ones alone.
const LONGEST_PART: usize = 160;

const MOST_BEFORE: usize = 100;

const SOME_BEFORE: usize = 60;

/// What kind of problem it is, with its number.
#[derive(Clone, Copy, PartialEq, Eq)]
pub enum Code {
    /// A fault of the notation, docs/NOTATION.md.
    Fault(u32),
    /// A refusal, docs/FORMAT.md.
    Refusal(u32),
    /// A text that is no policy and no packet, for a reason without a number.
    Unread,
    /// What may stand, and is probably not meant.
    Warning(Warning),
}

/// What is warned of.
#[derive(Clone, Copy, PartialEq, Eq)]
pub enum Warning {
    /// A rule that no packet meets.
    Unmet,
    /// A rule that decides nothing in any row.
    Idle,
    /// More rows than there is room for.
    Room,
}

/// A problem: where it is, what it is, what helps, and the rule that it is of, by node and label, or nothing.
#[derive(Drop)]
pub struct Problem {
    pub code: Code,
    pub at: Option<usize>,
    pub message: Vec<u8>,
    pub help: Vec<u8>,
    pub rule: Vec<u8>,
}

impl Problem {
    /// Whether it is no error.
    pub(crate) fn is_warning(&self) -> bool {
        matches!(self.code, Code::Warning(_))
    }
}

/// A problem as it is shown to people.
pub(crate) fn put<S: Sink>(source: Source<'_>, problem: &Problem, sink: &mut S) {
    sink.put(if problem.is_warning() {
        b"warning: ".as_slice()
    } else {
        b"error: ".as_slice()
    });
    sink.put(&problem.message);
    sink.put(b"\n");
    match problem.at {
        Some(at) => put_place(source, at, sink),
        None => {
            sink.put(b" --> ");
            sink.put(source.name.as_bytes());
            sink.put(b"\n");
        }
    }
    if !problem.help.is_empty() {
        sink.put(b"  = ");
        sink.put(&problem.help);
        sink.put(b"\n");
    }
}

// Where it is: the name, the line and the column, the line itself, and carets under the word.
fn put_place<S: Sink>(source: Source<'_>, at: usize, sink: &mut S) {
    let place = place_of(source.text, at);
    let width = digits(place.line);
    put_spaces(width, sink);
    sink.put(b"--> ");
    sink.put(source.name.as_bytes());
    sink.put(b":");
    put_number(place.line, sink);
    sink.put(b":");
    put_number(place.column, sink);
    sink.put(b"\n");
    put_spaces(width, sink);
    sink.put(b" |\n");
    put_right(place.line, width, sink);
    sink.put(b" | ");
    let start = at.saturating_sub(place.column.saturating_sub(1));
    put_line(
        line_from(source.text, start),
        at.saturating_sub(start),
        width,
        sink,
    );
}

// A part of a line, if it is long, and carets under the word at an offset.
fn put_line<S: Sink>(line: &[u8], offset: usize, width: usize, sink: &mut S) {
    let from = if offset > MOST_BEFORE {
        offset - SOME_BEFORE
    } else {
        0
    };
    let rest = line.get(from..).unwrap_or(b"");
    let part = rest.get(..LONGEST_PART).unwrap_or(rest);
    let word = word_length(rest, offset - from);
    let before = part.get(..offset - from).unwrap_or(part);
    put_visible(part, sink);
    sink.put(b"\n");
    put_spaces(width, sink);
    sink.put(b" | ");
    put_spaces(columns(before), sink);
    put_carets(
        word.min(LONGEST_PART.saturating_sub(before.len())).max(1),
        sink,
    );
    sink.put(b"\n");
}

// The line that starts at a place, without its end.
fn line_from(text: &[u8], start: usize) -> &[u8] {
    let rest = text.get(start..).unwrap_or(b"");
    let end = rest.iter().position(|byte| *byte == b'\n');
    let line = rest.get(..end.unwrap_or(rest.len())).unwrap_or(rest);
    line.strip_suffix(b"\r").unwrap_or(line)
}

// How many bytes the word at a place has, one at least.
fn word_length(text: &[u8], at: usize) -> usize {
    let rest = text.get(at..).unwrap_or(b"");
    let tokens = Tokens::of(rest);
    if tokens.at() == 0 {
        columns(tokens.word()).max(1)
    } else {
        1
    }
}

// How many columns some bytes take: bytes that go on with a character take none.
fn columns(bytes: &[u8]) -> usize {
    bytes.iter().filter(|byte| **byte & 0xc0 != 0x80).count()
}

fn put_carets<S: Sink>(count: usize, sink: &mut S) {
    for _ in 0..count {
        sink.put(b"^");
    }
}

// A line as a terminal may show it: a blank for a tab, and a question mark for any other control.
fn put_visible<S: Sink>(line: &[u8], sink: &mut S) {
    for byte in line {
        let shown = match *byte {
            b'\t' => b' ',
            0..32 | 127 => b'?',
            byte => byte,
        };
        sink.put(&[shown]);
    }
}
