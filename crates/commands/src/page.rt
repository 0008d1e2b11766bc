//! Pieces of text.

use action::Action;
use canon::{Kept, put_action, put_match};
use flow::Match;
use itoa::Buffer;
use std::alloc::{AllocError, Global};
use streams::Sink;

/// So many blanks.
pub(crate) fn put_spaces<S: Sink>(count: usize, sink: &mut S) {
    for _ in 0..count {
        sink.put(b" ");
    }
}

/// A number.
pub(crate) fn put_number<S: Sink>(value: usize, sink: &mut S) {
    let mut buffer = Buffer::new();
    sink.put(buffer.format(value).as_bytes());
}

/// A number below a million, with a comma before the last three of more than three digits.
pub(crate) fn put_grouped<S: Sink>(value: usize, sink: &mut S) {
    let thousands = value / 1000;
    let rest = value % 1000;
    if thousands == 0 {
        put_number(rest, sink);
        return;
    }
    put_number(thousands, sink);
    sink.put(b",");
    for unit in [100, 10] {
        if rest < unit {
            sink.put(b"0");
        }
    }
    put_number(rest, sink);
}

/// A number of things, in the singular or the plural.
pub(crate) fn put_count<S: Sink>(count: usize, one: &[u8], many: &[u8], sink: &mut S) {
    put_number(count, sink);
    sink.put(b" ");
    sink.put(if count == 1 { one } else { many });
}

// How many bytes of a word are shown at most.
const LONGEST_WORD: usize = 40;

const HEX: &[u8] = b"0123456789abcdef";

/// A word as the messages of the notation show it: in backquotes, what is not printable as `\\x` and two digits, and no
/// more than the first bytes of a long one.
pub(crate) fn put_word<S: Sink>(word: &[u8], sink: &mut S) {
    sink.put(b"`");
    for byte in word.iter().take(LONGEST_WORD) {
        match *byte {
            33..=126 => sink.put(&[*byte]),
            byte => {
                sink.put(b"\\x");
                sink.put(&[HEX[(byte / 16) as usize], HEX[(byte % 16) as usize]]);
            }
        }
    }
    sink.put(b"`");
    if word.len() > LONGEST_WORD {
        sink.put(b"..");
    }
}

/// A text, with blanks behind it up to a width.
pub(crate) fn put_padded<S: Sink>(text: &[u8], width: usize, sink: &mut S) {
    sink.put(text);
    put_spaces(width.saturating_sub(text.len()), sink);
}

/// A number, with blanks before it up to a width.
pub(crate) fn put_right<S: Sink>(value: usize, width: usize, sink: &mut S) {
    let mut buffer = Buffer::new();
    let digits = buffer.format(value).as_bytes();
    put_spaces(width.saturating_sub(digits.len()), sink);
    sink.put(digits);
}

/// How many digits a number has.
pub(crate) fn digits(value: usize) -> usize {
    let mut buffer = Buffer::new();
    buffer.format(value).len()
}

/// The words of an action.
pub(crate) fn action_text(alloc: Global, action: Action) -> Result<Vec<u8>, AllocError> {
    let mut text = Kept::new(alloc);
    put_action(action, &mut text);
    text.into_bytes()
}

/// The words of a match.
pub(crate) fn match_text(alloc: Global, matching: Match) -> Result<Vec<u8>, AllocError> {
    let mut text = Kept::new(alloc);
    put_match(matching, &mut text);
    // The words are put with a blank before each.
    let words = text.into_bytes()?;
    Vec::from_slice(alloc, words.get(1..).unwrap_or(b""))
}
