//! The text of a file of words.

ghost use Rattle.std.specs.Prelude.{◌≡◌, ◌<◌};
ghost use Rattle.std.specs.Fmt.{decimal};
ghost use Rattle.decimals.specs.Text.{behind_text, line_text, lines_text, parting, records_length, section_text};
ghost use Rattle.decimals.specs.Text.{section_rest, rest_text, words_text};

use itoa::Buffer;
use policy::{ATOM_WORDS, NODE_WORDS, OPERATOR_WORDS};
use streams::Sink;

/// Puts the words of a policy file as a text: a line for a count, and one for each record behind it. Words behind the
/// last section stand in a line of their own.
pub fn put_words<S: Sink>(words: &[u32], sink: &mut S)
    ensures { S.gives sink.old (words_text words.now) sink.new }
{
    let atoms = put_section(OPERATOR_WORDS, words, sink);
    let nodes = put_section(ATOM_WORDS, atoms, sink);
    let rest = put_section(NODE_WORDS, nodes, sink);
    put_rest(rest, sink);
}

// A section with records of so many words, and an empty line if something stands behind it, which is given.
fn put_section<'a, S: Sink>(size: usize, words: &'a [u32], sink: &mut S) -> &'a [u32]
    requires { 0 < size }
    ensures put { S.gives sink.old (section_text size words.now) sink.new }
    ensures rest { result.now ≡ section_rest size words.now }
{
    let Some((&count, behind)) = words.split_first() else {
        return words;
    };
    let (records, rest) = behind.split_at(records_length(size, count, behind.len()));
    put_line(&[count], sink);
    put_lines(size, records, sink);
    put_parting(rest, sink);
    rest
}

// An empty line before words.
fn put_parting<S: Sink>(words: &[u32], sink: &mut S)
    ensures { S.gives sink.old (parting words.now) sink.new }
{
    if !words.is_empty() {
        sink.put(b"\n");
    }
}

// Words behind all sections.
fn put_rest<S: Sink>(words: &[u32], sink: &mut S)
    ensures { S.gives sink.old (rest_text words.now) sink.new }
{
    if !words.is_empty() {
        put_line(words, sink);
    }
}

// How many of some words so many records of a size are made of.
fn records_length(size: usize, count: u32, room: usize) -> usize
    ensures { result ≡ records_length size count room }
{
    size.saturating_mul(count as usize).min(room)
}

// Words in lines of so many.
fn put_lines<S: Sink>(size: usize, words: &[u32], sink: &mut S)
    requires { 0 < size }
    ensures { S.gives sink.old (lines_text size words.now) sink.new }
{
    // Once the lines of the words that are left are put, all are.
    for record in words.chunks(size) {
        put_line(record, sink);
    }
}

// A line of words.
fn put_line<S: Sink>(words: &[u32], sink: &mut S)
    ensures { S.gives sink.old (line_text words.now) sink.new }
{
    if let Some((&first, others)) = words.split_first() {
        put_number(first, sink);
        put_behind(others, sink);
    }
    sink.put(b"\n");
}

// Words, each behind a blank.
fn put_behind<S: Sink>(words: &[u32], sink: &mut S)
    ensures { S.gives sink.old (behind_text words.now) sink.new }
{
    // Once the words that are left are put, all are.
    for &word in words {
        sink.put(b" ");
        put_number(word, sink);
    }
}

// A number with no zero before it.
fn put_number<S: Sink>(value: u32, sink: &mut S)
    ensures { S.gives sink.old (decimal value) sink.new }
{
    let mut buffer = Buffer::new();
    sink.put(buffer.format(value).as_bytes());
}
