//! The words of the notation, blanks, numbers, and what stands behind a word.

ghost use Rattle.std.specs.Fmt.{decimal};
ghost use Rattle.canon.specs.Text.{spaces, indent, behind_word};

use itoa::Buffer;
use streams::Sink;

// The words of the notation.
pub(crate) const ALLOW: &[u8] = b"allow";

pub(crate) const DENY: &[u8] = b"deny";

pub(crate) const RESERVE: &[u8] = b"reserve";

pub(crate) const INSIDE: &[u8] = b"inside";

pub(crate) const BETWEEN: &[u8] = b"between";

pub(crate) const BELOW: &[u8] = b"below";

pub(crate) const IN: &[u8] = b"in";

pub(crate) const PROTOCOL: &[u8] = b"protocol";

pub(crate) const FROM: &[u8] = b"from";

pub(crate) const TO: &[u8] = b"to";

pub(crate) const PORT: &[u8] = b"port";

// The operators that are there from the start.
pub(crate) const SIBLING: &[u8] = b"sibling";

pub(crate) const PARENT: &[u8] = b"parent";

// So many blanks.
pub(crate) fn put_spaces<S: Sink>(count: usize, sink: &mut S)
    ensures { S.gives sink.old (spaces count) sink.new }
{
    // Once the blanks that are left are put, all are.
    for _ in 0..count {
        sink.put(b" ");
    }
}

// The blanks before what stands in so many nodes.
pub(crate) fn put_indent<S: Sink>(depth: usize, sink: &mut S)
    ensures { S.gives sink.old (indent depth) sink.new }
{
    // Once the blanks that are left are put, all are.
    for _ in 0..depth {
        sink.put(b"    ");
    }
}

// A number with no zero before it.
pub(crate) fn put_number<S: Sink>(value: u32, sink: &mut S)
    ensures { S.gives sink.old (decimal value) sink.new }
{
    let mut buffer = Buffer::new();
    sink.put(buffer.format(value).as_bytes());
}

// A word and another behind it, both behind a blank.
pub(crate) fn put_behind<S: Sink>(word: &[u8], text: &[u8], sink: &mut S)
    ensures { S.gives sink.old (behind_word word.now text.now) sink.new }
{
    sink.put(b" ");
    sink.put(word);
    sink.put(b" ");
    sink.put(text);
}

// A word and a number behind it, both behind a blank.
pub(crate) fn put_counted<S: Sink>(word: &[u8], value: u32, sink: &mut S)
    ensures { S.gives sink.old (behind_word word.now (decimal value)) sink.new }
{
    sink.put(b" ");
    sink.put(word);
    sink.put(b" ");
    put_number(value, sink);
}
