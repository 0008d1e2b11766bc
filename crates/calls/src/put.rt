//! Words and texts that are put into a sink, the lowest byte of each word first.

ghost use Rattle.std.specs.Prelude.{◌≡◌, ◌≤◌, length, replicate};
ghost use Rattle.words.specs.Words.{zeros};
ghost use Rattle.words.specs.Records.{flat};
ghost use Rattle.words.specs.Bytes.{bytes_of};
ghost use Rattle.calls.specs.declared.put.TheConstants.{BLOCK};
ghost use Rattle.calls.specs.Sent.{padding};

use streams::Sink;
use words::WORD_BYTES;

// How many words are put in at once.
const BLOCK: usize = 1024;

/// Puts words in.
pub fn put_words<S: Sink>(words: &[u32], sink: &mut S)
    ensures { S.gives sink.old (flat bytes_of words.now) sink.new }
{
    // The words of the blocks so far are put in.
    for block in words.chunks(BLOCK) {
        put_block(block, sink);
    }
}

#[tactic(auto, using(crate::proofs::Parts::bytes_stored, std::proofs::lemmas::Grind::common_steps))]
fn put_block<S: Sink>(words: &[u32], sink: &mut S)
    requires { length words.now ≤ BLOCK }
    ensures { S.gives sink.old (flat bytes_of words.now) sink.new }
{
    // An array, since no function over words takes memory from a heap.
    let mut bytes = [0u8; WORD_BYTES * BLOCK];
    words::to_bytes(words, &mut bytes);
    sink.put(&bytes[..WORD_BYTES * words.len()]);
}

// Puts so many zeros in.
pub(crate) fn put_zeros<S: Sink>(count: usize, sink: &mut S)
    ensures { S.gives sink.old (flat bytes_of (zeros count)) sink.new }
{
    // The zeros so far are put in.
    for _ in 0..count {
        put_words(&[0], sink);
    }
}

// Puts in the zeros that stand behind so many bytes, up to a whole word.
pub(crate) fn put_padding<S: Sink>(bytes: usize, sink: &mut S)
    ensures { S.gives sink.old (replicate (padding bytes) 0) sink.new }
{
    sink.put(&[0; WORD_BYTES][..padding(bytes)]);
}

// How many bytes stand behind so many, up to a whole word.
pub(crate) fn padding(bytes: usize) -> usize
    ensures { result ≡ padding bytes }
{
    (WORD_BYTES - bytes % WORD_BYTES) % WORD_BYTES
}
