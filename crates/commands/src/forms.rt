//! `fmt` and `convert`: a policy in its canonical text, as decimal words, and as the bytes of its file.

use crate::answer::{Answer, Format, Source};
use crate::loaded::load;
use crate::problem::{Code, Problem};
use canon::{Kept, put_policy};
use decimals::{begins_with_digit, put_words};
use std::alloc::{AllocError, Global};
use streams::Sink;

/// What a policy can be written as.
#[derive(Clone, Copy, PartialEq, Eq)]
pub enum Form {
    /// A text in the notation.
    Notation,
    /// A text of decimal words.
    Words,
    /// The bytes of the words, the lowest of each first.
    Bytes,
    /// The notation for a text of words, and words for a text in the notation.
    Other,
}

/// The canonical text of the policy in a text. Comments are not kept, which is said on standard error.
pub fn reformat(alloc: Global, source: Source<'_>) -> Result<Answer, AllocError> {
    convert(alloc, source, Form::Notation)
}

/// Whether a text is the canonical text of its policy, byte by byte, so without comments. If it is not, where they part.
pub fn check_form(alloc: Global, source: Source<'_>) -> Result<Answer, AllocError> {
    let canonical = convert(alloc, source, Form::Notation)?;
    if !canonical.yes {
        return Ok(canonical);
    }
    if canonical.out.as_slice() == source.text {
        return Answer::yes(alloc, Kept::new(alloc));
    }
    let problem = Problem {
        code: Code::Unread,
        at: Some(parting(&canonical.out, source.text)),
        message: Vec::from_slice(
            alloc,
            b"the text differs from its canonical text, first here",
        )?,
        help: Vec::from_slice(alloc, b"`fmt` prints the canonical text, without comments")?,
        rule: Vec::new(alloc),
    };
    Answer::refused(alloc, source, &problem, Format::Words)
}

// The place of the first byte in which two texts differ, or where the shorter ends.
fn parting(one: &[u8], other: &[u8]) -> usize {
    let shorter = usize::min(one.len(), other.len());
    one.iter()
        .zip(other)
        .position(|(left, right)| left != right)
        .unwrap_or(shorter)
}

/// The policy in a text as another form has it.
pub fn convert(alloc: Global, source: Source<'_>, form: Form) -> Result<Answer, AllocError> {
    let loaded = match load(alloc, source.text)? {
        Ok(loaded) => loaded,
        Err(problem) => return Answer::refused(alloc, source, &problem, Format::Words),
    };
    let mut out = Kept::new(alloc);
    match (form, begins_with_digit(source.text)) {
        (Form::Notation, _) | (Form::Other, true) => put_policy(&loaded.policy, &mut out),
        (Form::Words, _) | (Form::Other, false) => put_words(&loaded.words, &mut out),
        (Form::Bytes, _) => {
            for word in &loaded.words {
                out.put(&word.to_le_bytes());
            }
        }
    }
    let mut err = Kept::new(alloc);
    if source.text.contains(&b'#') {
        err.put(b"note: the comments of ");
        err.put(source.name.as_bytes());
        err.put(b" are not in what is printed\n");
    }
    Ok(Answer {
        yes: true,
        out: out.into_bytes()?,
        err: err.into_bytes()?,
    })
}
