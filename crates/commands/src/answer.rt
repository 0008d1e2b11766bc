//! What a command takes and gives.

use crate::problem::Problem;
use crate::{json, problem};
use canon::Kept;
use serde_json::json;
use std::alloc::{AllocError, Global};

/// A text, and the name under which it was read.
#[derive(Clone, Copy)]
pub struct Source<'a> {
    pub name: &'a str,
    pub text: &'a [u8],
}

/// For whom a command prints.
#[derive(Clone, Copy, PartialEq, Eq)]
pub enum Format {
    /// For people, aligned and in words.
    Words,
    /// The listing of docs/FORMAT.md.
    Listing,
    /// For programs.
    Json,
}

/// What a command gives: whether all that was asked is answered with yes, and what goes to standard output and to
/// standard error.
#[derive(Drop)]
pub struct Answer {
    pub yes: bool,
    pub out: Vec<u8>,
    pub err: Vec<u8>,
}

impl Answer {
    // An answer of yes.
    pub(crate) fn yes(alloc: Global, out: Kept) -> Result<Answer, AllocError> {
        Ok(Answer {
            yes: true,
            out: out.into_bytes()?,
            err: Vec::new(alloc),
        })
    }

    // What stands in the place of an answer where a text is refused: the problem, for people on standard error.
    pub(crate) fn refused(
        alloc: Global,
        source: Source<'_>,
        problem: &Problem,
        format: Format,
    ) -> Result<Answer, AllocError> {
        if format == Format::Json {
            let error = json::problem(alloc, source, problem)?;
            let value = json!(in alloc; {"error": error})?;
            return Ok(Answer {
                yes: false,
                out: json::text(alloc, &value)?,
                err: Vec::new(alloc),
            });
        }
        let mut err = Kept::new(alloc);
        problem::put(source, problem, &mut err);
        Ok(Answer {
            yes: false,
            out: Vec::new(alloc),
            err: err.into_bytes()?,
        })
    }
}
