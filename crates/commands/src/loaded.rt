//! A policy as a command has it: with its names, and as the words of its file.

use crate::laws::law_problem;
use crate::names::{Placed, rule_at};
use crate::page::put_word;
use crate::problem::{Code, Problem};
use crate::refused::refusal_problem;
use canon::Kept;
use decimals::begins_with_digit;
use faults::{number, put_message};
use notation::{Fault, Policy, ReadError, read};
use policy::{ATOM_WORDS, Layout};
use std::alloc::{AllocError, Global};
use streams::Sink;
use tokens::Tokens;
use translate::{FromError, from_words, to_words};

/// A policy, the words of its file, and what that holds; of a text of words the places of these.
#[derive(Drop)]
pub struct Loaded {
    pub policy: Policy,
    pub words: Vec<u32>,
    pub layout: Layout,
    places: Vec<usize>,
}

impl Loaded {
    /// The words of its atoms.
    pub(crate) fn atoms(&self) -> &[u32] {
        let first = self.layout.first_atom();
        let end = first.saturating_add(self.layout.atoms.saturating_mul(ATOM_WORDS));
        self.words.get(first..end).unwrap_or(&[])
    }

    /// Where the rule of an atom stands in the text.
    pub(crate) fn place_of_rule(&self, atom: usize) -> Option<usize> {
        let word = self
            .layout
            .first_atom()
            .saturating_add(atom.saturating_mul(ATOM_WORDS));
        match (self.places.get(word), rule_at(&self.policy, atom)) {
            (Some(place), _) => Some(*place),
            (None, Some(Placed { rule, .. })) => Some(rule.at),
            (None, None) => None,
        }
    }
}

/// The policy that a text is, in the notation or in decimal words, or what is wrong in it.
pub(crate) fn load(alloc: Global, text: &[u8]) -> Result<Result<Loaded, Problem>, AllocError> {
    if begins_with_digit(text) {
        load_words(alloc, text)
    } else {
        load_text(alloc, text)
    }
}

// The policy that a text in the notation is.
fn load_text(alloc: Global, text: &[u8]) -> Result<Result<Loaded, Problem>, AllocError> {
    let policy = match read(alloc, text) {
        Ok(policy) => policy,
        Err(ReadError::Fault(fault)) => return Ok(Err(fault_problem(alloc, text, fault)?)),
        Err(ReadError::Memory) => return Err(AllocError),
    };
    let words = to_words(alloc, &policy)?;
    match policy::read(&words) {
        Ok(layout) => Ok(Ok(Loaded {
            policy,
            words,
            layout,
            places: Vec::new(alloc),
        })),
        Err(refusal) => Ok(Err(law_problem(alloc, &words, Some(&policy), refusal)?)),
    }
}

// The policy that a text of decimal words is.
fn load_words(alloc: Global, text: &[u8]) -> Result<Result<Loaded, Problem>, AllocError> {
    let words = match decimals::read(alloc, text) {
        Ok(words) => words,
        Err(decimals::ReadError::Fault(at)) => return Ok(Err(number_problem(alloc, text, at)?)),
        Err(decimals::ReadError::Memory) => return Err(AllocError),
    };
    let places = places_of(alloc, text)?;
    let policy = match from_words(alloc, &words) {
        Ok(policy) => policy,
        Err(FromError::Refused(refusal)) => {
            return Ok(Err(refusal_problem(alloc, &words, &places, text.len(), refusal)?));
        }
        Err(FromError::Memory) => return Err(AllocError),
    };
    match policy::read(&words) {
        Ok(layout) => Ok(Ok(Loaded {
            policy,
            words,
            layout,
            places,
        })),
        Err(refusal) => Ok(Err(refusal_problem(alloc, &words, &places, text.len(), refusal)?)),
    }
}

// The places of all words of a text.
fn places_of(alloc: Global, text: &[u8]) -> Result<Vec<usize>, AllocError> {
    let mut places = Vec::new(alloc);
    let mut tokens = Tokens::of(text);
    // A text has no more words than bytes.
    for _ in 0..text.len() {
        if tokens.ended() {
            break;
        }
        places.push(tokens.at())?;
        tokens.advance();
    }
    Ok(places)
}

// A fault of the notation, without the place that its message begins with.
fn fault_problem(alloc: Global, text: &[u8], fault: Fault) -> Result<Problem, AllocError> {
    let mut line = Kept::new(alloc);
    put_message(text, fault, &mut line);
    let line = line.into_bytes()?;
    let start = line.iter().position(|byte| *byte == b' ').unwrap_or(0);
    let message = line.get(start..).unwrap_or(&line);
    let message = message.strip_prefix(b" ").unwrap_or(message);
    let message = message.strip_suffix(b"\n").unwrap_or(message);
    Ok(Problem {
        code: Code::Fault(number(fault)),
        at: Some(fault.at),
        message: Vec::from_slice(alloc, message)?,
        help: Vec::new(alloc),
        rule: Vec::new(alloc),
    })
}

// A word that is no number.
fn number_problem(alloc: Global, text: &[u8], at: usize) -> Result<Problem, AllocError> {
    let mut message = Kept::new(alloc);
    message.put(b"found ");
    put_word(
        Tokens::of(text.get(at..).unwrap_or(b"")).word(),
        &mut message,
    );
    message.put(b", wanted a number below 4,294,967,296, with no zero before it");
    Ok(Problem {
        code: Code::Unread,
        at: Some(at),
        message: message.into_bytes()?,
        help: Vec::from_slice(
            alloc,
            b"a text that begins with a number is read as the words of a policy file, see docs/FORMAT.md",
        )?,
        rule: Vec::new(alloc),
    })
}
