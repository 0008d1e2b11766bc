//! What is answered, as words.

use crate::frames::Frame;
use canon::{Kept, text_of};
use faults::{number, put_message};
use flow::MatchWords;
use notation::{Fault, NamedNode, NamedOperator, Policy, ReadError, Reason, Rule, read};
use std::alloc::{AllocError, Global};
use std::io;
use std::rt::Clock;
use std::time::Instant;
use tokens::place_of;
use translate::{FromError, from_words, to_words};

// The kinds of frames.
const READ: u32 = 1;

const CANONICAL: u32 = 2;

const MESSAGE: u32 = 3;

const TIME: u32 = 4;

// How many readings are timed.
const READINGS: u32 = 200;

// What is added to the number of a policy file's refusal, which is no fault of a text.
const REFUSED: u32 = 100;

/// The answer to a frame; none to a kind that there is not.
pub fn reply(alloc: Global, clock: &impl Clock, frame: &Frame) -> io::Result<Vec<u32>> {
    match frame.kind {
        READ => Ok(reply_read(alloc, &frame.bytes)?),
        CANONICAL => Ok(reply_canonical(alloc, &frame.bytes)?),
        MESSAGE => Ok(reply_message(alloc, &frame.bytes)?),
        TIME => reply_time(alloc, clock, &frame.bytes),
        _ => Ok(Vec::new(alloc)),
    }
}

// A policy with all that it holds, or a fault.
fn reply_read(alloc: Global, text: &[u8]) -> Result<Vec<u32>, AllocError> {
    match read(alloc, text) {
        Ok(policy) => {
            let mut words = Vec::new(alloc);
            words.push(0)?;
            put_operators(policy.operators(), &mut words)?;
            put_nodes(policy.nodes(), &mut words)?;
            let file = to_words(alloc, &policy)?;
            words.push(word(file.len()))?;
            words.extend_from_slice(&file)?;
            Ok(words)
        }
        Err(ReadError::Fault(fault)) => reply_fault(alloc, text, fault),
        Err(ReadError::Memory) => Err(AllocError),
    }
}

// A fault's number, its place, line and column, and what else it tells.
fn reply_fault(alloc: Global, text: &[u8], fault: Fault) -> Result<Vec<u32>, AllocError> {
    let place = place_of(text, fault.at);
    let mut words = Vec::new(alloc);
    words.push(number(fault))?;
    words.push(word(fault.at))?;
    words.push(word(place.line))?;
    words.push(word(place.column))?;
    match fault.reason {
        Reason::Twice(at) | Reason::Unclosed(at) => words.push(word(at))?,
        Reason::Unknown(None) => words.extend_from_slice(&[0, 0])?,
        Reason::Unknown(Some(at)) => words.extend_from_slice(&[1, word(at)])?,
        Reason::HostBits(prefix) => words.extend_from_slice(&[prefix.address, prefix.length])?,
        _ => {}
    }
    Ok(words)
}

fn put_operators(operators: &[NamedOperator], words: &mut Vec<u32>) -> Result<(), AllocError> {
    words.push(word(operators.len()))?;
    for operator in operators {
        words.push(word(operator.at))?;
        put_bytes(&operator.name, words)?;
        words.extend_from_slice(&operator.operator.cells)?;
    }
    Ok(())
}

fn put_nodes(nodes: &[NamedNode], words: &mut Vec<u32>) -> Result<(), AllocError> {
    words.push(word(nodes.len()))?;
    for node in nodes {
        words.push(word(node.at))?;
        put_bytes(&node.name, words)?;
        words.push(word(node.depth))?;
        words.push(word(node.inner))?;
        words.push(word(node.sibling))?;
        words.push(word(node.parent))?;
        put_rules(&node.rules, words)?;
    }
    Ok(())
}

fn put_rules(rules: &[Rule], words: &mut Vec<u32>) -> Result<(), AllocError> {
    words.push(word(rules.len()))?;
    for rule in rules {
        words.push(word(rule.at))?;
        put_bytes(&rule.label, words)?;
        let matching: MatchWords = rule.row.matching.into();
        words.extend_from_slice(&matching)?;
        words.push(rule.row.action.kind())?;
        words.push(rule.row.action.rate())?;
    }
    Ok(())
}

// A number as a word; one that is too large as the largest.
pub fn word(number: usize) -> u32 {
    u32::try_from(number).unwrap_or(u32::MAX)
}

// How many bytes there are, and each as a word.
fn put_bytes(bytes: &[u8], words: &mut Vec<u32>) -> Result<(), AllocError> {
    words.push(word(bytes.len()))?;
    for byte in bytes {
        words.push(u32::from(*byte))?;
    }
    Ok(())
}

// The canonical text of a policy file, or the file's refusal.
fn reply_canonical(alloc: Global, bytes: &[u8]) -> Result<Vec<u32>, AllocError> {
    let words = words_in(alloc, bytes)?;
    let mut answer = Vec::new(alloc);
    match from_words(alloc, &words) {
        Ok(policy) => {
            answer.push(0)?;
            put_bytes(&text_of(alloc, &policy)?, &mut answer)?;
        }
        Err(FromError::Refused(refusal)) => {
            answer.push(REFUSED + refusal.reason.number())?;
            answer.push(word(refusal.place))?;
        }
        Err(FromError::Memory) => return Err(AllocError),
    }
    Ok(answer)
}

// The words that some bytes are, the lowest byte first; bytes behind the last whole word are left out.
fn words_in(alloc: Global, bytes: &[u8]) -> Result<Vec<u32>, AllocError> {
    let mut words = Vec::new(alloc);
    for word in bytes.chunks_exact(4) {
        let [a, b, c, d] = [word[0], word[1], word[2], word[3]];
        words.push(u32::from_le_bytes([a, b, c, d]))?;
    }
    Ok(words)
}

// The message of a text's fault, byte by byte; nothing for a text that is read.
fn reply_message(alloc: Global, text: &[u8]) -> Result<Vec<u32>, AllocError> {
    let mut answer = Vec::new(alloc);
    match read(alloc, text) {
        Ok(_) => Ok(answer),
        Err(ReadError::Fault(fault)) => {
            put_bytes(&message_of(alloc, text, fault)?, &mut answer)?;
            Ok(answer)
        }
        Err(ReadError::Memory) => Err(AllocError),
    }
}

fn message_of(alloc: Global, text: &[u8], fault: Fault) -> Result<Vec<u8>, AllocError> {
    let mut message = Kept::new(alloc);
    put_message(text, fault, &mut message);
    message.into_bytes()
}

// How long it takes to read a text: the nanoseconds of the quickest of so many readings, low word first.
fn reply_time(alloc: Global, clock: &impl Clock, text: &[u8]) -> io::Result<Vec<u32>> {
    let mut least = u64::MAX;
    for _ in 0..READINGS {
        let start = Instant::now(clock)?;
        let _ = read(alloc, text);
        let taken = start.elapsed(clock)?;
        least = least.min(u64::try_from(taken.as_nanos()).unwrap_or(u64::MAX));
    }
    Ok(vec![in alloc; (least & 0xffff_ffff) as u32, (least >> 32) as u32]?)
}
