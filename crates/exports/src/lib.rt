//! The scan and the numbering for a switch agent that is written in C: tables, packets and buffers are bytes, the
//! lowest of each word first. The static library `agent` has both under their C names.
#![tactic(auto)]

ghost use Rattle.std.specs.Prelude.{◌≡◌, ◌*◌, ◌^◌, ◌<◌, length};
ghost use Rattle.words.specs.Records.{flat};
ghost use Rattle.words.specs.Bytes.{word_bytes, words_in, bytes_of};
ghost use Rattle.table.specs.Scan.{scan_of};
ghost use Rattle.refusal.specs.Refusals.{refusal_number};
ghost use Rattle.exports.specs.Exports.{answer_length, whole_words, answer_sized, refused_words};
ghost use Rattle.exports.specs.Exports.{scan_right, scan_number, scan_answer};
ghost use Rattle.exports.specs.Exports.{numbering_right, numbering_number, numbering_answer, priorities_left, chain_left};

use flow::PACKET_WORDS;
use priority::number;
use refusal::{Reason, Refusal};
use table::{Found, scan};
use words::{WORD_BYTES, from_bytes, to_bytes};

/// How many words an answer has: a place, and three values.
pub const ANSWER_WORDS: usize = 4;

// The same in bytes.
const ANSWER_BYTES: usize = WORD_BYTES * ANSWER_WORDS;

/// Scans a table for a packet. Fills the answer with the place of the refusal, 0 where there is none, the action's kind
/// and rate, and how many rows were tried; zeros for these after a refusal. Answers the number of the refusal, or 0:
/// 21 for a length that is not of whole words or an answer that is not of 16 bytes, and then nothing is written; 11, 15
/// and 16 as a scan of the words has them. The table is read where it lies, wherever that is.
pub fn agent_scan(table: &[u8], packet: &[u8], answer: &mut [u8]) -> u32
    ensures value { result ≡ scan_number table.now packet.now answer.old }
    ensures answer_after { answer.new ≡ scan_answer table.now packet.now answer.old }
{
    if !scan_right(table, packet, answer) {
        return Reason::WrongBytes.number();
    }
    match scan_bytes(table, packet) {
        Ok(Found { action, tried }) => {
            to_bytes(&[0, action.kind(), action.rate(), tried as u32], answer);
            0
        }
        Err(refusal) => refuse(refusal, answer),
    }
}

/// Numbers a table: row i's priority goes to word i of one buffer, the chain to the first words of the other, and all
/// bytes behind these stay. Fills the answer with the place of the refusal, 0 where there is none, how many priorities
/// there are, and two zeros; zeros after a refusal. Answers the number of the refusal, or 0: 21 for a length that is
/// not of whole words or an answer that is not of 16 bytes, and then nothing is written; 15, 16 and 17 as the numbering
/// of the words has them, and then both buffers stay. It works in the two buffers, and takes no others.
pub fn agent_number(table: &[u8], priorities: &mut [u8], chain: &mut [u8], answer: &mut [u8]) -> u32
    ensures value { result ≡ numbering_number table.now priorities.old chain.old answer.old }
    ensures answer_after { answer.new
        ≡ numbering_answer table.now priorities.old chain.old answer.old }
    ensures priorities_after { priorities.new
        ≡ priorities_left table.now priorities.old chain.old answer.old }
    ensures chain_after { chain.new ≡ chain_left table.now priorities.old chain.old answer.old }
{
    if !numbering_right(table, priorities, chain, answer) {
        return Reason::WrongBytes.number();
    }
    match number(table, priorities, chain) {
        Ok(count) => {
            to_bytes(&[0, count, 0, 0], answer);
            0
        }
        Err(refusal) => refuse(refusal, answer),
    }
}

// Whether the lengths that a scan is given are right.
fn scan_right(table: &[u8], packet: &[u8], answer: &[u8]) -> bool
    ensures { result ≡ scan_right table.now packet.now answer.now }
{
    whole_words(table) & whole_words(packet) & answer_sized(answer)
}

// Whether those that a numbering is given are right.
fn numbering_right(table: &[u8], priorities: &[u8], chain: &[u8], answer: &[u8]) -> bool
    ensures { result ≡ numbering_right table.now priorities.now chain.now answer.now }
{
    whole_words(table) & whole_words(priorities) & whole_words(chain) & answer_sized(answer)
}

// Whether bytes are whole words.
fn whole_words(bytes: &[u8]) -> bool
    ensures { result ≡ whole_words bytes.now }
{
    bytes.len() % WORD_BYTES == 0
}

// Whether a buffer is as long as an answer.
fn answer_sized(answer: &[u8]) -> bool
    ensures { result ≡ answer_sized answer.now }
{
    answer.len() == ANSWER_BYTES
}

// Scans a table for the packet that bytes are.
#[tactic(auto, unfolding(table::specs::Scan::scan_of))]
fn scan_bytes(table: &[u8], packet: &[u8]) -> Result<Found, Refusal>
    ensures { result ≡ scan_of (words_in table.now) (words_in packet.now) }
{
    // The packet's words are copied: a packet is read from numbers.
    if packet.len() / WORD_BYTES != PACKET_WORDS {
        return Err(Reason::WrongPacket.at(0));
    }
    let mut words = [0; PACKET_WORDS];
    from_bytes(packet, &mut words);
    scan(table, &words)
}

// Fills an answer with a refusal's place, and answers its number.
fn refuse(refusal: Refusal, answer: &mut [u8]) -> u32
    requires room { length answer.old ≡ answer_length }
    requires place { refusal.place < 2 ^ 32 }
    ensures value { result ≡ refusal_number refusal }
    ensures answer_after { answer.new ≡ flat bytes_of (refused_words refusal) }
{
    to_bytes(&[refusal.place as u32, 0, 0, 0], answer);
    refusal.reason.number()
}
