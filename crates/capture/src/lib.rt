//! Captures: packets that stand one behind the other, each scanned in one table, which is tested once.
#![tactic(auto)]

ghost use Rattle.std.specs.Prelude.{◌≡◌, ◌≤◌, ◌*◌, length, map};
ghost use Rattle.words.specs.Words.{laid};
ghost use Rattle.row.specs.Row.{most_rows, row_of};
ghost use Rattle.table.specs.Scan.{found};
ghost use Rattle.capture.specs.Capture.{found_length, found_words, packet_count, right_capture, check_packets};
ghost use Rattle.capture.specs.Capture.{capture_of, captured_words, answers_after};

use action::Action;
use flow::{PACKET_WORDS, Packet};
use refusal::{Reason, Refusal};
use row::{RowWords, row_action};
use table::{Table, first_met};
use units::Unit;
use words::Records;

/// The most packets that a capture may have.
pub const MOST_PACKETS: usize = 4096;

/// How many words are written for a packet: the action's kind and rate, and how many rows were tried.
pub const FOUND_WORDS: usize = 3;

/// Scans a table for each packet of a capture. At the start of the lent buffer it writes, packet by packet, what a scan
/// finds, `FOUND_WORDS` words each; the words behind them stay. Answers how many packets there are. A refusal leaves
/// every word as it is: 19 for words that are not whole packets or too many, 11 at the first wrong packet's number, 15
/// and 16 as the check of a table has them, 20 for a buffer that is too short.
pub fn scan_capture(table: &[u32], packets: &[u32], answers: &mut [u32]) -> Result<usize, Refusal>
    ensures value { result ≡ capture_of table.now packets.now (length answers.old) }
    ensures answers_after { answers.new ≡ answers_after table.now packets.now answers.old }
{
    let count = check_packets(packets)?;
    let table = Table::try_from(table)?;
    if answers.len() < count * FOUND_WORDS {
        return Err(Reason::ShortAnswers.at(0));
    }
    scan_packets(table, packets, answers);
    Ok(count)
}

// The first wrong packet, or how many packets there are.
#[tactic(auto, unfolding(crate::specs::Capture::check_packets))]
fn check_packets(packets: &[u32]) -> Result<usize, Refusal>
    ensures { result ≡ check_packets packets.now }
{
    if !right_capture(packets) {
        return Err(Reason::WrongCapture.at(0));
    }
    // The packets before packet i are right.
    for (i, packet) in packets.chunks_exact(PACKET_WORDS).enumerate() {
        if Packet::try_from(packet).is_err() {
            return Err(Reason::WrongPacket.at(i));
        }
    }
    Ok(packets.len() / PACKET_WORDS)
}

// Whether the words of a capture are packets, and not too many.
#[tactic(auto, unfolding(crate::specs::Capture::right_capture))]
fn right_capture(packets: &[u32]) -> bool
    ensures { result ≡ right_capture packets.now }
{
    (packets.len() % PACKET_WORDS == 0) & (packets.len() / PACKET_WORDS <= MOST_PACKETS)
}

// Stores what is found for each packet.
fn scan_packets(table: Table<'_, u32>, packets: &[u32], answers: &mut [u32])
    requires { packet_count packets.now * found_length ≤ length answers.old }
    ensures { answers.new ≡ laid 0 (captured_words table.entry.units.now packets.now) answers.old }
{
    let rows = u32::rows(table.units);
    // What is found for the packets before packet i is stored.
    for (i, packet) in Records::<Packet>::of(packets).enumerate() {
        let at = i * FOUND_WORDS;
        let found = find(rows, packet);
        answers[at..at + FOUND_WORDS].copy_from_slice(&found);
    }
}

// What is found for a packet among the rows of a right table.
#[inline]
fn find(rows: &[RowWords], packet: Packet) -> [u32; FOUND_WORDS]
    requires { length rows.now ≤ most_rows }
    ensures { result ≡ found_words (found 0 (map row_of rows.now) packet) }
{
    match first_met(rows, packet) {
        Some(place) => found_words(row_action(&rows[place]), place as u32 + 1),
        None => found_words(Action::DONT_CARE, rows.len() as u32),
    }
}

// The words of what is found.
fn found_words(action: Action, tried: u32) -> [u32; FOUND_WORDS]
    ensures { result ≡ found_words (record { action = action; tried = tried }) }
{
    [action.kind(), action.rate(), tried]
}
