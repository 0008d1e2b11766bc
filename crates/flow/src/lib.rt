//! A packet and a match: which packets meet a match, when two matches overlap, when one lies inside another, and the
//! match that both together are.
#![tactic(auto)]

pub use crate::packets::InvalidPacket;
use field::Prefix;

mod matches;
mod packets;

/// How many words a packet has.
pub const PACKET_WORDS: usize = 6;

/// How many words a match has.
pub const MATCH_WORDS: usize = 9;

pub type PacketWords = [u32; PACKET_WORDS];

pub type MatchWords = [u32; MATCH_WORDS];

/// The flags: which values of a match are constrained, and that no packet meets it.
pub const IN_PORT: u32 = 1;

pub const PROTOCOL: u32 = 2;

pub const SOURCE_PORT: u32 = 4;

pub const DESTINATION_PORT: u32 = 8;

const EMPTY: u32 = 16;

// The flags of the two ports.
const PORTS: u32 = SOURCE_PORT + DESTINATION_PORT;

// The flags of which every empty match has one.
const EMPTY_FLAGS: u32 = PORTS + EMPTY;

// The flags that may stand together.
const KNOWN_FLAGS: u32 = IN_PORT + PROTOCOL + PORTS;

// All flags.
const FLAGS: u32 = KNOWN_FLAGS + EMPTY;

// In-ports and ports are below the one, protocols below the other.
const PORT_LIMIT: u32 = 65536;

const PROTOCOL_LIMIT: u32 = 256;

// The protocols that have ports.
const TCP: u32 = 6;

const UDP: u32 = 17;

#[derive(Clone, Copy)]
pub struct Packet {
    pub in_port: u32,
    pub source: u32,
    pub destination: u32,
    pub protocol: u32,
    pub source_port: u32,
    pub destination_port: u32,
}

/// The flags are bits of a word beside the values, since any nine words are a match and are written again as they were.
/// The kit's `bitflags` would keep all bits as well: a dependency more for the same `&`.
#[derive(Clone, Copy, PartialEq, Eq)]
pub struct Match {
    pub in_port: u32,
    pub source: Prefix,
    pub destination: Prefix,
    pub protocol: u32,
    pub source_port: u32,
    pub destination_port: u32,
    pub flags: u32,
}
