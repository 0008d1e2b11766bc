//! Packets: their six words, and the values that are right in them.

ghost use Rattle.std.specs.Prelude.{◌≡◌};
ghost use Rattle.flow.specs.Packet.{right_packet};

use crate::{PACKET_WORDS, PORT_LIMIT, PROTOCOL_LIMIT, Packet, PacketWords};
use words::{Spelling, Written, copy, word};

/// Some words are no packet: they are not six, or a value lies outside its range.
#[derive(Clone, Copy, PartialEq, Eq)]
pub struct InvalidPacket;

impl Packet {
    /// Whether the values of the packet are in their ranges.
    pub fn is_right(self) -> bool
        ensures { result ≡ right_packet self }
    {
        (self.in_port < PORT_LIMIT)
            & (self.protocol < PROTOCOL_LIMIT)
            & (self.source_port < PORT_LIMIT)
            & (self.destination_port < PORT_LIMIT)
    }
}

// The packet that some words are: six of them, with values in their ranges.
impl TryFrom<&[u32]> for Packet {
    type Error = InvalidPacket;

    ghost use Rattle.std.specs.Prelude.{◌≡◌};
    ghost use Rattle.flow.specs.Packet.{packet_in};

    ghost try_from_gives = { λ words r. r ≡ packet_in words.now };

    #[tactic(auto, unfolding(crate::specs::Packet::packet_in, crate::specs::Packet::right_packet_words))]
    fn try_from(words: &[u32]) -> Result<Packet, InvalidPacket> {
        let packet = Packet::read(words);
        if (words.len() == PACKET_WORDS) & packet.is_right() {
            Ok(packet)
        } else {
            Err(InvalidPacket)
        }
    }
}

impl Spelling for Packet {
    type Item = Packet;

    ghost use Rattle.flow.specs.Packet.{packet_length, packet_of};
    ghost use Rattle.flow.specs.Spelled.{packet-some};

    ghost WORDS = { packet_length };

    const WORDS: usize = PACKET_WORDS;

    ghost of_words = { packet_of };

    ghost some = { packet-some };

    fn read(words: &[u32]) -> Packet {
        Packet {
            in_port: word(words, 0),
            source: word(words, 1),
            destination: word(words, 2),
            protocol: word(words, 3),
            source_port: word(words, 4),
            destination_port: word(words, 5),
        }
    }
}

impl Written for Packet {
    ghost use Rattle.flow.specs.Packet.{packet_words};
    ghost use Rattle.flow.specs.Spelled.{packet-long, packet_back};

    ghost to_words = { packet_words };

    ghost long = { packet-long };

    ghost back = { packet_back };

    fn write(words: &mut [u32], at: usize, item: Packet) {
        copy(words, at, &PacketWords::from(item));
    }
}

// The packet's six words.
impl From<Packet> for PacketWords {
    ghost use Rattle.std.specs.Prelude.{◌≡◌};
    ghost use Rattle.flow.specs.Packet.{packet_words};

    ghost from_gives = { λ p r. r ≡ packet_words p };

    fn from(packet: Packet) -> PacketWords {
        [
            packet.in_port,
            packet.source,
            packet.destination,
            packet.protocol,
            packet.source_port,
            packet.destination_port,
        ]
    }
}
