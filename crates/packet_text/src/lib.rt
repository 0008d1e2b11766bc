//! A packet as a text of six words, read and put: in-port, source, destination, protocol, source port and destination
//! port.
#![tactic(auto)]

ghost use Rattle.std.specs.Prelude.{◌≡◌};
ghost use Rattle.std.specs.Fmt.{decimal};
ghost use Rattle.tokens.specs.Tokens.{at};
ghost use Rattle.tokens.specs.Left.{left};
ghost use Rattle.values.specs.Numbers.{up_to};
ghost use Rattle.packet_text.specs.Reading.{fault_at, some_or, gave, port_at, address_in, address_at};
ghost use Rattle.packet_text.specs.Reading.{protocol_in, protocol_at, values_at, packet_read};
ghost use Rattle.packet_text.specs.Text.{protocol_text, packet_text};

use canon::put_address;
use field::{ADDRESS_BITS, Prefix};
use flow::Packet;
use itoa::Buffer;
use streams::Sink;
use tokens::Tokens;
use values::{ICMP, NoPrefix, TCP, UDP, number_of, prefix_of, protocol_of};

// The largest port.
const LARGEST_PORT: u32 = 65_535;

// The largest protocol.
const LARGEST_PROTOCOL: u32 = 255;

/// What was wanted where another word stands.
#[derive(Clone, Copy, PartialEq, Eq)]
pub enum Wanted {
    /// A number of at most 65,535, for the in-port.
    InPort,
    /// An address, for the source.
    Source,
    /// An address, for the destination.
    Destination,
    /// A number of at most 255, `tcp`, `udp` or `icmp`.
    Protocol,
    /// A number of at most 65,535, for the source port.
    SourcePort,
    /// A number of at most 65,535, for the destination port.
    DestinationPort,
    /// Nothing, behind the six words.
    End,
}

/// The first fault of a text: the byte where the word starts that is wrong, and what was wanted there.
#[derive(Clone, Copy, PartialEq, Eq)]
pub struct Fault {
    /// The byte, counted from 0.
    pub at: usize,
    /// What was wanted.
    pub wanted: Wanted,
}

/// The packet that a text is, or its first fault.
#[tactic(auto, unfolding(crate::specs::Reading::packet_read))]
pub fn read(text: &[u8]) -> Result<Packet, Fault>
    ensures { result ≡ packet_read text.now }
{
    let mut tokens = Tokens::of(text);
    let packet = read_values(&mut tokens)?;
    if tokens.ended() {
        Ok(packet)
    } else {
        Err(wrong(Wanted::End, &tokens))
    }
}

/// Puts a packet's six words into a sink, with a blank between each two and no end of a line.
#[tactic(auto, unfolding(crate::specs::Text::packet_text))]
pub fn put_packet<S: Sink>(packet: Packet, sink: &mut S)
    ensures { S.gives sink.old (packet_text packet) sink.new }
{
    put_number(packet.in_port, sink);
    sink.put(b" ");
    put_address(packet.source, sink);
    sink.put(b" ");
    put_address(packet.destination, sink);
    sink.put(b" ");
    put_protocol(packet.protocol, sink);
    sink.put(b" ");
    put_number(packet.source_port, sink);
    sink.put(b" ");
    put_number(packet.destination_port, sink);
}

// The six values of a packet, one behind the other.
#[tactic(auto, unfolding(crate::specs::Reading::values_at))]
fn read_values(tokens: &mut Tokens) -> Result<Packet, Fault>
    ensures { gave result (left tokens.new) ≡ values_at (left tokens.old) }
{
    let in_port = read_port(Wanted::InPort, tokens)?;
    let source = read_address(Wanted::Source, tokens)?;
    let destination = read_address(Wanted::Destination, tokens)?;
    let protocol = read_protocol(tokens)?;
    let source_port = read_port(Wanted::SourcePort, tokens)?;
    let destination_port = read_port(Wanted::DestinationPort, tokens)?;
    Ok(Packet {
        in_port,
        source,
        destination,
        protocol,
        source_port,
        destination_port,
    })
}

// A port.
#[tactic(auto, unfolding(crate::specs::Reading::port_at))]
fn read_port(wanted: Wanted, tokens: &mut Tokens) -> Result<u32, Fault>
    ensures { gave result (left tokens.new) ≡ port_at wanted (left tokens.old) }
{
    let found = at_most(LARGEST_PORT, number_of(tokens.word()));
    value(found, wanted, tokens)
}

// An address.
#[tactic(auto, unfolding(crate::specs::Reading::address_at))]
fn read_address(wanted: Wanted, tokens: &mut Tokens) -> Result<u32, Fault>
    ensures { gave result (left tokens.new) ≡ address_at wanted (left tokens.old) }
{
    let found = address_in(prefix_of(tokens.word()));
    value(found, wanted, tokens)
}

// A protocol.
#[tactic(auto, unfolding(crate::specs::Reading::protocol_at))]
fn read_protocol(tokens: &mut Tokens) -> Result<u32, Fault>
    ensures { gave result (left tokens.new) ≡ protocol_at (left tokens.old) }
{
    let found = protocol_in(tokens.word());
    value(found, Wanted::Protocol, tokens)
}

// Goes on behind a word that has a value.
fn value(found: Option<u32>, wanted: Wanted, tokens: &mut Tokens) -> Result<u32, Fault>
    ensures { gave result (left tokens.new) ≡ some_or wanted found (left tokens.old) }
{
    match found {
        Some(value) => {
            tokens.advance();
            Ok(value)
        }
        None => Err(wrong(wanted, tokens)),
    }
}

// The first word is not what was wanted.
fn wrong(wanted: Wanted, tokens: &Tokens) -> Fault
    ensures { result ≡ fault_at (at (left tokens.now)) wanted }
{
    Fault {
        at: tokens.at(),
        wanted,
    }
}

// A number, if it is no more than a limit.
fn at_most(limit: u32, found: Option<u32>) -> Option<u32>
    ensures { result ≡ up_to limit found }
{
    match found {
        Some(number) if number <= limit => Some(number),
        _ => None,
    }
}

// The address of a prefix of one address.
fn address_in(found: Result<Prefix, NoPrefix>) -> Option<u32>
    ensures { result ≡ address_in found }
{
    match found {
        Ok(prefix) if prefix.length == ADDRESS_BITS => Some(prefix.address),
        _ => None,
    }
}

// The protocol that a word is, by its name or its number.
#[tactic(auto, unfolding(crate::specs::Reading::protocol_in))]
fn protocol_in(word: &[u8]) -> Option<u32>
    ensures { result ≡ protocol_in word.now }
{
    match protocol_of(word) {
        Some(protocol) => Some(protocol),
        None => at_most(LARGEST_PROTOCOL, number_of(word)),
    }
}

// A protocol by its name, if it has one, or else by its number.
fn put_protocol<S: Sink>(protocol: u32, sink: &mut S)
    ensures { S.gives sink.old (protocol_text protocol) sink.new }
{
    match protocol {
        6 => sink.put(TCP),
        17 => sink.put(UDP),
        1 => sink.put(ICMP),
        _ => put_number(protocol, sink),
    }
}

// A number with no zero before it.
fn put_number<S: Sink>(value: u32, sink: &mut S)
    ensures { S.gives sink.old (decimal value) sink.new }
{
    let mut buffer = Buffer::new();
    sink.put(buffer.format(value).as_bytes());
}
