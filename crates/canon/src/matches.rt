//! Matches, by their parts.

ghost use Rattle.std.specs.Prelude.{◌≡◌, ◌&&◌, ◌==◌, not};
ghost use Rattle.std.specs.Net.Text.{dotted_text};
ghost use Rattle.values.specs.Grammar.{address_text};
ghost use Rattle.canon.specs.Text.{value_text, protocol_name, protocol_text, written_prefix, some_prefix, side_text};
ghost use Rattle.canon.specs.Text.{parts_text, match_text};

use crate::parts::{FROM, IN, PORT, PROTOCOL, TO, put_counted, put_number};
use field::{ADDRESS_BITS, Prefix};
use flow::{DESTINATION_PORT, IN_PORT, Match, SOURCE_PORT};
use streams::Sink;

// The flag of the match that no packet meets.
const EMPTY: u32 = 16;

// The protocols that have a name.
const TCP: u32 = 6;

const UDP: u32 = 17;

const ICMP: u32 = 1;

/// Puts a match in the words of the notation, with a blank before each word.
#[tactic(auto, unfolding(crate::specs::Text::match_text))]
pub fn put_match<S: Sink>(matching: Match, sink: &mut S)
    ensures { S.gives sink.old (match_text matching) sink.new }
{
    if matching.constrains(EMPTY) {
        sink.put(b" never");
    } else if matching.flags == 0
        && matching.source.length == 0
        && matching.destination.length == 0
    {
        sink.put(b" any");
    } else {
        put_parts(matching, sink);
    }
}

// The parts of a match.
#[tactic(auto, unfolding(crate::specs::Text::parts_text))]
fn put_parts<S: Sink>(matching: Match, sink: &mut S)
    ensures { S.gives sink.old (parts_text matching) sink.new }
{
    put_value(IN, matching.constrains(IN_PORT), matching.in_port, sink);
    put_protocol(matching.constrains(flow::PROTOCOL), matching.protocol, sink);
    put_side(
        FROM,
        matching.source,
        matching.constrains(SOURCE_PORT),
        matching.source_port,
        sink,
    );
    put_side(
        TO,
        matching.destination,
        matching.constrains(DESTINATION_PORT),
        matching.destination_port,
        sink,
    );
}

// A value behind a word, if it is constrained.
#[tactic(auto, unfolding(crate::specs::Text::value_text))]
fn put_value<S: Sink>(word: &[u8], on: bool, value: u32, sink: &mut S)
    ensures { S.gives sink.old (value_text word.now on value) sink.new }
{
    if on {
        put_counted(word, value, sink);
    }
}

// A protocol, if it is constrained.
#[tactic(auto, unfolding(crate::specs::Text::protocol_text))]
fn put_protocol<S: Sink>(on: bool, protocol: u32, sink: &mut S)
    ensures { S.gives sink.old (protocol_text on protocol) sink.new }
{
    if on {
        put_protocol_name(protocol, sink);
    }
}

// A protocol by its name, if it has one, or else by its number.
fn put_protocol_name<S: Sink>(protocol: u32, sink: &mut S)
    ensures { S.gives sink.old (protocol_name protocol) sink.new }
{
    match protocol {
        TCP => sink.put(b" tcp"),
        UDP => sink.put(b" udp"),
        ICMP => sink.put(b" icmp"),
        _ => put_counted(PROTOCOL, protocol, sink),
    }
}

// A side behind a word, if it constrains something.
#[tactic(auto, unfolding(crate::specs::Text::side_text))]
fn put_side<S: Sink>(word: &[u8], prefix: Prefix, on: bool, port: u32, sink: &mut S)
    ensures { S.gives sink.old (side_text word.now prefix on port) sink.new }
{
    if !is_open(prefix, on) {
        sink.put(b" ");
        sink.put(word);
        put_some_prefix(prefix, sink);
        put_value(PORT, on, port, sink);
    }
}

// A side constrains nothing.
fn is_open(prefix: Prefix, on: bool) -> bool
    ensures { result ≡ (prefix.length == 0 && not on) }
{
    (prefix.length == 0) & !on
}

// A prefix behind a blank, unless it is that of all addresses.
fn put_some_prefix<S: Sink>(prefix: Prefix, sink: &mut S)
    ensures { S.gives sink.old (some_prefix prefix) sink.new }
{
    if prefix.length != 0 {
        sink.put(b" ");
        put_prefix(prefix, sink);
    }
}

// A prefix, without the length of an address.
fn put_prefix<S: Sink>(prefix: Prefix, sink: &mut S)
    ensures { S.gives sink.old (written_prefix prefix) sink.new }
{
    put_address(prefix.address, sink);
    if prefix.length != ADDRESS_BITS {
        sink.put(b"/");
        put_number(prefix.length, sink);
    }
}

/// Puts an address, four numbers with dots between them.
pub fn put_address<S: Sink>(address: u32, sink: &mut S)
    ensures { S.gives sink.old (address_text address) sink.new }
{
    let [a, b, c, d] = address.to_be_bytes();
    put_dotted(u32::from(a), u32::from(b), u32::from(c), u32::from(d), sink);
}

// Four numbers with dots between them.
fn put_dotted<S: Sink>(a: u32, b: u32, c: u32, d: u32, sink: &mut S)
    ensures { S.gives sink.old (dotted_text a b c d) sink.new }
{
    put_number(a, sink);
    sink.put(b".");
    put_number(b, sink);
    sink.put(b".");
    put_number(c, sink);
    sink.put(b".");
    put_number(d, sink);
}
