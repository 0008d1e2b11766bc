//! A packet that meets two matches, where there is one.
#![tactic(auto)]

ghost use Rattle.std.specs.Prelude.{◌≡◌};
ghost use Rattle.witness.specs.Witness.{sampled, sampled_protocol, sample, shared_of};

use flow::{DESTINATION_PORT, IN_PORT, Match, PROTOCOL, Packet, SOURCE_PORT};

// The flags of the two ports.
const PORTS: u32 = SOURCE_PORT + DESTINATION_PORT;

// The protocol of a packet with ports whose protocol may be any.
const TCP: u32 = 6;

/// A packet that meets two matches; none where no packet in range does, of right matches. Values that neither match
/// constrains are 0, but for the protocol where a port is constrained: then it is 6 (TCP).
#[tactic(auto, unfolding(crate::specs::Witness::shared_of))]
pub fn shared_packet(left: Match, right: Match) -> Option<Packet>
    ensures { result ≡ shared_of left right }
{
    if left.overlap(right) {
        Some(sample(left.common(right)))
    } else {
        None
    }
}

// The packet of a match's constrained values.
#[tactic(auto, unfolding(crate::specs::Witness::sample))]
fn sample(matching: Match) -> Packet
    ensures { result ≡ sample matching }
{
    Packet {
        in_port: sampled(matching, IN_PORT, matching.in_port),
        source: matching.source.address,
        destination: matching.destination.address,
        protocol: sampled_protocol(matching),
        source_port: sampled(matching, SOURCE_PORT, matching.source_port),
        destination_port: sampled(matching, DESTINATION_PORT, matching.destination_port),
    }
}

// The value that a flag is for, if it is constrained, or else 0.
fn sampled(matching: Match, flag: u32, value: u32) -> u32
    ensures { result ≡ sampled flag matching value }
{
    if matching.constrains(flag) { value } else { 0 }
}

// The protocol, if it is constrained; or else one that has ports, if a port is.
fn sampled_protocol(matching: Match) -> u32
    ensures { result ≡ sampled_protocol matching }
{
    if matching.constrains(PROTOCOL) {
        matching.protocol
    } else if matching.constrains(PORTS) {
        TCP
    } else {
        0
    }
}
