//! Matches: which packets meet one, when two overlap, when one lies inside another, and the match that both together
//! are.

ghost use Rattle.std.specs.Prelude.{◌≡◌};
ghost use Rattle.field.specs.Value.{values_meet};
ghost use Rattle.flow.specs.Match.{constrains, has_flags_of, has_ports, clash, contradicts};
ghost use Rattle.flow.specs.Match.{unmet, is_empty, is_none, is_plain, right_match, meets, overlap, inside, both};
ghost use Rattle.flow.specs.Match.{common};

use crate::{
    DESTINATION_PORT, EMPTY, EMPTY_FLAGS, FLAGS, IN_PORT, KNOWN_FLAGS, MATCH_WORDS, Match,
    MatchWords, PORT_LIMIT, PORTS, PROTOCOL, PROTOCOL_LIMIT, Packet, SOURCE_PORT, TCP, UDP,
};
use field::{Prefix, common_value, meets_value, right_value, values_meet};
use words::{Spelling, Written, copy, word};

impl Match {
    /// The empty match of flag 16.
    pub const NONE: Match = Match {
        in_port: 0,
        source: Prefix {
            address: 0,
            length: 0,
        },
        destination: Prefix {
            address: 0,
            length: 0,
        },
        protocol: 0,
        source_port: 0,
        destination_port: 0,
        flags: EMPTY,
    };

    /// Whether a packet meets the match. The addresses are tested first, as in overlap.
    pub fn meets(self, packet: Packet) -> bool
        ensures { result ≡ meets self packet }
    {
        self.destination.contains(packet.destination)
            && self.source.contains(packet.source)
            && (!self.constrains(EMPTY)
                & meets_value(self.constrains(IN_PORT), self.in_port, packet.in_port)
                & meets_value(self.constrains(PROTOCOL), self.protocol, packet.protocol)
                & meets_value(
                    self.constrains(SOURCE_PORT),
                    self.source_port,
                    packet.source_port,
                )
                & meets_value(
                    self.constrains(DESTINATION_PORT),
                    self.destination_port,
                    packet.destination_port,
                )
                & (!self.constrains(PORTS) | has_ports(packet.protocol)))
    }

    /// Whether some packet meets both matches. The addresses are tested first: most that do not overlap differ there.
    pub fn overlap(self, other: Match) -> bool
        ensures { result ≡ overlap self other }
    {
        self.destination.meets(other.destination)
            && self.source.meets(other.source)
            && self.agrees_in(
                other,
                DESTINATION_PORT,
                self.destination_port,
                other.destination_port,
            )
            && self.agrees_in(other, SOURCE_PORT, self.source_port, other.source_port)
            && self.agrees_in(other, IN_PORT, self.in_port, other.in_port)
            && self.agrees_in(other, PROTOCOL, self.protocol, other.protocol)
            && !unmet(
                self.flags | other.flags,
                common_value(self.constrains(PROTOCOL), self.protocol, other.protocol),
            )
    }

    /// Whether every packet that meets the match meets the other. The addresses are tested first, as in overlap; of an
    /// other that is empty, this one has not all flags, or both are.
    pub fn lies_inside(self, other: Match) -> bool
        ensures { result ≡ inside self other }
    {
        self.is_empty()
            || (other.destination.covers(self.destination)
                && other.source.covers(self.source)
                && (self.has_flags_of(other)
                    & meets_value(other.constrains(IN_PORT), other.in_port, self.in_port)
                    & meets_value(other.constrains(PROTOCOL), other.protocol, self.protocol)
                    & meets_value(
                        other.constrains(SOURCE_PORT),
                        other.source_port,
                        self.source_port,
                    )
                    & meets_value(
                        other.constrains(DESTINATION_PORT),
                        other.destination_port,
                        self.destination_port,
                    )))
    }

    /// The match that exactly the packets meet that meet both: empty where there are none.
    pub fn common(self, other: Match) -> Match
        ensures { result ≡ common self other }
    {
        if self.overlap(other) {
            self.both(other)
        } else {
            Match::NONE
        }
    }

    /// Whether no packet meets the match: it has flag 16, or contradicts itself.
    pub fn is_empty(self) -> bool
        ensures { result ≡ is_empty self }
    {
        self.constrains(EMPTY) | self.contradicts()
    }

    /// Whether the match contradicts itself: it constrains a port, and the protocol to one without ports.
    pub fn contradicts(self) -> bool
        ensures { result ≡ contradicts self }
    {
        clash(self.flags, self.protocol)
    }

    /// Whether the match has a flag; of several flags together, whether it has any of them.
    pub fn constrains(self, flag: u32) -> bool
        ensures { result ≡ constrains flag self }
    {
        (self.flags & flag) != 0
    }

    /// Whether the words of the match are right.
    pub fn is_right(self) -> bool
        ensures { result ≡ right_match self }
    {
        self.is_plain() || self.is_none()
    }

    /// Whether the match is right and has not flag 16.
    pub fn is_plain(self) -> bool
        ensures { result ≡ is_plain self }
    {
        ((self.flags & KNOWN_FLAGS) == self.flags)
            & right_value(self.constrains(IN_PORT), PORT_LIMIT, self.in_port)
            & right_value(self.constrains(PROTOCOL), PROTOCOL_LIMIT, self.protocol)
            & right_value(self.constrains(SOURCE_PORT), PORT_LIMIT, self.source_port)
            & right_value(
                self.constrains(DESTINATION_PORT),
                PORT_LIMIT,
                self.destination_port,
            )
            & self.source.is_right()
            & self.destination.is_right()
    }

    // Whether two matches agree in the value that a flag is for: v in the one, w in the other.
    fn agrees_in(self, other: Match, flag: u32, v: u32, w: u32) -> bool
        ensures { result ≡ values_meet (constrains flag self) v (constrains flag other) w }
    {
        values_meet(self.constrains(flag), v, other.constrains(flag), w)
    }

    // Whether the match has every flag that another has.
    fn has_flags_of(self, other: Match) -> bool
        ensures { result ≡ has_flags_of self other }
    {
        (other.flags & !self.flags & FLAGS) == 0
    }

    // Both matches together, where they overlap: what either constrains, and the longer prefixes.
    fn both(self, other: Match) -> Match
        ensures { result ≡ both self other }
    {
        Match {
            in_port: common_value(self.constrains(IN_PORT), self.in_port, other.in_port),
            source: self.source.longer(other.source),
            destination: self.destination.longer(other.destination),
            protocol: common_value(self.constrains(PROTOCOL), self.protocol, other.protocol),
            source_port: common_value(
                self.constrains(SOURCE_PORT),
                self.source_port,
                other.source_port,
            ),
            destination_port: common_value(
                self.constrains(DESTINATION_PORT),
                self.destination_port,
                other.destination_port,
            ),
            flags: self.flags | other.flags,
        }
    }

    // Whether the match is the empty match of flag 16 in its only right form.
    fn is_none(self) -> bool
        ensures { result ≡ is_none self }
    {
        self == Match::NONE
    }
}

impl Spelling for Match {
    type Item = Match;

    ghost use Rattle.flow.specs.Match.{match_length, match_of};
    ghost use Rattle.flow.specs.Spelled.{match-some};

    ghost WORDS = { match_length };

    const WORDS: usize = MATCH_WORDS;

    ghost of_words = { match_of };

    ghost some = { match-some };

    fn read(words: &[u32]) -> Match {
        Match {
            in_port: word(words, 0),
            source: Prefix {
                address: word(words, 1),
                length: word(words, 6),
            },
            destination: Prefix {
                address: word(words, 2),
                length: word(words, 7),
            },
            protocol: word(words, 3),
            source_port: word(words, 4),
            destination_port: word(words, 5),
            flags: word(words, 8),
        }
    }
}

impl Written for Match {
    ghost use Rattle.flow.specs.Match.{match_words};
    ghost use Rattle.flow.specs.Spelled.{match-long, match_back};

    ghost to_words = { match_words };

    ghost long = { match-long };

    ghost back = { match_back };

    fn write(words: &mut [u32], at: usize, item: Match) {
        copy(words, at, &MatchWords::from(item));
    }
}

// The match's nine words.
impl From<Match> for MatchWords {
    ghost use Rattle.std.specs.Prelude.{◌≡◌};
    ghost use Rattle.flow.specs.Match.{match_words};

    ghost from_gives = { λ m r. r ≡ match_words m };

    fn from(matching: Match) -> MatchWords {
        [
            matching.in_port,
            matching.source.address,
            matching.destination.address,
            matching.protocol,
            matching.source_port,
            matching.destination_port,
            matching.source.length,
            matching.destination.length,
            matching.flags,
        ]
    }
}

// Whether no packet meets a match with these flags and this protocol. Most have no port and not flag 16, and need no
// more tests.
fn unmet(flags: u32, protocol: u32) -> bool
    ensures { result ≡ unmet flags protocol }
{
    if (flags & EMPTY_FLAGS) == 0 {
        return false;
    }
    ((flags & EMPTY) != 0) | clash(flags, protocol)
}

// Whether these flags ask for a port, and for this protocol, which has none. Which flags a protocol bars is picked and
// not branched on: in a table of many rows it is not foreseen.
fn clash(flags: u32, protocol: u32) -> bool
    ensures { result ≡ clash flags protocol }
{
    let barred = if ((flags & PROTOCOL) == 0) | has_ports(protocol) {
        0
    } else {
        PORTS
    };
    (flags & barred) != 0
}

// Whether a protocol has ports.
fn has_ports(protocol: u32) -> bool
    ensures { result ≡ has_ports protocol }
{
    (protocol == TCP) | (protocol == UDP)
}
