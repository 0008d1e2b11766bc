//! What a word of the notation of policies says: numbers, prefixes, units, and which words are names.
#![tactic(auto)]

pub use numbers::number_of;
pub use prefixes::{NoPrefix, prefix_of};
pub use words::{
    ALLOW, ANY, BELOW, BETWEEN, DENY, FROM, GBIT, ICMP, IN, INSIDE, KBIT, LARGER, LEFT, LIMIT,
    MBIT, NEVER, NODE, NONE, OPERATOR, PARENT, PORT, PROTOCOL, RESERVE, RIGHT, SIBLING, SMALLER,
    SUM, TCP, TO, UDP, VLAN, code_of, is_name, near, protocol_of, unit_of,
};

mod numbers;
mod prefixes;
mod words;
