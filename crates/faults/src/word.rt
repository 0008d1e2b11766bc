//! The words that can have been meant where another one stands.

ghost use Rattle.std.specs.Prelude.{◌≡◌};
ghost use Rattle.faults.specs.Meant.{word_text, is_close, meant, any_word, candidates, own};

use notation::Wanted;
use values::near;

/// A word of the notation, or the name of an operator that is there from the start.
#[derive(Clone, Copy, PartialEq, Eq)]
pub enum Word {
    Operator,
    Node,
    Inside,
    Between,
    Below,
    Allow,
    Deny,
    Reserve,
    None,
    Left,
    Right,
    Larger,
    Smaller,
    Sum,
    Any,
    Never,
    In,
    Protocol,
    Tcp,
    Udp,
    Icmp,
    From,
    To,
    Port,
    Sibling,
    Parent,
    Vlan,
    Limit,
    Kbit,
    Mbit,
    Gbit,
}

impl Word {
    // Its bytes.
    pub(crate) fn bytes(self) -> &'static [u8]
        ensures { result.now ≡ word_text self }
    {
        match self {
            Word::Operator => b"operator",
            Word::Node => b"node",
            Word::Inside => b"inside",
            Word::Between => b"between",
            Word::Below => b"below",
            Word::Allow => b"allow",
            Word::Deny => b"deny",
            Word::Reserve => b"reserve",
            Word::None => b"none",
            Word::Left => b"left",
            Word::Right => b"right",
            Word::Larger => b"larger",
            Word::Smaller => b"smaller",
            Word::Sum => b"sum",
            Word::Any => b"any",
            Word::Never => b"never",
            Word::In => b"in",
            Word::Protocol => b"protocol",
            Word::Tcp => b"tcp",
            Word::Udp => b"udp",
            Word::Icmp => b"icmp",
            Word::From => b"from",
            Word::To => b"to",
            Word::Port => b"port",
            Word::Sibling => b"sibling",
            Word::Parent => b"parent",
            Word::Vlan => b"vlan",
            Word::Limit => b"limit",
            Word::Kbit => b"kbit/s",
            Word::Mbit => b"Mbit/s",
            Word::Gbit => b"Gbit/s",
        }
    }
}

// The words that are wanted at a place, but for names and marks.
pub(crate) fn candidates(wanted: Wanted) -> &'static [Word]
    ensures { result.now ≡ candidates wanted }
{
    match wanted {
        Wanted::Start => &[Word::Operator, Word::Node],
        Wanted::AllowHeading => &[Word::Allow],
        Wanted::DenyHeading => &[Word::Deny],
        Wanted::ReserveHeading => &[Word::Reserve],
        Wanted::Cell => &[Word::Allow, Word::Deny, Word::Left, Word::Right],
        Wanted::RateCell => &[
            Word::Allow,
            Word::Deny,
            Word::Left,
            Word::Right,
            Word::Larger,
            Word::Smaller,
            Word::Sum,
        ],
        Wanted::Block => &[Word::Inside, Word::Between, Word::Below],
        Wanted::Line => &[Word::Node],
        Wanted::NodeOrEnd => &[Word::Node],
        Wanted::Action => &[Word::Allow, Word::Deny, Word::Reserve, Word::None],
        Wanted::Match => &[
            Word::Any,
            Word::Never,
            Word::In,
            Word::Protocol,
            Word::Tcp,
            Word::Udp,
            Word::Icmp,
            Word::From,
            Word::To,
        ],
        Wanted::Prefix => &[Word::Port],
        _ => &[],
    }
}

// The words that are no names.
pub(crate) fn own() -> &'static [Word]
    ensures { result.now ≡ own }
{
    &[
        Word::Operator,
        Word::Node,
        Word::Inside,
        Word::Between,
        Word::Below,
        Word::Allow,
        Word::Deny,
        Word::Reserve,
        Word::None,
        Word::Left,
        Word::Right,
        Word::Larger,
        Word::Smaller,
        Word::Sum,
        Word::Any,
        Word::Never,
        Word::In,
        Word::Protocol,
        Word::Tcp,
        Word::Udp,
        Word::Icmp,
        Word::From,
        Word::To,
        Word::Port,
        Word::Vlan,
        Word::Limit,
    ]
}

// The first of some words that a word is close to.
pub(crate) fn meant(word: &[u8], among: &[Word]) -> Option<Word>
    ensures { result ≡ meant word.now among.now }
{
    for &candidate in among {
        if is_close(word, candidate.bytes()) {
            return Some(candidate);
        }
    }
    None
}

// Whether a word is one of some.
pub(crate) fn any_word(word: &[u8], among: &[Word]) -> bool
    ensures { result ≡ any_word word.now among.now }
{
    for &candidate in among {
        if word == candidate.bytes() {
            return true;
        }
    }
    false
}

// Whether a word is another but for the case of letters, or differs from it by one byte.
fn is_close(word: &[u8], other: &[u8]) -> bool
    ensures { result ≡ is_close word.now other.now }
{
    word != other && (word.eq_ignore_ascii_case(other) || near(word, other))
}
