//! The words with a meaning, and names.

ghost use Rattle.std.specs.Prelude.{◌≡◌, ◌&&◌, nat_le};
ghost use Rattle.values.specs.Words.{unit_of, protocol_of, code_of, is_name, is_own_word, near};
ghost use Rattle.values.specs.Words.{is_letter, in_name, all_in_name, is_one, same_behind};

/// The word operator, which is no name.
pub const OPERATOR: &[u8] = b"operator";

/// The word node, which is no name.
pub const NODE: &[u8] = b"node";

/// The word inside, which is no name.
pub const INSIDE: &[u8] = b"inside";

/// The word between, which is no name.
pub const BETWEEN: &[u8] = b"between";

/// The word below, which is no name.
pub const BELOW: &[u8] = b"below";

/// The word reserve, which is no name.
pub const RESERVE: &[u8] = b"reserve";

/// The word none, which is no name.
pub const NONE: &[u8] = b"none";

/// The word any, which is no name.
pub const ANY: &[u8] = b"any";

/// The word never, which is no name.
pub const NEVER: &[u8] = b"never";

/// The word in, which is no name.
pub const IN: &[u8] = b"in";

/// The word protocol, which is no name.
pub const PROTOCOL: &[u8] = b"protocol";

/// The word from, which is no name.
pub const FROM: &[u8] = b"from";

/// The word to, which is no name.
pub const TO: &[u8] = b"to";

/// The word port, which is no name.
pub const PORT: &[u8] = b"port";

/// The word sibling, which may be a name.
pub const SIBLING: &[u8] = b"sibling";

/// The word parent, which may be a name.
pub const PARENT: &[u8] = b"parent";

/// In a cell the code 1.
pub const ALLOW: &[u8] = b"allow";

/// In a cell the code 2.
pub const DENY: &[u8] = b"deny";

/// In a cell the code 3.
pub const LEFT: &[u8] = b"left";

/// In a cell the code 4.
pub const RIGHT: &[u8] = b"right";

/// In a cell the code 5.
pub const LARGER: &[u8] = b"larger";

/// In a cell the code 6.
pub const SMALLER: &[u8] = b"smaller";

/// In a cell the code 7.
pub const SUM: &[u8] = b"sum";

/// The protocol 6.
pub const TCP: &[u8] = b"tcp";

/// The protocol 17.
pub const UDP: &[u8] = b"udp";

/// The protocol 1.
pub const ICMP: &[u8] = b"icmp";

/// The unit of 1 kbit/s.
pub const KBIT: &[u8] = b"kbit/s";

/// The unit of 1,000 kbit/s.
pub const MBIT: &[u8] = b"Mbit/s";

/// The unit of 1,000,000 kbit/s.
pub const GBIT: &[u8] = b"Gbit/s";

/// The word vlan, which is kept for later.
pub const VLAN: &[u8] = b"vlan";

/// The word limit, which is kept for later.
pub const LIMIT: &[u8] = b"limit";

/// How many kbit/s a unit is.
#[tactic(auto, unfolding(crate::specs::Words::unit_of))]
pub fn unit_of(word: &[u8]) -> Option<u32>
    ensures { result ≡ unit_of word.now }
{
    if word == KBIT {
        Some(1)
    } else if word == MBIT {
        Some(1000)
    } else if word == GBIT {
        Some(1_000_000)
    } else {
        None
    }
}

/// The number of a protocol that has a name.
#[tactic(auto, unfolding(crate::specs::Words::protocol_of))]
pub fn protocol_of(word: &[u8]) -> Option<u32>
    ensures { result ≡ protocol_of word.now }
{
    if word == TCP {
        Some(6)
    } else if word == UDP {
        Some(17)
    } else if word == ICMP {
        Some(1)
    } else {
        None
    }
}

/// The code of a word in an operator's cell.
#[tactic(auto, unfolding(crate::specs::Words::code_of))]
pub fn code_of(word: &[u8]) -> Option<u32>
    ensures { result ≡ code_of word.now }
{
    if word == ALLOW {
        Some(1)
    } else if word == DENY {
        Some(2)
    } else if word == LEFT {
        Some(3)
    } else if word == RIGHT {
        Some(4)
    } else if word == LARGER {
        Some(5)
    } else if word == SMALLER {
        Some(6)
    } else if word == SUM {
        Some(7)
    } else {
        None
    }
}

/// Whether a word is a name: letters, digits, - and _, a letter first, and no word of the notation.
#[tactic(auto, unfolding(crate::specs::Words::is_name))]
pub fn is_name(word: &[u8]) -> bool
    ensures { result ≡ is_name word.now }
{
    let [first, ..] = word else {
        return false;
    };
    is_letter(*first) && all_in_name(word) && !is_own_word(word)
}

/// Whether two words are the same but for one byte: another, one more or one less.
#[tactic(auto, unfolding(crate::specs::Words::near))]
pub fn near(word: &[u8], other: &[u8]) -> bool
    ensures { result ≡ near word.now other.now }
{
    let shorter = usize::min(word.len(), other.len());
    for place in 0..shorter {
        if word[place] != other[place] {
            return same_behind(&word[place..], &other[place..]);
        }
    }
    same_behind(&word[shorter..], &other[shorter..])
}

// Whether two words are the same but for the first byte of one or of both.
fn same_behind(word: &[u8], other: &[u8]) -> bool
    ensures { result ≡ same_behind word.now other.now }
{
    match (word, other) {
        ([], []) => false,
        ([], [_, rest @ ..]) | ([_, rest @ ..], []) => rest.len() == 0,
        ([_, rest @ ..], [_, others @ ..]) => rest == others || rest == other || word == others,
    }
}

fn is_letter(byte: u8) -> bool
    ensures { result ≡ is_letter byte }
{
    between(b'A', byte, b'Z') | between(b'a', byte, b'z')
}

// A letter, a digit, - or _. No test is left out, since which of them holds changes from byte to byte.
fn in_name(byte: u8) -> bool
    ensures { result ≡ in_name byte }
{
    is_letter(byte) | between(b'0', byte, b'9') | (byte == b'-') | (byte == b'_')
}

fn between(least: u8, byte: u8, most: u8) -> bool
    ensures { result ≡ (nat_le least byte && nat_le byte most) }
{
    (least <= byte) & (byte <= most)
}

fn all_in_name(word: &[u8]) -> bool
    ensures { result ≡ all_in_name word.now }
{
    for byte in word {
        if !in_name(*byte) {
            return false;
        }
    }
    true
}

// Whether a word is one of the notation. Its first byte leaves at most three words to compare it with.
fn is_own_word(word: &[u8]) -> bool
    ensures { result ≡ is_own_word word.now }
{
    let [first, ..] = word else {
        return false;
    };
    match *first {
        b'a' => is_one(word, ALLOW, ANY, ANY),
        b'b' => is_one(word, BETWEEN, BELOW, BELOW),
        b'd' => word == DENY,
        b'f' => word == FROM,
        b'i' => is_one(word, INSIDE, IN, ICMP),
        b'l' => is_one(word, LEFT, LARGER, LIMIT),
        b'n' => is_one(word, NODE, NONE, NEVER),
        b'o' => word == OPERATOR,
        b'p' => is_one(word, PROTOCOL, PORT, PORT),
        b'r' => is_one(word, RESERVE, RIGHT, RIGHT),
        b's' => is_one(word, SMALLER, SUM, SUM),
        b't' => is_one(word, TCP, TO, TO),
        b'u' => word == UDP,
        b'v' => word == VLAN,
        _ => false,
    }
}

// Whether a word is one of three.
#[inline(always)]
fn is_one(word: &[u8], first: &[u8], second: &[u8], third: &[u8]) -> bool
    ensures { result ≡ is_one word.now first.now second.now third.now }
{
    word == first || word == second || word == third
}
