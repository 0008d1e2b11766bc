//! The words of a text, each with the byte where it starts: what the notation of policies is read from. Any bytes are
//! words: a text has no faults here.
#![tactic(auto)]

ghost use Rattle.std.specs.Prelude.{◌≡◌, ◌≤◌, false, length};
ghost use Rattle.tokens.specs.Tokens.{behind_gap, front, run, is_blank, is_mark, in_word, tokens_of, tokens_from};
ghost use Rattle.tokens.specs.Tokens.{word, at, next, is, ended};
ghost use Rattle.tokens.specs.Left.{left};

mod place;

pub use place::{Place, place_of};

/// The bytes that are words of their own.
pub const COLON: &[u8] = b":";

/// The mark that opens a part.
pub const OPEN: &[u8] = b"{";

/// The mark that closes a part.
pub const CLOSE: &[u8] = b"}";

// The byte that ends a line, and with it a comment.
const NEWLINE: u8 = b'\n';

// The byte that starts a comment.
const HASH: u8 = b'#';

/// The words of a text that are left: the first of them, and the bytes behind it.
#[derive(Clone, Copy)]
pub struct Tokens<'a> {
    end: usize,
    word: &'a [u8],
    rest: &'a [u8],
}

impl<'a> Tokens<'a> {
    /// All words of a text.
    pub fn of(text: &'a [u8]) -> Tokens<'a>
        ensures { left result ≡ tokens_of text.now }
    {
        Tokens::first(text.len(), text)
    }

    /// The first word; no bytes at the end.
    #[tactic(auto, unfolding(crate::specs::Left::left))]
    pub fn word(&self) -> &'a [u8]
        ensures { result.now ≡ word (left self.now) }
    {
        self.word
    }

    /// The byte where it starts; the number of bytes at the end.
    #[tactic(auto, unfolding(crate::specs::Left::left))]
    pub fn at(&self) -> usize
        ensures { result ≡ at (left self.now) }
    {
        self.end.saturating_sub(self.word.len() + self.rest.len())
    }

    /// Whether the first word is this one.
    #[tactic(auto, unfolding(crate::specs::Left::left))]
    pub fn is(&self, word: &[u8]) -> bool
        ensures { result ≡ is word.now (left self.now) }
    {
        self.word == word
    }

    /// Whether the end is reached.
    #[tactic(auto, unfolding(crate::specs::Left::left))]
    pub fn ended(&self) -> bool
        ensures { result ≡ ended (left self.now) }
    {
        self.word.is_empty()
    }

    /// Goes on to the next word. At the end it stays.
    #[tactic(auto, unfolding(crate::specs::Left::left))]
    pub fn advance(&mut self)
        ensures { left self.new ≡ next (left self.old) }
    {
        if !self.word.is_empty() {
            *self = Tokens::first(self.end, self.rest);
        }
    }

    // The words in the last bytes of a text.
    fn first(end: usize, bytes: &'a [u8]) -> Tokens<'a>
        ensures { left result ≡ tokens_from (length bytes.now) end bytes.now }
    {
        let found = behind_gap(bytes);
        let (word, rest) = found.split_at(front(found));
        Tokens { end, word, rest }
    }
}

// What stands behind the blanks and the comments at the front.
fn behind_gap(bytes: &[u8]) -> &[u8]
    ensures { result.now ≡ behind_gap false bytes.now }
{
    let mut inside = false;
    // What stands behind the gap that goes on at byte i, inside a comment or not, is what is asked for.
    for (i, &byte) in bytes.iter().enumerate() {
        if inside {
            inside = byte != NEWLINE;
        } else if byte == HASH {
            inside = true;
        } else if !is_blank(byte) {
            return &bytes[i..];
        }
    }
    &[]
}

// How many bytes the word at the front has.
fn front(bytes: &[u8]) -> usize
    ensures value { result ≡ front bytes.now }
    ensures within { result ≤ length bytes.now }
{
    match bytes.first() {
        Some(&byte) if is_mark(byte) => 1,
        _ => run(bytes),
    }
}

// How many bytes of words stand at the front.
fn run(bytes: &[u8]) -> usize
    ensures value { result ≡ run bytes.now }
    ensures within { result ≤ length bytes.now }
{
    for (i, &byte) in bytes.iter().enumerate() {
        if !in_word(byte) {
            return i;
        }
    }
    bytes.len()
}

// Whether a byte parts words.
fn is_blank(byte: u8) -> bool
    ensures { result ≡ is_blank byte }
{
    byte == b' ' || byte == b'\t' || byte == NEWLINE || byte == b'\r'
}

// Whether a byte is a word of its own.
fn is_mark(byte: u8) -> bool
    ensures { result ≡ is_mark byte }
{
    byte == b':' || byte == b'{' || byte == b'}'
}

// Whether words are made of a byte.
fn in_word(byte: u8) -> bool
    ensures { result ≡ in_word byte }
{
    !is_blank(byte) && !is_mark(byte) && byte != HASH
}
