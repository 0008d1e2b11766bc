//! Words, places, numbers and prefixes as a message shows them.

ghost use Rattle.std.specs.Prelude.{◌≡◌, ◌<◌, take};
ghost use Rattle.std.specs.Fmt.{decimal};
ghost use Rattle.values.specs.Grammar.{address_text, prefix_text};
ghost use Rattle.faults.specs.Shown.{is_plain, hex_digit, shown_byte, shown, closing, quoted};
ghost use Rattle.faults.specs.Shown.{found, place_text};

use field::Prefix;
use itoa::Buffer;
use streams::Sink;
use tokens::Place;

// So many bytes of a word are shown.
const MOST_SHOWN: usize = 40;

// Puts a word that was found: in backquotes, unless it is the end of the text.
#[tactic(auto, unfolding(crate::specs::Shown::found))]
pub(crate) fn put_found<S: Sink>(word: &[u8], sink: &mut S)
    ensures { S.gives sink.old (found word.now) sink.new }
{
    if word.is_empty() {
        sink.put(b"the end of the text");
    } else {
        put_quoted(word, sink);
    }
}

// Puts a word in backquotes; of a long one the first bytes, and two dots behind.
#[tactic(auto, unfolding(crate::specs::Shown::quoted))]
fn put_quoted<S: Sink>(word: &[u8], sink: &mut S)
    ensures { S.gives sink.old (quoted word.now) sink.new }
{
    sink.put(b"`");
    put_shown(front(MOST_SHOWN, word), sink);
    sink.put(closing(word.len()));
}

// So many bytes of a word, or all.
fn front(count: usize, word: &[u8]) -> &[u8]
    ensures { result.now ≡ take count word.now }
{
    &word[..count.min(word.len())]
}

// What stands behind a word of so many bytes.
fn closing(length: usize) -> &'static [u8]
    ensures { result.now ≡ closing length }
{
    if length <= MOST_SHOWN { b"`" } else { b"`.." }
}

// Puts the bytes of a word.
pub(crate) fn put_shown<S: Sink>(word: &[u8], sink: &mut S)
    ensures { S.gives sink.old (shown word.now) sink.new }
{
    // Once the bytes that are left are put, those of the word are.
    for &byte in word {
        put_byte(byte, sink);
    }
}

// Puts a byte of a word.
fn put_byte<S: Sink>(byte: u8, sink: &mut S)
    ensures { S.gives sink.old (shown_byte byte) sink.new }
{
    if is_plain(byte) {
        sink.put(&[byte]);
    } else {
        sink.put(&[b'\\', b'x', hex_digit(byte / 16), hex_digit(byte % 16)]);
    }
}

// Whether a byte stands for itself.
fn is_plain(byte: u8) -> bool
    ensures { result ≡ is_plain byte }
{
    33 <= byte && byte <= 126
}

// A digit to the base 16.
fn hex_digit(digit: u8) -> u8
    requires { digit < 16 }
    ensures { result ≡ hex_digit digit }
{
    if digit < 10 { 48 + digit } else { 87 + digit }
}

// Puts a line and a column.
#[tactic(auto, unfolding(crate::specs::Shown::place_text))]
pub(crate) fn put_place<S: Sink>(place: Place, sink: &mut S)
    ensures { S.gives sink.old (place_text place) sink.new }
{
    put_number(place.line, sink);
    sink.put(b":");
    put_number(place.column, sink);
}

// Puts an address and its length.
pub(crate) fn put_prefix<S: Sink>(prefix: Prefix, sink: &mut S)
    ensures { S.gives sink.old (prefix_text prefix) sink.new }
{
    put_address(prefix.address, sink);
    sink.put(b"/");
    put_number(prefix.length as usize, sink);
}

// Puts the four octets of an address.
pub(crate) fn put_address<S: Sink>(address: u32, sink: &mut S)
    ensures { S.gives sink.old (address_text address) sink.new }
{
    put_number((address / 16_777_216 % 256) as usize, sink);
    sink.put(b".");
    put_number((address / 65536 % 256) as usize, sink);
    sink.put(b".");
    put_number((address / 256 % 256) as usize, sink);
    sink.put(b".");
    put_number((address % 256) as usize, sink);
}

// Puts a number.
fn put_number<S: Sink>(value: usize, sink: &mut S)
    ensures { S.gives sink.old (decimal value) sink.new }
{
    let mut buffer = Buffer::new();
    sink.put(buffer.format(value).as_bytes());
}
