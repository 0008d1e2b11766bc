//! The message of a fault.

ghost use Rattle.std.specs.Prelude.{◌≡◌};
ghost use Rattle.values.specs.Grammar.{address_text, prefix_text};
ghost use Rattle.faults.specs.Shown.{shown};
ghost use Rattle.faults.specs.Message.{found_wanted, around, placed, unknown, unclosed, sentence, cleared};
ghost use Rattle.faults.specs.Message.{did_mean, did_mean_either, no_name, say, cure_text, line, message};

use crate::cure::{Cure, cure_of, word_at};
use crate::phrases::{advice_text, wanted_text};
use crate::shown::{put_address, put_found, put_place, put_prefix, put_shown};
use field::{ADDRESS_BITS, Prefix};
use notation::{Fault, Reason};
use streams::Sink;
use tokens::{Place, place_of};
use values::is_name;

/// Puts the message of a fault of a text into a sink: a line with the fault's place, what is wrong there, and the
/// likely cure. The place is counted in lines and columns from 1; the name of the text's file is not in it.
pub fn put_message<S: Sink>(text: &[u8], fault: Fault, sink: &mut S)
    ensures { S.gives sink.old (message text.now fault) sink.new }
{
    let place = place_of(text, fault.at);
    let word = word_at(text, fault.at);
    put_line(place, text, word, fault.reason, cure_of(text, fault), sink);
}

// Puts the line of what is wrong with a word at a place.
#[tactic(auto, unfolding(crate::specs::Message::line))]
fn put_line<S: Sink>(
    place: Place,
    text: &[u8],
    word: &[u8],
    reason: Reason,
    cure: Cure,
    sink: &mut S,
)
    ensures { S.gives sink.old (line place text.now word.now reason cure) sink.new }
{
    put_place(place, sink);
    sink.put(b": ");
    put_sentence(text, word, reason, sink);
    put_cure(text, word, cure, sink);
    sink.put(b"\n");
}

// Puts what is wrong with a word.
fn put_sentence<S: Sink>(text: &[u8], word: &[u8], reason: Reason, sink: &mut S)
    ensures { S.gives sink.old (sentence text.now word.now reason) sink.new }
{
    match reason {
        Reason::Unexpected(wanted) => put_found_wanted(word, wanted_text(wanted), sink),
        Reason::Twice(first) => {
            put_placed(
                b"the name ",
                word,
                b" is given already, at ",
                place_of(text, first),
                b"",
                sink,
            );
        }
        Reason::Unknown(_) => put_unknown(word, sink),
        Reason::HostBits(_) => put_around(b"", word, b" has bits behind its prefix length", sink),
        Reason::WrongRate => sink.put(b"a rate is from 1 kbit/s to 100 Gbit/s"),
        Reason::TooManyOperators => sink.put(b"more than 32 operators"),
        Reason::TooManyRules => sink.put(b"more than 1,024 rules"),
        Reason::TooManyNodes => sink.put(b"more than 256 nodes"),
        Reason::TooDeep => put_around(b"node ", word, b" is more than 16 deep", sink),
        Reason::Unclosed(at) => put_unclosed(text, at, sink),
    }
}

// Puts that there is no operator of a name.
fn put_unknown<S: Sink>(word: &[u8], sink: &mut S)
    ensures { S.gives sink.old (unknown word.now) sink.new }
{
    if is_name(word) {
        put_around(b"there is no operator ", word, b"", sink);
    } else {
        put_found_wanted(word, b"an operator's name", sink);
    }
}

// Puts that a node is open, whose name stands at a place.
fn put_unclosed<S: Sink>(text: &[u8], at: usize, sink: &mut S)
    ensures { S.gives sink.old (unclosed text.now at) sink.new }
{
    let name = word_at(text, at);
    let place = place_of(text, at);
    put_placed(
        b"the text ends, and node ",
        name,
        b" of ",
        place,
        b" is still open",
        sink,
    );
}

// Puts a word and what was wanted in its place.
#[tactic(auto, unfolding(crate::specs::Message::found_wanted))]
fn put_found_wanted<S: Sink>(word: &[u8], wanted: &[u8], sink: &mut S)
    ensures { S.gives sink.old (found_wanted word.now wanted.now) sink.new }
{
    sink.put(b"found ");
    put_found(word, sink);
    sink.put(b", wanted ");
    sink.put(wanted);
}

// Puts a word between two phrases.
#[tactic(auto, unfolding(crate::specs::Message::around))]
fn put_around<S: Sink>(before: &[u8], word: &[u8], behind: &[u8], sink: &mut S)
    ensures { S.gives sink.old (around before.now word.now behind.now) sink.new }
{
    sink.put(before);
    put_found(word, sink);
    sink.put(behind);
}

// Puts a word and a place between three phrases.
#[tactic(auto, unfolding(crate::specs::Message::placed))]
fn put_placed<S: Sink>(
    before: &[u8],
    word: &[u8],
    between: &[u8],
    place: Place,
    behind: &[u8],
    sink: &mut S,
)
    ensures { S.gives sink.old (placed before.now word.now between.now place behind.now) sink.new }
{
    sink.put(before);
    put_found(word, sink);
    sink.put(between);
    put_place(place, sink);
    sink.put(behind);
}

// Puts the cure, if there is one.
fn put_cure<S: Sink>(text: &[u8], word: &[u8], cure: Cure, sink: &mut S)
    ensures { S.gives sink.old (cure_text text.now word.now cure) sink.new }
{
    match cure {
        Cure::Nothing => sink.put(b""),
        Cure::Mean(meant) => put_mean(meant.bytes(), sink),
        Cure::MeanAt(place) => put_mean_shown(word_at(text, place), sink),
        Cure::MeanAddress(address) => put_mean_address(address, sink),
        Cure::MeanPrefix(prefix) => put_mean_either(cleared(prefix), prefix.address, sink),
        Cure::OwnWord => put_no_name(word, sink),
        Cure::Say(advice) => put_say(advice_text(advice), sink),
    }
}

// Puts that a word was meant.
#[tactic(auto, unfolding(crate::specs::Message::did_mean))]
fn put_mean<S: Sink>(word: &[u8], sink: &mut S)
    ensures { S.gives sink.old (did_mean word.now) sink.new }
{
    sink.put(b"; did you mean ");
    sink.put(word);
    sink.put(b"?");
}

// Puts that a word of the text was meant.
#[tactic(auto, unfolding(crate::specs::Message::did_mean))]
fn put_mean_shown<S: Sink>(word: &[u8], sink: &mut S)
    ensures { S.gives sink.old (did_mean (shown word.now)) sink.new }
{
    sink.put(b"; did you mean ");
    put_shown(word, sink);
    sink.put(b"?");
}

// Puts that an address was meant.
#[tactic(auto, unfolding(crate::specs::Message::did_mean))]
fn put_mean_address<S: Sink>(address: u32, sink: &mut S)
    ensures { S.gives sink.old (did_mean (address_text address)) sink.new }
{
    sink.put(b"; did you mean ");
    put_address(address, sink);
    sink.put(b"?");
}

// Puts that a prefix or an address was meant.
#[tactic(auto, unfolding(crate::specs::Message::did_mean_either))]
fn put_mean_either<S: Sink>(prefix: Prefix, address: u32, sink: &mut S)
    ensures { S.gives sink.old
        (did_mean_either (prefix_text prefix) (address_text address)) sink.new }
{
    sink.put(b"; did you mean ");
    put_prefix(prefix, sink);
    sink.put(b" or ");
    put_address(address, sink);
    sink.put(b"?");
}

// A prefix without the bits behind its length.
fn cleared(prefix: Prefix) -> Prefix
    ensures { result ≡ cleared prefix }
{
    let size = 2u64.pow(ADDRESS_BITS.saturating_sub(prefix.length));
    let behind = u64::from(prefix.address) % size;
    Prefix {
        address: prefix.address - behind as u32,
        length: prefix.length,
    }
}

// Puts that a word is one of the notation.
#[tactic(auto, unfolding(crate::specs::Message::no_name))]
fn put_no_name<S: Sink>(word: &[u8], sink: &mut S)
    ensures { S.gives sink.old (no_name word.now) sink.new }
{
    sink.put(b"; ");
    put_shown(word, sink);
    sink.put(b" is a word of the notation and no name");
}

// Puts what to do.
#[tactic(auto, unfolding(crate::specs::Message::say))]
fn put_say<S: Sink>(advice: &[u8], sink: &mut S)
    ensures { S.gives sink.old (say advice.now) sink.new }
{
    sink.put(b"; ");
    sink.put(advice);
}
