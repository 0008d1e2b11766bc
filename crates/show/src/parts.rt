//! What has a text: the parts of a listing's lines, and the lines.

ghost use Rattle.std.specs.Prelude.{◌≡◌};
ghost use Rattle.show.specs.Text.{number};

use crate::Text;
use action::Action;
use field::Prefix;
use flow::{DESTINATION_PORT, IN_PORT, Match, PROTOCOL, SOURCE_PORT};
use itoa::Buffer;
use refusal::Refusal;
use row::Row;
use streams::Sink;

/// The first line: how many rows and how many priorities there are.
#[derive(Clone, Copy)]
pub struct Head {
    pub rows: usize,
    pub priorities: u32,
}

/// The line of a row of a priority.
#[derive(Clone, Copy)]
pub struct Line {
    pub priority: u32,
    pub row: Row,
}

/// A refusal that names no law: a number, whichever it is, and a place.
#[derive(Clone, Copy, PartialEq, Eq)]
pub struct PlainRefusal {
    pub number: u32,
    pub place: usize,
}

/// The refusal of a number at a place. Any number has one; those that functions give are the numbers of a `Reason`.
pub fn plain(number: u32, place: usize) -> PlainRefusal
    ensures { result ≡ record { number = number; place = place } }
{
    PlainRefusal { number, place }
}

impl Text for Head {
    ghost use Rattle.show.specs.Text.{head};

    ghost text = { λ h. head h.rows h.priorities };

    fn put<S: Sink>(&self, sink: &mut S) {
        sink.put(b"rows ");
        put_number(self.rows, b' ', sink);
        sink.put(b"priorities ");
        put_number(self.priorities as usize, b'\n', sink);
    }
}

impl Text for Line {
    ghost use Rattle.show.specs.Text.{line};

    ghost text = { λ l. line l.priority l.row };

    #[tactic(auto, unfolding(crate::specs::Text::line))]
    fn put<S: Sink>(&self, sink: &mut S) {
        put_number(self.priority as usize, b' ', sink);
        self.row.matching.put(sink);
        self.row.action.put(sink);
    }
}

/// The only line of a refusal.
impl Text for PlainRefusal {
    ghost use Rattle.show.specs.Text.{refusal};

    ghost text = { λ r. refusal r.number r.place };

    fn put<S: Sink>(&self, sink: &mut S) {
        sink.put(b"refused ");
        put_number(self.number as usize, b' ', sink);
        put_number(self.place, b'\n', sink);
    }
}

/// The line of its number and place.
impl Text for Refusal {
    ghost use Rattle.refusal.specs.Refusals.{refusal_number};
    ghost use Rattle.show.specs.Text.{refusal};

    ghost text = { λ r. refusal (refusal_number r) r.place };

    fn put<S: Sink>(&self, sink: &mut S) {
        plain(self.reason.number(), self.place).put(sink);
    }
}

/// The values of a match and its prefixes, each with a space behind it.
impl Text for Match {
    ghost use Rattle.show.specs.Text.{match_text};

    ghost text = { match_text };

    #[tactic(auto, unfolding(crate::specs::Text::match_text))]
    fn put<S: Sink>(&self, sink: &mut S) {
        self.constrains(IN_PORT).then_some(self.in_port).put(sink);
        self.source.put(sink);
        self.destination.put(sink);
        self.constrains(PROTOCOL).then_some(self.protocol).put(sink);
        self.constrains(SOURCE_PORT)
            .then_some(self.source_port)
            .put(sink);
        self.constrains(DESTINATION_PORT)
            .then_some(self.destination_port)
            .put(sink);
    }
}

/// An action, and the line end.
impl Text for Action {
    ghost use Rattle.show.specs.Text.{action_text};

    ghost text = { action_text };

    #[tactic(auto, unfolding(crate::specs::Text::action_text))]
    fn put<S: Sink>(&self, sink: &mut S) {
        match *self {
            Action::DontCare => sink.put(b"none\n"),
            Action::Allow => sink.put(b"allow\n"),
            Action::Deny => sink.put(b"deny\n"),
            Action::Gmb(rate) => {
                sink.put(b"gmb ");
                put_number(rate as usize, b'\n', sink);
            }
        }
    }
}

/// A value and a space; a star where it is not constrained.
impl Text for Option<u32> {
    ghost use Rattle.show.specs.Text.{value_text};

    ghost text = { value_text };

    #[tactic(auto, unfolding(crate::specs::Text::value_text))]
    fn put<S: Sink>(&self, sink: &mut S) {
        match *self {
            Some(value) => put_number(value as usize, b' ', sink),
            None => sink.put(b"* "),
        }
    }
}

/// The four bytes of its address, its length, and a space.
impl Text for Prefix {
    ghost use Rattle.show.specs.Text.{address};

    ghost text = { λ p. address p.address p.length };

    #[tactic(auto, unfolding(crate::specs::Text::address))]
    fn put<S: Sink>(&self, sink: &mut S) {
        let [a, b, c, d] = self.address.to_be_bytes();
        put_number(usize::from(a), b'.', sink);
        put_number(usize::from(b), b'.', sink);
        put_number(usize::from(c), b'.', sink);
        put_number(usize::from(d), b'/', sink);
        put_number(self.length as usize, b' ', sink);
    }
}

// A number with no zero before it, and the mark behind it.
#[tactic(auto, unfolding(crate::specs::Text::number))]
fn put_number<S: Sink>(value: usize, mark: u8, sink: &mut S)
    ensures { S.gives sink.old (number value mark) sink.new }
{
    let mut buffer = Buffer::new();
    sink.put(buffer.format(value).as_bytes());
    sink.put(&[mark]);
}
