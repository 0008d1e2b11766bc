//! A text that is kept until its length is known.

ghost use Rattle.std.specs.Prelude.{◌≡◌, true, IfSome};

use arrayvec::ArrayVec;
use streams::{Counter, Sink};

// The longest text that is kept, in bytes: more than the lines of any listing have.
const ROOM: usize = 340 * 1025;

/// The bytes that were put in, as long as there was room for all of them, and how many there were.
#[derive(Drop)]
pub(crate) struct Draft {
    text: ArrayVec<u8, ROOM>,
    whole: bool,
    counter: Counter,
}

impl Draft {
    ghost use Rattle.calls.specs.Drafts.{Blank, Drafts};

    /// One into which nothing was put.
    pub(crate) fn new() -> Draft
        ensures { Blank result }
    {
        Draft {
            text: ArrayVec::new(),
            whole: true,
            counter: Counter { low: 0 },
        }
    }

    /// As if nothing had been put in. The room is not blanked again: that would take longer than a short listing.
    pub(crate) fn clear(&mut self)
        ensures { Blank self.new }
    {
        self.text.clear();
        self.whole = true;
        self.counter = Counter { low: 0 };
    }

    /// The low 32 bits of how many bytes were put in.
    pub(crate) fn length(&self) -> u32
        ensures { result ≡ self.now.counter.low }
    {
        self.counter.low
    }

    /// All that was put in, if there was room for it.
    pub(crate) fn whole_text(&self) -> Option<&[u8]>
        ensures whole { IfSome result (λ text. self.now.whole ≡ true) }
        ensures text { IfSome result (λ text. text.now ≡ self.now.text.items) }
    {
        if self.whole {
            Some(self.text.as_slice())
        } else {
            None
        }
    }
}

impl Sink for Draft {
    ghost use Rattle.calls.specs.Drafts.{Drafts};
    ghost use Rattle.calls.specs.DraftSink.{drafts-none, drafts-then};

    ghost gives = { Drafts };

    ghost none = { drafts-none };

    ghost then = { drafts-then };

    fn put(&mut self, bytes: &[u8]) {
        self.counter.put(bytes);
        self.whole = self.whole && self.text.try_extend_from_slice(bytes).is_ok();
    }
}
