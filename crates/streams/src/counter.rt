//! How many bytes there are.

ghost use Rattle.std.specs.Prelude.{◌≡◌};
ghost use Rattle.streams.specs.Count.{low};

use crate::Sink;

/// Counts bytes and keeps none: the low 32 bits of how many were put in.
#[derive(Clone, Copy)]
pub struct Counter {
    pub low: u32,
}

impl Sink for Counter {
    ghost use Rattle.streams.specs.Count.{Counts};
    ghost use Rattle.streams.specs.CounterSink.{counts-none, counts-then};

    ghost gives = { λ a xs b. Counts a.low xs b.low };

    ghost none = { λ s. counts-none s.low };

    ghost then = { λ a b c. counts-then a.low b.low c.low };

    fn put(&mut self, bytes: &[u8]) {
        self.low = self.low.wrapping_add(low(bytes.len()));
    }
}

/// The low 32 bits of a number.
pub fn low(number: usize) -> u32
    ensures { result ≡ low number }
{
    (number & u32::MAX as usize) as u32
}
