//! Where a byte of a text stands, as a person counts.

ghost use Rattle.std.specs.Prelude.{◌≡◌};
ghost use Rattle.tokens.specs.Place.{place_of};

use crate::NEWLINE;

/// A line and a column, both counted from 1. A column counts bytes.
#[derive(Clone, Copy, PartialEq, Eq)]
pub struct Place {
    pub line: usize,
    pub column: usize,
}

/// The line and the column of a byte of a text; of one behind its end, those of the end.
pub fn place_of(text: &[u8], at: usize) -> Place
    ensures { result ≡ place_of text.now at }
{
    let before = &text[..at.min(text.len())];
    let mut newlines = 0;
    let mut behind = 0;
    // The line ends among the bytes that were passed, and the bytes behind the last of them.
    for &byte in before {
        if byte == NEWLINE {
            newlines += 1;
            behind = 0;
        } else {
            behind += 1;
        }
    }
    Place {
        line: newlines + 1,
        column: behind + 1,
    }
}
