//! The numbers of a text of words.

ghost use Rattle.std.specs.Prelude.{◌≡◌};
ghost use Rattle.tokens.specs.Left.{left};
ghost use Rattle.decimals.specs.Read.{Reads, read_of, begins_digit, begins_with_digit};

use std::alloc::{AllocFailed, Global};
use tokens::Tokens;
use values::number_of;

/// Why a text is not read: no memory, or its first fault.
#[derive(Drop)]
pub enum ReadError {
    /// No memory.
    Memory,
    /// The byte where the first word starts that is no number below 2^32.
    Fault(usize),
}

impl<T: Drop> From<AllocFailed<T>> for ReadError {
    ghost use Rattle.std.specs.Prelude.{◌≡◌};
    ghost use Rattle.decimals.specs.declared.numbers.ReadError.TheVariants.{Memory};

    ghost from_gives = { λ _ e. e ≡ Memory };

    fn from(_: AllocFailed<T>) -> ReadError {
        ReadError::Memory
    }
}

/// The numbers of a text of words, in order. Any bytes are answered.
pub fn read(alloc: Global, text: &[u8]) -> Result<Vec<u32>, ReadError>
    ensures { Reads (λ numbers. numbers.items) result (read_of text.now) }
{
    let mut tokens = Tokens::of(text);
    let mut numbers = Vec::new(alloc);
    // What is read behind the numbers so far is what is read behind none.
    while !tokens.ended() {
        let Some(number) = number_of(tokens.word()) else {
            return Err(ReadError::Fault(tokens.at()));
        };
        numbers.push(number)?;
        tokens.advance();
    }
    Ok(numbers)
}

/// Whether a text's first word begins with a digit, as that of a file of words does and that of no text in the
/// notation.
pub fn begins_with_digit(text: &[u8]) -> bool
    ensures { result ≡ begins_with_digit text.now }
{
    begins_digit(Tokens::of(text).word())
}

// Whether a word begins with a digit.
fn begins_digit(word: &[u8]) -> bool
    ensures { result ≡ begins_digit word.now }
{
    match word.first() {
        Some(&byte) => b'0' <= byte && byte <= b'9',
        None => false,
    }
}
