//! Single words: one that is wanted, a value of one, and a fault at one.

ghost use Rattle.std.specs.Prelude.{◌≡◌};
ghost use Rattle.tokens.specs.Tokens.{at, word};
ghost use Rattle.tokens.specs.Left.{left};
ghost use Rattle.values.specs.Numbers.{number_of, up_to};
ghost use Rattle.notation.specs.declared.fault.Reason.TheVariants.{Unexpected};
ghost use Rattle.notation.specs.Reads.{fault_at, taken, some_or, gave, went};

use crate::{Fault, Reason, Wanted};
use tokens::Tokens;
use values::number_of;

// A fault at the first word.
pub(crate) fn fault(reason: Reason, tokens: &Tokens) -> Fault
    ensures { result ≡ fault_at (at (left tokens.now)) reason }
{
    Fault {
        at: tokens.at(),
        reason,
    }
}

// The first word is not what was wanted.
pub(crate) fn wrong(wanted: Wanted, tokens: &Tokens) -> Fault
    ensures { result ≡ fault_at (at (left tokens.now)) (Unexpected wanted) }
{
    fault(Reason::Unexpected(wanted), tokens)
}

// Goes on behind a word.
#[tactic(auto, unfolding(crate::specs::Reads::taken))]
pub(crate) fn take(word: &[u8], wanted: Wanted, tokens: &mut Tokens) -> Result<(), Fault>
    ensures { went result (left tokens.new) ≡ taken word.now wanted (left tokens.old) }
{
    if tokens.is(word) {
        tokens.advance();
        Ok(())
    } else {
        Err(wrong(wanted, tokens))
    }
}

// Goes on behind a word that has a value.
pub(crate) fn value(found: Option<u32>, wanted: Wanted, tokens: &mut Tokens) -> Result<u32, Fault>
    ensures { gave result (left tokens.new) ≡ some_or wanted found (left tokens.old) }
{
    match found {
        Some(value) => {
            tokens.advance();
            Ok(value)
        }
        None => Err(wrong(wanted, tokens)),
    }
}

// A number that is no more than a limit.
pub(crate) fn number(limit: u32, wanted: Wanted, tokens: &mut Tokens) -> Result<u32, Fault>
    ensures { gave result (left tokens.new)
        ≡ some_or wanted (up_to limit (number_of (word (left tokens.old)))) (left tokens.old) }
{
    let found = at_most(limit, number_of(tokens.word()));
    value(found, wanted, tokens)
}

// A number, if it is no more than a limit.
pub(crate) fn at_most(limit: u32, found: Option<u32>) -> Option<u32>
    ensures { result ≡ up_to limit found }
{
    match found {
        Some(number) if number <= limit => Some(number),
        _ => None,
    }
}
