//! The atoms of each edition: the row that an atom's words are, and what its edition tests beside.

ghost use Rattle.std.specs.Prelude.{◌≡◌, ◌≤◌, length};
ghost use Rattle.row.specs.Row.{right_row_match, right_row_action};
ghost use Rattle.policy.specs.Numbers.{atom_length_in};
ghost use Rattle.policy.specs.Atom.{right_atom_match, right_atom_action};
ghost use Rattle.policy.specs.Sections.{atom_fault};

use crate::sections::{Piece, unless};
use crate::{ATOM_WORDS, Edition};
use refusal::{Reason, Refusal};
use row::{right_row_action, right_row_match};

impl Piece<'_> {
    // A wrong match of an atom, or else a wrong action.
    #[tactic(auto, unfolding(crate::specs::Sections::atom_fault))]
    pub(crate) fn atom_fault(self, edition: Edition) -> Result<(), Refusal>
        requires { atom_length_in edition ≤ length self.words.now }
        ensures { result ≡ atom_fault edition self.entry.at self.entry.words.now }
    {
        let row = row_in(self.words, edition);
        unless(right_row_match(row), Reason::WrongMatch, self.at)?;
        unless(right_row_action(row), Reason::WrongAction, self.at)
    }
}

// The words of an atom's row. They have a known length, so that reading them needs no test.
#[tactic(auto, using(crate::proofs::Editions::one_edition, crate::proofs::Lengths::match_first, crate::proofs::Lengths::action_first))]
fn row_in(atom: &[u32], edition: Edition) -> &[u32]
    requires { atom_length_in edition ≤ length atom.now }
    ensures matching { right_row_match result.now ≡ right_atom_match edition atom.now }
    ensures action { right_row_action result.now ≡ right_atom_action edition atom.now }
{
    match edition {
        Edition::First => &atom[..ATOM_WORDS],
    }
}
