//! What each edition of the file format fixes: the lengths of its header and its records, which codes
//! its cells may have, and the operator that its words are.

ghost use Rattle.std.specs.Prelude.{◌≡◌};
ghost use Rattle.policy.specs.Numbers.{header_length_in, operator_length_in, atom_length_in};
ghost use Rattle.policy.specs.Cells.{right_cell_in, operator_row};
ghost use Rattle.policy.specs.Sections.{header_fault};
ghost use Rattle.action.specs.Operator.{cells_of};

use crate::{ATOM_WORDS, Edition, HEADER_WORDS, OPERATOR_WORDS};
use action::{Operator, right_cell};
use refusal::Refusal;

// How many words stand before the first count, and how many an operator and an atom have.
#[derive(Clone, Copy)]
pub(crate) struct EditionWords {
    pub(crate) header: usize,
    pub(crate) operator: usize,
    pub(crate) atom: usize,
}

impl Edition {
    // How long its header and its records are.
    pub(crate) fn words(self) -> EditionWords
        ensures { result ≡ record {
          header = header_length_in self;
          operator = operator_length_in self;
          atom = atom_length_in self;
        } }
    {
        match self {
            Edition::First => EditionWords {
                header: HEADER_WORDS,
                operator: OPERATOR_WORDS,
                atom: ATOM_WORDS,
            },
        }
    }

    // What is wrong in a file's header; the first edition has none.
    pub(crate) fn header_fault(self, file: &[u32]) -> Result<(), Refusal>
        ensures { result ≡ header_fault self file.now }
    {
        match self {
            Edition::First => Ok(()),
        }
    }

    // The operator that some words are.
    pub(crate) fn operator(self, words: &[u32]) -> Operator
        ensures { result.cells ≡ cells_of (operator_row self words.now) }
    {
        match self {
            Edition::First => Operator::from_words(words),
        }
    }

    // Whether a code is right in a cell.
    pub(crate) fn right_cell(self, cell: usize, code: u32) -> bool
        ensures { result ≡ right_cell_in self cell code }
    {
        match self {
            Edition::First => right_cell(cell, code),
        }
    }
}
