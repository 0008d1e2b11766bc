//! The stages of reading a policy file, one behind the other.

ghost use Rattle.std.specs.Prelude.{◌≡◌, ◌≤◌, length};
ghost use Rattle.policy.specs.Read.{read_as, read_of, first_atom};
ghost use Rattle.policy.specs.Steps.{Reads};

use crate::laws::laws_fault;
use crate::sections::unless;
use crate::shape::{shape_fault, sum_fault};
use crate::{Edition, HEADER_WORDS, LATEST, Layout, MOST_OPERATORS, Section};
use refusal::{Reason, Refusal};
use words::word;

// A good section: how many records it has, their words, and where it ends in the file, which the words do not tell.
#[derive(Clone, Copy)]
struct GoodSection<'a> {
    count: usize,
    words: &'a [u32],
    end: usize,
}

impl Layout {
    /// The word where the first atom stands in a file of the newest edition, behind the operators and the count of the
    /// atoms; 0 if no file has so many operators.
    #[tactic(auto, unfolding(crate::specs::Read::first_atom))]
    pub fn first_atom(self) -> usize
        ensures { result ≡ first_atom self.operators }
    {
        if MOST_OPERATORS < self.operators {
            return 0;
        }
        Section::Operators(LATEST).behind(HEADER_WORDS, self.operators) + 1
    }
}

/// Reads a policy file of the newest edition.
pub fn read(file: &[u32]) -> Result<Layout, Refusal>
    ensures { result ≡ read_of file.now }
{
    read_as(file, LATEST)
}

/// Reads a policy file of an edition: its header, section by section, then words after the last
/// node, the tree, the own-atom counts and the laws.
pub fn read_as(file: &[u32], edition: Edition) -> Result<Layout, Refusal>
    ensures { result ≡ read_as edition file.now }
{
    edition.header_fault(file)?;
    let operators = read_section(file, edition.words().header, Section::Operators(edition))?;
    let atoms = read_section(file, operators.end, Section::Atoms(edition))?;
    let nodes = read_section(file, atoms.end, Section::Nodes(operators.count))?;
    unless(file.len() <= nodes.end, Reason::ExtraWords, nodes.end)?;
    shape_fault(nodes.words)?;
    sum_fault(nodes.words, atoms.count)?;
    laws_fault(nodes.words, operators.words, edition)?;
    Ok(Layout {
        operators: operators.count,
        atoms: atoms.count,
        nodes: nodes.count,
    })
}

// The section whose count stands at a place of the file, or its first fault.
fn read_section(file: &[u32], at: usize, section: Section) -> Result<GoodSection<'_>, Refusal>
    requires { at ≤ length file.now }
    ensures { Reads file.now at section result }
{
    section.fault(file, at)?;
    let count = word(file, at) as usize;
    let end = section.behind(at, count);
    Ok(GoodSection {
        count,
        words: &file[at + 1..end],
        end,
    })
}
