//! One section of a policy file: where it ends, its count, that all of it is there, and its records
//! in order.

ghost use Rattle.std.specs.Prelude.{◌≡◌, ◌+◌, ◌*◌, ◌/◌, ◌≤◌, ◌<◌, ◌^◌, length};
ghost use Rattle.words.specs.Records.{records};
ghost use Rattle.policy.specs.Sections.{record_length, least, most, behind, unless, each};
ghost use Rattle.policy.specs.Sections.{count_fault, cells_fault, node_fault};
ghost use Rattle.policy.specs.Sections.{record_fault, section_fault};

use crate::{Edition, MOST_ATOMS, MOST_NODES, MOST_OPERATORS, NODE_WORDS, Node, Section};
use refusal::{Reason, Refusal};
use words::{Spelling, word};

// The fewest and the most records that a section may have.
#[derive(Clone, Copy)]
struct Limits {
    least: usize,
    most: usize,
}

// Words of a file, and the place where the first of them stands in it.
#[derive(Clone, Copy)]
pub(crate) struct Piece<'a> {
    pub(crate) words: &'a [u32],
    pub(crate) at: usize,
    ghost end: { at + length words.now < 2 ^ 64 },
}

impl Section {
    // The first fault of the section whose count stands at a place.
    #[tactic(auto, unfolding(crate::specs::Sections::section_fault))]
    pub(crate) fn fault(self, file: &[u32], at: usize) -> Result<(), Refusal>
        requires { at ≤ length file.now }
        ensures { result ≡ section_fault file.now at self }
    {
        self.count_fault(file, at)?;
        let end = self.behind(at, word(file, at) as usize);
        unless(end <= file.len(), Reason::ShortFile, file.len())?;
        let records = Piece {
            words: &file[at + 1..end],
            at: at + 1,
        };
        records.records_fault(self)
    }

    // Where it ends, with so many records, if its count stands at a place.
    pub(crate) fn behind(self, at: usize, count: usize) -> usize
        requires { behind at self count < 2 ^ 64 }
        ensures { result ≡ behind at self count }
    {
        at + 1 + self.record_words() * count
    }

    // How many words a record has.
    fn record_words(self) -> usize
        ensures { result ≡ record_length self }
    {
        match self {
            Section::Operators(edition) => edition.words().operator,
            Section::Atoms(edition) => edition.words().atom,
            Section::Nodes(_) => NODE_WORDS,
        }
    }

    fn limits(self) -> Limits
        ensures { result ≡ record { least = least self; most = most self } }
    {
        match self {
            Section::Operators(_) => Limits {
                least: 1,
                most: MOST_OPERATORS,
            },
            Section::Atoms(_) => Limits {
                least: 0,
                most: MOST_ATOMS,
            },
            Section::Nodes(_) => Limits {
                least: 1,
                most: MOST_NODES,
            },
        }
    }

    // Whether a count is there and within its limits.
    #[tactic(auto, unfolding(crate::specs::Sections::count_fault))]
    fn count_fault(self, file: &[u32], at: usize) -> Result<(), Refusal>
        ensures { result ≡ count_fault file.now at self }
    {
        unless(at < file.len(), Reason::ShortFile, file.len())?;
        let count = word(file, at) as usize;
        let limits = self.limits();
        let good = (limits.least <= count) & (count <= limits.most);
        unless(good, Reason::WrongCount, at)
    }
}

impl Piece<'_> {
    // The first fault of a section's records, which stand one behind the other.
    fn records_fault(self, section: Section) -> Result<(), Refusal>
        ensures { result ≡ each (record_fault section) self.entry.at (record_length section)
            (records (length self.entry.words.now / record_length section) (record_length section)
            self.entry.words.now) }
    {
        let step = section.record_words();
        // No record before record i has a fault. No `Records`, which are of one length: here the edition tells it.
        for (i, words) in self.words.chunks_exact(step).enumerate() {
            let record = Piece {
                words,
                at: self.at + step * i,
            };
            record.record_fault(section)?;
        }
        Ok(())
    }

    // The fault of one record of a section.
    fn record_fault(self, section: Section) -> Result<(), Refusal>
        requires { record_length section ≤ length self.words.now }
        ensures { result ≡ record_fault section self.entry.at self.entry.words.now }
    {
        match section {
            Section::Operators(edition) => self.cells_fault(edition),
            Section::Atoms(edition) => self.atom_fault(edition),
            Section::Nodes(operators) => self.node_fault(operators),
        }
    }

    // The first wrong cell of an operator.
    #[tactic(auto, unfolding(crate::specs::Sections::cells_fault))]
    fn cells_fault(self, edition: Edition) -> Result<(), Refusal>
        ensures { result ≡ cells_fault edition self.entry.at self.entry.words.now }
    {
        for (j, code) in self.words.iter().enumerate() {
            unless(edition.right_cell(j, *code), Reason::WrongCell, self.at + j)?;
        }
        Ok(())
    }

    // A node whose operator indexes, own-atom count or child count is too large.
    #[tactic(auto, unfolding(crate::specs::Sections::node_fault))]
    fn node_fault(self, operators: usize) -> Result<(), Refusal>
        ensures { result ≡ node_fault operators self.entry.at self.entry.words.now }
    {
        let node = Node::read(self.words);
        unless(node.is_right(operators), Reason::WrongNode, self.at)
    }
}

// The refusal for a reason at a place, where a test is not met.
pub(crate) fn unless(good: bool, reason: Reason, place: usize) -> Result<(), Refusal>
    ensures { result ≡ unless good reason place }
{
    if good { Ok(()) } else { Err(reason.at(place)) }
}
