//! Actions, operators, how an operator joins two actions, and the search for a broken law. What is read from words
//! cannot fail and says no more than it can: an unknown kind is don't care and a missing word 0, so it is no From,
//! which loses nothing, and no TryFrom.
#![tactic(auto)]

ghost use Rattle.std.specs.Prelude.{◌≡◌, ◌≤◌, max, min};
ghost use Rattle.action.specs.Action.{largest_rate, kind_of, rate_of, action_of, right_action};
ghost use Rattle.action.specs.declared.Action.TheVariants.{DontCare};
ghost use Rattle.action.specs.Operator.{kinds, cell_count, cells_of, coded, join, sibling, parent};
ghost use Rattle.action.specs.Operator.{rate_cells, largest_in, right_cell};
ghost use Rattle.action.specs.Laws.{law_search, actions_of};
ghost use Rattle.action.specs.Search.{joins, joined, second_by, pair_by, third_by, second_pair_by, triple_by};

use std::array;
use words::word;

/// The largest rate, in kbit/s.
pub const LARGEST_RATE: u32 = 100_000_000;

/// An operator's cells: one for each two kinds, don't care left out.
pub const CELLS: usize = (KINDS * KINDS) as usize;

// The kinds' numbers; the kinds below GMB have no rate. They stand beside the enum because words carry them, and
// because a cell's place is counted from those of two actions.
const DONT_CARE: u32 = 0;

const ALLOW: u32 = 1;

const DENY: u32 = 2;

const GMB: u32 = 3;

// How many kinds have cells: all but don't care.
const KINDS: u32 = GMB;

// The ninth cell, in which both actions have a rate.
const RATE_CELL: usize = CELLS - 1;

// What a cell's code gives: an action of its own, one of the two that meet, or a GMB of the larger rate, the smaller or
// the sum of the two, which is capped. Codes are numbers: a word that is no code counts as don't care, and still is a
// word of the operator.
const GIVES_ALLOW: u32 = 1;

const GIVES_DENY: u32 = 2;

const GIVES_LEFT: u32 = 3;

const GIVES_RIGHT: u32 = 4;

const GIVES_LARGER: u32 = 5;

const GIVES_SMALLER: u32 = 6;

const GIVES_SUM: u32 = 7;

// The largest code that is right in every cell.
const LARGEST_CODE: u32 = GIVES_RIGHT;

// The largest code that is right in the ninth cell.
const LARGEST_RATE_CODE: u32 = GIVES_SUM;

// The actions that the search takes, in list order.
static SAMPLES: [Action; 5] = [
    Action::Allow,
    Action::Deny,
    Action::Gmb(1),
    Action::Gmb(2),
    Action::Gmb(4),
];

// What an action gives with each of the samples.
type Joins = [Action; 5];

/// The words of an action: its kind and its rate.
pub type ActionWords = [u32; 2];

#[derive(Clone, Copy, PartialEq, Eq)]
pub enum Action {
    /// The identity of every operator.
    DontCare,
    Allow,
    Deny,
    Gmb(u32),
}

impl Action {
    /// What a packet gets that meets no row and no atom.
    pub const DONT_CARE: Action = Action::DontCare;

    /// The number of its kind.
    pub fn kind(self) -> u32
        ensures kind { result ≡ kind_of self }
        ensures bound { result ≤ kinds }
    {
        match self {
            Action::DontCare => DONT_CARE,
            Action::Allow => ALLOW,
            Action::Deny => DENY,
            Action::Gmb(_) => GMB,
        }
    }

    /// Its rate, 0 where it has none.
    pub fn rate(self) -> u32
        ensures { result ≡ rate_of self }
    {
        match self {
            Action::DontCare | Action::Allow | Action::Deny => 0,
            Action::Gmb(rate) => rate,
        }
    }

    /// The action of a kind and a rate. A kind that is not known gives don't care.
    #[tactic(auto, unfolding(crate::specs::Action::action_of))]
    pub fn from_words(kind: u32, rate: u32) -> Action
        ensures { result ≡ action_of kind rate }
    {
        match kind {
            ALLOW => Action::Allow,
            DENY => Action::Deny,
            GMB => Action::Gmb(rate),
            _ => Action::DONT_CARE,
        }
    }

    /// Whether two words are an action's: a kind, a rate that is not too large, and a rate other than 0 for GMB alone.
    pub fn right_words(kind: u32, rate: u32) -> bool
        ensures { result ≡ right_action kind rate }
    {
        (kind <= GMB) & (rate <= LARGEST_RATE) & ((kind == GMB) == (rate != 0))
    }
}

// The action's two words.
impl From<Action> for ActionWords {
    ghost use Rattle.std.specs.Prelude.{◌≡◌, ◌∷◌, []};
    ghost use Rattle.action.specs.Action.{kind_of, rate_of};

    ghost from_gives = { λ a r. r ≡ kind_of a ∷ rate_of a ∷ [] };

    fn from(action: Action) -> ActionWords {
        [action.kind(), action.rate()]
    }
}

/// The codes of the cells: the left action's kind slowest, the right's fastest.
#[derive(Clone, Copy)]
pub struct Operator {
    pub cells: [u32; CELLS],
}

/// A broken law and the actions that show it: joined the one way and the other, they give two actions.
#[derive(Clone, Copy, PartialEq, Eq)]
pub enum LawFailure {
    Commutativity(Action, Action),
    Associativity(Action, Action, Action),
}

impl LawFailure {
    /// The actions that show it, three for either law: don't care is the third where two show it.
    pub fn actions(self) -> [Action; 3]
        ensures { result ≡ actions_of self }
    {
        match self {
            LawFailure::Commutativity(first, second) => [first, second, Action::DONT_CARE],
            LawFailure::Associativity(first, second, third) => [first, second, third],
        }
    }
}

impl Operator {
    /// The two operators that are supplied by name.
    pub const SIBLING: Operator = Operator {
        cells: [
            GIVES_ALLOW,
            GIVES_DENY,
            GIVES_RIGHT,
            GIVES_DENY,
            GIVES_DENY,
            GIVES_DENY,
            GIVES_LEFT,
            GIVES_DENY,
            GIVES_LARGER,
        ],
    };

    pub const PARENT: Operator = Operator {
        cells: [
            GIVES_ALLOW,
            GIVES_DENY,
            GIVES_RIGHT,
            GIVES_ALLOW,
            GIVES_DENY,
            GIVES_RIGHT,
            GIVES_LEFT,
            GIVES_DENY,
            GIVES_LARGER,
        ],
    };

    /// The operator whose cells the first words are. Words that are missing count as 0.
    pub fn from_words(words: &[u32]) -> Operator
        ensures { result.cells ≡ cells_of words.now }
    {
        Operator {
            cells: array::from_fn(|i| word(words, i)),
        }
    }

    /// Two actions joined. A code that is not known gives don't care.
    pub fn join(&self, left: Action, right: Action) -> Action
        ensures { result ≡ join self.now.cells left right }
    {
        join_by(&self.cells, left, right)
    }

    /// The first pair that breaks commutativity, or else the first triple that breaks associativity.
    #[tactic(auto, unfolding(crate::specs::Laws::shown, crate::specs::Search::joined))]
    pub fn law_search(self) -> Result<(), LawFailure>
        ensures { result ≡ law_search self.cells }
    {
        let [a, b, c, d, e] = SAMPLES;
        // Lent where it is made: handed on by value, its 200 bytes ask for C's `memcpy`, and an archive for C is to need
        // no more from outside than it does.
        self.first_broken(&[
            self.joins(a),
            self.joins(b),
            self.joins(c),
            self.joins(d),
            self.joins(e),
        ])
    }

    // The same, by what each of the samples gives with each.
    fn first_broken(&self, given: &[Joins]) -> Result<(), LawFailure>
        requires { given.now ≡ joined self.now.cells }
        ensures { result ≡ law_search self.now.cells }
    {
        self.first_pair(given)?;
        self.first_triple(given)
    }

    // What an action gives with each of the samples.
    fn joins(&self, a: Action) -> Joins
        ensures { result ≡ joins self.now.cells a }
    {
        SAMPLES.map(|b| self.join(a, b))
    }

    // The pairs in order, the first action slowest.
    fn first_pair(&self, joined: &[Joins]) -> Result<(), LawFailure>
        ensures { result ≡ pair_by self.now.cells joined.now }
    {
        SAMPLES
            .iter()
            .zip(joined)
            .try_for_each(|(a, row)| self.with_second(*a, row))
    }

    // The first pair of this action and a second that breaks commutativity.
    fn with_second(&self, a: Action, row: &[Action]) -> Result<(), LawFailure>
        ensures { result ≡ second_by self.now.cells a row.now }
    {
        SAMPLES.iter().zip(row).try_for_each(|(b, ab)| {
            if *ab == self.join(*b, a) {
                Ok(())
            } else {
                Err(LawFailure::Commutativity(a, *b))
            }
        })
    }

    // The triples in order, the first action slowest, but only those whose third action stands after the first: where
    // the pairs commute, any other breaks the law only if it does read backwards, and that one comes before.
    fn first_triple(&self, joined: &[Joins]) -> Result<(), LawFailure>
        ensures { result ≡ triple_by self.now.cells joined.now }
    {
        SAMPLES
            .iter()
            .zip(joined)
            .enumerate()
            .try_for_each(|(i, (a, row))| self.with_pair(i, *a, row, joined))
    }

    // The first triple of this action, the sample at i, and a pair that breaks associativity.
    fn with_pair(
        &self,
        i: usize,
        a: Action,
        row: &[Action],
        joined: &[Joins],
    ) -> Result<(), LawFailure>
        ensures { result ≡ second_pair_by self.now.cells i a row.now joined.now }
    {
        SAMPLES
            .iter()
            .zip(row)
            .zip(joined)
            .try_for_each(|((b, ab), below)| self.with_third(i, a, *b, *ab, below))
    }

    // The first triple of these two actions and a third, after the sample at i, that breaks associativity. The pairs
    // are joined already, so that two joins are left.
    fn with_third(
        &self,
        i: usize,
        a: Action,
        b: Action,
        ab: Action,
        row: &[Action],
    ) -> Result<(), LawFailure>
        ensures { result ≡ third_by self.now.cells i a b ab row.now }
    {
        SAMPLES.iter().zip(row).skip(i).skip(1).try_for_each(|(c, bc)| {
            if self.join(ab, *c) == self.join(a, *bc) {
                Ok(())
            } else {
                Err(LawFailure::Associativity(a, b, *c))
            }
        })
    }
}

/// Two actions joined by an operator's cells, which some words begin with: only the cell is read that is asked for.
/// Words that are missing count as 0, and a code that is not known gives don't care.
pub fn join_by(cells: &[u32], left: Action, right: Action) -> Action
    ensures { result ≡ join cells.now left right }
{
    if left == Action::DONT_CARE {
        return right;
    }
    if right == Action::DONT_CARE {
        return left;
    }
    let cell = (left.kind() - 1) * KINDS + (right.kind() - 1);
    coded(word(cells, cell as usize), left, right)
}

/// What the public constants are: a constant has no contract of its own.
pub fn constants()
    ensures dont_care { Action.DONT_CARE ≡ DontCare }
    ensures sibling { Operator.SIBLING.cells ≡ sibling }
    ensures parent { Operator.PARENT.cells ≡ parent }
    ensures rate { LARGEST_RATE ≡ largest_rate }
    ensures cells { CELLS ≡ cell_count }
{}

/// Whether a cell may have a code.
#[tactic(auto, unfolding(crate::specs::Operator::right_cell))]
pub fn right_cell(cell: usize, code: u32) -> bool
    ensures { result ≡ right_cell cell code }
{
    (cell < CELLS) & (1 <= code) & (code <= largest_code(cell))
}

// The largest code that is right in a cell: an arm for each cell in which both actions have a rate.
fn largest_code(cell: usize) -> u32
    ensures { result ≡ largest_in rate_cells cell }
{
    match cell {
        RATE_CELL => LARGEST_RATE_CODE,
        _ => LARGEST_CODE,
    }
}

// What a cell's code gives.
#[tactic(auto, unfolding(crate::specs::Operator::coded))]
fn coded(code: u32, left: Action, right: Action) -> Action
    ensures { result ≡ coded code left right }
{
    let m = left.rate();
    let n = right.rate();
    match code {
        GIVES_ALLOW => Action::Allow,
        GIVES_DENY => Action::Deny,
        GIVES_LEFT => left,
        GIVES_RIGHT => right,
        GIVES_LARGER => Action::Gmb(m.max(n)),
        GIVES_SMALLER => Action::Gmb(m.min(n)),
        GIVES_SUM => Action::Gmb(m.saturating_add(n).min(LARGEST_RATE)),
        _ => Action::DONT_CARE,
    }
}
