//! One node with k unconstrained atoms has 2^k - 1 rows: each atom doubles its table and adds a row. The largest table
//! has room for the rows of 12 atoms, and those of 13 are refused. Writes the row count of 12 atoms, and the number of
//! the refusal of 13.
#![tactic(auto)]

ghost use Rattle.std.specs.Prelude.{◌≡◌, ◌≤◌, ◌-◌, ◌^◌, ◌∷◌, [], Ok, Err};
ghost use Rattle.refusal.specs.Refusals.{refusal_at};
ghost use Rattle.refusal.specs.declared.Reason.TheVariants.{NoRoom};
ghost use Rattle.doubling.specs.declared.TheConstants.{FEW, MANY};
ghost use Rattle.doubling.specs.Doubling.{answer_for, number_of};

use compile::compile;
use policy::{ATOM_WORDS, FIRST_OPERATOR, NODE_WORDS, OPERATOR_WORDS};
use refusal::Refusal;
use row::{MOST_ROWS, ROW_WORDS};
use std::io;
use words::copy;

// The words before the first atom: the operator count, an operator and the atom count.
const BEFORE: usize = FIRST_OPERATOR + OPERATOR_WORDS + 1;

// Those behind the last: the node count and a node.
const BEHIND: usize = 1 + NODE_WORDS;

// The most atoms whose rows a table has room for.
const FEW: usize = 12;

// One more.
const MANY: usize = 13;

fn main(rt: HostRuntime) -> io::Result<()> {
    let [few, many] = numbers();
    println!(rt; "{few} {many}")
}

// The two numbers that are written.
#[tactic(auto, using(crate::proofs::Rows::few, crate::proofs::Rows::many))]
fn numbers() -> [usize; 2]
    ensures { result ≡ 4095 ∷ 12 ∷ [] }
{
    [number(FEW), number(MANY)]
}

// The number that tells the answer for the file with so many atoms: the row count, or the refusal's number.
fn number(atoms: usize) -> usize
    requires { atoms ≤ MANY }
    ensures { result ≡ number_of (answer_for atoms) }
{
    match answer(atoms) {
        Ok(rows) => rows,
        Err(refusal) => refusal.reason.number() as usize,
    }
}

// The answer for the file with so many atoms.
fn answer(atoms: usize) -> Result<usize, Refusal>
    requires { atoms ≤ MANY }
    ensures answer { result ≡ answer_for atoms }
    ensures rows { atoms ≤ FEW → result ≡ Ok (2 ^ atoms - 1) }
    ensures no_room { atoms ≡ MANY → result ≡ Err (refusal_at NoRoom 0) }
{
    // Arrays, since a heap would add the C library's memory to what is trusted.
    let mut file = [0u32; BEFORE + ATOM_WORDS * MANY + BEHIND];
    let mut table = [0u32; ROW_WORDS * MOST_ROWS];
    let mut scratch = [0u32; ROW_WORDS * MOST_ROWS];
    let behind = BEFORE + ATOM_WORDS * atoms;
    let count = atoms as u32;
    copy(&mut file, 0, &[1, 1, 1, 1, 1, 1, 1, 1, 1, 1, count]);
    copy(&mut file, behind, &[1, 0, 0, 0, count, 0]);
    compile(&file[..behind + BEHIND], &mut table, &mut scratch)
}
