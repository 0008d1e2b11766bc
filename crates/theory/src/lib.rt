//! Rows, trees and numbering over any matches, actions and operators, and the theorems on them.
#![tactic(auto)]

ghost use Rattle.theory.specs.Theorems.{Theorems};

/// An atom or a row: a match, and the action given where it is met. Figure 1 of the paper: P = M × A.
#[derive(Clone, Copy)]
pub struct Row<M, A> {
    pub matching: M,
    pub action: A,
}

/// What is proved of any matches, packets, actions and operators.
pub fn theorems<M, P, A, O>()
    ensures { Theorems M P A O }
{}
