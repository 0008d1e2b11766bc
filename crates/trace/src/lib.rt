//! The steps in which a policy tree settles what it says: rule by rule and node by node, what was made of what.
#![tactic(auto)]

ghost use Rattle.std.specs.Prelude.{Bool, ◌≡◌};
ghost use Rattle.flow.specs.declared.Match.{Match};
ghost use Rattle.trace.specs.Settled.{IsTrace};

use crate::walk::accepted_steps;
pub use crate::walk::{NodeStep, RuleStep, Steps, StepsError};
use flow::{Match, Packet};
use policy::read;
use std::alloc::Global;

mod walk;

/// What can be asked of a tree: which matches it meets. Two kinds are asked: a packet, and a match in the place of the
/// packets that meet it.
pub trait Asked {
    /// Which matches it meets.
    ghost meets: { Self → Match → Bool };

    /// Whether it meets a match.
    fn meets_match(&self, matching: Match) -> bool
        ensures { result ≡ meets self.now matching };
}

/// A packet meets a match as ever.
impl Asked for Packet {
    ghost use Rattle.flow.specs.Match.{meets};

    ghost meets = { λ p m. meets m p };

    fn meets_match(&self, matching: Match) -> bool {
        matching.meets(*self)
    }
}

/// A match meets those that it lies inside.
impl Asked for Match {
    ghost use Rattle.origins.specs.Origins.{holds};

    ghost meets = { λ q m. holds m q };

    fn meets_match(&self, matching: Match) -> bool {
        self.lies_inside(matching)
    }
}

/// The steps in which the tree of a policy file settles what it says of what it is asked; a file that is not accepted
/// gets its refusal.
pub fn steps<Q: Asked>(alloc: Global, file: &[u32], asked: &Q) -> Result<Steps, StepsError>
    ensures { IsTrace (λ m q. Q.meets q m) asked.now file.now result }
{
    let layout = match read(file) {
        Ok(layout) => layout,
        Err(refusal) => return Err(StepsError::Refused(refusal)),
    };
    match accepted_steps(alloc, file, layout, asked) {
        Ok(steps) => Ok(steps),
        Err(_) => Err(StepsError::Memory),
    }
}
