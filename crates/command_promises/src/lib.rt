//! What is promised of the answers of the command `qadhmuleh`: nothing but statements, each the contract of a function
//! that does nothing.
#![tactic(auto)]

ghost use Rattle.command_promises.specs.Decimals.{DecimalsRead, DecimalCases};
ghost use Rattle.command_promises.specs.Idle.{IdleDecidesNothing};
ghost use Rattle.command_promises.specs.OneValue.{OneValues};
ghost use Rattle.command_promises.specs.Origins.{OriginsShown};
ghost use Rattle.command_promises.specs.Packets.{PacketsRead};
ghost use Rattle.command_promises.specs.Traces.{TracesSettle};
ghost use Rattle.command_promises.specs.Witnesses.{WitnessesMeet};

/// Where the rows of a file come from.
#[tactic(auto, using(crate::proofs::OriginsLaws::origins_shown))]
pub fn origins_shown()
    ensures { OriginsShown }
{}

/// What is promised of the steps of a trace.
#[tactic(auto, using(crate::proofs::Traces::traces_settle))]
pub fn traces_settle()
    ensures { TracesSettle }
{}

/// All that is promised of files of words as texts.
#[tactic(auto, using(crate::proofs::Decimals::decimals_read))]
pub fn decimals_read()
    ensures { DecimalsRead }
{}

/// Files of words as texts, in literals.
#[tactic(auto, using(crate::proofs::Decimals::decimal_cases))]
pub fn decimal_cases()
    ensures { DecimalCases }
{}

/// A packet that is shown for two matches meets both, and none is shown exactly where there is none.
#[tactic(auto, using(crate::proofs::Witnesses::witnesses_meet))]
pub fn witnesses_meet()
    ensures { WitnessesMeet }
{}

/// A packet that is read is in range, and the text of a packet in range is read as the packet.
#[tactic(auto, using(crate::proofs::Packets::packets_read))]
pub fn packets_read()
    ensures { PacketsRead }
{}

/// A rule that is called idle decides no packet.
/// A rule that is called idle decides no packet.
#[tactic(auto, using(crate::proofs::IdleRules::idle_decides_nothing))]
pub fn idle_decides_nothing()
    ensures { IdleDecidesNothing }
{}

/// Where memory does not run out, a text of words, the idle rules of a file and a trace have one value.
#[tactic(auto, using(crate::proofs::OneValues::one_values))]
pub fn one_values<V, Q>()
    ensures { OneValues V Q }
{}
