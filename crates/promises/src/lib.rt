//! No code: the demands, the worked cases, and for each public function that no second answer fits. Each function here
//! does nothing: its contract is a statement, so that the check fails where the statement is gone or has no proof.
#![tactic(auto)]

ghost use Rattle.promises.specs.Demands.{FixedAnswers, TableFollowsTree, SmallestNumbering, SwitchObeysTree};
ghost use Rattle.promises.specs.Hidden.{HiddenRows};
ghost use Rattle.promises.specs.Ports.{PortsOnly};
ghost use Rattle.promises.specs.Prefixes.{PrefixTest};
ghost use Rattle.promises.specs.Reservations.{ReservationsAddUp};
ghost use Rattle.promises.specs.Rates.{RatesStayInRange};
ghost use Rattle.promises.specs.Captures.{CaptureScans};
ghost use Rattle.promises.specs.Shuffles.{ShuffledFiles};
ghost use Rattle.promises.specs.Agents.{AgentCalls};
ghost use Rattle.promises.specs.Prints.{EveryListing};
ghost use Rattle.promises.specs.Lengths.{ListingLengths};
ghost use Rattle.promises.specs.Cases.{WorkedCases};
ghost use Rattle.promises.specs.Held.{Numbers, Premises, RestsOn};
ghost use Rattle.promises.specs.Constants.{Constants};
ghost use Rattle.promises.specs.Files.{FileCases};
ghost use Rattle.promises.specs.Fields.{FieldCases};
ghost use Rattle.promises.specs.Trees.{TreeCases};
ghost use Rattle.promises.specs.Listings.{ListingCases};

/// Every input gets one fixed answer or one numbered refusal.
#[tactic(auto, using(crate::proofs::FixedAnswers::fixed_answers))]
pub fn fixed_answers()
    ensures { FixedAnswers }
{}

/// The compiled table does what the tree says.
#[tactic(auto, using(crate::proofs::TableFollowsTree::table_follows_tree))]
pub fn table_follows_tree()
    ensures { TableFollowsTree }
{}

/// The numbering is right, and none is smaller.
pub fn smallest_numbering()
    ensures { SmallestNumbering }
{}

/// A switch does what the tree says.
#[tactic(auto, using(crate::proofs::SmallestNumbering::switch_obeys_tree))]
pub fn switch_obeys_tree()
    ensures { SwitchObeysTree }
{}

/// The worked cases.
#[tactic(auto, using(crate::proofs::Cases::hold), unfolding(crate::proofs::Cases::computed))]
pub fn worked_cases()
    ensures { WorkedCases }
{}

/// Hidden rows out.
#[tactic(auto, using(crate::proofs::HiddenLaws::hidden_rows))]
pub fn hidden_rows()
    ensures { HiddenRows }
{}

/// Ports only where there are ports.
#[tactic(auto, using(crate::proofs::Ports::ports_only))]
pub fn ports_only()
    ensures { PortsOnly }
{}

/// The prefix test by bit counts.
#[tactic(auto, using(crate::proofs::Prefixes::prefix_test))]
pub fn prefix_test()
    ensures { PrefixTest }
{}

/// Reservations that add up.
#[tactic(auto, using(crate::proofs::Reservations::reservations_add_up))]
pub fn reservations_add_up()
    ensures { ReservationsAddUp }
{}

/// Rates that stay in their range.
#[tactic(auto, using(crate::proofs::Rates::rates_stay_in_range))]
pub fn rates_stay_in_range()
    ensures { RatesStayInRange }
{}

/// A capture is answered as single scans.
#[tactic(auto, using(crate::proofs::Captures::capture_scans))]
pub fn capture_scans()
    ensures { CaptureScans }
{}

/// Atoms and children in another order.
#[tactic(auto, using(crate::proofs::Shuffles::shuffled_files))]
pub fn shuffled_files()
    ensures { ShuffledFiles }
{}

/// An agent is answered over bytes as over words.
#[tactic(auto, using(crate::proofs::Agents::agent_calls))]
pub fn agent_calls()
    ensures { AgentCalls }
{}

/// Every input has its listing.
#[tactic(auto, using(crate::proofs::Prints::every_listing))]
pub fn every_listing()
    ensures { EveryListing }
{}

/// No line and no listing is longer than its bound.
#[tactic(auto, using(crate::proofs::Lengths::listing_lengths))]
pub fn listing_lengths()
    ensures { ListingLengths }
{}

/// What these rest on, and what the words of packets, matches and files read back as.
pub fn rests_on()
    ensures { RestsOn }
{}

/// What premises ask, and no more.
pub fn premises()
    ensures { Premises }
{}

/// The numbers and words of the format.
#[tactic(auto, unfolding(crate::proofs::Cases::computed))]
pub fn numbers()
    ensures { Numbers }
{}

/// The public constants.
pub fn constants()
    ensures { Constants }
{}

/// What reading answers of files.
#[tactic(auto, using(crate::proofs::Cases::hold), unfolding(crate::proofs::Cases::computed))]
pub fn file_cases()
    ensures { FileCases }
{}

/// What is answered for each field of a packet, a match and an action.
#[tactic(auto, using(crate::proofs::Cases::hold), unfolding(crate::proofs::Cases::computed))]
pub fn field_cases()
    ensures { FieldCases }
{}

/// What is answered of trees, of tables and of buffers.
#[tactic(auto, using(crate::proofs::Cases::hold), unfolding(crate::proofs::Cases::computed))]
pub fn tree_cases()
    ensures { TreeCases }
{}

/// What is listed.
#[tactic(auto, using(crate::proofs::Cases::hold), unfolding(crate::proofs::Cases::computed))]
pub fn listing_cases()
    ensures { ListingCases }
{}
