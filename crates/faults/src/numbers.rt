//! The numbers of faults.

ghost use Rattle.std.specs.Prelude.{◌≡◌};
ghost use Rattle.faults.specs.Numbers.{fault_number, wanted_number};

use notation::{Fault, Reason, Wanted};

/// The number of a fault, 1 to 30.
pub fn number(fault: Fault) -> u32
    ensures { result ≡ fault_number fault }
{
    match fault.reason {
        Reason::Unexpected(wanted) => wanted_number(wanted),
        Reason::Twice(_) => 22,
        Reason::Unknown(_) => 23,
        Reason::HostBits(_) => 24,
        Reason::WrongRate => 25,
        Reason::TooManyOperators => 26,
        Reason::TooManyRules => 27,
        Reason::TooManyNodes => 28,
        Reason::TooDeep => 29,
        Reason::Unclosed(_) => 30,
    }
}

// The number where another word was wanted.
fn wanted_number(wanted: Wanted) -> u32
    ensures { result ≡ wanted_number wanted }
{
    match wanted {
        Wanted::Start => 1,
        Wanted::OperatorName => 2,
        Wanted::Table => 3,
        Wanted::AllowHeading => 4,
        Wanted::DenyHeading => 5,
        Wanted::ReserveHeading => 6,
        Wanted::Cell => 7,
        Wanted::RateCell => 8,
        Wanted::TableEnd => 9,
        Wanted::NodeName => 10,
        Wanted::Block => 11,
        Wanted::Line => 12,
        Wanted::NodeOrEnd => 13,
        Wanted::Action => 14,
        Wanted::Rate => 15,
        Wanted::Unit => 16,
        Wanted::Match => 17,
        Wanted::Port => 18,
        Wanted::Protocol => 19,
        Wanted::Prefix => 20,
        Wanted::End => 21,
    }
}
