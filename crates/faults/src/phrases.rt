//! The phrases of messages.

ghost use Rattle.std.specs.Prelude.{◌≡◌};
ghost use Rattle.faults.specs.Phrases.{wanted_text, advice_text};

use crate::cure::Advice;
use notation::Wanted;

// What was wanted.
pub(crate) fn wanted_text(wanted: Wanted) -> &'static [u8]
    ensures { result.now ≡ wanted_text wanted }
{
    match wanted {
        Wanted::Start => b"`operator` or `node`",
        Wanted::OperatorName => b"a name for the operator",
        Wanted::Table => b"`{` before the operator's cells",
        Wanted::AllowHeading => b"the heading `allow`",
        Wanted::DenyHeading => b"the heading `deny`",
        Wanted::ReserveHeading => b"the heading `reserve`",
        Wanted::Cell => b"a cell: `allow`, `deny`, `left` or `right`",
        Wanted::RateCell =>
            b"the last cell: `allow`, `deny`, `left`, `right`, `larger`, `smaller` or `sum`",
        Wanted::TableEnd => b"`}` behind the operator's nine cells",
        Wanted::NodeName => b"a name for the node",
        Wanted::Block => b"`inside`, `between`, `below` or `{`",
        Wanted::Line => b"a rule (NAME: ..), `node` or `}`",
        Wanted::NodeOrEnd => b"`node` or `}`",
        Wanted::Action => b"an action: `allow`, `deny`, `reserve` or `none`",
        Wanted::Rate => b"a rate, a number below 4,294,967,296",
        Wanted::Unit => b"a unit: `kbit/s`, `Mbit/s` or `Gbit/s`",
        Wanted::Match => b"a match: `any`, `never`, or `in`, a protocol, `from` or `to`",
        Wanted::Port => b"a port, a number of at most 65,535",
        Wanted::Protocol => b"a protocol, a number of at most 255",
        Wanted::Prefix => b"a prefix (as 10.7.0.0/16), an address or `port`",
        Wanted::End => b"the end of the text",
    }
}

// What to do.
pub(crate) fn advice_text(advice: Advice) -> &'static [u8]
    ensures { result.now ≡ advice_text advice }
{
    match advice {
        Advice::ByteOrderMark => b"the text begins with a byte order mark; save it without one",
        Advice::Words =>
            b"this looks like a policy file in decimal words, which is no text of the notation",
        Advice::OwnCells =>
            b"sibling and parent have no cells of their own; give the operator another name",
        Advice::LetterFirst => b"a name begins with a letter",
        Advice::NameBytes => b"a name has letters, digits, - and _",
        Advice::NoBlanks => b"a name has no blanks",
        Advice::Headings => b"the headings are allow, deny, reserve, in this order",
        Advice::LastCell => b"larger, smaller and sum stand only in the last cell",
        Advice::ClauseOrder => b"they stand in the order inside, between, below",
        Advice::Label => b"a rule has a name and : before its action",
        Advice::Colon => b"is a : missing behind it?",
        Advice::PartOrder => b"the parts of a match stand in the order in, protocol, from, to",
        Advice::OnePrefix => b"a side has one prefix; write a rule for each",
        Advice::PortBefore => b"write port before it",
        Advice::RulesFirst => b"a node's rules stand before the nodes inside it",
        Advice::OperatorsFirst => b"operators stand before the root",
        Advice::ReserveBefore => b"write reserve before it",
        Advice::ActionFirst => b"an action stands before the match",
        Advice::NoMarks => b"write the number without marks",
        Advice::NoZeros => b"write it without zeros before it",
        Advice::SmallerUnit => b"write it in a smaller unit",
        Advice::UnitBlank => b"put a blank before the unit",
        Advice::SideBefore => b"write from or to before it",
        Advice::NumberBefore => b"write in, protocol or port before it",
        Advice::AnyPacket => b"write any for every packet",
        Advice::ProtocolName => b"write it without protocol before it",
        Advice::Length => b"a length is at most 32",
        Advice::Octets => b"an address is four numbers of at most 255 with dots between them",
        Advice::AnyAddress => b"leave the side out, or write its port alone",
        Advice::OneRoot => b"a policy has one root; put the node inside it",
        Advice::TooManyEnds => b"there is a } too many",
        Advice::RuleInside => b"a rule stands inside the braces of its node",
        Advice::CloseNode => b"a } is missing",
    }
}
