//! Operators: a name, and nine cells unless it is one of the two that are there from the start.

ghost use Rattle.std.specs.Prelude.{◌≡◌, [], option_map};
ghost use Rattle.policy.specs.Numbers.{most_operators};
ghost use Rattle.tokens.specs.Left.{left};
ghost use Rattle.notation.specs.Reads.{gave, went, Reads};
ghost use Rattle.notation.specs.Operators.{builtin_of, operator_place, new_name, cell_at, line_at, columns_at};
ghost use Rattle.notation.specs.Operators.{table_at, operator_at, operators_at};
ghost use Rattle.notation.specs.Views.{operator_entry, operator_entries, slice_of, line_read, cells_read};

use crate::expect::{at_most, fault, take, value, wrong};
use crate::{Fault, NamedOperator, ReadError, Reason, Wanted};
use action::Operator;
use policy::MOST_OPERATORS;
use std::alloc::Global;
use tokens::{CLOSE, OPEN, Tokens};
use values::{ALLOW, DENY, OPERATOR, PARENT, RESERVE, SIBLING, code_of, is_name};

// The largest codes of a cell, and of the one in which both actions have a rate.
const LARGEST_CODE: u32 = 4;

const LARGEST_RATE_CODE: u32 = 7;

// The operators before the root.
pub(crate) fn read_operators(
    alloc: Global,
    tokens: &mut Tokens,
) -> Result<Vec<NamedOperator>, ReadError>
    ensures { Reads (λ os. operator_entries os.items) result (left tokens.new)
        (operators_at most_operators [] (left tokens.old)) }
{
    let mut operators = Vec::new(alloc);
    // What is read behind the operators so far is what is read behind none.
    while tokens.is(OPERATOR) {
        if operators.len() == MOST_OPERATORS {
            return Err(fault(Reason::TooManyOperators, tokens).into());
        }
        tokens.advance();
        let operator = read_operator(alloc, &operators, tokens)?;
        operators.push(operator)?;
    }
    Ok(operators)
}

// An operator behind its word and behind those that stand before it.
#[tactic(auto, unfolding(crate::specs::Operators::operator_at))]
fn read_operator(
    alloc: Global,
    operators: &[NamedOperator],
    tokens: &mut Tokens,
) -> Result<NamedOperator, ReadError>
    ensures { Reads operator_entry result (left tokens.new)
        (operator_at (operator_entries operators.now) (left tokens.old)) }
{
    let at = tokens.at();
    let seen = operator_place(tokens.word(), operators);
    let name = new_name(Wanted::OperatorName, seen, tokens)?;
    let operator = match builtin_of(name) {
        Some(operator) => operator,
        None => read_table(tokens)?,
    };
    let name = Vec::from_slice(alloc, name)?;
    Ok(NamedOperator { name, at, operator })
}

// Where the operator of a name stands.
fn operator_place(name: &[u8], operators: &[NamedOperator]) -> Option<usize>
    ensures { result ≡ operator_place name.now (operator_entries operators.now) }
{
    for operator in operators {
        if operator.name.as_slice() == name {
            return Some(operator.at);
        }
    }
    None
}

// The operators that are there from the start.
#[tactic(auto, unfolding(crate::specs::Operators::builtin_of))]
pub(crate) fn builtin_of(name: &[u8]) -> Option<Operator>
    ensures { option_map (λ o. o.cells) result ≡ builtin_of name.now }
{
    if name == SIBLING {
        Some(Operator::SIBLING)
    } else if name == PARENT {
        Some(Operator::PARENT)
    } else {
        None
    }
}

// A name that is not given yet: seen is the place of the same name.
#[tactic(auto, unfolding(crate::specs::Operators::new_name))]
pub(crate) fn new_name<'a>(
    wanted: Wanted,
    seen: Option<usize>,
    tokens: &mut Tokens<'a>,
) -> Result<&'a [u8], Fault>
    ensures { gave (slice_of result) (left tokens.new) ≡ new_name wanted seen (left tokens.old) }
{
    let name = tokens.word();
    if !is_name(name) {
        return Err(wrong(wanted, tokens));
    }
    if let Some(place) = seen {
        return Err(fault(Reason::Twice(place), tokens));
    }
    tokens.advance();
    Ok(name)
}

// The nine cells in their braces.
#[tactic(auto, unfolding(crate::specs::Operators::table_at))]
fn read_table(tokens: &mut Tokens) -> Result<Operator, Fault>
    ensures { gave (cells_read result) (left tokens.new) ≡ table_at (left tokens.old) }
{
    read_columns(tokens)?;
    let (a, b, c) = read_line(
        ALLOW,
        Wanted::AllowHeading,
        LARGEST_CODE,
        Wanted::Cell,
        tokens,
    )?;
    let (d, e, f) = read_line(
        DENY,
        Wanted::DenyHeading,
        LARGEST_CODE,
        Wanted::Cell,
        tokens,
    )?;
    let (g, h, i) = read_line(
        RESERVE,
        Wanted::ReserveHeading,
        LARGEST_RATE_CODE,
        Wanted::RateCell,
        tokens,
    )?;
    take(CLOSE, Wanted::TableEnd, tokens)?;
    Ok(Operator {
        cells: [a, b, c, d, e, f, g, h, i],
    })
}

// The words of the columns.
#[tactic(auto, unfolding(crate::specs::Operators::columns_at))]
fn read_columns(tokens: &mut Tokens) -> Result<(), Fault>
    ensures { went result (left tokens.new) ≡ columns_at (left tokens.old) }
{
    take(OPEN, Wanted::Table, tokens)?;
    take(ALLOW, Wanted::AllowHeading, tokens)?;
    take(DENY, Wanted::DenyHeading, tokens)?;
    take(RESERVE, Wanted::ReserveHeading, tokens)
}

// A line: its word and three cells, of which the last may have other codes.
#[tactic(auto, unfolding(crate::specs::Operators::line_at))]
fn read_line(
    word: &[u8],
    heading: Wanted,
    largest: u32,
    last: Wanted,
    tokens: &mut Tokens,
) -> Result<(u32, u32, u32), Fault>
    ensures { gave (line_read result) (left tokens.new)
        ≡ line_at word.now heading largest last (left tokens.old) }
{
    take(word, heading, tokens)?;
    let allow = read_cell(LARGEST_CODE, Wanted::Cell, tokens)?;
    let deny = read_cell(LARGEST_CODE, Wanted::Cell, tokens)?;
    let reserve = read_cell(largest, last, tokens)?;
    Ok((allow, deny, reserve))
}

// A cell whose code is no more than the largest.
#[tactic(auto, unfolding(crate::specs::Operators::cell_at))]
fn read_cell(largest: u32, wanted: Wanted, tokens: &mut Tokens) -> Result<u32, Fault>
    ensures { gave result (left tokens.new) ≡ cell_at largest wanted (left tokens.old) }
{
    let found = at_most(largest, code_of(tokens.word()));
    value(found, wanted, tokens)
}
