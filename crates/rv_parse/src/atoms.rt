//! Atoms of a condition, and groups of them.
ghost use Rattle.std.specs.Prelude.{◌≡◌};
ghost use Rattle.rv_parse.specs.Reading.{Gives, literal_at, atom_at, atom_rest, between_at, among_at, is_null_at, starts_at, compare_at, group_at, closed_at};

use crate::fault::ParseFault;
use crate::list::{Part, Separator, alone, enclosed, list};
use crate::parts::{close, column, literal, op, open, operand, text, word};
use rv_lang::{RawAtom, RawCol, Token};
use rv_value::{Items, Value, Values};
use std::alloc::Global;

impl Part for Value {
    ghost reads = { literal_at };

    fn part<'a>(alloc: Global, tokens: &'a [Token]) -> Result<(Value, &'a [Token]), ParseFault> {
        literal(alloc, tokens)
    }
}

#[tactic(auto, unfolding(crate::specs::Reading::between_at))]
fn between<'a>(
    alloc: Global,
    column: RawCol,
    tokens: &'a [Token],
) -> Result<(RawAtom, &'a [Token]), ParseFault>
    ensures { Gives (λ x. (x.0, x.1.now)) result (between_at column tokens.now) }
{
    let (low, rest) = match literal(alloc, tokens) {
        Ok(found) => found,
        Err(fault) => {
            drop(column);
            return Err(fault);
        }
    };
    let Some(rest) = word(rest, "AND") else {
        drop(column);
        drop(low);
        return Err(ParseFault::Syntax);
    };
    match literal(alloc, rest) {
        Ok((high, rest)) => Ok((RawAtom::Between { column, low, high }, rest)),
        Err(fault) => {
            drop(column);
            drop(low);
            Err(fault)
        }
    }
}

#[tactic(auto, unfolding(crate::specs::Reading::among_at))]
fn among<'a>(
    alloc: Global,
    column: RawCol,
    tokens: &'a [Token],
) -> Result<(RawAtom, &'a [Token]), ParseFault>
    ensures { Gives (λ x. (x.0, x.1.now)) result (among_at column tokens.now) }
{
    let (list, rest) = match enclosed::<Value>(alloc, tokens) {
        Ok(found) => found,
        Err(fault) => {
            drop(column);
            return Err(fault);
        }
    };
    match Values::of(alloc, list.into_vec()) {
        Ok(list) => Ok((RawAtom::Among { column, list }, rest)),
        Err(_) => {
            drop(column);
            Err(ParseFault::NoMemory)
        }
    }
}

#[tactic(auto, unfolding(crate::specs::Reading::is_null_at))]
fn is_null(column: RawCol, tokens: &[Token]) -> Result<(RawAtom, &[Token]), ParseFault>
    ensures { Gives (λ x. (x.0, x.1.now)) result (is_null_at column tokens.now) }
{
    match word(tokens, "NOT") {
        Some(rest) => match word(rest, "NULL") {
            Some(rest) => Ok((RawAtom::IsNull { column, not: true }, rest)),
            None => {
                drop(column);
                Err(ParseFault::Syntax)
            }
        },
        None => match word(tokens, "NULL") {
            Some(rest) => Ok((RawAtom::IsNull { column, not: false }, rest)),
            None => {
                drop(column);
                Err(ParseFault::Syntax)
            }
        },
    }
}

#[tactic(auto, unfolding(crate::specs::Reading::starts_at))]
fn starts<'a>(
    alloc: Global,
    column: RawCol,
    tokens: &'a [Token],
) -> Result<(RawAtom, &'a [Token]), ParseFault>
    ensures { Gives (λ x. (x.0, x.1.now)) result (starts_at column tokens.now) }
{
    let Some(rest) = word(tokens, "WITH") else {
        drop(column);
        return Err(ParseFault::Syntax);
    };
    match text(alloc, rest) {
        Ok((text, rest)) => Ok((RawAtom::Starts { column, text }, rest)),
        Err(fault) => {
            drop(column);
            Err(fault)
        }
    }
}

#[tactic(auto, unfolding(crate::specs::Reading::compare_at))]
fn compare<'a>(
    alloc: Global,
    column: RawCol,
    tokens: &'a [Token],
) -> Result<(RawAtom, &'a [Token]), ParseFault>
    ensures { Gives (λ x. (x.0, x.1.now)) result (compare_at column tokens.now) }
{
    let (op, rest) = match op(tokens) {
        Ok(found) => found,
        Err(fault) => {
            drop(column);
            return Err(fault);
        }
    };
    match operand(alloc, rest) {
        Ok((operand, rest)) => Ok((
            RawAtom::Compare {
                column,
                op,
                operand,
            },
            rest,
        )),
        Err(fault) => {
            drop(column);
            Err(fault)
        }
    }
}

#[tactic(auto, unfolding(crate::specs::Reading::atom_rest))]
fn atom_rest<'a>(
    alloc: Global,
    column: RawCol,
    tokens: &'a [Token],
) -> Result<(RawAtom, &'a [Token]), ParseFault>
    ensures { Gives (λ x. (x.0, x.1.now)) result (atom_rest column tokens.now) }
{
    if let Some(rest) = word(tokens, "BETWEEN") {
        between(alloc, column, rest)
    } else if let Some(rest) = word(tokens, "IN") {
        among(alloc, column, rest)
    } else if let Some(rest) = word(tokens, "IS") {
        is_null(column, rest)
    } else if let Some(rest) = word(tokens, "STARTING") {
        starts(alloc, column, rest)
    } else {
        compare(alloc, column, tokens)
    }
}

#[tactic(auto, unfolding(crate::specs::Reading::atom_at))]
fn atom<'a>(alloc: Global, tokens: &'a [Token]) -> Result<(RawAtom, &'a [Token]), ParseFault>
    ensures { Gives (λ x. (x.0, x.1.now)) result (atom_at tokens.now) }
{
    let (column, rest) = column(alloc, tokens)?;
    atom_rest(alloc, column, rest)
}

impl Part for RawAtom {
    ghost reads = { atom_at };

    fn part<'a>(alloc: Global, tokens: &'a [Token]) -> Result<(RawAtom, &'a [Token]), ParseFault> {
        atom(alloc, tokens)
    }
}

#[tactic(auto, unfolding(crate::specs::Reading::closed_at))]
fn closed<'a>(
    alloc: Global,
    tokens: &'a [Token],
) -> Result<(Items<RawAtom>, &'a [Token]), ParseFault>
    ensures { Gives (λ x. (x.0, x.1.now)) result (closed_at tokens.now) }
{
    let (found, rest) = list::<RawAtom>(alloc, Separator::Or, tokens)?;
    match close(rest) {
        Some(rest) => Ok((found, rest)),
        None => {
            drop(found);
            Err(ParseFault::Syntax)
        }
    }
}

#[tactic(auto, unfolding(crate::specs::Reading::group_at))]
fn group<'a>(
    alloc: Global,
    tokens: &'a [Token],
) -> Result<(Items<RawAtom>, &'a [Token]), ParseFault>
    ensures { Gives (λ x. (x.0, x.1.now)) result (group_at tokens.now) }
{
    match open(tokens) {
        Some(rest) => closed(alloc, rest),
        None => {
            let (atom, rest) = atom(alloc, tokens)?;
            Ok((alone(alloc, atom)?, rest))
        }
    }
}

impl Part for Items<RawAtom> {
    ghost reads = { group_at };

    fn part<'a>(
        alloc: Global,
        tokens: &'a [Token],
    ) -> Result<(Items<RawAtom>, &'a [Token]), ParseFault> {
        group(alloc, tokens)
    }
}
