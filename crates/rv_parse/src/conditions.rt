//! Conditions: groups of atoms, with WHERE before them.
ghost use Rattle.std.specs.Prelude.{◌≡◌};
ghost use Rattle.rv_parse.specs.Reading.{Gives, groups_at, bare_end, cond_at, where_at};

use crate::fault::ParseFault;
use crate::list::{Separator, alone, before, list};
use crate::parts::{open, word};
use rv_lang::{RawAtom, Token};
use rv_value::Items;
use std::alloc::Global;

#[tactic(auto, unfolding(crate::specs::Reading::groups_at))]
fn groups<'a>(
    alloc: Global,
    tokens: &'a [Token],
) -> Result<(Items<Items<RawAtom>>, &'a [Token]), ParseFault>
    ensures { Gives (λ x. (x.0, x.1.now)) result (groups_at tokens.now) }
{
    list::<Items<RawAtom>>(alloc, Separator::And, tokens)
}

#[tactic(auto, unfolding(crate::specs::Reading::bare_end))]
fn bare_end<'a>(
    alloc: Global,
    atoms: Items<RawAtom>,
    tokens: &'a [Token],
) -> Result<(Items<Items<RawAtom>>, &'a [Token]), ParseFault>
    ensures { Gives (λ x. (x.0, x.1.now)) result (bare_end atoms tokens.now) }
{
    if atoms.len() == 1 {
        match word(tokens, "AND") {
            Some(rest) => match groups(alloc, rest) {
                Ok((more, rest)) => Ok((before(atoms, more)?, rest)),
                Err(fault) => {
                    drop(atoms);
                    Err(fault)
                }
            },
            None => Ok((alone(alloc, atoms)?, tokens)),
        }
    } else {
        Ok((alone(alloc, atoms)?, tokens))
    }
}

#[tactic(auto, unfolding(crate::specs::Reading::cond_at))]
fn cond<'a>(
    alloc: Global,
    tokens: &'a [Token],
) -> Result<(Items<Items<RawAtom>>, &'a [Token]), ParseFault>
    ensures { Gives (λ x. (x.0, x.1.now)) result (cond_at tokens.now) }
{
    match open(tokens) {
        Some(_rest) => groups(alloc, tokens),
        None => {
            let (first, rest) = list::<RawAtom>(alloc, Separator::Or, tokens)?;
            bare_end(alloc, first, rest)
        }
    }
}

/// Reads a WHERE; where there is none the condition has no groups, and nothing is read.
#[tactic(auto, unfolding(crate::specs::Reading::where_at))]
pub fn only<'a>(
    alloc: Global,
    tokens: &'a [Token],
) -> Result<(Items<Items<RawAtom>>, &'a [Token]), ParseFault>
    ensures { Gives (λ x. (x.0, x.1.now)) result (where_at tokens.now) }
{
    match word(tokens, "WHERE") {
        Some(rest) => cond(alloc, rest),
        None => Ok((Items::new(alloc), tokens)),
    }
}
