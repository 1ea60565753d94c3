//! The parts of a select, and OPEN, which holds one.
ghost use Rattle.std.specs.Prelude.{◌≡◌};
ghost use Rattle.rv_parse.specs.Reading.{Gives, column_at, returned_at, item_at, order_at, named_goal_at, goal_at, open_cursor_at};

use crate::conditions::only;
use crate::fault::ParseFault;
use crate::list::{Part, Separator, list};
use crate::parts::{column, copied, named, star, word};
use rv_lang::{RawCol, RawGoal, Statement, Token};
use rv_value::{Duplicate, Items, Text};
use std::alloc::Global;

impl Part for RawCol {
    ghost reads = { column_at };

    fn part<'a>(alloc: Global, tokens: &'a [Token]) -> Result<(RawCol, &'a [Token]), ParseFault> {
        column(alloc, tokens)
    }
}

#[tactic(auto, unfolding(crate::specs::Reading::returned_at))]
fn returned<'a>(
    alloc: Global,
    tokens: &'a [Token],
) -> Result<(Option<Items<RawCol>>, &'a [Token]), ParseFault>
    ensures { Gives (λ x. (x.0, x.1.now)) result (returned_at tokens.now) }
{
    match star(tokens) {
        Some(rest) => Ok((None, rest)),
        None => {
            let (columns, rest) = list::<RawCol>(alloc, Separator::Comma, tokens)?;
            Ok((Some(columns), rest))
        }
    }
}

#[tactic(auto, unfolding(crate::specs::Reading::item_at))]
fn item<'a>(
    alloc: Global,
    tokens: &'a [Token],
) -> Result<((Text, Option<Text>), &'a [Token]), ParseFault>
    ensures { Gives (λ x. (x.0, x.1.now)) result (item_at tokens.now) }
{
    let Some((table, rest)) = named(tokens) else {
        return Err(ParseFault::Syntax);
    };
    match named(rest) {
        Some((second, rest)) => {
            let (table, second) = copied(alloc, table, second.copy(alloc)?)?;
            Ok(((table, Some(second)), rest))
        }
        None => Ok(((table.copy(alloc)?, None), rest)),
    }
}

impl Part for (Text, Option<Text>) {
    ghost reads = { item_at };

    fn part<'a>(
        alloc: Global,
        tokens: &'a [Token],
    ) -> Result<((Text, Option<Text>), &'a [Token]), ParseFault> {
        item(alloc, tokens)
    }
}

#[tactic(auto, unfolding(crate::specs::Reading::order_at))]
fn order<'a>(alloc: Global, tokens: &'a [Token]) -> Result<(Items<RawCol>, &'a [Token]), ParseFault>
    ensures { Gives (λ x. (x.0, x.1.now)) result (order_at tokens.now) }
{
    match word(tokens, "ORDER") {
        Some(rest) => {
            let Some(rest) = word(rest, "BY") else {
                return Err(ParseFault::Syntax);
            };
            list::<RawCol>(alloc, Separator::Comma, rest)
        }
        None => Ok((Items::new(alloc), tokens)),
    }
}

#[tactic(auto, unfolding(crate::specs::Reading::named_goal_at))]
fn named_goal<'a>(tokens: &'a [Token]) -> Result<(RawGoal, &'a [Token]), ParseFault>
    ensures { Gives (λ x. (x.0, x.1.now)) result (named_goal_at tokens.now) }
{
    let Some(rest) = word(tokens, "FOR") else {
        return Err(ParseFault::Syntax);
    };
    match word(rest, "FAST") {
        Some(rest) => {
            let Some(rest) = word(rest, "FIRST") else {
                return Err(ParseFault::Syntax);
            };
            Ok((RawGoal::FastFirst, rest))
        }
        None => {
            let Some(rest) = word(rest, "TOTAL") else {
                return Err(ParseFault::Syntax);
            };
            let Some(rest) = word(rest, "TIME") else {
                return Err(ParseFault::Syntax);
            };
            Ok((RawGoal::TotalTime, rest))
        }
    }
}

#[tactic(auto, unfolding(crate::specs::Reading::goal_at))]
fn goal<'a>(tokens: &'a [Token]) -> Result<(RawGoal, &'a [Token]), ParseFault>
    ensures { Gives (λ x. (x.0, x.1.now)) result (goal_at tokens.now) }
{
    match word(tokens, "OPTIMIZE") {
        Some(rest) => named_goal(rest),
        None => Ok((RawGoal::TotalTime, tokens)),
    }
}

/// Reads an OPEN behind that word: the cursor's name, the columns, FROM, and what may follow.
#[tactic(auto, unfolding(crate::specs::Reading::open_cursor_at))]
pub fn open_cursor<'a>(
    alloc: Global,
    tokens: &'a [Token],
) -> Result<(Statement, &'a [Token]), ParseFault>
    ensures { Gives (λ x. (x.0, x.1.now)) result (open_cursor_at tokens.now) }
{
    let Some((cursor, rest)) = named(tokens) else {
        return Err(ParseFault::Syntax);
    };
    let Some(rest) = word(rest, "SELECT") else {
        return Err(ParseFault::Syntax);
    };
    let (returned, rest) = returned(alloc, rest)?;
    let Some(rest) = word(rest, "FROM") else {
        drop(returned);
        return Err(ParseFault::Syntax);
    };
    let (items, rest) = match list::<(Text, Option<Text>)>(alloc, Separator::Comma, rest) {
        Ok(found) => found,
        Err(fault) => {
            drop(returned);
            return Err(fault);
        }
    };
    let (only, rest) = match only(alloc, rest) {
        Ok(found) => found,
        Err(fault) => {
            drop(returned);
            drop(items);
            return Err(fault);
        }
    };
    let (order, rest) = match order(alloc, rest) {
        Ok(found) => found,
        Err(fault) => {
            drop(returned);
            drop(items);
            drop(only);
            return Err(fault);
        }
    };
    let (goal, rest) = match goal(rest) {
        Ok(found) => found,
        Err(fault) => {
            drop(returned);
            drop(items);
            drop(only);
            drop(order);
            return Err(fault);
        }
    };
    match cursor.copy(alloc) {
        Ok(cursor) => Ok((
            Statement::Open {
                cursor,
                returned,
                items,
                only,
                order,
                goal,
            },
            rest,
        )),
        Err(_) => {
            drop(returned);
            drop(items);
            drop(only);
            drop(order);
            Err(ParseFault::NoMemory)
        }
    }
}
