//! Lists of parts: one or more, with a separator between two.
ghost use Rattle.std.specs.Prelude.{◌≡◌, ◌∷◌, [], List, Option, Some};
ghost use Rattle.std.specs.Option.{option_copied};
ghost use Rattle.rv_lang.specs.declared.token.Token.{Token};
ghost use Rattle.rv_parse.specs.Reading.{Gives, separator_at, list_of, enclosed_at};

use crate::fault::ParseFault;
use crate::parts::{close, comma, open, word};
use rv_lang::Token;
use rv_value::Items;
use std::alloc::Global;

/// What stands between two items of a list.
#[derive(Clone, Copy)]
pub enum Separator {
    Comma,
    Or,
    And,
}

/// The tokens after a separator.
fn after(tokens: &[Token], separator: Separator) -> Option<&[Token]>
    ensures { option_copied result ≡ separator_at separator tokens.now }
{
    match separator {
        Separator::Comma => comma(tokens),
        Separator::Or => word(tokens, "OR"),
        Separator::And => word(tokens, "AND"),
    }
}

/// What stands at the front of a list of tokens.
pub trait Part: Drop {
    ghost reads: { List Token → Option (Self × List Token) };

    /// The part, and the tokens after it.
    fn part<'a>(alloc: Global, tokens: &'a [Token]) -> Result<(Self, &'a [Token]), ParseFault>
        ensures { Gives (λ x. (x.0, x.1.now)) result (reads tokens.now) };
}

/// One or more parts, with a separator between two.
#[tactic(auto, unfolding(crate::specs::Reading::list_of))]
pub fn list<'a, P: Part>(
    alloc: Global,
    between: Separator,
    tokens: &'a [Token],
) -> Result<(Items<P>, &'a [Token]), ParseFault>
    ensures { Gives (λ x. (x.0, x.1.now)) result (list_of P.reads between tokens.now) }
{
    let mut items = Vec::new(alloc);
    let mut rest = tokens;
    'parts: for _ in 0..tokens.len() {
        let (item, follows) = P::part(alloc, rest)?;
        items.push(item)?;
        match after(follows, between) {
            Some(next) => rest = next,
            None => return Ok((Items::from_vec(items), follows)),
        }
    }
    Err(ParseFault::Syntax)
}

/// One or more parts in parentheses, with commas between them.
#[tactic(auto, unfolding(crate::specs::Reading::enclosed_at))]
pub fn enclosed<'a, P: Part>(
    alloc: Global,
    tokens: &'a [Token],
) -> Result<(Items<P>, &'a [Token]), ParseFault>
    ensures { Gives (λ x. (x.0, x.1.now)) result (enclosed_at P.reads tokens.now) }
{
    let Some(rest) = open(tokens) else {
        return Err(ParseFault::Syntax);
    };
    let (parts, rest) = list::<P>(alloc, Separator::Comma, rest)?;
    match close(rest) {
        Some(rest) => Ok((parts, rest)),
        None => {
            drop(parts);
            Err(ParseFault::Syntax)
        }
    }
}

/// A list of one item.
pub fn alone<T: Drop>(alloc: Global, item: T) -> Result<Items<T>, ParseFault>
    ensures { Gives (λ x. x) result (Some (item ∷ [])) }
{
    let mut items = Items::new(alloc);
    items.push(item)?;
    Ok(items)
}

/// A list with an item before the others.
pub fn before<T: Drop>(first: T, others: Items<T>) -> Result<Items<T>, ParseFault>
    ensures { Gives (λ x. x) result (Some (first ∷ others)) }
{
    let mut items = others;
    items.insert(0, first)?;
    Ok(items)
}
