//! What stands at the front of a list of tokens: a word, a mark, a name, a literal, a column.
ghost use Rattle.std.specs.Prelude.{◌≡◌, ◌∷◌, List, Some, None, IfOk, bytes_eq};
ghost use Rattle.std.specs.List.{list_any};
ghost use Rattle.std.specs.Option.{option_copied, option_map};
ghost use Rattle.rv_lang.specs.declared.token.Token.{Token as Piece};
ghost use Rattle.rv_lang.specs.Words.{is_keyword};
ghost use Rattle.rv_parse.specs.Reading.{Gives, word_at, name_at, integer_at, text_at, literal_at, dot_at, open_at, close_at, comma_at, star_at, equal_at, semicolon_at, column_at, op_at, operand_at};

use crate::fault::ParseFault;
use rv_lang::{RawCol, RawOp, RawOperand, Symbol, Token};
use rv_value::{Duplicate, NoMemory, SharedText, Text, Value};
use std::alloc::Global;

/// The words that are no names, by their lengths: those of two letters, and so on up to eight.
const OF_TWO: [&str; 5] = ["BY", "IN", "IS", "ON", "OR"];

const OF_THREE: [&str; 4] = ["AND", "FOR", "NOT", "SET"];

const OF_FOUR: [&str; 11] = [
    "FAST", "FROM", "INTO", "NULL", "ONLY", "OPEN", "READ", "SHOW", "STEP", "TIME", "WITH",
];

const OF_FIVE: [&str; 9] = [
    "BEGIN", "CLOSE", "FETCH", "FIRST", "INDEX", "ORDER", "TABLE", "TOTAL", "WHERE",
];

const OF_SIX: [&str; 9] = [
    "BIGINT", "COMMIT", "CREATE", "DELETE", "INSERT", "SELECT", "UNIQUE", "UPDATE", "VALUES",
];

const OF_SEVEN: [&str; 2] = ["BETWEEN", "VARCHAR"];

const OF_EIGHT: [&str; 3] = ["OPTIMIZE", "ROLLBACK", "STARTING"];

/// Whether a word is one of these.
fn among(words: &[&str], name: &str) -> bool
    ensures { result ≡ list_any (λ w. bytes_eq w.now name.now) words.now }
{
    words.iter().any(|word| *word == name)
}

/// Whether both are the same bytes.
pub fn same(a: &str, b: &str) -> bool
    ensures { result ≡ bytes_eq a.now b.now }
{
    a == b
}

/// Whether a word is no name. It is compared with the keywords of its length alone.
#[tactic(auto, using(crate::proofs::Keywords::by_length))]
fn is_keyword(name: &str) -> bool
    ensures { result ≡ is_keyword name.now }
{
    match name.len() {
        2 => among(&OF_TWO, name),
        3 => among(&OF_THREE, name),
        4 => among(&OF_FOUR, name),
        5 => among(&OF_FIVE, name),
        6 => among(&OF_SIX, name),
        7 => among(&OF_SEVEN, name),
        8 => among(&OF_EIGHT, name),
        _ => false,
    }
}

/// The tokens after a keyword.
pub fn word<'a>(tokens: &'a [Token], word: &str) -> Option<&'a [Token]>
    ensures { option_copied result ≡ word_at word.now tokens.now }
{
    match tokens {
        [Token::Word(text), rest @ ..] => {
            if same(text.as_str(), word) {
                Some(rest)
            } else {
                None
            }
        }
        _ => None,
    }
}

/// The name at the front, and the tokens after it.
pub fn named(tokens: &[Token]) -> Option<(&Text, &[Token])>
    ensures { option_map (λ x. (x.0.now, x.1.now)) result ≡ name_at tokens.now }
{
    match tokens {
        [Token::Word(text), rest @ ..] => {
            if is_keyword(text.as_str()) {
                None
            } else {
                Some((text, rest))
            }
        }
        _ => None,
    }
}

/// A name, and the tokens after it.
pub fn name<'a>(alloc: Global, tokens: &'a [Token]) -> Result<(Text, &'a [Token]), ParseFault>
    ensures { Gives (λ x. (x.0, x.1.now)) result (name_at tokens.now) }
{
    let Some((name, rest)) = named(tokens) else {
        return Err(ParseFault::Syntax);
    };
    Ok((name.copy(alloc)?, rest))
}

/// A copy of a name, and what stands beside it.
pub fn copied<X: Drop>(alloc: Global, name: &Text, beside: X) -> Result<(Text, X), NoMemory>
    ensures copy { IfOk result (λ x. x.0 ≡ name.now) }
    ensures same { IfOk result (λ x. x.1 ≡ beside) }
{
    Ok((name.copy(alloc)?, beside))
}

/// A literal, and the tokens after it.
pub fn literal<'a>(alloc: Global, tokens: &'a [Token]) -> Result<(Value, &'a [Token]), ParseFault>
    ensures { Gives (λ x. (x.0, x.1.now)) result (literal_at tokens.now) }
{
    match tokens {
        [Token::Int(n), rest @ ..] => Ok((Value::Int(*n), rest)),
        [Token::Str(text), rest @ ..] => {
            let text = SharedText::read(alloc, text.as_str())?;
            Ok((Value::Str(text), rest))
        }
        [Token::Word(text), rest @ ..] => {
            if same(text.as_str(), "NULL") {
                Ok((Value::Null, rest))
            } else {
                Err(ParseFault::Syntax)
            }
        }
        _ => Err(ParseFault::Syntax),
    }
}

fn dot(tokens: &[Token]) -> Option<&[Token]>
    ensures { option_copied result ≡ dot_at tokens.now }
{
    match tokens {
        [Token::Symbol(Symbol::Dot), rest @ ..] => Some(rest),
        _ => None,
    }
}

/// A column, and the tokens after it.
pub fn column<'a>(alloc: Global, tokens: &'a [Token]) -> Result<(RawCol, &'a [Token]), ParseFault>
    ensures { Gives (λ x. (x.0, x.1.now)) result (column_at tokens.now) }
{
    let Some((first, rest)) = named(tokens) else {
        return Err(ParseFault::Syntax);
    };
    match dot(rest) {
        Some(after) => {
            let Some((second, rest)) = named(after) else {
                return Err(ParseFault::Syntax);
            };
            let (first, second) = copied(alloc, first, second.copy(alloc)?)?;
            Ok((
                RawCol {
                    table: Some(first),
                    column: second,
                },
                rest,
            ))
        }
        None => Ok((
            RawCol {
                table: None,
                column: first.copy(alloc)?,
            },
            rest,
        )),
    }
}

/// A comparison, and the tokens after it.
pub fn op(tokens: &[Token]) -> Result<(RawOp, &[Token]), ParseFault>
    ensures { Gives (λ x. (x.0, x.1.now)) result (op_at tokens.now) }
{
    match tokens {
        [Token::Symbol(symbol), rest @ ..] => match comparison(*symbol) {
            Some(op) => Ok((op, rest)),
            None => Err(ParseFault::Syntax),
        },
        _ => Err(ParseFault::Syntax),
    }
}

/// The comparison that a mark spells.
fn comparison(symbol: Symbol) -> Option<RawOp>
    ensures { (rest : List Piece) → op_at (Piece.Symbol symbol ∷ rest) ≡ option_map (λ op. (op, rest)) result }
{
    match symbol {
        Symbol::Equal => Some(RawOp::Eq),
        Symbol::NotEqual => Some(RawOp::Ne),
        Symbol::Less => Some(RawOp::Lt),
        Symbol::AtMost => Some(RawOp::Le),
        Symbol::Greater => Some(RawOp::Gt),
        Symbol::AtLeast => Some(RawOp::Ge),
        _ => None,
    }
}

/// An operand, and the tokens after it.
pub fn operand<'a>(
    alloc: Global,
    tokens: &'a [Token],
) -> Result<(RawOperand, &'a [Token]), ParseFault>
    ensures { Gives (λ x. (x.0, x.1.now)) result (operand_at tokens.now) }
{
    match literal(alloc, tokens) {
        Ok((value, rest)) => Ok((RawOperand::Literal(value), rest)),
        Err(fault) => match fault {
            ParseFault::NoMemory => Err(ParseFault::NoMemory),
            ParseFault::Syntax => {
                let (column, rest) = column(alloc, tokens)?;
                Ok((RawOperand::Column(column), rest))
            }
        },
    }
}

/// The tokens after a mark.
pub fn open(tokens: &[Token]) -> Option<&[Token]>
    ensures { option_copied result ≡ open_at tokens.now }
{
    match tokens {
        [Token::Symbol(Symbol::LeftParen), rest @ ..] => Some(rest),
        _ => None,
    }
}

/// The tokens after a mark.
pub fn close(tokens: &[Token]) -> Option<&[Token]>
    ensures { option_copied result ≡ close_at tokens.now }
{
    match tokens {
        [Token::Symbol(Symbol::RightParen), rest @ ..] => Some(rest),
        _ => None,
    }
}

/// The tokens after a mark.
pub fn comma(tokens: &[Token]) -> Option<&[Token]>
    ensures { option_copied result ≡ comma_at tokens.now }
{
    match tokens {
        [Token::Symbol(Symbol::Comma), rest @ ..] => Some(rest),
        _ => None,
    }
}

/// The tokens after a mark.
pub fn star(tokens: &[Token]) -> Option<&[Token]>
    ensures { option_copied result ≡ star_at tokens.now }
{
    match tokens {
        [Token::Symbol(Symbol::Star), rest @ ..] => Some(rest),
        _ => None,
    }
}

/// The tokens after a mark.
pub fn equal(tokens: &[Token]) -> Option<&[Token]>
    ensures { option_copied result ≡ equal_at tokens.now }
{
    match tokens {
        [Token::Symbol(Symbol::Equal), rest @ ..] => Some(rest),
        _ => None,
    }
}

/// The tokens after a mark.
pub fn semicolon(tokens: &[Token]) -> Option<&[Token]>
    ensures { option_copied result ≡ semicolon_at tokens.now }
{
    match tokens {
        [Token::Symbol(Symbol::Semicolon), rest @ ..] => Some(rest),
        _ => None,
    }
}

/// An integer, and the tokens after it.
pub fn integer(tokens: &[Token]) -> Result<(i64, &[Token]), ParseFault>
    ensures { Gives (λ x. (x.0, x.1.now)) result (integer_at tokens.now) }
{
    match tokens {
        [Token::Int(n), rest @ ..] => Ok((*n, rest)),
        _ => Err(ParseFault::Syntax),
    }
}

/// A text, and the tokens after it.
pub fn text<'a>(alloc: Global, tokens: &'a [Token]) -> Result<(Text, &'a [Token]), ParseFault>
    ensures { Gives (λ x. (x.0, x.1.now)) result (text_at tokens.now) }
{
    match tokens {
        [Token::Str(text), rest @ ..] => Ok((text.copy(alloc)?, rest)),
        _ => Err(ParseFault::Syntax),
    }
}
