//! The statement of a list of tokens, and of a text.
ghost use Rattle.std.specs.Prelude.{◌≡◌, ◌≤◌, ◌↔◌, [], List, ℕ, Some, IfOk, IfSome, IsUtf8, length};
ghost use Rattle.rv_lang.specs.declared.statement.Statement.{Statement};
ghost use Rattle.rv_lang.specs.declared.token.Token.{Token};
ghost use Rattle.rv_lang.specs.Grammar.{Derives};
ghost use Rattle.rv_lang.specs.Tokens.{Cuts};
ghost use Rattle.rv_parse.specs.Needed.{HasParts};
ghost use Rattle.rv_parse.specs.Reading.{Gives, ended, parse_of, statement_of};

use crate::fault::ParseFault;
use crate::statements::body;
use rv_lang::{LexFault, Statement, Symbol, Token, lex};
use rv_value::NoMemory;
use std::alloc::Global;

/// Whether nothing follows, or a semicolon alone.
fn ended(tokens: &[Token]) -> bool
    ensures { result ≡ ended tokens.now }
{
    matches!(tokens, [] | [Token::Symbol(Symbol::Semicolon)])
}

#[tactic(auto, unfolding(crate::specs::Reading::parse_of))]
fn statement(alloc: Global, tokens: &[Token]) -> Result<Statement, ParseFault>
    ensures { Gives (λ x. x) result (parse_of tokens.now) }
{
    let (body, rest) = body(alloc, tokens)?;
    if ended(rest) {
        Ok(body)
    } else {
        drop(body);
        Err(ParseFault::Syntax)
    }
}

/// The statement that the grammar derives from these tokens; `Syntax` exactly where it derives none.
pub fn parse(alloc: Global, tokens: &[Token]) -> Result<Statement, ParseFault>
    // What is answered is derived, and what is derived is answered, where there is memory.
    ensures found { IfOk result (λ s. Derives tokens.now s) }
    ensures only { (s : Statement) → Derives tokens.now s → Gives (λ x. x) result (Some s) }

    // The same as a function of the tokens.
    ensures exact { Gives (λ x. x) result (parse_of tokens.now) }
{
    statement(alloc, tokens)
}

/// The statement of a text of at most 4,096 bytes; none where the text is no sequence of tokens, or its tokens
/// derive nothing.
#[tactic(auto, unfolding(crate::specs::Reading::statement_of), using(crate::proofs::Needing::text_parts))]
pub fn read_statement(alloc: Global, text: &str) -> Result<Option<Statement>, NoMemory>
    requires { length text.now ≤ 4096 }
    ensures is { IfOk result (λ s. s ≡ statement_of text.now) }

    // It has the parts that a statement is never without.
    ensures parts { IfOk result (λ s. IfSome s HasParts) }
{
    match lex(alloc, text) {
        Ok(tokens) => match parse(alloc, &tokens) {
            Ok(statement) => Ok(Some(statement)),
            Err(ParseFault::Syntax) => Ok(None),
            Err(ParseFault::NoMemory) => Err(NoMemory),
        },
        Err(LexFault::NotToken { .. }) => Ok(None),
        Err(LexFault::NoMemory) => Err(NoMemory),
    }
}

/// A law: a list of tokens derives one statement at most. So `Ok` and `Syntax` exclude each other.
pub fn one_statement()
    ensures { (tokens : List Token) (s t : Statement) → Derives tokens s → Derives tokens t → s ≡ t }
{}

/// A law: `parse_of` is what the grammar derives, as a function.
pub fn derived_as_function()
    ensures derives { (tokens : List Token) (s : Statement) → parse_of tokens ≡ Some s → Derives tokens s }
    ensures gives { (tokens : List Token) (s : Statement) → Derives tokens s → parse_of tokens ≡ Some s }
{}

/// A law: `statement_of` is the statement that the one cut of a text derives, as a function.
pub fn statement_as_function()
    ensures derives { (text : List ℕ) (s : Statement) → statement_of text ≡ Some s → (ts : List Token) × Cuts text ts [] × Derives ts s }
    ensures gives { (text : List ℕ) (ts : List Token) (s : Statement) → Cuts text ts [] → Derives ts s → statement_of text ≡ Some s }
{}
