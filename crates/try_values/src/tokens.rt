//! Texts that are cut into tokens.
use rv_lang::{LexFault, Symbol, Token, lex};
use rv_loading::Fault;
use rv_value::NoMemory;
use std::alloc::Global;

/// The tokens of a text, or where none begins. In the text `\n` and `\r` stand for a line feed and a carriage return.
pub fn told(alloc: Global, text: &str) -> Result<String, Fault> {
    let text = meant(alloc, text)?;
    Ok(cut(alloc, text.as_str())?)
}

fn meant(alloc: Global, text: &str) -> Result<String, NoMemory> {
    let text = text.replace(alloc, "\\n", "\n")?;
    Ok(text.replace(alloc, "\\r", "\r")?)
}

fn cut(alloc: Global, text: &str) -> Result<String, NoMemory> {
    if text.len() > 4096 {
        return Ok(String::from_str(alloc, "too long")?);
    }
    match lex(alloc, text) {
        Ok(tokens) => told_tokens(alloc, &tokens),
        Err(LexFault::NotToken { offset }) => Ok(format!(in alloc; "no token at {offset}")?),
        Err(LexFault::NoMemory) => Err(NoMemory),
    }
}

/// A word as it is, an integer behind `#`, a text behind `'`, a symbol by its name.
fn told_tokens(alloc: Global, tokens: &[Token]) -> Result<String, NoMemory> {
    let mut told = String::new(alloc);
    'tokens: for token in tokens {
        if !told.is_empty() {
            told.push(' ')?;
        }
        add_token(alloc, &mut told, token)?;
    }
    Ok(told)
}

fn add_token(alloc: Global, told: &mut String, token: &Token) -> Result<(), NoMemory> {
    let text = match token {
        Token::Word(name) => name.as_str(),
        Token::Int(n) => return add_number(alloc, told, *n),
        Token::Str(text) => {
            told.push('\'')?;
            text.as_str()
        }
        Token::Symbol(symbol) => name_of(*symbol),
    };
    Ok(told.push_str(text)?)
}

fn add_number(alloc: Global, told: &mut String, number: i64) -> Result<(), NoMemory> {
    let word = format!(in alloc; "#{number}")?;
    Ok(told.push_str(word.as_str())?)
}

fn name_of(symbol: Symbol) -> &'static str {
    match symbol {
        Symbol::LeftParen => "left",
        Symbol::RightParen => "right",
        Symbol::Comma => "comma",
        Symbol::Dot => "dot",
        Symbol::Star => "star",
        Symbol::Semicolon => "semicolon",
        Symbol::Equal => "equal",
        Symbol::NotEqual => "unequal",
        Symbol::Less => "less",
        Symbol::AtMost => "at-most",
        Symbol::Greater => "greater",
        Symbol::AtLeast => "at-least",
    }
}
