//! The pieces of which a statement's text is made.
use rv_value::Text;

/// A mark of the language, one for each spelling:
/// `(` `)` `,` `.` `*` `;` `=` `<>` `<` `<=` `>` `>=`.
#[derive(Clone, Copy, PartialEq, Eq)]
pub enum Symbol {
    LeftParen,
    RightParen,
    Comma,
    Dot,
    Star,
    Semicolon,
    Equal,
    NotEqual,
    Less,
    AtMost,
    Greater,
    AtLeast,
}

/// A piece of a statement's text.
#[derive(Drop, PartialEq, Eq)]
pub enum Token {
    /// A keyword or a name, its ASCII letters in upper case.
    Word(Text),
    Int(i64),
    /// A text literal without its quotes, each doubled quote being one.
    Str(Text),
    Symbol(Symbol),
}

/// Why a text gave no tokens.
#[derive(Drop, PartialEq, Eq)]
pub enum LexFault {
    /// The text is no sequence of tokens. At this byte, counted from 0, none begins, and it is the
    /// first where that is so.
    NotToken { offset: u32 },
    NoMemory,
}
