//! The words of a line.
use rv_restrict::Op;
use rv_value::NoMemory;
use std::alloc::{AllocError, AllocFailed};

/// Why a line has no answer, or a store has not what it was to have.
#[derive(Clone, Copy, PartialEq, Eq)]
pub enum Fault {
    /// It is not of the form that is wanted.
    Form,
    NoMemory,
}

impl Fault {
    /// The words that are written in place of an answer.
    pub fn words(self) -> &'static str {
        match self {
            Fault::Form => "not read",
            Fault::NoMemory => "no memory",
        }
    }
}

impl From<NoMemory> for Fault {
    fn from(_fault: NoMemory) -> Fault {
        Fault::NoMemory
    }
}

impl From<AllocError> for Fault {
    fn from(_fault: AllocError) -> Fault {
        Fault::NoMemory
    }
}

impl<T: Drop> From<AllocFailed<T>> for Fault {
    fn from(_fault: AllocFailed<T>) -> Fault {
        Fault::NoMemory
    }
}

/// The two parts of a text, before and behind a mark.
pub fn cut<'a>(text: &'a str, mark: char) -> Result<(&'a str, &'a str), Fault> {
    text.split_once(mark).ok_or(Fault::Form)
}

/// A number in decimal digits, below 2^64.
pub fn number(word: &str) -> Result<u64, Fault> {
    word.parse().ok().ok_or(Fault::Form)
}

/// A number in decimal digits, below 2^32.
pub fn small(word: &str) -> Result<u32, Fault> {
    u32::try_from(number(word)?).ok().ok_or(Fault::Form)
}

/// A place in a list.
pub fn place(word: &str) -> Result<usize, Fault> {
    Ok(number(word)? as usize)
}

/// An `i64` in decimal digits, with a sign or without.
pub fn integer(word: &str) -> Result<i64, Fault> {
    word.parse().ok().ok_or(Fault::Form)
}

/// A comparison, as SQL writes it.
pub(crate) fn comparison(word: &str) -> Result<Op, Fault> {
    match word {
        "=" => Ok(Op::Eq),
        "<>" => Ok(Op::Ne),
        "<" => Ok(Op::Lt),
        "<=" => Ok(Op::Le),
        ">" => Ok(Op::Gt),
        ">=" => Ok(Op::Ge),
        _ => Err(Fault::Form),
    }
}
