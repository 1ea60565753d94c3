//! The lexer: it cuts a text from the left, each time by the longest token.
ghost use Rattle.std.specs.Prelude.{◌≡◌, ◌<◌, ◌≤◌, ◌+◌, ◌-◌, ◌*◌, ◌^◌, ◌∷◌, ◌++◌, [], true, false, OnOk, Some, None, string_bytes, ℕ, length, pos, neg_ℤ, nat_lt, nat_le, if◌then◌else◌, IfOk, IfErr, IfSome, List, IsUtf8, map};
ghost use Rattle.std.specs.Char.{is_ascii_alphabetic, is_ascii_digit, to_ascii_uppercase};
ghost use Rattle.std.specs.Option.{option_map};
ghost use Rattle.rv_lang.specs.declared.token.Token.{Token};
ghost use Rattle.rv_lang.specs.Tokens.{is_word_byte, is_text_byte, is_blank, past, value_after, Cuts, IsCutTo};
ghost use Rattle.rv_lang.specs.Lexing.{run, begins_word, number_of, negative_of, negative_at, symbol_at, word_of, scanned, kept, text_cut, text_at, token_at, tokens_of, Gives, Tracks, IsFault, Lexes};

use crate::token::{LexFault, Symbol, Token};
use arrayvec::ArrayString;
use rv_value::{NoMemory, Text};
use std::alloc::{AllocError, AllocFailed, Global};

/// Why no token was read.
#[derive(Drop)]
pub enum Stop {
    NoToken,
    NoMemory,
}

impl<T: Drop> From<AllocFailed<T>> for Stop {
    ghost use Rattle.rv_lang.specs.declared.lexer.Stop.TheVariants.{NoMemory};

    ghost from_gives = { λ _ e. e ≡ NoMemory };

    fn from(_e: AllocFailed<T>) -> Stop {
        Stop::NoMemory
    }
}

impl From<AllocError> for Stop {
    ghost use Rattle.rv_lang.specs.declared.lexer.Stop.TheVariants.{NoMemory};

    ghost from_gives = { λ _ e. e ≡ NoMemory };

    fn from(_e: AllocError) -> Stop {
        Stop::NoMemory
    }
}

impl From<NoMemory> for Stop {
    ghost use Rattle.rv_lang.specs.declared.lexer.Stop.TheVariants as stops;

    ghost from_gives = { λ _ e. e ≡ stops.NoMemory };

    fn from(_e: NoMemory) -> Stop {
        Stop::NoMemory
    }
}

/// Whether a byte may stand in a word.
fn is_word_byte(b: u8) -> bool
    ensures { result ≡ is_word_byte b }
{
    b.is_ascii_alphanumeric() || b == b'_'
}

fn push_upper(text: &mut String, b: u8) -> Result<(), AllocError>
    requires { b < 128 }
    ensures { OnOk result (string_bytes text.new ≡ string_bytes text.old ++ to_ascii_uppercase b ∷ []) }
{
    text.push(char::from(b.to_ascii_uppercase()))
}

/// Puts a byte behind others in upper case. Whether there was room.
fn try_upper(text: &mut ArrayString<16>, b: u8) -> bool
    requires { b < 128 }
    ensures { result ≡ true → text.new.bytes ≡ text.old.bytes ++ to_ascii_uppercase b ∷ [] }
{
    text.try_push(char::from(b.to_ascii_uppercase())).is_ok()
}

/// A word of at most 16 bytes that begins with a letter, and the bytes after it; None where it is longer. It takes no memory.
fn short_word(first: u8, bytes: &[u8]) -> Option<(ArrayString<16>, &[u8])>
    requires { is_ascii_alphabetic first ≡ true }
    ensures { IfSome result (λ x. (x.0.bytes ≡ map to_ascii_uppercase (first ∷ run is_word_byte bytes.now)) × (x.1.now ≡ past is_word_byte bytes.now)) }
{
    let mut text = ArrayString::new();
    if !try_upper(&mut text, first) {
        return None;
    }
    let mut rest = bytes;
    'letters: while let [b, more @ ..] = rest {
        if !is_word_byte(*b) {
            break;
        }
        if !try_upper(&mut text, *b) {
            return None;
        }
        rest = more;
    }
    Some((text, rest))
}

/// A word of any length that begins with a letter.
fn long_word<'a>(alloc: Global, first: u8, bytes: &'a [u8]) -> Result<(Token, &'a [u8]), Stop>
    requires { is_ascii_alphabetic first ≡ true }
    ensures { Gives (λ x. (x.0, x.1.now)) result (word_of first bytes.now) }
{
    let mut text = String::new(alloc);
    push_upper(&mut text, first)?;
    let mut rest = bytes;
    'letters: while let [b, more @ ..] = rest {
        if !is_word_byte(*b) {
            break;
        }
        push_upper(&mut text, *b)?;
        rest = more;
    }
    Ok((Token::Word(Text::read(alloc, text.as_str())?), rest))
}

/// A word that begins with a letter. Most are short, and take no memory.
fn word<'a>(alloc: Global, first: u8, bytes: &'a [u8]) -> Result<(Token, &'a [u8]), Stop>
    requires { is_ascii_alphabetic first ≡ true }
    ensures { Gives (λ x. (x.0, x.1.now)) result (word_of first bytes.now) }
{
    match short_word(first, bytes) {
        Some((short, rest)) => {
            let text = Text::read(alloc, short.as_str())?;
            Ok((Token::Word(text), rest))
        }
        None => long_word(alloc, first, bytes),
    }
}

/// The bytes after the blanks.
fn past_blanks(bytes: &[u8]) -> &[u8]
    ensures { result.now ≡ past is_blank bytes.now }
{
    let mut rest = bytes;
    'blanks: while let [b, more @ ..] = rest {
        if *b != b' ' && *b != b'\t' {
            break;
        }
        rest = more;
    }
    rest
}

/// The number with one digit more.
fn next(n: Option<u64>, digit: u8) -> Option<u64>
    requires { is_ascii_digit digit ≡ true }
    ensures { (v : ℕ) → Tracks n v → Tracks result (v * 10 + (digit - 48)) }
{
    n?.checked_mul(10)?.checked_add(u64::from(digit - b'0'))
}

/// The number that the digits in front write, as far as 64 bits hold it, and the bytes after them.
fn digits(bytes: &[u8]) -> (Option<u64>, &[u8])
    ensures rest { result.1.now ≡ past is_ascii_digit bytes.now }
    ensures value { Tracks result.0 (value_after 0 (run is_ascii_digit bytes.now)) }
{
    let mut n = Some(0);
    let mut rest = bytes;
    'digits: while let [b, more @ ..] = rest {
        if !b.is_ascii_digit() {
            break;
        }
        n = next(n, *b);
        rest = more;
    }
    (n, rest)
}

fn begins_word(bytes: &[u8]) -> bool
    ensures { result ≡ begins_word bytes.now }
{
    match bytes {
        [b, ..] => is_word_byte(*b),
        [] => false,
    }
}

/// A mark, of one byte or two.
#[tactic(auto, unfolding(crate::specs::Lexing::symbol_at))]
fn symbol(first: u8, bytes: &[u8]) -> Option<(Token, &[u8])>
    ensures { option_map (λ x. (x.0, x.1.now)) result ≡ symbol_at first bytes.now }
{
    let symbol = match first {
        b'(' => Symbol::LeftParen,
        b')' => Symbol::RightParen,
        b',' => Symbol::Comma,
        b'.' => Symbol::Dot,
        b'*' => Symbol::Star,
        b';' => Symbol::Semicolon,
        b'=' => Symbol::Equal,
        b'<' => match bytes {
            [b'>', rest @ ..] => return Some((Token::Symbol(Symbol::NotEqual), rest)),
            [b'=', rest @ ..] => return Some((Token::Symbol(Symbol::AtMost), rest)),
            _ => Symbol::Less,
        },
        b'>' => match bytes {
            [b'=', rest @ ..] => return Some((Token::Symbol(Symbol::AtLeast), rest)),
            _ => Symbol::Greater,
        },
        _ => return None,
    };
    Some((Token::Symbol(symbol), bytes))
}

fn positive(n: Option<u64>) -> Option<i64>
    ensures { (v : ℕ) → Tracks n v → result ≡ (if nat_lt v (2 ^ 63) then Some (pos v) else None) }
{
    0i64.checked_add_unsigned(n?)
}

fn negative(n: Option<u64>) -> Option<i64>
    ensures { (v : ℕ) → Tracks n v → result ≡ (if nat_le v (2 ^ 63) then Some (neg_ℤ (pos v)) else None) }
{
    0i64.checked_sub_unsigned(n?)
}

fn number(bytes: &[u8]) -> Option<(Token, &[u8])>
    ensures { option_map (λ x. (x.0, x.1.now)) result ≡ number_of (run is_ascii_digit bytes.now) (past is_ascii_digit bytes.now) }
{
    let (n, rest) = digits(bytes);
    if begins_word(rest) {
        return None;
    }
    match positive(n) {
        Some(n) => Some((Token::Int(n), rest)),
        None => None,
    }
}

fn negative_number(bytes: &[u8]) -> Option<(Token, &[u8])>
    ensures { option_map (λ x. (x.0, x.1.now)) result ≡ negative_of (run is_ascii_digit bytes.now) (past is_ascii_digit bytes.now) }
{
    let (n, rest) = digits(bytes);
    if begins_word(rest) {
        return None;
    }
    match negative(n) {
        Some(n) => Some((Token::Int(n), rest)),
        None => None,
    }
}

/// Whether a byte may stand in a text.
fn is_text_byte(b: u8) -> bool
    ensures { result ≡ is_text_byte b }
{
    32 <= b && b != 127
}

/// How long the longest text is, up to its last quote.
fn text_len(bytes: &[u8]) -> Option<usize>
    ensures { result ≡ scanned None 0 false bytes.now }
{
    let mut best = None;
    let mut at = 0;
    let mut quoted = false;
    let mut rest = bytes;
    'bytes: while let [b, more @ ..] = rest {
        if quoted {
            if *b != b'\'' {
                return Some(at);
            }
            best = Some(at);
            at += 2;
            quoted = false;
        } else if *b == b'\'' {
            quoted = true;
        } else {
            if !is_text_byte(*b) {
                return best;
            }
            at += 1;
        }
        rest = more;
    }
    if quoted { Some(at) } else { best }
}

/// A negative number after its sign.
fn negative_at(bytes: &[u8]) -> Option<(Token, &[u8])>
    ensures { option_map (λ x. (x.0, x.1.now)) result ≡ negative_at bytes.now }
{
    match bytes {
        [b, _more @ ..] => {
            if b.is_ascii_digit() {
                negative_number(bytes)
            } else {
                None
            }
        }
        [] => None,
    }
}

/// What was found, which has to be there.
fn found(token: Option<(Token, &[u8])>) -> Result<(Token, &[u8]), Stop>
    ensures { Gives (λ x. (x.0, x.1.now)) result (option_map {U = Token × List ℕ} (λ x. (x.0, x.1.now)) token.entry) }
{
    match token {
        Some(found) => Ok(found),
        None => Err(Stop::NoToken),
    }
}

/// The bytes with one quote of two.
fn undoubled(alloc: Global, bytes: &[u8]) -> Result<Vec<u8>, Stop>
    ensures { IfOk result (λ v. v.items ≡ kept false bytes.now) }
{
    let mut out = Vec::with_capacity(alloc, bytes.len())?;
    let mut quoted = false;
    let mut rest = bytes;
    'bytes: while let [b, more @ ..] = rest {
        if quoted {
            quoted = false;
            rest = more;
            continue;
        }
        out.push(*b)?;
        quoted = *b == b'\'';
        rest = more;
    }
    Ok(out)
}

/// The length of the longest text, which ends before the bytes do.
fn text_end(bytes: &[u8]) -> Option<usize>
    ensures value { result ≡ scanned None 0 false bytes.now }
    ensures within { IfSome result (λ n. n < length bytes.now) }
{
    text_len(bytes)
}

/// What stands between the quotes, and what follows them.
fn text_cut(bytes: &[u8]) -> Option<(&[u8], &[u8])>
    ensures { option_map {U = List ℕ × List ℕ} (λ x. (x.0.now, x.1.now)) result ≡ text_cut bytes.now }
{
    match text_end(bytes) {
        Some(n) => Some((&bytes[..n], &bytes[n + 1..])),
        None => None,
    }
}

/// The text that these bytes say, of each two quotes one.
fn said(alloc: Global, bytes: &[u8]) -> Result<Text, Stop>
    requires { IsUtf8 (kept false bytes.now) }
    ensures { IfOk result (λ t. t ≡ kept false bytes.now) }
{
    let bytes = undoubled(alloc, bytes)?;
    match str::from_utf8(&bytes) {
        Ok(said) => match Text::read(alloc, said) {
            Ok(text) => Ok(text),
            Err(_) => Err(Stop::NoMemory),
        },
        Err(_) => unreachable!(),
    }
}

/// A text after its first quote.
fn text(alloc: Global, bytes: &[u8]) -> Result<(Token, &[u8]), Stop>
    requires { IsUtf8 bytes.now }
    ensures { Gives (λ x. (x.0, x.1.now)) result (text_at bytes.now) }
{
    match text_cut(bytes) {
        Some((front, rest)) => match said(alloc, front) {
            Ok(text) => Ok((Token::Str(text), rest)),
            Err(_) => Err(Stop::NoMemory),
        },
        None => Err(Stop::NoToken),
    }
}

/// The longest token in front, and the bytes after it.
#[tactic(auto, unfolding(crate::specs::Lexing::token_at))]
fn token(alloc: Global, bytes: &[u8]) -> Result<(Token, &[u8]), Stop>
    requires { IsUtf8 bytes.now }
    ensures { Gives (λ x. (x.0, x.1.now)) result (token_at bytes.now) }
{
    let [b, more @ ..] = bytes else {
        return Err(Stop::NoToken)
    };
    if b.is_ascii_alphabetic() {
        word(alloc, *b, more)
    } else if b.is_ascii_digit() {
        found(number(bytes))
    } else if *b == b'-' {
        found(negative_at(more))
    } else if *b == b'\'' {
        text(alloc, more)
    } else {
        found(symbol(*b, more))
    }
}

impl From<AllocFailed<Token>> for LexFault {
    ghost use Rattle.rv_lang.specs.declared.token.LexFault.TheVariants.{NoMemory};

    ghost from_gives = { λ _ e. e ≡ NoMemory };

    fn from(_e: AllocFailed<Token>) -> LexFault {
        LexFault::NoMemory
    }
}

impl From<AllocError> for LexFault {
    ghost use Rattle.rv_lang.specs.declared.token.LexFault.TheVariants.{NoMemory};

    ghost from_gives = { λ _ e. e ≡ NoMemory };

    fn from(_e: AllocError) -> LexFault {
        LexFault::NoMemory
    }
}

/// The tokens of a statement's text, of at most 4,096 bytes. Space and tab separate tokens and mean nothing else.
pub fn lex(alloc: Global, text: &str) -> Result<Vec<Token>, LexFault>
    requires { length text.now ≤ 4096 }

    // What is answered cuts the text, and a fault shows the first place where no token begins.
    ensures ok { IfOk result (λ tokens. Cuts text.now tokens.items []) }
    ensures fault { IfErr result (λ e. IsFault text.now e) }

    // The same as a function of the text.
    ensures exact { Lexes (λ tokens. tokens.items) result (tokens_of text.now) }
{
    // (as much room as there are bytes, so that no list of tokens is moved while it grows)
    let mut tokens = Vec::with_capacity(alloc, text.len())?;
    let bytes = text.as_bytes();
    let mut rest = past_blanks(bytes);
    'tokens: while !rest.is_empty() {
        match token(alloc, rest) {
            Ok((token, after)) => {
                tokens.push(token)?;
                rest = past_blanks(after);
            }
            Err(Stop::NoMemory) => return Err(LexFault::NoMemory),
            Err(Stop::NoToken) => {
                return Err(LexFault::NotToken {
                    offset: (bytes.len() - rest.len()) as u32,
                });
            }
        }
    }
    Ok(tokens)
}

/// A law: a text has one cut at most. So `Ok` and `NotToken` exclude each other, and `NotToken` has one offset.
pub fn one_cut()
    ensures tokens { (text : List ℕ) (ts us : List Token) → Cuts text ts [] → Cuts text us [] → ts ≡ us }
    ensures excluded { (text : List ℕ) (ts : List Token) (offset : ℕ) → Cuts text ts [] → IsCutTo text offset → ⊥ }
    ensures offset { (text : List ℕ) (m n : ℕ) → IsCutTo text m → IsCutTo text n → m ≡ n }
{}

/// A law: `tokens_of` is the cut as a function, and nothing where there is none.
pub fn cut_as_function()
    ensures cuts { (text : List ℕ) (ts : List Token) → tokens_of text ≡ Some ts → Cuts text ts [] }
    ensures gives { (text : List ℕ) (ts : List Token) → Cuts text ts [] → tokens_of text ≡ Some ts }
    ensures none { (text : List ℕ) (offset : ℕ) → IsCutTo text offset → tokens_of text ≡ None }
{}
