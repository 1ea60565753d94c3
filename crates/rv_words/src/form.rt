//! A word where an item begins.
ghost use Rattle.std.specs.Prelude.{◌≡◌, ◌==◌, ◌<◌, Option, Some, None, position};
ghost use Rattle.rv_words.specs.Reading.{choice_of, form};
ghost use Rattle.rv_words.specs.Forms.{form_of};

use crate::choices::Choice;

/// What a word is where an item begins.
#[derive(Clone, Copy)]
pub enum Form<'a> {
    /// An option. Its value, if it takes one, is the next word.
    Named(Choice),
    /// An option and its value.
    Joined(Choice, &'a [u8]),
    Other,
}

/// What a word is: it is cut at its first `=`, where there is one.
pub fn read_form(word: &[u8]) -> Form<'_>
    ensures { form_of result ≡ form word.now }
{
    match equals_sign(word) {
        None => named(choice(word)),
        Some(at) => joined(choice(&word[..at]), &word[at + 1..]),
    }
}

/// The place of the first `=`.
fn equals_sign(word: &[u8]) -> Option<usize>
    ensures { result ≡ position (λ c. c == 61) word.now }
{
    word.iter().position(|byte| *byte == b'=')
}

fn named<'a>(option: Option<Choice>) -> Form<'a>
    ensures { form_of result ≡ Rattle.rv_words.specs.Reading.named option }
{
    match option {
        None => Form::Other,
        Some(option) => Form::Named(option),
    }
}

fn joined(option: Option<Choice>, digits: &[u8]) -> Form<'_>
    ensures { form_of result ≡ Rattle.rv_words.specs.Reading.joined option digits.now }
{
    match option {
        None => Form::Other,
        Some(option) => Form::Joined(option, digits),
    }
}

/// The option of a name.
fn choice(name: &[u8]) -> Option<Choice>
    ensures { result ≡ choice_of name.now }
{
    if name == b"--threads".as_slice() {
        return Some(Choice::Threads);
    }
    if name == b"--workers".as_slice() {
        return Some(Choice::Workers);
    }
    if name == b"--judge".as_slice() {
        return Some(Choice::Judge);
    }
    if name == b"--steps".as_slice() {
        return Some(Choice::Steps);
    }
    if name == b"--gen".as_slice() {
        return Some(Choice::Gen);
    }
    if name == b"--race".as_slice() {
        return Some(Choice::Race);
    }
    None
}
