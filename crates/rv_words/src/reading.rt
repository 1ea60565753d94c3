//! Which words are accepted: they are read one after another.
ghost use Rattle.std.specs.Prelude.{◌≡◌, ◌↔◌, IsTrue, None, is_some};
ghost use Rattle.rv_words.specs.Forms.{form_of};
ghost use Rattle.rv_words.specs.Reading.{ended, fit_from, start, value, with_form, with_new, with_word};
ghost use Rattle.rv_words.specs.Words.{AreAccepted};

use crate::choices::Choice;
use crate::digits::value;
use crate::form::{Form, read_form};
use rv_value::Text;

/// Which options were read so far, and the one whose value is the next word.
#[derive(Clone, Copy)]
struct Sofar {
    threads: bool,
    workers: bool,
    judge: bool,
    steps: bool,
    seed: bool,
    race: bool,
    waiting: Option<Choice>,
}

/// Whether the words are accepted: options, each at most once and in any order. All but `--threads` and `--race` have a value
/// of 1 to 10 decimal digits in its range, in the next word or behind `=`.
pub fn accepted(words: &[Text]) -> bool
    ensures { IsTrue result ↔ AreAccepted words.now }
{
    fit(words)
}

fn fit(words: &[Text]) -> bool
    ensures { result ≡ fit_from start words.now }
{
    let mut sofar = Sofar {
        threads: false,
        workers: false,
        judge: false,
        steps: false,
        seed: false,
        race: false,
        waiting: None,
    };
    'words: for word in words {
        match with_word(sofar, word.as_str().as_bytes()) {
            Some(more) => sofar = more,
            None => return false,
        }
    }
    ended(sofar)
}

/// What was read, with the next word.
fn with_word(sofar: Sofar, word: &[u8]) -> Option<Sofar>
    ensures { result ≡ with_word sofar word.now }
{
    match sofar.waiting {
        None => with_form(sofar, read_form(word)),
        Some(option) => with_new(without_waiting(sofar), option, is_value(option, word)),
    }
}

fn without_waiting(sofar: Sofar) -> Sofar
    ensures { result ≡ record sofar { waiting = None } }
{
    Sofar {
        waiting: None,
        ..sofar
    }
}

fn with_form(sofar: Sofar, form: Form<'_>) -> Option<Sofar>
    ensures { result ≡ with_form sofar (form_of form.entry) }
{
    match form {
        Form::Named(option) => {
            if is_flag(option) {
                return with_new(sofar, option, true);
            }
            Some(Sofar {
                waiting: Some(option),
                ..sofar
            })
        }
        Form::Joined(option, digits) => {
            if is_flag(option) {
                return None;
            }
            with_new(sofar, option, is_value(option, digits))
        }
        Form::Other => None,
    }
}

/// Whether an option takes no value.
fn is_flag(option: Choice) -> bool
    ensures { result ≡ Rattle.rv_words.specs.Words.is_flag option }
{
    match option {
        Choice::Threads | Choice::Race => true,
        _ => false,
    }
}

/// What was read, with an option that has what it takes, where it was not given yet.
fn with_new(sofar: Sofar, option: Choice, has_value: bool) -> Option<Sofar>
    ensures { result ≡ with_new sofar option has_value }
{
    if !has_value {
        return None;
    }
    match option {
        Choice::Threads if !sofar.threads => Some(Sofar {
            threads: true,
            ..sofar
        }),
        Choice::Workers if !sofar.workers => Some(Sofar {
            workers: true,
            ..sofar
        }),
        Choice::Judge if !sofar.judge => Some(Sofar {
            judge: true,
            ..sofar
        }),
        Choice::Steps if !sofar.steps => Some(Sofar {
            steps: true,
            ..sofar
        }),
        Choice::Gen if !sofar.seed => Some(Sofar {
            seed: true,
            ..sofar
        }),
        Choice::Race if !sofar.race => Some(Sofar {
            race: true,
            ..sofar
        }),
        _ => None,
    }
}

/// Whether no value is to come.
fn ended(sofar: Sofar) -> bool
    ensures { result ≡ ended sofar }
{
    sofar.waiting.is_none()
}

fn is_value(option: Choice, digits: &[u8]) -> bool
    ensures { result ≡ is_some (value option digits.now) }
{
    value(option, digits).is_some()
}
