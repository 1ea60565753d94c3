//! The words that the machine hands to the program.
ghost use Rattle.std.specs.Prelude.{◌≡◌, option_map};
ghost use Rattle.rv_run.specs.Words.{behind_line};

use crate::status::Status;
use rv_value::Text;
use std::alloc::AllocGlobal;
use std::env::{self, Env};
use std::io::{Error, ErrorKind};

/// The words after the program's name. A word that is not UTF-8 is no accepted word: the status is Usage.
pub fn read_words<R: Env + AllocGlobal>(rt: &R) -> Result<Vec<Text>, Status> {
    let all = match env::args(rt) {
        Ok(all) => all,
        Err(error) => return Err(after_words(&error)),
    };
    let mut words = Vec::new(rt.alloc());
    for word in all.skip(1) {
        let Ok(word) = Text::read(rt.alloc(), word.as_str()) else {
            return Err(Status::Memory);
        };
        if words.push(word).is_err() {
            return Err(Status::Memory);
        }
    }
    Ok(words)
}

/// The words behind `--line`, which asks for a service: it is the first word, where it is asked.
pub fn behind_line(words: &[Text]) -> Option<&[Text]>
    ensures { option_map (λ rest. rest.now) result ≡ behind_line words.now }
{
    match words {
        [first, rest @ ..] if first.as_str() == "--line" => Some(rest),
        _ => None,
    }
}

/// How a run ends whose words could not be had.
fn after_words(error: &Error) -> Status {
    match error.kind() {
        ErrorKind::InvalidData => Status::Usage,
        _ => Status::Memory,
    }
}
