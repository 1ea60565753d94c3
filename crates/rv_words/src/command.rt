//! Accepted words, parsed by clap.
ghost use Rattle.std.specs.Prelude.{◌≡◌, ◌≤◌, IfOk, IfSome, codes, false, map, option_and_then};
ghost use Rattle.clap.specs.Matches.{found_of};
ghost use Rattle.clap.specs.Simple.{app_of, matches_of};
ghost use Rattle.clap.specs.Walk.{rows_of, rule_of};
ghost use Rattle.rv_words.specs.Command.{app, asked_in, flag_in, flag_rule, found_in, id_of, valued_rule};
ghost use Rattle.rv_words.specs.Words.{AreAccepted, AreWithin, Ask, greatest};
ghost use Rattle.rv_words.specs.declared.choices.Asked.{Asked as AskedOnce};

use crate::choices::{Asked, Choice};
use crate::digits::value;
use clap::{Arg, ArgAction, ArgMatches, Command};
use rv_value::{NoMemory, Text};
use std::alloc::{AllocError, Global};

/// What accepted words ask: clap parses them, and gives each option's value as a text of digits. `NoMemory` also where
/// clap refuses them.
pub fn asked(alloc: Global, words: &[Text]) -> Result<Asked, NoMemory>
    requires { AreAccepted words.now }
    ensures ok { IfOk result (Ask words.now) }
    ensures only { IfOk result (λ asked. (other : AskedOnce) → Ask words.now other → other ≡ asked) }
    ensures within { IfOk result AreWithin }
{
    let texts = texts_of(alloc, words)?;
    let matches = parsed(alloc, texts.as_slice())?;
    let asked = values_of(&matches);
    drop(matches);
    Ok(asked)
}

/// The words as texts.
fn texts_of<'a>(alloc: Global, words: &'a [Text]) -> Result<Vec<&'a str>, NoMemory>
    ensures { IfOk result (λ texts. map (λ text. text.now) texts.items ≡ words.now) }
{
    let mut texts = Vec::new(alloc);
    'words: for word in words {
        texts.push(word.as_str())?;
    }
    Ok(texts)
}

/// What clap finds in the words.
fn parsed<'a>(alloc: Global, words: &'a [&'a str]) -> Result<ArgMatches<'a>, NoMemory>
    ensures { IfOk result (λ matches. rows_of (found_of matches) ≡ matches_of app (map (λ word. word.now) words.now)) }
{
    let command = command(alloc)?;
    match command.try_get_matches_from(words) {
        Ok(matches) => Ok(matches),
        Err(refused) => {
            drop(refused);
            Err(NoMemory)
        }
    }
}

/// The program's command: its options alone, without flags for help and version. The words do not name the program.
fn command<'a>(alloc: Global) -> Result<Command<'a>, AllocError>
    ensures { IfOk result (λ command. app_of command ≡ app) }
{
    let bare = Command::new(alloc, "rvdyn")
        .no_binary_name(true)
        .disable_help_flag(true)
        .disable_version_flag(true);
    bare.arg(flag(alloc, "threads"))?
        .arg(valued(alloc, "workers"))?
        .arg(valued(alloc, "judge"))?
        .arg(valued(alloc, "steps"))?
        .arg(valued(alloc, "gen"))?
        .arg(flag(alloc, "race"))
}

/// An option with a value, known by its name.
fn valued<'a>(alloc: Global, name: &'a str) -> Arg<'a>
    ensures rule { rule_of result ≡ valued_rule name.entry.now }
    ensures local { result.global ≡ false }
{
    Arg::new(alloc, name).long(name)
}

/// An option that takes no value, known by its name.
fn flag<'a>(alloc: Global, name: &'a str) -> Arg<'a>
    ensures rule { rule_of result ≡ flag_rule name.entry.now }
    ensures local { result.global ≡ false }
{
    valued(alloc, name).action(ArgAction::SetTrue)
}

/// The values that were found.
fn values_of(matches: &ArgMatches<'_>) -> Asked
    ensures values { result ≡ asked_in (rows_of (found_of matches.now)) }
    ensures within { AreWithin result }
{
    Asked {
        threads: is_flagged(matches, Choice::Threads),
        workers: found(matches, Choice::Workers).unwrap_or(2) as u8,
        judge: found(matches, Choice::Judge).unwrap_or(0) as u8,
        steps: found(matches, Choice::Steps).unwrap_or(1) as u8,
        seed: found(matches, Choice::Gen),
        race: is_flagged(matches, Choice::Race),
    }
}

/// Whether an option that takes no value was given: clap gives a flag as a text.
fn is_flagged(matches: &ArgMatches<'_>, option: Choice) -> bool
    ensures { result ≡ flag_in (rows_of (found_of matches.now)) option }
{
    match matches.get_str(id(option)) {
        Some(text) => text == "true",
        None => false,
    }
}

/// The value of an option, where one was found.
fn found(matches: &ArgMatches<'_>, option: Choice) -> Option<u32>
    ensures same { result ≡ found_in (rows_of (found_of matches.now)) option }
    ensures within { IfSome result (λ n. n ≤ greatest option) }
{
    match matches.get_str(id(option)) {
        Some(digits) => value(option, digits.as_bytes()),
        None => None,
    }
}

/// By which name clap knows an option.
fn id(option: Choice) -> &'static str
    ensures { result.now ≡ id_of option }
{
    match option {
        Choice::Threads => "threads",
        Choice::Workers => "workers",
        Choice::Judge => "judge",
        Choice::Steps => "steps",
        Choice::Gen => "gen",
        Choice::Race => "race",
    }
}
