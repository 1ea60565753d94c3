//! Versions of numbers. Acts are parted by commas: `write ID COMMIT NUMBER`, `read ID SNAPSHOT`, `take ID COMMIT`,
//! `purge ID HORIZON` and `abandon COMMIT`; what each finds stands behind a space.
ghost use Rattle.std.specs.Prelude.{◌+◌, IfOk};
ghost use Rattle.rv_versions.specs.Chains.{AllChainsBelow};

use crate::told::Told;
use crate::words::pair;
use rv_loading::{Fault, cut, number, small};
use rv_versions::Versions;
use std::alloc::Global;

/// Writes at a commit that is not below the newest one, and answers that commit.
fn write(
    versions: &mut Versions<u64>,
    newest: u64,
    id: u32,
    commit: u64,
    value: u64,
) -> Result<u64, Fault>
    requires below { AllChainsBelow (newest + 1) versions.old }
    ensures { IfOk result (λ last. AllChainsBelow (last + 1) versions.new) }
{
    if commit < newest {
        return Err(Fault::Form);
    }
    match versions.write(id, commit, value) {
        Ok(()) => Ok(commit),
        Err(_value) => Err(Fault::NoMemory),
    }
}

/// Two numbers below 2^64, parted by a space.
fn numbers(text: &str) -> Result<(u64, u64), Fault> {
    let (first, second) = cut(text, ' ')?;
    Ok((number(first)?, number(second)?))
}

fn write_words(versions: &mut Versions<u64>, newest: u64, text: &str) -> Result<u64, Fault>
    requires below { AllChainsBelow (newest + 1) versions.old }
    ensures { IfOk result (λ last. AllChainsBelow (last + 1) versions.new) }
{
    let (id, rest) = cut(text, ' ')?;
    let (commit, value) = numbers(rest)?;
    write(versions, newest, small(id)?, commit, value)
}

/// Tells a number that was found, or that there is none.
fn tell_number(told: &mut Told, found: Option<u64>) {
    match found {
        Some(found) => told.with(" ", found),
        None => told.word(" none"),
    }
}

fn read(versions: &Versions<u64>, told: &mut Told, text: &str) -> Result<(), Fault> {
    let (id, snap) = pair(text)?;
    tell_number(told, versions.read(id, snap).copied());
    Ok(())
}

/// Takes out what was written at the newest commit, or at a later one.
fn take(
    versions: &mut Versions<u64>,
    newest: u64,
    told: &mut Told,
    text: &str,
) -> Result<u64, Fault>
    requires below { AllChainsBelow (newest + 1) versions.old }
    ensures { IfOk result (λ last. AllChainsBelow (last + 1) versions.new) }
{
    let (id, commit) = pair(text)?;
    if commit != newest {
        return Err(Fault::Form);
    }
    let taken = versions.take(id, commit);
    tell_number(told, taken);
    Ok(newest)
}

/// Takes what was written at the newest commit away.
fn abandon(versions: &mut Versions<u64>, newest: u64, text: &str) -> Result<u64, Fault>
    requires below { AllChainsBelow (newest + 1) versions.old }
    ensures { IfOk result (λ last. AllChainsBelow (last + 1) versions.new) }
{
    if number(text)? != newest {
        return Err(Fault::Form);
    }
    versions.abandon(newest);
    Ok(newest)
}

fn purge(versions: &mut Versions<u64>, newest: u64, text: &str) -> Result<u64, Fault>
    requires below { AllChainsBelow (newest + 1) versions.old }
    ensures { IfOk result (λ last. AllChainsBelow (last + 1) versions.new) }
{
    let (id, horizon) = pair(text)?;
    versions.purge(id, horizon);
    Ok(newest)
}

/// Does an act, and answers the newest commit.
fn act(versions: &mut Versions<u64>, newest: u64, told: &mut Told, text: &str) -> Result<u64, Fault>
    requires below { AllChainsBelow (newest + 1) versions.old }
    ensures { IfOk result (λ last. AllChainsBelow (last + 1) versions.new) }
{
    let (word, rest) = cut(text, ' ')?;
    match word {
        "write" => write_words(versions, newest, rest),
        "take" => take(versions, newest, told, rest),
        "abandon" => abandon(versions, newest, rest),
        "purge" => purge(versions, newest, rest),
        "read" => {
            read(versions, told, rest)?;
            Ok(newest)
        }
        _ => Err(Fault::Form),
    }
}

/// Does acts, and tells what they find.
fn act_all(versions: &mut Versions<u64>, told: &mut Told, text: &str) -> Result<(), Fault>
    requires { AllChainsBelow (0 + 1) versions.old }
{
    let mut newest = 0;
    'acts: for text in text.split(", ") {
        newest = act(versions, newest, told, text)?;
    }
    Ok(())
}

fn tell_places(told: &mut Told, versions: &Versions<u64>) {
    if versions.is_empty() {
        told.word("empty, ");
    }
    told.number(versions.len() as u64);
    told.word(" places, read");
}

/// What acts find, in words, behind how many places there are then.
pub fn tell(alloc: Global, told: &mut Told, text: &str) -> Result<(), Fault> {
    let mut versions = Versions::new(alloc);
    let mut found = Told::new(alloc);
    let done = act_all(&mut versions, &mut found, text);
    tell_places(told, &versions);
    drop(versions);
    told.append(found, done)
}
