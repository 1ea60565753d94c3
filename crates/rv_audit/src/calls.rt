//! The calls of a script in one list, and the next one of each session.
ghost use Rattle.std.specs.Prelude.{◌≡◌, ◌<◌, ◌≤◌, ◌++◌, IfOk, IsSome, length, slice_get};
ghost use Rattle.std.specs.List.{list_all};
ghost use Rattle.std.specs.Option.{option_copied};
ghost use Rattle.rv_audit.specs.Calls.{IsNextOf, calls_from, calls_in, is_by, waits_at};

use rv_script::{Line, Phase};
use rv_value::{Duplicate, NoMemory, Text};
use std::alloc::Global;

/// A call of a script.
#[derive(Drop)]
pub struct Call {
    /// From 1.
    pub phase: u32,
    /// From 1 to 8.
    pub session: u8,
    pub text: Text,
}

/// Calls, and those of a further phase.
fn with_lines(
    alloc: Global,
    mut calls: Vec<Call>,
    lines: &[Line],
    number: u32,
) -> Result<Vec<Call>, NoMemory>
    ensures { IfOk result (λ more. more.items ≡ calls.items ++ calls_in number lines.now) }
{
    'lines: for line in lines {
        let text = line.text.copy(alloc)?;
        calls.push(Call {
            phase: number,
            session: line.session,
            text,
        })?;
    }
    Ok(calls)
}

/// The calls of all phases, in their order.
pub fn calls_of(alloc: Global, phases: &[Phase]) -> Result<Vec<Call>, NoMemory>
    requires { length phases.now < 4294967295 }
    ensures { IfOk result (λ calls. calls.items ≡ calls_from 1 phases.now) }
{
    let mut calls = Vec::new(alloc);
    let mut number = 0;
    'phases: for phase in phases {
        number += 1;
        match with_lines(alloc, calls, phase.lines.as_slice(), number) {
            Ok(more) => calls = more,
            Err(NoMemory) => return Err(NoMemory),
        }
    }
    Ok(calls)
}

/// The call in a place; None behind the last one.
pub fn call_at(calls: &[Call], at: usize) -> Option<&Call>
    ensures is { option_copied result ≡ slice_get calls.now at }
    ensures within { IsSome result → at < length calls.now }
{
    calls.get(at)
}

/// Whether the call in a place is of a session; not so behind the last one.
fn is_by(calls: &[Call], at: usize, session: u8) -> bool
    ensures { result ≡ is_by session (slice_get calls.now at) }
{
    match call_at(calls, at) {
        Some(call) => call.session == session,
        None => false,
    }
}

/// The place of a session's next call, from a place on; the number of calls where there is none.
pub fn next_of(calls: &[Call], from: usize, session: u8) -> usize
    requires { from ≤ length calls.now }
    ensures { IsNextOf calls.now from session result }
{
    'calls: for at in from..calls.len() {
        if is_by(calls, at, session) {
            return at;
        }
    }
    calls.len()
}

/// Whether the call in a place, if there is one, is of this phase or a later one.
fn waits_at(calls: &[Call], at: usize, phase: u32) -> bool
    ensures { result ≡ waits_at calls.now phase at }
{
    match call_at(calls, at) {
        Some(call) => phase <= call.phase,
        None => true,
    }
}

/// Whether no session has a call of an earlier phase to make.
pub fn wait(calls: &[Call], next: &[usize], phase: u32) -> bool
    ensures { result ≡ list_all (λ at. waits_at calls.now phase at) next.now }
{
    let mut rest = next;
    'sessions: while let [at, more @ ..] = rest {
        if !waits_at(calls, *at, phase) {
            return false;
        }
        rest = more;
    }
    true
}
