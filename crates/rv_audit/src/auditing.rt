//! The audit: a script, a mark and a transcript, judged in the order of the answers.
ghost use Rattle.std.specs.Prelude.{◌≡◌, ◌≤◌, All, IfOk, length};
ghost use Rattle.rv_run.specs.Making.{FitsScript};
ghost use Rattle.rv_text.specs.Reading.{AreReadable};
ghost use Rattle.rv_audit.specs.Auditing.{Audits, IsAnswer, SaysOfEntries, SaysOfTranscript};
ghost use Rattle.rv_audit.specs.Places.{FaultTold, ReplaysSo, end_told};

use crate::following::{End, follow};
use crate::marks::part;
use rv_believed::laws::same_are_legal;
use rv_model::Entry;
use rv_replay::{Replayed, replay};
use rv_script::{Script, ScriptFault, read_script};
use rv_text::{TextRead, read_text};
use rv_value::NoMemory;
use std::alloc::Global;

/// What an audit answers: the first that applies.
#[derive(Drop, PartialEq, Eq)]
pub enum Audited {
    /// No line is the mark.
    NoMark,
    /// The script has more than 16,777,216 bytes.
    Over,
    /// The script's first fault, which is never want of memory.
    Script(ScriptFault),
    /// The first line of the transcript, from 1, with which no transcript begins.
    BadText { line: u32 },
    /// The first entry, from 1, up to which the entries are no legal history that follows the script.
    BadEntry { entry: u32 },
    /// A call has no entry: the lowest such phase, and in it the lowest session.
    Missing { session: u8, phase: u32 },
    /// A legal history that has every call of the script.
    Legal { entries: u32 },
}

const SCRIPT_BYTES: usize = 16_777_216;

/// Judges an input of 268,435,456 bytes at most.
pub fn audit(alloc: Global, input: &[u8]) -> Result<Audited, NoMemory>
    requires { length input.now ≤ 268435456 }
    ensures audits { IfOk result (λ answer. Audits input.now answer) }
    ensures answer { IfOk result IsAnswer }
{
    let Some((script, transcript)) = part(input) else {
        return Ok(Audited::NoMark);
    };
    if script.len() > SCRIPT_BYTES {
        return Ok(Audited::Over);
    }
    match read_script(alloc, script) {
        Ok(script) => audit_transcript(alloc, &script, transcript),
        Err(fault) => told_fault(fault),
    }
}

/// A script's fault; want of memory is none.
fn told_fault(fault: ScriptFault) -> Result<Audited, NoMemory>
    ensures { FaultTold fault result }
{
    match fault {
        ScriptFault::NoSession { line } => Ok(Audited::Script(ScriptFault::NoSession { line })),
        ScriptFault::NotText { offset } => Ok(Audited::Script(ScriptFault::NotText { offset })),
        ScriptFault::TooLong { line } => Ok(Audited::Script(ScriptFault::TooLong { line })),
        ScriptFault::TooMany { lines } => Ok(Audited::Script(ScriptFault::TooMany { lines })),
        ScriptFault::NoMemory => Err(NoMemory),
    }
}

fn audit_transcript(alloc: Global, script: &Script, transcript: &[u8]) -> Result<Audited, NoMemory>
    requires few { length transcript.now ≤ 268435456 }
    requires fits { FitsScript script.now }
    ensures { IfOk result (λ answer. SaysOfTranscript script.now transcript.now answer) }
{
    match read_text(alloc, transcript)? {
        TextRead::Entries(entries) => audit_entries(alloc, script, entries),
        TextRead::Bad { line } => Ok(Audited::BadText { line }),
    }
}

/// The entries that follow have the script's texts, which are short, so they can be replayed. The bad entry is where the
/// replay breaks, if it does, else the first that does not follow: each test is closed under fronts, so the lesser is right.
fn audit_entries(alloc: Global, script: &Script, entries: Vec<Entry>) -> Result<Audited, NoMemory>
    requires readable { AreReadable entries.items }
    requires few { length entries.items ≤ 268435456 }
    requires fits { FitsScript script.now }
    ensures { IfOk result (λ answer. SaysOfEntries script.now entries.items answer) }
{
    let followed = follow(alloc, script.phases.as_slice(), entries)?;
    match replayed(alloc, followed.entries.as_slice())? {
        Replayed::Broken { entry } => Ok(Audited::BadEntry {
            entry: entry as u32,
        }),
        Replayed::Legal => Ok(told_end(followed.end, followed.entries.len())),
    }
}

/// What is told of a script's entries that are legal, of which so many follow it.
fn told_end(end: End, count: usize) -> Audited
    requires { count ≤ 268435456 }
    ensures { result ≡ end_told end count }
{
    match end {
        End::Whole => Audited::Legal {
            entries: count as u32,
        },
        End::Missing { session, phase } => Audited::Missing { session, phase },
        End::Bad => Audited::BadEntry {
            entry: count as u32 + 1,
        },
    }
}

/// What a replay tells, by the believed definition of a legal history.
fn replayed(alloc: Global, entries: &[Entry]) -> Result<Replayed, NoMemory>
    requires { All (λ e. length e.text ≤ 4096) entries.now }
    ensures { IfOk result (ReplaysSo entries.now) }
{
    same_are_legal();
    replay(alloc, entries)
}
