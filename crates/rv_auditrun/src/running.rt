//! The audit of what a source tells.
ghost use Rattle.std.specs.Prelude.{◌≡◌, ◌≤◌, ◌++◌, ◌∷◌, ◌↔◌, [], Ok, codes, decimal, length};
ghost use Rattle.rv_io.specs.Causes.{Rose};
ghost use Rattle.rv_io.specs.Pieces.{Goes, TakesUpTo};
ghost use Rattle.rv_run.specs.Words.{status_words};
ghost use Rattle.rv_auditrun.specs.Telling.{IsOfInput, IsSilent, SaysFrontOf, SaysOf, Tells, told_status};
ghost use Rattle.rv_auditrun.specs.Verdicts.{IsVerdict, Says, SaysFront, fault_status, status_of, verdict_line};

use crate::status::AuditStatus;
use rv_audit::{Audited, audit};
use rv_io::{Failed, ReadFault, Sink, Source, read_all, write_next};
use rv_run::{Over, Status};
use rv_script::ScriptFault;
use rv_script::transcript::{write_number, write_two};
use rv_value::{NoMemory, Text};
use std::alloc::Global;

/// The greatest number of bytes of an input.
const LIMIT: u32 = 268_435_456;

/// Judges the whole input of a source, and appends the line of the verdict to the sink. No word is accepted.
pub fn audit_run<S: Source, K: Sink>(
    alloc: Global,
    words: &[Text],
    source: &mut S,
    sink: &mut K,
) -> AuditStatus
    // One line was written, and nothing else: the verdict on all that the source told, or that this is too long.
    ensures verdict { IsVerdict result → Says (S.left source.old) (S.left source.new) (K.written sink.old) (K.written sink.new) result }

    // Exactly where there is a word, and then nothing is read.
    ensures usage { (result ≡ AuditStatus.Usage) ↔ ¬ (words.now ≡ []) }
    ensures unread { result ≡ AuditStatus.Usage → source.new ≡ source.old }
    ensures read { result ≡ AuditStatus.ReadFault → Rose (S.faults source.old) (S.faults source.new) }

    // A front of the line was written.
    ensures write { result ≡ AuditStatus.WriteFault → Rose (K.faults sink.old) (K.faults sink.new) }
    ensures front { result ≡ AuditStatus.WriteFault → SaysFront (S.left source.old) (S.left source.new) (K.written sink.old) (K.written sink.new) }

    // With the three other statuses nothing is written. At most one byte more than the limit is taken.
    ensures silent { IsSilent result → sink.new ≡ sink.old }
    ensures taken { TakesUpTo (S.left source.old) (S.left source.new) 268435457 }
{
    if !words.is_empty() {
        return AuditStatus::Usage;
    }
    match read_all(alloc, source, LIMIT) {
        Ok(input) => audit_input(alloc, input.as_slice(), sink),
        Err(ReadFault::Failed) => AuditStatus::ReadFault,
        Err(ReadFault::TooBig) => tell_limit(sink),
        Err(ReadFault::NoMemory) => AuditStatus::Memory,
    }
}

/// Says that the input is too long.
fn tell_limit<K: Sink>(sink: &mut K) -> AuditStatus
    ensures { Tells (codes "limit: input over 268435456 bytes\n") AuditStatus.Limit (K.written sink.old) (K.written sink.new) (K.faults sink.old) (K.faults sink.new) result }
{
    let written = write_next(sink, Ok(()), b"limit: input over 268435456 bytes\n");
    told(AuditStatus::Limit, written)
}

/// Judges an input, and says the verdict.
fn audit_input<K: Sink>(alloc: Global, input: &[u8], sink: &mut K) -> AuditStatus
    requires { length input.now ≤ 268435456 }
    ensures verdict { IsVerdict result → SaysOf input.now (K.written sink.old) (K.written sink.new) result }
    ensures front { result ≡ AuditStatus.WriteFault → SaysFrontOf input.now (K.written sink.old) (K.written sink.new) }
    ensures write { result ≡ AuditStatus.WriteFault → Rose (K.faults sink.old) (K.faults sink.new) }
    ensures silent { IsSilent result → sink.new ≡ sink.old }
    ensures kind { IsOfInput result }
{
    match audit(alloc, input) {
        Ok(answer) => tell(sink, answer),
        Err(NoMemory) => AuditStatus::Memory,
    }
}

/// Says an answer.
fn tell<K: Sink>(sink: &mut K, answer: Audited) -> AuditStatus
    requires { IsVerdict (status_of answer) }
    ensures { Tells (verdict_line answer) (status_of answer) (K.written sink.old) (K.written sink.new) (K.faults sink.old) (K.faults sink.new) result }
{
    let status = status_of(&answer);
    let written = write_verdict(sink, answer);
    told(status, written)
}

/// The status whose line was written.
fn told(status: AuditStatus, written: Result<(), Failed>) -> AuditStatus
    ensures { result ≡ told_status status written }
{
    match written {
        Ok(()) => status,
        Err(Failed) => AuditStatus::WriteFault,
    }
}

/// The status of an answer.
fn status_of(answer: &Audited) -> AuditStatus
    ensures { result ≡ status_of answer.now }
{
    match answer {
        Audited::NoMark => AuditStatus::BadText,
        Audited::Over => AuditStatus::Limit,
        Audited::Script(fault) => fault_status(fault),
        Audited::BadText { .. } => AuditStatus::BadText,
        Audited::BadEntry { .. } => AuditStatus::BadEntry,
        Audited::Missing { .. } => AuditStatus::Missing,
        Audited::Legal { .. } => AuditStatus::Legal,
    }
}

fn fault_status(fault: &ScriptFault) -> AuditStatus
    ensures { result ≡ fault_status fault.now }
{
    match fault {
        ScriptFault::NoSession { .. } | ScriptFault::NotText { .. } => AuditStatus::Script,
        ScriptFault::TooLong { .. } | ScriptFault::TooMany { .. } => AuditStatus::Limit,
        ScriptFault::NoMemory => AuditStatus::Memory,
    }
}

/// The line of an answer.
fn write_verdict<K: Sink>(sink: &mut K, answer: Audited) -> Result<(), Failed>
    ensures { Goes (Ok tt) (K.written sink.old) (K.written sink.new) (K.faults sink.old) (K.faults sink.new) result (verdict_line answer) }
{
    match answer {
        Audited::NoMark => write_next(sink, Ok(()), b"no mark\n"),
        Audited::Over => write_words(sink, Status::Limit(Over::Bytes)),
        Audited::Script(fault) => write_words(sink, Status::Script(fault)),
        Audited::BadText { line } => write_numbered(sink, b"text line ", line),
        Audited::BadEntry { entry } => write_numbered(sink, b"bad entry ", entry),
        Audited::Missing { session, phase } => write_missing(sink, session, phase),
        Audited::Legal { entries } => write_numbered(sink, b"legal ", entries),
    }
}

/// What is said of a run that ends so.
fn write_words<K: Sink>(sink: &mut K, status: Status) -> Result<(), Failed>
    ensures { Goes (Ok tt) (K.written sink.old) (K.written sink.new) (K.faults sink.old) (K.faults sink.new) result (status_words status ++ 10 ∷ []) }
{
    let words = status.words();
    write_two(sink, Ok(()), words.as_str().as_bytes(), b"\n")
}

/// Words and a number.
fn write_numbered<K: Sink>(sink: &mut K, words: &[u8], number: u32) -> Result<(), Failed>
    ensures { Goes (Ok tt) (K.written sink.old) (K.written sink.new) (K.faults sink.old) (K.faults sink.new) result ((words.now ++ decimal number) ++ 10 ∷ []) }
{
    let front = write_number(sink, Ok(()), words, u64::from(number));
    write_next(sink, front, b"\n")
}

/// The call that has no entry.
fn write_missing<K: Sink>(sink: &mut K, session: u8, phase: u32) -> Result<(), Failed>
    ensures { Goes (Ok tt) (K.written sink.old) (K.written sink.new) (K.faults sink.old) (K.faults sink.new) result (((codes "missing session " ++ decimal session) ++ (codes " phase " ++ decimal phase)) ++ 10 ∷ []) }
{
    let front = write_number(sink, Ok(()), b"missing session ", u64::from(session));
    let all = write_number(sink, front, b" phase ", u64::from(phase));
    write_next(sink, all, b"\n")
}
