//! How a run ended, its exit code, and what is said of it on standard error.
ghost use Rattle.std.specs.Prelude.{◌≡◌, ◌++◌, ◌+◌, ◌≤◌, length};
ghost use Rattle.rv_run.specs.Words.{status_code, status_words};

use arrayvec::ArrayString;
use itoa::Buffer;
use rv_script::ScriptFault;

/// How a run ended.
#[derive(Drop, Debug, PartialEq, Eq)]
pub enum Status {
    /// All calls were made, and all text was written.
    Done,
    /// The words are not accepted.
    Usage,
    /// The bytes are no script: a line has no session, or they are not UTF-8.
    Script(ScriptFault),
    /// The script passes a limit.
    Limit(Over),
    /// Memory was refused. The output of the calls made so far is written, where there is one.
    Memory,
    /// A read failed, and nothing was called or written.
    ReadFault,
    /// A write failed; what was written is a front of the output.
    WriteFault,
}

/// Which limit a script passes: its bytes, its lines, or the bytes of the line of this number.
#[derive(Clone, Copy, Debug, PartialEq, Eq)]
pub enum Over {
    Bytes,
    Lines,
    Line(u32),
}

impl Status {
    /// The program's exit code, from 0 where it is done to 6; docs/LANGUAGE.md has them as a table.
    pub fn code(&self) -> u8
        ensures { result ≡ status_code self.now }
    {
        match self {
            Status::Done => 0,
            Status::Usage => 1,
            Status::Script(_) => 2,
            Status::Limit(_) => 3,
            Status::Memory => 4,
            Status::ReadFault => 5,
            Status::WriteFault => 6,
        }
    }

    /// What the program says on standard error; nothing where it is done.
    pub fn words(&self) -> ArrayString<160>
        ensures { result.bytes ≡ status_words self.now }
    {
        match self {
            Status::Done => said("", None, ""),
            Status::Usage => said(
                "usage: rvdyn [--line] [--threads] [--workers W] [--judge N] [--steps K] [--gen SEED] [--race]",
                None,
                "",
            ),
            Status::Script(fault) => script_words(fault),
            Status::Limit(over) => limit_words(*over),
            Status::Memory => said("no memory", None, ""),
            Status::ReadFault => said("read fault", None, ""),
            Status::WriteFault => said("write fault", None, ""),
        }
    }
}

fn script_words(fault: &ScriptFault) -> ArrayString<160>
    ensures { result.bytes ≡ Rattle.rv_run.specs.Words.script_words fault.now }
{
    match fault {
        ScriptFault::NoSession { line } => said("script: line ", Some(*line), " has no session"),
        ScriptFault::NotText { offset } => said("script: byte ", Some(*offset), " is not UTF-8"),
        ScriptFault::TooLong { line } => limit_words(Over::Line(*line)),
        ScriptFault::TooMany { .. } => limit_words(Over::Lines),
        ScriptFault::NoMemory => said("no memory", None, ""),
    }
}

fn limit_words(over: Over) -> ArrayString<160>
    ensures { result.bytes ≡ Rattle.rv_run.specs.Words.limit_words over }
{
    match over {
        Over::Bytes => said("limit: script over 16777216 bytes", None, ""),
        Over::Lines => said("limit: script over 200000 lines", None, ""),
        Over::Line(line) => said("limit: line ", Some(line), " over 4096 bytes"),
    }
}

/// Words, a number where there is one, and more words.
fn said(before: &str, number: Option<u32>, behind: &str) -> ArrayString<160>
    requires room { length before.now + length behind.now ≤ 120 }
    ensures { result.bytes ≡ before.now ++ Rattle.rv_run.specs.Words.number_text number ++ behind.now }
{
    let mut words = ArrayString::new();
    words.push_str(before);
    push_number(&mut words, number);
    words.push_str(behind);
    words
}

fn push_number(words: &mut ArrayString<160>, number: Option<u32>)
    requires { length words.old.bytes ≤ 120 }
    ensures bytes { words.new.bytes ≡ words.old.bytes ++ Rattle.rv_run.specs.Words.number_text number }
    ensures short { length words.new.bytes ≤ length words.old.bytes + 40 }
{
    if let Some(number) = number {
        let mut digits = Buffer::new();
        words.push_str(digits.format(number));
    }
}
