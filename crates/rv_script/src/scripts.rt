//! The reader of scripts.
ghost use Rattle.std.specs.Prelude.{◌≡◌, ◌≤◌, ◌∷◌, ◌++◌, [], length, IfErr, IfOk};
ghost use Rattle.std.specs.Option.{option_map};
ghost use Rattle.std.specs.Str.Lines.{lines};
ghost use Rattle.rv_script.specs.Script.{Call, Next, call_of, says, says_at, sayings_from, script_said, without_byte_order_mark, script_of};
ghost use Rattle.rv_script.specs.Lines.{LineFault, LineSays};
ghost use Rattle.rv_script.specs.Drafts.{said_by, added, added_if, drafted, Gives};

use rv_value::{Items, NoMemory, Text};
use std::alloc::{AllocError, Global};

/// A call of a session.
#[derive(Drop, PartialEq, Eq)]
pub struct Line {
    /// From 1 to 8.
    pub session: u8,
    pub text: Text,
}

/// What stands between two marks `--`: calls of several sessions.
#[derive(Drop, PartialEq, Eq)]
pub struct Phase {
    /// The judge that begins with this phase; none where the one before goes on.
    pub judge: Option<u8>,
    pub lines: Items<Line>,
}

/// A script's phases, the first of which stands before the first mark.
#[derive(Drop, PartialEq, Eq)]
pub struct Script {
    pub phases: Items<Phase>,
}

/// The first fault of a script. Lines are counted from 1.
#[derive(Drop, Debug, PartialEq, Eq)]
pub enum ScriptFault {
    /// The line is of no listed form.
    NoSession { line: u32 },
    /// The first byte, counted from 0, of the sequence that is not UTF-8.
    NotText { offset: u32 },
    /// The line has more than 4,096 bytes without its end.
    TooLong { line: u32 },
    /// There are more lines than this number.
    TooMany { lines: u32 },
    NoMemory,
}

impl From<NoMemory> for ScriptFault {
    ghost use Rattle.rv_script.specs.declared.scripts.ScriptFault.TheVariants as faults;

    ghost from_gives = { λ _ e. e ≡ faults.NoMemory };

    fn from(_e: NoMemory) -> ScriptFault {
        ScriptFault::NoMemory
    }
}

/// The greatest number of lines.
const LINES: u32 = 200_000;

/// The greatest number of bytes of a line.
const LINE_BYTES: usize = 4096;

/// What a line says.
#[derive(Clone, Copy)]
pub enum Form<'a> {
    Nothing,
    /// The next call of a session, with its text.
    Call(u8, &'a str),
    /// The next phase begins, with a judge or without.
    Next(Option<u8>),
}

/// What a line says, where it is of a listed form.
fn read_form(line: &str) -> Option<Form<'_>>
    ensures { option_map said_by result ≡ says line.now }
{
    match line.as_bytes() {
        [] => Some(Form::Nothing),
        [b'#', ..] => Some(Form::Nothing),
        [b'-', b'-'] => Some(Form::Next(None)),
        [b'-', b'-', b' ', judge] => {
            if b'0' <= *judge && *judge <= b'2' {
                Some(Form::Next(Some(*judge - b'0')))
            } else {
                None
            }
        }
        _ => read_call(line),
    }
}

/// A session and the text of its call: a digit from 1 to 8, one space, any text.
fn read_call(line: &str) -> Option<Form<'_>>
    ensures { option_map said_by result ≡ call_of line.now }
{
    match line.as_bytes() {
        [session, space, ..] => {
            if *space == b' ' && b'1' <= *session && *session <= b'8' {
                Some(Form::Call(*session - b'0', &line[2..]))
            } else {
                None
            }
        }
        _ => None,
    }
}

/// What the line of this number says, or its fault.
fn checked(line: &str, number: u32) -> Result<Form<'_>, ScriptFault>
    ensures { Gives said_by result (says_at number line.now) }
{
    if number > LINES {
        return Err(ScriptFault::TooMany { lines: LINES });
    }
    if line.len() > LINE_BYTES {
        return Err(ScriptFault::TooLong { line: number });
    }
    match read_form(line) {
        Some(form) => Ok(form),
        None => Err(ScriptFault::NoSession { line: number }),
    }
}

/// What the line of this number says, whose bytes these are, with its end, or its fault: first of the bytes as UTF-8, whose
/// place is counted from the line's begin. The first line may stand behind a byte order mark.
pub fn read_saying(bytes: &[u8], number: u32) -> Result<Form<'_>, ScriptFault>
    requires { length bytes.now ≤ 16777216 }
    ensures says { IfOk result (λ form. LineSays number bytes.now (said_by form)) }
    ensures fault { IfErr result (LineFault number bytes.now) }
{
    match str::from_utf8(bytes) {
        Ok(text) => checked(first_line(behind_mark(text, number)), number),
        Err(e) => Err(ScriptFault::NotText {
            offset: e.valid_up_to() as u32,
        }),
    }
}

/// The line of this number without a byte order mark, which the first one may have.
fn behind_mark(text: &str, number: u32) -> &str
    ensures { result.now ≡ Rattle.rv_script.specs.Lines.behind_mark number text.now }
{
    if number == 1 { unmarked(text) } else { text }
}

/// The first line of a text.
fn first_line(text: &str) -> &str
    ensures { result.now ≡ Rattle.rv_script.specs.Lines.first_line text.now }
{
    match text.lines().next() {
        Some(line) => line,
        None => "",
    }
}

/// What was read so far: the phases that are over, and the judge and the calls of the one under way.
#[derive(Drop)]
pub struct Draft {
    pub over: Items<Phase>,
    pub judge: Option<u8>,
    pub calls: Items<Line>,
}

/// What was read, with what a further line says.
fn with_form(alloc: Global, draft: Draft, form: Form<'_>) -> Result<Draft, NoMemory>
    ensures { IfOk result (λ more. more ≡ added draft (said_by form.entry)) }
{
    match form {
        Form::Nothing => Ok(draft),
        Form::Call(session, text) => with_call(alloc, draft, session, text),
        Form::Next(judge) => with_phase(alloc, draft, judge),
    }
}

fn with_call(alloc: Global, draft: Draft, session: u8, text: &str) -> Result<Draft, NoMemory>
    ensures { IfOk result (λ more. more ≡ added draft (Call (record { session = session; text = text.now }))) }
{
    let text = Text::read(alloc, text)?;
    let Draft {
        over,
        judge,
        mut calls,
    } = draft;
    calls.push(Line { session, text })?;
    Ok(Draft { over, judge, calls })
}

fn with_phase(alloc: Global, draft: Draft, next: Option<u8>) -> Result<Draft, NoMemory>
    ensures { IfOk result (λ more. more ≡ added draft (Next next)) }
{
    let phases = closed(draft)?;
    Ok(Draft {
        over: phases,
        judge: next,
        calls: Items::new(alloc),
    })
}

/// All phases, with the one under way.
fn closed(draft: Draft) -> Result<Items<Phase>, NoMemory>
    ensures { IfOk result (λ phases. phases ≡ draft.over ++ record { judge = draft.judge; lines = draft.calls } ∷ []) }
{
    let Draft {
        mut over,
        judge,
        calls,
    } = draft;
    over.push(Phase {
        judge,
        lines: fitted(calls),
    })?;
    Ok(over)
}

/// The calls of a phase that is over, in no more room than they need, since a script lives as long as its run.
fn fitted(calls: Items<Line>) -> Items<Line>
    ensures { result ≡ calls }
{
    let mut lines = calls.into_vec();
    lines.shrink_to_fit();
    Items::from_vec(lines)
}

/// What was read, with the line of this number.
fn with_line(alloc: Global, draft: Draft, line: &str, number: u32) -> Result<Draft, ScriptFault>
    ensures { Gives (λ more. more) result (added_if draft (says_at number line.now)) }
{
    match checked(line, number) {
        Ok(form) => Ok(with_form(alloc, draft, form)?),
        Err(fault) => Err(fault),
    }
}

/// The script of a text without a byte order mark.
fn read_lines(alloc: Global, text: &str) -> Result<Script, ScriptFault>
    ensures { Gives (λ script. script) result (script_said (sayings_from 1 (lines text.now))) }
{
    let mut draft = Draft {
        over: Items::new(alloc),
        judge: None,
        calls: Items::new(alloc),
    };
    let mut number = 1;
    'lines: for line in text.lines() {
        match with_line(alloc, draft, line, number) {
            Ok(more) => draft = more,
            Err(fault) => return Err(fault),
        }
        number += 1;
    }
    let phases = closed(draft)?;
    Ok(Script { phases })
}

/// The text behind a byte order mark, or the whole where there is none.
fn unmarked(text: &str) -> &str
    ensures { result.now ≡ without_byte_order_mark text.now }
{
    match text.strip_prefix('\u{feff}') {
        Some(rest) => rest,
        None => text,
    }
}

/// The script that these bytes write, of which there are 16,777,216 at most, or its first fault: first of the
/// bytes as UTF-8, then line by line of too many lines, of a line's length and of its form.
#[tactic(auto, unfolding(crate::specs::Script::script_of))]
pub fn read_script(alloc: Global, bytes: &[u8]) -> Result<Script, ScriptFault>
    requires { length bytes.now ≤ 16777216 }
    ensures { Gives (λ script. script) result (script_of bytes.now) }
{
    match str::from_utf8(bytes) {
        Ok(text) => read_lines(alloc, unmarked(text)),
        Err(e) => Err(ScriptFault::NotText {
            offset: e.valid_up_to() as u32,
        }),
    }
}
