//! The reader of transcripts.
ghost use Rattle.std.specs.Prelude.{◌≡◌, ◌≤◌, ◌<◌, ◌+◌, Ok, Err, IfOk, IfSome, length, option_map};
ghost use Rattle.std.specs.Option.{option_copied};
ghost use Rattle.rv_text.specs.Reading.{Tells};
ghost use Rattle.rv_text.specs.Steps.{Fronts, answered_at, call_by};
ghost use Rattle.rv_text.specs.Texts.{answer_at, call_at, read_from};

use crate::cuts::cut_at;
use crate::replies::reply;
use rv_model::{Entry, Reply};
use rv_value::{NoMemory, Text};
use std::alloc::Global;

/// What is read of a transcript.
#[derive(Drop)]
pub enum TextRead {
    /// The entries of which the bytes are the transcript. Their phases, which a transcript does not tell, are 1.
    Entries(Vec<Entry>),
    /// The bytes are no transcript, and this is the first line, from 1, with which none begins.
    Bad { line: u32 },
}

/// A session and its call.
#[derive(Drop)]
pub(crate) struct Asked {
    pub session: u8,
    pub text: Text,
}

/// What stands at the front of a transcript.
#[derive(Drop)]
pub(crate) enum Front<'a> {
    /// An entry, and the bytes behind it.
    Entry(Entry, &'a [u8]),
    /// The number of the line with which no transcript goes on.
    Bad(u32),
}

/// A session from 1 to 8, a space and any text.
fn call(alloc: Global, line: &[u8]) -> Result<Option<Asked>, NoMemory>
    ensures { IfOk result (λ o. option_map call_by o ≡ call_at line.now) }
{
    match line {
        [session, space, more @ ..] => {
            if *space != b' ' || *session < b'1' || b'8' < *session {
                return Ok(None);
            }
            match str::from_utf8(more) {
                Ok(text) => {
                    let text = Text::read(alloc, text)?;
                    Ok(Some(Asked {
                        session: *session - b'0',
                        text,
                    }))
                }
                Err(_) => Ok(None),
            }
        }
        _ => Ok(None),
    }
}

/// `= ` and a reply.
fn answer(alloc: Global, line: &[u8]) -> Result<Option<Reply>, NoMemory>
    ensures { IfOk result (λ o. o ≡ answer_at line.now) }
{
    match line {
        [b'=', b' ', text @ ..] => reply(alloc, text),
        _ => Ok(None),
    }
}

/// The entry of a call, whose line has this number, and of the answer at the front of the bytes behind it.
fn answered<'a>(
    alloc: Global,
    asked: Asked,
    bytes: &'a [u8],
    line: u32,
) -> Result<Front<'a>, NoMemory>
    requires { line < 4294967295 }
    ensures { IfOk result (λ front. Fronts bytes.now line (answered_at line (call_by asked) bytes.now) front) }
{
    let (text, more) = cut_at(b'\n', bytes);
    match more {
        Some(rest) => match answer(alloc, text)? {
            Some(reply) => Ok(Front::Entry(
                Entry {
                    session: asked.session,
                    phase: 1,
                    text: asked.text,
                    reply,
                },
                rest,
            )),
            None => Ok(Front::Bad(line + 1)),
        },
        None => Ok(Front::Bad(line + 1)),
    }
}

/// The entry at the front of bytes, of which the first line has this number.
fn first_entry<'a>(alloc: Global, bytes: &'a [u8], line: u32) -> Result<Front<'a>, NoMemory>
    requires some { 0 < length bytes.now }
    requires fits { line < 4294967295 }
    ensures { IfOk result (λ front. Fronts bytes.now line (read_from line bytes.now) front) }
{
    let (text, more) = cut_at(b'\n', bytes);
    match more {
        Some(behind) => match call(alloc, text)? {
            Some(asked) => answered(alloc, asked, behind, line),
            None => Ok(Front::Bad(line)),
        },
        None => Ok(Front::Bad(line)),
    }
}

/// The entries of which the bytes are the transcript; or the first line with which none begins.
pub fn read_text(alloc: Global, bytes: &[u8]) -> Result<TextRead, NoMemory>
    requires { length bytes.now ≤ 268435456 }
    ensures { IfOk result (λ read. Tells bytes.now read) }
{
    let mut entries = Vec::new(alloc);
    let mut left = bytes;
    let mut line = 1;
    'entries: while !left.is_empty() {
        match first_entry(alloc, left, line)? {
            Front::Entry(entry, behind) => {
                entries.push(entry)?;
                left = behind;
                line += 2;
            }
            Front::Bad(line) => return Ok(TextRead::Bad { line }),
        }
    }
    Ok(TextRead::Entries(entries))
}
