//! Replies, read.
ghost use Rattle.std.specs.Prelude.{◌≡◌, Some, None, IfOk, bytes_eq, codes, find, option_map};
ghost use Rattle.std.specs.Option.{option_copied};
ghost use Rattle.rv_lang.specs.declared.reply.Reply.TheVariants.{Refused};
ghost use Rattle.rv_model.specs.Transcript.{limit_word};
ghost use Rattle.rv_text.specs.Pairs.{duplicate_by, limit_by, pair_by};
ghost use Rattle.rv_text.specs.Replies.{after, duplicate_at, limit_at, lone_at, named_at, name_behind, numbered_at, number_behind, paired_at, pair_at, read_behind, reply_at, rival_at, row_at, shown_at};

use crate::cuts::{after, cut_at};
use crate::traces::{name, trace};
use crate::values::{number, values};
use rv_model::{Refusal, Reply, Rival, Which, limit_word};
use rv_value::{NoMemory, RowNo, Shared, Text};
use std::alloc::Global;

const LIMITS: [Which; 16] = [
    Which::Name,
    Which::Text,
    Which::Columns,
    Which::Key,
    Which::List,
    Which::Atoms,
    Which::Groups,
    Which::Joined,
    Which::Returned,
    Which::Order,
    Which::Steps,
    Which::Tables,
    Which::Indexes,
    Which::Cursors,
    Which::Rows,
    Which::Pending,
];

/// The first of these limits that is written so.
fn limit_among(limits: &[Which], word: &[u8]) -> Option<Which>
    ensures { result ≡ find (λ w. bytes_eq (limit_word w) word.now) limits.now }
{
    let mut rest = limits;
    'limits: while let [which, more @ ..] = rest {
        if limit_word(*which) == word {
            return Some(*which);
        }
        rest = more;
    }
    None
}

/// The number that stands behind a word.
fn number_behind(word: &[u8], text: &[u8]) -> Option<u64>
    ensures { result ≡ number_behind word.now text.now }
{
    match after(word, text) {
        Some(digits) => number(digits),
        None => None,
    }
}

/// The name that stands behind a word.
fn name_behind<'a>(word: &[u8], text: &'a [u8]) -> Option<&'a str>
    ensures { option_copied result ≡ name_behind word.now text.now }
{
    match after(word, text) {
        Some(rest) => name(rest),
        None => None,
    }
}

/// A refusal, as the reply that was read.
fn refused(alloc: Global, refusal: Refusal) -> Result<Option<Reply>, NoMemory>
    ensures { IfOk result (λ o. o ≡ Some (Refused refusal)) }
{
    let reply = Reply::refused(alloc, refusal)?;
    Ok(Some(reply))
}

/// A reply that is always the same words.
fn lone(alloc: Global, text: &[u8]) -> Result<Option<Reply>, NoMemory>
    ensures { IfOk result (λ o. o ≡ lone_at text.now) }
{
    if text == b"created".as_slice() {
        return Ok(Some(Reply::Created));
    }
    if text == b"rolled back".as_slice() {
        return Ok(Some(Reply::RolledBack));
    }
    if text == b"opened".as_slice() {
        return Ok(Some(Reply::Opened));
    }
    if text == b"end".as_slice() {
        return Ok(Some(Reply::End));
    }
    if text == b"closed".as_slice() {
        return Ok(Some(Reply::Closed));
    }
    if text == b"syntax".as_slice() {
        return refused(alloc, Refusal::Syntax);
    }
    if text == b"no transaction".as_slice() {
        return refused(alloc, Refusal::NoTransaction);
    }
    if text == b"read only".as_slice() {
        return refused(alloc, Refusal::ReadOnly);
    }
    Ok(None)
}

/// A reply of a word and a number.
fn numbered(alloc: Global, text: &[u8]) -> Result<Option<Reply>, NoMemory>
    ensures { IfOk result (λ o. o ≡ numbered_at text.now) }
{
    if let Some(number) = number_behind(b"began ", text) {
        return Ok(Some(Reply::Began(number)));
    }
    if let Some(row) = number_behind(b"inserted ", text) {
        return Ok(Some(Reply::Inserted(RowNo(row))));
    }
    if let Some(count) = number_behind(b"touched ", text) {
        return Ok(Some(Reply::Touched(count)));
    }
    if let Some(number) = number_behind(b"committed ", text) {
        return Ok(Some(Reply::Committed(number)));
    }
    if let Some(count) = number_behind(b"stepped ", text) {
        return Ok(Some(Reply::Stepped(count)));
    }
    if let Some(txn) = number_behind(b"active ", text) {
        return refused(alloc, Refusal::Active(txn));
    }
    if let Some(txn) = number_behind(b"busy ", text) {
        return refused(alloc, Refusal::Busy(txn));
    }
    Ok(None)
}

/// A refusal of words and a name.
fn named(alloc: Global, text: &[u8]) -> Result<Option<Reply>, NoMemory>
    ensures { IfOk result (λ o. o ≡ named_at text.now) }
{
    if let Some(name) = name_behind(b"unknown ", text) {
        let name = Text::read(alloc, name)?;
        return refused(alloc, Refusal::Unknown(name));
    }
    if let Some(name) = name_behind(b"exists ", text) {
        let name = Text::read(alloc, name)?;
        return refused(alloc, Refusal::Exists(name));
    }
    if let Some(name) = name_behind(b"kind ", text) {
        let name = Text::read(alloc, name)?;
        return refused(alloc, Refusal::Kind(name));
    }
    if let Some(name) = name_behind(b"no cursor ", text) {
        let name = Text::read(alloc, name)?;
        return refused(alloc, Refusal::NoCursor(name));
    }
    if let Some(name) = name_behind(b"cursor open ", text) {
        let name = Text::read(alloc, name)?;
        return refused(alloc, Refusal::CursorOpen(name));
    }
    Ok(None)
}

/// A number, ` by ` and a number.
fn pair(text: &[u8]) -> Option<(u64, u64)>
    ensures { option_map pair_by result ≡ pair_at text.now }
{
    let (first, more) = cut_at(b' ', text);
    match number(first) {
        Some(first) => match more {
            Some(behind) => match number_behind(b"by ", behind) {
                Some(second) => Some((first, second)),
                None => None,
            },
            None => None,
        },
        None => None,
    }
}

/// The word of a limit, a space and a number.
fn limit(text: &[u8]) -> Option<(Which, u64)>
    ensures { option_map limit_by result ≡ limit_at text.now }
{
    let (word, more) = cut_at(b' ', text);
    match limit_among(&LIMITS, word) {
        Some(which) => match more {
            Some(behind) => match number(behind) {
                Some(number) => Some((which, number)),
                None => None,
            },
            None => None,
        },
        None => None,
    }
}

/// The pair that stands behind a word.
fn pair_behind(word: &[u8], text: &[u8]) -> Option<(u64, u64)>
    ensures { option_map pair_by result ≡ read_behind (after word.now text.now) (λ rest. pair_at rest) }
{
    match after(word, text) {
        Some(rest) => pair(rest),
        None => None,
    }
}

/// The limit that stands behind its word.
fn limit_behind(text: &[u8]) -> Option<(Which, u64)>
    ensures { option_map limit_by result ≡ read_behind (after (codes "limit ") text.now) (λ rest. limit_at rest) }
{
    match after(b"limit ", text) {
        Some(rest) => limit(rest),
        None => None,
    }
}

/// Where a rival is: in the transaction's own view where nothing stands behind its row, else at a commit or among the
/// changes of a transaction.
fn rival(more: Option<&[u8]>) -> Option<Rival>
    ensures { result ≡ rival_at (option_copied more.entry) }
{
    match more {
        None => Some(Rival::View),
        Some(rest) => rival_behind(rest),
    }
}

/// A rival's commit, or its transaction.
fn rival_behind(rest: &[u8]) -> Option<Rival>
    ensures { result ≡ rival_at (Some rest.now) }
{
    if let Some(commit) = number_behind(b"by commit ", rest) {
        return Some(Rival::Commit(commit));
    }
    if let Some(txn) = number_behind(b"by txn ", rest) {
        return Some(Rival::Txn(txn));
    }
    None
}

/// A number, and where the rival of this row is.
fn duplicate(text: &[u8]) -> Option<(u64, Rival)>
    ensures { option_map duplicate_by result ≡ duplicate_at text.now }
{
    let (row, more) = cut_at(b' ', text);
    match number(row) {
        Some(row) => match rival(more) {
            Some(by) => Some((row, by)),
            None => None,
        },
        None => None,
    }
}

/// The row and the rival that stand behind the word for them.
fn duplicate_behind(text: &[u8]) -> Option<(u64, Rival)>
    ensures { option_map duplicate_by result ≡ read_behind (after (codes "duplicate ") text.now) (λ rest. duplicate_at rest) }
{
    match after(b"duplicate ", text) {
        Some(rest) => duplicate(rest),
        None => None,
    }
}

/// A refusal of a word and two things.
fn paired(alloc: Global, text: &[u8]) -> Result<Option<Reply>, NoMemory>
    ensures { IfOk result (λ o. o ≡ paired_at text.now) }
{
    if let Some((row, commit)) = pair_behind(b"changed ", text) {
        return refused(
            alloc,
            Refusal::Changed {
                row: RowNo(row),
                commit,
            },
        );
    }
    if let Some((row, txn)) = pair_behind(b"held ", text) {
        return refused(
            alloc,
            Refusal::Held {
                row: RowNo(row),
                txn,
            },
        );
    }
    if let Some((which, number)) = limit_behind(text) {
        return refused(alloc, Refusal::Limit { which, number });
    }
    if let Some((row, by)) = duplicate_behind(text) {
        return refused(
            alloc,
            Refusal::Duplicate {
                row: RowNo(row),
                by,
            },
        );
    }
    Ok(None)
}

/// A reply that is a row: `row ` and its values.
fn row(alloc: Global, text: &[u8]) -> Result<Option<Reply>, NoMemory>
    ensures { IfOk result (λ o. o ≡ row_at text.now) }
{
    match after(b"row ", text) {
        Some(rest) => match values(alloc, rest)? {
            Some(values) => Ok(Some(Reply::Row(values))),
            None => Ok(None),
        },
        None => Ok(None),
    }
}

/// A trace.
fn shown(alloc: Global, text: &[u8]) -> Result<Option<Reply>, NoMemory>
    ensures { IfOk result (λ o. o ≡ shown_at text.now) }
{
    match after(b"trace ", text) {
        Some(rest) => match trace(alloc, rest)? {
            Some(shown) => {
                let shared = Shared::new(alloc, shown)?;
                Ok(Some(Reply::Trace(shared)))
            }
            None => Ok(None),
        },
        None => Ok(None),
    }
}

/// The reply of which a text is the words; None where it is of none.
pub fn reply(alloc: Global, text: &[u8]) -> Result<Option<Reply>, NoMemory>
    ensures { IfOk result (λ o. o ≡ reply_at text.now) }
{
    if let Some(reply) = lone(alloc, text)? {
        return Ok(Some(reply));
    }
    if let Some(reply) = numbered(alloc, text)? {
        return Ok(Some(reply));
    }
    if let Some(reply) = row(alloc, text)? {
        return Ok(Some(reply));
    }
    if let Some(reply) = named(alloc, text)? {
        return Ok(Some(reply));
    }
    if let Some(reply) = paired(alloc, text)? {
        return Ok(Some(reply));
    }
    shown(alloc, text)
}
