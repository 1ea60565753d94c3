ghost use Rattle.std.specs.Prelude.{◌≡◌, ◌++◌, ◌∷◌, [], codes, decimal, Ok};
ghost use Rattle.rv_io.specs.Pieces.{Goes};
ghost use Rattle.rv_model.specs.Transcript.{text, entry_text, reply_text, refusal_text, rival_text, limit_word};

use crate::packing::{PACKED, pack_entry};
use crate::traces::write_trace;
use crate::values::write_row;
use arrayvec::ArrayVec;
use itoa::Buffer;
use rv_io::{Failed, Sink, write_next};
use rv_model::{Entry, Refusal, Reply, Rival, Which, limit_word};

/// Appends the transcript of entries: two lines for each, the session's number, a space and the text as
/// given, then `= ` and the text of the reply. Each entry takes at least one write. After a write that
/// failed there is no further one.
pub fn write_text<K: Sink>(sink: &mut K, entries: &[Entry]) -> Result<(), Failed>
    ensures { Goes (Ok tt) (K.written sink.old) (K.written sink.new) (K.faults sink.old) (K.faults sink.new) result (text entries.now) }
{
    let mut packed = ArrayVec::new();
    let mut sofar = Ok(());
    'entries: for entry in entries {
        sofar = write_entry(sink, sofar, entry, &mut packed);
    }
    sofar
}

/// An entry's two lines, at once where they can be put together in the room for that.
fn write_entry<K: Sink>(
    sink: &mut K,
    sofar: Result<(), Failed>,
    entry: &Entry,
    packed: &mut ArrayVec<u8, PACKED>,
) -> Result<(), Failed>
    ensures { Goes sofar (K.written sink.old) (K.written sink.new) (K.faults sink.old) (K.faults sink.new) result (entry_text entry.now) }
{
    if pack_entry(packed, entry) {
        write_next(sink, sofar, packed.as_slice())
    } else {
        write_pieces(sink, sofar, entry)
    }
}

/// An entry's two lines, piece by piece.
fn write_pieces<K: Sink>(
    sink: &mut K,
    sofar: Result<(), Failed>,
    entry: &Entry,
) -> Result<(), Failed>
    ensures { Goes sofar (K.written sink.old) (K.written sink.new) (K.faults sink.old) (K.faults sink.new) result (entry_text entry.now) }
{
    let mut digits = Buffer::new();
    let session = write_next(sink, sofar, digits.format(entry.session).as_bytes());
    let space = write_next(sink, session, b" ");
    let asked = write_next(sink, space, entry.text.as_str().as_bytes());
    let sign = write_next(sink, asked, b"\n= ");
    let reply = write_reply(sink, sign, &entry.reply);
    write_next(sink, reply, b"\n")
}

/// Writes two pieces, one behind the other; nothing more is written where something has failed so far.
pub fn write_two<K: Sink>(
    sink: &mut K,
    sofar: Result<(), Failed>,
    first: &[u8],
    second: &[u8],
) -> Result<(), Failed>
    ensures { Goes sofar (K.written sink.old) (K.written sink.new) (K.faults sink.old) (K.faults sink.new) result (first.now ++ second.now) }
{
    let front = write_next(sink, sofar, first);
    write_next(sink, front, second)
}

/// Writes a word and behind it a number in decimal digits, in one piece each.
pub fn write_number<K: Sink>(
    sink: &mut K,
    sofar: Result<(), Failed>,
    word: &[u8],
    number: u64,
) -> Result<(), Failed>
    ensures { Goes sofar (K.written sink.old) (K.written sink.new) (K.faults sink.old) (K.faults sink.new) result (word.now ++ decimal number) }
{
    let mut digits = Buffer::new();
    write_two(sink, sofar, word, digits.format(number).as_bytes())
}

/// A reply's text.
fn write_reply<K: Sink>(
    sink: &mut K,
    sofar: Result<(), Failed>,
    reply: &Reply,
) -> Result<(), Failed>
    ensures { Goes sofar (K.written sink.old) (K.written sink.new) (K.faults sink.old) (K.faults sink.new) result (reply_text reply.now) }
{
    match reply {
        Reply::Created => write_next(sink, sofar, b"created"),
        Reply::Began(number) => write_number(sink, sofar, b"began ", *number),
        Reply::Inserted(row) => write_number(sink, sofar, b"inserted ", row.0),
        Reply::Touched(count) => write_number(sink, sofar, b"touched ", *count),
        Reply::Committed(number) => write_number(sink, sofar, b"committed ", *number),
        Reply::RolledBack => write_next(sink, sofar, b"rolled back"),
        Reply::Opened => write_next(sink, sofar, b"opened"),
        Reply::Row(values) => write_row(sink, sofar, values),
        Reply::End => write_next(sink, sofar, b"end"),
        Reply::Closed => write_next(sink, sofar, b"closed"),
        Reply::Stepped(count) => write_number(sink, sofar, b"stepped ", *count),
        Reply::Trace(shown) => write_trace(sink, sofar, shown.get()),
        Reply::Refused(refusal) => write_refusal(sink, sofar, refusal.get()),
    }
}

/// A refusal's text.
fn write_refusal<K: Sink>(
    sink: &mut K,
    sofar: Result<(), Failed>,
    refusal: &Refusal,
) -> Result<(), Failed>
    ensures { Goes sofar (K.written sink.old) (K.written sink.new) (K.faults sink.old) (K.faults sink.new) result (refusal_text refusal.now) }
{
    match refusal {
        Refusal::Syntax => write_next(sink, sofar, b"syntax"),
        Refusal::Unknown(name) => write_two(sink, sofar, b"unknown ", name.as_str().as_bytes()),
        Refusal::Exists(name) => write_two(sink, sofar, b"exists ", name.as_str().as_bytes()),
        Refusal::Kind(name) => write_two(sink, sofar, b"kind ", name.as_str().as_bytes()),
        Refusal::Active(txn) => write_number(sink, sofar, b"active ", *txn),
        Refusal::NoTransaction => write_next(sink, sofar, b"no transaction"),
        Refusal::Busy(txn) => write_number(sink, sofar, b"busy ", *txn),
        Refusal::ReadOnly => write_next(sink, sofar, b"read only"),
        Refusal::Changed { row, commit } => write_by(sink, sofar, b"changed ", row.0, *commit),
        Refusal::Held { row, txn } => write_by(sink, sofar, b"held ", row.0, *txn),
        Refusal::NoCursor(name) => write_two(sink, sofar, b"no cursor ", name.as_str().as_bytes()),
        Refusal::CursorOpen(name) => {
            write_two(sink, sofar, b"cursor open ", name.as_str().as_bytes())
        }
        Refusal::Limit { which, number } => write_limit(sink, sofar, *which, *number),
        Refusal::Duplicate { row, by } => write_duplicate(sink, sofar, row.0, *by),
    }
}

/// A word, a number, ` by ` and another number.
fn write_by<K: Sink>(
    sink: &mut K,
    sofar: Result<(), Failed>,
    word: &[u8],
    first: u64,
    second: u64,
) -> Result<(), Failed>
    ensures { Goes sofar (K.written sink.old) (K.written sink.new) (K.faults sink.old) (K.faults sink.new) result (word.now ++ decimal first ++ codes " by " ++ decimal second) }
{
    let front = write_number(sink, sofar, word, first);
    write_number(sink, front, b" by ", second)
}

fn write_limit<K: Sink>(
    sink: &mut K,
    sofar: Result<(), Failed>,
    which: Which,
    number: u64,
) -> Result<(), Failed>
    ensures { Goes sofar (K.written sink.old) (K.written sink.new) (K.faults sink.old) (K.faults sink.new) result (codes "limit " ++ limit_word which ++ 32 ∷ decimal number) }
{
    let front = write_two(sink, sofar, b"limit ", limit_word(which));
    write_number(sink, front, b" ", number)
}

/// A row, and where it was found.
fn write_duplicate<K: Sink>(
    sink: &mut K,
    sofar: Result<(), Failed>,
    row: u64,
    by: Rival,
) -> Result<(), Failed>
    ensures { Goes sofar (K.written sink.old) (K.written sink.new) (K.faults sink.old) (K.faults sink.new) result (codes "duplicate " ++ decimal row ++ rival_text by) }
{
    let front = write_number(sink, sofar, b"duplicate ", row);
    write_rival(sink, front, by)
}

/// Nothing for a rival in the transaction's own view, else its commit or its transaction.
fn write_rival<K: Sink>(sink: &mut K, sofar: Result<(), Failed>, by: Rival) -> Result<(), Failed>
    ensures { Goes sofar (K.written sink.old) (K.written sink.new) (K.faults sink.old) (K.faults sink.new) result (rival_text by) }
{
    match by {
        Rival::View => sofar,
        Rival::Commit(commit) => write_number(sink, sofar, b" by commit ", commit),
        Rival::Txn(txn) => write_number(sink, sofar, b" by txn ", txn),
    }
}
