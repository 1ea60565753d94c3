//! What a history comes to.
ghost use Rattle.std.specs.Prelude.{◌≡◌, Ok};
ghost use Rattle.rv_io.specs.Pieces.{Goes};
ghost use Rattle.rv_gen.specs.Summary.{IsSmall, is_commit, is_end, is_refusal, is_row, one_if, summary, summary_line, summary_text, with_reply};

use rv_io::{Failed, Sink, write_next};
use rv_model::{Entry, Reply};
use rv_script::transcript::write_number;

/// Counts of a history: its entries, and those of them that gave a row, the end of a cursor, a
/// commit or a refusal.
#[derive(Clone, Copy, PartialEq, Eq)]
pub struct Summary {
    pub calls: u64,
    pub rows: u64,
    pub ends: u64,
    pub commits: u64,
    pub refused: u64,
}

/// The summary of a history, which a run with `--gen` writes: how many calls, rows, ends, commits and refusals there
/// were.
pub fn summary_of(entries: &[Entry]) -> Summary
    ensures { result ≡ summary entries.now }
{
    let mut summary = Summary {
        calls: 0,
        rows: 0,
        ends: 0,
        commits: 0,
        refused: 0,
    };
    'entries: for entry in entries {
        summary = with_reply(summary, &entry.reply);
    }
    summary
}

/// The summary with one entry more, which has this reply.
fn with_reply(summary: Summary, reply: &Reply) -> Summary
    requires { IsSmall summary }
    ensures { result ≡ with_reply summary reply.now }
{
    Summary {
        calls: summary.calls + 1,
        rows: summary.rows + one_if(is_row(reply)),
        ends: summary.ends + one_if(is_end(reply)),
        commits: summary.commits + one_if(is_commit(reply)),
        refused: summary.refused + one_if(is_refusal(reply)),
    }
}

fn one_if(such: bool) -> u64
    ensures { result ≡ one_if such }
{
    if such { 1 } else { 0 }
}

#[tactic(auto, unfolding(crate::specs::Summary::is_row))]
fn is_row(reply: &Reply) -> bool
    ensures { result ≡ is_row reply.now }
{
    matches!(reply, Reply::Row(_))
}

#[tactic(auto, unfolding(crate::specs::Summary::is_end))]
fn is_end(reply: &Reply) -> bool
    ensures { result ≡ is_end reply.now }
{
    matches!(reply, Reply::End)
}

#[tactic(auto, unfolding(crate::specs::Summary::is_commit))]
fn is_commit(reply: &Reply) -> bool
    ensures { result ≡ is_commit reply.now }
{
    matches!(reply, Reply::Committed(_))
}

#[tactic(auto, unfolding(crate::specs::Summary::is_refusal))]
fn is_refusal(reply: &Reply) -> bool
    ensures { result ≡ is_refusal reply.now }
{
    matches!(reply, Reply::Refused(_))
}

/// Appends the summary's five lines. After a write that failed there is no further one.
pub fn write_summary<K: Sink>(sink: &mut K, summary: &Summary) -> Result<(), Failed>
    ensures { Goes (Ok tt) (K.written sink.old) (K.written sink.new) (K.faults sink.old) (K.faults sink.new) result (summary_text summary.now) }
{
    let calls = write_count(sink, Ok(()), b"calls ", summary.calls);
    let rows = write_count(sink, calls, b"rows ", summary.rows);
    let ends = write_count(sink, rows, b"ends ", summary.ends);
    let commits = write_count(sink, ends, b"commits ", summary.commits);
    write_count(sink, commits, b"refused ", summary.refused)
}

/// A line of a word and a count.
fn write_count<K: Sink>(
    sink: &mut K,
    sofar: Result<(), Failed>,
    word: &[u8],
    count: u64,
) -> Result<(), Failed>
    ensures { Goes sofar (K.written sink.old) (K.written sink.new) (K.faults sink.old) (K.faults sink.new) result (summary_line word.now count) }
{
    let number = write_number(sink, sofar, word, count);
    write_next(sink, number, b"\n")
}
