//! Entries, followed one after another.
ghost use Rattle.std.specs.Prelude.{◌≡◌, ◌≤◌, ◌↔◌, All, IfOk, IsTrue, length};
ghost use Rattle.rv_model.specs.Database.{empty};
ghost use Rattle.rv_model.specs.Standing.{HasRoom};
ghost use Rattle.rv_decide.specs.Naming.{AreNamedApart};
ghost use Rattle.rv_replay.specs.Judging.{JudgesEntry};
ghost use Rattle.rv_replay.specs.Replaying.{Tells};

use crate::plain::{PlainDatabase, judge};
use rv_model::Entry;
use rv_value::NoMemory;
use std::alloc::Global;

/// What a list of entries is.
#[derive(Clone, Copy, PartialEq, Eq)]
pub enum Replayed {
    /// A legal history of the one-thread database.
    Legal,
    /// No legal history; the entry of this number, from 1, is the first up to which it is none.
    Broken { entry: u64 },
}

/// Whether entries, whose texts have at most 4,096 bytes each, are a legal history of the one-thread database: each reply
/// is one that it may give where the entries before have been made. It costs what a run of the calls costs in which no OPEN
/// has an index: the rows of a FROM item are gone through once for each choice of the items before.
pub fn replay(alloc: Global, entries: &[Entry]) -> Result<Replayed, NoMemory>
    requires { All (λ e. length e.text ≤ 4096) entries.now }
    ensures { IfOk result (Tells entries.now) }
{
    let mut plain = PlainDatabase::new(alloc)?;
    let replayed = follow(alloc, &mut plain, entries);
    drop(plain);
    replayed
}

/// Whether each entry's text has at most 4,096 bytes.
pub fn are_short(entries: &[Entry]) -> bool
    ensures { IsTrue result ↔ All (λ e. length e.text ≤ 4096) entries.now }
{
    entries
        .iter()
        .all(|entry| entry.text.as_str().len() <= 4096)
}

/// Follows entries from the empty database on.
fn follow(alloc: Global, plain: &mut PlainDatabase, entries: &[Entry]) -> Result<Replayed, NoMemory>
    requires short { All (λ e. length e.text ≤ 4096) entries.now }
    requires fresh { plain.old ≡ empty }
    ensures { IfOk result (Tells entries.now) }
{
    let mut phase = 0;
    let mut number = 0u64;
    'entries: for entry in entries {
        number += 1;
        let follows = judge_entry(alloc, plain, phase, entry)?;
        if !follows {
            return Ok(Replayed::Broken { entry: number });
        }
        phase = entry.phase;
    }
    Ok(Replayed::Legal)
}

/// Whether an entry may follow. Where it may, the step is made.
fn judge_entry(
    alloc: Global,
    plain: &mut PlainDatabase,
    phase: u32,
    entry: &Entry,
) -> Result<bool, NoMemory>
    requires short { length entry.now.text ≤ 4096 }
    requires room { HasRoom plain.old }
    requires apart { AreNamedApart plain.old.schema.indexes }
    ensures { IfOk result (λ follows. JudgesEntry follows plain.old phase entry.now plain.new) }
{
    if entry.session < 1 || 8 < entry.session || entry.phase < phase {
        return Ok(false);
    }
    let allowed = judge(
        alloc,
        plain,
        entry.session,
        entry.text.as_str(),
        &entry.reply,
    )?;
    plain.sweep();
    Ok(allowed)
}
