//! How the lists of an index are kept up to date while a transaction changes rows.
ghost use Rattle.std.specs.Prelude.{◌≡◌, [], IfOk, OnOk};
ghost use Rattle.std.specs.Option.{option_copied};
ghost use Rattle.rv_overlay.specs.Keeping.{are_same, moved, with_some, without_some};

use crate::frozen::Part;
use rv_blocks::Blocks;
use rv_value::{IndexEntry, NoMemory, cmp_entry};
use std::alloc::Global;
use std::cmp::Ordering;

impl Part {
    /// Nothing taken and nothing added of an index whose keys have so many values. It takes no memory.
    pub fn new(alloc: Global, width: u32) -> Part
        ensures { result ≡ record { width = width; taken = []; added = [] } }
    {
        Part {
            width,
            taken: Blocks::new(alloc),
            added: Blocks::new(alloc),
        }
    }

    /// Brings the lists up to date with a change of one row. `base` is the row's entry at the base, `old` its entry
    /// before the change and `new` the one after it, each None where there was no row. On `NoMemory` the lists may stand
    /// in between: whoever holds them lets them go.
    pub fn change(
        &mut self,
        base: Option<IndexEntry>,
        old: Option<IndexEntry>,
        new: Option<IndexEntry>,
    ) -> Result<(), NoMemory>
        ensures { OnOk result (self.new ≡ moved base old new self.old) }
    {
        let same = are_same(base.as_ref(), new.as_ref());
        take(&mut self.added, old.as_ref())?;
        if same {
            take(&mut self.taken, base.as_ref())
        } else {
            put(&mut self.added, new)?;
            put(&mut self.taken, base)
        }
    }

    /// Equal lists that share the blocks.
    pub fn share(&self) -> Result<Part, NoMemory>
        ensures { IfOk result (λ shared. shared ≡ self.now) }
    {
        Ok(Part {
            width: self.width,
            taken: self.taken.share()?,
            added: self.added.share()?,
        })
    }
}

fn are_same(a: Option<&IndexEntry>, b: Option<&IndexEntry>) -> bool
    ensures { result ≡ are_same (option_copied a.entry) (option_copied b.entry) }
{
    match (a, b) {
        (None, _) => false,
        (Some(_a), None) => false,
        (Some(a), Some(b)) => cmp_entry(a, b) == Ordering::Equal,
    }
}

/// Puts an entry in its place, where there is one.
fn put(entries: &mut Blocks<IndexEntry>, entry: Option<IndexEntry>) -> Result<(), NoMemory>
    ensures { OnOk result (entries.new ≡ with_some entry entries.old) }
{
    if let Some(entry) = entry {
        entries.put(entry)?;
    }
    Ok(())
}

/// Takes an entry out, where there is one.
fn take(entries: &mut Blocks<IndexEntry>, entry: Option<&IndexEntry>) -> Result<(), NoMemory>
    ensures { OnOk result (entries.new ≡ without_some (option_copied entry.entry) entries.old) }
{
    if let Some(entry) = entry {
        entries.take_out(entry)?;
    }
    Ok(())
}
