//! What was frozen, as several may hold it.
ghost use Rattle.std.specs.Prelude.{◌≡◌, ◌<◌, [], IfOk, OnOk};
ghost use Rattle.std.specs.Arc.{arc_value};
ghost use Rattle.rv_rows.specs.Changes.{with_change};
ghost use Rattle.rv_reader.specs.Shown.{CanRead};
ghost use Rattle.rv_view.specs.Making.{AreIndexes, Keeps};

use crate::making::keep_change;
use rv_blocks::Blocks;
use rv_catalog::IndexDef;
use rv_judge::Uncounted;
use rv_overlay::{Frozen, Part};
use rv_reader::Reader;
use rv_rows::Change;
use rv_value::{Items, NoMemory};
use std::alloc::Global;
use std::marker::Model;
use std::mem;
use std::sync::Arc;

/// The view of a transaction as it stood once. The transaction shares it with whoever asked for it then (a cursor, a search, the
/// test of a unique index), until its next change.
#[derive(Drop)]
pub struct View {
    frozen: Arc<Frozen>,
}

impl Model for View {
    ghost use Rattle.std.specs.Arc.{arc_value};
    ghost use Rattle.rv_overlay.specs.declared.frozen.Frozen.{Frozen};

    ghost Value = { Frozen };

    ghost view = { λ v. arc_value v.frozen };
}

impl View {
    /// A view that nobody else holds.
    pub fn new(alloc: Global, frozen: Frozen) -> Result<View, NoMemory>
        ensures { IfOk result (λ view. view ≡ frozen) }
    {
        let frozen = Arc::new(alloc, frozen)?;
        Ok(View { frozen })
    }

    /// What was frozen.
    pub fn frozen(&self) -> &Frozen
        ensures { result.now ≡ self.now }
    {
        &self.frozen
    }

    /// The same view for one holder more. Nothing is copied.
    pub fn share(&self) -> Result<View, NoMemory>
        ensures { IfOk result (λ view. view ≡ self.now) }
    {
        let frozen = Arc::try_clone(&self.frozen)?;
        Ok(View { frozen })
    }

    /// Brings the view up to date with a change of one row. Where others hold it, they keep it as it is, and this one goes
    /// on with lists that share the blocks. On `NoMemory` it may stand in between: whoever holds it lets it go.
    pub fn keep<R: Reader<Ledger = Uncounted>>(
        &mut self,
        alloc: Global,
        written: &mut Blocks<Change>,
        reader: &R,
        indexes: &[IndexDef],
        change: &Change,
    ) -> Result<(), NoMemory>
        requires indexes { AreIndexes (R.shown reader.now) indexes.now }
        requires can { CanRead (R.shown reader.now) change.now.table self.old.base }
        requires low { change.now.row.0 < 4294967296 }
        requires keeps { Keeps (R.shown reader.now) self.old written.old }
        ensures keeps { OnOk result (Keeps (R.shown reader.now) self.new written.new) }
        ensures changes { OnOk result (self.new.changes ≡ with_change change.now self.old.changes) }
        ensures base { OnOk result (self.new.base ≡ self.old.base) }
    {
        keep_in(alloc, &mut self.frozen, written, reader, indexes, change)
    }
}

/// Equal lists that share the blocks.
fn share_frozen(alloc: Global, frozen: &Frozen) -> Result<Frozen, NoMemory>
    ensures { IfOk result (λ shared. shared ≡ frozen.now) }
{
    let parts = share_parts(alloc, frozen.parts.as_slice())?;
    let changes = match frozen.changes.share() {
        Ok(changes) => changes,
        Err(fault) => {
            drop(parts);
            return Err(fault);
        }
    };
    let sizes = match frozen.sizes.share() {
        Ok(sizes) => sizes,
        Err(fault) => {
            drop(parts);
            drop(changes);
            return Err(fault);
        }
    };
    Ok(Frozen {
        base: frozen.base,
        changes,
        sizes,
        parts: Items::from_vec(parts),
    })
}

fn share_parts(alloc: Global, parts: &[Part]) -> Result<Vec<Part>, NoMemory>
    ensures { IfOk result (λ shared. shared.items ≡ parts.now) }
{
    let mut shared = Vec::with_capacity(alloc, parts.len())?;
    match share_each(&mut shared, parts) {
        Ok(()) => Ok(shared),
        Err(fault) => {
            drop(shared);
            Err(fault)
        }
    }
}

/// Puts equal lists into a list that is empty.
fn share_each(shared: &mut Vec<Part>, parts: &[Part]) -> Result<(), NoMemory>
    requires { shared.old.items ≡ [] }
    ensures { OnOk result (shared.new.items ≡ parts.now) }
{
    'parts: for part in parts {
        shared.push(part.share()?)?;
    }
    Ok(())
}

fn keep_in<R: Reader<Ledger = Uncounted>>(
    alloc: Global,
    frozen: &mut Arc<Frozen>,
    written: &mut Blocks<Change>,
    reader: &R,
    indexes: &[IndexDef],
    change: &Change,
) -> Result<(), NoMemory>
    requires indexes { AreIndexes (R.shown reader.now) indexes.now }
    requires can { CanRead (R.shown reader.now) change.now.table (arc_value frozen.old).base }
    requires low { change.now.row.0 < 4294967296 }
    requires keeps { Keeps (R.shown reader.now) (arc_value frozen.old) written.old }
    ensures keeps { OnOk result (Keeps (R.shown reader.now) (arc_value frozen.new) written.new) }
    ensures changes { OnOk result ((arc_value frozen.new).changes ≡ with_change change.now (arc_value frozen.old).changes) }
    ensures base { OnOk result ((arc_value frozen.new).base ≡ (arc_value frozen.old).base) }
{
    match Arc::get_mut(frozen) {
        Some(own) => keep_change(alloc, own, written, reader, indexes, change),
        None => {
            let mut next = share_frozen(alloc, &**frozen)?;
            if let Err(fault) = keep_change(alloc, &mut next, written, reader, indexes, change) {
                drop(next);
                return Err(fault);
            }
            drop(mem::replace(frozen, Arc::new(alloc, next)?));
            Ok(())
        }
    }
}
