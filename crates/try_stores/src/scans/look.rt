//! What the scans give at a snapshot of a loaded store.
ghost use Rattle.std.specs.Prelude.{◌≡◌, IfOk, true};
ghost use Rattle.rv_value.specs.declared.value.Value.TheVariants.{Int};
ghost use Rattle.rv_restrict.specs.declared.atom.Atom.TheVariants.{Compare};
ghost use Rattle.rv_restrict.specs.declared.atom.Op.TheVariants.{Ge};
ghost use Rattle.rv_restrict.specs.declared.atom.Operand.TheVariants.{Literal};
ghost use Rattle.rv_scan.specs.Due.{IsReady, skipped};
ghost use Rattle.try_stores.specs.Scanning.{IsOver, IsWhole, Stands};

use crate::scans::drive::{by_fetches, by_keys, by_pages};
use rv_judge::{Steps, Uncounted};
use rv_loading::Loaded;
use rv_reader::{Reader, Store};
use rv_restrict::{Atom, ColRef, Op, Operand, Restriction};
use rv_scan::Skip;
use rv_value::{NoMemory, Record, Value};
use std::alloc::Global;

/// Whether the table of two columns, its index and the snapshot are there.
pub fn is_whole(loaded: &Loaded) -> bool
    ensures { result ≡ true → IsWhole loaded.now }
{
    if loaded.layout.tables == 0 || loaded.layout.indexes == 0 || loaded.schema.width != 2 {
        return false;
    }
    if loaded.schema.columns_of(0).len() < 2 {
        return false;
    }
    if loaded.layout.horizon > loaded.snap {
        return false;
    }
    loaded.snap <= loaded.layout.newest
}

/// What each scan gives, in its order.
#[derive(Drop, PartialEq, Eq)]
pub struct Given {
    pub by_pages: Vec<Record>,
    pub by_keys: Vec<Record>,
    pub by_fetches: Vec<Record>,
}

fn at_least(column: u32, number: i64) -> Atom
    ensures { result ≡ Compare (record { place = 0; column = column }) Ge (Literal (Int number)) }
{
    Atom::Compare {
        column: ColRef { place: 0, column },
        op: Op::Ge,
        operand: Operand::Literal(Value::Int(number)),
    }
}

/// The second value is at least 2 and the first at least 20.
fn wanted(alloc: Global) -> Result<Restriction, NoMemory>
    ensures { IfOk result IsOver }
{
    let second = vec![in alloc; at_least(1, 2)]?;
    let first = vec![in alloc; at_least(0, 20)]?;
    let groups = vec![in alloc; second, first]?;
    Ok(Restriction::from_groups(groups))
}

/// The rows that a scan of the table's pages gives.
pub fn look_by_pages<S: Store>(
    alloc: Global,
    store: &S,
    loaded: &Loaded,
    only: &Restriction,
    skip: &Skip<'_>,
    steps: &mut Steps<S::Ledger>,
) -> Result<Vec<Record>, NoMemory>
    requires stands { Stands loaded.now (S.shown store.now) }
    requires over { IsOver only.now }
    requires ready { IsReady (skipped skip.now) }
{
    by_pages(alloc, store, 0, loaded.snap, only, skip, steps)
}

/// The rows that a scan of an index gives by its entries alone.
pub fn look_by_keys<S: Store>(
    alloc: Global,
    store: &S,
    loaded: &Loaded,
    only: &Restriction,
    skip: &Skip<'_>,
    steps: &mut Steps<S::Ledger>,
) -> Result<Vec<Record>, NoMemory>
    requires stands { Stands loaded.now (S.shown store.now) }
    requires over { IsOver only.now }
    requires ready { IsReady (skipped skip.now) }
{
    let range = only.range_for(alloc, &[1, 0])?;
    by_keys(
        alloc,
        store,
        0,
        loaded.snap,
        range,
        &[1, 0],
        only,
        skip,
        steps,
    )
}

/// The rows that a scan of an index gives by the records that its entries name.
pub fn look_by_fetches<S: Store>(
    alloc: Global,
    store: &S,
    loaded: &Loaded,
    only: &Restriction,
    skip: &Skip<'_>,
    steps: &mut Steps<S::Ledger>,
) -> Result<Vec<Record>, NoMemory>
    requires stands { Stands loaded.now (S.shown store.now) }
    requires over { IsOver only.now }
    requires ready { IsReady (skipped skip.now) }
{
    let range = only.range_for(alloc, &[1, 0])?;
    by_fetches(alloc, store, 0, 0, loaded.snap, range, only, skip, steps)
}

fn look_once<S: Store + Reader<Ledger = Uncounted>>(
    alloc: Global,
    store: &S,
    loaded: &Loaded,
    skip: &Skip<'_>,
) -> Result<Given, NoMemory>
    requires stands { Stands loaded.now (S.shown store.now) }
    requires ready { IsReady (skipped skip.now) }
{
    let only = wanted(alloc)?;
    let mut steps = Steps::new(Uncounted);
    let by_pages = look_by_pages(alloc, store, loaded, &only, skip, &mut steps)?;
    let by_keys = look_by_keys(alloc, store, loaded, &only, skip, &mut steps)?;
    let by_fetches = look_by_fetches(alloc, store, loaded, &only, skip, &mut steps)?;
    Ok(Given {
        by_pages,
        by_keys,
        by_fetches,
    })
}

/// What the scans give; where a read is refused, all is read again once.
pub fn look<S: Store + Reader<Ledger = Uncounted>>(
    alloc: Global,
    store: &S,
    loaded: &Loaded,
    skip: &Skip<'_>,
) -> Result<Given, NoMemory>
    requires stands { Stands loaded.now (S.shown store.now) }
    requires ready { IsReady (skipped skip.now) }
{
    match look_once(alloc, store, loaded, skip) {
        Ok(given) => Ok(given),
        Err(_refused) => look_once(alloc, store, loaded, skip),
    }
}
