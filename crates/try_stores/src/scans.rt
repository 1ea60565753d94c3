//! Drives each scan to its end over a plain store of eighty rows, at three snapshots, and tells what it gives; then it
//! refuses each single call from the first to the sixtieth while the store is loaded and read, and tells whether the
//! scans give the same. The file `stdout` has what tools/tables/try_scans.py finds by the rules in words.
ghost use Rattle.std.specs.Prelude.{IfOk};
ghost use Rattle.rv_loading.specs.Laid.{IsEmpty, Laid};
ghost use Rattle.rv_plain.specs.Kept as plain;

mod drive;
mod given;
mod load;
mod look;

use crate::scans::given::tell_at;
use crate::scans::load::load;
use crate::scans::look::{Given, is_whole, look};
use crate::told::Told;
use rv_judge::Uncounted;
use rv_loading::{Fault, Loaded, may_read, sweep};
use rv_plain::{Plain, Refusing};
use rv_reader::{Reader, Store};
use rv_scan::Skip;
use rv_value::NoMemory;
use std::alloc::Global;

/// The lines of the snapshot before the last commit, of the last one, and of the last one when no other is left.
fn tell_snapshots<S: Store + Reader<Ledger = Uncounted>>(
    alloc: Global,
    told: &mut Told,
    store: &mut S,
) -> Result<(), Fault>
    requires { IsEmpty (S.shown store.old) }
{
    let mut loaded = load(alloc, store)?;
    let done = tell_each(alloc, told, store, &mut loaded);
    drop(loaded);
    done
}

fn tell_each<S: Store + Reader<Ledger = Uncounted>>(
    alloc: Global,
    told: &mut Told,
    store: &mut S,
    loaded: &mut Loaded,
) -> Result<(), Fault>
    requires { Laid loaded.old.schema loaded.old.layout (S.shown store.old) }
{
    tell_at(alloc, told, store, loaded, "before")?;
    let last = loaded.layout.newest;
    loaded.snap = last;
    tell_at(alloc, told, store, loaded, "after")?;
    if loaded.layout.horizon <= last {
        loaded.layout = sweep(&loaded.schema, store, loaded.layout, last);
    }
    tell_at(alloc, told, store, loaded, "swept")
}

/// What the scans give at the last snapshot of a store that was loaded.
fn look_last<S: Store + Reader<Ledger = Uncounted>>(
    alloc: Global,
    store: &S,
    loaded: &Loaded,
) -> Result<Given, Fault>
    requires { Laid loaded.now.schema loaded.now.layout (S.shown store.now) }
{
    let skip = Skip {
        delivered: None,
        list: None,
    };
    if is_whole(loaded) {
        may_read(&loaded.schema, store, loaded.layout, loaded.snap);
        return Ok(look(alloc, store, loaded, &skip)?);
    }
    Err(Fault::Form)
}

fn look_loaded<S: Store + Reader<Ledger = Uncounted>>(
    alloc: Global,
    store: &mut S,
) -> Result<Given, Fault>
    requires { IsEmpty (S.shown store.old) }
{
    let mut loaded = load(alloc, store)?;
    loaded.snap = loaded.layout.newest;
    let given = look_last(alloc, store, &loaded);
    drop(loaded);
    given
}

fn is_same(given: &Result<Given, Fault>, expected: &Given) -> Result<bool, Fault> {
    match given {
        Ok(given) => Ok(*given == *expected),
        Err(fault) => Err(*fault),
    }
}

/// A store that refuses the call of a number.
fn refusing(alloc: Global, number: u32) -> Result<Refusing<Plain>, NoMemory>
    ensures { IfOk result (λ store. IsEmpty (plain.shown_of store)) }
{
    let mut fails = Vec::new(alloc);
    fails.push(number)?;
    Ok(Refusing::new(Plain::new(alloc)?, fails))
}

/// Tells how many calls were refused, and whether the scans give the same.
fn tell_refused(
    alloc: Global,
    told: &mut Told,
    number: u32,
    expected: &Given,
) -> Result<(), Fault> {
    let mut store = refusing(alloc, number)?;
    let given = look_loaded(alloc, &mut store);
    told.with("refused ", u64::from(number));
    told.with(": ", u64::from(store.refused()));
    drop(store);
    let same = is_same(&given, expected);
    drop(given);
    told.word(if same? {
        " call, the same lists\n"
    } else {
        " call, other lists\n"
    });
    Ok(())
}

/// What the scans give where no call is refused.
fn expected(alloc: Global) -> Result<Given, Fault> {
    let mut store = Plain::new(alloc)?;
    let given = look_loaded(alloc, &mut store);
    drop(store);
    given
}

fn tell_all_refused(alloc: Global, told: &mut Told, expected: &Given) -> Result<(), Fault> {
    'numbers: for number in 1..=60 {
        tell_refused(alloc, told, number, expected)?;
    }
    Ok(())
}

fn tell_refusals(alloc: Global, told: &mut Told) -> Result<(), Fault> {
    let expected = expected(alloc)?;
    let done = tell_all_refused(alloc, told, &expected);
    drop(expected);
    done
}

fn tell_plain(alloc: Global, told: &mut Told) -> Result<(), Fault> {
    let mut store = Plain::new(alloc)?;
    let done = tell_snapshots(alloc, told, &mut store);
    drop(store);
    done
}

/// Tells all lines of this part of the program.
pub fn tell(alloc: Global, told: &mut Told) -> Result<(), Fault> {
    tell_plain(alloc, told)?;
    tell_refusals(alloc, told)
}
