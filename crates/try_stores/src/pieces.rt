//! Drives joint scans over a plain store of eighty rows by a table: pieces are taken twice, given late, given twice,
//! given to another scan and never given. The file `stdout` has what tools/tables/try_pieces.py finds by the rules in words.
ghost use Rattle.rv_loading.specs.Laid.{IsEmpty};

mod acts;
mod joint;
mod lines;
mod load;
mod table;

use crate::pieces::load::load_rows;
use crate::pieces::table::tell_table;
use crate::told::Told;
use rv_judge::Uncounted;
use rv_loading::Fault;
use rv_plain::Plain;
use rv_reader::{Reader, Store};
use std::alloc::Global;

/// Tells the table over an empty store.
fn tell_over<S: Store + Reader<Ledger = Uncounted>>(
    alloc: Global,
    told: &mut Told,
    store: &mut S,
) -> Result<(), Fault>
    requires { IsEmpty (S.shown store.old) }
{
    let snap = load_rows(alloc, store, 80)?;
    Ok(tell_table(alloc, told, store, snap)?)
}

/// Tells all lines of this part of the program.
pub fn tell(alloc: Global, told: &mut Told) -> Result<(), Fault> {
    let mut store = Plain::new(alloc)?;
    let done = tell_over(alloc, told, &mut store);
    drop(store);
    done
}
