//! UPDATE over a store that refuses calls: its rows are found by an index, and no page is read.
use crate::calls::{NO_MEMORY, ends_with, fill, leave, make_all};
use rv_core::Core;
use rv_judge::{Judge, Patient, Uncounted};
use rv_plain::{Plain, Refusing};
use rv_reader::{Reader, Store};
use rv_value::NoMemory;
use std::alloc::Global;
use std::test::Fail;

/// Whether an UPDATE of three of 1,100 rows tells that it changed three, and no call is made again.
fn updates<S: Store + Reader<Ledger = Uncounted> + Drop>(
    alloc: Global,
    core: &mut Core<S>,
) -> Result<bool, NoMemory> {
    let filled = fill(alloc, core, 1100)?;
    let calls = [
        "COMMIT",
        "BEGIN",
        "UPDATE T SET B = 1 WHERE A BETWEEN 20 AND 22",
    ];
    let again = make_all(core, &calls)?;
    let lines = "2 UPDATE T SET B = 1 WHERE A BETWEEN 20 AND 22\n= touched 3\n";
    let told = ends_with(alloc, core.history(), 1, lines)?;
    Ok(told && filled == 0 && again == 0)
}

/// Whether it does so over a store that refuses these calls.
fn updates_over(alloc: Global, fails: Vec<u32>) -> Result<bool, NoMemory> {
    let store = Refusing::new(Plain::new(alloc)?, fails);
    let judge: Box<dyn Judge> = Box::new(alloc, Patient::new())?;
    let mut core = Core::new(alloc, store, judge, false, 0);
    let updated = updates(alloc, &mut core);
    leave(core);
    updated
}

/// The calls that make the table, its index and the commit, and of each INSERT the one that looks for its row at the base,
/// are 1,103. The UPDATE reads a leaf, each of its rows where it is found, where it is changed, and where the view is kept
/// up: ten calls. Of the pages, which are thirty-five, it reads none: some call of them would be refused.
#[test]
fn an_update_by_an_index_reads_no_page(rt: HostRuntime) -> Result<(), Fail> {
    let alloc = rt.alloc();
    let mut fails = Vec::new(alloc);
    for call in 1124u32..1181 {
        fails.push(call)?;
    }
    assert!(rt; updates_over(alloc, fails).or(Err(NO_MEMORY))?);
    Ok(())
}
