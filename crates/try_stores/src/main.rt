//! Tries stores by hand and what reads them: lines say of rows, changes, versions, pages, nodes, key lists and the set of delivered
//! rows what is done, and behind these come trees, two stores beside each other, scans, pieces, and views of a transaction. The
//! file `stdout` has what tools/tables/try_stores.py finds by the rules in words.
#![tactic(auto)]

mod changes;
mod delivered;
mod keylists;
mod list;
mod nodes;
mod paged;
mod pieces;
mod records;
mod rows;
mod scans;
mod told;
mod trees;
mod values;
mod versions;
mod views;
mod words;

use crate::told::Told;
use rv_loading::{Fault, told_or_fault};
use std::alloc::Global;
use std::io;

/// Tells what the words of a line find.
fn answer(alloc: Global, told: &mut Told, line: &str) -> Result<(), Fault> {
    let (word, text) = line.split_once(": ").ok_or(Fault::Form)?;
    match word {
        "rows" => rows::tell(alloc, told, text),
        "changes" => changes::tell(alloc, told, text),
        "versions" => versions::tell(alloc, told, text),
        "records" => records::tell(alloc, told, text),
        "children" => nodes::tell_children(alloc, told, text),
        "leaf" => nodes::tell_leaf(alloc, told, text),
        "list" => keylists::tell(alloc, told, text),
        "probes" => keylists::tell_probes(alloc, told, text),
        "delivered" => delivered::tell(alloc, told, text),
        _ => Err(Fault::Form),
    }
}

fn answered(alloc: Global, line: &str) -> Result<String, Fault> {
    let mut told = Told::new(alloc);
    let done = answer(alloc, &mut told, line);
    told.finish(done)
}

fn tell_lines(rt: &HostRuntime) -> io::Result<()> {
    'lines: for line in rt.lines(rt.alloc()) {
        let line = line?;
        let told = answered(rt.alloc(), line.as_str());
        println!(rt; "{};{}", line.as_str(), told_or_fault(&told))?;
    }
    Ok(())
}

/// Tells the parts that stand behind the lines.
fn tell_parts(alloc: Global, told: &mut Told) -> Result<(), Fault> {
    trees::tell(alloc, told)?;
    paged::tell(alloc, told)?;
    scans::tell(alloc, told)?;
    pieces::tell(alloc, told)?;
    views::tell(alloc, told)
}

fn parts(alloc: Global) -> Result<String, Fault> {
    let mut told = Told::new(alloc);
    let done = tell_parts(alloc, &mut told);
    told.finish(done)
}

fn main(rt: HostRuntime) -> io::Result<()> {
    tell_lines(&rt)?;
    let told = parts(rt.alloc());
    print!(rt; "{}", told_or_fault(&told))
}
