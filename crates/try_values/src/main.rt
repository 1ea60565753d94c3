//! Reads lines, each a word, a colon and what it says of values, restrictions, texts to be cut or offers, and writes each
//! with what these answer. The file `stdout` has what tools/tables/try_values.py finds by the rules in words.
#![tactic(auto)]

mod alone;
mod fits;
mod items;
mod offers;
mod orders;
mod placing;
mod ranges;
mod tokens;

use rv_loading::{Fault, told_or_fault};
use std::alloc::Global;
use std::io;

/// What is found of ranges and restrictions.
fn answer_of_ranges(alloc: Global, word: &str, text: &str) -> Result<String, Fault> {
    match word {
        "row" => placing::told(alloc, text),
        "range" => ranges::told(alloc, text, false),
        "beginning" => ranges::told(alloc, text, true),
        "range of" => alone::told_range(alloc, text),
        "parts of" => alone::told_parts(alloc, text),
        "bound at" => alone::told_bound(alloc, text),
        _ => Err(Fault::Form),
    }
}

/// What the words of a line find.
fn answer(alloc: Global, line: &str) -> Result<String, Fault> {
    let (word, text) = line.split_once(": ").ok_or(Fault::Form)?;
    match word {
        "values" => orders::told_values(alloc, text),
        "keys" => orders::told_keys(alloc, text),
        "entries" => orders::told_entries(alloc, text),
        "items" => items::told(alloc, text),
        "pairs" => items::told_pairs(alloc, text),
        "cut" => tokens::told(alloc, text),
        "offers" => offers::told(alloc, text),
        _ => answer_of_ranges(alloc, word, text),
    }
}

fn main(rt: HostRuntime) -> io::Result<()> {
    'lines: for line in rt.lines(rt.alloc()) {
        let line = line?;
        let told = answer(rt.alloc(), line.as_str());
        println!(rt; "{};{}", line.as_str(), told_or_fault(&told))?;
    }
    Ok(())
}
