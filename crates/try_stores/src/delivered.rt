//! The set of delivered rows, full at its last place.
use crate::told::Told;
use rv_keylist::Delivered;
use rv_loading::Fault;
use rv_value::RowNo;
use std::alloc::Global;

/// Adds a row where there is room and it is not there, and tells whether it then was there and counted.
fn add(delivered: &mut Delivered, row: u64) -> bool {
    if !delivered.full() && !delivered.has(RowNo(row)) {
        let before = delivered.len();
        delivered.add(RowNo(row));
        return delivered.has(RowNo(row)) && delivered.len() == before.saturating_add(1);
    }
    true
}

/// Each second row from 2,046 down, then the rows between them: more than there is room for.
fn mixed(place: u64) -> u64 {
    if place < 512 {
        2 * (1023 - place)
    } else {
        2 * (place % 512) + 3
    }
}

/// Adds so many rows, mixed or rising, and tells of how many nothing was wrong.
fn add_all(delivered: &mut Delivered, count: u64, is_mixed: bool) -> u64 {
    let mut well = 0u64;
    'places: for place in 0..count {
        let row = if is_mixed { mixed(place) } else { place };
        if add(delivered, row) {
            well = well.saturating_add(1);
        }
    }
    well
}

/// A number that tells the rows below 3,000 that are there from most others.
fn mix(delivered: &Delivered) -> u64 {
    let mut mix = 0u64;
    'rows: for row in 0..3000u64 {
        if delivered.has(RowNo(row)) {
            mix = (mix % 1000003 * 31 + row + 1) % 1000003;
        }
    }
    mix
}

fn word(full: bool) -> &'static str {
    if full { "full" } else { "not full" }
}

fn tell_set(told: &mut Told, delivered: &Delivered) {
    if delivered.is_empty() {
        told.word("empty, ");
    }
    told.number(delivered.len() as u64);
    told.word(" rows, ");
    told.word(word(delivered.full()));
    told.with(", mix ", mix(delivered));
}

/// Tells of a set, and of the same with so many rows that are added.
fn tell_more(told: &mut Told, delivered: &mut Delivered, count: u64, is_mixed: bool) {
    tell_set(told, delivered);
    told.with("; ", add_all(delivered, count, is_mixed));
    told.with(" of ", count);
    told.word(" well, ");
    tell_set(told, delivered);
}

/// A new set, and the same with rows that are added `mixed` or `rising`.
pub fn tell(alloc: Global, told: &mut Told, text: &str) -> Result<(), Fault> {
    let (count, is_mixed) = match text {
        "mixed" => (2000, true),
        "rising" => (1024, false),
        "rising but one" => (1023, false),
        _ => return Err(Fault::Form),
    };
    let mut delivered = Delivered::new(alloc)?;
    tell_more(told, &mut delivered, count, is_mixed);
    drop(delivered);
    Ok(())
}
