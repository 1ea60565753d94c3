//! What a joint scan holds, in words.
ghost use Rattle.std.specs.Prelude.{◌≡◌};

use crate::told::Told;
use rv_jscan::Jscan;
use rv_keylist::KeyList;

fn tell_length(told: &mut Told, list: Option<&KeyList>) {
    match list {
        Some(list) => told.number(list.len()),
        None => told.word("none"),
    }
}

fn tell_counts(told: &mut Told, jscan: &Jscan) {
    'scans: for scan in 0..jscan.planned() {
        told.with("; scan ", scan as u64);
        told.with(": scanned ", jscan.scanned(scan));
        told.with(", kept ", jscan.kept(scan));
        told.with(", leaves ", jscan.leaves(scan));
    }
    told.word("\n");
}

/// Tells what is held after an act.
pub fn tell_state(told: &mut Told, jscan: &Jscan) {
    told.with("; ended ", jscan.ended() as u64);
    told.word(", list ");
    tell_length(told, jscan.list());
    told.word(", building ");
    tell_length(told, jscan.building());
    tell_counts(told, jscan);
}

fn tell_keys(told: &mut Told, list: &KeyList) {
    'keys: for i in 0..list.len() {
        told.with(" ", list.get(i).0);
    }
}

/// Tells the keys of the last complete list, and how many leaves were read.
pub fn tell_total(told: &mut Told, jscan: &Jscan, leaves: u64) {
    told.with("  ", leaves);
    told.word(" leaves read; keys");
    match jscan.list() {
        Some(list) => tell_keys(told, list),
        None => told.word(" none"),
    }
    told.word("\n");
}
