//! The lists in which the keys of a set stand.
ghost use Rattle.std.specs.Prelude.{◌≡◌, ◌+◌, ◌<◌, ◌≤◌, ◌++◌, ◌^◌, [], true, false, length, vec_len, IsPermutation};
ghost use Rattle.std.specs.Vec.{vec_capacity};
ghost use Rattle.rv_keylist.specs.Keys.{has_key, Once};
ghost use Rattle.rv_keyset.specs.Sets.{AreApart, AreFinished, AreRuns, Pours, flat};

use rv_keylist::KeyList;
use rv_value::RowNo;

/// How many keys the lists have.
pub fn count_in(lists: &[KeyList]) -> u64
    requires { length (flat lists.now) < 2 ^ 32 }
    ensures { result ≡ length (flat lists.now) }
{
    match lists {
        [] => 0,
        [list, more @ ..] => list.len() + count_in(more),
    }
}

/// Whether a row is in one of finished lists.
pub fn is_in(lists: &[KeyList], row: RowNo) -> bool
    requires { AreFinished lists.now }
    ensures { result ≡ has_key row.0 (flat lists.now) }
{
    match lists {
        [] => false,
        [list, more @ ..] => list.has(row) || is_in(more, row),
    }
}

/// Puts the keys of a list behind those of another, which has room for them.
fn pour(put: &mut KeyList, list: &KeyList)
    requires open { put.old.finished ≡ false }
    requires room { length list.now.keys ≤ put.old.spare }
    requires apart { AreApart list.now.keys put.old.keys }
    ensures keys { put.new.keys ≡ put.old.keys ++ list.now.keys }
    ensures room { put.old.spare ≤ put.new.spare + length list.now.keys }
    ensures open { put.new.finished ≡ false }
{
    let count = list.len();
    let mut done: u64 = 0;
    'each: while done < count {
        put.push(list.get(done)).unwrap();
        done += 1;
    }
}

/// Takes the last list away, and puts its keys into a list that has room for all.
fn pour_last(lists: &mut Vec<KeyList>, put: &mut KeyList)
    requires some { 0 < vec_len lists.old }
    requires pours { Pours lists.old.items put.old }
    ensures pours { Pours lists.new.items put.new }
    ensures keys { IsPermutation (flat lists.old.items ++ put.old.keys) (flat lists.new.items ++ put.new.keys) }
    ensures less { vec_len lists.new + 1 ≡ vec_len lists.old }
    ensures capacity { vec_capacity lists.new ≡ vec_capacity lists.old }
{
    match lists.pop() {
        Some(list) => pour(put, &list),
        None => unreachable!(),
    }
}

/// Whether the last list goes into one that has so many keys: all do, or there is no place left, or it is not twice as long.
fn is_due(lists: &Vec<KeyList>, keys: u64, all: bool) -> bool
    requires { 1 ≤ vec_capacity lists.now }
    ensures some { result ≡ true → 0 < vec_len lists.now }
    ensures place { result ≡ false → vec_len lists.now < vec_capacity lists.now }
    ensures all { result ≡ false → all ≡ true → vec_len lists.now ≡ 0 }
{
    match lists.last() {
        None => false,
        Some(list) => all || lists.len() == lists.capacity() || list.len() / 2 < keys,
    }
}

/// Puts the keys of the last lists into one that has room for all, until there is a place for it and the list before it is
/// twice as long.
fn pour_due(lists: &mut Vec<KeyList>, put: &mut KeyList, all: bool)
    requires place { 1 ≤ vec_capacity lists.old }
    requires pours { Pours lists.old.items put.old }
    ensures pours { Pours lists.new.items put.new }
    ensures keys { IsPermutation (flat lists.old.items ++ put.old.keys) (flat lists.new.items ++ put.new.keys) }
    ensures place { vec_len lists.new < vec_capacity lists.new }
    ensures all { all ≡ true → vec_len lists.new ≡ 0 }
{
    'lists: while is_due(lists, put.len(), all) {
        pour_last(lists, put);
    }
}

/// Adds a list whose keys the others have not. `room` has room for all keys.
pub fn add_list(lists: &mut Vec<KeyList>, room: KeyList, list: &KeyList, all: bool)
    requires runs { AreRuns lists.old.items (vec_capacity lists.old) }
    requires empty { room.keys ≡ [] }
    requires open { room.finished ≡ false }
    requires enough { length (flat lists.old.items) + length list.now.keys ≤ room.spare }
    requires once { Once (flat lists.old.items ++ list.now.keys) }
    ensures finished { AreFinished lists.new.items }
    ensures keys { IsPermutation (flat lists.old.items ++ list.now.keys) (flat lists.new.items) }
    ensures place { 1 ≤ vec_capacity lists.new }
    ensures all { all ≡ true → length lists.new.items ≡ 1 }
{
    let mut put = room;
    pour(&mut put, list);
    pour_due(lists, &mut put, all);
    put.finish();
    lists.push(put).unwrap();
}
