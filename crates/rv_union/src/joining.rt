//! What a member built goes into the keys of a union.
ghost use Rattle.std.specs.Prelude.{◌≡◌, ◌+◌, ◌<◌, ◌≤◌, ◌++◌, ◌^◌, [], length, false, IsPermutation};
ghost use Rattle.std.specs.List.Sorted.{IsStrictlyIncreasing};
ghost use Rattle.rv_keyset.specs.Sets.{AreApart};

use rv_jscan::Lane;
use rv_keylist::KeyList;
use rv_keyset::KeySet;

/// Adds what a scan has built, and what the keys have not. It takes no memory, since room was made for all keys.
pub fn add_lane(keys: &mut KeySet, room: KeyList, lane: Lane, last: bool)
    requires empty { room.keys ≡ [] }
    requires open { room.finished ≡ false }
    requires enough { length keys.old.keys + length lane.building ≤ room.spare }
    requires small { length keys.old.keys + length lane.building < 2 ^ 32 }
    requires apart { AreApart keys.old.keys lane.building }
    ensures built { IsPermutation (keys.old.keys ++ lane.building) keys.new.keys }
    ensures ascend { IsStrictlyIncreasing keys.new.keys }
{
    let list = lane.into_list();
    keys.add(room, list, last);
}
