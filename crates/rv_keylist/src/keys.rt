//! Ascending lists of row numbers, and what is searched in them.
ghost use Rattle.std.specs.Prelude.{◌≡◌, false};
ghost use Rattle.std.specs.List.Sorted.{IsStrictlyIncreasing};
ghost use Rattle.rv_keylist.specs.Keys.{has_key, IsPlace};

/// Whether a row is among ascending keys, by binary search.
pub fn is_among(keys: &[u64], row: u64) -> bool
    requires { IsStrictlyIncreasing keys.now }
    ensures { result ≡ has_key row keys.now }
{
    keys.binary_search(&row).is_ok()
}

/// Where a row that is not among ascending keys would stand, by binary search.
pub fn place_of(keys: &[u64], row: u64) -> usize
    requires ascends { IsStrictlyIncreasing keys.now }
    requires fresh { has_key row keys.now ≡ false }
    ensures { IsPlace keys.now row result }
{
    match keys.binary_search(&row) {
        Err(at) => at,
        Ok(_at) => unreachable!(),
    }
}
