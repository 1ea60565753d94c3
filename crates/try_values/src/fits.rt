//! Whether a row has the columns that a restriction names.
ghost use Rattle.std.specs.Prelude.{◌≡◌};
ghost use Rattle.rv_restrict.specs.Groups.{groups_of};
ghost use Rattle.rv_restrict.specs.Truth.{names_only, row_has};

use rv_loading::names_only;
use rv_restrict::Atom;
use rv_value::Values;

/// Whether the row has each column that the atoms name: only then may their truth be asked.
#[tactic(auto, using(crate::proofs::Naming::home_names))]
pub fn all_fit(groups: &[Vec<Atom>], row: &Values) -> bool
    ensures { result ≡ names_only (row_has row.now) (groups_of groups.now) }
{
    let width = row.as_slice().len();
    names_only(1, width, groups)
}
