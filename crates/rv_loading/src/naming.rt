//! Which columns a restriction names.
ghost use Rattle.std.specs.Prelude.{◌≡◌};
ghost use Rattle.rv_restrict.specs.Groups.{groups_of};
ghost use Rattle.rv_restrict.specs.Truth.{atom_names_only, group_names_only, names_only, operand_names_only};
ghost use Rattle.rv_loading.specs.Naming.{is_column};

use rv_restrict::{Atom, ColRef, Operand};

/// Whether a column is below a width, of a place below `places`.
pub fn is_column(places: usize, width: usize, column: ColRef) -> bool
    ensures { result ≡ is_column places width column }
{
    (column.place as usize) < places && (column.column as usize) < width
}

fn is_operand(places: usize, width: usize, operand: &Operand) -> bool
    ensures { result ≡ operand_names_only (is_column places width) operand.now }
{
    match operand {
        Operand::Literal(_) => true,
        Operand::Column(column) => is_column(places, width, *column),
    }
}

fn is_atom(places: usize, width: usize, atom: &Atom) -> bool
    ensures { result ≡ atom_names_only (is_column places width) atom.now }
{
    match atom {
        Atom::Compare {
            column,
            op: _,
            operand,
        } => is_column(places, width, *column) && is_operand(places, width, operand),
        Atom::Between { column, .. } => is_column(places, width, *column),
        Atom::Among { column, .. } => is_column(places, width, *column),
        Atom::IsNull { column, .. } => is_column(places, width, *column),
        Atom::Starts { column, .. } => is_column(places, width, *column),
        Atom::Const(_) => true,
    }
}

fn is_group(places: usize, width: usize, group: &[Atom]) -> bool
    ensures { result ≡ group_names_only (is_column places width) group.now }
{
    match group {
        [] => true,
        [atom, more @ ..] => is_atom(places, width, atom) && is_group(places, width, more),
    }
}

/// Whether the groups of a restriction name columns below `width` of places below `places` alone.
pub fn names_only(places: usize, width: usize, groups: &[Vec<Atom>]) -> bool
    ensures { result ≡ names_only (is_column places width) (groups_of groups.now) }
{
    match groups {
        [] => true,
        [group, more @ ..] => {
            is_group(places, width, group.as_slice()) && names_only(places, width, more)
        }
    }
}
