//! The truth of a restriction on one row for each FROM item, column by column, and of those of its groups that the rows of
//! the first items decide.
ghost use Rattle.std.specs.Prelude.{◌≡◌, true};
ghost use Rattle.rv_value.specs.declared.value.Value.TheVariants.{Null};
ghost use Rattle.rv_restrict.specs.Bind.{rows_reads, taken};
ghost use Rattle.rv_restrict.specs.Groups.{groups_of};
ghost use Rattle.rv_restrict.specs.Truth.{group_names_only, group_truth, is_null, is_true, names_only, truth_by};
ghost use Rattle.rv_model.specs.Offering.{is_kept};
ghost use Rattle.rv_decide.specs.Choosing.{may_go_on};

use rv_restrict::{Atom, ColRef, Reads, Restriction, Tri, highest_place};
use rv_value::{Value, Values};

/// One row for each place. It has any column: one that a row lacks is NULL.
#[derive(Drop)]
struct Chosen<'a> {
    rows: &'a [Values],
    null: &'a Value,
}

impl<'a> Reads for Chosen<'a> {
    ghost reads = { λ c. rows_reads c.rows.now };

    ghost has = { λ c column. is_null c.null.now };

    #[tactic(auto, using(crate::proofs::Named::null_is))]
    fn value(&self, column: ColRef) -> &Value {
        value_at(self.rows, self.null, column)
    }
}

/// Whether a restriction is True on one row for each place. It may name any columns: one that a row lacks is NULL.
pub fn is_kept(only: &Restriction, rows: &[Values]) -> bool
    ensures { result ≡ is_kept only.now rows.now }
{
    let null = Value::Null;
    match only.truth_on(&Chosen { rows, null: &null }) {
        Tri::True => true,
        Tri::False | Tri::Unknown => false,
    }
}

/// Whether a choice may go on behind rows for the first places: the groups that name the last of these, and none behind, are
/// True on them.
pub fn may_go_on(only: &Restriction, rows: &[Values]) -> bool
    ensures { result ≡ may_go_on only.now rows.now }
{
    match rows {
        [] => true,
        [_first, others @ ..] => {
            let null = Value::Null;
            are_true_at(only.groups(), others.len(), &Chosen { rows, null: &null })
        }
    }
}

/// Whether the groups are True whose highest place is this one. It ends at the first that is not.
#[tactic(auto, using(rv_restrict::proofs::Below::true_lesser))]
fn are_true_at<R: Reads>(groups: &[Vec<Atom>], place: usize, rows: &R) -> bool
    requires { names_only (R.has rows.now) (groups_of groups.now) ≡ true }
    ensures { result ≡ is_true (truth_by (R.reads rows.now) (taken place (groups_of groups.now))) }
{
    match groups {
        [] => true,
        [group, more @ ..] => {
            if highest_place(group.as_slice()) as usize == place
                && !is_true(group.as_slice(), rows)
            {
                return false;
            }
            are_true_at(more, place, rows)
        }
    }
}

/// Whether some atom is True. It ends at the first that is.
#[tactic(auto, using(crate::proofs::Early::unknown_or))]
fn is_true<R: Reads>(atoms: &[Atom], rows: &R) -> bool
    requires { group_names_only (R.has rows.now) atoms.now ≡ true }
    ensures { result ≡ is_true (group_truth (R.reads rows.now) atoms.now) }
{
    match atoms {
        [] => false,
        [atom, more @ ..] => match atom.truth(rows) {
            Tri::True => true,
            Tri::False | Tri::Unknown => is_true(more, rows),
        },
    }
}

/// The value of a column, `null` where there is none.
pub fn value_at<'a>(rows: &'a [Values], null: &'a Value, column: ColRef) -> &'a Value
    requires { null.now ≡ Null }
    ensures { result.now ≡ rows_reads rows.now column }
{
    match rows.get(column.place as usize) {
        None => null,
        Some(row) => match row.as_slice().get(column.column as usize) {
            None => null,
            Some(value) => value,
        },
    }
}
