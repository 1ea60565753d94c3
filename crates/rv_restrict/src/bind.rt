//! Restrictions over several FROM items, bound at one of them.
ghost use Rattle.std.specs.Prelude.{◌≡◌, ◌++◌, ◌∷◌, [], ◌+◌, ◌<◌, ◌≤◌, true, Bool, IfOk, List, OnOk, length, map, take, ℕ};
ghost use Rattle.rv_value.specs.declared.value.Value.{Value as OneValue};
ghost use Rattle.rv_restrict.specs.Groups.{groups_of};
ghost use Rattle.rv_restrict.specs.Truth.{atom_names_only, group_names_only, names_only, operand_names_only, truth};
ghost use Rattle.rv_restrict.specs.Bind.{atom_place, bound, bound_atom, bound_columns, bound_compare, can_bind, group_place, is_below, operand_place, outer_fits, passes_at, passes_home, rows_has, rows_reads, taken, truth_over, turned};

use crate::atom::{Atom, ColRef, Op, Operand};
use crate::truth::{Reads, Restriction};
use rv_value::{Duplicate, NoMemory, Value, Values};
use std::alloc::Global;

/// One row for each place, in order.
#[derive(Drop)]
struct Rows<'a> {
    rows: &'a [Values],
}

impl<'a> Reads for Rows<'a> {
    ghost reads = { λ r. rows_reads r.rows.now };

    ghost has = { λ r. rows_has r.rows.now };

    fn value(&self, column: ColRef) -> &Value {
        &self.rows[column.place as usize].as_slice()[column.column as usize]
    }
}

impl Restriction {
    /// The groups whose highest place is `place`, with the rows of the places below put in and `place`
    /// itself renamed 0. A comparison with an outer column on its left is turned round, so that it
    /// can bound an index; an atom of outer columns alone becomes a constant of its group. The memory of a restriction that
    /// is over is used anew.
    pub fn bind(
        &self,
        alloc: Global,
        place: u32,
        outer: &[Values],
        over: Restriction,
    ) -> Result<Restriction, NoMemory>
        requires rows { length outer.now ≡ place }
        requires columns { can_bind place outer.now self.now ≡ true }
        ensures bound { IfOk result (λ b. b ≡ bound place outer.now self.now) }

        // On each row of the place it has the truth of the groups taken, over the outer rows and this one.
        ensures law { (row : List OneValue) → IfOk result (λ b. truth b row ≡ truth_over (taken place self.now) (outer.now ++ row ∷ [])) }

        // It is over place 0 alone, and names only columns that the groups taken name of the place.
        ensures names { (p : ℕ → Bool) → names_only (passes_at place p) (taken place self.now) ≡ true → IfOk result (λ b. names_only (passes_home p) b ≡ true) }
    {
        let mut found = over.into_groups();
        let count = bind_groups(alloc, self.groups(), place, outer, 0, &mut found)?;
        found.truncate(count);
        Ok(Restriction::from_groups(found))
    }
}

/// Binds groups into the places from one on. How many places are written then.
fn bind_groups(
    alloc: Global,
    groups: &[Vec<Atom>],
    place: u32,
    outer: &[Values],
    at: usize,
    found: &mut Vec<Vec<Atom>>,
) -> Result<usize, NoMemory>
    requires rows { length outer.now ≡ place }
    requires columns { can_bind place outer.now (groups_of groups.now) ≡ true }
    requires at { at ≤ length found.old.items }
    ensures within { IfOk result (λ n. n ≤ length found.new.items) }
    ensures bound { IfOk result (λ n. groups_of (take n found.new.items) ≡ groups_of (take at found.old.items) ++ bound place outer.now (groups_of groups.now)) }
{
    match groups {
        [] => Ok(at),
        [group, more @ ..] => {
            if highest_place(group.as_slice()) != place {
                return bind_groups(alloc, more, place, outer, at, found);
            }
            bind_group(alloc, group.as_slice(), place, outer, at, found)?;
            bind_groups(alloc, more, place, outer, at + 1, found)
        }
    }
}

/// Binds a group into a place, in the memory of the one that stands there.
fn bind_group(
    alloc: Global,
    atoms: &[Atom],
    place: u32,
    outer: &[Values],
    at: usize,
    found: &mut Vec<Vec<Atom>>,
) -> Result<(), NoMemory>
    requires rows { length outer.now ≡ place }
    requires columns { group_names_only (outer_fits place outer.now) atoms.now ≡ true }
    requires at { at ≤ length found.old.items }
    ensures within { OnOk result (at < length found.new.items) }
    ensures bound { OnOk result (groups_of (take (at + 1) found.new.items) ≡ groups_of (take at found.old.items) ++ map (bound_atom place outer.now) atoms.now ∷ []) }
{
    if at < found.len() {
        let over = &mut found[at];
        over.clear();
        bind_atoms(alloc, atoms, place, outer, over)
    } else {
        let mut group = Vec::with_capacity(alloc, atoms.len())?;
        bind_atoms(alloc, atoms, place, outer, &mut group)?;
        found.push(group)?;
        Ok(())
    }
}

fn bind_atoms(
    alloc: Global,
    atoms: &[Atom],
    place: u32,
    outer: &[Values],
    found: &mut Vec<Atom>,
) -> Result<(), NoMemory>
    requires rows { length outer.now ≡ place }
    requires columns { group_names_only (outer_fits place outer.now) atoms.now ≡ true }
    ensures { OnOk result (found.new.items ≡ found.old.items ++ map (bound_atom place outer.now) atoms.now) }
{
    match atoms {
        [] => Ok(()),
        [atom, more @ ..] => {
            found.push(bind_atom(alloc, atom, place, outer)?)?;
            bind_atoms(alloc, more, place, outer, found)
        }
    }
}

#[tactic(auto, using(crate::proofs::Binds::names_both))]
fn bind_atom(alloc: Global, atom: &Atom, place: u32, outer: &[Values]) -> Result<Atom, NoMemory>
    requires rows { length outer.now ≡ place }
    requires columns { atom_names_only (outer_fits place outer.now) atom.now ≡ true }
    ensures { IfOk result (λ b. b ≡ bound_atom place outer.now atom.now) }
{
    if is_outer(atom, place) {
        return Ok(Atom::Const(atom.truth(&Rows { rows: outer })));
    }
    match atom {
        Atom::Compare {
            column,
            op,
            operand,
        } => bind_compare(alloc, *column, *op, operand, place, outer),
        Atom::Between { column, low, high } => Ok(Atom::Between {
            column: home(*column),
            low: low.copy(alloc)?,
            high: high.copy(alloc)?,
        }),
        Atom::Among { column, list } => Ok(Atom::Among {
            column: home(*column),
            list: list.copy(alloc)?,
        }),
        Atom::IsNull { column, not } => Ok(Atom::IsNull {
            column: home(*column),
            not: *not,
        }),
        Atom::Starts { column, text } => Ok(Atom::Starts {
            column: home(*column),
            text: text.copy(alloc)?,
        }),
        Atom::Const(truth) => Ok(Atom::Const(*truth)),
    }
}

fn bind_compare(
    alloc: Global,
    column: ColRef,
    op: Op,
    operand: &Operand,
    place: u32,
    outer: &[Values],
) -> Result<Atom, NoMemory>
    requires rows { length outer.now ≡ place }
    requires column { outer_fits place outer.now column ≡ true }
    requires operand { operand_names_only (outer_fits place outer.now) operand.now ≡ true }
    ensures { IfOk result (λ b. b ≡ bound_compare place outer.now column op operand.now) }
{
    match operand {
        Operand::Literal(value) => Ok(Atom::Compare {
            column: home(column),
            op,
            operand: Operand::Literal(value.copy(alloc)?),
        }),
        Operand::Column(other) => bind_columns(alloc, column, op, *other, place, outer),
    }
}

fn bind_columns(
    alloc: Global,
    column: ColRef,
    op: Op,
    other: ColRef,
    place: u32,
    outer: &[Values],
) -> Result<Atom, NoMemory>
    requires rows { length outer.now ≡ place }
    requires column { outer_fits place outer.now column ≡ true }
    requires other { outer_fits place outer.now other ≡ true }
    ensures { IfOk result (λ b. b ≡ bound_columns place outer.now column op other) }
{
    if column.place < place {
        let value = Rows { rows: outer }.value(column).copy(alloc)?;
        Ok(Atom::Compare {
            column: home(other),
            op: turn(op),
            operand: Operand::Literal(value),
        })
    } else if other.place < place {
        let value = Rows { rows: outer }.value(other).copy(alloc)?;
        Ok(Atom::Compare {
            column: home(column),
            op,
            operand: Operand::Literal(value),
        })
    } else {
        Ok(Atom::Compare {
            column: home(column),
            op,
            operand: Operand::Column(home(other)),
        })
    }
}

fn home(column: ColRef) -> ColRef
    ensures { result ≡ Rattle.rv_restrict.specs.Bind.home column }
{
    ColRef {
        place: 0,
        column: column.column,
    }
}

fn turn(op: Op) -> Op
    ensures { result ≡ turned op }
{
    match op {
        Op::Eq => Op::Eq,
        Op::Ne => Op::Ne,
        Op::Lt => Op::Gt,
        Op::Le => Op::Ge,
        Op::Gt => Op::Lt,
        Op::Ge => Op::Le,
    }
}

/// Whether an atom names only columns of lower places.
fn is_outer(atom: &Atom, place: u32) -> bool
    ensures { result ≡ atom_names_only (is_below place) atom.now }
{
    match atom {
        Atom::Compare {
            column,
            op: _,
            operand,
        } => column.place < place && is_outer_operand(operand, place),
        Atom::Between { column, .. } => column.place < place,
        Atom::Among { column, .. } => column.place < place,
        Atom::IsNull { column, .. } => column.place < place,
        Atom::Starts { column, .. } => column.place < place,
        Atom::Const(_) => true,
    }
}

fn is_outer_operand(operand: &Operand, place: u32) -> bool
    ensures { result ≡ operand_names_only (is_below place) operand.now }
{
    match operand {
        Operand::Literal(_) => true,
        Operand::Column(column) => column.place < place,
    }
}

/// The highest place that a group names, 0 where it names none: rows for this place and those below decide it.
pub fn highest_place(atoms: &[Atom]) -> u32
    ensures { result ≡ group_place atoms.now }
{
    match atoms {
        [] => 0,
        [atom, more @ ..] => highest_of_atom(atom).max(highest_place(more)),
    }
}

fn highest_of_atom(atom: &Atom) -> u32
    ensures { result ≡ atom_place atom.now }
{
    match atom {
        Atom::Compare {
            column,
            op: _,
            operand,
        } => column.place.max(highest_of_operand(operand)),
        Atom::Between { column, .. } => column.place,
        Atom::Among { column, .. } => column.place,
        Atom::IsNull { column, .. } => column.place,
        Atom::Starts { column, .. } => column.place,
        Atom::Const(_) => 0,
    }
}

fn highest_of_operand(operand: &Operand) -> u32
    ensures { result ≡ operand_place operand.now }
{
    match operand {
        Operand::Literal(_) => 0,
        Operand::Column(column) => column.place,
    }
}
