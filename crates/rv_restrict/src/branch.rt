//! The branches of a group.
ghost use Rattle.std.specs.Prelude.{◌≡◌, ◌<◌, ◌++◌, ◌∷◌, [], true, Bool, IfOk, List, OnOk, length, map};
ghost use Rattle.std.specs.List.{list_all, list_any};
ghost use Rattle.rv_value.specs.declared.value.Value.{Value as OneValue};
ghost use Rattle.rv_restrict.specs.declared.atom.ColRef.{ColRef as Column};
ghost use Rattle.rv_restrict.specs.Branches.{alone, alternatives, branches_of, group_at};
ghost use Rattle.rv_restrict.specs.Truth.{group_names_only, group_truth, is_true, names_only, qualifies, row_reads};

use crate::atom::{Atom, ColRef, Op, Operand};
use crate::truth::{Restriction, null};
use rv_value::{Duplicate, NoMemory, Value};
use std::alloc::Global;

impl Restriction {
    /// The branches of a group: a restriction for each of its atoms, and for IN one with `=` for each literal that is not
    /// NULL. A scan for each branch finds every row for which the group is True.
    pub fn branches(&self, alloc: Global, group: usize) -> Result<Vec<Restriction>, NoMemory>
        requires { group < length self.now }
        ensures branches { IfOk result (λ bs. bs.items ≡ branches_of (group_at self.now group)) }

        // The group is True on a row exactly where some branch is.
        ensures law { (row : List OneValue) → IfOk result (λ bs. list_any (λ b. qualifies b row) bs.items ≡ is_true (group_truth (row_reads row) (group_at self.now group))) }

        // Each branch names only columns that the group names.
        ensures names { (p : Column → Bool) → group_names_only p (group_at self.now group) ≡ true → IfOk result (λ bs. list_all (names_only p) bs.items ≡ true) }
    {
        let mut found = Vec::new(alloc);
        add_branches(alloc, self.group(group), &mut found)?;
        Ok(found)
    }

    /// The atoms of the group in a place.
    pub fn group(&self, group: usize) -> &[Atom]
        requires { group < length self.now }
        ensures { result.now ≡ group_at self.now group }
    {
        self.groups()[group].as_slice()
    }
}

fn add_branches(alloc: Global, atoms: &[Atom], found: &mut Vec<Restriction>) -> Result<(), NoMemory>
    ensures { OnOk result (found.new.items ≡ found.old.items ++ branches_of atoms.now) }
{
    match atoms {
        [] => Ok(()),
        [atom, more @ ..] => {
            add_alternatives(alloc, atom, found)?;
            add_branches(alloc, more, found)
        }
    }
}

fn add_alternatives(
    alloc: Global,
    atom: &Atom,
    found: &mut Vec<Restriction>,
) -> Result<(), NoMemory>
    ensures { OnOk result (found.new.items ≡ found.old.items ++ map alone (alternatives atom.now)) }
{
    match atom {
        Atom::Among { column, list } => add_equals(alloc, *column, list.as_slice(), found),
        Atom::Compare { .. }
        | Atom::Between { .. }
        | Atom::IsNull { .. }
        | Atom::Starts { .. }
        | Atom::Const(_) => add_alone(alloc, atom.copy(alloc)?, found),
    }
}

fn add_equals(
    alloc: Global,
    column: ColRef,
    list: &[Value],
    found: &mut Vec<Restriction>,
) -> Result<(), NoMemory>
    ensures { OnOk result (found.new.items ≡ found.old.items ++ map alone (alternatives (Atom.Among column list.now))) }
{
    match list {
        [] => Ok(()),
        [value, more @ ..] => {
            if !null(value) {
                add_alone(alloc, equal_to(alloc, column, value)?, found)?;
            }
            add_equals(alloc, column, more, found)
        }
    }
}

fn equal_to(alloc: Global, column: ColRef, value: &Value) -> Result<Atom, NoMemory>
    ensures { IfOk result (λ a. a ≡ Rattle.rv_restrict.specs.Branches.equal_to column value.now) }
{
    Ok(Atom::Compare {
        column,
        op: Op::Eq,
        operand: Operand::Literal(value.copy(alloc)?),
    })
}

fn add_alone(alloc: Global, atom: Atom, found: &mut Vec<Restriction>) -> Result<(), NoMemory>
    ensures { OnOk result (found.new.items ≡ found.old.items ++ alone atom ∷ []) }
{
    let mut group = Vec::with_capacity(alloc, 1)?;
    group.push(atom)?;
    let mut groups = Vec::with_capacity(alloc, 1)?;
    groups.push(group)?;
    found.push(Restriction::from_groups(groups))?;
    Ok(())
}
