//! The part of a restriction that an index can test by itself.
ghost use Rattle.std.specs.Prelude.{◌≡◌, ◌↔◌, ◌++◌, ◌∷◌, [], ◌+◌, ◌<◌, ◌≤◌, true, IfOk, IsTrue, List, OnOk, length, take};
ghost use Rattle.rv_value.specs.declared.value.Value.{Value as OneValue};
ghost use Rattle.rv_restrict.specs.declared.atom.Tri.{Tri as Truth};
ghost use Rattle.rv_restrict.specs.Groups.{groups_of};
ghost use Rattle.rv_restrict.specs.Truth.{atom_names_only, group_names_only, is_true, operand_names_only, row_reads, truth, truth_by};
ghost use Rattle.rv_restrict.specs.Ranges.{key_of};
ghost use Rattle.rv_restrict.specs.Parts.{has_value, inside, key_has, key_reads, lies_in, part_of, passes, value_in};

use crate::atom::{Atom, ColRef, Operand, Tri};
use crate::truth::{Reads, Restriction, all_groups, copy_groups};
use rv_value::{Duplicate, Key, NoMemory, Value, copy_slice, copy_slice_in};
use std::alloc::Global;
use std::marker::Model;
use std::mem;

/// The groups of a restriction whose columns all lie in an index, with the index's columns.
#[derive(Drop)]
pub struct Part {
    columns: Vec<u32>,
    groups: Vec<Vec<Atom>>,
}

impl Model for Part {
    ghost use Rattle.std.specs.Prelude.{◌≡◌, true};
    ghost use Rattle.rv_restrict.specs.Groups.{groups_of};
    ghost use Rattle.rv_restrict.specs.Truth.{names_only};
    ghost use Rattle.rv_restrict.specs.Parts.{Parted, lies_in};

    ghost Value = { Parted };

    ghost view = { λ p. record { columns = p.columns.items; groups = groups_of p.groups.items } };

    ghost invariant = { λ p. names_only (lies_in p.columns.items) (groups_of p.groups.items) ≡ true };
}

/// A key, read by the columns of its index.
#[derive(Drop)]
struct KeyOf<'a> {
    columns: &'a [u32],
    key: &'a [Value],
}

impl<'a> Reads for KeyOf<'a> {
    ghost reads = { λ k. key_reads k.columns.now k.key.now };

    ghost has = { λ k. key_has k.columns.now k.key.now };

    fn value(&self, column: ColRef) -> &Value {
        value_of(self.columns, self.key, column.column)
    }
}

fn value_of<'a>(columns: &[u32], key: &'a [Value], column: u32) -> &'a Value
    requires { has_value columns.now key.now column ≡ true }
    ensures { result.now ≡ value_in columns.now key.now column }
{
    match (columns, key) {
        ([first, more @ ..], [value, others @ ..]) => {
            if *first == column {
                value
            } else {
                value_of(more, others, column)
            }
        }
        ([], _) => unreachable!(),
        ([_first, _more @ ..], []) => unreachable!(),
    }
}

impl Part {
    /// Whether all groups are True on a key of the index.
    pub fn pass(&self, key: &Key) -> bool
        requires { length key.now ≡ length self.now.columns }
        ensures { result ≡ passes self.now key.now }
    {
        let key = KeyOf {
            columns: self.columns.as_slice(),
            key: key.as_slice(),
        };
        all_groups(self.groups.as_slice(), &key) == Tri::True
    }

    /// The columns of the index, numbered from 0, in the order of its keys.
    pub fn columns(&self) -> &[u32]
        ensures { result.now ≡ self.now.columns }
    {
        self.columns.as_slice()
    }

    /// Whether both are of the same columns, in order, and have the same atoms.
    pub fn is(&self, other: &Part) -> bool
        ensures { IsTrue result ↔ (self.now ≡ other.now) }
    {
        self.columns.as_slice() == other.columns.as_slice()
            && same_groups(self.groups.as_slice(), other.groups.as_slice())
    }
}

impl Duplicate for Part {
    fn copy(&self, alloc: Global) -> Result<Part, NoMemory> {
        Ok(Part {
            columns: copy_slice(alloc, self.columns.as_slice())?,
            groups: copy_groups(alloc, self.groups.as_slice())?,
        })
    }
}

impl Restriction {
    /// The groups whose columns all lie in the index over `columns`.
    pub fn index_part(&self, alloc: Global, columns: &[u32]) -> Result<Part, NoMemory>
        ensures part { IfOk result (λ p. p ≡ part_of self.now columns.now) }

        // It passes the key of a row exactly where its groups are True on the row.
        ensures exact { (row : List OneValue) → IfOk result (λ p. passes p (key_of row columns.now) ≡ is_true (truth_by (row_reads row) (inside columns.now self.now))) }

        // It passes the key of each row for which the restriction is True.
        ensures covers { (row : List OneValue) → truth self.now row ≡ Truth.True → IfOk result (λ p. passes p (key_of row columns.now) ≡ true) }
    {
        make_part(alloc, self.groups(), columns, Part::none(alloc))
    }

    /// Makes a part the one of the groups whose columns all lie in the index over `columns`, in its memory.
    pub fn renew_part(
        &self,
        alloc: Global,
        columns: &[u32],
        part: &mut Part,
    ) -> Result<(), NoMemory>
        ensures { OnOk result (part.new ≡ part_of self.now columns.now) }
    {
        let over = mem::replace(part, Part::none(alloc));
        let made = make_part(alloc, self.groups(), columns, over)?;
        drop(mem::replace(part, made));
        Ok(())
    }
}

impl Part {
    /// The part of no group for an index of no column.
    fn none(alloc: Global) -> Part {
        Part {
            columns: Vec::new(alloc),
            groups: Vec::new(alloc),
        }
    }
}

/// The part of the groups whose columns all lie in an index, in the memory of a part that is over.
fn make_part(
    alloc: Global,
    groups: &[Vec<Atom>],
    columns: &[u32],
    over: Part,
) -> Result<Part, NoMemory>
    ensures { IfOk result (λ p. p ≡ part_of (groups_of groups.now) columns.now) }
{
    let Part {
        columns: before,
        groups: mut found,
    } = over;
    let count = copy_inside(alloc, groups, columns, 0, &mut found)?;
    found.truncate(count);
    let columns = copy_slice_in(alloc, columns, before)?;
    Ok(Part {
        columns,
        groups: found,
    })
}

/// Copies the groups whose columns all lie in an index into the places from one on. How many places are written then.
fn copy_inside(
    alloc: Global,
    groups: &[Vec<Atom>],
    columns: &[u32],
    at: usize,
    found: &mut Vec<Vec<Atom>>,
) -> Result<usize, NoMemory>
    requires { at ≤ length found.old.items }
    ensures within { IfOk result (λ n. n ≤ length found.new.items) }
    ensures inside { IfOk result (λ n. groups_of (take n found.new.items) ≡ groups_of (take at found.old.items) ++ inside columns.now (groups_of groups.now)) }
{
    match groups {
        [] => Ok(at),
        [group, more @ ..] => {
            if !all_lie(group.as_slice(), columns) {
                return copy_inside(alloc, more, columns, at, found);
            }
            copy_group(alloc, group.as_slice(), at, found)?;
            copy_inside(alloc, more, columns, at + 1, found)
        }
    }
}

/// Copies a group into a place, in the memory of the one that stands there.
fn copy_group(
    alloc: Global,
    atoms: &[Atom],
    at: usize,
    found: &mut Vec<Vec<Atom>>,
) -> Result<(), NoMemory>
    requires { at ≤ length found.old.items }
    ensures within { OnOk result (at < length found.new.items) }
    ensures copied { OnOk result (groups_of (take (at + 1) found.new.items) ≡ groups_of (take at found.old.items) ++ atoms.now ∷ []) }
{
    if at < found.len() {
        let over = &mut found[at];
        let room = mem::replace(over, Vec::new(alloc));
        drop(mem::replace(over, copy_slice_in(alloc, atoms, room)?));
    } else {
        found.push(copy_slice(alloc, atoms)?)?;
    }
    Ok(())
}

fn all_lie(atoms: &[Atom], columns: &[u32]) -> bool
    ensures { result ≡ group_names_only (lies_in columns.now) atoms.now }
{
    match atoms {
        [] => true,
        [atom, more @ ..] => lies(atom, columns) && all_lie(more, columns),
    }
}

fn lies(atom: &Atom, columns: &[u32]) -> bool
    ensures { result ≡ atom_names_only (lies_in columns.now) atom.now }
{
    match atom {
        Atom::Compare {
            column,
            op: _,
            operand,
        } => stands_among(columns, column.column) && operand_lies(operand, columns),
        Atom::Between { column, .. } => stands_among(columns, column.column),
        Atom::Among { column, .. } => stands_among(columns, column.column),
        Atom::IsNull { column, .. } => stands_among(columns, column.column),
        Atom::Starts { column, .. } => stands_among(columns, column.column),
        Atom::Const(_) => true,
    }
}

fn operand_lies(operand: &Operand, columns: &[u32]) -> bool
    ensures { result ≡ operand_names_only (lies_in columns.now) operand.now }
{
    match operand {
        Operand::Literal(_) => true,
        Operand::Column(column) => stands_among(columns, column.column),
    }
}

fn stands_among(columns: &[u32], column: u32) -> bool
    ensures { result ≡ Rattle.rv_restrict.specs.Parts.stands_among columns.now column }
{
    match columns {
        [] => false,
        [first, more @ ..] => *first == column || stands_among(more, column),
    }
}

fn same_groups(a: &[Vec<Atom>], b: &[Vec<Atom>]) -> bool
    ensures { IsTrue result ↔ (groups_of a.now ≡ groups_of b.now) }
{
    match (a, b) {
        ([], []) => true,
        ([x, more @ ..], [y, others @ ..]) => {
            same_group(x.as_slice(), y.as_slice()) && same_groups(more, others)
        }
        ([], [_first, _more @ ..]) => false,
        ([_first, _more @ ..], []) => false,
    }
}

fn same_group(a: &[Atom], b: &[Atom]) -> bool
    ensures { IsTrue result ↔ (a.now ≡ b.now) }
{
    match (a, b) {
        ([], []) => true,
        ([x, more @ ..], [y, others @ ..]) => x.is(y) && same_group(more, others),
        ([], [_first, _more @ ..]) => false,
        ([_first, _more @ ..], []) => false,
    }
}
