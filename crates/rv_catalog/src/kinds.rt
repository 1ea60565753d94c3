//! Literals and columns of the wrong kind.
ghost use Rattle.std.specs.Prelude.{◌≡◌, ◌||◌, option_copied};
ghost use Rattle.std.specs.List.{list_any};
ghost use Rattle.rv_lang.specs.declared.reply.Refusal.{Refusal as Why};
ghost use Rattle.rv_restrict.specs.Groups.{groups_of};
ghost use Rattle.rv_catalog.specs.Answers.{Gives, Says, all_pass};
ghost use Rattle.rv_catalog.specs.Kinds.{atom_kind, cannot_hold, column_at, column_of, differ, group_kinds, is_other_kind, is_wrong_operand, kinds, refuse_column, row_kinds, set_kind};

use crate::columns::Item;
use crate::def::BindFault;
use crate::fault::wrong_kind;
use crate::names::Catalog;
use rv_restrict::{Atom, ColRef, Operand};
use rv_value::{Kind, Text, Value};
use std::alloc::Global;

fn cannot(kind: Kind, value: &Value) -> bool
    ensures { result ≡ cannot_hold kind value.now }
{
    match (kind, value) {
        (_, Value::Null) => false,
        (Kind::Big, Value::Int(_)) => false,
        (Kind::Big, Value::Str(_)) => true,
        (Kind::Chars(_), Value::Int(_)) => true,
        (Kind::Chars(n), Value::Str(text)) => text.as_str().len() > n as usize,
    }
}

/// Whether a row fits its table; `last` is the name of the column before.
pub fn check_row(
    alloc: Global,
    last: &str,
    columns: &[(Text, Kind)],
    values: &[Value],
) -> Result<(), BindFault>
    ensures { Gives result (row_kinds last.now columns.now values.now) }
{
    match (columns, values) {
        ([], []) => Ok(()),
        ([], [_first, _more @ ..]) => Err(wrong_kind(alloc, last)),
        ([column, _more @ ..], []) => Err(wrong_kind(alloc, column.0.as_str())),
        ([column, more @ ..], [value, others @ ..]) => {
            if cannot(column.1, value) {
                return Err(wrong_kind(alloc, column.0.as_str()));
            }
            check_row(alloc, column.0.as_str(), more, others)
        }
    }
}

/// The name and the kind of a table's column.
fn find_column(catalog: &Catalog, table: u32, column: u32) -> (&str, Kind)
    ensures { (result.0.now, result.1) ≡ column_of catalog.now.tables table column }
{
    match catalog.columns(table).get(column as usize) {
        None => ("", Kind::Big),
        Some(column) => (column.0.as_str(), column.1),
    }
}

/// The name and the kind of the column that a reference gave.
fn find_at<'a>(catalog: &'a Catalog, reach: &[Item], column: ColRef) -> (&'a str, Kind)
    ensures { (result.0.now, result.1) ≡ column_at catalog.now.tables reach.now column }
{
    match reach.get(column.place as usize) {
        None => find_column(catalog, 0, column.column),
        Some(item) => find_column(catalog, item.table, column.column),
    }
}

fn check_set(
    alloc: Global,
    catalog: &Catalog,
    table: u32,
    set: &(u32, Value),
) -> Result<(), BindFault>
    ensures { Gives result (set_kind catalog.now.tables table set.now) }
{
    let (name, kind) = find_column(catalog, table, set.0);
    if cannot(kind, &set.1) {
        return Err(wrong_kind(alloc, name));
    }
    Ok(())
}

/// Whether each column can hold its new value: refused at the first, in the order of the SET, that cannot.
pub fn check_sets(
    alloc: Global,
    catalog: &Catalog,
    table: u32,
    sets: &[(u32, Value)],
) -> Result<(), BindFault>
    ensures { Gives result (all_pass (set_kind catalog.now.tables table) sets.now) }
{
    'sets: for set in sets {
        check_set(alloc, catalog, table, set)?;
    }
    Ok(())
}

fn other_kind(kind: Kind, value: &Value) -> bool
    ensures { result ≡ is_other_kind kind value.now }
{
    match (kind, value) {
        (_, Value::Null) => false,
        (Kind::Big, Value::Int(_)) => false,
        (Kind::Big, Value::Str(_)) => true,
        (Kind::Chars(_), Value::Int(_)) => true,
        (Kind::Chars(_), Value::Str(_)) => false,
    }
}

fn any_other_kind(kind: Kind, list: &[Value]) -> bool
    ensures { result ≡ list_any (is_other_kind kind) list.now }
{
    list.iter().any(|value| other_kind(kind, value))
}

fn kinds_differ(a: Kind, b: Kind) -> bool
    ensures { result ≡ differ a b }
{
    match (a, b) {
        (Kind::Big, Kind::Big) => false,
        (Kind::Big, Kind::Chars(_)) => true,
        (Kind::Chars(_), Kind::Big) => true,
        (Kind::Chars(_), Kind::Chars(_)) => false,
    }
}

fn is_big(kind: Kind) -> bool
    ensures { result ≡ Rattle.rv_catalog.specs.Kinds.is_big kind }
{
    match kind {
        Kind::Big => true,
        Kind::Chars(_) => false,
    }
}

fn wrong_operand(catalog: &Catalog, reach: &[Item], kind: Kind, operand: &Operand) -> bool
    ensures { result ≡ is_wrong_operand catalog.now.tables reach.now kind operand.now }
{
    match operand {
        Operand::Literal(value) => other_kind(kind, value),
        Operand::Column(column) => {
            let (_name, other) = find_at(catalog, reach, *column);
            kinds_differ(kind, other)
        }
    }
}

/// The refusal of a wrong kind, which shows the column.
fn refuse(alloc: Global, wrong: bool, name: &str) -> Result<(), BindFault>
    ensures { Gives result (Rattle.rv_catalog.specs.Answers.refuse_if wrong (Why.Kind name.now)) }
{
    if wrong {
        return Err(wrong_kind(alloc, name));
    }
    Ok(())
}

fn check_atom(
    alloc: Global,
    catalog: &Catalog,
    reach: &[Item],
    atom: &Atom,
) -> Result<(), BindFault>
    ensures { Gives result (atom_kind catalog.now.tables reach.now atom.now) }
{
    match atom {
        Atom::Compare {
            column,
            op: _,
            operand,
        } => {
            let (name, kind) = find_at(catalog, reach, *column);
            refuse(alloc, wrong_operand(catalog, reach, kind, operand), name)
        }
        Atom::Between { column, low, high } => {
            let (name, kind) = find_at(catalog, reach, *column);
            refuse(alloc, other_kind(kind, low) || other_kind(kind, high), name)
        }
        Atom::Among { column, list } => {
            let (name, kind) = find_at(catalog, reach, *column);
            refuse(alloc, any_other_kind(kind, list.as_slice()), name)
        }
        Atom::IsNull { .. } => Ok(()),
        Atom::Starts { column, text: _ } => {
            let (name, kind) = find_at(catalog, reach, *column);
            refuse(alloc, is_big(kind), name)
        }
        Atom::Const(_) => Ok(()),
    }
}

fn check_group(
    alloc: Global,
    catalog: &Catalog,
    reach: &[Item],
    atoms: &[Atom],
) -> Result<(), BindFault>
    ensures { Gives result (group_kinds catalog.now.tables reach.now atoms.now) }
{
    'atoms: for atom in atoms {
        check_atom(alloc, catalog, reach, atom)?;
    }
    Ok(())
}

/// Whether each comparison is of one kind: refused at the first, in the order of the text, that is not.
pub fn check_groups(
    alloc: Global,
    catalog: &Catalog,
    reach: &[Item],
    groups: &[Vec<Atom>],
) -> Result<(), BindFault>
    ensures { Gives result (kinds catalog.now.tables reach.now (groups_of groups.now)) }
{
    'groups: for group in groups {
        check_group(alloc, catalog, reach, group.as_slice())?;
    }
    Ok(())
}
