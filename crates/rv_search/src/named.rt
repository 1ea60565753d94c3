//! The columns that a restriction names.
ghost use Rattle.std.specs.Prelude.{◌≡◌, ◌++◌, IfOk, OnOk};
ghost use Rattle.rv_restrict.specs.Groups.{groups_of};
ghost use Rattle.rv_search.specs.Named.{atom_columns, columns_named, group_columns, operand_columns};

use rv_restrict::{Atom, Operand, Restriction};
use rv_value::{Items, NoMemory};
use std::alloc::Global;

fn add_operand(operand: &Operand, columns: &mut Vec<u32>) -> Result<(), NoMemory>
    ensures { OnOk result (columns.new.items ≡ columns.old.items ++ operand_columns operand.now) }
{
    match operand {
        Operand::Literal(_) => Ok(()),
        Operand::Column(column) => {
            columns.push(column.column)?;
            Ok(())
        }
    }
}

fn add_atom(atom: &Atom, columns: &mut Vec<u32>) -> Result<(), NoMemory>
    ensures { OnOk result (columns.new.items ≡ columns.old.items ++ atom_columns atom.now) }
{
    match atom {
        Atom::Compare {
            column,
            op: _,
            operand,
        } => {
            columns.push(column.column)?;
            add_operand(operand, columns)
        }
        Atom::Between {
            column,
            low: _,
            high: _,
        } => {
            columns.push(column.column)?;
            Ok(())
        }
        Atom::Among { column, list: _ } => {
            columns.push(column.column)?;
            Ok(())
        }
        Atom::IsNull { column, not: _ } => {
            columns.push(column.column)?;
            Ok(())
        }
        Atom::Starts { column, text: _ } => {
            columns.push(column.column)?;
            Ok(())
        }
        Atom::Const(_) => Ok(()),
    }
}

fn add_group(group: &[Atom], columns: &mut Vec<u32>) -> Result<(), NoMemory>
    ensures { OnOk result (columns.new.items ≡ columns.old.items ++ group_columns group.now) }
{
    match group {
        [] => Ok(()),
        [atom, more @ ..] => {
            add_atom(atom, columns)?;
            add_group(more, columns)
        }
    }
}

fn add_groups(groups: &[Vec<Atom>], columns: &mut Vec<u32>) -> Result<(), NoMemory>
    ensures { OnOk result (columns.new.items ≡ columns.old.items ++ columns_named (groups_of groups.now)) }
{
    match groups {
        [] => Ok(()),
        [group, more @ ..] => {
            add_group(group.as_slice(), columns)?;
            add_groups(more, columns)
        }
    }
}

/// The columns that a restriction names, in the order of its atoms, each as often as it is named.
pub fn columns_named(alloc: Global, only: &Restriction) -> Result<Items<u32>, NoMemory>
    ensures { IfOk result (λ columns. columns ≡ columns_named only.now) }
{
    let mut columns = Vec::new(alloc);
    add_groups(only.groups(), &mut columns)?;
    Ok(Items::from_vec(columns))
}
