//! References to columns, looked up among the tables in reach, and conditions with these looked up.
ghost use Rattle.std.specs.Prelude.{◌≡◌, ◌<◌, ◌≤◌, ◌+◌, ◌^◌, ◌++◌, ◌∷◌, [], bytes_eq, length, OnOk};
ghost use Rattle.rv_lang.specs.declared.statement.RawAtom.TheVariants.{Compare as RawCompare, Between as RawBetween, Among as RawAmong, IsNull as RawIsNull, Starts as RawStarts};
ghost use Rattle.rv_restrict.specs.Groups.{groups_of};
ghost use Rattle.rv_catalog.specs.Answers.{Gives, GivesAs};
ghost use Rattle.rv_catalog.specs.Columns.{all_columns, also, atom, columns_from, fit_columns, fit_items, group, groups, item_fits, op_of, operand, own_column, reference};

use crate::def::BindFault;
use crate::fault::unknown;
use crate::names::Catalog;
use rv_lang::{RawAtom, RawCol, RawOp, RawOperand};
use rv_restrict::{Atom, ColRef, Op, Operand};
use rv_value::{Duplicate, Items, Kind, NoMemory, Text, Value, Values};
use std::alloc::Global;

/// A table in reach, with the name by which its columns are qualified.
#[derive(Drop)]
pub struct Item {
    pub name: Text,
    pub table: u32,
}

/// What a reference fits.
#[derive(Clone, Copy, PartialEq, Eq)]
pub enum Fit {
    Nothing,
    One(ColRef),
    Several,
}

impl Fit {
    fn also(self, column: ColRef) -> Fit
        ensures { result ≡ also self column }
    {
        match self {
            Fit::Nothing => Fit::One(column),
            Fit::One(_) => Fit::Several,
            Fit::Several => Fit::Several,
        }
    }

    fn only_one(self, alloc: Global, name: &Text) -> Result<ColRef, BindFault>
        ensures { Gives result (Rattle.rv_catalog.specs.Columns.only_one self name.now) }
    {
        match self {
            Fit::Nothing => Err(unknown(alloc, name)),
            Fit::One(column) => Ok(column),
            Fit::Several => Err(unknown(alloc, name)),
        }
    }
}

/// Whether two names are the same, byte by byte: the lexer has put them in capitals.
pub fn same(a: &Text, b: &Text) -> bool
    ensures { result ≡ bytes_eq a.now b.now }
{
    a.as_str() == b.as_str()
}

/// What a name fits among the columns of one table, numbered from `first`.
fn fit_in(name: &Text, place: u32, first: u32, columns: &[(Text, Kind)], fit: Fit) -> Fit
    requires { first + length columns.now < 2 ^ 32 }
    ensures { result ≡ fit_columns name.now place first columns.now fit }
{
    match columns {
        [] => fit,
        [column, more @ ..] => {
            let fit = if same(name, &column.0) {
                fit.also(ColRef {
                    place,
                    column: first,
                })
            } else {
                fit
            };
            fit_in(name, place, first + 1, more, fit)
        }
    }
}

fn fits_item(qualifier: &Option<Text>, name: &Text) -> bool
    ensures { result ≡ item_fits qualifier.now name.now }
{
    match qualifier {
        None => true,
        Some(qualifier) => same(qualifier, name),
    }
}

/// What a reference fits among the items in reach, numbered from `place`.
fn fit_among(catalog: &Catalog, raw: &RawCol, place: u32, reach: &[Item], fit: Fit) -> Fit
    requires { place + length reach.now < 2 ^ 32 }
    ensures { result ≡ fit_items catalog.now.tables raw.now.table raw.now.column place reach.now fit }
{
    match reach {
        [] => fit,
        [item, more @ ..] => {
            let fit = if fits_item(&raw.table, &item.name) {
                fit_in(&raw.column, place, 0, catalog.columns(item.table), fit)
            } else {
                fit
            };
            fit_among(catalog, raw, place + 1, more, fit)
        }
    }
}

/// The column of a reference; unknown where it fits none, or more than one.
pub fn find_column(
    alloc: Global,
    catalog: &Catalog,
    reach: &[Item],
    raw: &RawCol,
) -> Result<ColRef, BindFault>
    requires { length reach.now < 2 ^ 32 }
    ensures { Gives result (reference catalog.now.tables reach.now raw.now) }
{
    fit_among(catalog, raw, 0, reach, Fit::Nothing).only_one(alloc, &raw.column)
}

/// The number of the table's column of a name, from 0. Refused where the table has none.
pub fn find_own(alloc: Global, catalog: &Catalog, table: u32, name: &Text) -> Result<u32, BindFault>
    ensures { Gives result (own_column catalog.now.tables table name.now) }
{
    let fit = fit_in(name, 0, 0, catalog.columns(table), Fit::Nothing);
    let column = fit.only_one(alloc, name)?;
    Ok(column.column)
}

fn op(raw: RawOp) -> Op
    ensures { result ≡ op_of raw }
{
    match raw {
        RawOp::Eq => Op::Eq,
        RawOp::Ne => Op::Ne,
        RawOp::Lt => Op::Lt,
        RawOp::Le => Op::Le,
        RawOp::Gt => Op::Gt,
        RawOp::Ge => Op::Ge,
    }
}

fn find_operand(
    alloc: Global,
    catalog: &Catalog,
    reach: &[Item],
    raw: &RawOperand,
) -> Result<Operand, BindFault>
    requires { length reach.now < 2 ^ 32 }
    ensures { Gives result (operand catalog.now.tables reach.now raw.now) }
{
    match raw {
        RawOperand::Literal(value) => Ok(Operand::Literal(value.copy(alloc)?)),
        RawOperand::Column(raw) => Ok(Operand::Column(find_column(alloc, catalog, reach, raw)?)),
    }
}

fn find_compare(
    alloc: Global,
    catalog: &Catalog,
    reach: &[Item],
    raw: &RawCol,
    by: RawOp,
    other: &RawOperand,
) -> Result<Atom, BindFault>
    requires { length reach.now < 2 ^ 32 }
    ensures { Gives result (atom catalog.now.tables reach.now (RawCompare raw.now by other.now)) }
{
    let column = find_column(alloc, catalog, reach, raw)?;
    let operand = find_operand(alloc, catalog, reach, other)?;
    Ok(Atom::Compare {
        column,
        op: op(by),
        operand,
    })
}

fn find_between(
    alloc: Global,
    catalog: &Catalog,
    reach: &[Item],
    raw: &RawCol,
    low: &Value,
    high: &Value,
) -> Result<Atom, BindFault>
    requires { length reach.now < 2 ^ 32 }
    ensures { Gives result (atom catalog.now.tables reach.now (RawBetween raw.now low.now high.now)) }
{
    let column = find_column(alloc, catalog, reach, raw)?;
    let low = low.copy(alloc)?;
    match high.copy(alloc) {
        Ok(high) => Ok(Atom::Between { column, low, high }),
        Err(_) => {
            drop(low);
            Err(BindFault::NoMemory)
        }
    }
}

fn find_among(
    alloc: Global,
    catalog: &Catalog,
    reach: &[Item],
    raw: &RawCol,
    list: &Values,
) -> Result<Atom, BindFault>
    requires { length reach.now < 2 ^ 32 }
    ensures { Gives result (atom catalog.now.tables reach.now (RawAmong raw.now list.now)) }
{
    let column = find_column(alloc, catalog, reach, raw)?;
    let list = list.copy(alloc)?;
    Ok(Atom::Among { column, list })
}

fn find_null(
    alloc: Global,
    catalog: &Catalog,
    reach: &[Item],
    raw: &RawCol,
    not: bool,
) -> Result<Atom, BindFault>
    requires { length reach.now < 2 ^ 32 }
    ensures { Gives result (atom catalog.now.tables reach.now (RawIsNull raw.now not)) }
{
    let column = find_column(alloc, catalog, reach, raw)?;
    Ok(Atom::IsNull { column, not })
}

fn find_starts(
    alloc: Global,
    catalog: &Catalog,
    reach: &[Item],
    raw: &RawCol,
    text: &Text,
) -> Result<Atom, BindFault>
    requires { length reach.now < 2 ^ 32 }
    ensures { Gives result (atom catalog.now.tables reach.now (RawStarts raw.now text.now)) }
{
    let column = find_column(alloc, catalog, reach, raw)?;
    let text = text.copy(alloc)?;
    Ok(Atom::Starts { column, text })
}

fn find_atom(
    alloc: Global,
    catalog: &Catalog,
    reach: &[Item],
    raw: &RawAtom,
) -> Result<Atom, BindFault>
    requires { length reach.now < 2 ^ 32 }
    ensures { Gives result (atom catalog.now.tables reach.now raw.now) }
{
    match raw {
        RawAtom::Compare {
            column,
            op,
            operand,
        } => find_compare(alloc, catalog, reach, column, *op, operand),
        RawAtom::Between { column, low, high } => {
            find_between(alloc, catalog, reach, column, low, high)
        }
        RawAtom::Among { column, list } => find_among(alloc, catalog, reach, column, list),
        RawAtom::IsNull { column, not } => find_null(alloc, catalog, reach, column, *not),
        RawAtom::Starts { column, text } => find_starts(alloc, catalog, reach, column, text),
    }
}

/// Puts an item at the end of a list.
pub fn put<X: Drop>(found: &mut Vec<X>, item: X) -> Result<(), NoMemory>
    ensures { OnOk result (found.new.items ≡ found.old.items ++ item ∷ []) }
{
    found.push(item)?;
    Ok(())
}

fn find_group(
    alloc: Global,
    catalog: &Catalog,
    reach: &[Item],
    raws: &[RawAtom],
) -> Result<Vec<Atom>, BindFault>
    requires { length reach.now < 2 ^ 32 }
    ensures { GivesAs (λ found. found.items) result (group catalog.now.tables reach.now raws.now) }
{
    let mut found = Vec::with_capacity(alloc, raws.len())?;
    'atoms: for raw in raws {
        put(&mut found, find_atom(alloc, catalog, reach, raw)?)?;
    }
    Ok(found)
}

/// A condition with its references looked up from the left.
pub fn find_groups(
    alloc: Global,
    catalog: &Catalog,
    reach: &[Item],
    only: &[Items<RawAtom>],
) -> Result<Vec<Vec<Atom>>, BindFault>
    requires { length reach.now < 2 ^ 32 }
    ensures { GivesAs (λ found. groups_of found.items) result (groups catalog.now.tables reach.now only.now) }
{
    let mut found = Vec::with_capacity(alloc, only.len())?;
    'groups: for raws in only {
        put(
            &mut found,
            find_group(alloc, catalog, reach, raws.as_slice())?,
        )?;
    }
    Ok(found)
}

/// Adds all columns of one table, numbered from `first`.
fn add_columns(
    place: u32,
    first: u32,
    columns: &[(Text, Kind)],
    found: &mut Vec<ColRef>,
) -> Result<(), NoMemory>
    requires { first + length columns.now < 2 ^ 32 }
    ensures { OnOk result (found.new.items ≡ found.old.items ++ columns_from place first columns.now) }
{
    match columns {
        [] => Ok(()),
        [_column, more @ ..] => {
            found.push(ColRef {
                place,
                column: first,
            })?;
            add_columns(place, first + 1, more, found)
        }
    }
}

/// Adds all columns of all items in reach, numbered from `place`.
pub fn add_all(
    catalog: &Catalog,
    place: u32,
    reach: &[Item],
    found: &mut Vec<ColRef>,
) -> Result<(), NoMemory>
    requires { place + length reach.now < 2 ^ 32 }
    ensures { OnOk result (found.new.items ≡ found.old.items ++ all_columns catalog.now.tables place reach.now) }
{
    match reach {
        [] => Ok(()),
        [item, more @ ..] => {
            add_columns(place, 0, catalog.columns(item.table), found)?;
            add_all(catalog, place + 1, more, found)
        }
    }
}
