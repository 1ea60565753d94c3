//! Statements with numbers for names.
ghost use Rattle.std.specs.Prelude.{◌≡◌, ◌<◌, ◌≤◌, ◌^◌, ◌∷◌, [], IfOk, List, length, map, option_copied, ℕ};
ghost use Rattle.rv_lang.specs.declared.reply.Refusal.{Refusal as Why};
ghost use Rattle.rv_catalog.specs.Answers.{Gives, GivesAs, collected, refuse_some};
ghost use Rattle.rv_catalog.specs.Columns.{own_column};
ghost use Rattle.rv_catalog.specs.Fits.{FitsSchema, parts_in, parts_of};
ghost use Rattle.rv_catalog.specs.Limits.{joined_count};
ghost use Rattle.rv_catalog.specs.Resolve.{column_def, column_name, deleted, first_repeat, form, goal_of, inserted, item, item_name, item_table, itself, kind_of, new_index, new_table, opened, references, resolved, returns, second_or, selected, set_column, set_name, stands_among, steps_of, table_number, updated, width_of};

use crate::columns::{Item, add_all, find_column, find_groups, find_own, put, same};
use crate::def::{BindFault, Goal, IndexDef, Resolved, Select, TableDef};
use crate::fault::{exists, unknown};
use crate::kinds::{check_groups, check_row, check_sets};
use crate::limits::test_limits;
use crate::names::Catalog;
use rv_lang::{RawAtom, RawCol, RawGoal, RawKind, Statement};
use rv_restrict::{ColRef, Restriction};
use rv_value::{Duplicate, Items, Kind, NoMemory, Text, Value, Values};
use std::alloc::Global;

impl Catalog {
    /// A statement with numbers for names, or its first refusal: of the limits of the statement, then the
    /// unknown names, then the names that exist, then the kinds.
    pub fn resolve(&self, statement: &Statement) -> Result<Resolved, BindFault>
        ensures gives { Gives result (resolved self.now statement.now) }

        // Each table and column that the answer names is there, and the limits hold.
        ensures fits { IfOk result (λ r. FitsSchema self.now r) }

        // It has as many columns or items as the statement.
        ensures whole { IfOk result (λ r. parts_in r ≡ parts_of statement.now) }
    {
        test_limits(statement)?;
        resolve_form(self.alloc(), self, statement)
    }
}

fn resolve_form(
    alloc: Global,
    catalog: &Catalog,
    statement: &Statement,
) -> Result<Resolved, BindFault>
    requires { joined_count statement.now ≤ 4 }
    ensures { Gives result (form catalog.now statement.now) }
{
    match statement {
        Statement::CreateTable { name, columns } => {
            resolve_table(alloc, catalog, name, columns.as_slice())
        }
        Statement::CreateIndex {
            unique,
            name,
            table,
            columns,
        } => resolve_index(alloc, catalog, *unique, name, table, columns.as_slice()),
        Statement::Begin { read_only } => Ok(Resolved::Begin {
            read_only: *read_only,
        }),
        Statement::Insert { table, values } => resolve_insert(alloc, catalog, table, values),
        Statement::Update { table, sets, only } => {
            resolve_update(alloc, catalog, table, sets.as_slice(), only.as_slice())
        }
        Statement::Delete { table, only } => {
            resolve_delete(alloc, catalog, table, only.as_slice())
        }
        Statement::Commit => Ok(Resolved::Commit),
        Statement::Rollback => Ok(Resolved::Rollback),
        Statement::Open {
            cursor,
            returned,
            items,
            only,
            order,
            goal,
        } => {
            resolve_open(
                alloc,
                catalog,
                cursor,
                returned,
                items.as_slice(),
                only.as_slice(),
                order.as_slice(),
                *goal,
            )
        }
        Statement::Fetch { cursor } => Ok(Resolved::Fetch(cursor.copy(alloc)?)),
        Statement::Show { cursor } => Ok(Resolved::Show(cursor.copy(alloc)?)),
        Statement::Close { cursor } => Ok(Resolved::Close(cursor.copy(alloc)?)),
        Statement::Step { cursor, n } => Ok(Resolved::Step {
            cursor: cursor.copy(alloc)?,
            n: steps(*n),
        }),
    }
}

fn resolve_open(
    alloc: Global,
    catalog: &Catalog,
    cursor: &Text,
    returned: &Option<Items<RawCol>>,
    items: &[(Text, Option<Text>)],
    only: &[Items<RawAtom>],
    order: &[RawCol],
    raw: RawGoal,
) -> Result<Resolved, BindFault>
    requires { length items.now ≤ 4 }
    ensures { Gives result (opened catalog.now cursor.now returned.now items.now only.now order.now raw) }
{
    let select = resolve_select(alloc, catalog, returned, items, only, order, raw)?;
    match cursor.copy(alloc) {
        Ok(cursor) => Ok(Resolved::Open { cursor, select }),
        Err(_) => {
            drop(select);
            Err(BindFault::NoMemory)
        }
    }
}

fn steps(n: i64) -> u64
    ensures { result ≡ steps_of n }
{
    if n < 0 { 0 } else { n as u64 }
}

/// The number of a table.
fn number_of(alloc: Global, catalog: &Catalog, table: &Text) -> Result<u32, BindFault>
    ensures { Gives result (table_number catalog.now.tables table.now) }
{
    match catalog.table_of(table) {
        Some(number) => Ok(number as u32),
        None => Err(unknown(alloc, table)),
    }
}

/// What has a name that may stand once in a list.
trait Named {
    ghost name_of: { Self → List ℕ };

    /// The name by which it is told apart from the others of its list.
    fn name(&self) -> &Text
        ensures { result.now ≡ name_of self.now };
}

impl Named for Text {
    ghost name_of = { itself };

    fn name(&self) -> &Text {
        self
    }
}

impl Named for (Text, RawKind) {
    ghost name_of = { column_name };

    fn name(&self) -> &Text {
        &self.0
    }
}

impl Named for (Text, Value) {
    ghost name_of = { set_name };

    fn name(&self) -> &Text {
        &self.0
    }
}

impl Named for Item {
    ghost name_of = { item_name };

    fn name(&self) -> &Text {
        &self.name
    }
}

/// The name at the earliest place that repeats an earlier one.
fn repeated<X: Named>(items: &[X]) -> Option<&Text>
    ensures { option_copied result ≡ first_repeat X.name_of [] items.now }
{
    'items: for i in 0..items.len() {
        if stands(&items[..i], items[i].name()) {
            return Some(items[i].name());
        }
    }
    None
}

fn stands<X: Named>(items: &[X], name: &Text) -> bool
    ensures { result ≡ stands_among X.name_of items.now name.now }
{
    items.iter().any(|item| same(name, item.name()))
}

/// Each name once, or the first that is repeated.
fn once<X: Named>(alloc: Global, items: &[X]) -> Result<(), BindFault>
    ensures { Gives result (refuse_some (first_repeat X.name_of [] items.now) Why.Exists) }
{
    match repeated(items) {
        None => Ok(()),
        Some(name) => Err(exists(alloc, name)),
    }
}

fn resolve_table(
    alloc: Global,
    catalog: &Catalog,
    name: &Text,
    columns: &[(Text, RawKind)],
) -> Result<Resolved, BindFault>
    ensures { Gives result (new_table catalog.now name.now columns.now) }
{
    if catalog.table_of(name).is_some() {
        return Err(exists(alloc, name));
    }
    once(alloc, columns)?;
    Ok(Resolved::CreateTable(TableDef {
        name: name.copy(alloc)?,
        columns: Items::from_vec(column_defs(alloc, columns)?),
    }))
}

fn column_defs(alloc: Global, columns: &[(Text, RawKind)]) -> Result<Vec<(Text, Kind)>, NoMemory>
    ensures { IfOk result (λ defs. defs.items ≡ map column_def columns.now) }
{
    let mut defs = Vec::with_capacity(alloc, columns.len())?;
    'columns: for column in columns {
        put(&mut defs, (column.0.copy(alloc)?, kind(column.1)))?;
    }
    Ok(defs)
}

fn kind(raw: RawKind) -> Kind
    ensures { result ≡ kind_of raw }
{
    match raw {
        RawKind::Big => Kind::Big,
        RawKind::Chars(n) => Kind::Chars(width(n)),
    }
}

fn width(n: i64) -> u8
    ensures { result ≡ width_of n }
{
    if n < 0 {
        0
    } else if n > 255 {
        255
    } else {
        n as u8
    }
}

fn resolve_index(
    alloc: Global,
    catalog: &Catalog,
    unique: bool,
    name: &Text,
    table: &Text,
    columns: &[Text],
) -> Result<Resolved, BindFault>
    ensures { Gives result (new_index catalog.now unique name.now table.now columns.now) }
{
    let number = number_of(alloc, catalog, table)?;
    let found = find_numbers(alloc, catalog, number, columns)?;
    if catalog.has_index(name) {
        return Err(exists(alloc, name));
    }
    once(alloc, columns)?;
    Ok(Resolved::CreateIndex(IndexDef {
        name: name.copy(alloc)?,
        table: number,
        columns: Items::from_vec(found),
        unique,
    }))
}

fn find_numbers(
    alloc: Global,
    catalog: &Catalog,
    table: u32,
    columns: &[Text],
) -> Result<Vec<u32>, BindFault>
    ensures { GivesAs (λ found. found.items) result (collected (own_column catalog.now.tables table) [] columns.now) }
{
    let mut found = Vec::with_capacity(alloc, columns.len())?;
    'columns: for column in columns {
        found.push(find_own(alloc, catalog, table, column)?)?;
    }
    Ok(found)
}

fn resolve_insert(
    alloc: Global,
    catalog: &Catalog,
    table: &Text,
    values: &Values,
) -> Result<Resolved, BindFault>
    ensures { Gives result (inserted catalog.now table.now values.now) }
{
    let number = number_of(alloc, catalog, table)?;
    check_row(alloc, "", catalog.columns(number), values.as_slice())?;
    Ok(Resolved::Insert {
        table: number,
        values: values.copy(alloc)?,
    })
}

/// The table alone in reach, under its own name.
fn alone(alloc: Global, table: &Text, number: u32) -> Result<Item, NoMemory>
    ensures { IfOk result (λ i. i ∷ [] ≡ Rattle.rv_catalog.specs.Resolve.alone table.now number) }
{
    Ok(Item {
        name: table.copy(alloc)?,
        table: number,
    })
}

fn resolve_update(
    alloc: Global,
    catalog: &Catalog,
    table: &Text,
    sets: &[(Text, Value)],
    only: &[Items<RawAtom>],
) -> Result<Resolved, BindFault>
    ensures { Gives result (updated catalog.now table.now sets.now only.now) }
{
    let number = number_of(alloc, catalog, table)?;
    let found = find_sets(alloc, catalog, number, sets)?;
    let item = alone(alloc, table, number)?;
    let reach = std::slice::from_ref(&item);
    let groups = find_groups(alloc, catalog, reach, only)?;
    once(alloc, sets)?;
    check_sets(alloc, catalog, number, found.as_slice())?;
    check_groups(alloc, catalog, reach, groups.as_slice())?;
    Ok(Resolved::Update {
        table: number,
        sets: Items::from_vec(found),
        only: Restriction::from_groups(groups),
    })
}

fn find_set(
    alloc: Global,
    catalog: &Catalog,
    table: u32,
    set: &(Text, Value),
) -> Result<(u32, Value), BindFault>
    ensures { Gives result (set_column catalog.now.tables table set.now) }
{
    let column = find_own(alloc, catalog, table, &set.0)?;
    Ok((column, set.1.copy(alloc)?))
}

fn find_sets(
    alloc: Global,
    catalog: &Catalog,
    table: u32,
    sets: &[(Text, Value)],
) -> Result<Vec<(u32, Value)>, BindFault>
    ensures { GivesAs (λ found. found.items) result (collected (set_column catalog.now.tables table) [] sets.now) }
{
    let mut found = Vec::with_capacity(alloc, sets.len())?;
    'sets: for set in sets {
        put(&mut found, find_set(alloc, catalog, table, set)?)?;
    }
    Ok(found)
}

fn resolve_delete(
    alloc: Global,
    catalog: &Catalog,
    table: &Text,
    only: &[Items<RawAtom>],
) -> Result<Resolved, BindFault>
    ensures { Gives result (deleted catalog.now table.now only.now) }
{
    let number = number_of(alloc, catalog, table)?;
    let item = alone(alloc, table, number)?;
    let reach = std::slice::from_ref(&item);
    let groups = find_groups(alloc, catalog, reach, only)?;
    check_groups(alloc, catalog, reach, groups.as_slice())?;
    Ok(Resolved::Delete {
        table: number,
        only: Restriction::from_groups(groups),
    })
}

fn resolve_select(
    alloc: Global,
    catalog: &Catalog,
    returned: &Option<Items<RawCol>>,
    items: &[(Text, Option<Text>)],
    only: &[Items<RawAtom>],
    order: &[RawCol],
    raw: RawGoal,
) -> Result<Select, BindFault>
    requires { length items.now ≤ 4 }
    ensures { Gives result (selected catalog.now returned.now items.now only.now order.now raw) }
{
    let reach = find_items(alloc, catalog, items)?;
    let returns = find_returned(alloc, catalog, reach.as_slice(), returned)?;
    let groups = find_groups(alloc, catalog, reach.as_slice(), only)?;
    let order = find_columns(alloc, catalog, reach.as_slice(), order)?;
    once(alloc, reach.as_slice())?;
    check_groups(alloc, catalog, reach.as_slice(), groups.as_slice())?;
    Ok(Select {
        tables: Items::from_vec(tables_of(alloc, reach.as_slice())?),
        only: Restriction::from_groups(groups),
        returns: Items::from_vec(returns),
        order: Items::from_vec(order),
        goal: goal(raw),
    })
}

fn goal(raw: RawGoal) -> Goal
    ensures { result ≡ goal_of raw }
{
    match raw {
        RawGoal::FastFirst => Goal::FastFirst,
        RawGoal::TotalTime => Goal::TotalTime,
    }
}

fn find_item(
    alloc: Global,
    catalog: &Catalog,
    raw: &(Text, Option<Text>),
) -> Result<Item, BindFault>
    ensures { Gives result (item catalog.now.tables raw.now) }
{
    let table = number_of(alloc, catalog, &raw.0)?;
    Ok(Item {
        name: second_name(&raw.1, &raw.0).copy(alloc)?,
        table,
    })
}

fn second_name<'a>(second: &'a Option<Text>, table: &'a Text) -> &'a Text
    ensures { result.now ≡ second_or second.now table.now }
{
    match second {
        None => table,
        Some(name) => name,
    }
}

fn find_items(
    alloc: Global,
    catalog: &Catalog,
    items: &[(Text, Option<Text>)],
) -> Result<Vec<Item>, BindFault>
    ensures gives { GivesAs (λ found. found.items) result (collected (item catalog.now.tables) [] items.now) }
    ensures len { IfOk result (λ found. length found.items ≡ length items.now) }
{
    let mut found = Vec::with_capacity(alloc, items.len())?;
    'items: for raw in items {
        put(&mut found, find_item(alloc, catalog, raw)?)?;
    }
    Ok(found)
}

fn find_columns(
    alloc: Global,
    catalog: &Catalog,
    reach: &[Item],
    raws: &[RawCol],
) -> Result<Vec<ColRef>, BindFault>
    requires { length reach.now < 2 ^ 32 }
    ensures { GivesAs (λ found. found.items) result (references catalog.now.tables reach.now raws.now) }
{
    let mut found = Vec::with_capacity(alloc, raws.len())?;
    'raws: for raw in raws {
        found.push(find_column(alloc, catalog, reach, raw)?)?;
    }
    Ok(found)
}

fn find_returned(
    alloc: Global,
    catalog: &Catalog,
    reach: &[Item],
    returned: &Option<Items<RawCol>>,
) -> Result<Vec<ColRef>, BindFault>
    requires { length reach.now < 2 ^ 32 }
    ensures { GivesAs (λ found. found.items) result (returns catalog.now.tables reach.now returned.now) }
{
    match returned {
        None => {
            let mut found = Vec::new(alloc);
            add_all(catalog, 0, reach, &mut found)?;
            Ok(found)
        }
        Some(raws) => find_columns(alloc, catalog, reach, raws.as_slice()),
    }
}

fn tables_of(alloc: Global, reach: &[Item]) -> Result<Vec<u32>, NoMemory>
    ensures { IfOk result (λ tables. tables.items ≡ map item_table reach.now) }
{
    let mut tables = Vec::with_capacity(alloc, reach.len())?;
    'items: for item in reach {
        tables.push(item.table)?;
    }
    Ok(tables)
}
