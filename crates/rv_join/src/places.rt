//! FROM items: what is needed of each, and what its retrievals are asked.
ghost use Rattle.std.specs.Prelude.{◌≡◌, ℕ, ◌+◌, ◌<◌, ◌≤◌, ◌^◌, List, [], ◌∷◌, ◌++◌, length, true, map, IfOk, OnOk};
ghost use Rattle.std.specs.List.{list_all, list_any};
ghost use Rattle.rv_restrict.specs.Bind.{can_bind};
ghost use Rattle.rv_restrict.specs.Groups.{groups_of};
ghost use Rattle.rv_restrict.specs.Parts.{stands_among};
ghost use Rattle.rv_judge.specs.Counting.{reads};
ghost use Rattle.rv_retrieval.specs.Short.{OnlyLeaves, has_short};
ghost use Rattle.rv_access.specs.Accesses.{Settled, effort, fetches_left, query_of, trace_of};
ghost use Rattle.rv_access.specs.Opened.{Opened, life_of};
ghost use Rattle.rv_judge.specs.Tracing.{CountsAll};
ghost use Rattle.rv_join.specs.Asking.{Adds, AreWide, Asks, CanPlan, CanRun, IsAsked, IsItem, OpensItem, atom_names, by_index, col_at, columns_of, goal_of, group_names, indexes_from, is_first, item_at, only_names, operand_names, order_at, same_column, select_uses, table_at};

use rv_access::{Access, Over};
use rv_catalog::{Goal, IndexDef, Select};
use rv_choice::{Goal2, Query, ordered};
use rv_judge::Steps;
use rv_reader::Reader;
use rv_restrict::{Atom, ColRef, Operand, Restriction};
use rv_value::{Duplicate, Items, NoMemory, Shared, Values};
use std::alloc::Global;

/// A FROM item: its table, the table's indexes in order of creation, each with its number and its columns, the columns
/// needed of the item, and those by which its rows are to come in order. What each of its openings is asked alike is shared.
#[derive(Drop)]
pub struct Item {
    pub table: u32,
    pub indexes: Shared<Items<(u32, Items<u32>)>>,
    pub need: Shared<Items<u32>>,
    pub order: Items<u32>,
}

/// What a plan is asked: its FROM items, the rest of the select, the snapshot, the cursor's number, and whether indexes may
/// race.
#[derive(Drop)]
pub struct Asked {
    pub items: Items<Item>,
    pub only: Restriction,
    pub returns: Items<ColRef>,
    pub order: Items<ColRef>,
    pub goal: Goal2,
    pub snap: u64,
    pub cursor: u64,
    /// Whether indexes may race.
    pub race: bool,
}

impl Asked {
    /// The FROM item of a place, from 0 on in FROM order.
    pub fn item(&self, place: usize) -> &Item
        requires { place < length self.now.items }
        ensures { result.now ≡ item_at self.now place }
    {
        &self.items.as_slice()[place]
    }
}

fn goal_of(goal: Goal) -> Goal2
    ensures { result ≡ goal_of goal }
{
    match goal {
        Goal::FastFirst => Goal2::FastFirst,
        Goal::TotalTime => Goal2::TotalTime,
    }
}

fn stands_among(columns: &[u32], column: u32) -> bool
    ensures { result ≡ stands_among columns.now column }
{
    match columns {
        [] => false,
        [first, more @ ..] => *first == column || stands_among(more, column),
    }
}

/// Adds a column that is of this place, where it does not stand there yet.
#[tactic(auto, using(crate::proofs::Naming::adds_new, crate::proofs::Naming::adds_other, crate::proofs::Naming::adds_there))]
fn add_column(place: u32, column: ColRef, need: &mut Vec<u32>) -> Result<(), NoMemory>
    ensures { OnOk result (Adds (λ c. same_column (col_at place c) column) need.old.items need.new.items) }
{
    if column.place != place || stands_among(need.as_slice(), column.column) {
        return Ok(());
    }
    need.push(column.column)?;
    Ok(())
}

#[tactic(auto, using(crate::proofs::Naming::adds_none, crate::proofs::Naming::adds_both))]
fn add_columns(place: u32, columns: &[ColRef], need: &mut Vec<u32>) -> Result<(), NoMemory>
    ensures { OnOk result (Adds (λ c. list_any (same_column (col_at place c)) columns.now) need.old.items need.new.items) }
{
    match columns {
        [] => Ok(()),
        [column, more @ ..] => {
            add_column(place, *column, need)?;
            add_columns(place, more, need)
        }
    }
}

#[tactic(auto, using(crate::proofs::Naming::adds_none, crate::proofs::Naming::adds_both))]
fn add_operand(place: u32, operand: &Operand, need: &mut Vec<u32>) -> Result<(), NoMemory>
    ensures { OnOk result (Adds (λ c. operand_names (col_at place c) operand.now) need.old.items need.new.items) }
{
    match operand {
        Operand::Literal(_) => Ok(()),
        Operand::Column(column) => add_column(place, *column, need),
    }
}

#[tactic(auto, using(crate::proofs::Naming::adds_none, crate::proofs::Naming::adds_both))]
fn add_atom(place: u32, atom: &Atom, need: &mut Vec<u32>) -> Result<(), NoMemory>
    ensures { OnOk result (Adds (λ c. atom_names (col_at place c) atom.now) need.old.items need.new.items) }
{
    match atom {
        Atom::Compare {
            column,
            op: _,
            operand,
        } => {
            add_column(place, *column, need)?;
            add_operand(place, operand, need)
        }
        Atom::Between {
            column,
            low: _,
            high: _,
        } => add_column(place, *column, need),
        Atom::Among { column, list: _ } => add_column(place, *column, need),
        Atom::IsNull { column, not: _ } => add_column(place, *column, need),
        Atom::Starts { column, text: _ } => add_column(place, *column, need),
        Atom::Const(_) => Ok(()),
    }
}

#[tactic(auto, using(crate::proofs::Naming::adds_none, crate::proofs::Naming::adds_both))]
fn add_group(place: u32, group: &[Atom], need: &mut Vec<u32>) -> Result<(), NoMemory>
    ensures { OnOk result (Adds (λ c. group_names (col_at place c) group.now) need.old.items need.new.items) }
{
    match group {
        [] => Ok(()),
        [atom, more @ ..] => {
            add_atom(place, atom, need)?;
            add_group(place, more, need)
        }
    }
}

#[tactic(auto, using(crate::proofs::Naming::adds_none, crate::proofs::Naming::adds_both))]
fn add_groups(place: u32, groups: &[Vec<Atom>], need: &mut Vec<u32>) -> Result<(), NoMemory>
    ensures { OnOk result (Adds (λ c. only_names (col_at place c) (groups_of groups.now)) need.old.items need.new.items) }
{
    match groups {
        [] => Ok(()),
        [group, more @ ..] => {
            add_group(place, group.as_slice(), need)?;
            add_groups(place, more, need)
        }
    }
}

/// The columns that a select names of one FROM item: those returned, sorted by, and restricted, also in groups that are
/// bound at later items.
#[tactic(auto, using(crate::proofs::Naming::needed_is))]
fn needed(alloc: Global, select: &Select, place: u32) -> Result<Items<u32>, NoMemory>
    ensures { IfOk result (λ need. (c : ℕ) → stands_among need c ≡ select_uses select.now (col_at place c)) }
{
    let mut need = Vec::new(alloc);
    add_columns(place, select.returns.as_slice(), &mut need)?;
    add_columns(place, select.order.as_slice(), &mut need)?;
    add_groups(place, select.only.groups(), &mut need)?;
    Ok(Items::from_vec(need))
}

/// Adds the indexes over a table, each with its number, of which the first is given.
fn add_indexes(
    alloc: Global,
    table: u32,
    number: u32,
    indexes: &[IndexDef],
    found: &mut Vec<(u32, Items<u32>)>,
) -> Result<(), NoMemory>
    requires { number + length indexes.now < 2 ^ 32 }
    ensures { OnOk result (found.new.items ≡ found.old.items ++ indexes_from table number indexes.now) }
{
    match indexes {
        [] => Ok(()),
        [index, more @ ..] => {
            if index.table == table {
                found.push((number, index.columns.copy(alloc)?))?;
            }
            add_indexes(alloc, table, number + 1, more, found)
        }
    }
}

/// The indexes over a table in order of creation, each with its number, which is its position, and its columns.
pub fn indexes_over(
    alloc: Global,
    table: u32,
    indexes: &[IndexDef],
) -> Result<Items<(u32, Items<u32>)>, NoMemory>
    requires { length indexes.now < 2 ^ 32 }
    ensures { IfOk result (λ found. found ≡ indexes_from table 0 indexes.now) }
{
    let mut found = Vec::new(alloc);
    add_indexes(alloc, table, 0, indexes, &mut found)?;
    Ok(Items::from_vec(found))
}

fn are_first(columns: &[ColRef]) -> bool
    ensures { result ≡ list_all is_first columns.now }
{
    columns.iter().all(|column| column.place == 0)
}

fn add_numbers(columns: &[ColRef], numbers: &mut Vec<u32>) -> Result<(), NoMemory>
    ensures { OnOk result (numbers.new.items ≡ numbers.old.items ++ columns_of columns.now) }
{
    match columns {
        [] => Ok(()),
        [column, more @ ..] => {
            numbers.push(column.column)?;
            add_numbers(more, numbers)
        }
    }
}

/// The numbers of columns without their places.
fn numbers_of(alloc: Global, columns: &[ColRef]) -> Result<Items<u32>, NoMemory>
    ensures { IfOk result (λ numbers. numbers ≡ columns_of columns.now) }
{
    let mut numbers = Vec::new(alloc);
    add_numbers(columns, &mut numbers)?;
    Ok(Items::from_vec(numbers))
}

/// Whether the order of a select comes from an index: its columns are all of the first FROM item, and an index of its
/// table begins with them.
pub fn by_index(alloc: Global, select: &Select, indexes: &[IndexDef]) -> Result<bool, NoMemory>
    requires some { 1 ≤ length select.now.tables }
    requires numbers { length indexes.now < 2 ^ 32 }
    ensures { IfOk result (λ by. by ≡ by_index select.now indexes.now) }
{
    let first = select.tables.as_slice()[0];
    let over = indexes_over(alloc, first, indexes)?;
    let numbers = numbers_of(alloc, select.order.as_slice())?;
    Ok(are_first(select.order.as_slice()) && ordered(over.as_slice(), numbers.as_slice()))
}

/// The columns by which an item's rows are to come; only the first item is asked for an order.
#[tactic(auto, using(crate::proofs::Orders::no_order, crate::proofs::Orders::first_alone))]
fn order_at(
    alloc: Global,
    select: &Select,
    indexes: &[IndexDef],
    place: u32,
) -> Result<Items<u32>, NoMemory>
    requires some { 1 ≤ length select.now.tables }
    requires numbers { length indexes.now < 2 ^ 32 }
    ensures { IfOk result (λ order. order ≡ order_at select.now indexes.now place) }
{
    if place != 0 || select.order.is_empty() {
        return Ok(Items::new(alloc));
    }
    if by_index(alloc, select, indexes)? {
        numbers_of(alloc, select.order.as_slice())
    } else {
        Ok(Items::new(alloc))
    }
}

/// The indexes over a table, of which each opening of an item has the same.
fn indexes_shared(
    alloc: Global,
    table: u32,
    indexes: &[IndexDef],
) -> Result<Shared<Items<(u32, Items<u32>)>>, NoMemory>
    requires { length indexes.now < 2 ^ 32 }
    ensures { IfOk result (λ found. found ≡ indexes_from table 0 indexes.now) }
{
    let over = indexes_over(alloc, table, indexes)?;
    let shared = Shared::new(alloc, over)?;
    Ok(shared)
}

/// The columns needed of one FROM item, of which each opening of it has the same.
fn need_shared(alloc: Global, select: &Select, place: u32) -> Result<Shared<Items<u32>>, NoMemory>
    ensures { IfOk result (λ need. (c : ℕ) → stands_among need c ≡ select_uses select.now (col_at place c)) }
{
    let named = needed(alloc, select, place)?;
    let shared = Shared::new(alloc, named)?;
    Ok(shared)
}

fn item_of(
    alloc: Global,
    select: &Select,
    indexes: &[IndexDef],
    place: u32,
) -> Result<Item, NoMemory>
    requires inside { place < length select.now.tables }
    requires numbers { length indexes.now < 2 ^ 32 }
    ensures { IfOk result (λ item. IsItem select.now indexes.now place item) }
{
    let table = select.tables.as_slice()[place as usize];
    Ok(Item {
        table,
        indexes: indexes_shared(alloc, table, indexes)?,
        need: need_shared(alloc, select, place)?,
        order: order_at(alloc, select, indexes, place)?,
    })
}

/// The items of a select, in FROM order.
fn items(alloc: Global, select: &Select, indexes: &[IndexDef]) -> Result<Vec<Item>, NoMemory>
    requires joined { length select.now.tables ≤ 4 }
    requires numbers { length indexes.now < 2 ^ 32 }
    ensures count { IfOk result (λ items. length items.items ≡ length select.now.tables) }
    ensures each { IfOk result (λ items. (p : ℕ) → p < length select.now.tables → IsItem select.now indexes.now p (Rattle.std.specs.List.slice_index_or items.items p Rattle.rv_join.specs.Asking.no_item)) }
{
    let mut items = Vec::new(alloc);
    'places: for place in 0..select.tables.len() {
        items.push(item_of(alloc, select, indexes, place as u32)?)?;
    }
    Ok(items)
}

/// What a plan of a select is asked.
pub fn ask(
    alloc: Global,
    select: &Select,
    indexes: &[IndexDef],
    snap: u64,
    cursor: u64,
    race: bool,
) -> Result<Asked, NoMemory>
    requires joined { length select.now.tables ≤ 4 }
    requires numbers { length indexes.now < 2 ^ 32 }
    ensures asked { IfOk result (λ asked. IsAsked select.now indexes.now snap cursor asked) }
    ensures race { IfOk result (λ asked. asked.race ≡ race) }
{
    Ok(Asked {
        items: Items::from_vec(items(alloc, select, indexes)?),
        only: select.only.copy(alloc)?,
        returns: select.returns.copy(alloc)?,
        order: select.order.copy(alloc)?,
        goal: goal_of(select.goal),
        snap,
        cursor,
        race,
    })
}

/// What the retrieval of an item is asked over the rows of the items before it, whose values are put into its
/// restriction, so that it has a range where they give one.
fn query(
    alloc: Global,
    asked: &Asked,
    over: Restriction,
    outer: &[Values],
) -> Result<Query, NoMemory>
    requires joined { length asked.now.items ≤ 4 }
    requires inside { length outer.now < length asked.now.items }
    requires columns { can_bind (length outer.now) outer.now asked.now.only ≡ true }
    ensures { IfOk result (Asks asked.now outer.now) }
{
    let item = asked.item(outer.len());
    Ok(Query {
        table: item.table,
        snap: asked.snap,
        only: asked.only.bind(alloc, outer.len() as u32, outer, over)?,
        indexes: item.indexes.copy(alloc)?,
        need: item.need.copy(alloc)?,
        order: item.order.copy(alloc)?,
        goal: asked.goal,
    })
}

/// Opens the access of an item over the rows of the items before it, as the cursor's one of this number. The memory of an
/// access that is over is used anew.
#[tactic(auto, using(crate::proofs::Binding::can_be_bound, crate::proofs::Binding::can_ask))]
pub fn open_item<R: Reader>(
    alloc: Global,
    reader: &R,
    asked: &Asked,
    over: &mut Over,
    outer: &[Values],
    opening: u64,
    steps: &mut Steps<R::Ledger>,
) -> Result<Access, NoMemory>
    requires can { CanRun asked.now (R.shown reader.now) }
    requires inside { length outer.now < length asked.now.items }
    requires wide { AreWide asked.now outer.now }
    ensures opens { IfOk result (OpensItem asked.now (R.shown reader.now) outer.now) }
    ensures opened { IfOk result (λ v. Opened asked.now.race (query_of v) (R.shown reader.now) asked.now.cursor opening v) }
    ensures counts { IfOk result (λ v. CountsAll (trace_of v) steps.old steps.new) }
    ensures life { IfOk result (λ v. reads steps.new + effort v (R.shown reader.now) ≤ reads steps.old + life_of v (query_of v) (R.shown reader.now)) }
    ensures short { IfOk result (λ v. has_short (query_of v) (R.shown reader.now) ≡ true → Settled v × (fetches_left v (R.shown reader.now) ≤ 20)) }
    ensures only { OnlyLeaves steps.old steps.new }
{
    let query = query(alloc, asked, over.take_only(), outer)?;
    Access::open(
        alloc,
        reader,
        over,
        query,
        asked.race,
        asked.cursor,
        opening,
        steps,
    )
}
