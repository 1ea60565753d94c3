//! What is asked of the table.
ghost use Rattle.std.specs.Prelude.{◌≡◌, ◌+◌, ◌++◌, ◌<◌, IfOk, OnOk};
ghost use Rattle.rv_value.specs.declared.value.Value.TheVariants.{Int};
ghost use Rattle.rv_reader.specs.Shown.{Shown};
ghost use Rattle.rv_restrict.specs.Groups.{groups_of};
ghost use Rattle.rv_restrict.specs.declared.atom.Atom.TheVariants.{Between};
ghost use Rattle.rv_restrict.specs.Parts.{stands_among};
ghost use Rattle.rv_choice.specs.Asked.{CanAsk};
ghost use Rattle.try_retrievals.specs.Asking.{Chosen, IsOrder, IsQuery, either_atoms, either_group, needed, span_atoms, span_group, spans_of};
ghost use Rattle.try_retrievals.specs.Standing.{Stands};
ghost use Rattle.rv_loading.specs.Laid.{over_at};

use crate::load::Table;
use rv_choice::{Goal2, Query, ordered};
use rv_loading::{Fault, Loaded};
use rv_restrict::{Atom, ColRef, Restriction};
use rv_value::{Items, NoMemory, Shared, Value, copy_slice};
use std::alloc::Global;

/// The numbers from one to another.
#[derive(Clone, Copy)]
pub struct Span {
    pub low: i64,
    pub high: i64,
}

/// Spans of which one is enough, of the columns and again of the first.
#[derive(Clone, Copy)]
pub struct Either {
    pub first: Option<Span>,
    pub second: Option<Span>,
    pub third: Option<Span>,
    pub again: Option<Span>,
}

/// What is asked of the table: the spans in which its columns are, those of which one is enough, by which of the indexes, with which columns, in the
/// order of the third column or in any order.
#[derive(Clone, Copy)]
pub struct Asked {
    pub first: Option<Span>,
    pub second: Option<Span>,
    pub third: Option<Span>,
    pub either: Option<Either>,
    /// Which of the indexes there are.
    pub uses: [bool; 4],
    /// Whether all columns are needed; else the first and the third, and the second only where it is restricted. Where one of
    /// several spans is enough all are needed.
    pub whole: bool,
    pub sorted: bool,
    pub goal: Goal2,
    /// Whether indexes may race.
    pub race: bool,
}

/// Any row, by no index.
pub const ANY: Asked = Asked {
    first: None,
    second: None,
    third: None,
    either: None,
    uses: [false, false, false, false],
    whole: true,
    sorted: false,
    goal: Goal2::TotalTime,
    race: false,
};

impl Asked {
    /// Whether a column is needed.
    pub fn needs(&self, column: u32) -> bool
        requires { column < 3 }
        ensures { result ≡ stands_among (needed self.now) column }
    {
        self.whole || self.second.is_some() || self.either.is_some() || column != 1
    }
}

fn between(column: u32, span: Span) -> Atom
    ensures { result ≡ Between (record { place = 0; column = column }) (Int span.low) (Int span.high) }
{
    Atom::Between {
        column: ColRef { place: 0, column },
        low: Value::Int(span.low),
        high: Value::Int(span.high),
    }
}

/// Adds the group of a column's span.
fn add_span(
    alloc: Global,
    groups: &mut Vec<Vec<Atom>>,
    column: u32,
    span: Option<Span>,
) -> Result<(), NoMemory>
    ensures { OnOk result (groups_of groups.new.items ≡ groups_of groups.old.items ++ span_group column span) }
{
    if let Some(span) = span {
        groups.push(vec![in alloc; between(column, span)]?)?;
    }
    Ok(())
}

/// Adds the atom of a column's span.
fn add_atom(atoms: &mut Vec<Atom>, column: u32, span: Option<Span>) -> Result<(), NoMemory>
    ensures { OnOk result (atoms.new.items ≡ atoms.old.items ++ span_atoms column span) }
{
    if let Some(span) = span {
        atoms.push(between(column, span))?;
    }
    Ok(())
}

/// The atoms of the spans of which one is enough.
fn atoms_of(alloc: Global, either: Either) -> Result<Vec<Atom>, NoMemory>
    ensures { IfOk result (λ atoms. atoms.items ≡ either_atoms either) }
{
    let mut atoms = Vec::new(alloc);
    add_atom(&mut atoms, 0, either.first)?;
    add_atom(&mut atoms, 1, either.second)?;
    add_atom(&mut atoms, 2, either.third)?;
    add_atom(&mut atoms, 0, either.again)?;
    Ok(atoms)
}

/// Adds the group of the spans of which one is enough.
fn add_either(
    alloc: Global,
    groups: &mut Vec<Vec<Atom>>,
    either: Option<Either>,
) -> Result<(), NoMemory>
    ensures { OnOk result (groups_of groups.new.items ≡ groups_of groups.old.items ++ either_group either) }
{
    if let Some(either) = either {
        groups.push(atoms_of(alloc, either)?)?;
    }
    Ok(())
}

/// The restriction.
pub fn wanted(alloc: Global, asked: &Asked) -> Result<Restriction, NoMemory>
    ensures { IfOk result (λ only. only ≡ spans_of asked.now) }
{
    let mut groups = Vec::new(alloc);
    add_span(alloc, &mut groups, 0, asked.first)?;
    add_span(alloc, &mut groups, 1, asked.second)?;
    add_span(alloc, &mut groups, 2, asked.third)?;
    add_either(alloc, &mut groups, asked.either)?;
    Ok(Restriction::from_groups(groups))
}

/// Adds an index of the table that is there.
fn push_index(
    alloc: Global,
    loaded: &Loaded,
    indexes: &mut Vec<(u32, Items<u32>)>,
    index: u32,
) -> Result<(), NoMemory>
    requires there { index < loaded.now.layout.indexes }
    requires table { (over_at loaded.now.schema.indexes index).table ≡ 0 }
    requires chosen { Chosen loaded.now index indexes.old.items }
    ensures { OnOk result (Chosen loaded.now (index + 1) indexes.new.items) }
{
    let columns = copy_slice(alloc, loaded.schema.columns_of(index))?;
    indexes.push((index, Items::from_vec(columns)))?;
    Ok(())
}

/// Adds an index. `Form` where it is none of the table.
fn put_index(
    alloc: Global,
    loaded: &Loaded,
    indexes: &mut Vec<(u32, Items<u32>)>,
    index: u32,
) -> Result<(), Fault>
    requires { Chosen loaded.now index indexes.old.items }
    ensures { OnOk result (Chosen loaded.now (index + 1) indexes.new.items) }
{
    if index < loaded.layout.indexes && loaded.schema.table_of(index) == 0 {
        return Ok(push_index(alloc, loaded, indexes, index)?);
    }
    Err(Fault::Form)
}

/// Adds an index, where it is used.
fn add_index(
    alloc: Global,
    loaded: &Loaded,
    indexes: &mut Vec<(u32, Items<u32>)>,
    index: u32,
    used: bool,
) -> Result<(), Fault>
    requires { Chosen loaded.now index indexes.old.items }
    ensures { OnOk result (Chosen loaded.now (index + 1) indexes.new.items) }
{
    if used {
        return put_index(alloc, loaded, indexes, index);
    }
    Ok(())
}

/// The indexes that are used.
pub fn indexes(
    alloc: Global,
    loaded: &Loaded,
    uses: [bool; 4],
) -> Result<Vec<(u32, Items<u32>)>, Fault>
    ensures { IfOk result (λ indexes. Chosen loaded.now 4 indexes.items) }
{
    let mut indexes = Vec::new(alloc);
    add_index(alloc, loaded, &mut indexes, 0, uses[0])?;
    add_index(alloc, loaded, &mut indexes, 1, uses[1])?;
    add_index(alloc, loaded, &mut indexes, 2, uses[2])?;
    add_index(alloc, loaded, &mut indexes, 3, uses[3])?;
    Ok(indexes)
}

fn need(alloc: Global, asked: &Asked) -> Result<Vec<u32>, NoMemory>
    ensures { IfOk result (λ need. need.items ≡ needed asked.now) }
{
    if asked.whole || asked.second.is_some() || asked.either.is_some() {
        Ok(vec![in alloc; 0, 1, 2]?)
    } else {
        Ok(vec![in alloc; 0, 2]?)
    }
}

/// The third column, where an order is asked and some index has it.
fn order(alloc: Global, asked: &Asked, indexes: &[(u32, Items<u32>)]) -> Result<Vec<u32>, NoMemory>
    ensures { IfOk result (λ order. IsOrder indexes.now order.items) }
{
    if asked.sorted && ordered(indexes, &[2]) {
        Ok(vec![in alloc; 2]?)
    } else {
        Ok(Vec::new(alloc))
    }
}

/// The query that a line asks over the loaded table.
pub fn query(alloc: Global, table: &Table, asked: &Asked) -> Result<Query, Fault>
    ensures query { IfOk result (IsQuery table.now.loaded asked.now) }
    ensures can { (shown : Shown) → Stands shown table.now → IfOk result (λ query. CanAsk query shown) }
{
    let indexes = indexes(alloc, &table.loaded, asked.uses)?;
    let order = order(alloc, asked, indexes.as_slice())?;
    let need = need(alloc, asked)?;
    let over = Shared::new(alloc, Items::from_vec(indexes))?;
    let needs = Shared::new(alloc, Items::from_vec(need))?;
    let only = wanted(alloc, asked)?;
    Ok(Query {
        table: 0,
        snap: table.loaded.snap,
        only,
        indexes: over,
        need: needs,
        order: Items::from_vec(order),
        goal: asked.goal,
    })
}
