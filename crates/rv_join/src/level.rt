//! Levels: an open access to a table over the rows chosen of the FROM items before its own.
ghost use Rattle.std.specs.Prelude.{◌≡◌, ℕ, ◌+◌, ◌<◌, ◌≤◌, ◌^◌, List, [], ◌∷◌, ◌++◌, length, map, true, None, IfOk, OnOk, OnErr};
ghost use Rattle.std.specs.List.{slice_index_or};
ghost use Rattle.rv_restrict.specs.Bind.{rows_reads};
ghost use Rattle.rv_reader.specs.Shown.{Shown};
ghost use Rattle.rv_scan.specs.Told.{width};
ghost use Rattle.rv_retrieval.specs.Shape.{is_building};
ghost use Rattle.rv_retrieval.specs.Short.{OnlyLeaves};
ghost use Rattle.rv_access.specs.Accesses.{control_of};
ghost use Rattle.rv_access.specs.Memory.{kept};
ghost use Rattle.rv_join.specs.Alone.{Fetches, LevelSpends, StepsOnce};
ghost use Rattle.rv_join.specs.Asking.{CanRun, item_at};
ghost use Rattle.rv_join.specs.Levels.{LevelFits, offered, reads_on, reads_whole, widened};
ghost use Rattle.rv_join.specs.Moves.{Catches, Descends, LevelStays, OpensInner, Rises};
ghost use Rattle.rv_model.specs.Offering.{picked_over};
ghost use Rattle.rv_join.specs.Pieces.{is_waiting};

use crate::places::{Asked, open_item};
use rv_access::{Access, Over};
use rv_judge::{Control, Judge, Steps};
use rv_model::Offer;
use rv_reader::{Reader, Step};
use rv_restrict::ColRef;
use rv_value::{Duplicate, Items, NoMemory, Record, Value, Values, copy_slice, copy_slice_in};
use std::alloc::Global;
use std::mem;

/// An open access over the rows chosen of the FROM items before its own, and the row that it gave last, while
/// nothing is open over that row.
#[derive(Drop)]
pub struct Level {
    pub outer: Items<Values>,
    pub row: Option<Values>,
    pub here: Access,
}

/// The memory of a level that is over, in which the next one is opened. What a level is does not rest on it.
#[derive(Drop)]
pub struct Room {
    access: Over,
    rows: Vec<Values>,
}

impl Room {
    /// Room that holds no memory yet: the level opened in it takes all of its own.
    pub fn new(alloc: Global) -> Room
        ensures retrieval { result.access.retrieval ≡ None }
        ensures candidates { result.access.candidates.items ≡ [] }
        ensures rows { result.rows.items ≡ [] }
    {
        Room {
            access: Over::new(alloc),
            rows: Vec::new(alloc),
        }
    }

    /// Keeps the memory of a level that is over, for the next level to be opened in it. What was kept before goes.
    pub fn keep(&mut self, level: Level)
        ensures access { self.new.access ≡ record self.old.access { retrieval = kept level.here self.old.access.retrieval } }
        ensures rows { self.new.rows.items ≡ level.outer }
    {
        let Level {
            outer,
            row: _,
            here,
        } = level;
        drop(mem::replace(&mut self.rows, outer.into_vec()));
        self.access.keep(here);
    }
}

/// The number of columns up to the last of these.
fn width(columns: &[u32]) -> usize
    ensures { result ≡ width columns.now }
{
    match columns {
        [] => 0,
        [first, more @ ..] => (*first as usize + 1).max(width(more)),
    }
}

/// Adds NULL for the columns that a row lacks below a width.
#[tactic(auto, using(crate::proofs::Same::padded_more))]
fn widen(values: &mut Vec<Value>, width: usize) -> Result<(), NoMemory>
    ensures { OnOk result (values.new.items ≡ widened width values.old.items) }
{
    let missing = width.saturating_sub(values.len());
    'nulls: for _count in 0..missing {
        values.push(Value::Null)?;
    }
    Ok(())
}

/// A row with a value in each column needed. A row told by an index alone has the index's columns and those before them;
/// a restriction that is bound over it may ask for a value in each column needed.
#[tactic(auto, using(crate::proofs::Same::wide_itself))]
fn copy_wide(alloc: Global, row: &Values, need: &[u32]) -> Result<Values, NoMemory>
    ensures { IfOk result (λ copy. copy ≡ widened (width need.now) row.now) }
{
    let width = width(need);
    if width <= row.as_slice().len() {
        return row.copy(alloc);
    }
    let mut values = copy_slice(alloc, row.as_slice())?;
    widen(&mut values, width)?;
    Values::of(alloc, values)
}

/// The values in a place: those of a row chosen so far, or of the row behind them; none in a later place.
fn values_in<'a>(outer: &'a [Values], row: &'a Values, place: usize) -> &'a [Value]
    ensures { result.now ≡ slice_index_or (outer.now ++ row.now ∷ []) place [] }
{
    if place < outer.len() {
        outer[place].as_slice()
    } else if place == outer.len() {
        row.as_slice()
    } else {
        &[]
    }
}

/// The value that a reference reads in the rows chosen so far and the one behind them, NULL where there is none.
fn value_at(
    alloc: Global,
    outer: &[Values],
    row: &Values,
    column: ColRef,
) -> Result<Value, NoMemory>
    ensures { IfOk result (λ value. value ≡ rows_reads (outer.now ++ row.now ∷ []) column) }
{
    let values = values_in(outer, row, column.place as usize);
    match values.get(column.column as usize) {
        Some(value) => value.copy(alloc),
        None => Ok(Value::Null),
    }
}

fn pick_into(
    alloc: Global,
    columns: &[ColRef],
    outer: &[Values],
    row: &Values,
    values: &mut Vec<Value>,
) -> Result<(), NoMemory>
    ensures { OnOk result (values.new.items ≡ values.old.items ++ picked_over columns.now (outer.now ++ row.now ∷ [])) }
{
    match columns {
        [] => Ok(()),
        [column, more @ ..] => {
            values.push(value_at(alloc, outer, row, *column)?)?;
            pick_into(alloc, more, outer, row, values)
        }
    }
}

/// The values that references read in the rows chosen so far and the one behind them, of which nothing else is copied.
fn pick(
    alloc: Global,
    columns: &[ColRef],
    outer: &[Values],
    row: &Values,
) -> Result<Vec<Value>, NoMemory>
    ensures { IfOk result (λ values. values.items ≡ picked_over columns.now (outer.now ++ row.now ∷ [])) }
{
    let mut values = Vec::with_capacity(alloc, columns.len())?;
    pick_into(alloc, columns, outer, row, &mut values)?;
    Ok(values)
}

/// Whether references read the values of a place one after another, from a column on.
fn reads_on(columns: &[ColRef], place: usize, from: usize) -> bool
    requires { from + length columns.now < 2 ^ 64 }
    ensures { result ≡ reads_on place from columns.now }
{
    match columns {
        [] => true,
        [column, more @ ..] => {
            column.place as usize == place
                && column.column as usize == from
                && reads_on(more, place, from + 1)
        }
    }
}

/// Whether references read all values of a row in a place, in their order.
fn reads_whole(columns: &[ColRef], place: usize, row: &Values) -> bool
    ensures { result ≡ reads_whole place row.now columns.now }
{
    columns.len() == row.as_slice().len() && reads_on(columns, place, 0)
}

/// The values that references read, as those of a row. The row behind the chosen ones is shared where they read all of it.
#[tactic(auto, using(crate::proofs::Picking::whole_row))]
fn pick_row(
    alloc: Global,
    columns: &[ColRef],
    outer: &[Values],
    row: &Values,
) -> Result<Values, NoMemory>
    ensures { IfOk result (λ values. values ≡ picked_over columns.now (outer.now ++ row.now ∷ [])) }
{
    if reads_whole(columns, outer.len(), row) {
        return row.copy(alloc);
    }
    match columns {
        [first, second] => pick_two(alloc, *first, *second, outer, row),
        _ => Values::of(alloc, pick(alloc, columns, outer, row)?),
    }
}

/// The values that two references read, as those of a row.
fn pick_two(
    alloc: Global,
    first: ColRef,
    second: ColRef,
    outer: &[Values],
    row: &Values,
) -> Result<Values, NoMemory>
    ensures { IfOk result (λ values. values ≡ picked_over (first ∷ second ∷ []) (outer.now ++ row.now ∷ [])) }
{
    let left = value_at(alloc, outer, row, first)?;
    match value_at(alloc, outer, row, second) {
        Ok(right) => Values::two(alloc, left, right),
        Err(fault) => {
            drop(left);
            Err(fault)
        }
    }
}

impl Level {
    /// Whether its access awaits a piece.
    pub fn is_waiting(&self) -> bool
        ensures { result ≡ is_waiting self.now }
    {
        self.here.awaited().is_some()
    }

    /// Whether both sides of its access run.
    pub fn is_building(&self) -> bool
        ensures { result ≡ is_building (control_of self.now.here) }
    {
        match self.here.control() {
            Control::Building => true,
            Control::ForegroundAlone
            | Control::BackgroundAlone
            | Control::FinalList
            | Control::FinalTable
            | Control::Done => false,
        }
    }

    /// Holds a row, or tells why there is none. A row that is held already, since its use found no memory, stays.
    #[tactic(auto, using(crate::proofs::Catching::found_moves, crate::proofs::Catching::stays_moves, crate::proofs::Catching::ended_moves, crate::proofs::Catching::worked_moves, crate::proofs::Opening::level_stays))]
    pub fn ready<R: Reader>(
        &mut self,
        _asked: &Asked,
        reader: &R,
        judge: &mut Box<dyn Judge>,
        steps: &mut Steps<R::Ledger>,
    ) -> Result<Step<()>, NoMemory>
        requires can { CanRun _asked.now (R.shown reader.now) }
        requires fits { LevelFits _asked.now (R.shown reader.now) self.old }
        ensures caught { IfOk result (λ c. Catches _asked.now (R.shown reader.now) c self.old self.new) }
        ensures counts { Rises self.old.here self.new.here steps.old steps.new }
        ensures stays { would judge.new ≡ would judge.old }
        ensures once { StepsOnce (would judge.old) (state judge.old) (state judge.new) (R.shown reader.now) steps.old steps.new self.old self.new }
        ensures spends { IfOk result (λ c. LevelSpends (R.shown reader.now) c steps.old steps.new self.old self.new) }
        ensures fetches { OnOk result (Fetches (R.shown reader.now) steps.old steps.new self.old.here self.new.here) }
        ensures err { OnErr result (LevelStays _asked.now (R.shown reader.now) self.old self.new) }
    {
        if self.row.is_some() {
            return Ok(Step::Row(()));
        }
        match self.here.fg_step(reader, judge, steps)? {
            Step::Row(record) => {
                let Record { row: _, values } = record;
                let _before = self.row.replace(values);
                Ok(Step::Row(()))
            }
            Step::End => Ok(Step::End),
            Step::Working => Ok(Step::Working),
        }
    }

    /// The rows chosen so far and this one, wide enough for restrictions that are bound over them.
    fn wide_rows(
        &self,
        alloc: Global,
        asked: &Asked,
        over: Vec<Values>,
        row: &Values,
    ) -> Result<Items<Values>, NoMemory>
        requires { length self.now.outer < length asked.now.items }
        ensures { IfOk result (λ rows. rows ≡ self.now.outer ++ widened (width (item_at asked.now (length self.now.outer)).need) row.now ∷ []) }
    {
        let item = asked.item(self.outer.len());
        let mut rows = copy_slice_in(alloc, self.outer.as_slice(), over)?;
        rows.push(copy_wide(alloc, row, item.need.get().as_slice())?)?;
        Ok(Items::from_vec(rows))
    }

    /// Opens the level of the next FROM item over a row that is held. The memory of a level that is over is used anew.
    #[tactic(auto, using(crate::proofs::Binding::wide_more, crate::proofs::Opening::descends))]
    pub fn inner<R: Reader>(
        &self,
        alloc: Global,
        reader: &R,
        asked: &Asked,
        room: &mut Room,
        row: &Values,
        opening: u64,
        steps: &mut Steps<R::Ledger>,
    ) -> Result<Level, NoMemory>
        requires can { CanRun asked.now (R.shown reader.now) }
        requires fits { LevelFits asked.now (R.shown reader.now) self.now }
        requires holds { self.now.row ≡ Rattle.std.specs.Prelude.Some row.now }
        requires inside { length self.now.outer + 1 < length asked.now.items }
        ensures descends { IfOk result (Descends asked.now (R.shown reader.now) self.now) }
        ensures opens { IfOk result (OpensInner asked.now (R.shown reader.now) opening steps.old steps.new self.now) }
        ensures only { OnlyLeaves steps.old steps.new }
    {
        let rows = mem::replace(&mut room.rows, Vec::new(alloc));
        let outer = self.wide_rows(alloc, asked, rows, row)?;
        let here = open_item(
            alloc,
            reader,
            asked,
            &mut room.access,
            outer.as_slice(),
            opening,
            steps,
        )?;
        Ok(Level {
            outer,
            row: None,
            here,
        })
    }

    /// What the rows chosen so far and this one offer.
    pub fn offer(&self, alloc: Global, asked: &Asked, row: &Values) -> Result<Offer, NoMemory>
        ensures { IfOk result (λ offer. offer ≡ offered asked.now (self.now.outer ++ row.now ∷ [])) }
    {
        let outer = self.outer.as_slice();
        Ok(Offer {
            order: Items::from_vec(pick(alloc, asked.order.as_slice(), outer, row)?),
            returned: pick_row(alloc, asked.returns.as_slice(), outer, row)?,
        })
    }
}
