//! A joint scan of the two indexes, and its calls.
ghost use Rattle.std.specs.Prelude.{◌≡◌, ◌<◌, IfOk, length};
ghost use Rattle.std.specs.List.{AllByRecursion};
ghost use Rattle.rv_reader.specs.Shown.{Shown};
ghost use Rattle.try_stores.specs.Drawing.{Drawn, IsPlan, Lists};

use rv_jscan::{Given, Jscan, Piece, ScanPlan, Taken, sieve};
use rv_judge::Steps;
use rv_reader::Reader;
use rv_restrict::{Atom, ColRef, Op, Operand, Restriction};
use rv_value::{NoMemory, Value};
use std::alloc::Global;

/// The first value is in a span and is not one number, and the second is in another span.
#[derive(Clone, Copy)]
pub struct Query {
    pub low: i64,
    pub high: i64,
    pub without: i64,
    pub second_low: i64,
    pub second_high: i64,
}

/// Whose pieces a joint scan gives, and which index it scans first.
#[derive(Clone, Copy)]
pub struct Name {
    pub cursor: u64,
    pub opening: u64,
    pub turned: bool,
}

fn between(column: u32, low: i64, high: i64) -> Atom {
    Atom::Between {
        column: ColRef { place: 0, column },
        low: Value::Int(low),
        high: Value::Int(high),
    }
}

fn other_than(column: u32, number: i64) -> Atom {
    Atom::Compare {
        column: ColRef { place: 0, column },
        op: Op::Ne,
        operand: Operand::Literal(Value::Int(number)),
    }
}

fn wanted(alloc: Global, query: Query) -> Result<Restriction, NoMemory> {
    let first = vec![in alloc; between(0, query.low, query.high)]?;
    let other = vec![in alloc; other_than(0, query.without)]?;
    let second = vec![in alloc; between(1, query.second_low, query.second_high)]?;
    let groups = vec![in alloc; first, other, second]?;
    Ok(Restriction::from_groups(groups))
}

fn plan(alloc: Global, only: &Restriction, index: u32) -> Result<ScanPlan, NoMemory>
    requires { index < 2 }
    ensures { IfOk result IsPlan }
{
    let columns = [index];
    let range = only.range_for(alloc, &columns)?;
    match only.index_part(alloc, &columns) {
        Ok(part) => Ok(ScanPlan {
            index,
            range,
            part,
            estimate: 41,
        }),
        Err(fault) => {
            drop(range);
            Err(fault)
        }
    }
}

/// One index and then the other.
fn plans(alloc: Global, only: &Restriction, first: u32) -> Result<Vec<ScanPlan>, NoMemory>
    requires { first < 2 }
    ensures count { IfOk result (λ plans. length plans.items ≡ 2) }
    ensures each { IfOk result (λ plans. AllByRecursion IsPlan plans.items) }
{
    let mut plans = Vec::with_capacity(alloc, 2)?;
    plans.push(plan(alloc, only, first)?)?;
    plans.push(plan(alloc, only, 1 - first)?)?;
    Ok(plans)
}

/// A joint scan that has read nothing.
pub fn joint<R: Reader>(
    alloc: Global,
    _reader: &R,
    snap: u64,
    query: Query,
    name: Name,
) -> Result<Jscan, NoMemory>
    requires { Lists (R.shown _reader.now) snap }
    ensures { IfOk result (Drawn (R.shown _reader.now)) }
{
    let only = wanted(alloc, query)?;
    let first = if name.turned { 1 } else { 0 };
    let plans = plans(alloc, &only, first);
    drop(only);
    Ok(Jscan::new(alloc, 0, snap, plans?, name.cursor, name.opening))
}

/// A copy of the awaited piece, None where there is none.
pub fn take<R: Reader>(
    reader: &R,
    jscan: &mut Jscan,
    steps: &mut Steps<R::Ledger>,
) -> Result<Option<Piece>, NoMemory>
    requires { Drawn (R.shown reader.now) jscan.old }
    ensures { Drawn (R.shown reader.now) jscan.new }
{
    match jscan.take(reader, steps)? {
        Taken::Piece(piece) => Ok(Some(piece)),
        Taken::Nothing => Ok(None),
    }
}

/// Sieves a piece and gives it.
pub fn give(jscan: &mut Jscan, piece: Piece) -> Result<Given, NoMemory>
    ensures { (shown : Shown) → Drawn shown jscan.old → Drawn shown jscan.new }
{
    jscan.give(sieve(piece))
}

/// Abandons the present scan.
pub fn abandon(jscan: &mut Jscan)
    ensures { (shown : Shown) → Drawn shown jscan.old → Drawn shown jscan.new }
{
    jscan.abandon_scan();
}
