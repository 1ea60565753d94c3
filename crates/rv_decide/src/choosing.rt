//! The offers of a query: nested loops over lists of rows, one list for each FROM item. Behind rows on which a group is not
//! True there is no loop.
ghost use Rattle.std.specs.Prelude.{◌≡◌, ◌++◌, ℕ, List, [], map, IfOk, OnOk};
ghost use Rattle.rv_value.specs.declared.record.Record.{Record as OneRecord};
ghost use Rattle.rv_value.specs.declared.value.Value.TheVariants.{Null};
ghost use Rattle.rv_model.specs.Offering.{offer_over, offers_over, picked_over};
ghost use Rattle.rv_decide.specs.Choosing.{offer_kept, offers_from};

use crate::truths::{is_kept, may_go_on, value_at};
use rv_catalog::Select;
use rv_model::Offer;
use rv_restrict::ColRef;
use rv_value::{Duplicate, Items, NoMemory, Record, Value, Values};
use std::alloc::Global;

/// The offers of a query, one for each choice of one row per FROM item on which its restriction is True, where each list
/// has the rows of the item in its place. It keeps one choice at a time, and tests each group as soon as the items that it
/// names are chosen: the rows of an item are gone through once for each choice of the items before on which no group is
/// other than True.
pub fn offers_over(
    alloc: Global,
    select: &Select,
    lists: &[Items<Record>],
) -> Result<Vec<Offer>, NoMemory>
    ensures { (rows : ℕ → List OneRecord) → lists.now ≡ map rows select.now.tables → IfOk result (λ offers. offers.items ≡ offers_over select.now rows) }
{
    let mut found = Vec::new(alloc);
    let mut chosen = Vec::new(alloc);
    choose(alloc, select, lists, &mut chosen, &mut found)?;
    Ok(found)
}

/// Adds the offers of all choices that begin with the rows chosen; there are none where a group that the last of these
/// decides is not True.
fn choose(
    alloc: Global,
    select: &Select,
    lists: &[Items<Record>],
    chosen: &mut Vec<Values>,
    found: &mut Vec<Offer>,
) -> Result<(), NoMemory>
    ensures found { OnOk result (found.new.items ≡ found.old.items ++ offers_from select.now lists.now chosen.old.items) }
    ensures same { OnOk result (chosen.new.items ≡ chosen.old.items) }
{
    if !may_go_on(&select.only, chosen.as_slice()) {
        return Ok(());
    }
    match lists {
        [] => add_offer(alloc, select, chosen.as_slice(), found),
        [rows, more @ ..] => {
            'rows: for row in rows.as_slice() {
                chosen.push(row.values.copy(alloc)?)?;
                choose(alloc, select, more, chosen, found)?;
                drop(chosen.pop());
            }
            Ok(())
        }
    }
}

/// Adds the offer of a choice, where the restriction is True on it.
fn add_offer(
    alloc: Global,
    select: &Select,
    chosen: &[Values],
    found: &mut Vec<Offer>,
) -> Result<(), NoMemory>
    ensures { OnOk result (found.new.items ≡ found.old.items ++ offer_kept select.now chosen.now) }
{
    if is_kept(&select.only, chosen) {
        found.push(offer_of(alloc, select, chosen)?)?;
    }
    Ok(())
}

fn offer_of(alloc: Global, select: &Select, chosen: &[Values]) -> Result<Offer, NoMemory>
    ensures { IfOk result (λ offer. offer ≡ offer_over select.now.order select.now.returns chosen.now) }
{
    let order = Items::from_vec(picked(alloc, select.order.as_slice(), chosen, &Value::Null)?);
    let returned = returned(alloc, select.returns.as_slice(), chosen)?;
    Ok(Offer { order, returned })
}

/// The values of columns, to be shared.
fn returned(alloc: Global, columns: &[ColRef], rows: &[Values]) -> Result<Values, NoMemory>
    ensures { IfOk result (λ values. values ≡ picked_over columns.now rows.now) }
{
    let values = picked(alloc, columns, rows, &Value::Null)?;
    Values::of(alloc, values)
}

/// The values of columns.
fn picked(
    alloc: Global,
    columns: &[ColRef],
    rows: &[Values],
    null: &Value,
) -> Result<Vec<Value>, NoMemory>
    requires { null.now ≡ Null }
    ensures { IfOk result (λ values. values.items ≡ picked_over columns.now rows.now) }
{
    let mut values = Vec::with_capacity(alloc, columns.len())?;
    'columns: for column in columns {
        values.push(value_at(rows, null, *column).copy(alloc)?)?;
    }
    Ok(values)
}
