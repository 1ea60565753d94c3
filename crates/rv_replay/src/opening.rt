//! What OPEN needs of the tables: their rows in the view of the session's transaction, and the offers over these.
ghost use Rattle.std.specs.Prelude.{◌≡◌, ◌<◌, IfOk, length, map, true};
ghost use Rattle.std.specs.List.{list_all};
ghost use Rattle.rv_catalog.specs.Fits.{IsQueryOf, is_column};
ghost use Rattle.rv_model.specs.Offering.{offers_over};
ghost use Rattle.rv_model.specs.Step.{rows_viewed, table_of};
ghost use Rattle.rv_model.specs.Transactions.{transaction_of};

use rv_catalog::Select;
use rv_core::database::Database;
use rv_decide::offers_over;
use rv_model::Offer;
use rv_store::Paged;
use rv_value::{Items, NoMemory, Record};
use std::alloc::Global;

/// The table of the first FROM item, over whose indexes SHOW may tell a trace.
pub fn first_table(select: &Select) -> u32
    ensures { result ≡ table_of select.now }
{
    match select.tables.as_slice() {
        [] => 0,
        [first, ..] => *first,
    }
}

/// What a query offers in the view of the session's transaction.
pub fn offers_of(
    alloc: Global,
    database: &Database<Paged>,
    session: u8,
    select: &Select,
) -> Result<Vec<Offer>, NoMemory>
    requires { IsQueryOf database.now.stand.db.schema select.now }
    ensures { IfOk result (λ offers. offers.items ≡ offers_over select.now (rows_viewed database.now.stand.db (transaction_of database.now.stand.db.transactions.active session))) }
{
    let lists = lists_of(alloc, database, session, select.tables.as_slice())?;
    offers_over(alloc, select, lists.as_slice())
}

/// The rows of each table in the view of the session's transaction.
fn lists_of(
    alloc: Global,
    database: &Database<Paged>,
    session: u8,
    tables: &[u32],
) -> Result<Vec<Items<Record>>, NoMemory>
    requires { list_all (is_column (length database.now.stand.db.schema.tables)) tables.now ≡ true }
    ensures { IfOk result (λ lists. lists.items ≡ map (rows_viewed database.now.stand.db (transaction_of database.now.stand.db.transactions.active session)) tables.now) }
{
    let mut lists = Vec::with_capacity(alloc, tables.len())?;
    'tables: for table in tables {
        let rows = database.rows(session, *table)?;
        lists.push(Items::from_vec(rows))?;
    }
    Ok(lists)
}
