//! What STEP and SHOW may tell of a cursor.
ghost use Rattle.std.specs.Prelude.{◌↔◌, ◌≤◌, IfOk, IsTrue, length};
ghost use Rattle.rv_model.specs.Step.{Showing, Stepping};
ghost use Rattle.rv_decide.specs.Naming.{AreNamedApart};

use rv_catalog::IndexDef;
use rv_decide::may_show;
use rv_lang::Reply;
use rv_value::NoMemory;
use std::alloc::Global;

/// Whether a STEP of so many steps at most may be answered by a reply.
pub fn may_step(most: u64, given: &Reply) -> bool
    ensures { IsTrue result ↔ Stepping most given.now }
{
    match given {
        Reply::Stepped(done) => *done <= most,
        _ => false,
    }
}

/// Whether SHOW of a cursor, whose first FROM item is over a table, may be answered by a reply.
pub fn may_tell(
    alloc: Global,
    indexes: &[IndexDef],
    table: u32,
    given: &Reply,
) -> Result<bool, NoMemory>
    requires few { length indexes.now ≤ 512 }
    requires apart { AreNamedApart indexes.now }
    ensures { IfOk result (λ allowed. IsTrue allowed ↔ Showing indexes.now table given.now) }
{
    match given {
        Reply::Trace(shown) => may_show(alloc, indexes, table, shown.get()),
        _ => Ok(false),
    }
}
