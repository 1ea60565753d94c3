ghost use Rattle.std.specs.Prelude.{◌≡◌, [], IfOk};
ghost use Rattle.rv_judge.specs.Tracing.{CountsAll};
ghost use Rattle.rv_choice.specs.Asked.{CanAsk};
ghost use Rattle.rv_choice.specs.Members.{AreUnited};
ghost use Rattle.rv_union.specs.Leaves.{leaves_left, planned_leaves};
ghost use Rattle.rv_access.specs.Opened.{BeginsUnion};

use rv_choice::Query;
use rv_jscan::ScanPlan;
use rv_judge::Steps;
use rv_reader::Reader;
use rv_union::Union;
use rv_value::{Duplicate, NoMemory};
use std::alloc::Global;

/// Members whose keys are put together, with the query for which they are.
#[derive(Drop)]
pub struct UnitedQuery {
    pub query: Query,
    pub union: Union,
}

impl UnitedQuery {
    /// Opens a union of these members. It reads nothing.
    pub fn open<R: Reader>(
        alloc: Global,
        reader: &R,
        query: Query,
        members: Vec<ScanPlan>,
        cursor: u64,
        opening: u64,
        steps: &mut Steps<R::Ledger>,
    ) -> Result<UnitedQuery, NoMemory>
        requires can { CanAsk query (R.shown reader.now) }
        requires order { query.order ≡ [] }
        requires members { AreUnited query (R.shown reader.now) members.items }
        ensures begins { IfOk result (BeginsUnion query (R.shown reader.now) cursor opening) }
        ensures counts { IfOk result (λ u. CountsAll u.union.trace steps.old steps.new) }
        ensures ahead { IfOk result (λ u. leaves_left u.union (R.shown reader.now) ≡ planned_leaves u.union.plans (R.shown reader.now) query.snap) }
        ensures unread { steps.new ≡ steps.old }
    {
        let only = match query.only.copy(alloc) {
            Ok(only) => only,
            Err(fault) => {
                drop(query);
                return Err(fault);
            }
        };
        let union = match Union::open(
            alloc,
            reader,
            query.table,
            query.snap,
            only,
            members,
            cursor,
            opening,
            steps,
        ) {
            Ok(union) => union,
            Err(fault) => {
                drop(query);
                return Err(fault);
            }
        };
        Ok(UnitedQuery { query, union })
    }
}
