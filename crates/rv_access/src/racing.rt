ghost use Rattle.std.specs.Prelude.{◌≡◌, true, IfOk};
ghost use Rattle.rv_judge.specs.Tracing.{CountsAll};
ghost use Rattle.rv_choice.specs.Asked.{CanAsk};
ghost use Rattle.rv_choice.specs.Choice.{IsChosen, candidates_of};
ghost use Rattle.rv_access.specs.Opened.{BeginsRace, races};

use rv_choice::{Candidate, Choice, Query, scans};
use rv_judge::Steps;
use rv_race::Race;
use rv_reader::Reader;
use rv_value::{Duplicate, NoMemory};
use std::alloc::Global;

/// Two indexes that race, with the query for which they do.
#[derive(Drop)]
pub struct RacedQuery {
    pub query: Query,
    pub race: Race,
}

impl RacedQuery {
    /// Opens a race of the scans that were chosen. It reads nothing.
    pub fn open<R: Reader>(
        alloc: Global,
        reader: &R,
        query: Query,
        candidates: &[Candidate],
        choice: Choice,
        cursor: u64,
        opening: u64,
        steps: &mut Steps<R::Ledger>,
    ) -> Result<RacedQuery, NoMemory>
        requires can { CanAsk query (R.shown reader.now) }
        requires candidates { candidates.now ≡ candidates_of query (R.shown reader.now) }
        requires choice { IsChosen query.order query.goal candidates.now choice }
        requires races { races choice candidates.now ≡ true }
        ensures begins { IfOk result (BeginsRace query (R.shown reader.now) choice cursor opening) }
        ensures counts { IfOk result (λ r. CountsAll r.race.trace steps.old steps.new) }
        ensures unread { steps.new ≡ steps.old }
    {
        let scans = match scans(
            alloc,
            &query.only,
            candidates,
            choice.background,
            Vec::new(alloc),
        ) {
            Ok(scans) => scans,
            Err(fault) => {
                drop(query);
                return Err(fault);
            }
        };
        let only = match query.only.copy(alloc) {
            Ok(only) => only,
            Err(fault) => {
                drop(query);
                return Err(fault);
            }
        };
        let race = match Race::open(
            alloc,
            reader,
            query.table,
            query.snap,
            only,
            scans,
            cursor,
            opening,
            steps,
        ) {
            Ok(race) => race,
            Err(fault) => {
                drop(query);
                return Err(fault);
            }
        };
        Ok(RacedQuery { query, race })
    }
}
