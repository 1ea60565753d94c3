ghost use Rattle.std.specs.Prelude.{◌≡◌, ◌+◌, ◌-◌, ◌^◌, ◌<◌, ◌≤◌, ◌&&◌, ◌⊎◌, true, false, length, IfOk, IfSome, OnErr, Ok};
ghost use Rattle.rv_keylist.specs.Keys.{has_key};
ghost use Rattle.rv_judge.specs.Counting.{page_read, record_read};
ghost use Rattle.rv_reader.specs.Shown.{Shown};
ghost use Rattle.rv_reader.specs.Tables.{row_at};
ghost use Rattle.rv_scan.specs.Alongs.{looked};
ghost use Rattle.rv_scan.specs.Places.{PageReads, PageTurns};
ghost use Rattle.rv_jscan.specs.Joint.{under_way};
ghost use Rattle.rv_retrieval.specs.Accounts.{IsFresh, first_fresh};
ghost use Rattle.rv_scan.specs.Fronts.{SameFront};
ghost use Rattle.rv_retrieval.specs.Room.{must_remember};
ghost use Rattle.rv_retrieval.specs.Runs.{SameCourse, Tells};
ghost use Rattle.rv_retrieval.specs.Shape.{Delivers, DoesStep, EndsIn, RetrievalFits, is_background, is_building, is_index_only, rest, lending, rows_of};
ghost use Rattle.rv_retrieval.specs.Stepping.{GivesAhead, Borrows, DoesIts, MayReadIts, OnlyTakes, ReadsIts, Remembered, Steady, StepsAs, ended_by};
ghost use Rattle.rv_judge.specs.Tracing.{CountsRise, SameCounts};
ghost use Rattle.rv_retrieval.specs.Effort.{Awaiting, effort, to_borrow};
ghost use Rattle.rv_final.specs.LaneWork.{Spends};
ghost use Rattle.rv_final.specs.Work.{Falls, Tries};
ghost use Rattle.rv_scan.specs.Reads.{OneAtMost};
ghost use Rattle.rv_retrieval.specs.Short.{Settled, fetches_left};

use crate::retrieval::Retrieval;
use rv_judge::{Control, Event, Happening, Judge, Steps, Strategy};
use rv_reader::{Reader, Step};
use rv_value::{NoMemory, Record, RowNo};

/// The foreground of a retrieval: what a step is under each control.
impl Retrieval {
    /// A step through the complete list that ends there leads to the last control.
    fn finish(&mut self, scanned: &Step<Record>)
        ensures { self.new ≡ ended_by Happening.FinalEnded scanned.now self.old }
    {
        match scanned {
            Step::End => self.go(Happening::FinalEnded),
            Step::Row(_) => {}
            Step::Working => {}
        }
    }

    /// A step of the final scan of the table.
    fn table_step<R: Reader>(
        &mut self,
        reader: &R,
        steps: &mut Steps<R::Ledger>,
    ) -> Result<Step<Record>, NoMemory>
        requires control { self.old.control ≡ Control.FinalTable }
        requires fits { RetrievalFits self.old (R.shown reader.now) }
        ensures steady { Steady self.old self.new }
        ensures fits { RetrievalFits self.new (R.shown reader.now) }
        ensures step { IfOk result (DoesStep self.old self.new (R.shown reader.now)) }
        ensures ends { IfOk result (EndsIn self.new) }
        ensures err { OnErr result (self.new ≡ self.old) }
        ensures does { IfOk result (λ s. self.new ≡ ended_by Happening.FinalEnded s (record self.old { last = self.new.last })) }
        ensures turns { IfOk result (λ s. PageTurns s self.old.last self.new.last ((R.shown reader.now).pages self.old.query.table self.old.query.snap)) }
        ensures may_read { OneAtMost page_read steps.old steps.new }
        ensures reads { IfOk result (λ s. PageReads s steps.old steps.new) }
        ensures tries { Tries steps.old steps.new (effort self.old (R.shown reader.now)) (effort self.new (R.shown reader.now)) }
        ensures falls { IfOk result (λ s. Falls s steps.old steps.new (effort self.old (R.shown reader.now)) (effort self.new (R.shown reader.now))) }
    {
        match self.scan_last(reader, steps)? {
            Step::Row(found) => Ok(Step::Row(found)),
            Step::Working => Ok(Step::Working),
            Step::End => {
                self.go(Happening::FinalEnded);
                Ok(Step::End)
            }
        }
    }

    /// The next borrowed key whose row was not delivered. Those before it are passed over without a read; there are at
    /// most as many as the buffer has places.
    fn fresh_key(&mut self) -> Option<RowNo>
        ensures same { self.new ≡ record self.old { borrowed = self.new.borrowed } }
        ensures fresh { IfSome result (λ row. has_key row.0 self.old.delivered ≡ false) }
        ensures small { IfSome result (λ row. self.new.borrowed < 2 ^ 64 - 1) }
        ensures first { under_way self.old.joint ≡ true → IsFresh self.old result }
        ensures passes { under_way self.old.joint ≡ true → first_fresh self.new ≡ first_fresh self.old }
        ensures near { IfSome result (λ row. self.new.borrowed < length (lending self.new.joint)) }
        ensures fewer { to_borrow self.new.joint self.new.borrowed ≤ to_borrow self.old.joint self.old.borrowed }
        ensures further { self.old.borrowed ≤ self.new.borrowed }
    {
        match self.borrowed_key() {
            None => None,
            Some(row) => {
                if self.was_delivered(row) {
                    self.pass_borrowed();
                    self.fresh_key()
                } else {
                    Some(row)
                }
            }
        }
    }

    /// Remembers a row that is given; a full buffer changes the control.
    fn deliver(&mut self, row: RowNo)
        requires strategy { must_remember self.old.strategy ≡ true }
        requires room { length self.old.delivered < 1024 }
        requires fresh { has_key row.0 self.old.delivered ≡ false }
        ensures delivers { Delivers self.old self.new row.0 }
        ensures fills { Remembered row.0 self.old self.new }
    {
        self.remember(row);
        if self.is_full() {
            self.note(Event::Full);
            self.go(Happening::Full);
        }
    }

    /// Fetches the row of a borrowed key, and remembers it where it is given.
    fn borrow<R: Reader>(
        &mut self,
        reader: &R,
        row: RowNo,
        steps: &mut Steps<R::Ledger>,
    ) -> Result<Step<Record>, NoMemory>
        requires control { self.old.control ≡ Control.Building }
        requires strategy { self.old.strategy ≡ Strategy.FastFirst }
        requires fits { RetrievalFits self.old (R.shown reader.now) }
        requires fresh { has_key row.0 self.old.delivered ≡ false }
        requires small { self.old.borrowed < 2 ^ 64 - 1 }
        ensures steady { Steady self.old self.new }
        ensures fits { RetrievalFits self.new (R.shown reader.now) }
        ensures step { IfOk result (DoesStep self.old self.new (R.shown reader.now)) }
        ensures ends { IfOk result (EndsIn self.new) }
        ensures err { OnErr result (self.new ≡ self.old) }
        ensures does { IfOk result (λ s. Borrows row.0 (R.shown reader.now) steps.old steps.new s self.old self.new) }
        ensures reads { steps.new ≡ record_read steps.old }
        ensures tries { Tries steps.old steps.new (effort self.old (R.shown reader.now)) (effort self.new (R.shown reader.now)) }
        ensures falls { self.old.borrowed < length (lending self.old.joint) → IfOk result (λ s. Falls s steps.old steps.new (effort self.old (R.shown reader.now)) (effort self.new (R.shown reader.now))) }
    {
        match self.examine(reader, row, steps)? {
            Some(found) => {
                self.pass_borrowed();
                self.deliver(row);
                Ok(Step::Row(found))
            }
            None => {
                self.pass_borrowed();
                Ok(Step::Working)
            }
        }
    }

    /// Remembers a row that the foreground's scan gives, where an index-only one runs beside the background.
    pub(crate) fn give_ahead(&mut self, row: RowNo)
        requires room { (is_building self.old.control && is_index_only self.old.strategy) ≡ true → length self.old.delivered < 1024 }
        requires fresh { (is_building self.old.control && is_index_only self.old.strategy) ≡ true → has_key row.0 self.old.delivered ≡ false }
        ensures delivers { (is_building self.old.control && is_index_only self.old.strategy) ≡ true → Delivers self.old self.new row.0 }
        ensures gives { GivesAhead row.0 self.old self.new }
    {
        if self.is_beside() {
            self.deliver(row);
        }
    }

    /// A step under the control. Where both sides of a fast-first retrieval run, a fresh key is fetched, or there is none and
    /// a background step is done.
    fn step<R: Reader>(
        &mut self,
        reader: &R,
        judge: &mut Box<dyn Judge>,
        steps: &mut Steps<R::Ledger>,
    ) -> Result<Step<Record>, NoMemory>
        requires fits { RetrievalFits self.old (R.shown reader.now) }
        ensures steady { Steady self.old self.new }
        ensures fits { RetrievalFits self.new (R.shown reader.now) }
        ensures step { IfOk result (DoesStep self.old self.new (R.shown reader.now)) }
        ensures ends { IfOk result (EndsIn self.new) }
        ensures again { self.old.control ≡ Control.Done → result ≡ Ok Step.End }
        ensures err { OnErr result (rest self.new (R.shown reader.now) ≡ rest self.old (R.shown reader.now)) }
        ensures does { (is_background self.old.control ≡ true → under_way self.old.joint ≡ true) → IfOk result (λ s. DoesIts (would judge.old) (state judge.old) (state judge.new) (R.shown reader.now) steps.old steps.new s self.old self.new) }
        ensures quiet { OnErr result (state judge.new ≡ state judge.old) }
        ensures may_read { (is_background self.old.control ≡ true → under_way self.old.joint ≡ true) → MayReadIts self.old steps.old steps.new }
        ensures reads { (is_background self.old.control ≡ true → under_way self.old.joint ≡ true) → IfOk result (ReadsIts self.old steps.old steps.new) }
        ensures still { OnErr result (OnlyTakes self.old self.new) }
        ensures stays { would judge.new ≡ would judge.old }
        ensures course { OnErr result (SameCourse self.old self.new) }
        ensures tries { Tries steps.old steps.new (effort self.old (R.shown reader.now)) (effort self.new (R.shown reader.now)) }
        ensures falls { Awaiting self.old → IfOk result (λ s. Falls s steps.old steps.new (effort self.old (R.shown reader.now)) (effort self.new (R.shown reader.now))) }
        ensures settled { Settled self.old → Settled self.new }
        ensures unasked { Settled self.old → state judge.new ≡ state judge.old }
        ensures pages { Settled self.old → steps.new.pages ≡ steps.old.pages }
        ensures records { Settled self.old → IfOk result (λ s. steps.new.records + fetches_left self.new (R.shown reader.now) ≤ steps.old.records + fetches_left self.old (R.shown reader.now)) }
    {
        match self.control() {
            Control::Building => match self.strategy() {
                Strategy::FastFirst => match self.fresh_key() {
                    None => self.background_step(reader, judge, steps),
                    Some(key) => self.borrow(reader, key, steps),
                },
                Strategy::Sorted | Strategy::IndexOnly => self.front_step(reader, steps),
                Strategy::Table | Strategy::BackgroundOnly | Strategy::Union => {
                    self.background_step(reader, judge, steps)
                }
            },
            Control::ForegroundAlone => self.front_step(reader, steps),
            Control::BackgroundAlone => self.background_step(reader, judge, steps),
            Control::FinalList => match self.scan_list(reader, steps) {
                Ok(scanned) => {
                    self.finish(&scanned);
                    Ok(scanned)
                }
                Err(NoMemory) => Err(NoMemory),
            },
            Control::FinalTable => self.table_step(reader, steps),
            Control::Done => Ok(Step::End),
        }
    }

    /// Gives a row of the rest, works on, or ends.
    ///
    /// `Row` takes one record out of the rest, which agrees with the answer in the columns needed, and of which none is
    /// less in the order columns. `End` comes only where the rest is empty, and then again at each further step. `Working`
    /// leaves the rest; so does `NoMemory`.
    pub fn fg_step<R: Reader>(
        &mut self,
        reader: &R,
        judge: &mut Box<dyn Judge>,
        steps: &mut Steps<R::Ledger>,
    ) -> Result<Step<Record>, NoMemory>
        requires fits { RetrievalFits self.old (R.shown reader.now) }
        ensures counts { CountsRise self.old.trace self.new.trace steps.old steps.new }
        ensures query { self.new.query ≡ self.old.query }
        ensures fits { RetrievalFits self.new (R.shown reader.now) }
        ensures step { IfOk result (DoesStep self.old self.new (R.shown reader.now)) }
        ensures ends { result ≡ Ok Step.End → self.new.control ≡ Control.Done }
        ensures again { self.old.control ≡ Control.Done → result ≡ Ok Step.End }
        ensures err { OnErr result (rest self.new (R.shown reader.now) ≡ rest self.old (R.shown reader.now)) }
        ensures does { Tells self.old → IfOk result (λ fg. StepsAs (would judge.old) (state judge.old) (state judge.new) (R.shown reader.now) steps.old steps.new fg self.old self.new) }
        ensures quiet { OnErr result (state judge.new ≡ state judge.old) }
        ensures may_read { Tells self.old → MayReadIts self.old steps.old steps.new }
        ensures still { OnErr result (OnlyTakes self.old self.new) }
        ensures fewer { OnErr result (fetches_left self.new (R.shown reader.now) ≤ fetches_left self.old (R.shown reader.now)) }
        ensures front { SameFront self.old.front self.new.front }
        ensures stays { would judge.new ≡ would judge.old }
        ensures course { OnErr result (SameCourse self.old self.new) }
        ensures tells { Tells self.old → Tells self.new }
        ensures tries { Tries steps.old steps.new (effort self.old (R.shown reader.now)) (effort self.new (R.shown reader.now)) }
        ensures spends { Awaiting self.old → IfOk result (λ fg. Spends fg steps.old steps.new (effort self.old (R.shown reader.now)) (effort self.new (R.shown reader.now))) }
        ensures awaiting { Awaiting self.old → Awaiting self.new }
        ensures settled { Settled self.old → Settled self.new }
        ensures unasked { Settled self.old → state judge.new ≡ state judge.old }
        ensures pages { Settled self.old → steps.new.pages ≡ steps.old.pages }
        ensures records { Settled self.old → IfOk result (λ s. steps.new.records + fetches_left self.new (R.shown reader.now) ≤ steps.old.records + fetches_left self.old (R.shown reader.now)) }
    {
        let before = steps.counts();
        let stepped = self.step(reader, judge, steps);
        self.count(before, steps.counts());
        stepped
    }
}
