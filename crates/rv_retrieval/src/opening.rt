ghost use Rattle.std.specs.Prelude.{◌≡◌, ◌<◌, ◌≤◌, length, None, true, false, IfOk, IfSome, OnOk, OnErr, ◌+◌, ℕ, List};
ghost use Rattle.rv_reader.specs.Shown.{Shown};
ghost use Rattle.rv_jscan.specs.Joint.{CanTake, JointFits, leaves_ahead, under_way};
ghost use Rattle.rv_choice.specs.Asked.{CanAsk};
ghost use Rattle.rv_choice.specs.Choice.{IsChosen, IsRight, candidates_of};
ghost use Rattle.rv_retrieval.specs.Opened.{Begun, Completes, OnlyLists, Opened, RunsOut, SameScans, Scanned, ScansFirst, is_one, start_told};
ghost use Rattle.rv_retrieval.specs.Began.{Began};
ghost use Rattle.rv_retrieval.specs.Opens.{Opens};
ghost use Rattle.rv_final.specs.Rest.{qualifying};
ghost use Rattle.rv_retrieval.specs.Runs.{Tells};
ghost use Rattle.rv_retrieval.specs.Shape.{RetrievalFits, is_background, rest};
ghost use Rattle.rv_judge.specs.Tracing.{CountsAll, new_trace};
ghost use Rattle.rv_judge.specs.Counting.{reads};
ghost use Rattle.rv_retrieval.specs.Effort.{Awaiting, back_work, effort, life_of};
ghost use Rattle.rv_scan.specs.Places.{work as pages_work};
ghost use Rattle.rv_value.specs.declared.record.Record.{Record as OneRecord};
ghost use Rattle.std.specs.List.{AllByRecursion};
ghost use Rattle.rv_retrieval.specs.Short.{OnlyLeaves, Settled, fetches_left, has_short, keys_most};

use crate::retrieval::Retrieval;
use rv_choice::{Background, Candidate, Choice, Query, candidates, choose};
use rv_jscan::ScanPlan;
use rv_judge::{Event, Steps, Strategy};
use rv_reader::Reader;
use rv_value::NoMemory;
use std::alloc::Global;

impl Retrieval {
    /// Writes the first control into the trace, and the scan with which a background begins.
    fn tell_start(&mut self)
        ensures { self.new ≡ record self.old { trace = start_told self.old } }
    {
        self.note(Event::At(self.control()));
        if self.is_background() {
            self.note_scan();
        }
    }

    /// Begins under a strategy, with these background scans and the foreground that stands there, which is used where the
    /// strategy is sorted or index-only. It has read nothing.
    fn begin(
        &mut self,
        strategy: Strategy,
        scans: Vec<ScanPlan>,
        guaranteed: u64,
        cursor: u64,
        opening: u64,
    ) -> Result<(), NoMemory>
        requires { length scans.items ≤ 8 }
        ensures begun { OnOk result (Begun self.old.query strategy scans.items self.old.front guaranteed cursor opening self.new) }
        ensures told { OnOk result (self.new.trace ≡ start_told (record self.new { trace = new_trace strategy })) }
        ensures fits { OnOk result ((shown : Shown) → Opens self.old.query strategy scans.items self.old.front shown → RetrievalFits self.new shown) }
        ensures rest { OnOk result ((shown : Shown) → Opens self.old.query strategy scans.items self.old.front shown → rest self.new shown ≡ qualifying self.old.query.only (shown.rows self.old.query.table self.old.query.snap)) }
        ensures unborrowed { OnOk result (self.new.borrowed ≡ 0) }
        ensures last { OnOk result ((rows : List OneRecord) (pages : ℕ) → pages_work self.new.last rows pages ≡ length rows + pages) }
    {
        self.renew(strategy, scans, guaranteed, cursor, opening)?;
        self.tell_start();
        Ok(())
    }

    /// Takes up the next leaf; false where none is awaited.
    fn scan_piece<R: Reader>(
        &mut self,
        reader: &R,
        steps: &mut Steps<R::Ledger>,
    ) -> Result<bool, NoMemory>
        requires can { CanTake self.old.joint (R.shown reader.now) }
        requires fits { JointFits self.old.joint (R.shown reader.now) }
        ensures same { self.new ≡ record self.old { joint = self.new.joint } }
        ensures scans { SameScans self.old.joint self.new.joint }
        ensures fits { JointFits self.new.joint (R.shown reader.now) }
        ensures nearer { IfOk result (λ given. given ≡ true → leaves_ahead self.new.joint (R.shown reader.now) < leaves_ahead self.old.joint (R.shown reader.now)) }
        ensures done { IfOk result (λ given. given ≡ false → under_way self.new.joint ≡ false) }
        ensures lists { OnlyLists self.old.joint self.new.joint }
        ensures first { self.old.joint.list ≡ None → ScansFirst (R.shown reader.now) self.old.joint self.new.joint }
        ensures stays { under_way self.old.joint ≡ false → self.new.joint ≡ self.old.joint }
        ensures spends { IfOk result (λ given. reads steps.new + back_work self.new.joint 0 (R.shown reader.now) ≤ reads steps.old + back_work self.old.joint 0 (R.shown reader.now)) }
        ensures less { back_work self.new.joint 0 (R.shown reader.now) ≤ back_work self.old.joint 0 (R.shown reader.now) }
        ensures once { reads steps.new ≤ reads steps.old + 1 }
        ensures keys { keys_most self.new.joint (R.shown reader.now) ≤ keys_most self.old.joint (R.shown reader.now) }
        ensures only { OnlyLeaves steps.old steps.new }
    {
        self.step_joint(reader, steps)
    }

    /// Scans to the end what the background is to scan.
    #[tactic(auto, using(crate::proofs::Wholes::first_begins, crate::proofs::Wholes::first_then))]
    fn scan_all<R: Reader>(
        &mut self,
        reader: &R,
        steps: &mut Steps<R::Ledger>,
    ) -> Result<(), NoMemory>
        requires can { CanTake self.old.joint (R.shown reader.now) }
        requires fits { JointFits self.old.joint (R.shown reader.now) }
        ensures same { self.new ≡ record self.old { joint = self.new.joint } }
        ensures scans { SameScans self.old.joint self.new.joint }
        ensures fits { JointFits self.new.joint (R.shown reader.now) }
        ensures done { OnOk result (under_way self.new.joint ≡ false) }
        ensures lists { OnlyLists self.old.joint self.new.joint }
        ensures first { length self.old.joint.plans ≤ 1 → self.old.joint.list ≡ None → ScansFirst (R.shown reader.now) self.old.joint self.new.joint }
        ensures spends { OnOk result (reads steps.new + back_work self.new.joint 0 (R.shown reader.now) ≤ reads steps.old + back_work self.old.joint 0 (R.shown reader.now)) }
        ensures less { back_work self.new.joint 0 (R.shown reader.now) ≤ back_work self.old.joint 0 (R.shown reader.now) }
        ensures tried { reads steps.new ≤ reads steps.old + back_work self.old.joint 0 (R.shown reader.now) + 1 }
        ensures keys { keys_most self.new.joint (R.shown reader.now) ≤ keys_most self.old.joint (R.shown reader.now) }
        ensures only { OnlyLeaves steps.old steps.new }
    {
        'pieces: while self.scan_piece(reader, steps)? {}
        Ok(())
    }

    /// Scans the one planned index at once.
    fn scan_at_once<R: Reader>(
        &mut self,
        reader: &R,
        steps: &mut Steps<R::Ledger>,
    ) -> Result<(), NoMemory>
        requires fits { RetrievalFits self.old (R.shown reader.now) }
        requires back { is_background self.old.control ≡ true }
        requires way { under_way self.old.joint ≡ true }
        ensures scanned { OnOk result (Scanned self.old self.new) }
        ensures fits { OnOk result (RetrievalFits self.new (R.shown reader.now)) }
        ensures rest { OnOk result (rest self.new (R.shown reader.now) ≡ rest self.old (R.shown reader.now)) }
        ensures runs { OnOk result (RunsOut self.old self.new) }
        ensures completes { length self.old.joint.plans ≤ 1 → self.old.joint.list ≡ None → OnOk result (Completes (R.shown reader.now) self.old.joint self.new.joint) }
        ensures spends { self.old.borrowed ≡ 0 → OnOk result (reads steps.new + effort self.new (R.shown reader.now) ≤ reads steps.old + effort self.old (R.shown reader.now)) }
        ensures less { self.old.borrowed ≡ 0 → OnOk result (effort self.new (R.shown reader.now) ≤ effort self.old (R.shown reader.now)) }
        ensures tried { self.old.borrowed ≡ 0 → reads steps.new ≤ reads steps.old + effort self.old (R.shown reader.now) + 1 }
        ensures awaiting { Awaiting self.old → OnOk result (Awaiting self.new) }
        ensures settled { Awaiting self.old → self.old.joint.list ≡ None → OnOk result (Settled self.new) }
        ensures few { Awaiting self.old → self.old.joint.list ≡ None → keys_most self.old.joint (R.shown reader.now) ≤ 20 → OnOk result (fetches_left self.new (R.shown reader.now) ≤ 20) }
        ensures only { OnlyLeaves steps.old steps.new }
    {
        self.scan_all(reader, steps)?;
        self.scan_ended(0);
        Ok(())
    }

    /// Scans a single index at once.
    fn settle<R: Reader>(
        &mut self,
        background: Background,
        reader: &R,
        steps: &mut Steps<R::Ledger>,
    ) -> Result<(), NoMemory>
        requires fits { RetrievalFits self.old (R.shown reader.now) }
        requires back { is_one background ≡ true → is_background self.old.control ≡ true }
        requires way { is_one background ≡ true → under_way self.old.joint ≡ true }
        ensures scanned { OnOk result (Scanned self.old self.new) }
        ensures fits { OnOk result (RetrievalFits self.new (R.shown reader.now)) }
        ensures rest { OnOk result (rest self.new (R.shown reader.now) ≡ rest self.old (R.shown reader.now)) }
        ensures runs { OnOk result (is_one background ≡ true → RunsOut self.old self.new) }
        ensures completes { is_one background ≡ true → length self.old.joint.plans ≤ 1 → self.old.joint.list ≡ None → OnOk result (Completes (R.shown reader.now) self.old.joint self.new.joint) }
        ensures same { is_one background ≡ false → self.new ≡ self.old }
        ensures spends { self.old.borrowed ≡ 0 → OnOk result (reads steps.new + effort self.new (R.shown reader.now) ≤ reads steps.old + effort self.old (R.shown reader.now)) }
        ensures less { self.old.borrowed ≡ 0 → OnOk result (effort self.new (R.shown reader.now) ≤ effort self.old (R.shown reader.now)) }
        ensures tried { self.old.borrowed ≡ 0 → reads steps.new ≤ reads steps.old + effort self.old (R.shown reader.now) + 1 }
        ensures awaiting { Awaiting self.old → OnOk result (Awaiting self.new) }
        ensures settled { is_one background ≡ true → Awaiting self.old → self.old.joint.list ≡ None → OnOk result (Settled self.new) }
        ensures few { is_one background ≡ true → Awaiting self.old → self.old.joint.list ≡ None → keys_most self.old.joint (R.shown reader.now) ≤ 20 → OnOk result (fetches_left self.new (R.shown reader.now) ≤ 20) }
        ensures only { OnlyLeaves steps.old steps.new }
        ensures unread { is_one background ≡ false → steps.new ≡ steps.old }
    {
        match background {
            Background::One(_) => self.scan_at_once(reader, steps),
            Background::Nothing | Background::Each | Background::EachBut(_) => Ok(()),
        }
    }

    /// Begins with what was chosen. It has read nothing.
    fn begin_chosen<R: Reader>(
        &mut self,
        reader: &R,
        candidates: &[Candidate],
        choice: Choice,
        cursor: u64,
        opening: u64,
    ) -> Result<(), NoMemory>
        requires can { CanAsk self.old.query (R.shown reader.now) }
        requires candidates { candidates.now ≡ candidates_of self.old.query (R.shown reader.now) }
        requires choice { IsChosen self.old.query.order self.old.query.goal candidates.now choice }
        requires right { AllByRecursion (IsRight (R.shown reader.now) self.old.query.snap) candidates.now }
        ensures { OnOk result (Began self.old.query (R.shown reader.now) candidates.now choice cursor opening self.new) }
    {
        let guaranteed = self.guarantee(reader, candidates, choice);
        self.lead(candidates, choice.front)?;
        let scans = self.scans(candidates, choice.background)?;
        self.begin(choice.strategy, scans, guaranteed, cursor, opening)?;
        Ok(())
    }

    /// Begins with what was chosen for the query that it has, and scans a single index at once.
    fn open_in<R: Reader>(
        &mut self,
        reader: &R,
        candidates: &[Candidate],
        choice: Choice,
        cursor: u64,
        opening: u64,
        steps: &mut Steps<R::Ledger>,
    ) -> Result<(), NoMemory>
        requires can { CanAsk self.old.query (R.shown reader.now) }
        requires candidates { candidates.now ≡ candidates_of self.old.query (R.shown reader.now) }
        requires choice { IsChosen self.old.query.order self.old.query.goal candidates.now choice }
        requires right { AllByRecursion (IsRight (R.shown reader.now) self.old.query.snap) candidates.now }
        ensures opened { OnOk result (Opened self.old.query (R.shown reader.now) cursor opening self.new) }
        ensures counts { OnOk result (CountsAll self.new.trace steps.old steps.new) }
        ensures tells { OnOk result (Tells self.new) }
        ensures fits { OnOk result (RetrievalFits self.new (R.shown reader.now)) }
        ensures rest { OnOk result (rest self.new (R.shown reader.now) ≡ qualifying self.old.query.only ((R.shown reader.now).rows self.old.query.table self.old.query.snap)) }
        ensures life { OnOk result (reads steps.new + effort self.new (R.shown reader.now) ≤ reads steps.old + life_of self.old.query (R.shown reader.now)) }
        ensures effort { OnOk result (effort self.new (R.shown reader.now) ≤ life_of self.old.query (R.shown reader.now)) }
        ensures reads { reads steps.new ≤ reads steps.old + life_of self.old.query (R.shown reader.now) }
        ensures awaiting { OnOk result (Awaiting self.new) }
        ensures short { OnOk result (has_short self.old.query (R.shown reader.now) ≡ true → Settled self.new × (fetches_left self.new (R.shown reader.now) ≤ 20)) }
        ensures only { OnlyLeaves steps.old steps.new }
        ensures unread { has_short self.old.query (R.shown reader.now) ≡ false → steps.new ≡ steps.old }
    {
        let before = steps.counts();
        self.begin_chosen(reader, candidates, choice, cursor, opening)?;
        self.settle(choice.background, reader, steps)?;
        self.count(before, steps.counts());
        Ok(())
    }

    /// Opens a retrieval with what was chosen for a query, as `open` does, in the place of one that is over, where one is
    /// given.
    pub fn open_chosen<R: Reader>(
        alloc: Global,
        reader: &R,
        over: Option<Box<Retrieval>>,
        query: Query,
        candidates: &[Candidate],
        choice: Choice,
        cursor: u64,
        opening: u64,
        steps: &mut Steps<R::Ledger>,
    ) -> Result<Box<Retrieval>, NoMemory>
        requires can { CanAsk query (R.shown reader.now) }
        requires candidates { candidates.now ≡ candidates_of query (R.shown reader.now) }
        requires choice { IsChosen query.order query.goal candidates.now choice }
        requires right { AllByRecursion (IsRight (R.shown reader.now) query.snap) candidates.now }
        ensures opened { IfOk result (λ r. Opened query (R.shown reader.now) cursor opening r.value) }
        ensures counts { IfOk result (λ r. CountsAll r.value.trace steps.old steps.new) }
        ensures tells { IfOk result (λ r. Tells r.value) }
        ensures fits { IfOk result (λ r. RetrievalFits r.value (R.shown reader.now)) }
        ensures rest { IfOk result (λ r. rest r.value (R.shown reader.now) ≡ qualifying query.only ((R.shown reader.now).rows query.table query.snap)) }
        ensures life { IfOk result (λ r. reads steps.new + effort r.value (R.shown reader.now) ≤ reads steps.old + life_of query (R.shown reader.now)) }
        ensures effort { IfOk result (λ r. effort r.value (R.shown reader.now) ≤ life_of query (R.shown reader.now)) }
        ensures reads { reads steps.new ≤ reads steps.old + life_of query (R.shown reader.now) }
        ensures awaiting { IfOk result (λ r. Awaiting r.value) }
        ensures short { has_short query (R.shown reader.now) ≡ true → IfOk result (λ r. Settled r.value × (fetches_left r.value (R.shown reader.now) ≤ 20)) }
        ensures only { OnlyLeaves steps.old steps.new }
        ensures unread { has_short query (R.shown reader.now) ≡ false → steps.new ≡ steps.old }
    {
        let mut retrieval = Retrieval::place(alloc, over, query)?;
        let placed = &mut *retrieval;
        match placed.open_in(reader, candidates, choice, cursor, opening, steps) {
            Ok(()) => Ok(retrieval),
            Err(fault) => {
                drop(retrieval);
                Err(fault)
            }
        }
    }

    /// Opens a retrieval: it looks at the ranges that the restriction has for the indexes and at their estimates, and
    /// chooses the strategy, the foreground's scan and the background's.
    ///
    /// Where a restricted index has an exact estimate of at most 20 its leaves are read at once. `cursor` and `opening`
    /// go into the ids of the retrieval's pieces.
    pub fn open<R: Reader>(
        alloc: Global,
        reader: &R,
        query: Query,
        cursor: u64,
        opening: u64,
        steps: &mut Steps<R::Ledger>,
    ) -> Result<Box<Retrieval>, NoMemory>
        requires { CanAsk query (R.shown reader.now) }
        ensures opened { IfOk result (λ r. Opened query (R.shown reader.now) cursor opening r.value) }
        ensures counts { IfOk result (λ r. CountsAll r.value.trace steps.old steps.new) }
        ensures tells { IfOk result (λ r. Tells r.value) }
        ensures fits { IfOk result (λ r. RetrievalFits r.value (R.shown reader.now)) }
        ensures rest { IfOk result (λ r. rest r.value (R.shown reader.now) ≡ qualifying query.only ((R.shown reader.now).rows query.table query.snap)) }
        ensures life { IfOk result (λ r. reads steps.new + effort r.value (R.shown reader.now) ≤ reads steps.old + life_of query (R.shown reader.now)) }
        ensures effort { IfOk result (λ r. effort r.value (R.shown reader.now) ≤ life_of query (R.shown reader.now)) }
        ensures reads { reads steps.new ≤ reads steps.old + life_of query (R.shown reader.now) }
        ensures awaiting { IfOk result (λ r. Awaiting r.value) }
        ensures short { has_short query (R.shown reader.now) ≡ true → IfOk result (λ r. Settled r.value × (fetches_left r.value (R.shown reader.now) ≤ 20)) }
        ensures only { OnlyLeaves steps.old steps.new }
        ensures unread { has_short query (R.shown reader.now) ≡ false → steps.new ≡ steps.old }
    {
        let candidates = match candidates(alloc, reader, &query, Vec::new(alloc)) {
            Ok(candidates) => candidates,
            Err(fault) => {
                drop(query);
                return Err(fault);
            }
        };
        let choice = choose(candidates.as_slice(), query.order.as_slice(), query.goal);
        let opened = Retrieval::open_chosen(
            alloc,
            reader,
            None,
            query,
            candidates.as_slice(),
            choice,
            cursor,
            opening,
            steps,
        );
        drop(candidates);
        opened
    }
}
