ghost use Rattle.std.specs.Prelude.{◌≡◌, ◌<◌, if◌then◌else◌, true, false, min, IfOk, OnOk, OnErr, ◌+◌, ◌≤◌};
ghost use Rattle.rv_reader.specs.Shown.{Shown};
ghost use Rattle.rv_judge.specs.Course.{next_control};
ghost use Rattle.rv_judge.specs.declared.events.Event.{Event as TheEvent};
ghost use Rattle.rv_jscan.specs.Joint.{under_way};
ghost use Rattle.rv_scan.specs.Fronts.{SameFront};
ghost use Rattle.rv_retrieval.specs.Given.{Answers, TakesLeaf, TakesPiece, awaited};
ghost use Rattle.rv_retrieval.specs.Rulings.{GivesOn, Obeys, dropped, listed, ruled, scan_over, stopped};
ghost use Rattle.rv_retrieval.specs.Runs.{IsOfUndropped, SameCourse, Tells};
ghost use Rattle.rv_retrieval.specs.Shape.{DoesStep, EndsIn, Keeps, RetrievalFits, is_background, rest};
ghost use Rattle.rv_retrieval.specs.Stepping.{OnlyTakes, Steady, StepsBackground, piece_read};
ghost use Rattle.rv_retrieval.specs.Telling.{can_stop, list_len, noted_drop, noted_list, noted_scan};
ghost use Rattle.rv_judge.specs.Tracing.{CountsRise, SameCounts, noted};
ghost use Rattle.rv_final.specs.LaneWork.{GiveSpends};
ghost use Rattle.rv_retrieval.specs.Effort.{Awaiting, effort};
ghost use Rattle.rv_final.specs.Work.{Falls, Tries};
ghost use Rattle.rv_judge.specs.Counting.{reads};
ghost use Rattle.rv_retrieval.specs.Short.{Settled};

use crate::retrieval::Retrieval;
use rv_jscan::{Given, Sieved, Taken};
use rv_judge::{Control, Event, Happening, Judge, Steps, Strategy, Verdict, course};
use rv_reader::{Reader, Step};
use rv_value::{NoMemory, Record};

/// The background of a retrieval: its pieces, what becomes of its scans, and where a happening leads.
impl Retrieval {
    /// Goes to the control to which a happening leads, and writes it into the trace.
    pub(crate) fn go(&mut self, happening: Happening)
        ensures same { self.new ≡ record self.old { control = next_control self.old.strategy self.old.control happening; trace = self.new.trace } }
        ensures told { self.new.trace ≡ noted self.old.trace (TheEvent.At (next_control self.old.strategy self.old.control happening)) }
    {
        let next = course(self.strategy(), self.control(), happening);
        self.set_control(next);
        self.note(Event::At(next));
    }

    /// Writes the scan that begins into the trace.
    pub(crate) fn note_scan(&mut self)
        ensures { self.new ≡ record self.old { trace = noted_scan self.old.trace self.old.joint } }
    {
        if let Some(index) = self.index_of(self.ended()) {
            self.note(Event::Scan(index));
        }
    }

    fn note_list(&mut self, scan: u32, keys: u64)
        ensures { self.new ≡ record self.old { trace = noted_list self.old.trace self.old.joint scan keys } }
    {
        if let Some(index) = self.index_of(scan) {
            self.note(Event::List(index, keys));
        }
    }

    fn note_drop(&mut self, scan: u32)
        ensures { self.new ≡ record self.old { trace = noted_drop self.old.trace self.old.joint scan } }
    {
        if let Some(index) = self.index_of(scan) {
            self.note(Event::Drop(index));
        }
    }

    /// A list is complete: borrowing begins again at its first key, and so many fetches finish the retrieval.
    fn take_list(&mut self, scan: u32)
        ensures { self.new ≡ listed scan self.old }
    {
        let keys = self.list_len();
        self.borrow_anew();
        self.lower_guarantee(keys);
        self.note_list(scan, keys);
    }

    /// A scan completed.
    pub(crate) fn scan_ended(&mut self, scan: u32)
        ensures counts { SameCounts self.old.trace self.new.trace }
        ensures keeps { Keeps self.old self.new }
        ensures over { self.new ≡ scan_over scan self.old }
        ensures aside { self.new ≡ record self.old { control = self.new.control; borrowed = self.new.borrowed; guaranteed = self.new.guaranteed; trace = self.new.trace } }
    {
        let more = self.is_under_way();
        let listed = self.is_listed();
        self.take_list(scan);
        if more {
            self.note_scan();
        } else {
            self.go(Happening::ScanEnded { more, listed });
        }
    }

    /// A verdict drops the scan under way; `next` tells whether the next one begins.
    fn drop_by(&mut self, verdict: Verdict, more: bool, next: bool)
        requires back { is_background self.old.control ≡ true }
        requires way { under_way self.old.joint ≡ true }
        ensures counts { SameCounts self.old.trace self.new.trace }
        ensures keeps { Keeps self.old self.new }
        ensures dropped { self.new ≡ dropped verdict more next self.old }
        ensures front { self.new.front ≡ self.old.front }
    {
        let scan = self.ended();
        let listed = self.is_listed();
        self.drop_scan();
        self.borrow_next(listed);
        self.note_drop(scan);
        if next {
            self.note_scan();
        } else {
            self.go(Happening::Ruled {
                verdict,
                more,
                listed,
            });
        }
    }

    /// Obeys a verdict.
    fn obey(&mut self, verdict: Verdict)
        requires back { is_background self.old.control ≡ true }
        requires way { under_way self.old.joint ≡ true }
        ensures counts { SameCounts self.old.trace self.new.trace }
        ensures keeps { Keeps self.old self.new }
        ensures ruled { self.new ≡ ruled verdict self.old }
        ensures front { self.new.front ≡ self.old.front }
    {
        let more = self.more_behind();
        match verdict {
            Verdict::Continue => {}
            Verdict::AbandonScan => self.drop_by(verdict, more, more),
            Verdict::AbandonBackground => self.drop_by(verdict, more, false),
            Verdict::AbandonForeground => self.stop_front(more),
        }
    }

    /// Whether a foreground delivers that can be dropped.
    fn can_stop(&self) -> bool
        ensures { result ≡ can_stop self.now }
    {
        match (self.control(), self.strategy()) {
            (Control::Building, Strategy::FastFirst | Strategy::IndexOnly) => true,
            _ => false,
        }
    }

    /// The foreground is dropped, where there is one that can be dropped.
    fn stop_front(&mut self, more: bool)
        ensures counts { SameCounts self.old.trace self.new.trace }
        ensures keeps { Keeps self.old self.new }
        ensures stopped { self.new ≡ stopped more self.old }
        ensures front { self.new.front ≡ self.old.front }
    {
        if self.can_stop() {
            let listed = self.is_listed();
            self.note(Event::Stop);
            self.go(Happening::Ruled {
                verdict: Verdict::AbandonForeground,
                more,
                listed,
            });
        }
    }

    /// Takes a sieved piece back. Where it is the awaited one its rows are added, and where it is not the last of its scan
    /// the judge is asked, and its verdict is obeyed. It reads nothing.
    pub fn give<L: Drop>(
        &mut self,
        sieved: Sieved,
        judge: &mut Box<dyn Judge>,
        _steps: &mut Steps<L>,
    ) -> Result<Given, NoMemory>
        ensures counts { SameCounts self.old.trace self.new.trace }
        ensures given { IfOk result (λ g. Answers self.old sieved g self.new) }
        ensures obeys { IfOk result (λ g. GivesOn (would judge.old) (state judge.old) (state judge.new) sieved g self.old self.new) }
        ensures keeps { Keeps self.old self.new }
        ensures err { OnErr result (self.new ≡ self.old) }
        ensures reads { _steps.new ≡ _steps.old }
        ensures quiet { OnErr result (state judge.new ≡ state judge.old) }
        ensures stays { would judge.new ≡ would judge.old }
        ensures tells { Tells self.old → Tells self.new }
        ensures less { (shown : Shown) → RetrievalFits self.old shown → effort self.new shown ≤ effort self.old shown }
        ensures spends { (shown : Shown) → RetrievalFits self.old shown → IfOk result (λ g. GiveSpends g (effort self.old shown) (effort self.new shown)) }
        ensures awaiting { Awaiting self.old → Awaiting self.new }
        ensures settled { Settled self.old → (self.new ≡ self.old) × (state judge.new ≡ state judge.old) }
        ensures front { self.new.front ≡ self.old.front }
    {
        self.give_piece(sieved, judge)
    }

    fn give_piece(&mut self, sieved: Sieved, judge: &mut Box<dyn Judge>) -> Result<Given, NoMemory>
        ensures counts { SameCounts self.old.trace self.new.trace }
        ensures given { IfOk result (λ g. Answers self.old sieved g self.new) }
        ensures obeys { IfOk result (λ g. GivesOn (would judge.old) (state judge.old) (state judge.new) sieved g self.old self.new) }
        ensures keeps { Keeps self.old self.new }
        ensures err { OnErr result (self.new ≡ self.old) }
        ensures quiet { OnErr result (state judge.new ≡ state judge.old) }
        ensures stays { would judge.new ≡ would judge.old }
        ensures settled { Settled self.old → (self.new ≡ self.old) × (state judge.new ≡ state judge.old) }
        ensures front { self.new.front ≡ self.old.front }
    {
        if !self.is_background() {
            let asked = sieved.id();
            drop(sieved);
            return Ok(Given::Stale { asked, now: None });
        }
        let before = self.ended();
        let given = self.give_joint(sieved)?;
        if given == Given::Accepted {
            self.accepted(before, judge);
        }
        Ok(given)
    }

    /// A piece was accepted: its scan completed, or the judge is asked.
    fn accepted(&mut self, before: u32, judge: &mut Box<dyn Judge>)
        requires back { is_background self.old.control ≡ true }
        ensures counts { SameCounts self.old.trace self.new.trace }
        ensures keeps { Keeps self.old self.new }
        ensures obeys { Obeys (would judge.old) (state judge.old) (state judge.new) before self.old self.new }
        ensures stays { would judge.new ≡ would judge.old }
        ensures front { self.new.front ≡ self.old.front }
    {
        if self.ended() != before {
            self.scan_ended(before);
        } else if self.is_under_way() {
            let facts = self.facts();
            let verdict = judge.rule(&facts);
            self.obey(verdict);
        }
    }

    /// A copy of the awaited piece; Nothing exactly where none is awaited. The leaf is read where it is not held, and
    /// `NoMemory` takes nothing.
    pub fn take<R: Reader>(
        &mut self,
        reader: &R,
        steps: &mut Steps<R::Ledger>,
    ) -> Result<Taken, NoMemory>
        requires fits { RetrievalFits self.old (R.shown reader.now) }
        ensures counts { CountsRise self.old.trace self.new.trace steps.old steps.new }
        ensures taken { IfOk result (TakesPiece self.new) }
        ensures query { self.new.query ≡ self.old.query }
        ensures fits { RetrievalFits self.new (R.shown reader.now) }
        ensures rest { rest self.new (R.shown reader.now) ≡ rest self.old (R.shown reader.now) }
        ensures same { self.new ≡ record self.old { joint = self.new.joint; trace = self.new.trace } }
        ensures leaves { TakesLeaf self.old self.new.joint }
        ensures course { SameCourse self.old self.new }
        ensures awaits { awaited self.new ≡ awaited self.old }
        ensures untaken { OnErr result (self.new.joint.held ≡ self.old.joint.held) }
        ensures reads { steps.new ≡ piece_read self.old steps.old }
        ensures tells { Tells self.old → Tells self.new }
        ensures tries { Tries steps.old steps.new (effort self.old (R.shown reader.now)) (effort self.new (R.shown reader.now)) }
        ensures spends { IfOk result (λ taken. reads steps.new + effort self.new (R.shown reader.now) ≤ reads steps.old + effort self.old (R.shown reader.now)) }
        ensures awaiting { Awaiting self.old → Awaiting self.new }
        ensures undropped { Tells self.old → IfOk result (IsOfUndropped self.new) }
        ensures settled { Settled self.old → Settled self.new × (steps.new ≡ steps.old) }
    {
        let before = steps.counts();
        let taken = self.take_piece(reader, steps);
        self.count(before, steps.counts());
        taken
    }

    fn take_piece<R: Reader>(
        &mut self,
        reader: &R,
        steps: &mut Steps<R::Ledger>,
    ) -> Result<Taken, NoMemory>
        requires fits { RetrievalFits self.old (R.shown reader.now) }
        ensures counts { SameCounts self.old.trace self.new.trace }
        ensures taken { IfOk result (TakesPiece self.new) }
        ensures query { self.new.query ≡ self.old.query }
        ensures fits { RetrievalFits self.new (R.shown reader.now) }
        ensures rest { rest self.new (R.shown reader.now) ≡ rest self.old (R.shown reader.now) }
        ensures same { self.new ≡ record self.old { joint = self.new.joint } }
        ensures leaves { TakesLeaf self.old self.new.joint }
        ensures untaken { OnErr result (self.new.joint.held ≡ self.old.joint.held) }
        ensures reads { steps.new ≡ piece_read self.old steps.old }
        ensures tries { Tries steps.old steps.new (effort self.old (R.shown reader.now)) (effort self.new (R.shown reader.now)) }
        ensures spends { IfOk result (λ taken. reads steps.new + effort self.new (R.shown reader.now) ≤ reads steps.old + effort self.old (R.shown reader.now)) }
        ensures awaiting { Awaiting self.old → Awaiting self.new }
        ensures control { self.new.control ≡ self.old.control }
        ensures settled { Settled self.old → Settled self.new × (steps.new ≡ steps.old) }
        ensures front { self.new.front ≡ self.old.front }
    {
        if !self.is_background() {
            return Ok(Taken::Nothing);
        }
        self.take_joint(reader, steps)
    }

    /// A background step: the awaited piece is taken up where it stands, which comes to what a take, a sieve and a give of it
    /// do, and the judge is obeyed.
    pub(crate) fn background_step<R: Reader>(
        &mut self,
        reader: &R,
        judge: &mut Box<dyn Judge>,
        steps: &mut Steps<R::Ledger>,
    ) -> Result<Step<Record>, NoMemory>
        requires fits { RetrievalFits self.old (R.shown reader.now) }
        ensures steady { Steady self.old self.new }
        ensures fits { RetrievalFits self.new (R.shown reader.now) }
        ensures step { IfOk result (DoesStep self.old self.new (R.shown reader.now)) }
        ensures ends { IfOk result (EndsIn self.new) }
        ensures err { OnErr result (rest self.new (R.shown reader.now) ≡ rest self.old (R.shown reader.now)) }
        ensures does { IfOk result (λ s. (s ≡ Step.Working) × StepsBackground (would judge.old) (state judge.old) (state judge.new) self.old self.new) }
        ensures quiet { OnErr result (state judge.new ≡ state judge.old) }
        ensures stays { would judge.new ≡ would judge.old }
        ensures course { OnErr result (SameCourse self.old self.new) }
        ensures still { OnErr result (OnlyTakes self.old self.new) }
        ensures reads { steps.new ≡ piece_read self.old steps.old }
        ensures tries { Tries steps.old steps.new (effort self.old (R.shown reader.now)) (effort self.new (R.shown reader.now)) }
        ensures falls { is_background self.old.control ≡ true → Awaiting self.old → IfOk result (λ s. Falls s steps.old steps.new (effort self.old (R.shown reader.now)) (effort self.new (R.shown reader.now))) }
    {
        if !self.is_background() {
            return Ok(Step::Working);
        }
        let before = self.ended();
        if !self.step_joint(reader, steps)? {
            return Ok(Step::Working);
        }
        self.accepted(before, judge);
        Ok(Step::Working)
    }
}
