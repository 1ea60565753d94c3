ghost use Rattle.std.specs.Prelude.{◌≡◌, ◌≤◌, ◌↔◌, false, true, not, is_some, IfOk, IsTrue, OnErr};
ghost use Rattle.rv_judge.specs.Tracing.{SameCounts};
ghost use Rattle.rv_reader.specs.Shown.{Shown};
ghost use Rattle.rv_jscan.specs.Steps.{held_next};
ghost use Rattle.rv_final.specs.LaneWork.{GiveSpends};
ghost use Rattle.rv_race.specs.Effort.{effort};
ghost use Rattle.rv_race.specs.Given.{Answers, Awaits, turn_lane};
ghost use Rattle.rv_race.specs.Raced.{Keeps, RaceFits, SameRace};
ghost use Rattle.rv_race.specs.Rulings.{Completes, GivesOn, HasNextTurn, IsRuled, accepted, dropped, ended, facts_of, going_on, lowered, more, over, ruled, stopped, told_list};
ghost use Rattle.rv_race.specs.Runs.{Tells};

use crate::race::Race;
use rv_jscan::{Given, Sieved};
use rv_judge::{Event, Happening, Judge, Steps, Verdict};
use rv_value::NoMemory;

/// A piece that is given back, what becomes of its scan, and what the judge is asked.
impl Race {
    /// Another scan goes on.
    fn go_on(&mut self)
        requires { more self.old ≡ true }
        ensures { self.new ≡ going_on self.old }
    {
        self.advance();
        let index = self.turn_index();
        self.note(Event::Scan(index));
    }

    /// A scan is over: another one goes on, or the background ends.
    fn scan_over(&mut self, goes: bool, happening: Happening)
        requires { goes ≡ more self.old }
        ensures { self.new ≡ over goes happening self.old }
    {
        if goes {
            self.go_on();
        } else {
            self.go(happening);
        }
    }

    /// A list is complete: as many fetches as it has keys finish the race.
    fn lower_by_list(&mut self)
        ensures { self.new ≡ lowered self.old }
    {
        let keys = self.list_len();
        self.lower_guarantee(keys);
    }

    fn tell_list(&mut self)
        ensures { self.new ≡ told_list self.old }
    {
        let index = self.turn_index();
        let keys = self.list_len();
        self.tell_over(Event::List(index, keys));
    }

    /// A list is complete: another scan goes on, or the background ends.
    fn end(&mut self)
        ensures { self.new ≡ ended self.old }
    {
        let goes = self.has_more();
        self.scan_over(
            goes,
            Happening::ScanEnded {
                more: goes,
                listed: true,
            },
        );
    }

    /// The scan whose turn it is completed.
    fn scan_ended(&mut self)
        ensures { Completes self.old self.new }
    {
        self.complete();
        self.narrow();
        self.recount();
        self.lower_by_list();
        self.tell_list();
        self.end();
    }

    /// The scan whose turn it is is dropped; the other one goes on.
    fn drop_scan(&mut self)
        ensures { self.new ≡ dropped self.old }
    {
        let goes = self.has_more();
        let listed = self.is_listed();
        let index = self.turn_index();
        self.tell_over(Event::Drop(index));
        self.scan_over(
            goes,
            Happening::Ruled {
                verdict: Verdict::AbandonScan,
                more: goes,
                listed,
            },
        );
    }

    /// All scans are dropped.
    fn stop(&mut self)
        ensures { self.new ≡ stopped self.old }
    {
        let more = self.has_more();
        let listed = self.is_listed();
        let index = self.lower_index();
        self.note(Event::Drop(index));
        self.go(Happening::Ruled {
            verdict: Verdict::AbandonBackground,
            more,
            listed,
        });
    }

    /// Obeys a verdict.
    fn obey(&mut self, verdict: Verdict)
        ensures { self.new ≡ ruled verdict self.old }
    {
        match verdict {
            Verdict::Continue | Verdict::AbandonForeground => self.pass_turn(),
            Verdict::AbandonScan => self.drop_scan(),
            Verdict::AbandonBackground => self.stop(),
        }
    }

    /// Asks the judge about the scan whose turn it is, and obeys.
    fn ask(&mut self, judge: &mut Box<dyn Judge>)
        ensures ruled { IsRuled (would judge.old (state judge.old) (facts_of self.old)) (state judge.new) self.old self.new }
        ensures stays { would judge.new ≡ would judge.old }
    {
        let facts = self.facts();
        let verdict = judge.rule(&facts);
        self.obey(verdict);
    }

    /// What becomes of the scan of a piece that was taken up: where it was the last one the scan completed, else the judge is
    /// asked.
    fn go_by(&mut self, last: bool, judge: &mut Box<dyn Judge>)
        ensures last { last ≡ true → Completes self.old self.new × (state judge.new ≡ state judge.old) }
        ensures ruled { last ≡ false → IsRuled (would judge.old (state judge.old) (facts_of self.old)) (state judge.new) self.old self.new }
        ensures stays { would judge.new ≡ would judge.old }
    {
        if last {
            self.scan_ended();
        } else {
            self.ask(judge);
        }
    }

    /// Whether the piece is the awaited one, once taken.
    fn awaits(&self, sieved: &Sieved) -> bool
        ensures { IsTrue result ↔ Awaits self.now sieved.now }
    {
        if !self.is_racing() {
            return false;
        }
        self.is_own(self.next_id(), sieved)
    }

    /// Takes the awaited piece up; true where it was the last of its scan.
    fn accept(&mut self, sieved: &Sieved) -> Result<bool, NoMemory>
        requires { Awaits self.old sieved.now }
        ensures last { IfOk result (λ last. is_some (held_next (turn_lane self.old).held) ≡ not last) }
        ensures ok { IfOk result (λ last. self.new ≡ accepted sieved.now last self.old) }
        ensures err { OnErr result (self.new ≡ self.old) }
    {
        let before = self.built();
        let last = self.add_kept(sieved)?;
        let kept = self.built() - before;
        self.count_piece(sieved.entries().len() as u64, kept, last);
        Ok(last)
    }

    /// Takes a sieved piece back: `Stale`, and nothing changes, where it is not the awaited one; else the judge is asked
    /// and obeyed, but for a scan's last piece.
    pub(crate) fn give_piece(
        &mut self,
        sieved: Sieved,
        judge: &mut Box<dyn Judge>,
    ) -> Result<Given, NoMemory>
        ensures given { IfOk result (λ g. Answers self.old sieved g self.new) }
        ensures obeys { IfOk result (λ g. GivesOn (would judge.old) (state judge.old) (state judge.new) sieved g self.old self.new) }
        ensures err { OnErr result (self.new ≡ self.old) }
        ensures quiet { OnErr result (state judge.new ≡ state judge.old) }
        ensures stays { would judge.new ≡ would judge.old }
    {
        if !self.awaits(&sieved) {
            let asked = sieved.id();
            drop(sieved);
            return Ok(Given::Stale {
                asked,
                now: self.awaited(),
            });
        }
        let accepted = self.accept(&sieved);
        drop(sieved);
        let last = accepted?;
        self.go_by(last, judge);
        Ok(Given::Accepted)
    }

    /// Takes a sieved piece back. Where it is the awaited one its rows are added, and where it is not the last of its scan
    /// the judge is asked, and its verdict is obeyed. It reads nothing.
    pub fn give<L: Drop>(
        &mut self,
        sieved: Sieved,
        judge: &mut Box<dyn Judge>,
        _steps: &mut Steps<L>,
    ) -> Result<Given, NoMemory>
        ensures given { IfOk result (λ g. Answers self.old sieved g self.new) }
        ensures obeys { IfOk result (λ g. GivesOn (would judge.old) (state judge.old) (state judge.new) sieved g self.old self.new) }
        ensures turns { IfOk result (λ g. HasNextTurn g self.old self.new) }
        ensures err { OnErr result (self.new ≡ self.old) }
        ensures quiet { OnErr result (state judge.new ≡ state judge.old) }
        ensures stays { would judge.new ≡ would judge.old }
        ensures same { SameRace self.old self.new }
        ensures counts { SameCounts self.old.trace self.new.trace }
        ensures keeps { Keeps self.old self.new }
        ensures tells { Tells self.old → Tells self.new }
        ensures less { (shown : Shown) → RaceFits self.old shown → effort self.new shown ≤ effort self.old shown }
        ensures spends { (shown : Shown) → RaceFits self.old shown → IfOk result (λ g. GiveSpends g (effort self.old shown) (effort self.new shown)) }
        ensures reads { _steps.new ≡ _steps.old }
    {
        self.give_piece(sieved, judge)
    }
}
