ghost use Rattle.std.specs.Prelude.{◌≡◌, ◌+◌, ◌<◌, ◌≤◌, ◌^◌, ◌↔◌, [], None, false, true, length, IfOk, IsTrue, OnErr, OnOk};
ghost use Rattle.rv_judge.specs.Tracing.{SameCounts};
ghost use Rattle.rv_reader.specs.Shown.{Shown};
ghost use Rattle.rv_jscan.specs.Steps.{held_next};
ghost use Rattle.rv_final.specs.LaneWork.{GiveSpends};
ghost use Rattle.rv_union.specs.Effort.{effort};
ghost use Rattle.rv_union.specs.Leaves.{leaves_left};
ghost use Rattle.rv_union.specs.Given.{Answers, Awaits};
ghost use Rattle.rv_union.specs.Rulings.{Completes, GivesOn, IsRuled, Obeys, accepted, dropped, facts_of, going_on, has_next, listed, over, ruled, told_scan};
ghost use Rattle.rv_union.specs.Runs.{Tells};
ghost use Rattle.rv_union.specs.Unioned.{Keeps, SameUnion, UnionFits};

use crate::uniting::Union;
use rv_jscan::{Given, Sieved};
use rv_judge::{Event, Happening, Judge, Steps, Verdict};
use rv_keylist::KeyList;
use rv_value::NoMemory;

/// A piece that is given back, what becomes of its member, and what the judge is asked.
impl Union {
    /// Tells the scan of the present member's index, where it is the first one of it.
    fn tell_scan(&mut self)
        ensures { self.new ≡ told_scan self.old }
    {
        if !self.is_begun() {
            let index = self.index();
            self.note(Event::Scan(index));
        }
    }

    /// The next member begins.
    fn go_on(&mut self)
        requires { has_next self.old ≡ true }
        ensures { self.new ≡ going_on self.old }
    {
        self.next_member();
        self.tell_scan();
    }

    /// All members were scanned: the list is fetched.
    fn list(&mut self)
        ensures { self.new ≡ listed self.old }
    {
        let index = self.index();
        let keys = self.keys_len();
        self.note(Event::List(index, keys));
        self.go(Happening::ScanEnded {
            more: false,
            listed: true,
        });
    }

    /// The present member is over: the next one begins, or the list is fetched.
    fn end(&mut self)
        ensures { self.new ≡ over self.old }
    {
        if self.has_next() {
            self.go_on();
        } else {
            self.list();
        }
    }

    /// The present member completed.
    fn member_ended(&mut self, room: KeyList)
        requires empty { room.keys ≡ [] }
        requires open { room.finished ≡ false }
        requires enough { length self.old.keys + length self.old.lane.building ≤ room.spare }
        requires small { length self.old.keys + length self.old.lane.building < 2 ^ 32 }
        ensures { Completes self.old self.new }
    {
        self.join_built(room);
        self.end();
    }

    /// The union is dropped: the table is read.
    fn drop_union(&mut self, verdict: Verdict)
        ensures { self.new ≡ dropped verdict self.old }
    {
        self.forget();
        let index = self.index();
        self.note(Event::Drop(index));
        self.go(Happening::Ruled {
            verdict,
            more: false,
            listed: false,
        });
    }

    /// Obeys a verdict.
    fn obey(&mut self, verdict: Verdict)
        ensures { self.new ≡ ruled verdict self.old }
    {
        match verdict {
            Verdict::Continue | Verdict::AbandonForeground => {}
            Verdict::AbandonScan => self.drop_union(Verdict::AbandonScan),
            Verdict::AbandonBackground => self.drop_union(Verdict::AbandonBackground),
        }
    }

    /// Asks the judge about the present member, and obeys.
    fn ask(&mut self, judge: &mut Box<dyn Judge>)
        ensures ruled { IsRuled (would judge.old (state judge.old) (facts_of self.old)) (state judge.new) self.old self.new }
        ensures stays { would judge.new ≡ would judge.old }
    {
        let facts = self.facts();
        let verdict = judge.rule(&facts);
        self.obey(verdict);
    }

    /// Whether the piece is the awaited one, once taken.
    fn awaits(&self, sieved: &Sieved) -> bool
        ensures { IsTrue result ↔ Awaits self.now sieved.now }
    {
        if !self.is_scanning() {
            return false;
        }
        self.is_own(self.next_id(), sieved)
    }

    /// Takes the awaited piece up.
    fn accept(&mut self, sieved: &Sieved, last: bool) -> Result<(), NoMemory>
        requires { Awaits self.old sieved.now }
        ensures ok { OnOk result (self.new ≡ accepted sieved.now last self.old) }
        ensures err { OnErr result (self.new ≡ self.old) }
    {
        let before = self.built();
        self.add_kept(sieved)?;
        let kept = self.built() - before;
        self.count_piece(sieved.entries().len() as u64, kept, last);
        Ok(())
    }

    /// Takes up the awaited piece, which is the last one of its member. Room for all keys is made first.
    fn accept_last(&mut self, sieved: &Sieved) -> Result<(), NoMemory>
        requires { Awaits self.old sieved.now }
        ensures ok { OnOk result (Completes (accepted sieved.now true self.old) self.new) }
        ensures err { OnErr result (self.new ≡ self.old) }
    {
        let room = self.room(sieved.entries().len() as u64)?;
        self.accept(sieved, true)?;
        self.member_ended(room);
        Ok(())
    }

    /// Takes the awaited piece up; where it is the last one its member completed.
    fn accept_as(&mut self, sieved: &Sieved, last: bool) -> Result<(), NoMemory>
        requires { Awaits self.old sieved.now }
        ensures last { last ≡ true → OnOk result (Completes (accepted sieved.now true self.old) self.new) }
        ensures more { last ≡ false → OnOk result (self.new ≡ accepted sieved.now false self.old) }
        ensures err { OnErr result (self.new ≡ self.old) }
    {
        if last {
            self.accept_last(sieved)
        } else {
            self.accept(sieved, false)
        }
    }

    /// Asks the judge about the present member, unless its last piece was taken up.
    fn ask_unless(&mut self, last: bool, judge: &mut Box<dyn Judge>)
        ensures last { last ≡ true → self.new ≡ self.old }
        ensures quiet { last ≡ true → state judge.new ≡ state judge.old }
        ensures ruled { last ≡ false → IsRuled (would judge.old (state judge.old) (facts_of self.old)) (state judge.new) self.old self.new }
        ensures stays { would judge.new ≡ would judge.old }
    {
        if !last {
            self.ask(judge);
        }
    }

    /// Takes up the awaited piece. Where it is the last one its member completed, else the judge is asked.
    fn take_up(&mut self, sieved: &Sieved, judge: &mut Box<dyn Judge>) -> Result<(), NoMemory>
        requires { Awaits self.old sieved.now }
        ensures obeys { OnOk result (Obeys (would judge.old) (state judge.old) (state judge.new) sieved.now (held_next self.old.lane.held) self.old self.new) }
        ensures err { OnErr result (self.new ≡ self.old) }
        ensures quiet { OnErr result (state judge.new ≡ state judge.old) }
        ensures stays { would judge.new ≡ would judge.old }
    {
        let last = self.is_last();
        self.accept_as(sieved, last)?;
        self.ask_unless(last, judge);
        Ok(())
    }

    /// Takes a sieved piece back: `Stale`, and nothing changes, where it is not the awaited one; else the judge is asked
    /// and obeyed, but for a member's last piece.
    pub(crate) fn give_piece(
        &mut self,
        sieved: Sieved,
        judge: &mut Box<dyn Judge>,
    ) -> Result<Given, NoMemory>
        ensures given { IfOk result (λ g. Answers self.old sieved g self.new) }
        ensures obeys { IfOk result (λ g. GivesOn (would judge.old) (state judge.old) (state judge.new) sieved g self.old self.new) }
        ensures err { OnErr result (self.new ≡ self.old) }
        ensures quiet { OnErr result (state judge.new ≡ state judge.old) }
        ensures stays { would judge.new ≡ would judge.old }
    {
        if !self.awaits(&sieved) {
            let asked = sieved.id();
            drop(sieved);
            return Ok(Given::Stale {
                asked,
                now: self.awaited(),
            });
        }
        let taken = self.take_up(&sieved, judge);
        drop(sieved);
        taken?;
        Ok(Given::Accepted)
    }

    /// Takes a sieved piece back. Where it is the awaited one its rows are put together with those found before, and where
    /// it is not the last of its member the judge is asked, and its verdict is obeyed. It reads nothing.
    pub fn give<L: Drop>(
        &mut self,
        sieved: Sieved,
        judge: &mut Box<dyn Judge>,
        _steps: &mut Steps<L>,
    ) -> Result<Given, NoMemory>
        ensures given { IfOk result (λ g. Answers self.old sieved g self.new) }
        ensures obeys { IfOk result (λ g. GivesOn (would judge.old) (state judge.old) (state judge.new) sieved g self.old self.new) }
        ensures err { OnErr result (self.new ≡ self.old) }
        ensures quiet { OnErr result (state judge.new ≡ state judge.old) }
        ensures stays { would judge.new ≡ would judge.old }
        ensures same { SameUnion self.old self.new }
        ensures counts { SameCounts self.old.trace self.new.trace }
        ensures keeps { Keeps self.old self.new }
        ensures tells { Tells self.old → Tells self.new }
        ensures less { (shown : Shown) → UnionFits self.old shown → effort self.new shown ≤ effort self.old shown }
        ensures spends { (shown : Shown) → UnionFits self.old shown → IfOk result (λ g. GiveSpends g (effort self.old shown) (effort self.new shown)) }
        ensures nearer { (shown : Shown) → leaves_left self.new shown ≤ leaves_left self.old shown }
        ensures reads { _steps.new ≡ _steps.old }
    {
        self.give_piece(sieved, judge)
    }
}
