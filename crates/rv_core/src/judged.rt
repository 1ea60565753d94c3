//! The core: an engine with the judge that rules on its scans.
ghost use Rattle.std.specs.Prelude.{◌≡◌, ◌+◌, ◌-◌, ◌<◌, ◌≤◌, ◌^◌, [], IfOk, OnErr, length};
ghost use Rattle.rv_model.specs.Database.{empty};
ghost use Rattle.rv_model.specs.History.{after};
ghost use Rattle.rv_core.specs.Core.{Answers, AnswersPart, IsSound, Unanswered, horizon_of};
ghost use Rattle.rv_core.specs.Obeying.{SeesSame, under};
ghost use Rattle.rv_core.specs.Pieces.{GivesTo, KeepsSettled, TakesNext, TriesNext, next_waiting, numbered};

use crate::engine::{Engine, PartOf};
use crate::settings::Settings;
use rv_jscan::{Given, Sieved, Taken};
use rv_judge::{Judge, Steps, Uncounted};
use rv_lang::Reply;
use rv_model::Entry;
use rv_reader::{Reader, Store};
use rv_value::{NoMemory, Text};
use std::alloc::Global;
use std::mem;

/// The database over a store with the history of its calls, the judge that rules on its background
/// scans, and what is set of the work of its cursors.
#[derive(Drop)]
pub struct Core<S: Store + Reader<Ledger = Uncounted> + Drop> {
    engine: Engine<S>,
    judge: Box<dyn Judge>,
    settings: Settings,
}

impl<S: Store + Reader<Ledger = Uncounted> + Drop> Core<S> {
    /// A core with no call made, in phase 1, over a store without tables and commits. Its cursors race where `race` asks it,
    /// and up to `steps` background steps follow each foreground step of a FETCH. It takes no memory.
    pub fn new(alloc: Global, store: S, judge: Box<dyn Judge>, race: bool, steps: u8) -> Core<S>
        requires tables { (S.shown store).tables ≡ 0 }
        requires newest { (S.shown store).newest ≡ 0 }
        ensures engine { result.engine ≡ record { history = []; phase = 1; store = store; db = empty; horizon = 0; opens = []; opened = 1 } }
        ensures judge { result.judge ≡ judge }
        ensures settings { result.settings ≡ record { steps = steps; race = race } }
    {
        Core {
            engine: Engine::new(alloc, store),
            judge,
            settings: Settings { steps, race },
        }
    }

    /// The entries of the calls that were answered, in order.
    pub fn history(&self) -> &[Entry]
        ensures entries { result.now ≡ self.now.engine.history }
        ensures sound { IsSound self.now.engine }
    {
        self.engine.history()
    }

    /// The phase that the entry of the next call gets: 1 in a new core, and one more after each `next_phase`.
    pub fn phase(&self) -> u32
        ensures { result ≡ self.now.engine.phase }
    {
        self.engine.phase()
    }

    /// How many cursors are open, those of all sessions together.
    pub fn open_cursors(&self) -> u32
        ensures opens { result ≡ length self.now.engine.opens }
        ensures cursors { result ≡ length (after self.now.engine.history).cursors }
    {
        self.engine.open_cursors()
    }

    /// Begins the next phase, whose number the entries of further calls get. Transactions and cursors go on.
    pub fn next_phase(&mut self)
        requires { self.old.engine.phase < 2 ^ 32 - 1 }
        ensures engine { self.new.engine ≡ record self.old.engine { phase = self.old.engine.phase + 1 } }
        ensures judge { self.new.judge ≡ self.old.judge }
        ensures settings { self.new.settings ≡ self.old.settings }
    {
        self.engine.next_phase();
    }

    /// Takes room for the entries of so many calls more at once, where it is found; else each call takes its own.
    pub fn make_room(&mut self, calls: usize)
        ensures engine { self.new.engine ≡ self.old.engine }
        ensures judge { self.new.judge ≡ self.old.judge }
        ensures settings { self.new.settings ≡ self.old.settings }
    {
        self.engine.make_room(calls);
    }

    /// Swaps the judge, and hands the one before back with its state.
    pub fn set_judge(&mut self, judge: Box<dyn Judge>) -> Box<dyn Judge>
        ensures before { result ≡ self.old.judge }
        ensures judge { self.new.judge ≡ judge }
        ensures engine { self.new.engine ≡ self.old.engine }
        ensures settings { self.new.settings ≡ self.old.settings }
    {
        mem::replace(&mut self.judge, judge)
    }

    /// Makes a session's call: the reply is given and written to the history with the text. On `NoMemory` nothing is changed
    /// but how far the plans of cursors have come, and where the judge stands.
    pub fn call(&mut self, session: u8, text: &str) -> Result<Reply, NoMemory>
        requires from { 1 ≤ session }
        requires to { session ≤ 8 }
        requires short { length text.now ≤ 4096 }
        ensures ok { IfOk result (λ reply. Answers (under (S.shown self.old.engine.store) (would self.old.judge) self.old.settings) (state self.old.judge) (state self.new.judge) self.old.engine self.new.engine session text.now reply) }
        ensures err { OnErr result (Unanswered (under (S.shown self.old.engine.store) (would self.old.judge) self.old.settings) (state self.old.judge) (state self.new.judge) self.old.engine self.new.engine session text.now) }
        ensures rules { would self.new.judge ≡ would self.old.judge }
        ensures sees { SeesSame (S.shown self.old.engine.store) (S.shown self.new.engine.store) self.new.engine.opens }
        ensures sound { IsSound self.new.engine }
        ensures settings { self.new.settings ≡ self.old.settings }
    {
        let copy = self.engine.copied(text)?;
        self.engine
            .call_text(session, copy, &mut self.judge, self.settings)
    }

    /// As `call`, of a text that goes into the history itself and not a copy of it. On `NoMemory` it is dropped.
    pub fn call_text(&mut self, session: u8, text: Text) -> Result<Reply, NoMemory>
        requires from { 1 ≤ session }
        requires to { session ≤ 8 }
        requires short { length text ≤ 4096 }
        ensures ok { IfOk result (λ reply. Answers (under (S.shown self.old.engine.store) (would self.old.judge) self.old.settings) (state self.old.judge) (state self.new.judge) self.old.engine self.new.engine session text reply) }
        ensures err { OnErr result (Unanswered (under (S.shown self.old.engine.store) (would self.old.judge) self.old.settings) (state self.old.judge) (state self.new.judge) self.old.engine self.new.engine session text) }
        ensures rules { would self.new.judge ≡ would self.old.judge }
        ensures sees { SeesSame (S.shown self.old.engine.store) (S.shown self.new.engine.store) self.new.engine.opens }
        ensures sound { IsSound self.new.engine }
        ensures settings { self.new.settings ≡ self.old.settings }
    {
        self.engine
            .call_text(session, text, &mut self.judge, self.settings)
    }

    /// One turn's part of a call: as `call`, but that a FETCH makes one foreground step at most, with the background steps
    /// behind it, and answers `Working` where that step only worked on.
    pub fn call_step(&mut self, session: u8, text: &str) -> Result<PartOf, NoMemory>
        requires from { 1 ≤ session }
        requires to { session ≤ 8 }
        requires short { length text.now ≤ 4096 }
        ensures ok { IfOk result (λ part. AnswersPart (under (S.shown self.old.engine.store) (would self.old.judge) self.old.settings) (state self.old.judge) (state self.new.judge) self.old.engine self.new.engine session text.now part) }
        ensures err { OnErr result (Unanswered (under (S.shown self.old.engine.store) (would self.old.judge) self.old.settings) (state self.old.judge) (state self.new.judge) self.old.engine self.new.engine session text.now) }
        ensures rules { would self.new.judge ≡ would self.old.judge }
        ensures sees { SeesSame (S.shown self.old.engine.store) (S.shown self.new.engine.store) self.new.engine.opens }
        ensures sound { IsSound self.new.engine }
        ensures settings { self.new.settings ≡ self.old.settings }
    {
        self.engine
            .call_step(session, text, &mut self.judge, self.settings)
    }

    /// Takes the awaited piece of an open cursor: of those that await one, that with the lowest number above `after`, or
    /// with the lowest number where there is none above. `Nothing` where no open cursor awaits a piece.
    pub fn take_piece(
        &mut self,
        after: u64,
        steps: &mut Steps<Uncounted>,
    ) -> Result<Taken, NoMemory>
        ensures taken { IfOk result (λ t. TakesNext (S.shown self.old.engine.store) (next_waiting after self.old.engine.opens) steps.old steps.new self.old.engine.opens self.new.engine.opens t) }
        ensures tried { OnErr result (TriesNext (S.shown self.old.engine.store) (next_waiting after self.old.engine.opens) steps.old steps.new self.old.engine.opens self.new.engine.opens) }
        ensures same { self.new.engine ≡ record self.old.engine { opens = self.new.engine.opens } }
        ensures judge { self.new.judge ≡ self.old.judge }
        ensures settings { self.new.settings ≡ self.old.settings }
    {
        self.engine.take_piece(after, steps)
    }

    /// Gives a sieved piece to the open cursor from which it was taken, on which the judge then rules. It is stale where
    /// that is closed.
    pub fn give_piece<L: Drop>(
        &mut self,
        sieved: Sieved,
        steps: &mut Steps<L>,
    ) -> Result<Given, NoMemory>
        ensures given { IfOk result (λ g. GivesTo (numbered sieved.id.cursor self.old.engine.opens) (would self.old.judge) (state self.old.judge) (state self.new.judge) self.old.engine.opens sieved g self.new.engine.opens) }
        ensures settled { KeepsSettled self.old.engine.opens self.new.engine.opens }
        ensures same { self.new.engine ≡ record self.old.engine { opens = self.new.engine.opens } }
        ensures err { OnErr result ((self.new.engine.opens ≡ self.old.engine.opens) × (state self.new.judge ≡ state self.old.judge)) }
        ensures rules { would self.new.judge ≡ would self.old.judge }
        ensures reads { steps.new ≡ steps.old }
        ensures settings { self.new.settings ≡ self.old.settings }
    {
        self.engine.give_piece(sieved, &mut self.judge, steps)
    }

    /// Takes away what no transaction needs of the store, a part at a time, as each answered call does too.
    pub fn sweep_step(&mut self)
        ensures engine { self.new.engine ≡ record self.old.engine { store = self.new.engine.store; horizon = horizon_of self.old.engine.db } }
        ensures sees { SeesSame (S.shown self.old.engine.store) (S.shown self.new.engine.store) self.new.engine.opens }
        ensures judge { self.new.judge ≡ self.old.judge }
        ensures settings { self.new.settings ≡ self.old.settings }
    {
        self.engine.sweep_step();
    }
}
