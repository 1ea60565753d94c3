//! The engine: the calls of the sessions one after another over a store, and the history of them.
ghost use Rattle.std.specs.Prelude.{◌≡◌, ◌+◌, ◌-◌, ◌<◌, ◌≤◌, ◌^◌, [], IfOk, OnErr, length};
ghost use Rattle.rv_model.specs.Database.{empty};
ghost use Rattle.rv_model.specs.History.{after};
ghost use Rattle.rv_core.specs.Core.{Answers, AnswersPart, IsSound, Unanswered, horizon_of};
ghost use Rattle.rv_core.specs.Obeying.{SeesSame, under};
ghost use Rattle.rv_core.specs.Pieces.{GivesTo, KeepsSettled, TakesNext, TriesNext, next_waiting, numbered};

use crate::database::Database;
use crate::settings::Settings;
use crate::statements::{answer, answer_step};
use rv_jscan::{Given, Sieved, Taken};
use rv_judge::{Judge, Steps, Uncounted};
use rv_lang::Reply;
use rv_model::Entry;
use rv_parse::Readings;
use rv_reader::{Reader, Store};
use rv_value::{NoMemory, Text};
use std::alloc::Global;
use std::marker::Model;

/// What one turn's part of a call came to.
#[derive(Drop)]
pub enum PartOf {
    /// The call was answered, and stands in the history.
    Answered(Reply),
    /// The call is a FETCH whose cursor has worked on, and has no row yet.
    Working,
}

/// The database over a store, with the history of its calls. Contracts see the history, the phase,
/// the one-thread database for which it stands, the horizon of the store and the open cursors; the
/// history is legal, and the database is the one after it.
#[derive(Drop)]
pub struct Engine<S: Store + Reader<Ledger = Uncounted> + Drop> {
    alloc: Global,
    database: Database<S>,
    readings: Readings,
    phase: u32,
    history: Vec<Entry>,
}

impl<S: Store + Reader<Ledger = Uncounted> + Drop> Model for Engine<S> {
    ghost use Rattle.rv_core.specs.Core.{Shown, IsSound, shown_of};

    ghost Value = { Shown S };

    ghost view = { λ e. shown_of e.history.items e.phase e.database };

    ghost invariant = { λ e. IsSound (shown_of e.history.items e.phase e.database) };
}

impl<S: Store + Reader<Ledger = Uncounted> + Drop> Engine<S> {
    /// An engine with no call made, in phase 1, over a store without tables and commits. It takes no memory.
    pub(crate) fn new(alloc: Global, store: S) -> Engine<S>
        requires tables { (S.shown store).tables ≡ 0 }
        requires newest { (S.shown store).newest ≡ 0 }
        ensures { result ≡ record { history = []; phase = 1; store = store; db = empty; horizon = 0; opens = []; opened = 1 } }
    {
        Engine {
            alloc,
            database: Database::new(alloc, store),
            readings: Readings::new(alloc),
            phase: 1,
            history: Vec::new(alloc),
        }
    }

    /// The entries of the calls that were answered, in order.
    pub fn history(&self) -> &[Entry]
        ensures entries { result.now ≡ self.now.history }
        ensures sound { IsSound self.now }
    {
        self.history.as_slice()
    }

    /// The phase that the entry of the next call gets: 1 in a new core, and one more after each `next_phase`.
    pub fn phase(&self) -> u32
        ensures { result ≡ self.now.phase }
    {
        self.phase
    }

    /// How many cursors are open, those of all sessions together.
    pub fn open_cursors(&self) -> u32
        ensures opens { result ≡ length self.now.opens }
        ensures cursors { result ≡ length (after self.now.history).cursors }
    {
        self.database.open_cursors()
    }

    /// Begins the next phase, whose number the entries of further calls get. Transactions and cursors go on.
    pub fn next_phase(&mut self)
        requires { self.old.phase < 2 ^ 32 - 1 }
        ensures { self.new ≡ record self.old { phase = self.old.phase + 1 } }
    {
        self.phase += 1;
    }

    /// Takes room for the entries of so many calls more at once, where it is found; else each call takes its own.
    pub fn make_room(&mut self, calls: usize)
        ensures { self.new ≡ self.old }
    {
        let _found = self.history.reserve(calls);
    }

    /// A copy of a text, as a call keeps it in the history.
    pub(crate) fn copied(&self, text: &str) -> Result<Text, NoMemory>
        ensures copy { IfOk result (λ copy. copy ≡ text.now) }
        ensures sound { IsSound self.now }
    {
        Text::read(self.alloc, text)
    }

    /// Makes a session's call under a judge, with so many background steps and such races as are set: the reply is given
    /// and written to the history with the text. On `NoMemory` the text is dropped, and nothing is changed but how far the
    /// plans of cursors have come.
    #[tactic(auto, using(crate::proofs::Keeping::sees_same))]
    pub(crate) fn call_text(
        &mut self,
        session: u8,
        text: Text,
        judge: &mut Box<dyn Judge>,
        settings: Settings,
    ) -> Result<Reply, NoMemory>
        requires from { 1 ≤ session }
        requires to { session ≤ 8 }
        requires short { length text ≤ 4096 }
        ensures ok { IfOk result (λ reply. Answers (under (S.shown self.old.store) (would judge.old) settings) (state judge.old) (state judge.new) self.old self.new session text reply) }
        ensures err { OnErr result (Unanswered (under (S.shown self.old.store) (would judge.old) settings) (state judge.old) (state judge.new) self.old self.new session text) }
        ensures rules { would judge.new ≡ would judge.old }
        ensures sees { SeesSame (S.shown self.old.store) (S.shown self.new.store) self.new.opens }
        ensures sound { IsSound self.new }
    {
        self.history.reserve(1)?;
        let (reply, kept) = answer(
            self.alloc,
            &mut self.database,
            &mut self.readings,
            session,
            text.as_str(),
            judge,
            settings,
        )?;
        self.database.sweep();
        self.history
            .push(Entry {
                session,
                phase: self.phase,
                text,
                reply: kept,
            })
            .unwrap();
        Ok(reply)
    }

    /// One turn's part of a call: as `call_text`, but that a FETCH makes one foreground step at most, with the background
    /// steps behind it, and answers `Working` where that step only worked on.
    #[tactic(auto, using(crate::proofs::Keeping::sees_same))]
    pub(crate) fn call_step(
        &mut self,
        session: u8,
        text: &str,
        judge: &mut Box<dyn Judge>,
        settings: Settings,
    ) -> Result<PartOf, NoMemory>
        requires from { 1 ≤ session }
        requires to { session ≤ 8 }
        requires short { length text.now ≤ 4096 }
        ensures ok { IfOk result (λ part. AnswersPart (under (S.shown self.old.store) (would judge.old) settings) (state judge.old) (state judge.new) self.old self.new session text.now part) }
        ensures err { OnErr result (Unanswered (under (S.shown self.old.store) (would judge.old) settings) (state judge.old) (state judge.new) self.old self.new session text.now) }
        ensures rules { would judge.new ≡ would judge.old }
        ensures sees { SeesSame (S.shown self.old.store) (S.shown self.new.store) self.new.opens }
        ensures sound { IsSound self.new }
    {
        let copy = Text::read(self.alloc, text)?;
        self.history.reserve(1)?;
        let (reply, kept) = match answer_step(
            self.alloc,
            &mut self.database,
            &mut self.readings,
            session,
            text,
            judge,
            settings,
        ) {
            Ok(Some(replies)) => replies,
            Ok(None) => return Ok(PartOf::Working),
            Err(NoMemory) => return Err(NoMemory),
        };
        self.database.sweep();
        self.history
            .push(Entry {
                session,
                phase: self.phase,
                text: copy,
                reply: kept,
            })
            .unwrap();
        Ok(PartOf::Answered(reply))
    }

    /// Takes the awaited piece of an open cursor: of those that await one, that with the lowest number above `after`, or
    /// with the lowest number where there is none above. `Nothing` where no open cursor awaits a piece.
    pub fn take_piece(
        &mut self,
        after: u64,
        steps: &mut Steps<Uncounted>,
    ) -> Result<Taken, NoMemory>
        ensures taken { IfOk result (λ t. TakesNext (S.shown self.old.store) (next_waiting after self.old.opens) steps.old steps.new self.old.opens self.new.opens t) }
        ensures tried { OnErr result (TriesNext (S.shown self.old.store) (next_waiting after self.old.opens) steps.old steps.new self.old.opens self.new.opens) }
        ensures same { self.new ≡ record self.old { opens = self.new.opens } }
    {
        self.database.take_piece(after, steps)
    }

    /// Gives a sieved piece to the open cursor from which it was taken, on which the judge then rules. It is stale where
    /// that is closed.
    pub(crate) fn give_piece<L: Drop>(
        &mut self,
        sieved: Sieved,
        judge: &mut Box<dyn Judge>,
        steps: &mut Steps<L>,
    ) -> Result<Given, NoMemory>
        ensures given { IfOk result (λ g. GivesTo (numbered sieved.id.cursor self.old.opens) (would judge.old) (state judge.old) (state judge.new) self.old.opens sieved g self.new.opens) }
        ensures settled { KeepsSettled self.old.opens self.new.opens }
        ensures same { self.new ≡ record self.old { opens = self.new.opens } }
        ensures err { OnErr result ((self.new.opens ≡ self.old.opens) × (state judge.new ≡ state judge.old)) }
        ensures rules { would judge.new ≡ would judge.old }
        ensures reads { steps.new ≡ steps.old }
    {
        self.database.give_piece(sieved, judge, steps)
    }

    /// Takes away what no transaction needs of the store, a part at a time, as each answered call does too.
    pub fn sweep_step(&mut self)
        ensures same { self.new ≡ record self.old { store = self.new.store; horizon = horizon_of self.old.db } }
        ensures sees { SeesSame (S.shown self.old.store) (S.shown self.new.store) self.new.opens }
    {
        self.database.sweep();
    }
}
