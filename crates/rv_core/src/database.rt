//! The database: a catalog, a store, transactions and cursors, and what each statement does to them.
ghost use Rattle.std.specs.Prelude.{◌≡◌, ◌⊎◌, ◌<◌, ◌≤◌, ◌+◌, ◌-◌, ◌^◌, ℕ, [], true, Err, IfOk, IsSome, None, Some, OnErr, length};
ghost use Rattle.std.specs.Option.{option_copied};
ghost use Rattle.rv_catalog.specs.Fits.{IsNewIndex, IsNewTable, IsQueryOf, IsRowOf, is_over_table};
ghost use Rattle.rv_model.specs.Database.{empty};
ghost use Rattle.rv_model.specs.Standing.{HasRoom};
ghost use Rattle.rv_model.specs.Step.{began, changed, closed, committed, created, indexed, inserted, opened, rolled_back, rows_viewed};
ghost use Rattle.rv_model.specs.Transactions.{transaction_of};
ghost use Rattle.rv_core.specs.declared.settings.Settings.{Settings};
ghost use Rattle.rv_core.specs.Core.{horizon_of};
ghost use Rattle.rv_core.specs.Db.{open_named};
ghost use Rattle.rv_core.specs.Doing.{Does, Fetches, PartIs, Shows, StepsOn};
ghost use Rattle.rv_core.specs.Obeying.{AnyOf, FetchOf, FindsRows, MayAsk, MovesNamed, OpensPlan, SeesSame, StepsTold, TellsPlan, TurnOf, closed_in, ended_by, plans_of, under};
ghost use Rattle.rv_core.specs.Pieces.{GivesTo, KeepsSettled, TakesNext, TriesNext, next_waiting, numbered};
ghost use Rattle.rv_lang.specs.declared.reply.Refusal.{Refusal as TheRefusal};
ghost use Rattle.rv_lang.specs.declared.reply.Reply.TheVariants.{Opened, Refused, Touched};

use crate::cursors::{close_all, close_at, cursor_named, opening, plan_cursor, step_at, trace_at};
use crate::pieces::{give_at, next_waiting, numbered, take_at};
use crate::replies::{answered, limit, named_trace, no_cursor, refused, twice};
use crate::storing::{add_index, add_table, change_rows, commit_own, freeze, insert_row};
use rv_catalog::{Catalog, IndexDef, Select, TableDef};
use rv_cursor::{Open, fetch, fetch_step};
use rv_jscan::{Given, Sieved, Taken};
use rv_judge::{Judge, Steps, Uncounted};
use rv_lang::{Refusal, Reply, Rival, Which};
use rv_own::Views;
use rv_reader::{Reader, Store};
use rv_restrict::Restriction;
use rv_rivals::first_equal;
use rv_txn::{TxnFault, Txns, viewed_rows};
use rv_value::{Items, NoMemory, Record, Text, Value, Values};
use std::alloc::Global;
use std::marker::Model;

/// A catalog with the store that has its tables, the transactions and the cursors. Contracts see the one-thread
/// database for which they stand, the horizon of the store, and the open cursors with their plans.
#[derive(Drop)]
pub struct Database<S: Store + Reader<Ledger = Uncounted> + Drop> {
    alloc: Global,
    catalog: Catalog,
    store: S,
    txns: Txns,
    views: Views,
    cursors: Items<Open>,
    opened: u64,
}

impl<S: Store + Reader<Ledger = Uncounted> + Drop> Model for Database<S> {
    ghost use Rattle.rv_core.specs.Db.{IsWhole, Whole, whole_of};

    ghost Value = { Whole S };

    ghost view = { λ d. whole_of d.store (S.shown d.store) d.catalog d.txns d.cursors d.opened };

    ghost invariant = { λ d. IsWhole (S.shown d.store) d.catalog d.txns d.views d.cursors d.opened };
}

impl<S: Store + Reader<Ledger = Uncounted> + Drop> Database<S> {
    /// The database without a table, over a store that has none.
    pub fn new(alloc: Global, store: S) -> Database<S>
        requires tables { (S.shown store).tables ≡ 0 }
        requires newest { (S.shown store).newest ≡ 0 }
        ensures { result ≡ record { store = store; stand = record { db = empty; horizon = 0 }; opens = []; opened = 1 } }
    {
        let _last = store.last();
        Database {
            alloc,
            catalog: Catalog::new(alloc),
            store,
            txns: Txns::new(alloc),
            views: Views::new(alloc),
            cursors: Items::new(alloc),
            opened: 1,
        }
    }

    /// The catalog, to which names are looked up.
    pub fn catalog(&self) -> &Catalog
        ensures { result.now ≡ self.now.stand.db.schema }
    {
        &self.catalog
    }

    /// The active transactions, and the numbers that are given next.
    pub fn txns(&self) -> &Txns
        ensures { result.now ≡ self.now.stand.db.transactions }
    {
        &self.txns
    }

    /// The rows of a table in the view of the session's transaction; none where it has no transaction.
    pub fn rows(&self, session: u8, table: u32) -> Result<Vec<Record>, NoMemory>
        requires there { table < length self.now.stand.db.schema.tables }
        ensures { IfOk result (λ rows. rows.items ≡ rows_viewed self.now.stand.db (transaction_of self.now.stand.db.transactions.active session) table) }
    {
        match self.txns.own(session) {
            None => Ok(Vec::new(self.alloc)),
            Some(own) => {
                let mut steps = Steps::new(Uncounted);
                viewed_rows(self.alloc, own, &self.store, table, &mut steps)
            }
        }
    }

    /// How many cursors are open, those of all sessions together.
    pub fn open_cursors(&self) -> u32
        ensures opens { result ≡ length self.now.opens }
        ensures cursors { result ≡ length self.now.stand.db.cursors }
    {
        self.cursors.len() as u32
    }

    /// CREATE TABLE: refused while a transaction is active. Catalog and store get the table together, or neither.
    #[tactic(auto, using(crate::proofs::Keeping::sees_same))]
    pub fn create(&mut self, def: TableDef) -> Result<(Reply, Reply), NoMemory>
        requires { IsNewTable self.old.stand.db.schema def }
        ensures sees { SeesSame (S.shown self.old.store) (S.shown self.new.store) self.new.opens }
        ensures ok { IfOk result (λ replies. Does (created self.old.stand.db def) self.old.stand replies self.new.stand) }
        ensures err { OnErr result (self.new.stand ≡ self.old.stand) }
        ensures opened { self.new.opened ≡ self.old.opened }
        ensures opens { self.new.opens ≡ self.old.opens }
    {
        // What a store tells with its newest commit holds of all that is kept of views.
        let _last = self.store.last();
        if let Some(number) = self.txns.active() {
            drop(def);
            return refused(self.alloc, Refusal::Busy(number));
        }
        if self.catalog.tables().len() > 63 {
            drop(def);
            return refused(self.alloc, limit(Which::Tables, 64));
        }
        match add_table(&mut self.catalog, &mut self.store, def) {
            Ok(()) => {}
            Err(NoMemory) => return Err(NoMemory),
        }
        Ok((Reply::Created, Reply::Created))
    }

    /// CREATE INDEX: refused while a transaction is active. A unique one looks for equal rows first; catalog and store get
    /// the index together, or neither.
    #[tactic(auto, using(crate::proofs::Keeping::sees_same))]
    pub fn create_index(&mut self, def: IndexDef) -> Result<(Reply, Reply), NoMemory>
        requires new { IsNewIndex self.old.stand.db.schema def }
        requires some { 1 ≤ length def.columns }
        requires swept { self.old.stand.horizon ≡ horizon_of self.old.stand.db }
        ensures sees { SeesSame (S.shown self.old.store) (S.shown self.new.store) self.new.opens }
        ensures ok { IfOk result (λ replies. Does (indexed self.old.stand.db def) self.old.stand replies self.new.stand) }
        ensures err { OnErr result (self.new.stand ≡ self.old.stand) }
        ensures opened { self.new.opened ≡ self.old.opened }
        ensures opens { self.new.opens ≡ self.old.opens }
    {
        // What a store tells with its newest commit holds of all that is kept of views.
        let _last = self.store.last();
        if let Some(lowest) = self.txns.active() {
            drop(def);
            return refused(self.alloc, Refusal::Busy(lowest));
        }
        if self.catalog.count_indexes(def.table) > 7 {
            drop(def);
            return refused(self.alloc, limit(Which::Indexes, 8));
        }
        let equal = match first_equal(self.alloc, &self.store, &def) {
            Ok(equal) => equal,
            Err(NoMemory) => {
                drop(def);
                return Err(NoMemory);
            }
        };
        if let Some(row) = equal {
            drop(def);
            let by = Rival::View;
            return refused(self.alloc, Refusal::Duplicate { row, by });
        }
        match add_index(&mut self.catalog, &mut self.store, def) {
            Ok(()) => {}
            Err(NoMemory) => return Err(NoMemory),
        }
        Ok((Reply::Created, Reply::Created))
    }

    /// BEGIN: the transaction's base is the newest commit, and so it stays.
    #[tactic(auto, using(crate::proofs::Keeping::sees_same))]
    pub fn begin(&mut self, session: u8, read_only: bool) -> Result<(Reply, Reply), NoMemory>
        requires { HasRoom self.old.stand.db }
        ensures sees { SeesSame (S.shown self.old.store) (S.shown self.new.store) self.new.opens }
        ensures ok { IfOk result (λ replies. Does (began self.old.stand.db session read_only) self.old.stand replies self.new.stand) }
        ensures err { OnErr result (self.new.stand ≡ self.old.stand) }
        ensures opened { self.new.opened ≡ self.old.opened }
        ensures opens { self.new.opens ≡ self.old.opens }
    {
        let base = self.store.last();
        let number = match self.txns.begin(session, read_only, base) {
            Ok(number) => number,
            Err(TxnFault::Refused(refusal)) => return refused(self.alloc, refusal),
            Err(TxnFault::NoMemory) => return Err(NoMemory),
        };
        Ok((Reply::Began(number), Reply::Began(number)))
    }

    /// INSERT: the row's number is taken at once and never given again; the row itself goes to the transaction's changes,
    /// and its view.
    #[tactic(auto, using(crate::proofs::Keeping::sees_same))]
    pub fn insert(
        &mut self,
        session: u8,
        table: u32,
        values: Values,
    ) -> Result<(Reply, Reply), NoMemory>
        requires { IsRowOf self.old.stand.db.schema table values }
        ensures sees { SeesSame (S.shown self.old.store) (S.shown self.new.store) self.new.opens }
        ensures ok { IfOk result (λ replies. Does (inserted self.old.stand.db session table values) self.old.stand replies self.new.stand) }
        ensures err { OnErr result (self.new.stand ≡ self.old.stand) }
        ensures opened { self.new.opened ≡ self.old.opened }
        ensures opens { self.new.opens ≡ self.old.opens }
    {
        let row = match insert_row(
            self.alloc,
            &self.catalog,
            &self.store,
            &mut self.txns,
            &mut self.views,
            session,
            table,
            values,
        ) {
            Ok(row) => row,
            Err(TxnFault::Refused(refusal)) => return refused(self.alloc, refusal),
            Err(TxnFault::NoMemory) => return Err(NoMemory),
        };
        Ok((Reply::Inserted(row), Reply::Inserted(row)))
    }

    /// UPDATE, which sets columns, and DELETE, which sets none. The judge rules on the scans of the search for their rows.
    #[tactic(auto, using(crate::proofs::Keeping::sees_same))]
    pub fn change(
        &mut self,
        session: u8,
        table: u32,
        sets: Option<&[(u32, Value)]>,
        only: &Restriction,
        judge: &mut Box<dyn Judge>,
    ) -> Result<(Reply, Reply), NoMemory>
        requires there { table < length self.old.stand.db.schema.tables }
        requires over { is_over_table self.old.stand.db.schema.tables table only.now ≡ true }
        ensures sees { SeesSame (S.shown self.old.store) (S.shown self.new.store) self.new.opens }
        ensures ok { IfOk result (λ replies. Does (changed self.old.stand.db session table (option_copied sets.entry) only.now) self.old.stand replies self.new.stand) }
        ensures err { OnErr result (self.new.stand ≡ self.old.stand) }
        ensures opened { self.new.opened ≡ self.old.opened }
        ensures opens { self.new.opens ≡ self.old.opens }
        ensures rules { would judge.new ≡ would judge.old }
        ensures asks { (state judge.new ≡ state judge.old) ⊎ MayAsk (would judge.old) (state judge.old) (state judge.new) (S.shown self.old.store) self.old.stand.db.schema.indexes self.old.stand.db.transactions.active session table only.now }
        ensures found { IfOk result (λ replies. (count : ℕ) → replies.0 ≡ Touched count → FindsRows (would judge.old) (state judge.old) (state judge.new) (S.shown self.old.store) self.old.stand.db.schema.indexes self.old.stand.db.transactions.active session table only.now) }
    {
        let count = match change_rows(
            self.alloc,
            &self.catalog,
            &self.store,
            &mut self.txns,
            &mut self.views,
            session,
            table,
            sets,
            only,
            judge,
        ) {
            Ok(count) => count,
            Err(TxnFault::Refused(refusal)) => return refused(self.alloc, refusal),
            Err(TxnFault::NoMemory) => return Err(NoMemory),
        };
        Ok((Reply::Touched(count), Reply::Touched(count)))
    }

    /// COMMIT: what may fail comes first, so that with want of memory the transaction goes on as it was. Its cursors close.
    #[tactic(auto, using(crate::proofs::Keeping::sees_same))]
    pub fn commit(&mut self, session: u8) -> Result<(Reply, Reply), NoMemory>
        requires { HasRoom self.old.stand.db }
        ensures sees { SeesSame (S.shown self.old.store) (S.shown self.new.store) self.new.opens }
        ensures ok { IfOk result (λ replies. Does (committed self.old.stand.db session) self.old.stand replies self.new.stand) }
        ensures err { OnErr result (self.new.stand ≡ self.old.stand) }
        ensures opened { self.new.opened ≡ self.old.opened }
        ensures opens { IfOk result (λ replies. self.new.opens ≡ ended_by replies.0 session self.old.opens) }
        ensures lost { OnErr result (self.new.opens ≡ self.old.opens) }
    {
        // What a store tells with its newest commit holds of all that is kept of views.
        let _last = self.store.last();
        if let Err(refusal) = self.txns.finishes(session) {
            return refused(self.alloc, refusal);
        }
        let number = match commit_own(&mut self.store, &self.txns, &mut self.views, session) {
            Ok(number) => number,
            Err(NoMemory) => return Err(NoMemory),
        };
        self.txns.commit_done(session, number);
        close_all(&mut self.cursors, session);
        Ok((Reply::Committed(number), Reply::Committed(number)))
    }

    /// ROLLBACK: nothing was written into the store, so only changes, view and cursors go.
    #[tactic(auto, using(crate::proofs::Keeping::sees_same))]
    pub fn rollback(&mut self, session: u8) -> Result<(Reply, Reply), NoMemory>
        ensures sees { SeesSame (S.shown self.old.store) (S.shown self.new.store) self.new.opens }
        ensures ok { IfOk result (λ replies. Does (rolled_back self.old.stand.db session) self.old.stand replies self.new.stand) }
        ensures err { OnErr result (self.new.stand ≡ self.old.stand) }
        ensures opened { self.new.opened ≡ self.old.opened }
        ensures opens { IfOk result (λ replies. self.new.opens ≡ ended_by replies.0 session self.old.opens) }
        ensures lost { OnErr result (self.new.opens ≡ self.old.opens) }
    {
        if let Err(refusal) = self.txns.rollback(session) {
            return refused(self.alloc, refusal);
        }
        self.views.let_go(session);
        close_all(&mut self.cursors, session);
        Ok((Reply::RolledBack, Reply::RolledBack))
    }

    /// OPEN. Where a race is asked, two indexes race where the rules let a background alone scan each of two or more.
    #[tactic(auto, using(crate::proofs::Calling::opens_err, crate::proofs::Keeping::sees_same))]
    pub fn open(
        &mut self,
        session: u8,
        name: Text,
        select: &Select,
        race: bool,
    ) -> Result<(Reply, Reply), NoMemory>
        requires some { 1 ≤ length select.now.tables }
        requires query { IsQueryOf self.old.stand.db.schema select.now }
        requires numbers { self.old.opened < 2 ^ 64 - 1 }
        ensures sees { SeesSame (S.shown self.old.store) (S.shown self.new.store) self.new.opens }
        ensures ok { IfOk result (λ replies. Does (opened self.old.stand.db session name select.now) self.old.stand replies self.new.stand) }
        ensures err { OnErr result (self.new.stand ≡ self.old.stand) }
        ensures adds { (judge : ℕ) → IfOk result (λ replies. replies.0 ≡ Opened → OpensPlan race (S.shown self.old.store) select.now self.old.stand.db session name (plans_of self.old judge) (plans_of self.new judge)) }
        ensures refuses { (judge : ℕ) (refusal : TheRefusal) → IfOk result (λ replies. replies.0 ≡ Refused refusal → plans_of self.new judge ≡ plans_of self.old judge) }
        ensures lost { (judge : ℕ) → OnErr result (plans_of self.new judge ≡ plans_of self.old judge) }
        ensures opened { self.new.opened ≤ self.old.opened + 1 }
        ensures unopened { OnErr result (self.new.opened ≡ self.old.opened) }
    {
        let base = match opening(self.alloc, &self.txns, &self.cursors, session, &name) {
            Ok(base) => base,
            Err(TxnFault::Refused(refusal)) => {
                drop(name);
                return refused(self.alloc, refusal);
            }
            Err(TxnFault::NoMemory) => {
                drop(name);
                return Err(NoMemory);
            }
        };
        let frozen = match freeze(
            &self.catalog,
            &self.store,
            &self.txns,
            &mut self.views,
            session,
        ) {
            Ok(frozen) => frozen,
            Err(NoMemory) => {
                drop(name);
                return Err(NoMemory);
            }
        };
        let cursor = match plan_cursor(
            self.alloc,
            &self.store,
            &self.catalog,
            select,
            session,
            name,
            self.opened,
            base,
            race,
            frozen,
        ) {
            Ok(cursor) => cursor,
            Err(NoMemory) => return Err(NoMemory),
        };
        match self.cursors.push(cursor) {
            Ok(()) => {}
            Err(NoMemory) => return Err(NoMemory),
        }
        self.opened += 1;
        Ok((Reply::Opened, Reply::Opened))
    }

    /// FETCH. Each step of the cursor's plan is followed by up to `beside` background steps.
    #[tactic(auto, using(crate::proofs::Keeping::sees_same))]
    pub fn fetch(
        &mut self,
        session: u8,
        name: &Text,
        judge: &mut Box<dyn Judge>,
        beside: u8,
    ) -> Result<(Reply, Reply), NoMemory>
        ensures sees { SeesSame (S.shown self.old.store) (S.shown self.new.store) self.new.opens }
        ensures ok { IfOk result (λ replies. Fetches self.old.stand session name.now replies self.new.stand) }
        ensures err { OnErr result (self.new.stand ≡ self.old.stand) }
        ensures opened { self.new.opened ≡ self.old.opened }
        ensures moves { IfOk result (λ replies. MovesNamed (FetchOf beside (would judge.old)) (S.shown self.old.store) (open_named self.old.opens session name.now) (plans_of self.old (state judge.old)) (plans_of self.new (state judge.new))) }
        ensures refuses { (refusal : TheRefusal) → IfOk result (λ replies. replies.0 ≡ Refused refusal → plans_of self.new (state judge.new) ≡ plans_of self.old (state judge.old)) }
        ensures lost { OnErr result (MovesNamed (AnyOf (would judge.old)) (S.shown self.old.store) (open_named self.old.opens session name.now) (plans_of self.old (state judge.old)) (plans_of self.new (state judge.new))) }
        ensures rules { would judge.new ≡ would judge.old }
    {
        let Some(place) = cursor_named(&self.cursors, session, name) else {
            return no_cursor(self.alloc, name);
        };
        let mut steps = Steps::new(Uncounted);
        fetch(
            self.alloc,
            self.cursors.at_mut(place),
            &self.store,
            judge,
            beside,
            &mut steps,
        )
    }

    /// One turn's part of a FETCH: one step of the cursor's plan at most, with the background steps behind it.
    #[tactic(auto, using(crate::proofs::Keeping::sees_same))]
    pub fn fetch_step(
        &mut self,
        session: u8,
        name: &Text,
        judge: &mut Box<dyn Judge>,
        beside: u8,
    ) -> Result<Option<(Reply, Reply)>, NoMemory>
        ensures sees { SeesSame (S.shown self.old.store) (S.shown self.new.store) self.new.opens }
        ensures ok { IfOk result (PartIs (λ replies. Fetches self.old.stand session name.now replies self.new.stand) (self.new ≡ record self.old { opens = self.new.opens })) }
        ensures err { OnErr result (self.new.stand ≡ self.old.stand) }
        ensures opened { self.new.opened ≡ self.old.opened }
        ensures moves { IfOk result (PartIs (λ replies. MovesNamed (FetchOf beside (would judge.old)) (S.shown self.old.store) (open_named self.old.opens session name.now) (plans_of self.old (state judge.old)) (plans_of self.new (state judge.new))) (IsSome (open_named self.old.opens session name.now) × MovesNamed (TurnOf None beside (would judge.old)) (S.shown self.old.store) (open_named self.old.opens session name.now) (plans_of self.old (state judge.old)) (plans_of self.new (state judge.new)))) }
        ensures refuses { (refusal : TheRefusal) → IfOk result (PartIs (λ replies. replies.0 ≡ Refused refusal → plans_of self.new (state judge.new) ≡ plans_of self.old (state judge.old)) (Unit {0})) }
        ensures turn { IfOk result (PartIs (λ replies. MovesNamed (TurnOf (Some (replies.0, replies.0)) beside (would judge.old)) (S.shown self.old.store) (open_named self.old.opens session name.now) (plans_of self.old (state judge.old)) (plans_of self.new (state judge.new))) (Unit {0})) }
        ensures lost { OnErr result (MovesNamed (AnyOf (would judge.old)) (S.shown self.old.store) (open_named self.old.opens session name.now) (plans_of self.old (state judge.old)) (plans_of self.new (state judge.new))) }
        ensures rules { would judge.new ≡ would judge.old }
    {
        let Some(place) = cursor_named(&self.cursors, session, name) else {
            return answered(no_cursor(self.alloc, name));
        };
        let mut steps = Steps::new(Uncounted);
        fetch_step(
            self.alloc,
            self.cursors.at_mut(place),
            &self.store,
            judge,
            beside,
            &mut steps,
        )
    }

    /// STEP: so many background steps at most, and the reply counts them. There are fewer only where no piece is
    /// awaited.
    #[tactic(auto, using(crate::proofs::Keeping::sees_same))]
    pub fn step(
        &mut self,
        session: u8,
        name: Text,
        most: u64,
        judge: &mut Box<dyn Judge>,
    ) -> Result<(Reply, Reply), NoMemory>
        ensures sees { SeesSame (S.shown self.old.store) (S.shown self.new.store) self.new.opens }
        ensures ok { IfOk result (λ replies. StepsOn self.old.stand session name most replies self.new.stand) }
        ensures err { OnErr result (self.new.stand ≡ self.old.stand) }
        ensures opened { self.new.opened ≡ self.old.opened }
        ensures steps { (settings : Settings) → IfOk result (λ replies. StepsTold (under (S.shown self.old.store) (would judge.old) settings) most (open_named self.old.opens session name) replies.0 (plans_of self.old (state judge.old)) (plans_of self.new (state judge.new))) }
        ensures refuses { (refusal : TheRefusal) → IfOk result (λ replies. replies.0 ≡ Refused refusal → plans_of self.new (state judge.new) ≡ plans_of self.old (state judge.old)) }
        ensures lost { OnErr result (MovesNamed (AnyOf (would judge.old)) (S.shown self.old.store) (open_named self.old.opens session name) (plans_of self.old (state judge.old)) (plans_of self.new (state judge.new))) }
        ensures rules { would judge.new ≡ would judge.old }
    {
        let Some(place) = cursor_named(&self.cursors, session, &name) else {
            return refused(self.alloc, Refusal::NoCursor(name));
        };
        drop(name);
        let done = match step_at(&self.store, &mut self.cursors, place, judge, most) {
            Ok(done) => done,
            Err(NoMemory) => return Err(NoMemory),
        };
        Ok((Reply::Stepped(done), Reply::Stepped(done)))
    }

    /// SHOW: what the cursor's plan did so far, with indexes by their names. It changes nothing.
    pub fn show(&self, session: u8, name: Text) -> Result<(Reply, Reply), NoMemory>
        ensures ok { IfOk result (λ replies. Shows self.now.stand session name replies) }
        ensures told { IfOk result (λ replies. TellsPlan (open_named self.now.opens session name) self.now.stand.db.schema.indexes self.now.opens replies.0) }
    {
        let Some(place) = cursor_named(&self.cursors, session, &name) else {
            return refused(self.alloc, Refusal::NoCursor(name));
        };
        drop(name);
        let trace = trace_at(&self.cursors, place);
        let shown = named_trace(self.alloc, self.catalog.indexes(), &trace)?;
        twice(self.alloc, Reply::Trace(shown))
    }

    /// Takes the awaited piece of an open cursor: of those that await one, that with the lowest number above `after`, or
    /// with the lowest number where there is none above. `Nothing` where no open cursor awaits a piece.
    pub fn take_piece(
        &mut self,
        after: u64,
        steps: &mut Steps<Uncounted>,
    ) -> Result<Taken, NoMemory>
        ensures taken { IfOk result (λ t. TakesNext (S.shown self.old.store) (next_waiting after self.old.opens) steps.old steps.new self.old.opens self.new.opens t) }
        ensures tried { OnErr result (TriesNext (S.shown self.old.store) (next_waiting after self.old.opens) steps.old steps.new self.old.opens self.new.opens) }
        ensures same { self.new ≡ record self.old { opens = self.new.opens } }
    {
        let Some(place) = next_waiting(&self.cursors, after) else {
            return Ok(Taken::Nothing);
        };
        take_at(&self.store, &mut self.cursors, place, steps)
    }

    /// Gives a sieved piece to the open cursor from which it was taken. It is stale where that is closed.
    #[tactic(auto, using(crate::proofs::Shorts::keeps_itself))]
    pub fn give_piece<L: Drop>(
        &mut self,
        sieved: Sieved,
        judge: &mut Box<dyn Judge>,
        steps: &mut Steps<L>,
    ) -> Result<Given, NoMemory>
        ensures given { IfOk result (λ g. GivesTo (numbered sieved.id.cursor self.old.opens) (would judge.old) (state judge.old) (state judge.new) self.old.opens sieved g self.new.opens) }
        ensures settled { KeepsSettled self.old.opens self.new.opens }
        ensures same { self.new ≡ record self.old { opens = self.new.opens } }
        ensures err { OnErr result ((self.new.opens ≡ self.old.opens) × (state judge.new ≡ state judge.old)) }
        ensures rules { would judge.new ≡ would judge.old }
        ensures reads { steps.new ≡ steps.old }
    {
        let id = sieved.id();
        let Some(place) = numbered(&self.cursors, id.cursor) else {
            drop(sieved);
            return Ok(Given::Stale {
                asked: id,
                now: None,
            });
        };
        give_at(&mut self.cursors, place, sieved, judge, steps)
    }

    /// CLOSE: the cursor goes, and with it what its plan kept.
    #[tactic(auto, using(crate::proofs::Opens::removed_seen, crate::proofs::Keeping::sees_same))]
    pub fn close(&mut self, session: u8, name: Text) -> Result<(Reply, Reply), NoMemory>
        ensures sees { SeesSame (S.shown self.old.store) (S.shown self.new.store) self.new.opens }
        ensures ok { IfOk result (λ replies. Does (closed self.old.stand.db session name) self.old.stand replies self.new.stand) }
        ensures err { OnErr result (self.new.stand ≡ self.old.stand) }
        ensures opened { self.new.opened ≡ self.old.opened }
        ensures opens { IfOk result (λ replies. self.new.opens ≡ closed_in (open_named self.old.opens session name) self.old.opens) }
        ensures refuses { (refusal : TheRefusal) → IfOk result (λ replies. replies.0 ≡ Refused refusal → self.new.opens ≡ self.old.opens) }
        ensures lost { OnErr result (self.new.opens ≡ self.old.opens) }
    {
        let Some(place) = cursor_named(&self.cursors, session, &name) else {
            return refused(self.alloc, Refusal::NoCursor(name));
        };
        drop(name);
        close_at(&mut self.cursors, place);
        Ok((Reply::Closed, Reply::Closed))
    }

    /// Takes away what no transaction needs of the store, a part at a time. It takes no memory.
    pub fn sweep(&mut self)
        ensures same { self.new ≡ record self.old { store = self.new.store; stand = record self.old.stand { horizon = horizon_of self.old.stand.db } } }
        ensures sees { SeesSame (S.shown self.old.store) (S.shown self.new.store) self.new.opens }
    {
        let last = self.store.last();
        let horizon = self.txns.horizon(last);
        self.store.sweep(horizon);
    }
}
