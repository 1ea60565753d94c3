//! The one-thread database over a paged store, and what each statement does to it.
ghost use Rattle.std.specs.Prelude.{◌≡◌, ◌≤◌, ◌<◌, ◌↔◌, Ok, IfOk, IfSome, IsTrue, length, true};
ghost use Rattle.std.specs.Option.{option_copied};
ghost use Rattle.rv_parse.specs.Needed.{HasParts};
ghost use Rattle.rv_parse.specs.Reading.{statement_of};
ghost use Rattle.rv_lang.specs.declared.reply.Reply.TheVariants.{Refused};
ghost use Rattle.rv_catalog.specs.Fits.{FitsSchema, IsNewIndex, IsNewTable, IsQueryOf, IsRowOf, is_over_table};
ghost use Rattle.rv_core.specs.Doing.{IsWhole};
ghost use Rattle.rv_decide.specs.Naming.{AreNamedApart};
ghost use Rattle.rv_model.specs.Database.{cursor_named, empty};
ghost use Rattle.rv_model.specs.Standing.{HasRoom};
ghost use Rattle.rv_model.specs.Step.{began, changed, closed, committed, created, indexed, inserted, opened, rolled_back};
ghost use Rattle.rv_replay.specs.Judging.{Compares, Done, JudgesAsked, JudgesFetch, JudgesShow, JudgesStatement, JudgesStep, is_refused, kept_after};

use crate::cursors::{OpenCursor, close_all, cursor_named, fetch_at, may_open, table_at};
use crate::opening::{first_table, offers_of};
use crate::queues::queue_of;
use crate::same::{same_refusal, same_reply};
use crate::telling::{may_step, may_tell};
use rv_catalog::{BindFault, Catalog, IndexDef, Resolved, Select, TableDef};
use rv_core::database::Database;
use rv_core::statements::understand;
use rv_judge::{Judge, Patient};
use rv_lang::{Refusal, Reply, Statement};
use rv_parse::read_statement;
use rv_restrict::Restriction;
use rv_store::Paged;
use rv_txn::TxnFault;
use rv_value::{Items, NoMemory, Text, Value, Values};
use std::alloc::Global;
use std::marker::Model;

/// The one-thread database: tables and transactions over a paged store, whose commits cost what they change, and for
/// each open cursor the offers that it has left.
#[derive(Drop)]
pub struct PlainDatabase {
    alloc: Global,
    database: Database<Paged>,
    cursors: Items<OpenCursor>,
}

impl Model for PlainDatabase {
    ghost use Rattle.rv_model.specs.declared.state.State.{State};
    ghost use Rattle.rv_replay.specs.Judging.{with_cursors};

    ghost Value = { State };

    ghost view = { λ p. with_cursors p.database.stand.db p.cursors };
}

impl PlainDatabase {
    /// The database before the first call. Its store takes memory.
    pub fn new(alloc: Global) -> Result<PlainDatabase, NoMemory>
        ensures { IfOk result (λ p. p ≡ empty) }
    {
        let store = Paged::new(alloc)?;
        Ok(PlainDatabase {
            alloc,
            database: Database::new(alloc, store),
            cursors: Items::new(alloc),
        })
    }

    /// The catalog, to which names are looked up.
    fn catalog(&self) -> &Catalog
        ensures { result.now ≡ self.now.schema }
    {
        self.database.catalog()
    }

    /// Lets go of the versions that no transaction needs. No later answer changes by it.
    pub fn sweep(&mut self)
        ensures { self.new ≡ self.old }
    {
        self.database.sweep();
    }

    /// CREATE TABLE.
    fn create(&mut self, def: TableDef) -> Result<Reply, NoMemory>
        requires { IsNewTable self.old.schema def }
        ensures { IfOk result (λ reply. Done (created self.old def) self.old reply self.new) }
    {
        let replies = self.database.create(def)?;
        Ok(first(replies))
    }

    /// CREATE INDEX, by the database of rv_core; nothing is kept here of indexes.
    fn create_index(&mut self, def: IndexDef) -> Result<Reply, NoMemory>
        requires new { IsNewIndex self.old.schema def }
        requires some { 1 ≤ length def.columns }
        ensures { IfOk result (λ reply. Done (indexed self.old def) self.old reply self.new) }
    {
        self.database.sweep();
        let replies = self.database.create_index(def)?;
        Ok(first(replies))
    }

    /// BEGIN, by the database of rv_core.
    fn begin(&mut self, session: u8, read_only: bool) -> Result<Reply, NoMemory>
        requires { HasRoom self.old }
        ensures { IfOk result (λ reply. Done (began self.old session read_only) self.old reply self.new) }
    {
        let replies = self.database.begin(session, read_only)?;
        Ok(first(replies))
    }

    /// INSERT, by the database of rv_core.
    fn insert(&mut self, session: u8, table: u32, values: Values) -> Result<Reply, NoMemory>
        requires { IsRowOf self.old.schema table values }
        ensures { IfOk result (λ reply. Done (inserted self.old session table values) self.old reply self.new) }
    {
        let replies = self.database.insert(session, table, values)?;
        Ok(first(replies))
    }

    /// UPDATE, which sets columns, and DELETE, which sets none.
    fn change(
        &mut self,
        session: u8,
        table: u32,
        sets: Option<&[(u32, Value)]>,
        only: &Restriction,
    ) -> Result<Reply, NoMemory>
        requires there { table < length self.old.schema.tables }
        requires over { is_over_table self.old.schema.tables table only.now ≡ true }
        ensures { IfOk result (λ reply. Done (changed self.old session table (option_copied sets.entry) only.now) self.old reply self.new) }
    {
        let mut judge: Box<dyn Judge> = Box::new(self.alloc, Patient::new())?;
        let replies = self
            .database
            .change(session, table, sets, only, &mut judge)?;
        Ok(first(replies))
    }

    /// COMMIT, by the database of rv_core; where it ended the transaction, the cursors kept here close.
    fn commit(&mut self, session: u8) -> Result<Reply, NoMemory>
        requires { HasRoom self.old }
        ensures { IfOk result (λ reply. Done (committed self.old session) self.old reply self.new) }
    {
        let replies = self.database.commit(session)?;
        let reply = first(replies);
        close_after(&mut self.cursors, session, &reply);
        Ok(reply)
    }

    /// ROLLBACK, by the database of rv_core; where it ended the transaction, the cursors kept here close.
    fn rollback(&mut self, session: u8) -> Result<Reply, NoMemory>
        ensures { IfOk result (λ reply. Done (rolled_back self.old session) self.old reply self.new) }
    {
        let replies = self.database.rollback(session)?;
        let reply = first(replies);
        close_after(&mut self.cursors, session, &reply);
        Ok(reply)
    }

    /// OPEN the slow way: all offers are found by nested loops over lists and kept as a queue.
    fn open(&mut self, session: u8, name: Text, select: &Select) -> Result<Reply, NoMemory>
        requires { IsQueryOf self.old.schema select.now }
        ensures { IfOk result (λ reply. Done (opened self.old session name select.now) self.old reply self.new) }
    {
        match may_open(
            self.alloc,
            self.database.txns(),
            &self.cursors,
            session,
            &name,
        ) {
            Ok(_base) => {}
            Err(TxnFault::Refused(refusal)) => return Reply::refused(self.alloc, refusal),
            Err(TxnFault::NoMemory) => return Err(NoMemory),
        }
        let offers = offers_of(self.alloc, &self.database, session, select)?;
        let offers = queue_of(self.alloc, offers)?;
        let cursor = OpenCursor::new(session, name, first_table(select), offers);
        self.cursors.push(cursor)?;
        Ok(Reply::Opened)
    }

    /// FETCH: whether the cursor may give a reply. Where it may, what the reply gives is taken out.
    fn fetch(&mut self, session: u8, name: Text, given: &Reply) -> bool
        ensures { JudgesFetch result (cursor_named self.old.cursors session name) self.old name given.now self.new }
    {
        match cursor_named(&self.cursors, session, &name) {
            Some(place) => {
                drop(name);
                fetch_at(&mut self.cursors, place, given)
            }
            None => refuses(Refusal::NoCursor(name), given),
        }
    }

    /// STEP: whether so many background steps may have been done.
    fn step(&self, session: u8, name: Text, most: u64, given: &Reply) -> bool
        ensures { JudgesStep result (cursor_named self.now.cursors session name) self.now name most given.now }
    {
        match cursor_named(&self.cursors, session, &name) {
            Some(_place) => {
                drop(name);
                may_step(most, given)
            }
            None => refuses(Refusal::NoCursor(name), given),
        }
    }

    /// SHOW: whether the cursor may show this.
    fn show(&self, session: u8, name: Text, given: &Reply) -> Result<bool, NoMemory>
        requires { AreNamedApart self.now.schema.indexes }
        ensures { IfOk result (λ allowed. JudgesShow allowed (cursor_named self.now.cursors session name) self.now name given.now) }
    {
        match cursor_named(&self.cursors, session, &name) {
            Some(place) => {
                drop(name);
                let table = table_at(&self.cursors, place);
                may_tell(self.alloc, self.database.catalog().indexes(), table, given)
            }
            None => Ok(refuses(Refusal::NoCursor(name), given)),
        }
    }

    /// CLOSE of a cursor that is kept here.
    fn close(&mut self, session: u8, name: Text) -> Result<Reply, NoMemory>
        ensures { IfOk result (λ reply. Done (closed self.old session name) self.old reply self.new) }
    {
        match cursor_named(&self.cursors, session, &name) {
            Some(place) => {
                drop(name);
                drop(self.cursors.remove(place));
                Ok(Reply::Closed)
            }
            None => Reply::refused(self.alloc, Refusal::NoCursor(name)),
        }
    }
}

/// The first of two equal replies.
fn first(replies: (Reply, Reply)) -> Reply
    ensures { result ≡ replies.0 }
{
    let (reply, kept) = replies;
    drop(kept);
    reply
}

/// Takes a session's cursors away, unless COMMIT or ROLLBACK was refused.
fn close_after(cursors: &mut Items<OpenCursor>, session: u8, reply: &Reply)
    ensures { cursors.new ≡ kept_after reply.now cursors.old session }
{
    if !is_refused(reply) {
        close_all(cursors, session);
    }
}

/// Whether a reply is a refusal.
fn is_refused(reply: &Reply) -> bool
    ensures { result ≡ is_refused reply.now }
{
    matches!(reply, Reply::Refused(_))
}

/// Whether a reply that was made is the one that is given.
fn compared(made: Result<Reply, NoMemory>, given: &Reply) -> Result<bool, NoMemory>
    ensures { Compares made given.now result }
{
    match made {
        Ok(reply) => {
            let same = same_reply(&reply, given);
            drop(reply);
            Ok(same)
        }
        Err(NoMemory) => Err(NoMemory),
    }
}

/// Whether a refusal is the reply that is given.
fn refuses(refusal: Refusal, given: &Reply) -> bool
    ensures { IsTrue result ↔ (Refused refusal ≡ given.now) }
{
    let same = match given {
        Reply::Refused(other) => same_refusal(&refusal, other.get()),
        _ => false,
    };
    drop(refusal);
    same
}

/// Whether a session's text may be answered by a reply. Where it may, the step is made.
pub fn judge(
    alloc: Global,
    plain: &mut PlainDatabase,
    session: u8,
    text: &str,
    given: &Reply,
) -> Result<bool, NoMemory>
    requires short { length text.now ≤ 4096 }
    requires room { HasRoom plain.old }
    requires apart { AreNamedApart plain.old.schema.indexes }
    ensures { IfOk result (λ allowed. JudgesStatement allowed plain.old session (statement_of text.now) given.now plain.new) }
{
    let statement = read_statement(alloc, text)?;
    let judged = judge_statement(plain, session, &statement, given);
    drop(statement);
    judged
}

fn judge_statement(
    plain: &mut PlainDatabase,
    session: u8,
    statement: &Option<Statement>,
    given: &Reply,
) -> Result<bool, NoMemory>
    requires parts { IfSome statement.now HasParts }
    requires room { HasRoom plain.old }
    requires apart { AreNamedApart plain.old.schema.indexes }
    ensures { IfOk result (λ allowed. JudgesStatement allowed plain.old session statement.now given.now plain.new) }
{
    match understand(plain.catalog(), statement) {
        Ok(asked) => judge_asked(plain, session, asked, given),
        Err(BindFault::Refused(refusal)) => Ok(refuses(refusal, given)),
        Err(BindFault::NoMemory) => Err(NoMemory),
    }
}

/// Whether what is asked may be answered by a reply. Where it may, the step is made.
fn judge_asked(
    plain: &mut PlainDatabase,
    session: u8,
    asked: Resolved,
    given: &Reply,
) -> Result<bool, NoMemory>
    requires room { HasRoom plain.old }
    requires apart { AreNamedApart plain.old.schema.indexes }
    requires fits { FitsSchema plain.old.schema asked }
    requires whole { IsWhole asked }
    ensures { IfOk result (λ allowed. JudgesAsked allowed (Ok asked) plain.old session given.now plain.new) }
{
    match asked {
        Resolved::CreateTable(def) => compared(plain.create(def), given),
        Resolved::CreateIndex(def) => compared(plain.create_index(def), given),
        Resolved::Begin { read_only } => compared(plain.begin(session, read_only), given),
        Resolved::Insert { table, values } => compared(plain.insert(session, table, values), given),
        Resolved::Update { table, sets, only } => {
            let made = plain.change(session, table, Some(sets.as_slice()), &only);
            drop(sets);
            drop(only);
            compared(made, given)
        }
        Resolved::Delete { table, only } => {
            let made = plain.change(session, table, None, &only);
            drop(only);
            compared(made, given)
        }
        Resolved::Commit => compared(plain.commit(session), given),
        Resolved::Rollback => compared(plain.rollback(session), given),
        Resolved::Open { cursor, select } => {
            let made = plain.open(session, cursor, &select);
            drop(select);
            compared(made, given)
        }
        Resolved::Fetch(name) => Ok(plain.fetch(session, name, given)),
        Resolved::Close(name) => compared(plain.close(session, name), given),
        Resolved::Step { cursor, n } => Ok(plain.step(session, cursor, n, given)),
        Resolved::Show(name) => plain.show(session, name, given),
    }
}
