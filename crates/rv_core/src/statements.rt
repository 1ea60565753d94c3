//! What a text asks, and what is done for it.
ghost use Rattle.std.specs.Prelude.{◌≡◌, ◌≤◌, ◌<◌, ◌+◌, ◌-◌, ◌^◌, Ok, IfErr, IfOk, IfSome, OnErr, false, length};
ghost use Rattle.rv_parse.specs.Needed.{HasParts};
ghost use Rattle.rv_parse.specs.Reading.{statement_of};
ghost use Rattle.rv_catalog.specs.Answers.{Gives};
ghost use Rattle.rv_catalog.specs.Fits.{FitsSchema};
ghost use Rattle.rv_catalog.specs.Schema.{Schema as TheSchema};
ghost use Rattle.rv_model.specs.Standing.{HasRoom};
ghost use Rattle.rv_model.specs.Step.{understood};
ghost use Rattle.rv_core.specs.Core.{horizon_of};
ghost use Rattle.rv_core.specs.Doing.{DoesAsked, Executes, IsWhole, PartIs};
ghost use Rattle.rv_core.specs.Obeying.{Handles, HandlesText, Leaves, LeavesText, Refuses, SeesSame, Turns, TurnsText, Works, WorksText, is_fetch, plans_of, under};
ghost use Rattle.rv_catalog.specs.declared.def.Resolved.TheVariants.{Fetch};
ghost use Rattle.rv_lang.specs.declared.reply.Refusal.{Refusal as TheRefusal};
ghost use Rattle.rv_lang.specs.declared.reply.Reply.TheVariants.{Refused};

use crate::database::Database;
use crate::replies::{answered, refused};
use crate::settings::Settings;
use rv_catalog::{BindFault, Catalog, Resolved, long_name};
use rv_judge::{Judge, Uncounted};
use rv_lang::{Refusal, Reply, Statement};
use rv_parse::Readings;
use rv_reader::{Reader, Store};
use rv_value::{NoMemory, Text};
use std::alloc::Global;

/// The reply to a text, twice, with the step that it makes.
#[tactic(auto, using(crate::proofs::Keeping::sees_same))]
pub fn answer<S: Store + Reader<Ledger = Uncounted> + Drop>(
    alloc: Global,
    database: &mut Database<S>,
    readings: &mut Readings,
    session: u8,
    text: &str,
    judge: &mut Box<dyn Judge>,
    settings: Settings,
) -> Result<(Reply, Reply), NoMemory>
    requires short { length text.now ≤ 4096 }
    requires room { HasRoom database.old.stand.db }
    requires numbers { database.old.opened < 2 ^ 64 - 1 }
    requires swept { database.old.stand.horizon ≡ horizon_of database.old.stand.db }
    ensures sees { SeesSame (S.shown database.old.store) (S.shown database.new.store) database.new.opens }
    ensures ok { IfOk result (λ replies. Executes database.old.stand session (statement_of text.now) replies database.new.stand) }
    ensures handles { IfOk result (λ replies. HandlesText (under (S.shown database.old.store) (would judge.old) settings) (statement_of text.now) database.old.stand.db session replies.0 (plans_of database.old (state judge.old)) (plans_of database.new (state judge.new))) }
    ensures lost { OnErr result (LeavesText (under (S.shown database.old.store) (would judge.old) settings) (statement_of text.now) database.old.stand.db session (plans_of database.old (state judge.old)) (plans_of database.new (state judge.new))) }
    ensures rules { would judge.new ≡ would judge.old }
    ensures err { OnErr result (database.new.stand ≡ database.old.stand) }
    ensures opened { database.new.opened ≤ database.old.opened + 1 }
    ensures unopened { OnErr result (database.new.opened ≡ database.old.opened) }
{
    let place = readings.keep(text)?;
    let statement = readings.at(place);
    if let Some(cursor) = fetched(statement) {
        return database.fetch(session, cursor, judge, settings.steps);
    }
    match understand(database.catalog(), statement) {
        Ok(asked) => match fetch_name(asked) {
            Ok(name) => {
                let replies = database.fetch(session, &name, judge, settings.steps);
                drop(name);
                replies
            }
            Err(other) => perform(database, session, other, judge, settings),
        },
        Err(BindFault::Refused(refusal)) => refused(alloc, refusal),
        Err(BindFault::NoMemory) => Err(NoMemory),
    }
}

/// One turn's part of a call: the reply to a text, twice, with the step that it makes, or none where it is a FETCH whose
/// cursor has worked on.
#[tactic(auto, using(crate::proofs::Keeping::sees_same))]
pub fn answer_step<S: Store + Reader<Ledger = Uncounted> + Drop>(
    alloc: Global,
    database: &mut Database<S>,
    readings: &mut Readings,
    session: u8,
    text: &str,
    judge: &mut Box<dyn Judge>,
    settings: Settings,
) -> Result<Option<(Reply, Reply)>, NoMemory>
    requires short { length text.now ≤ 4096 }
    requires room { HasRoom database.old.stand.db }
    requires numbers { database.old.opened < 2 ^ 64 - 1 }
    requires swept { database.old.stand.horizon ≡ horizon_of database.old.stand.db }
    ensures sees { SeesSame (S.shown database.old.store) (S.shown database.new.store) database.new.opens }
    ensures ok { IfOk result (PartIs (λ replies. Executes database.old.stand session (statement_of text.now) replies database.new.stand) (database.new ≡ record database.old { opens = database.new.opens })) }
    ensures handles { IfOk result (PartIs (λ replies. HandlesText (under (S.shown database.old.store) (would judge.old) settings) (statement_of text.now) database.old.stand.db session replies.0 (plans_of database.old (state judge.old)) (plans_of database.new (state judge.new))) (WorksText (under (S.shown database.old.store) (would judge.old) settings) (statement_of text.now) database.old.stand.db session (plans_of database.old (state judge.old)) (plans_of database.new (state judge.new)))) }
    ensures turn { IfOk result (PartIs (λ replies. TurnsText (under (S.shown database.old.store) (would judge.old) settings) (statement_of text.now) database.old.stand.db session replies.0 (plans_of database.old (state judge.old)) (plans_of database.new (state judge.new))) (Unit {0})) }
    ensures lost { OnErr result (LeavesText (under (S.shown database.old.store) (would judge.old) settings) (statement_of text.now) database.old.stand.db session (plans_of database.old (state judge.old)) (plans_of database.new (state judge.new))) }
    ensures rules { would judge.new ≡ would judge.old }
    ensures err { OnErr result (database.new.stand ≡ database.old.stand) }
    ensures opened { database.new.opened ≤ database.old.opened + 1 }
    ensures unopened { OnErr result (database.new.opened ≡ database.old.opened) }
{
    let place = readings.keep(text)?;
    let said = readings.at(place);
    match understand(database.catalog(), said) {
        Ok(asked) => turn(database, session, asked, judge, settings),
        Err(BindFault::Refused(refusal)) => answered(refused(alloc, refusal)),
        Err(BindFault::NoMemory) => Err(NoMemory),
    }
}

/// The name of the cursor of a FETCH whose name is not too long, which is all that there is to look up of it.
fn fetched(statement: &Option<Statement>) -> Option<&Text>
    ensures { (schema : TheSchema) → IfSome result (λ name. understood schema statement.now ≡ Ok (Fetch name.now)) }
{
    let Some(Statement::Fetch { cursor }) = statement else {
        return None;
    };
    if long_name(cursor) {
        return None;
    }
    Some(cursor)
}

/// The name of the cursor of a FETCH, or else what is asked.
fn fetch_name(asked: Resolved) -> Result<Text, Resolved>
    ensures name { IfOk result (λ name. asked ≡ Fetch name) }
    ensures other { IfErr result (λ other. (other ≡ asked) × (is_fetch asked ≡ false)) }
{
    match asked {
        Resolved::Fetch(name) => Ok(name),
        other => Err(other),
    }
}

/// One turn's part of what is asked.
#[tactic(auto, using(crate::proofs::Keeping::sees_same))]
fn turn<S: Store + Reader<Ledger = Uncounted> + Drop>(
    database: &mut Database<S>,
    session: u8,
    asked: Resolved,
    judge: &mut Box<dyn Judge>,
    settings: Settings,
) -> Result<Option<(Reply, Reply)>, NoMemory>
    requires room { HasRoom database.old.stand.db }
    requires numbers { database.old.opened < 2 ^ 64 - 1 }
    requires swept { database.old.stand.horizon ≡ horizon_of database.old.stand.db }
    requires fits { FitsSchema database.old.stand.db.schema asked }
    requires whole { IsWhole asked }
    ensures sees { SeesSame (S.shown database.old.store) (S.shown database.new.store) database.new.opens }
    ensures ok { IfOk result (PartIs (λ replies. DoesAsked (Ok asked) database.old.stand session replies database.new.stand) (database.new ≡ record database.old { opens = database.new.opens })) }
    ensures handles { IfOk result (PartIs (λ replies. Handles (under (S.shown database.old.store) (would judge.old) settings) (Ok asked) database.old.stand.db session replies.0 (plans_of database.old (state judge.old)) (plans_of database.new (state judge.new))) (Works (under (S.shown database.old.store) (would judge.old) settings) (Ok asked) session (plans_of database.old (state judge.old)) (plans_of database.new (state judge.new)))) }
    ensures refuses { (refusal : TheRefusal) → IfOk result (PartIs (λ replies. replies.0 ≡ Refused refusal → Refuses (Ok asked) (plans_of database.old (state judge.old)) (plans_of database.new (state judge.new))) (Unit {0})) }
    ensures turn { IfOk result (PartIs (λ replies. Turns (under (S.shown database.old.store) (would judge.old) settings) (Ok asked) session replies.0 (plans_of database.old (state judge.old)) (plans_of database.new (state judge.new))) (Unit {0})) }
    ensures lost { OnErr result (Leaves (under (S.shown database.old.store) (would judge.old) settings) (Ok asked) database.old.stand.db session (plans_of database.old (state judge.old)) (plans_of database.new (state judge.new))) }
    ensures rules { would judge.new ≡ would judge.old }
    ensures err { OnErr result (database.new.stand ≡ database.old.stand) }
    ensures opened { database.new.opened ≤ database.old.opened + 1 }
    ensures unopened { OnErr result (database.new.opened ≡ database.old.opened) }
{
    match fetch_name(asked) {
        Ok(name) => {
            let part = database.fetch_step(session, &name, judge, settings.steps);
            drop(name);
            part
        }
        Err(other) => answered(perform(database, session, other, judge, settings)),
    }
}

/// What a statement asks, its names looked up, or the first refusal up to there.
pub fn understand(catalog: &Catalog, statement: &Option<Statement>) -> Result<Resolved, BindFault>
    requires parts { IfSome statement.now HasParts }
    ensures gives { Gives result (understood catalog.now statement.now) }
    ensures fits { IfOk result (λ asked. FitsSchema catalog.now asked) }
    ensures whole { IfOk result IsWhole }
{
    let Some(derived) = statement else {
        return Err(BindFault::Refused(Refusal::Syntax));
    };
    catalog.resolve(derived)
}

/// Does what is asked, where that is no FETCH.
#[tactic(auto, using(crate::proofs::Keeping::sees_same))]
fn perform<S: Store + Reader<Ledger = Uncounted> + Drop>(
    database: &mut Database<S>,
    session: u8,
    asked: Resolved,
    judge: &mut Box<dyn Judge>,
    settings: Settings,
) -> Result<(Reply, Reply), NoMemory>
    requires room { HasRoom database.old.stand.db }
    requires numbers { database.old.opened < 2 ^ 64 - 1 }
    requires swept { database.old.stand.horizon ≡ horizon_of database.old.stand.db }
    requires fits { FitsSchema database.old.stand.db.schema asked }
    requires whole { IsWhole asked }
    requires other { is_fetch asked ≡ false }
    ensures sees { SeesSame (S.shown database.old.store) (S.shown database.new.store) database.new.opens }
    ensures ok { IfOk result (λ replies. DoesAsked (Ok asked) database.old.stand session replies database.new.stand) }
    ensures handles { IfOk result (λ replies. Handles (under (S.shown database.old.store) (would judge.old) settings) (Ok asked) database.old.stand.db session replies.0 (plans_of database.old (state judge.old)) (plans_of database.new (state judge.new))) }
    ensures refuses { (refusal : TheRefusal) → IfOk result (λ replies. replies.0 ≡ Refused refusal → Refuses (Ok asked) (plans_of database.old (state judge.old)) (plans_of database.new (state judge.new))) }
    ensures lost { OnErr result (Leaves (under (S.shown database.old.store) (would judge.old) settings) (Ok asked) database.old.stand.db session (plans_of database.old (state judge.old)) (plans_of database.new (state judge.new))) }
    ensures rules { would judge.new ≡ would judge.old }
    ensures err { OnErr result (database.new.stand ≡ database.old.stand) }
    ensures opened { database.new.opened ≤ database.old.opened + 1 }
    ensures unopened { OnErr result (database.new.opened ≡ database.old.opened) }
{
    match asked {
        Resolved::CreateTable(def) => database.create(def),
        Resolved::CreateIndex(def) => database.create_index(def),
        Resolved::Begin { read_only } => database.begin(session, read_only),
        Resolved::Insert { table, values } => database.insert(session, table, values),
        Resolved::Update { table, sets, only } => {
            let replies = database.change(session, table, Some(sets.as_slice()), &only, judge);
            drop(sets);
            drop(only);
            replies
        }
        Resolved::Delete { table, only } => {
            let replies = database.change(session, table, None, &only, judge);
            drop(only);
            replies
        }
        Resolved::Commit => database.commit(session),
        Resolved::Rollback => database.rollback(session),
        Resolved::Open { cursor, select } => {
            let replies = database.open(session, cursor, &select, settings.race);
            drop(select);
            replies
        }
        Resolved::Fetch(_) => unreachable!(),
        Resolved::Step { cursor, n } => database.step(session, cursor, n, judge),
        Resolved::Show(name) => database.show(session, name),
        Resolved::Close(name) => database.close(session, name),
    }
}
