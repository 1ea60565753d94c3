//! Open cursors: how they are found, opened and closed.
ghost use Rattle.std.specs.Prelude.{◌≡◌, ◌==◌, ◌&&◌, ◌<◌, Ok, IfErr, IfOk, bytes_eq, length, not};
ghost use Rattle.rv_model.specs.Database.{cursor_at, cursor_named};
ghost use Rattle.rv_model.specs.Step.{Offers, offers_after, other_cursors, own_cursors};
ghost use Rattle.rv_txn.specs.Calls.{IsFault};
ghost use Rattle.rv_core.specs.Doing.{opening_base};
ghost use Rattle.rv_replay.specs.Judging.{Judges, JudgesAt};

use crate::queues::{OfferQueue, take_given};
use rv_core::replies::limit;
use rv_lang::{Refusal, Reply, Which};
use rv_txn::{TxnFault, Txns};
use rv_value::{Duplicate, Items, Text};
use std::alloc::Global;
use std::marker::Model;

/// An open cursor of a session. Contracts see the definition's cursor.
#[derive(Drop)]
pub struct OpenCursor {
    session: u8,
    name: Text,
    table: u32,
    offers: OfferQueue,
}

impl Model for OpenCursor {
    ghost use Rattle.rv_model.specs.declared.state.Cursor.{Cursor};

    ghost Value = { Cursor };

    ghost view = { λ c. record { session = c.session; name = c.name; table = c.table; offers = c.offers } };
}

impl OpenCursor {
    /// A cursor of a name, the table of whose first FROM item is given, with what it has to offer.
    pub fn new(session: u8, name: Text, table: u32, offers: OfferQueue) -> OpenCursor
        ensures { result ≡ record { session = session; name = name; table = table; offers = offers } }
    {
        OpenCursor {
            session,
            name,
            table,
            offers,
        }
    }

    fn is_of(&self, session: u8) -> bool
        ensures { result ≡ (self.now.session == session) }
    {
        self.session == session
    }

    fn is_of_another(&self, session: u8) -> bool
        ensures { result ≡ not (self.now.session == session) }
    {
        self.session != session
    }

    fn is_named(&self, session: u8, name: &Text) -> bool
        ensures { result ≡ ((self.now.session == session) && bytes_eq self.now.name name.now) }
    {
        self.session == session && self.name.as_str() == name.as_str()
    }

    fn table(&self) -> u32
        ensures { result ≡ self.now.table }
    {
        self.table
    }

    /// Whether it may give a reply. Where it may, what the reply gives is taken out.
    fn fetch(&mut self, given: &Reply) -> bool
        ensures { Judges result (Offers self.old.offers given.now) (self.new ≡ record self.old { offers = offers_after self.old.offers given.now }) }
    {
        take_given(&mut self.offers, given)
    }
}

/// The place of the session's cursor of this name.
pub fn cursor_named(cursors: &Items<OpenCursor>, session: u8, name: &Text) -> Option<usize>
    ensures { result ≡ cursor_named cursors.now session name.now }
{
    cursors
        .as_slice()
        .iter()
        .position(|cursor| cursor.is_named(session, name))
}

/// How many cursors of the session are open.
fn count_cursors(cursors: &Items<OpenCursor>, session: u8) -> usize
    ensures { result ≡ length (own_cursors cursors.now session) }
{
    cursors
        .as_slice()
        .iter()
        .filter(|cursor| cursor.is_of(session))
        .count()
}

/// Takes a session's cursors away, as the end of its transaction does.
pub fn close_all(cursors: &mut Items<OpenCursor>, session: u8)
    ensures { cursors.new ≡ other_cursors cursors.old session }
{
    cursors.retain(|cursor| cursor.is_of_another(session));
}

/// Whether the cursor in a place may give a reply. Where it may, what the reply gives is taken out.
pub fn fetch_at(cursors: &mut Items<OpenCursor>, place: usize, given: &Reply) -> bool
    requires { place < length cursors.old }
    ensures { JudgesAt result place cursors.old given.now cursors.new }
{
    cursors.at_mut(place).fetch(given)
}

/// The table of the first FROM item of the cursor in a place.
pub fn table_at(cursors: &Items<OpenCursor>, place: usize) -> u32
    requires { place < length cursors.now }
    ensures { result ≡ (cursor_at cursors.now place).table }
{
    cursors.as_slice()[place].table()
}

/// The base of the session's transaction, where it may open a cursor of a name.
pub fn may_open(
    alloc: Global,
    txns: &Txns,
    cursors: &Items<OpenCursor>,
    session: u8,
    name: &Text,
) -> Result<u64, TxnFault>
    ensures ok { IfOk result (λ base. opening_base txns.now.active cursors.now session name.now ≡ Ok base) }
    ensures fault { IfErr result (λ fault. IsFault (opening_base txns.now.active cursors.now session name.now) fault) }
{
    let Some(standing) = txns.standing(session) else {
        return Err(TxnFault::Refused(Refusal::NoTransaction));
    };
    if cursor_named(cursors, session, name).is_some() {
        return Err(TxnFault::Refused(Refusal::CursorOpen(name.copy(alloc)?)));
    }
    if count_cursors(cursors, session) > 15 {
        return Err(TxnFault::Refused(limit(Which::Cursors, 16)));
    }
    Ok(standing.base)
}
