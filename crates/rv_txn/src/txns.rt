ghost use Rattle.std.specs.Prelude.{◌≡◌, ◌<◌, ◌-◌, ◌^◌, true, Ok, Err, IfOk, IfErr, OnOk, OnErr, IfSome, IsSome, length};
ghost use Rattle.rv_rows.specs.Changes.{Rise};
ghost use Rattle.rv_rows.specs.Kept.{lent_changes};
ghost use Rattle.rv_model.specs.Transactions.{began, done, horizon, lowest, no_transactions, touched_by, transaction_at, transaction_of};
ghost use Rattle.std.specs.Option.{option_copied, option_map};
ghost use Rattle.rv_txn.specs.Apart.{are_apart};
ghost use Rattle.rv_txn.specs.Calls.{IsFault, finished, rolled_back, standing, writing};
ghost use Rattle.rv_txn.specs.Halves.{changing_found, inserting, with_new, with_these};

use crate::active::{
    changes_at, horizon, limit, lowest, standing_at, transaction_at, transaction_of, writer,
};
use crate::changing::{changes_of, is_full};
use crate::conflicts::unharmed;
use crate::touched::{next_row, put_and_take, touch_all, touched_by};
use rv_model::{Refusal, Transaction, Transactions, Which};
use rv_rows::{Change, Changes, Lent};
use rv_value::{Items, NoMemory, Record, RowNo, Value};
use std::alloc::Global;
use std::marker::Model;

/// Why a call on transactions did nothing.
#[derive(Drop, PartialEq, Eq)]
pub enum TxnFault {
    Refused(Refusal),
    NoMemory,
}

impl From<NoMemory> for TxnFault {
    ghost use Rattle.std.specs.Prelude.{◌≡◌};
    ghost use Rattle.rv_txn.specs.declared.txns.TxnFault.TheVariants.{NoMemory as NoRoom};

    ghost from_gives = { λ _ e. e ≡ NoRoom };

    fn from(_error: NoMemory) -> TxnFault {
        TxnFault::NoMemory
    }
}

/// What others may know of a session's transaction.
#[derive(Clone, Copy, PartialEq, Eq)]
pub struct Standing {
    pub txn: u64,
    pub read_only: bool,
    pub base: u64,
}

/// What a commit needs of a transaction.
#[derive(Drop)]
pub struct Finished<'a> {
    pub txn: u64,
    pub base: u64,
    pub changes: Lent<'a>,
}

/// The active transactions, the number of the next one, and each table's row numbers that were taken, with the commits
/// that last wrote these rows.
#[derive(Drop)]
pub struct Txns {
    alloc: Global,
    transactions: Transactions,
}

impl Model for Txns {
    ghost use Rattle.std.specs.Prelude.{◌≡◌, true};
    ghost use Rattle.rv_model.specs.declared.transactions.Transactions.{Transactions};
    ghost use Rattle.rv_txn.specs.Apart.{are_apart};

    ghost Value = { Transactions };

    ghost view = { λ t. t.transactions };

    ghost invariant = { λ t. are_apart t.transactions.active ≡ true };
}

impl Txns {
    /// No transaction, the next one 1, and no row number taken. It takes no memory.
    pub fn new(alloc: Global) -> Txns
        ensures { result ≡ no_transactions }
    {
        Txns {
            alloc,
            transactions: Transactions {
                active: Items::new(alloc),
                next: 1,
                touched: Items::new(alloc),
            },
        }
    }

    /// BEGIN: the number of a new transaction on a commit.
    #[tactic(auto, using(rv_value::proofs::Places::put_back, rv_value::proofs::Places::read_as, crate::proofs::Apart::apart_more))]
    pub fn begin(&mut self, session: u8, read_only: bool, base: u64) -> Result<u64, TxnFault>
        requires { self.old.next < 2 ^ 64 - 1 }
        ensures ok { IfOk result (λ number. began self.old session read_only base ≡ Ok (number, self.new)) }
        ensures fault { IfErr result (λ fault. IsFault (began self.old session read_only base) fault) }
        ensures err { OnErr result (self.new ≡ self.old) }
    {
        if let Some(own) = transaction_of(&self.transactions.active, session) {
            let number = transaction_at(&self.transactions.active, own).number;
            return Err(TxnFault::Refused(Refusal::Active(number)));
        }
        let number = self.transactions.next;
        self.transactions.active.push(Transaction {
            number,
            session,
            read_only,
            base,
            changes: Changes::new(self.alloc),
        })?;
        self.transactions.next += 1;
        Ok(number)
    }

    /// The session's transaction, where it has one. It takes no memory.
    pub fn own(&self, session: u8) -> Option<&Transaction>
        ensures { option_copied result ≡ option_map (transaction_at self.now.active) (transaction_of self.now.active session) }
    {
        match transaction_of(&self.transactions.active, session) {
            Some(own) => Some(transaction_at(&self.transactions.active, own)),
            None => None,
        }
    }

    /// The active transactions, in the order in which they began, each of another session. It takes no memory.
    pub fn actives(&self) -> &[Transaction]
        ensures same { result.now ≡ self.now.active }
        ensures apart { are_apart result.now ≡ true }
    {
        self.transactions.active.as_slice()
    }

    /// The commit that last wrote a row, 0 where none did. It takes no memory.
    pub fn written_by(&self, table: u32, row: RowNo) -> u64
        ensures { result ≡ touched_by self.now.touched table row.0 }
    {
        touched_by(&self.transactions.touched, table, row)
    }

    /// The number of the row that an INSERT would add. It changes nothing.
    pub fn inserting(&self, session: u8, table: u32) -> Result<RowNo, TxnFault>
        ensures ok { IfOk result (λ row. inserting self.now session table ≡ Ok row) }
        ensures fault { IfErr result (λ fault. IsFault (inserting self.now session table) fault) }
    {
        let own = match writer(&self.transactions.active, session) {
            Ok(own) => own,
            Err(refusal) => return Err(TxnFault::Refused(refusal)),
        };
        let number = next_row(&self.transactions.touched, table);
        if number > 999_999 {
            return Err(TxnFault::Refused(limit(Which::Rows, 1_000_000)));
        }
        if changes_at(&self.transactions.active, own).len() > 99_999 {
            return Err(TxnFault::Refused(limit(Which::Pending, 100_000)));
        }
        Ok(RowNo(number))
    }

    /// Puts the row that an INSERT adds to the session's transaction, and takes its number.
    #[tactic(auto, using(rv_value::proofs::Places::put_back, rv_value::proofs::Places::read_as))]
    pub fn put_new(&mut self, session: u8, change: Change) -> Result<(), NoMemory>
        ensures ok { OnOk result (self.new ≡ with_new self.old (transaction_of self.old.active session) change) }
        ensures err { OnErr result (self.new ≡ self.old) }
    {
        let Some(own) = transaction_of(&self.transactions.active, session) else {
            return Ok(());
        };
        put_and_take(
            self.alloc,
            &mut self.transactions.active.at_mut(own).changes,
            change,
            &mut self.transactions.touched,
        )
    }

    /// The session's transaction, which has to be one that may write; else the refusal. It takes no memory.
    pub fn writing(&self, session: u8) -> Result<&Transaction, Refusal>
        ensures ok { IfOk result (λ own. writing self.now.active session ≡ Ok own.now) }
        ensures fault { IfErr result (λ refusal. writing self.now.active session ≡ Err refusal) }
    {
        match writer(&self.transactions.active, session) {
            Ok(own) => Ok(transaction_at(&self.transactions.active, own)),
            Err(refusal) => Err(refusal),
        }
    }

    /// The changes that an UPDATE, which sets columns, or a DELETE, which sets none, would make of rows that were found in the
    /// view of the session's transaction, in ascending order. It changes nothing.
    pub fn changing_found(
        &self,
        session: u8,
        table: u32,
        sets: Option<&[(u32, Value)]>,
        rows: &[Record],
    ) -> Result<Vec<Change>, TxnFault>
        ensures ok { IfOk result (λ new. changing_found self.now session table (option_copied sets.entry) rows.now ≡ Ok new.items) }
        ensures fault { IfErr result (λ fault. IsFault (changing_found self.now session table (option_copied sets.entry) rows.now) fault) }
    {
        let own = match writer(&self.transactions.active, session) {
            Ok(own) => own,
            Err(refusal) => return Err(TxnFault::Refused(refusal)),
        };
        let transaction = transaction_at(&self.transactions.active, own);
        if is_full(&transaction.changes, table, rows) {
            return Err(TxnFault::Refused(limit(Which::Pending, 100_000)));
        }
        match unharmed(
            &self.transactions.touched,
            &self.transactions.active,
            session,
            transaction.base,
            table,
            rows,
        ) {
            Ok(()) => {}
            Err(refusal) => return Err(TxnFault::Refused(refusal)),
        }
        let new = changes_of(self.alloc, table, sets, rows)?;
        Ok(new)
    }

    /// Puts the changes of an UPDATE or DELETE: all, or on `NoMemory` none.
    #[tactic(auto, using(rv_value::proofs::Places::put_back, rv_value::proofs::Places::read_as))]
    pub fn put_changes(&mut self, session: u8, new: Vec<Change>) -> Result<(), NoMemory>
        ensures ok { OnOk result (self.new ≡ with_these self.old (transaction_of self.old.active session) new.items) }
        ensures err { OnErr result (self.new ≡ self.old) }
    {
        let Some(own) = transaction_of(&self.transactions.active, session) else {
            return Ok(());
        };
        self.transactions.active.at_mut(own).changes.put_all(new)
    }

    /// Whether the session has a transaction that a commit can finish; else the refusal. It takes no memory.
    pub fn finishes(&self, session: u8) -> Result<(), Refusal>
        ensures ok { OnOk result (IsSome (transaction_of self.now.active session)) }
        ensures fault { IfErr result (λ refusal. finished self.now session ≡ Err refusal) }
    {
        match transaction_of(&self.transactions.active, session) {
            Some(_own) => Ok(()),
            None => Err(Refusal::NoTransaction),
        }
    }

    /// What a commit needs of the session's transaction, which stays active. Its changes are lent where they lie in one list.
    pub fn finish(&self, session: u8) -> Result<Finished<'_>, TxnFault>
        ensures ok { IfOk result (λ f. finished self.now session ≡ Ok (f.txn, f.base, lent_changes f.changes)) }
        ensures rise { IfOk result (λ f. Rise (lent_changes f.changes)) }
        ensures fault { IfErr result (λ fault. IsFault (finished self.now session) fault) }
    {
        let Some(own) = transaction_of(&self.transactions.active, session) else {
            return Err(TxnFault::Refused(Refusal::NoTransaction));
        };
        let transaction = transaction_at(&self.transactions.active, own);
        let changes = transaction.changes.lent()?;
        Ok(Finished {
            txn: transaction.number,
            base: transaction.base,
            changes,
        })
    }

    /// The session's transaction ends, its changes being those of a commit. It takes no memory.
    #[tactic(auto, using(rv_value::proofs::Places::put_back, rv_value::proofs::Places::read_as, crate::proofs::Apart::apart_less))]
    pub fn commit_done(&mut self, session: u8, commit: u64)
        requires { IsSome (transaction_of self.old.active session) }
        ensures { IfSome (transaction_of self.old.active session) (λ own. self.new ≡ done self.old own commit) }
    {
        if let Some(own) = transaction_of(&self.transactions.active, session) {
            let transaction = self.transactions.active.remove(own);
            touch_all(&mut self.transactions.touched, &transaction.changes, commit);
        }
    }

    /// ROLLBACK: the session's transaction ends, and its changes go. It takes no memory, and is refused only where
    /// there is none.
    #[tactic(auto, using(crate::proofs::Apart::apart_less))]
    pub fn rollback(&mut self, session: u8) -> Result<(), Refusal>
        ensures ok { OnOk result (rolled_back self.old session ≡ Ok self.new) }
        ensures fault { IfErr result (λ refusal. rolled_back self.old session ≡ Err refusal) }
        ensures err { OnErr result (self.new ≡ self.old) }
    {
        let Some(own) = transaction_of(&self.transactions.active, session) else {
            return Err(Refusal::NoTransaction);
        };
        let _ended = self.transactions.active.remove(own);
        Ok(())
    }

    /// What may be known of the session's transaction; None exactly where it has none. It takes no memory.
    pub fn standing(&self, session: u8) -> Option<Standing>
        ensures { result ≡ standing self.now.active (transaction_of self.now.active session) }
    {
        match transaction_of(&self.transactions.active, session) {
            Some(own) => Some(standing_at(&self.transactions.active, own)),
            None => None,
        }
    }

    /// The lowest number of an active transaction. It takes no memory.
    pub fn active(&self) -> Option<u64>
        ensures { result ≡ lowest self.now.active }
    {
        lowest(self.transactions.active.as_slice())
    }

    /// The lowest base of an active transaction, or the last commit where there is none. It takes no memory.
    pub fn horizon(&self, last: u64) -> u64
        ensures { result ≡ horizon self.now.active last }
    {
        horizon(self.transactions.active.as_slice(), last)
    }
}
