//! What is read of the active transactions.
ghost use Rattle.std.specs.Prelude.{◌≡◌, ◌<◌, IfOk, IfSome, length};
ghost use Rattle.rv_lang.specs.declared.reply.Refusal.TheVariants.{Limit};
ghost use Rattle.rv_model.specs.Transactions.{horizon, lower_of, lowest, transaction_at, transaction_of, writer};
ghost use Rattle.rv_txn.specs.Calls.{standing_at};

use crate::txns::Standing;
use rv_model::{Refusal, Transaction, Which};
use rv_rows::Changes;
use rv_value::Items;

/// The place of the session's transaction among the active ones; None where it has begun none. A session has one at
/// most.
pub fn transaction_of(active: &Items<Transaction>, session: u8) -> Option<usize>
    ensures { result ≡ transaction_of active.now session }
{
    active
        .as_slice()
        .iter()
        .position(|transaction| transaction.session == session)
}

/// The transaction in a place.
#[tactic(auto, using(rv_value::proofs::Places::read_as))]
pub fn transaction_at(active: &Items<Transaction>, own: usize) -> &Transaction
    requires { own < length active.now }
    ensures { result.now ≡ transaction_at active.now own }
{
    &active.as_slice()[own]
}

/// The changes of the transaction in a place.
pub fn changes_at(active: &Items<Transaction>, own: usize) -> &Changes
    requires { own < length active.now }
    ensures { result.now ≡ (transaction_at active.now own).changes }
{
    &transaction_at(active, own).changes
}

/// What may be known of the transaction in a place.
pub fn standing_at(active: &Items<Transaction>, own: usize) -> Standing
    requires { own < length active.now }
    ensures { result ≡ standing_at active.now own }
{
    let transaction = transaction_at(active, own);
    Standing {
        txn: transaction.number,
        read_only: transaction.read_only,
        base: transaction.base,
    }
}

/// The place of the session's transaction, which has to be one that may write.
pub fn writer(active: &Items<Transaction>, session: u8) -> Result<usize, Refusal>
    ensures is { result ≡ writer active.now session }
    ensures within { IfOk result (λ own. own < length active.now) }
{
    let Some(own) = transaction_of(active, session) else {
        return Err(Refusal::NoTransaction);
    };
    if transaction_at(active, own).read_only {
        return Err(Refusal::ReadOnly);
    }
    Ok(own)
}

/// The refusal of what would pass a limit; the number is that limit.
pub fn limit(which: Which, number: u64) -> Refusal
    ensures { result ≡ Limit which number }
{
    Refusal::Limit { which, number }
}

fn lower_of(number: u64, other: Option<u64>) -> u64
    ensures { result ≡ lower_of number other }
{
    match other {
        None => number,
        Some(lowest) => number.min(lowest),
    }
}

/// The lowest number of an active transaction, which is the oldest; None where none is active.
pub fn lowest(active: &[Transaction]) -> Option<u64>
    ensures { result ≡ lowest active.now }
{
    match active {
        [] => None,
        [transaction, more @ ..] => Some(lower_of(transaction.number, lowest(more))),
    }
}

/// The lowest base of an active transaction, or the last commit where none is active: what a store has to keep.
pub fn horizon(active: &[Transaction], last: u64) -> u64
    ensures { result ≡ horizon active.now last }
{
    match active {
        [] => last,
        [transaction, more @ ..] => transaction.base.min(horizon(more, last)),
    }
}
