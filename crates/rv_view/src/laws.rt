//! The law of the definitions, the contract of a function that does nothing.
ghost use Rattle.rv_view.specs.Making.{LaysKept};

/// What is kept beside a transaction's changes may be laid over the store at the transaction's base.
pub fn lays_kept()
    ensures { LaysKept }
{}
