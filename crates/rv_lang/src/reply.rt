//! What is answered to a call.
ghost use Rattle.std.specs.Prelude.{◌≡◌, IfOk};
ghost use Rattle.rv_lang.specs.declared.reply.Reply.TheVariants.{Refused};

use rv_judge::{Control, Strategy};
use rv_value::{Duplicate, Items, NoMemory, RowNo, Shared, Text, Values};
use std::alloc::Global;

/// The limits, in the order in which those of the statement and then those of the state are tested.
#[derive(Clone, Copy, PartialEq, Eq)]
pub enum Which {
    Name,
    Text,
    Columns,
    Key,
    List,
    Atoms,
    Groups,
    Joined,
    Returned,
    Order,
    Steps,
    Tables,
    Indexes,
    Cursors,
    Rows,
    Pending,
}

/// Where a row that equals a written one in a unique index was found.
#[derive(Clone, Copy, PartialEq, Eq)]
pub enum Rival {
    /// In the view of the transaction itself.
    View,
    /// At the last commit; shown is the commit that last wrote the row.
    Commit(u64),
    /// Among the changes of another active transaction, which is shown.
    Txn(u64),
}

/// Why a call was refused. A refused call changes nothing but the history.
#[derive(Drop, PartialEq, Eq)]
pub enum Refusal {
    /// The text derives no statement.
    Syntax,
    /// The name of a table that is not there, or of a column that fits none or several tables.
    Unknown(Text),
    /// A name in use, or one that stands twice where it may stand once.
    Exists(Text),
    /// The name of a column whose kind does not fit.
    Kind(Text),
    /// The session's transaction, at BEGIN.
    Active(u64),
    NoTransaction,
    /// The lowest active transaction, at CREATE.
    Busy(u64),
    ReadOnly,
    /// A row that a later commit than the transaction's base has written.
    Changed { row: RowNo, commit: u64 },
    /// A row that another active transaction has changed.
    Held { row: RowNo, txn: u64 },
    NoCursor(Text),
    CursorOpen(Text),
    /// The number is the greatest that is allowed.
    Limit { which: Which, number: u64 },
    /// A row that equals a written one in a unique index; at CREATE UNIQUE INDEX one that equals
    /// a lower one.
    Duplicate { row: RowNo, by: Rival },
}

/// An event of a trace, a scan being named by its index.
#[derive(Drop, PartialEq, Eq)]
pub enum ShownEvent {
    /// The control became this one.
    At(Control),
    /// A background scan of the index began.
    Scan(Text),
    /// The scan of the index completed, with a list of so many keys.
    List(Text, u64),
    /// The scan of the index was abandoned.
    Drop(Text),
    /// The buffer of delivered rows became full.
    Full,
    /// The foreground was abandoned.
    Stop,
}

/// A trace with the names of indexes in place of their numbers.
#[derive(Drop, PartialEq, Eq)]
pub struct Shown {
    pub strategy: Strategy,
    pub events: Items<ShownEvent>,
    pub pages: u64,
    pub leaves: u64,
    pub fetches: u64,
}

/// The reply to a call.
#[derive(Drop, PartialEq, Eq)]
pub enum Reply {
    Created,
    /// The transaction's number.
    Began(u64),
    Inserted(RowNo),
    /// How many rows were changed.
    Touched(u64),
    /// The commit's number, or the base where there was no change.
    Committed(u64),
    RolledBack,
    Opened,
    Row(Values),
    End,
    Closed,
    /// How many background steps were done.
    Stepped(u64),
    /// What the cursor's plan did so far. As a refusal it is shared: so every reply is small.
    Trace(Shared<Shown>),
    Refused(Shared<Refusal>),
}

impl Reply {
    /// A refusal as a reply, which shares it.
    pub fn refused(alloc: Global, refusal: Refusal) -> Result<Reply, NoMemory>
        ensures { IfOk result (λ reply. reply ≡ Refused refusal) }
    {
        let shared = Shared::new(alloc, refusal)?;
        Ok(Reply::Refused(shared))
    }
}

impl Duplicate for Reply {
    fn copy(&self, alloc: Global) -> Result<Reply, NoMemory> {
        Ok(match self {
            Reply::Created => Reply::Created,
            Reply::Began(number) => Reply::Began(*number),
            Reply::Inserted(row) => Reply::Inserted(*row),
            Reply::Touched(count) => Reply::Touched(*count),
            Reply::Committed(number) => Reply::Committed(*number),
            Reply::RolledBack => Reply::RolledBack,
            Reply::Opened => Reply::Opened,
            Reply::Row(values) => Reply::Row(values.copy(alloc)?),
            Reply::End => Reply::End,
            Reply::Closed => Reply::Closed,
            Reply::Stepped(count) => Reply::Stepped(*count),
            Reply::Trace(shown) => Reply::Trace(shown.copy(alloc)?),
            Reply::Refused(refusal) => Reply::Refused(refusal.copy(alloc)?),
        })
    }
}
