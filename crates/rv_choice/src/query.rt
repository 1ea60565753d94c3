ghost use Rattle.std.specs.Prelude.{◌≡◌};
ghost use Rattle.rv_choice.specs.Asked.{begins_any};

use rv_restrict::Restriction;
use rv_value::{Items, Shared};

/// Whether the first rows or all rows are wanted soon.
#[derive(Clone, Copy, PartialEq, Eq)]
pub enum Goal2 {
    FastFirst,
    TotalTime,
}

/// What is asked of one table at a snapshot.
#[derive(Drop)]
pub struct Query {
    pub table: u32,
    pub snap: u64,
    /// The restriction, over place 0 alone.
    pub only: Restriction,
    /// The table's indexes in order of creation, each with its number and its columns.
    pub indexes: Shared<Items<(u32, Items<u32>)>>,
    /// The columns needed, those of the restriction and of the order among them.
    pub need: Shared<Items<u32>>,
    /// The columns by which rows are to come in order; none where any order will do.
    pub order: Items<u32>,
    pub goal: Goal2,
}

/// Whether some index begins with these columns, so that it has the rows in their order.
pub fn ordered(indexes: &[(u32, Items<u32>)], order: &[u32]) -> bool
    ensures { result ≡ begins_any indexes.now order.now }
{
    indexes
        .iter()
        .any(|index| index.1.as_slice().starts_with(order))
}
