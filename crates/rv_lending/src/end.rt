//! The end of a core.

use rv_core::Core;
use rv_judge::Uncounted;
use rv_reader::{Reader, Store};

/// Lets a core go, where there is one. A function that drops one by itself is proved with the drops of all that a core is made
/// of, again in each crate; those of this call are proved here, for every store.
pub fn let_go<S: Store + Reader<Ledger = Uncounted> + Drop>(core: Option<Core<S>>) {
    drop(core);
}
