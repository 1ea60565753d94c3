//! The one-thread database, by definition: its state, its steps, legal histories and their transcripts.
#![tactic(auto)]

pub mod entry;
pub mod laws;
pub mod offers;
pub mod state;
pub mod transactions;
pub mod words;

pub use entry::Entry;
pub use rv_lang::{Refusal, Reply, Rival, Shown, ShownEvent, Which};
pub use state::{Cursor, Offer, State};
pub use transactions::{Transaction, Transactions};
pub use words::limit_word;
