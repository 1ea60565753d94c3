//! The core: the calls of the sessions one after another over a store, and the history of them.
#![tactic(auto)]

pub mod cursors;
pub mod database;
pub mod engine;
pub mod judged;
pub mod laws;
pub mod pieces;
pub mod replies;
pub mod settings;
pub mod statements;
pub mod storing;

pub use engine::{Engine, PartOf};
pub use judged::Core;
pub use settings::Settings;
