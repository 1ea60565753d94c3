ghost use Rattle.std.specs.Prelude.{◌≡◌, IfOk};

use crate::duplicate::{Duplicate, NoMemory};
use std::alloc::Global;
use std::marker::Model;
use std::sync::Arc;

/// An item that its copies share, for what is large beside what stands in its place more often.
/// Contracts see the item itself.
#[derive(Drop)]
pub struct Shared<X> {
    item: Arc<X>,
}

impl<X> Model for Shared<X> {
    ghost use Rattle.std.specs.Arc.{arc_value};

    ghost Value = { X };

    ghost view = { λ s. arc_value s.item };
}

impl<X> Shared<X> {
    /// The item.
    pub fn get(&self) -> &X
        ensures { result.now ≡ self.now }
    {
        &self.item
    }
}

impl<X: Drop> Shared<X> {
    /// An item that nobody shares yet. `NoMemory` where it finds no room; it is dropped then.
    pub fn new(alloc: Global, item: X) -> Result<Shared<X>, NoMemory>
        ensures { IfOk result (λ s. s ≡ item) }
    {
        let item = Arc::new(alloc, item)?;
        Ok(Shared { item })
    }
}

impl<X: Drop> Duplicate for Shared<X> {
    /// The same item, of which nothing is copied. It takes no memory; `NoMemory` where it has 2⁶³ copies.
    fn copy(&self, _alloc: Global) -> Result<Shared<X>, NoMemory> {
        let item = Arc::try_clone(&self.item)?;
        Ok(Shared { item })
    }
}
