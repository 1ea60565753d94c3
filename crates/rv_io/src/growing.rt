//! A sink that keeps in memory all that is written.
ghost use Rattle.std.specs.Prelude.{◌≡◌, Some, []};

use crate::traits::{Failed, Flush, Sink};
use std::alloc::Global;

/// A sink in memory, which grows as it is written. It fails only where memory is wanting.
#[derive(Drop)]
pub struct GrowingSink {
    bytes: Vec<u8>,
    faults: u64,
}

impl GrowingSink {
    /// A sink with nothing in it.
    pub fn new(alloc: Global) -> GrowingSink
        ensures bytes { result.bytes.items ≡ [] }
        ensures faults { result.faults ≡ 0 }
    {
        GrowingSink {
            bytes: Vec::new(alloc),
            faults: 0,
        }
    }

    /// All bytes written.
    pub fn into_bytes(self) -> Vec<u8>
        ensures { result.items ≡ self.bytes.items }
    {
        let GrowingSink { bytes, faults: _ } = self;
        bytes
    }
}

impl Sink for GrowingSink {
    ghost written = { λ s. Some s.bytes.items };

    ghost faults = { λ s. s.faults };

    fn write(&mut self, bytes: &[u8]) -> Result<usize, Failed> {
        match self.bytes.extend_from_slice(bytes) {
            Ok(()) => Ok(bytes.len()),
            Err(_) => {
                self.faults = self.faults.saturating_add(1);
                Err(Failed)
            }
        }
    }
}

impl Flush for GrowingSink {
    fn flush(&mut self) -> Result<(), Failed> {
        Ok(())
    }
}
