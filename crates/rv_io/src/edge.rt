//! The trusted edge: std's readers and writers as a source and a sink. They tell no content.
ghost use Rattle.std.specs.Prelude.{None, ◌≡◌};
ghost use Rattle.rv_io.specs.Causes.{HasCause};

use crate::traits::{Failed, Flush, Sink, Source};
use std::io::{Read, Write};

/// A reader of std as a source, which counts its faults.
#[derive(Drop)]
pub struct StdSource<R: Drop> {
    inner: R,
    faults: u64,
}

impl<R: Drop> StdSource<R> {
    /// The source that reads from `inner`.
    pub fn new(inner: R) -> StdSource<R>
        ensures { result.faults ≡ 0 }
    {
        StdSource { inner, faults: 0 }
    }
}

impl<R: Read + Drop> Source for StdSource<R> {
    ghost left = { λ _. None };

    ghost faults = { λ s. s.faults };

    fn read(&mut self, buf: &mut [u8]) -> Result<usize, Failed> {
        match self.inner.read(buf) {
            Ok(count) => Ok(count),
            Err(_error) => {
                self.faults = self.faults.saturating_add(1);
                Err(Failed)
            }
        }
    }
}

/// A writer of std as a sink, which counts its faults. A write that takes nothing is one.
#[derive(Drop)]
pub struct StdSink<W: Drop> {
    inner: W,
    faults: u64,
}

impl<W: Drop> StdSink<W> {
    /// The sink that writes to `inner`.
    pub fn new(inner: W) -> StdSink<W>
        ensures { result.faults ≡ 0 }
    {
        StdSink { inner, faults: 0 }
    }
}

impl<W: Write + Drop> StdSink<W> {
    /// Hands everything to the writer's target. `Failed` where that cannot be done.
    pub fn finish(&mut self) -> Result<(), Failed>
        ensures { HasCause self.old.faults self.new.faults result }
    {
        match self.inner.flush() {
            Ok(()) => Ok(()),
            Err(_error) => {
                self.faults = self.faults.saturating_add(1);
                Err(Failed)
            }
        }
    }
}

impl<W: Write + Drop> Sink for StdSink<W> {
    ghost written = { λ _. None };

    ghost faults = { λ s. s.faults };

    fn write(&mut self, bytes: &[u8]) -> Result<usize, Failed> {
        match self.inner.write(bytes) {
            Ok(count) if count > 0 || bytes.is_empty() => Ok(count),
            _ => {
                self.faults = self.faults.saturating_add(1);
                Err(Failed)
            }
        }
    }
}

impl<W: Write + Drop> Flush for StdSink<W> {
    fn flush(&mut self) -> Result<(), Failed> {
        self.finish()
    }
}
