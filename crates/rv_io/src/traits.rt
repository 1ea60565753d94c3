ghost use Rattle.std.specs.Prelude.{ℕ, ◌<◌, List, Option, length};
ghost use Rattle.rv_io.specs.Causes.{HasCause};
ghost use Rattle.rv_io.specs.Pieces.{Reads, Writes};
ghost use Rattle.std.specs.Io.KnownBytes.{Keeps};

/// A read or a write failed.
#[derive(Clone, Copy, PartialEq, Eq)]
pub struct Failed;

/// Where bytes come from.
pub trait Source {
    /// The bytes left, where it tells them.
    ghost left: { Self → Option (List ℕ) };

    /// How often it has failed; it stays at the greatest u64.
    ghost faults: { Self → ℕ };

    /// Takes the next bytes into the front of `buf`, and answers how many; 0 is the end of input.
    /// `Failed` takes nothing.
    fn read(&mut self, buf: &mut [u8]) -> Result<usize, Failed>
        requires { 0 < length buf.old }
        ensures bytes { Reads (left self.old) (left self.new) result buf.new }
        ensures cause { HasCause (faults self.old) (faults self.new) result };
}

/// Where bytes go.
pub trait Sink {
    /// The bytes written, where it tells them.
    ghost written: { Self → Option (List ℕ) };

    /// How often it has failed; it stays at the greatest u64.
    ghost faults: { Self → ℕ };

    /// Appends some bytes at the front of `bytes`, and answers how many: at least one, where there is
    /// one. `Failed` appends nothing.
    fn write(&mut self, bytes: &[u8]) -> Result<usize, Failed>
        ensures bytes { Writes (written self.old) (written self.new) result bytes.now }
        ensures cause { HasCause (faults self.old) (faults self.new) result };
}

/// A sink that hands on what it holds when it is told to.
pub trait Flush: Sink {
    /// Hands on all that was written. `Failed` where that cannot be done.
    fn flush(&mut self) -> Result<(), Failed>
        ensures kept { Keeps (Self.written self.old) (Self.written self.new) }
        ensures cause { HasCause (Self.faults self.old) (Self.faults self.new) result };
}
