//! Memory as a source of bytes, which never fails.
ghost use Rattle.std.specs.Prelude.{◌≡◌, Some};

use rv_io::{Failed, Source};

/// Bytes of a caller, as a source.
#[derive(Drop)]
pub(crate) struct Lent<'a> {
    left: &'a [u8],
}

impl<'a> Lent<'a> {
    /// The source of these bytes.
    pub(crate) fn new(bytes: &'a [u8]) -> Lent<'a>
        ensures { result.left.now ≡ bytes.now }
    {
        Lent { left: bytes }
    }
}

impl Source for Lent<'_> {
    ghost left = { λ s. Some s.left.now };

    ghost faults = { λ _. 0 };

    fn read(&mut self, buf: &mut [u8]) -> Result<usize, Failed> {
        let count = self.left.len().min(buf.len());
        let (front, rest) = self.left.split_at(count);
        buf[..count].copy_from_slice(front);
        self.left = rest;
        Ok(count)
    }
}
