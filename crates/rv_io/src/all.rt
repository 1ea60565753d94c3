ghost use Rattle.std.specs.Prelude.{◌≡◌, ◌<◌, ◌≤◌, ◌+◌, IfOk, IsErrOf, OnErr, vec_len};
ghost use Rattle.std.specs.Io.KnownBytes.{Keeps};
ghost use Rattle.rv_io.specs.Causes.{Rose};
ghost use Rattle.rv_io.specs.Pieces.{Goes, TakesAll, TakesPiece, TakesTooMany, TakesUpTo, Wrote};

use crate::traits::{Failed, Sink, Source};
use std::alloc::Global;

/// Why not all was read: a read failed, the input is longer than the limit, or memory was refused.
#[derive(Clone, Copy, PartialEq, Eq)]
pub enum ReadFault {
    Failed,
    TooBig,
    NoMemory,
}

/// How much is asked of a source at once.
pub(crate) const PIECE: usize = 4096;

/// All bytes to the end of input, where they are at most `limit`. Whatever is answered, at most one byte more than
/// `limit` is taken; after a read that failed there is no further one.
pub fn read_all<S: Source>(alloc: Global, source: &mut S, limit: u32) -> Result<Vec<u8>, ReadFault>
    ensures bytes { IfOk result (λ bytes. TakesAll (S.left source.old) (S.left source.new) bytes.items) }
    ensures within { IfOk result (λ bytes. vec_len bytes ≤ limit) }
    ensures taken { TakesUpTo (S.left source.old) (S.left source.new) (limit + 1) }
    ensures failed { IsErrOf result ReadFault.Failed → Rose (S.faults source.old) (S.faults source.new) }
    ensures early { IsErrOf result ReadFault.Failed → TakesUpTo (S.left source.old) (S.left source.new) limit }
    ensures too_big { IsErrOf result ReadFault.TooBig → TakesTooMany (S.left source.old) (S.left source.new) limit }
    ensures later { S.faults source.old ≤ S.faults source.new }
{
    let mut bytes = Vec::new(alloc);
    'pieces: loop {
        let room = limit as usize + 1 - bytes.len();
        let count = read_piece(source, &mut bytes, room)?;
        if count == 0 {
            return Ok(bytes);
        }
        if bytes.len() > limit as usize {
            return Err(ReadFault::TooBig);
        }
    }
}

/// One piece of at most `room` bytes, put behind the bytes.
pub(crate) fn read_piece<S: Source>(
    source: &mut S,
    bytes: &mut Vec<u8>,
    room: usize,
) -> Result<usize, ReadFault>
    requires { 0 < room }
    ensures piece { IfOk result (λ n. TakesPiece (S.left source.old) (S.left source.new) bytes.old.items bytes.new.items n) }
    ensures within { IfOk result (λ n. n ≤ room) }
    ensures taken { OnErr result (TakesUpTo (S.left source.old) (S.left source.new) room) }
    ensures kept { IsErrOf result ReadFault.Failed → Keeps (S.left source.old) (S.left source.new) }
    ensures failed { IsErrOf result ReadFault.Failed → Rose (S.faults source.old) (S.faults source.new) }
    ensures other { ¬ (IsErrOf result ReadFault.TooBig) }
    ensures later { S.faults source.old ≤ S.faults source.new }
{
    let mut buf = [0u8; PIECE];
    let most = room.min(PIECE);
    let Ok(count) = source.read(&mut buf[..most]) else {
        return Err(ReadFault::Failed);
    };
    if bytes.extend_from_slice(&buf[..count]).is_err() {
        return Err(ReadFault::NoMemory);
    }
    Ok(count)
}

/// Writes all the bytes. After a write that failed there is no further one.
pub fn write_all<K: Sink>(sink: &mut K, bytes: &[u8]) -> Result<(), Failed>
    ensures { Wrote (K.written sink.old) (K.written sink.new) (K.faults sink.old) (K.faults sink.new) result bytes.now }
{
    let mut done = 0;
    'pieces: while done < bytes.len() {
        done += sink.write(&bytes[done..])?;
    }
    Ok(())
}

/// Writes all the bytes where no fault came before: a chain of these calls stops at the first fault.
pub fn write_next<K: Sink>(
    sink: &mut K,
    sofar: Result<(), Failed>,
    bytes: &[u8],
) -> Result<(), Failed>
    ensures { Goes sofar (K.written sink.old) (K.written sink.new) (K.faults sink.old) (K.faults sink.new) result bytes.now }
{
    match sofar {
        Ok(()) => write_all(sink, bytes),
        Err(fault) => Err(fault),
    }
}
