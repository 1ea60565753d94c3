//! The reader of lines, which takes no more than it needs to have one.
ghost use Rattle.std.specs.Prelude.{◌≡◌, ◌≤◌, ◌<◌, ◌++◌, ◌==◌, [], IfErr, IfOk, IfSome, IsErrOf, OnErr, Some, false, length, position, true, vec_len};
ghost use Rattle.std.specs.Io.KnownBytes.{IsAtEnd};
ghost use Rattle.rv_io.specs.Causes.{Rose};
ghost use Rattle.rv_io.specs.Lines.{IsLine, TakesLine, TakesLongLine, TakesSome};

use crate::all::{PIECE, ReadFault, read_piece};
use crate::traits::Source;
use std::alloc::Global;
use std::mem::replace;

/// A line, with its end where it has one. The last one may lack it, and then the input was at its end.
#[derive(Drop)]
pub struct InputLine {
    pub bytes: Vec<u8>,
    pub ended: bool,
}

/// The next line, which is empty where the input is at its end. `pending` is empty before the first one, and keeps what was taken
/// behind it. A read is made only while no whole line pends, so this waits for no more than the end of a line. `TooBig`
/// where more than `most` bytes came without one.
#[tactic(auto, using(crate::proofs::Feeds::begins, crate::proofs::Feeds::piece_more, crate::proofs::Feeds::cut_off, crate::proofs::Feeds::some_taken, crate::proofs::Feeds::some_more, crate::proofs::Feeds::long_line, crate::proofs::Feeds::last_line, crate::proofs::Feeds::none_found))]
pub fn read_line<S: Source>(
    alloc: Global,
    source: &mut S,
    pending: &mut Vec<u8>,
    most: usize,
) -> Result<InputLine, ReadFault>
    ensures line { IfOk result (λ line. TakesLine (S.left source.old) (S.left source.new) pending.old.items pending.new.items line.bytes.items) }
    ensures one { IfOk result (λ line. IsLine line.bytes.items line.ended) }
    ensures last { IfOk result (λ line. line.ended ≡ false → pending.new.items ≡ []) }
    ensures end { IfOk result (λ line. line.ended ≡ false → IsAtEnd (S.left source.new)) }
    ensures taken { OnErr result (TakesSome (S.left source.old) (S.left source.new)) }
    ensures failed { IsErrOf result ReadFault.Failed → Rose (S.faults source.old) (S.faults source.new) }
    ensures too_big { IsErrOf result ReadFault.TooBig → TakesLongLine (S.left source.old) (S.left source.new) pending.old.items most }
    ensures later { S.faults source.old ≤ S.faults source.new }
{
    'pieces: loop {
        if let Some(at) = line_feed(pending.as_slice()) {
            let bytes = cut_line(alloc, pending, at)?;
            return Ok(InputLine { bytes, ended: true });
        }
        if pending.len() > most {
            return Err(ReadFault::TooBig);
        }
        let count = read_piece(source, pending, PIECE)?;
        if count == 0 {
            let bytes = replace(pending, Vec::new(alloc));
            return Ok(InputLine {
                bytes,
                ended: false,
            });
        }
    }
}

/// The place of the first line feed.
fn line_feed(bytes: &[u8]) -> Option<usize>
    ensures first { result ≡ position (λ b. b == 10) bytes.now }
    ensures within { IfSome result (λ at. at < length bytes.now) }
{
    bytes.iter().position(|byte| *byte == b'\n')
}

/// The bytes up to the first line feed, which is at this place, and with it. They leave `pending`.
#[tactic(auto, using(crate::proofs::Feeds::line_to))]
fn cut_line(alloc: Global, pending: &mut Vec<u8>, at: usize) -> Result<Vec<u8>, ReadFault>
    requires first { position (λ b. b == 10) pending.old.items ≡ Some at }
    requires within { at < vec_len pending.old }
    ensures cut { IfOk result (λ line. pending.old.items ≡ line.items ++ pending.new.items) }
    ensures one { IfOk result (λ line. IsLine line.items true) }
    ensures memory { IfErr result (λ fault. fault ≡ ReadFault.NoMemory) }
{
    let mut line = Vec::new(alloc);
    if line.extend_from_slice(&pending[..at + 1]).is_err() {
        return Err(ReadFault::NoMemory);
    }
    drop(pending.drain(..at + 1));
    Ok(line)
}
