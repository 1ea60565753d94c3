//! A run over memory that the caller owns.
ghost use Rattle.std.specs.Prelude.{◌≡◌, ◌++◌, IfOk, drop, length, min, take};
ghost use Rattle.rv_run.specs.Words.{status_words};
ghost use Rattle.rvdyn_c.specs.Running.{Ends, Runs, told_of};

use crate::memory::Lent;
use rv_io::GrowingSink;
use rv_judge::{Contrary, Judge, Patient, Threshold};
use rv_lending::let_go;
use rv_run::{Status, run_plain};
use rv_store::Paged;
use rv_value::NoMemory;
use std::alloc::Global;

/// Runs a script as the program does without words, and answers its exit code. As much of the transcript as fits is put into the
/// front of `out`, and `written` becomes the length of all of it; of a script that has a fault or passes a limit what the program
/// says on standard error stands for it. What is in `out` behind that stays.
#[unsafe(no_mangle)]
pub extern "C" fn rvdyn_run(
    alloc: Global,
    script: &[u8],
    out: &mut [u8],
    written: &mut usize,
) -> u32
    ensures { Runs script.now out.old out.new written.new result }
{
    let Ended { status, bytes } = run_bytes(alloc, script);
    let words = status.words();
    let told = told_text(&status, words.as_str(), bytes.as_slice());
    *written = told.len();
    copy_front(out, told);
    u32::from(status.code())
}

/// How a run ended, and what it wrote.
#[derive(Drop)]
struct Ended {
    status: Status,
    bytes: Vec<u8>,
}

/// What is told of a run: the words for a fault of its script or a limit that it passes, else what was written.
fn told_text<'a>(status: &Status, words: &'a str, written: &'a [u8]) -> &'a [u8]
    requires { words.now ≡ status_words status.now }
    ensures { result.now ≡ told_of status.now written.now }
{
    match status {
        Status::Script(_) | Status::Limit(_) => words.as_bytes(),
        _ => written,
    }
}

/// Copies as many bytes as both have, and answers how many. What is behind them stays.
fn copy_front(out: &mut [u8], bytes: &[u8]) -> usize
    ensures count { result ≡ min (length bytes.now) (length out.old) }
    ensures copied { out.new ≡ take result bytes.now ++ drop result out.old }
{
    let count = bytes.len().min(out.len());
    out[..count].copy_from_slice(&bytes[..count]);
    count
}

/// How the run of a script ends, and what it writes.
fn run_bytes(alloc: Global, script: &[u8]) -> Ended
    ensures { Ends result.status script.now (told_of result.status result.bytes.items) }
{
    match run_script(alloc, script) {
        Ok(ended) => ended,
        Err(NoMemory) => Ended {
            status: Status::Memory,
            bytes: Vec::new(alloc),
        },
    }
}

/// Runs a script as the command line without words does. `NoMemory` where none was there to begin with.
fn run_script(alloc: Global, script: &[u8]) -> Result<Ended, NoMemory>
    ensures { IfOk result (λ ended. Ends ended.status script.now (told_of ended.status ended.bytes.items)) }
{
    let mut judges: Vec<Box<dyn Judge>> = Vec::new(alloc);
    judges.push(Box::new(alloc, Threshold::new())?)?;
    judges.push(Box::new(alloc, Patient::new())?)?;
    judges.push(Box::new(alloc, Contrary::new())?)?;
    let store = Paged::new(alloc)?;
    let mut source = Lent::new(script);
    let mut sink = GrowingSink::new(alloc);
    let ran = run_plain(alloc, store, &[], &mut source, &mut sink, judges);
    let_go(ran.core);
    Ok(Ended {
        status: ran.status,
        bytes: sink.into_bytes(),
    })
}
