//! The top call with threads: a worker has its piece while a session is between two calls, and the session is answered while
//! the worker has it.
ghost use Rattle.std.specs.Prelude.{◌≡◌};

use crate::calls::{NO_MEMORY, leave};
use rv_io::{MemSink, MemSource, Sink};
use rv_judge::{Contrary, Judge, Patient, Threshold, Uncounted};
use rv_reader::{Reader, Store};
use rv_run::{Ran, Status, run};
use rv_shared::{Gate, Place};
use rv_store::Paged;
use rv_value::{NoMemory, Text};
use std::alloc::Global;
use std::sync::Wait;
use std::sync::atomic::{AtomicU64, Ordering};
use std::test::Fail;
use std::thread;
use std::thread::Threads;

/// The most looks of a thread that a gate holds.
const LOOKS: u32 = 10_000_000;

/// How many rows the table has.
const ROWS: u32 = 1100;

/// A gate that holds session 2 behind its OPEN until a worker has a piece, and that worker until the next answer of the
/// session. So each waits for the other, outside the turns.
#[derive(Drop)]
struct Crossing {
    answered: AtomicU64,
    cut: AtomicU64,
    failed: AtomicU64,
}

impl Crossing {
    fn new() -> Crossing {
        Crossing {
            answered: AtomicU64::new(0),
            cut: AtomicU64::new(0),
            failed: AtomicU64::new(0),
        }
    }
}

/// Waits until a count is reached; whether that came within so many looks.
fn reached(count: &AtomicU64, least: u64) -> bool {
    for _look in 0..LOOKS {
        if count.load(Ordering::SeqCst) >= least {
            return true;
        }
        thread::yield_now();
    }
    false
}

impl Gate for Crossing {
    fn at(&self, place: Place) {
        let passed = match place {
            Place::Answered(2) => {
                self.answered.fetch_add(1, Ordering::SeqCst) != 1 || reached(&self.cut, 1)
            }
            Place::Answered(_session) => true,
            Place::Cut => {
                self.cut.fetch_add(1, Ordering::SeqCst) != 0 || reached(&self.answered, 3)
            }
        };
        if !passed {
            self.failed.fetch_add(1, Ordering::SeqCst);
        }
    }
}

/// The words of a line, cut at its spaces.
fn cut(alloc: Global, line: &str) -> Result<Vec<Text>, NoMemory> {
    let mut words = Vec::new(alloc);
    for word in line.split(' ') {
        words.push(Text::read(alloc, word)?)?;
    }
    Ok(words)
}

/// The status of a run over a store, by the words of a line and under the supplied judges.
fn run_over<
    R: Threads + Wait + Sync,
    P: Store + Reader<Ledger = Uncounted> + Send + Drop,
    G: Gate + Sync,
>(
    rt: &R,
    alloc: Global,
    store: P,
    line: &str,
    source: &mut MemSource,
    sink: &mut MemSink,
    gate: &G,
) -> Result<Status, NoMemory>
    requires tables { (P.shown store).tables ≡ 0 }
    requires newest { (P.shown store).newest ≡ 0 }
{
    let words = cut(alloc, line)?;
    let mut judges: Vec<Box<dyn Judge>> = Vec::new(alloc);
    judges.push(Box::new(alloc, Threshold::new())?)?;
    judges.push(Box::new(alloc, Patient::new())?)?;
    judges.push(Box::new(alloc, Contrary::new())?)?;
    let Ran { status, core } = run(
        rt,
        alloc,
        store,
        words.as_slice(),
        source,
        sink,
        judges,
        gate,
    );
    leave(core);
    Ok(status)
}

/// Session 1 makes an indexed table; in the next phase session 2 opens a cursor over all of it and fetches to the end.
fn script(alloc: Global) -> Result<String, NoMemory> {
    let mut script = String::new(alloc);
    script.push_str("1 CREATE TABLE T (A BIGINT, B BIGINT)\n")?;
    script.push_str("1 CREATE INDEX IA ON T (A)\n1 BEGIN\n")?;
    for row in 0..ROWS {
        let line = format!(in alloc; "1 INSERT INTO T VALUES ({row}, 0)\n")?;
        script.push_str(&line)?;
    }
    script.push_str("1 COMMIT\n--\n2 BEGIN READ ONLY\n")?;
    script.push_str("2 OPEN C SELECT * FROM T WHERE A >= 0 OPTIMIZE FOR FAST FIRST\n")?;
    for _row in 0..=ROWS {
        script.push_str("2 FETCH C\n")?;
    }
    Ok(script)
}

/// The bytes that a run of the script writes, and its status.
fn told<R: Threads + Wait + Sync, G: Gate + Sync>(
    rt: &R,
    alloc: Global,
    line: &str,
    gate: &G,
) -> Result<(Status, Vec<u8>), NoMemory> {
    let script = script(alloc)?;
    let bytes = Vec::from_slice(alloc, script.as_str().as_bytes())?;
    let mut source = MemSource::new(bytes, Vec::new(alloc));
    let mut sink = MemSink::new(alloc, 400_000, Vec::new(alloc))?;
    let status = run_over(
        rt,
        alloc,
        Paged::new(alloc)?,
        line,
        &mut source,
        &mut sink,
        gate,
    )?;
    Ok((status, Vec::from_slice(alloc, sink.written())?))
}

/// The first column of the row that a line gives.
fn row_of(line: &str) -> Option<u32> {
    if !line.starts_with("= row ") {
        return None;
    }
    let mut number = 0u32;
    for byte in line.as_bytes().iter().skip(6) {
        if !byte.is_ascii_digit() {
            return Some(number);
        }
        number = number % 100_000 * 10 + u32::from(*byte % 16);
    }
    Some(number)
}

/// Whether each row was given once, and then the end.
fn has_all_rows(alloc: Global, transcript: &[u8]) -> Result<bool, NoMemory> {
    let mut given = Vec::new(alloc);
    for _row in 0..ROWS {
        given.push(false)?;
    }
    let mut ended = false;
    for line in str::from_utf8(transcript).unwrap_or("").lines() {
        if let Some(row) = row_of(line) {
            match given.get_mut(row as usize) {
                Some(mark) if !*mark && !ended => *mark = true,
                _ => return Ok(false),
            }
        }
        ended = ended || line == "= end";
    }
    Ok(ended && given.iter().all(|mark| *mark))
}

#[test]
fn a_piece_is_worked_on_while_a_session_is_answered(rt: HostRuntime) -> Result<(), Fail> {
    let alloc: Global = rt.alloc();
    let gate = Crossing::new();
    let (status, written) = told(
        &rt,
        alloc,
        "--threads --workers 1 --judge 1 --steps 0",
        &gate,
    )
    .or(Err(NO_MEMORY))?;
    assert_eq!(rt; status, Status::Done);
    assert_eq!(rt; gate.failed.load(Ordering::SeqCst), 0);
    assert!(rt; has_all_rows(alloc, written.as_slice()).or(Err(NO_MEMORY))?);
    Ok(())
}
