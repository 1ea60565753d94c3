//! Calls of a core by session 2, and what stands in its history then.
use rv_core::Core;
use rv_io::MemSink;
use rv_judge::Uncounted;
use rv_lang::Reply;
use rv_model::Entry;
use rv_reader::{Reader, Store};
use rv_script::write_text;
use rv_value::NoMemory;
use std::alloc::Global;

/// A query for its first rows over a table of the numbers below a count, and its calls: FETCH, then STEP, then FETCH again.
#[derive(Clone, Copy)]
pub struct Reading {
    pub count: u32,
    pub open: &'static str,
    pub before: u32,
    pub step: &'static str,
    pub after: u32,
}

/// More than a third of 80 numbers.
pub const THIRD: Reading = Reading {
    count: 80,
    open: "OPEN C SELECT * FROM T WHERE A BETWEEN 10 AND 40 OPTIMIZE FOR FAST FIRST",
    before: 4,
    step: "STEP C 5",
    after: 28,
};

/// What a test ends with where no memory was found.
pub const NO_MEMORY: &str = "no memory";

/// What is left goes, with all that it holds. A function of any type calls its drop, and sees none of its parts: a core has so
/// many that what their cases cost is minutes of the prover.
pub fn leave<T: Drop>(_left: T) {}

/// Makes a call, and once more where it found no memory; how often it was made again. A text that is too long is left out.
pub fn make<S: Store + Reader<Ledger = Uncounted> + Drop>(
    core: &mut Core<S>,
    text: &str,
) -> Result<u32, NoMemory> {
    if text.len() > 4096 {
        return Ok(0);
    }
    if core.call(2, text).is_ok() {
        return Ok(0);
    }
    let _reply = core.call(2, text)?;
    Ok(1)
}

/// Makes calls one after another; how many were made again.
pub fn make_all<S: Store + Reader<Ledger = Uncounted> + Drop>(
    core: &mut Core<S>,
    texts: &[&str],
) -> Result<u32, NoMemory> {
    let mut again = 0u32;
    for text in texts {
        again = again.saturating_add(make(core, *text)?);
    }
    Ok(again)
}

/// Makes one call so many times.
pub fn make_often<S: Store + Reader<Ledger = Uncounted> + Drop>(
    core: &mut Core<S>,
    text: &str,
    times: u32,
) -> Result<u32, NoMemory> {
    let mut again = 0u32;
    for _time in 0..times {
        again = again.saturating_add(make(core, text)?);
    }
    Ok(again)
}

fn row_text(alloc: Global, number: u32) -> Result<String, NoMemory> {
    Ok(format!(in alloc; "INSERT INTO T VALUES ({number}, 0)")?)
}

/// Makes the table T of the numbers below a count, with an index of them, and begins; how many calls were made again.
pub fn fill<S: Store + Reader<Ledger = Uncounted> + Drop>(
    alloc: Global,
    core: &mut Core<S>,
    count: u32,
) -> Result<u32, NoMemory> {
    let statements = [
        "CREATE TABLE T (A BIGINT, B BIGINT)",
        "CREATE INDEX IA ON T (A)",
        "BEGIN",
    ];
    let mut again = make_all(core, &statements)?;
    for number in 0..count {
        let text = row_text(alloc, number)?;
        again = again.saturating_add(make(core, text.as_str())?);
    }
    let more = make_all(core, &["COMMIT", "BEGIN READ ONLY"])?;
    Ok(again.saturating_add(more))
}

/// Makes a reading's table and calls; how many were made again.
pub fn read<S: Store + Reader<Ledger = Uncounted> + Drop>(
    alloc: Global,
    core: &mut Core<S>,
    reading: Reading,
) -> Result<u32, NoMemory> {
    let filled = fill(alloc, core, reading.count)?;
    let opened = make(core, reading.open)?;
    let before = make_often(core, "FETCH C", reading.before)?;
    let stepped = make(core, reading.step)?;
    let after = make_often(core, "FETCH C", reading.after)?;
    let early = filled.saturating_add(opened).saturating_add(before);
    Ok(early.saturating_add(stepped).saturating_add(after))
}

/// Makes a call; whether it gives a row.
pub fn gives_row<S: Store + Reader<Ledger = Uncounted> + Drop>(
    core: &mut Core<S>,
    text: &str,
) -> Result<bool, NoMemory> {
    make(core, text)?;
    Ok(ends_with_row(core.history()))
}

fn ends_with_row(history: &[Entry]) -> bool {
    match history.last() {
        Some(entry) => matches!(&entry.reply, Reply::Row(_)),
        None => false,
    }
}

/// Whether the last so many entries of a history have these lines in its transcript.
pub fn ends_with(
    alloc: Global,
    history: &[Entry],
    entries: usize,
    lines: &str,
) -> Result<bool, NoMemory> {
    let mut sink = MemSink::new(alloc, 10_000, Vec::new(alloc))?;
    let before = history.len().saturating_sub(entries);
    let written = write_text(&mut sink, &history[before..]).is_ok();
    Ok(written && sink.written() == lines.as_bytes())
}
