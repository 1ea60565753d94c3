//! The generated workload.
ghost use Rattle.std.specs.Prelude.{◌≡◌, ◌*◌, ◌<◌, ◌++◌, ◌∷◌, [], IfOk, OnOk, codes, string_bytes};
ghost use Rattle.rv_gen.specs.Draws.{state_after};
ghost use Rattle.rv_gen.specs.Workload.{IsRunnable, fetches_of, insert_of, insert_text, inserts, line, open_lines, open_of, open_text, openings_of, phase, readers, round, rounds, tables, update_of, update_text, workload, workload_of};

use crate::draws::Draws;
use rv_script::{Line, Phase, Script};
use rv_value::{Items, NoMemory, Text};
use std::alloc::Global;

/// The rows of the table.
const ROWS: u32 = 2_000;

/// How often each reader fetches.
const ROUNDS: u32 = 250;

/// The generated script: session 1 makes a table of 2,000 rows with two indexes; then sessions 2 to 5 fetch in turn from a
/// cursor each, while session 1 updates the table. Equal seeds give equal scripts.
#[tactic(auto, using(crate::proofs::Calls::runnable))]
pub fn generate(alloc: Global, seed: u32) -> Result<Script, NoMemory>
    ensures is { IfOk result (λ script. script ≡ workload_of seed) }
    ensures runnable { IfOk result IsRunnable }
{
    written(alloc, u64::from(seed), ROWS, ROUNDS)
}

/// The workload of so many rows and rounds.
#[tactic(auto, unfolding(crate::specs::Workload::workload))]
fn written(alloc: Global, seed: u64, rows: u32, count: u32) -> Result<Script, NoMemory>
    ensures { IfOk result (λ script. script ≡ workload seed rows count) }
{
    let mut draws = Draws { state: seed };
    let mut phases = Items::new(alloc);
    phases.push(filling(alloc, &mut draws, rows)?)?;
    phases.push(reading(alloc, &mut draws, count)?)?;
    Ok(Script { phases })
}

/// The first phase: the table, its indexes and its rows.
fn filling(alloc: Global, draws: &mut Draws, rows: u32) -> Result<Phase, NoMemory>
    ensures phase { IfOk result (λ first. first ≡ phase (tables ++ inserts draws.old.state rows ++ line 1 (codes "COMMIT") ∷ [])) }
    ensures state { OnOk result (draws.new.state ≡ state_after draws.old.state (3 * rows)) }
{
    let mut lines = Items::new(alloc);
    add_tables(alloc, &mut lines)?;
    add_inserts(alloc, &mut lines, draws, rows)?;
    add(alloc, &mut lines, 1, "COMMIT")?;
    Ok(Phase { judge: None, lines })
}

/// The second phase: the readers' cursors, and the rounds.
fn reading(alloc: Global, draws: &mut Draws, count: u32) -> Result<Phase, NoMemory>
    ensures { IfOk result (λ second. second ≡ phase (openings_of readers draws.old.state ++ rounds (state_after draws.old.state 8) count)) }
{
    let mut lines = Items::new(alloc);
    add_openings(alloc, &mut lines, draws)?;
    add_rounds(alloc, &mut lines, draws, count)?;
    Ok(Phase { judge: None, lines })
}

/// Adds a call.
fn add(alloc: Global, lines: &mut Items<Line>, session: u8, text: &str) -> Result<(), NoMemory>
    ensures { OnOk result (lines.new ≡ lines.old ++ line session text.now ∷ []) }
{
    let text = Text::read(alloc, text)?;
    lines.push(Line { session, text })
}

#[tactic(auto, unfolding(crate::specs::Workload::tables))]
fn add_tables(alloc: Global, lines: &mut Items<Line>) -> Result<(), NoMemory>
    ensures { OnOk result (lines.new ≡ lines.old ++ tables) }
{
    add(
        alloc,
        lines,
        1,
        "CREATE TABLE T (A BIGINT, B BIGINT, C VARCHAR(8))",
    )?;
    add(alloc, lines, 1, "CREATE INDEX IA ON T (A)")?;
    add(alloc, lines, 1, "CREATE INDEX IB ON T (B)")?;
    add(alloc, lines, 1, "BEGIN")?;
    Ok(())
}

fn add_inserts(
    alloc: Global,
    lines: &mut Items<Line>,
    draws: &mut Draws,
    rows: u32,
) -> Result<(), NoMemory>
    ensures lines { OnOk result (lines.new ≡ lines.old ++ inserts draws.old.state rows) }
    ensures state { OnOk result (draws.new.state ≡ state_after draws.old.state (3 * rows)) }
{
    'rows: for _row in 0..rows {
        add_insert(alloc, lines, draws)?;
    }
    Ok(())
}

#[tactic(auto, using(crate::proofs::Goings::draw_on, crate::proofs::Goings::state_on))]
fn add_insert(alloc: Global, lines: &mut Items<Line>, draws: &mut Draws) -> Result<(), NoMemory>
    ensures lines { OnOk result (lines.new ≡ lines.old ++ line 1 (insert_text draws.old.state) ∷ []) }
    ensures state { draws.new.state ≡ state_after draws.old.state 3 }
{
    let a = draws.draw(1000);
    let b = draws.draw(100);
    let c = draws.draw(10);
    let text = insert_of(alloc, a, b, c)?;
    add(alloc, lines, 1, &text)
}

#[tactic(auto, unfolding(crate::specs::Workload::insert_of))]
fn insert_of(alloc: Global, a: u64, b: u64, c: u64) -> Result<String, NoMemory>
    ensures { IfOk result (λ text. string_bytes text ≡ insert_of a b c) }
{
    Ok(format!(in alloc; "INSERT INTO T VALUES ({a}, {b}, 'C{c}')")?)
}

/// Adds the beginning and the cursor of each reader.
fn add_openings(alloc: Global, lines: &mut Items<Line>, draws: &mut Draws) -> Result<(), NoMemory>
    ensures lines { OnOk result (lines.new ≡ lines.old ++ openings_of readers draws.old.state) }
    ensures state { OnOk result (draws.new.state ≡ state_after draws.old.state 8) }
{
    'readers: for session in 2..6u8 {
        add_opening(alloc, lines, draws, session)?;
    }
    Ok(())
}

fn add_opening(
    alloc: Global,
    lines: &mut Items<Line>,
    draws: &mut Draws,
    session: u8,
) -> Result<(), NoMemory>
    ensures lines { OnOk result (lines.new ≡ lines.old ++ open_lines session draws.old.state) }
    ensures state { OnOk result (draws.new.state ≡ state_after draws.old.state 2) }
{
    add(alloc, lines, session, "BEGIN READ ONLY")?;
    add_open(alloc, lines, draws, session)?;
    Ok(())
}

#[tactic(auto, using(crate::proofs::Goings::draw_on, crate::proofs::Goings::state_on))]
fn add_open(
    alloc: Global,
    lines: &mut Items<Line>,
    draws: &mut Draws,
    session: u8,
) -> Result<(), NoMemory>
    ensures lines { OnOk result (lines.new ≡ lines.old ++ line session (open_text session draws.old.state) ∷ []) }
    ensures state { draws.new.state ≡ state_after draws.old.state 2 }
{
    let low = draws.draw(900);
    let above = 1 + draws.draw(100);
    let text = open_of(alloc, session, low, above)?;
    add(alloc, lines, session, &text)
}

#[tactic(auto, unfolding(crate::specs::Workload::open_of))]
fn open_of(alloc: Global, session: u8, low: u64, above: u64) -> Result<String, NoMemory>
    requires { low < 900 }
    ensures { IfOk result (λ text. string_bytes text ≡ open_of session low above) }
{
    let high = low + 99;
    let goal = goal(session);
    Ok(format!(in alloc;
        "OPEN C SELECT A, B FROM T WHERE A BETWEEN {low} AND {high} AND B < {above} OPTIMIZE FOR {goal}"
    )?)
}

#[tactic(auto, unfolding(crate::specs::Workload::goal))]
fn goal(session: u8) -> &'static str
    ensures { result.now ≡ Rattle.rv_gen.specs.Workload.goal session }
{
    if session % 2 == 0 {
        "FAST FIRST"
    } else {
        "TOTAL TIME"
    }
}

fn add_rounds(
    alloc: Global,
    lines: &mut Items<Line>,
    draws: &mut Draws,
    count: u32,
) -> Result<(), NoMemory>
    ensures { OnOk result (lines.new ≡ lines.old ++ rounds draws.old.state count) }
{
    'rounds: for _number in 0..count {
        add_round(alloc, lines, draws)?;
    }
    Ok(())
}

/// Adds a fetch of each reader, and a transaction of the writer.
fn add_round(alloc: Global, lines: &mut Items<Line>, draws: &mut Draws) -> Result<(), NoMemory>
    ensures lines { OnOk result (lines.new ≡ lines.old ++ round draws.old.state) }
    ensures state { OnOk result (draws.new.state ≡ state_after draws.old.state 2) }
{
    add_fetches(alloc, lines)?;
    add(alloc, lines, 1, "BEGIN")?;
    add_update(alloc, lines, draws)?;
    add(alloc, lines, 1, "COMMIT")?;
    Ok(())
}

fn add_fetches(alloc: Global, lines: &mut Items<Line>) -> Result<(), NoMemory>
    ensures { OnOk result (lines.new ≡ lines.old ++ fetches_of readers) }
{
    'readers: for session in 2..6u8 {
        add(alloc, lines, session, "FETCH C")?;
    }
    Ok(())
}

#[tactic(auto, using(crate::proofs::Goings::draw_on, crate::proofs::Goings::state_on))]
fn add_update(alloc: Global, lines: &mut Items<Line>, draws: &mut Draws) -> Result<(), NoMemory>
    ensures lines { OnOk result (lines.new ≡ lines.old ++ line 1 (update_text draws.old.state) ∷ []) }
    ensures state { draws.new.state ≡ state_after draws.old.state 2 }
{
    let a = draws.draw(1000);
    let b = draws.draw(100);
    let text = update_of(alloc, a, b)?;
    add(alloc, lines, 1, &text)
}

#[tactic(auto, unfolding(crate::specs::Workload::update_of))]
fn update_of(alloc: Global, a: u64, b: u64) -> Result<String, NoMemory>
    ensures { IfOk result (λ text. string_bytes text ≡ update_of a b) }
{
    Ok(format!(in alloc; "UPDATE T SET A = {a} WHERE B = {b}")?)
}
