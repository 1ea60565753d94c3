//! Projections, and judges that are asked one question after another.
use rv_judge::{Contrary, Control, Facts, Judge, Patient, Threshold, project};
use skew_judges::{AllRows, Bounded, FirstRows};
use std::io;

/// Of a scan the greatest number of entries, the entries scanned and the keys kept.
const SCANS: [[u64; 3]; 7] = [
    [16, 6, 6],
    [16, 0, 0],
    [17, 0, 0],
    [20, 20, 3],
    [10, 3, 1],
    [u64::MAX, 1, 1],
    [u64::MAX, 1, u64::MAX],
];

/// Writes the projected cost of scans that are under way, where there are not more entries scanned than in all.
pub fn write_projections(rt: &HostRuntime) -> io::Result<()> {
    'scans: for [total, scanned, kept] in SCANS {
        if scanned <= total {
            let cost = project(total, scanned, kept);
            println!(rt; "project {total} {scanned} {kept}: {cost}")?;
        }
    }
    Ok(())
}

/// A question: the control, the scan's position, its entries scanned, its keys kept, its estimate, its leaves read, its
/// projection, the guarantee, and the rows delivered.
type Question = (Control, u32, [u64; 7]);

const ALONE: Control = Control::BackgroundAlone;

const BUILDING: Control = Control::Building;

/// Of a scan that may be dear: 4 * (6 + 100) is below 7 * 61, and not below 7 * 60; a 256 is taken for 384, and 24 leaves.
/// Behind these, of one that may have sunk its share, of lists that may have as many keys as are guaranteed (two by this scan
/// and 13 by members before it), and of a foreground that may fetch too many.
const QUESTIONS: [Question; 49] = [
    (BUILDING, 0, [6, 6, 16, 1, 17, 2, 0]),
    (BUILDING, 0, [6, 6, 16, 1, 19, 20, 0]),
    (BUILDING, 0, [6, 6, 16, 1, 18, 20, 0]),
    (BUILDING, 0, [6, 6, 16, 1, u64::MAX, u64::MAX, 0]),
    (BUILDING, 0, [6, 6, 16, 1, u64::MAX / 2, u64::MAX, 0]),
    (ALONE, 0, [20, 20, 80, 2, 0, 61, 0]),
    (ALONE, 0, [20, 20, 80, 2, 0, 60, 0]),
    (ALONE, 0, [20, 20, 80, 1, 0, 60, 0]),
    (ALONE, 1, [20, 2, 80, 2, 0, 16, 0]),
    (ALONE, 1, [20, 2, 80, 2, 0, 15, 0]),
    (ALONE, 0, [20, 20, 256, 2, 0, 125, 0]),
    (ALONE, 0, [20, 20, 256, 3, 0, 125, 0]),
    (BUILDING, 0, [20, 20, 80, 1, 0, 61, 0]),
    (BUILDING, 0, [20, 20, 80, 1, 0, 60, 0]),
    (BUILDING, 0, [60, 49, 80, 3, 0, 61, 0]),
    (BUILDING, 0, [20, 20, 80, 1, 0, 61, 1]),
    (BUILDING, 1, [20, 2, 80, 1, 0, 61, 0]),
    (BUILDING, 0, [20, 20, 256, 1, 0, 125, 0]),
    (
        ALONE,
        0,
        [u64::MAX, u64::MAX, u64::MAX, u64::MAX, 0, u64::MAX, 0],
    ),
    (ALONE, 0, [1, 0, 17, 3, 1, 16, 0]),
    (ALONE, 0, [1, 0, 17, 3, 1, 17, 0]),
    (ALONE, 1, [1, 0, 17, 9, 1, 16, 0]),
    (ALONE, 1, [1, 0, 17, 9, 1, 17, 0]),
    (ALONE, 2, [1, 0, 17, 5, 1, 16, 0]),
    (ALONE, 2, [1, 0, 17, 5, 1, 17, 0]),
    (ALONE, 3, [1, 0, 17, 2, 1, 16, 0]),
    (ALONE, 3, [1, 0, 17, 2, 1, 17, 0]),
    (ALONE, 9, [1, 0, 17, 2, 1, 1024, 0]),
    (ALONE, 9, [1, 0, 17, 2, 1, 1025, 0]),
    (ALONE, 62, [1, 0, 17, 2, 1, 1 << 63, 0]),
    (ALONE, 62, [1, 0, 17, 2, 1, (1 << 63) + 1, 0]),
    (ALONE, 63, [1, 0, 17, 2, 1, u64::MAX, 0]),
    (ALONE, 1000, [1, 0, 17, 1, 1, u64::MAX, 0]),
    (ALONE, 1000, [1, 0, 17, u64::MAX, 1, u64::MAX, 0]),
    (ALONE, 0, [1, 0, 17, 1, 1, 0, 0]),
    (ALONE, 0, [20, 15, 80, 1, 64, 15, 0]),
    (ALONE, 0, [20, 15, 80, 1, 64, 16, 0]),
    (ALONE, 3, [20, 2, 80, 1, 25, 15, 0]),
    (ALONE, 3, [20, 2, 80, 1, 25, 16, 0]),
    (ALONE, 1, [1, 0, 17, 1, u64::MAX, u64::MAX, 0]),
    (ALONE, 1, [1, 0, 17, 1, u64::MAX - 1, u64::MAX, 0]),
    (BUILDING, 0, [20, 2, 80, 1, 12, 16, 0]),
    (BUILDING, 0, [20, 2, 80, 1, 12, 17, 0]),
    (BUILDING, 3, [20, 2, 80, 1, 12, 128, 0]),
    (BUILDING, 3, [20, 2, 80, 1, 12, 129, 0]),
    (ALONE, 3, [20, 2, 80, 1, 12, 128, 0]),
    (BUILDING, 1000, [1, 0, 17, 1, 1, 5, 0]),
    (BUILDING, 1000, [20, 1, 80, 1, 8, u64::MAX, 0]),
    (BUILDING, 0, [1, u64::MAX, 17, 1, u64::MAX, u64::MAX, 0]),
];

fn facts_of(question: Question) -> Facts {
    let (control, scan, numbers) = question;
    Facts {
        control,
        scan,
        scanned: numbers[0],
        kept: numbers[1],
        estimate: numbers[2],
        spent: numbers[3],
        projected: numbers[4],
        guaranteed: numbers[5],
        delivered: numbers[6],
    }
}

/// Asks a judge the questions, one after another.
fn write_judge<J: Judge>(rt: &HostRuntime, name: &str, judge: &mut J) -> io::Result<()> {
    'questions: for question in &QUESTIONS {
        let facts = facts_of(*question);
        let verdict = judge.rule(&facts);
        println!(rt; "{name}, {facts:?}: {verdict:?}")?;
    }
    Ok(())
}

/// Writes what follows each happening, for every strategy and control.
pub fn write_all(rt: &HostRuntime) -> io::Result<()> {
    write_judge(rt, "threshold", &mut Threshold::new())?;
    write_judge(rt, "patient", &mut Patient::new())?;
    write_judge(rt, "contrary", &mut Contrary::new())?;
    write_judge(rt, "all rows", &mut AllRows::new())?;
    write_judge(rt, "first rows", &mut FirstRows::new())?;
    write_judge(rt, "bounded patient", &mut Bounded::new(Patient::new()))?;
    write_judge(rt, "bounded contrary", &mut Bounded::new(Contrary::new()))?;
    write_judge(rt, "bounded all rows", &mut Bounded::new(AllRows::new()))
}
