//! The course at every strategy, control and happening.
use rv_judge::{Control, Happening, Strategy, Verdict, course};
use std::io;

const STRATEGIES: [Strategy; 6] = [
    Strategy::Table,
    Strategy::BackgroundOnly,
    Strategy::FastFirst,
    Strategy::Sorted,
    Strategy::IndexOnly,
    Strategy::Union,
];

const CONTROLS: [Control; 6] = [
    Control::Building,
    Control::ForegroundAlone,
    Control::BackgroundAlone,
    Control::FinalList,
    Control::FinalTable,
    Control::Done,
];

const VERDICTS: [Verdict; 4] = [
    Verdict::Continue,
    Verdict::AbandonScan,
    Verdict::AbandonForeground,
    Verdict::AbandonBackground,
];

fn write(
    rt: &HostRuntime,
    strategy: Strategy,
    now: Control,
    happening: Happening,
) -> io::Result<()> {
    let next = course(strategy, now, happening);
    println!(rt; "{strategy:?} {now:?} {happening:?}: {next:?}")
}

/// What happens to a scan, with more scans to come or none and with a complete list or none.
fn write_scan(
    rt: &HostRuntime,
    strategy: Strategy,
    now: Control,
    more: bool,
    listed: bool,
) -> io::Result<()> {
    write(rt, strategy, now, Happening::ScanEnded { more, listed })?;
    'verdicts: for verdict in VERDICTS {
        let ruled = Happening::Ruled {
            verdict,
            more,
            listed,
        };
        write(rt, strategy, now, ruled)?;
    }
    Ok(())
}

/// Everything that happens at a control.
fn write_control(rt: &HostRuntime, strategy: Strategy, now: Control) -> io::Result<()> {
    write(rt, strategy, now, Happening::Full)?;
    write(rt, strategy, now, Happening::FrontEnded)?;
    write(rt, strategy, now, Happening::FinalEnded)?;
    write_scan(rt, strategy, now, false, false)?;
    write_scan(rt, strategy, now, false, true)?;
    write_scan(rt, strategy, now, true, false)?;
    write_scan(rt, strategy, now, true, true)
}

/// Writes what follows each happening, for every strategy and control.
pub fn write_all(rt: &HostRuntime) -> io::Result<()> {
    'strategies: for strategy in STRATEGIES {
        'controls: for now in CONTROLS {
            write_control(rt, strategy, now)?;
        }
    }
    Ok(())
}
