//! Laws of what the program that audits says of a run, each the contract of a function that only goes through what it is
//! given, for what its types tell.
ghost use Rattle.rv_auditrun.specs.Runs.{RunIsJudgedLegal};

use rv_audit::laws::{run_is_legal, says_once};
use rv_core::Core;
use rv_judge::Uncounted;
use rv_model::Entry;
use rv_reader::{Reader, Store};

/// A law: of a script, a mark and what a run wrote of the script with status 0 the verdict of `audit_run` is `Legal`, where
/// the script's last line has its end and the input is not too long. The core is the one that `run` or `run_plain` gives
/// back; what is asked of the run is what their clause `done` says of it.
pub fn run_is_judged_legal<P: Store + Reader<Ledger = Uncounted> + Drop>(core: &Core<P>)
    ensures { RunIsJudgedLegal core.now.engine.history }
{
    history_is_judged_legal(core.history());
}

/// The same of the entries of a run's history.
pub fn history_is_judged_legal(history: &[Entry])
    ensures { RunIsJudgedLegal history.now }
{
    says_once();
    run_is_legal(history);
}
