//! Laws of what an audit says, each the contract of a function that does nothing, or that only goes through what it is given,
//! for what its types tell.
ghost use Rattle.rv_audit.specs.Auditing.{SaysOnce};
ghost use Rattle.rv_audit.specs.Runs.{RunIsLegal, RunIsTold, RunsAreLegal, RunsAreTold};

use crate::holding::replies_are_held;
use rv_model::Entry;
use rv_model::laws::text_tells;

/// A law: of an input no two answers are said.
pub fn says_once()
    ensures { SaysOnce }
{
    text_tells();
}

/// A law: what a run writes with status 0 is legal to its script, where the script's last line has its end. The history is
/// the run's, as its core holds it.
pub fn run_is_legal(history: &[Entry])
    ensures { RunIsLegal history.now }
{
    runs_are_legal();
    replies_are_held(history);
}

/// A law: such a script and transcript tell the history of the run, with its phases.
pub fn run_is_told(one: &[Entry], other: &[Entry])
    ensures { RunIsTold one.now other.now }
{
    runs_are_told();
    replies_are_held(one);
    replies_are_held(other);
}

/// A law: the first of these of every history whose replies a program can hold.
pub fn runs_are_legal()
    ensures { RunsAreLegal }
{}

/// A law: the second of these of all histories whose replies a program can hold.
pub fn runs_are_told()
    ensures { RunsAreTold }
{
    text_tells();
}
