//! Entries against the calls of a script: each session's calls in their order, phase by phase.
ghost use Rattle.std.specs.Prelude.{◌≡◌, ◌<◌, ◌≤◌, IfOk, length, slice_get};
ghost use Rattle.std.specs.Option.{option_copied};
ghost use Rattle.rv_model.specs.Transcript.{SameButPhase};
ghost use Rattle.rv_audit.specs.Places.{AreSessions, EndsAt, FollowsSo, Stands, StartsAt, Takes, lower_of};

use crate::calls::{Call, call_at, calls_of, next_of, wait};
use rv_model::Entry;
use rv_script::Phase;
use rv_value::NoMemory;
use std::alloc::Global;

/// How entries follow a script.
#[derive(Clone, Copy, PartialEq, Eq)]
pub enum End {
    /// Every call has its entry.
    Whole,
    /// Calls are left: the first of the lowest phase, and in it of the lowest session.
    Missing { session: u8, phase: u32 },
    /// The next entry is no next call.
    Bad,
}

/// The entries that follow a script, with the phases of their calls, and how it goes on.
#[derive(Drop)]
pub struct Followed {
    pub entries: Vec<Entry>,
    pub end: End,
}

/// The places of the sessions' first calls.
fn first_places(calls: &[Call]) -> [usize; 8]
    ensures stands { Stands calls.now result }
    ensures first { StartsAt calls.now result }
{
    [
        next_of(calls, 0, 1),
        next_of(calls, 0, 2),
        next_of(calls, 0, 3),
        next_of(calls, 0, 4),
        next_of(calls, 0, 5),
        next_of(calls, 0, 6),
        next_of(calls, 0, 7),
        next_of(calls, 0, 8),
    ]
}

/// Makes a session's next call, where it has this text and no session has one of an earlier phase to make; its phase.
fn take(calls: &[Call], places: &mut [usize], session: u8, text: &str) -> Option<u32>
    requires stands { Stands calls.now places.old }
    requires from { 1 ≤ session }
    requires to { session ≤ 8 }
    ensures { Takes calls.now places.old session text.now result places.new }
{
    let place = usize::from(session) - 1;
    let at = places[place];
    match call_at(calls, at) {
        Some(call) => {
            if !call.text.is(text) {
                return None;
            }
            if !wait(calls, places, call.phase) {
                return None;
            }
            places[place] = next_of(calls, at + 1, session);
            Some(call.phase)
        }
        None => None,
    }
}

/// A call that is left.
#[derive(Clone, Copy)]
pub(crate) struct Left {
    pub session: u8,
    pub phase: u32,
}

/// The lower one of a call that is left and a session's next call.
fn lower(lowest: Option<Left>, session: u8, call: Option<&Call>) -> Option<Left>
    ensures { result ≡ lower_of lowest session (option_copied call.entry) }
{
    match call {
        Some(call) => match lowest {
            Some(left) => {
                if call.phase < left.phase {
                    Some(Left {
                        session,
                        phase: call.phase,
                    })
                } else {
                    lowest
                }
            }
            None => Some(Left {
                session,
                phase: call.phase,
            }),
        },
        None => lowest,
    }
}

/// What is left: the call of the lowest phase, and in it of the lowest session.
fn end_at(calls: &[Call], places: &[usize]) -> End
    requires { length places.now ≡ 8 }
    ensures { EndsAt calls.now places.now result }
{
    let mut lowest = None;
    let mut session = 0u8;
    'sessions: for at in places {
        session += 1;
        lowest = lower(lowest, session, call_at(calls, *at));
    }
    match lowest {
        Some(left) => End::Missing {
            session: left.session,
            phase: left.phase,
        },
        None => End::Whole,
    }
}

/// An entry in a phase.
fn in_phase(entry: Entry, phase: u32) -> Entry
    ensures same { SameButPhase entry result }
    ensures phase { result.phase ≡ phase }
{
    let Entry {
        session,
        phase: _,
        text,
        reply,
    } = entry;
    Entry {
        session,
        phase,
        text,
        reply,
    }
}

/// How entries, whose sessions are 1 to 8, follow a script.
pub fn follow(alloc: Global, phases: &[Phase], entries: Vec<Entry>) -> Result<Followed, NoMemory>
    requires few { length phases.now < 4294967295 }
    requires sessions { AreSessions entries.items }
    ensures { IfOk result (FollowsSo phases.now entries.items) }
{
    let calls = calls_of(alloc, phases)?;
    let mut places = first_places(&calls);
    let mut followed = Vec::new(alloc);
    'entries: for entry in entries {
        match take(&calls, &mut places, entry.session, entry.text.as_str()) {
            Some(phase) => {
                followed.push(in_phase(entry, phase))?;
                continue;
            }
            None => {
                drop(entry);
                return Ok(Followed {
                    entries: followed,
                    end: End::Bad,
                });
            }
        }
    }
    Ok(Followed {
        entries: followed,
        end: end_at(&calls, &places),
    })
}
