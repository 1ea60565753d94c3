//! Whether the events of a trace are those of some run of the course: they are read, from the first on.
ghost use Rattle.std.specs.Prelude.{◌≡◌, ◌↔◌, [], ◌∷◌, if◌then◌else◌, is_some, false, IsTrue};
ghost use Rattle.std.specs.List.{list_all, list_any};
ghost use Rattle.rv_judge.specs.Course.{next_control};
ghost use Rattle.rv_judge.specs.Runs.{Allowed, first_control, scans};
ghost use Rattle.rv_decide.specs.Course.{are_apart, begins_scan, ends_at, ends_by, ends_in, goes_on, is_known, is_last, is_over, is_read, is_scan, is_scanning, leads, leads_to, listed_by, may_begin, may_come_after, may_follow, may_narrow, passed, place_at, reads, reads_all, reads_at, reads_by, reads_scans, reads_tail, reads_union, same_control};
ghost use Rattle.rv_decide.specs.Told.{trace_of};

use rv_judge::{Control, Event, Happening, Strategy, Verdict, course};

/// Where the reading stands.
#[derive(Clone, Copy)]
pub struct Place {
    control: Control,
    /// The index whose scan is under way.
    scan: Option<u32>,
    /// The length of the complete list.
    listed: Option<u64>,
    /// What the scan, the buffer or the foreground came to, where the event to which it led is still to come.
    own: Option<Event>,
}

/// Whether the course of a retrieval allows a trace of these events for these indexes: whether some run, whose scans are
/// of these indexes and begin at most once each, leaves the events. It looks at each event once for each scan that begins.
pub fn is_allowed(strategy: Strategy, events: &[Event], indexes: &[u32]) -> bool
    ensures { IsTrue result ↔ Allowed (trace_of strategy events.now) indexes.now }
{
    is_read(strategy, events, indexes)
}

/// Whether the events are those of some run, or of a union, whose scans are of these indexes and begin at most once each.
fn is_read(strategy: Strategy, events: &[Event], indexes: &[u32]) -> bool
    ensures { result ≡ is_read strategy events.now indexes.now }
{
    are_known(events, indexes) && are_apart(events) && reads_by(strategy, events)
}

/// Whether no scan begins but of these indexes.
fn are_known(events: &[Event], indexes: &[u32]) -> bool
    ensures { result ≡ list_all (is_known indexes.now) events.now }
{
    events.iter().all(|event| is_known(event, indexes))
}

fn is_known(event: &Event, indexes: &[u32]) -> bool
    ensures { result ≡ is_known indexes.now event.now }
{
    match event {
        Event::Scan(index) => has_index(*index, indexes),
        _ => true,
    }
}

fn has_index(index: u32, indexes: &[u32]) -> bool
    ensures { result ≡ Rattle.rv_judge.specs.Runs.has_index index indexes.now }
{
    indexes.iter().any(|known| *known == index)
}

/// Whether no scan begins twice.
fn are_apart(events: &[Event]) -> bool
    ensures { result ≡ are_apart events.now }
{
    match events {
        [] => true,
        [event, rest @ ..] => is_last(event, rest) && are_apart(rest),
    }
}

fn is_last(event: &Event, rest: &[Event]) -> bool
    ensures { result ≡ is_last event.now rest.now }
{
    match event {
        Event::Scan(index) => !begin_scan(rest, *index),
        _ => true,
    }
}

fn begin_scan(events: &[Event], index: u32) -> bool
    ensures { result ≡ list_any (begins_scan index) events.now }
{
    events.iter().any(|event| begins_scan(event, index))
}

fn begins_scan(event: &Event, index: u32) -> bool
    ensures { result ≡ begins_scan index event.now }
{
    match event {
        Event::Scan(begun) => *begun == index,
        _ => false,
    }
}

/// Whether the events are those of some run, or of a union, whatever indexes the scans are of.
fn reads_by(strategy: Strategy, events: &[Event]) -> bool
    ensures { result ≡ reads_by strategy events.now }
{
    match strategy {
        Strategy::Table => reads_all(Strategy::Table, events),
        Strategy::BackgroundOnly => reads_all(Strategy::BackgroundOnly, events),
        Strategy::FastFirst => reads_all(Strategy::FastFirst, events),
        Strategy::Sorted => reads_all(Strategy::Sorted, events),
        Strategy::IndexOnly => reads_all(Strategy::IndexOnly, events),
        Strategy::Union => reads_union(events),
    }
}

/// Whether the events are those of some run, whatever indexes its scans are of.
fn reads_all(strategy: Strategy, events: &[Event]) -> bool
    ensures { result ≡ reads_all strategy events.now }
{
    match events {
        [Event::At(control), rest @ ..] => reads_at(strategy, *control, rest),
        _ => false,
    }
}

/// The first scan begins with the first control, or there is none.
fn reads_at(strategy: Strategy, control: Control, events: &[Event]) -> bool
    ensures { result ≡ reads_at strategy control events.now }
{
    match events {
        [Event::Scan(index), rest @ ..] => {
            same_control(control, first_control(strategy, true))
                && scans(control)
                && reads(strategy, place_at(control, Some(*index)), rest)
        }
        _ => {
            same_control(control, first_control(strategy, false))
                && !scans(control)
                && reads(strategy, place_at(control, None), events)
        }
    }
}

/// The first control, where a scan begins with it and where none does.
fn first_control(strategy: Strategy, begins: bool) -> Control
    ensures { result ≡ first_control strategy (if begins then 0 ∷ [] else []) }
{
    match strategy {
        Strategy::Table => Control::FinalTable,
        Strategy::BackgroundOnly | Strategy::Union => Control::BackgroundAlone,
        Strategy::FastFirst => Control::Building,
        Strategy::Sorted | Strategy::IndexOnly => {
            if begins {
                Control::Building
            } else {
                Control::ForegroundAlone
            }
        }
    }
}

/// Whether the background runs at a control.
fn scans(control: Control) -> bool
    ensures { result ≡ scans control }
{
    matches!(control, Control::Building | Control::BackgroundAlone)
}

fn same_control(a: Control, b: Control) -> bool
    ensures { result ≡ same_control a b }
{
    a == b
}

fn place_at(control: Control, scan: Option<u32>) -> Place
    ensures { result ≡ place_at control scan }
{
    Place {
        control,
        scan,
        listed: None,
        own: None,
    }
}

/// Whether the events may come from here on, and tell to what each thing led.
fn reads(strategy: Strategy, place: Place, events: &[Event]) -> bool
    ensures { result ≡ reads strategy place events.now }
{
    match events {
        [] => place.own.is_none(),
        [event, rest @ ..] => {
            may_come(strategy, place, *event) && reads(strategy, passed(place, *event), rest)
        }
    }
}

fn may_come(strategy: Strategy, place: Place, event: Event) -> bool
    ensures { result ≡ may_come_after place.own strategy place event }
{
    match place.own {
        None => may_begin(strategy, place, event),
        Some(own) => may_follow(strategy, place, own, event),
    }
}

/// Whether an event may come where nothing is still to be told.
fn may_begin(strategy: Strategy, place: Place, event: Event) -> bool
    ensures { result ≡ may_begin strategy place event }
{
    match event {
        Event::At(to) => ends_at(strategy, place, to),
        Event::Scan(_) => false,
        Event::List(..) | Event::Drop(_) | Event::Full | Event::Stop => true,
    }
}

/// Whether an event may come where it is still to be told to what another one led.
fn may_follow(strategy: Strategy, place: Place, own: Event, event: Event) -> bool
    ensures { result ≡ may_follow strategy place own event }
{
    match event {
        Event::At(to) => leads_to(strategy, place, own, to),
        Event::Scan(_) => goes_on(place, own),
        Event::List(..) | Event::Drop(_) | Event::Full | Event::Stop => false,
    }
}

/// Whether the side that delivers may be at its end.
fn ends_at(strategy: Strategy, place: Place, to: Control) -> bool
    ensures { result ≡ ends_at strategy place to }
{
    leads(strategy, place.control, Happening::FrontEnded, to)
        || leads(strategy, place.control, Happening::FinalEnded, to)
}

/// Whether what the scan, the buffer or the foreground came to leads to a control.
fn leads_to(strategy: Strategy, place: Place, own: Event, to: Control) -> bool
    ensures { result ≡ leads_to strategy place own to }
{
    match own {
        Event::List(index, _) => {
            is_scanning(place.scan, index) && leads(strategy, place.control, SCANNED, to)
        }
        Event::Drop(index) => {
            is_scanning(place.scan, index)
                && (rules(strategy, place, Verdict::AbandonScan, to)
                    || rules(strategy, place, Verdict::AbandonBackground, to))
        }
        Event::Stop => {
            place.scan.is_some() && rules(strategy, place, Verdict::AbandonForeground, to)
        }
        Event::Full => leads(strategy, place.control, Happening::Full, to),
        Event::At(_) | Event::Scan(_) => false,
    }
}

/// A scan completed, and no further one begins.
const SCANNED: Happening = Happening::ScanEnded {
    more: false,
    listed: true,
};

/// Whether a verdict leads to a control, where no further scan begins.
fn rules(strategy: Strategy, place: Place, verdict: Verdict, to: Control) -> bool
    ensures { result ≡ leads strategy place.control (Happening.Ruled verdict false (is_some place.listed)) to }
{
    let listed = place.listed.is_some();
    let ruled = Happening::Ruled {
        verdict,
        more: false,
        listed,
    };
    leads(strategy, place.control, ruled, to)
}

/// Whether a happening leads to a control, and that is another one.
fn leads(strategy: Strategy, now: Control, happening: Happening, to: Control) -> bool
    ensures { result ≡ leads strategy now happening to }
{
    same_control(course(strategy, now, happening), to) && !same_control(to, now)
}

/// Whether what the scan came to may lead to a further scan.
fn goes_on(place: Place, own: Event) -> bool
    ensures { result ≡ goes_on place own }
{
    match own {
        Event::List(index, keys) => is_scanning(place.scan, index) && 0 < keys,
        Event::Drop(index) => is_scanning(place.scan, index) && may_narrow(place.listed),
        Event::At(_) | Event::Scan(_) | Event::Full | Event::Stop => false,
    }
}

/// Whether the scan of an index is under way.
fn is_scanning(scan: Option<u32>, index: u32) -> bool
    ensures { result ≡ is_scanning scan index }
{
    match scan {
        None => false,
        Some(present) => present == index,
    }
}

/// Whether a further scan may begin beside the complete list.
fn may_narrow(listed: Option<u64>) -> bool
    ensures { result ≡ may_narrow listed }
{
    match listed {
        None => true,
        Some(keys) => 0 < keys,
    }
}

/// Where the reading stands after an event.
fn passed(place: Place, event: Event) -> Place
    ensures { result ≡ passed place event }
{
    let listed = listed_by(place.own, place.listed);
    match event {
        Event::At(control) => Place {
            control,
            scan: if scans(control) { place.scan } else { None },
            listed,
            own: None,
        },
        Event::Scan(index) => Place {
            control: place.control,
            scan: Some(index),
            listed,
            own: None,
        },
        Event::List(..) | Event::Drop(_) | Event::Full | Event::Stop => Place {
            control: place.control,
            scan: place.scan,
            listed: place.listed,
            own: Some(event),
        },
    }
}

/// The length of the complete list after what a scan came to.
fn listed_by(own: Option<Event>, before: Option<u64>) -> Option<u64>
    ensures { result ≡ listed_by own before }
{
    match own {
        Some(Event::List(_, keys)) => Some(keys),
        _ => before,
    }
}

/// Whether the events are those of a union, whatever indexes its scans are of.
fn reads_union(events: &[Event]) -> bool
    ensures { result ≡ reads_union events.now }
{
    match events {
        [Event::At(control), rest @ ..] => {
            same_control(*control, Control::BackgroundAlone) && reads_scans(rest)
        }
        _ => false,
    }
}

/// At least one scan begins.
fn reads_scans(events: &[Event]) -> bool
    ensures { result ≡ reads_scans events.now }
{
    match events {
        [Event::Scan(_), rest @ ..] => reads_tail(events, rest),
        _ => false,
    }
}

/// Whether these events of a union, behind its first scan, tell of further scans and then of what they came to.
fn reads_tail(all: &[Event], events: &[Event]) -> bool
    ensures { result ≡ reads_tail all.now events.now }
{
    match events {
        [] => true,
        [event, rest @ ..] => {
            if is_scan(*event) {
                reads_tail(all, rest)
            } else {
                ends_by(all, *event, rest)
            }
        }
    }
}

fn is_scan(event: Event) -> bool
    ensures { result ≡ is_scan event }
{
    match event {
        Event::Scan(_) => true,
        Event::At(_) | Event::List(..) | Event::Drop(_) | Event::Full | Event::Stop => false,
    }
}

/// Whether a list or a drop of one of the indexes that were scanned leads to its final stage.
fn ends_by(all: &[Event], event: Event, rest: &[Event]) -> bool
    ensures { result ≡ ends_by all.now event rest.now }
{
    match event {
        Event::List(index, _) => begin_scan(all, index) && ends_in(Control::FinalList, rest),
        Event::Drop(index) => begin_scan(all, index) && ends_in(Control::FinalTable, rest),
        Event::At(_) | Event::Scan(_) | Event::Full | Event::Stop => false,
    }
}

fn ends_in(control: Control, events: &[Event]) -> bool
    ensures { result ≡ ends_in control events.now }
{
    match events {
        [Event::At(to), rest @ ..] => same_control(*to, control) && is_over(rest),
        _ => false,
    }
}

fn is_over(events: &[Event]) -> bool
    ensures { result ≡ is_over events.now }
{
    match events {
        [] => true,
        [Event::At(to)] => same_control(*to, Control::Done),
        _ => false,
    }
}
