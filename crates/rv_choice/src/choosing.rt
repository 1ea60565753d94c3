ghost use Rattle.std.specs.Prelude.{◌≡◌, ◌+◌, ◌<◌, ◌≤◌, ◌++◌, ◌∷◌, [], ℕ, List, length, map, take, Option, None, Some, IfOk, IfSome, OnOk, true};
ghost use Rattle.rv_restrict.specs.Parts.{stands_among};
ghost use Rattle.rv_reader.specs.Shown.{Shown};
ghost use Rattle.rv_choice.specs.Asked.{CanAsk, IsIndexOf, with_only};
ghost use Rattle.rv_choice.specs.Choice.{AreScans, IsChosen, IsLeastOf, IsRight, LeastBelow, candidate_at, candidate_of, candidates_of, free_choice, has_all, is_scanned, leads, order_index, ordered_choice, plan_of, plans_of, plays, restricted_choice};
ghost use Rattle.std.specs.List.{AllByRecursion};

use crate::query::{Goal2, Query};
use rv_jscan::ScanPlan;
use rv_judge::Strategy;
use rv_reader::{Estimate, Reader};
use rv_restrict::Restriction;
use rv_value::{Duplicate, Items, NoMemory, Range};
use std::alloc::Global;

/// An index as a query sees it.
#[derive(Drop)]
pub struct Candidate {
    pub index: u32,
    pub columns: Items<u32>,
    /// Where its keys may lie of rows for which the restriction is True.
    pub range: Range,
    /// About how many entries are in the range.
    pub estimate: Estimate,
    /// Whether the range is not whole.
    pub restricted: bool,
    /// Whether the index has every column needed.
    pub sufficient: bool,
}

/// A part that an index may play.
#[derive(Clone, Copy, PartialEq, Eq)]
pub enum Role {
    /// It is restricted, and its range has exactly so few entries that they are scanned at once.
    Short,
    /// It has every column needed.
    Sufficient,
    /// Its range is not whole.
    Restricted,
}

/// The indexes that the background scans.
#[derive(Clone, Copy, PartialEq, Eq)]
pub enum Background {
    Nothing,
    /// The index of this number.
    One(u32),
    /// Each that is restricted.
    Each,
    /// Each that is restricted but the one of this number.
    EachBut(u32),
}

/// What is chosen: the strategy, the place of the index that the foreground scans, and the background's indexes.
#[derive(Clone, Copy, PartialEq, Eq)]
pub struct Choice {
    pub strategy: Strategy,
    pub front: Option<usize>,
    pub background: Background,
}

impl Candidate {
    fn plays(&self, role: Role) -> bool
        ensures { result ≡ plays role self.now }
    {
        match role {
            Role::Short => self.restricted && self.estimate.exact && self.estimate.value <= 20,
            Role::Sufficient => self.sufficient,
            Role::Restricted => self.restricted,
        }
    }
}

impl Background {
    fn scans(&self, candidate: &Candidate) -> bool
        ensures { result ≡ is_scanned self.now candidate.now }
    {
        match self {
            Background::Nothing => false,
            Background::One(index) => candidate.index == *index,
            Background::Each => candidate.restricted,
            Background::EachBut(index) => candidate.restricted && candidate.index != *index,
        }
    }
}

fn stands_among(columns: &[u32], column: u32) -> bool
    ensures { result ≡ stands_among columns.now column }
{
    match columns {
        [] => false,
        [first, more @ ..] => *first == column || stands_among(more, column),
    }
}

/// Whether the columns needed are among an index's.
fn has_all(columns: &[u32], need: &[u32]) -> bool
    ensures { result ≡ has_all columns.now need.now }
{
    need.iter().all(|column| stands_among(columns, *column))
}

/// An index as the query sees it, were this its restriction. The estimate reads nothing.
fn view<R: Reader>(
    alloc: Global,
    reader: &R,
    query: &Query,
    only: &Restriction,
    index: u32,
    columns: &Items<u32>,
) -> Result<Candidate, NoMemory>
    requires { IsIndexOf query.now (R.shown reader.now) index columns.now }
    ensures is { IfOk result (λ c. c ≡ candidate_of (with_only only.now query.now) (R.shown reader.now) (index, columns.now)) }
    ensures right { IfOk result (IsRight (R.shown reader.now) query.now.snap) }
{
    let range = only.range_for(alloc, columns.as_slice())?;
    let estimate = reader.estimate(index, query.snap, &range);
    let restricted = !range.is_whole();
    let sufficient = has_all(columns.as_slice(), query.need.get().as_slice());
    let columns = match columns.copy(alloc) {
        Ok(columns) => columns,
        Err(fault) => {
            drop(range);
            return Err(fault);
        }
    };
    Ok(Candidate {
        index,
        columns,
        range,
        estimate,
        restricted,
        sufficient,
    })
}

impl Candidate {
    /// Makes a candidate an index as the query sees it, were this its restriction, in its memory.
    fn renew<R: Reader>(
        &mut self,
        alloc: Global,
        reader: &R,
        query: &Query,
        only: &Restriction,
        index: u32,
        columns: &Items<u32>,
    ) -> Result<(), NoMemory>
        requires { IsIndexOf query.now (R.shown reader.now) index columns.now }
        ensures is { OnOk result (self.new ≡ candidate_of (with_only only.now query.now) (R.shown reader.now) (index, columns.now)) }
        ensures right { OnOk result (IsRight (R.shown reader.now) query.now.snap self.new) }
    {
        keep_columns(alloc, columns, &mut self.columns)?;
        let range = only.range_for(alloc, columns.as_slice())?;
        self.estimate = reader.estimate(index, query.snap, &range);
        self.restricted = !range.is_whole();
        self.sufficient = has_all(columns.as_slice(), query.need.get().as_slice());
        self.index = index;
        self.range = range;
        Ok(())
    }
}

/// Has the columns of an index; none is copied where they stand there already.
fn keep_columns(alloc: Global, columns: &Items<u32>, have: &mut Items<u32>) -> Result<(), NoMemory>
    ensures { OnOk result (have.new ≡ columns.now) }
{
    if have.as_slice() == columns.as_slice() {
        return Ok(());
    }
    *have = columns.copy(alloc)?;
    Ok(())
}

/// Puts an index as the query sees it into a place, were this its restriction, in the memory of what stands there.
fn put_view<R: Reader>(
    alloc: Global,
    reader: &R,
    query: &Query,
    only: &Restriction,
    index: &(u32, Items<u32>),
    at: usize,
    found: &mut Vec<Candidate>,
) -> Result<(), NoMemory>
    requires index { IsIndexOf query.now (R.shown reader.now) index.now.0 index.now.1 }
    requires at { at ≤ length found.old.items }
    ensures within { OnOk result (at < length found.new.items) }
    ensures is { OnOk result (take (at + 1) found.new.items ≡ take at found.old.items ++ candidate_of (with_only only.now query.now) (R.shown reader.now) index.now ∷ []) }
    ensures right { OnOk result (IsRight (R.shown reader.now) query.now.snap (candidate_of (with_only only.now query.now) (R.shown reader.now) index.now)) }
{
    if at < found.len() {
        found[at].renew(alloc, reader, query, only, index.0, &index.1)
    } else {
        found.push(view(alloc, reader, query, only, index.0, &index.1)?)?;
        Ok(())
    }
}

/// Puts indexes as the query sees them into the places from one on, were this its restriction. How many places are written
/// then.
fn put_views<R: Reader>(
    alloc: Global,
    reader: &R,
    query: &Query,
    only: &Restriction,
    indexes: &[(u32, Items<u32>)],
    at: usize,
    found: &mut Vec<Candidate>,
) -> Result<usize, NoMemory>
    requires indexes { AllByRecursion (λ (i : ℕ × List ℕ). IsIndexOf query.now (R.shown reader.now) i.0 i.1) indexes.now }
    requires at { at ≤ length found.old.items }
    ensures within { IfOk result (λ n. n ≤ length found.new.items) }
    ensures are { IfOk result (λ n. take n found.new.items ≡ take at found.old.items ++ map (candidate_of (with_only only.now query.now) (R.shown reader.now)) indexes.now) }
    ensures right { OnOk result (AllByRecursion (IsRight (R.shown reader.now) query.now.snap) (map (candidate_of (with_only only.now query.now) (R.shown reader.now)) indexes.now)) }
{
    match indexes {
        [] => Ok(at),
        [index, more @ ..] => {
            put_view(alloc, reader, query, only, index, at, found)?;
            put_views(alloc, reader, query, only, more, at + 1, found)
        }
    }
}

/// The table's indexes as the query sees them, were this its restriction. The memory of candidates that are over is used
/// anew.
pub(crate) fn candidates_for<R: Reader>(
    alloc: Global,
    reader: &R,
    query: &Query,
    only: &Restriction,
    over: Vec<Candidate>,
) -> Result<Vec<Candidate>, NoMemory>
    requires { CanAsk query.now (R.shown reader.now) }
    ensures are { IfOk result (λ cs. cs.items ≡ candidates_of (with_only only.now query.now) (R.shown reader.now)) }
    ensures right { IfOk result (λ cs. AllByRecursion (IsRight (R.shown reader.now) query.now.snap) cs.items) }
{
    let mut found = over;
    let indexes = query.indexes.get().as_slice();
    let count = put_views(alloc, reader, query, only, indexes, 0, &mut found)?;
    found.truncate(count);
    Ok(found)
}

/// The table's indexes as the query sees them. The memory of candidates that are over is used anew.
pub fn candidates<R: Reader>(
    alloc: Global,
    reader: &R,
    query: &Query,
    over: Vec<Candidate>,
) -> Result<Vec<Candidate>, NoMemory>
    requires { CanAsk query.now (R.shown reader.now) }
    ensures are { IfOk result (λ cs. cs.items ≡ candidates_of query.now (R.shown reader.now)) }
    ensures right { IfOk result (λ cs. AllByRecursion (IsRight (R.shown reader.now) query.now.snap) cs.items) }
{
    candidates_for(alloc, reader, query, &query.only, over)
}

/// Of the best so far and one more candidate the one that plays the part with the lesser estimate, or the first.
fn nearer(candidates: &[Candidate], role: Role, best: Option<usize>, at: usize) -> Option<usize>
    requires at { at < length candidates.now }
    requires best { LeastBelow role candidates.now at best }
    ensures { LeastBelow role candidates.now (at + 1) result }
{
    let candidate = &candidates[at];
    if !candidate.plays(role) {
        return best;
    }
    match best {
        None => Some(at),
        Some(before) => {
            if candidate.estimate.value < candidates[before].estimate.value {
                Some(at)
            } else {
                best
            }
        }
    }
}

/// The first of those with the least estimate that play a part.
pub(crate) fn least(candidates: &[Candidate], role: Role) -> Option<usize>
    ensures { IsLeastOf role candidates.now result }
{
    let mut best = None;
    'candidates: for at in 0..candidates.len() {
        best = nearer(candidates, role, best, at);
    }
    best
}

fn leads(order: &[u32], columns: &[u32]) -> bool
    ensures { result ≡ leads order.now columns.now }
{
    !order.is_empty() && columns.starts_with(order)
}

/// The first index that begins with the order's columns, where an order is asked.
fn order_index(candidates: &[Candidate], order: &[u32]) -> Option<usize>
    ensures { result ≡ order_index order.now candidates.now }
{
    candidates
        .iter()
        .position(|candidate| leads(order, candidate.columns.as_slice()))
}

fn ordered_choice(candidates: &[Candidate], front: usize, short: Option<usize>) -> Choice
    requires front { front < length candidates.now }
    requires short { IfSome short (λ at. at < length candidates.now) }
    ensures { result ≡ ordered_choice candidates.now front short }
{
    let background = match short {
        Some(short) => Background::One(candidates[short].index),
        None => {
            let leading = &candidates[front];
            if leading.sufficient {
                Background::Nothing
            } else {
                Background::EachBut(leading.index)
            }
        }
    };
    Choice {
        strategy: Strategy::Sorted,
        front: Some(front),
        background,
    }
}

fn restricted_choice(goal: Goal2, restricted: Option<usize>) -> Choice
    ensures { result ≡ restricted_choice goal restricted }
{
    match (goal, restricted) {
        (Goal2::FastFirst, Some(_)) => Choice {
            strategy: Strategy::FastFirst,
            front: None,
            background: Background::Each,
        },
        (Goal2::TotalTime, Some(_)) => Choice {
            strategy: Strategy::BackgroundOnly,
            front: None,
            background: Background::Each,
        },
        (_, None) => Choice {
            strategy: Strategy::Table,
            front: None,
            background: Background::Nothing,
        },
    }
}

/// The choice where no order is asked and an index is short.
fn short_choice(candidates: &[Candidate], short: usize) -> Choice
    requires { short < length candidates.now }
    ensures { (goal : Goal2) (sufficient restricted : Option ℕ) → result ≡ free_choice candidates.now goal (Some short) sufficient restricted }
{
    Choice {
        strategy: Strategy::BackgroundOnly,
        front: None,
        background: Background::One(candidates[short].index),
    }
}

/// The choice where no order is asked, no index is short, and one has every column needed.
fn sufficient_choice(candidates: &[Candidate], front: usize) -> Choice
    requires { front < length candidates.now }
    ensures { (goal : Goal2) (restricted : Option ℕ) → result ≡ free_choice candidates.now goal None (Some front) restricted }
{
    Choice {
        strategy: Strategy::IndexOnly,
        front: Some(front),
        background: Background::EachBut(candidates[front].index),
    }
}

/// Chooses among the indexes; ties go to the one created first.
pub fn choose(candidates: &[Candidate], order: &[u32], goal: Goal2) -> Choice
    ensures { IsChosen order.now goal candidates.now result }
{
    let short = least(candidates, Role::Short);
    match order_index(candidates, order) {
        Some(front) => ordered_choice(candidates, front, short),
        None => match short {
            Some(short) => short_choice(candidates, short),
            None => match least(candidates, Role::Sufficient) {
                Some(front) => sufficient_choice(candidates, front),
                None => restricted_choice(goal, least(candidates, Role::Restricted)),
            },
        },
    }
}

/// The scan of a candidate's index: its range, and the part of the restriction that an entry alone decides.
pub(crate) fn plan(
    alloc: Global,
    only: &Restriction,
    candidate: &Candidate,
) -> Result<ScanPlan, NoMemory>
    ensures { IfOk result (λ plan. plan ≡ plan_of only.now candidate.now) }
{
    Ok(ScanPlan {
        index: candidate.index,
        range: candidate.range.copy(alloc)?,
        part: only.index_part(alloc, candidate.columns.as_slice())?,
        estimate: candidate.estimate.value,
    })
}

/// Makes a planned scan the one of an index, in its memory.
fn renew_plan(
    alloc: Global,
    only: &Restriction,
    candidate: &Candidate,
    plan: &mut ScanPlan,
) -> Result<(), NoMemory>
    ensures { OnOk result (plan.new ≡ plan_of only.now candidate.now) }
{
    plan.range = candidate.range.copy(alloc)?;
    plan.index = candidate.index;
    plan.estimate = candidate.estimate.value;
    only.renew_part(alloc, candidate.columns.as_slice(), &mut plan.part)
}

/// Puts the scan of an index into a place, in the memory of what stands there.
fn put_plan(
    alloc: Global,
    only: &Restriction,
    candidate: &Candidate,
    at: usize,
    plans: &mut Vec<ScanPlan>,
) -> Result<(), NoMemory>
    requires { at ≤ length plans.old.items }
    ensures within { OnOk result (at < length plans.new.items) }
    ensures is { OnOk result (take (at + 1) plans.new.items ≡ take at plans.old.items ++ plan_of only.now candidate.now ∷ []) }
{
    if at < plans.len() {
        renew_plan(alloc, only, candidate, &mut plans[at])
    } else {
        plans.push(plan(alloc, only, candidate)?)?;
        Ok(())
    }
}

/// Puts the scans of indexes that the background scans into the places from one on. How many places are written then.
fn put_plans(
    alloc: Global,
    only: &Restriction,
    candidates: &[Candidate],
    background: Background,
    at: usize,
    plans: &mut Vec<ScanPlan>,
) -> Result<usize, NoMemory>
    requires { at ≤ length plans.old.items }
    ensures within { IfOk result (λ n. n ≤ length plans.new.items) }
    ensures are { IfOk result (λ n. take n plans.new.items ≡ take at plans.old.items ++ plans_of only.now background candidates.now) }
{
    match candidates {
        [] => Ok(at),
        [candidate, more @ ..] => {
            if !background.scans(candidate) {
                return put_plans(alloc, only, more, background, at, plans);
            }
            put_plan(alloc, only, candidate, at, plans)?;
            put_plans(alloc, only, more, background, at + 1, plans)
        }
    }
}

fn plans(
    alloc: Global,
    only: &Restriction,
    candidates: &[Candidate],
    background: Background,
    over: Vec<ScanPlan>,
) -> Result<Vec<ScanPlan>, NoMemory>
    ensures { IfOk result (λ plans. plans.items ≡ plans_of only.now background candidates.now) }
{
    let mut plans = over;
    let count = put_plans(alloc, only, candidates, background, 0, &mut plans)?;
    plans.truncate(count);
    Ok(plans)
}

/// The scans of the background in ascending order of estimates; of equal ones that of the index created first comes
/// first. The memory of scans that are over is used anew.
pub fn scans(
    alloc: Global,
    only: &Restriction,
    candidates: &[Candidate],
    background: Background,
    over: Vec<ScanPlan>,
) -> Result<Vec<ScanPlan>, NoMemory>
    ensures { IfOk result (λ scans. AreScans only.now candidates.now background scans.items) }
{
    let mut scans = plans(alloc, only, candidates, background, over)?;
    scans.sort_by_key(|scan| scan.estimate)?;
    Ok(scans)
}
