//! The members of a union.
ghost use Rattle.std.specs.Prelude.{◌≡◌, ◌<◌, false, true, length, None, IfOk, IfSome};
ghost use Rattle.rv_restrict.specs.Branches.{alternatives, branches_of, group_at};
ghost use Rattle.rv_reader.specs.Shown.{Shown};
ghost use Rattle.rv_choice.specs.Asked.{CanAsk};
ghost use Rattle.rv_choice.specs.Members.{AddsMembers, AreMembers, AreUnited, IsMember, is_bounded, serves, some_serves};

use crate::choosing::{Role, candidates_for, least, plan};
use crate::query::Query;
use rv_jscan::ScanPlan;
use rv_reader::Reader;
use rv_restrict::{Atom, Restriction};
use rv_value::NoMemory;
use std::alloc::Global;

/// The member of a branch; None where no index has a range for it that is not whole.
fn member<R: Reader>(
    alloc: Global,
    reader: &R,
    query: &Query,
    branch: &Restriction,
) -> Result<Option<ScanPlan>, NoMemory>
    requires { CanAsk query.now (R.shown reader.now) }
    ensures none { IfOk result (λ m. m ≡ None → is_bounded query.now (R.shown reader.now) branch.now ≡ false) }
    ensures some { IfOk result (λ m. IfSome m (IsMember query.now (R.shown reader.now) branch.now)) }
{
    let candidates = candidates_for(alloc, reader, query, branch, Vec::new(alloc))?;
    match least(candidates.as_slice(), Role::Restricted) {
        None => Ok(None),
        Some(at) => Ok(Some(plan(alloc, branch, &candidates[at])?)),
    }
}

/// Adds a member for each branch. Returns whether each has one.
#[tactic(auto, using(crate::proofs::OfMembers::no_branches, crate::proofs::OfMembers::first_without, crate::proofs::OfMembers::more_if))]
fn add_members<R: Reader>(
    alloc: Global,
    reader: &R,
    query: &Query,
    branches: &[Restriction],
    members: &mut Vec<ScanPlan>,
) -> Result<bool, NoMemory>
    requires { CanAsk query.now (R.shown reader.now) }
    ensures { IfOk result (AddsMembers query.now (R.shown reader.now) branches.now members.old.items members.new.items) }
{
    match branches {
        [] => Ok(true),
        [branch, more @ ..] => match member(alloc, reader, query, branch)? {
            None => Ok(false),
            Some(first) => {
                members.push(first)?;
                add_members(alloc, reader, query, more, members)
            }
        },
    }
}

/// Whether a group is a single atom that is no IN: it has one branch, which need not be made to see that it does not serve.
fn is_plain(group: &[Atom]) -> bool
    ensures { result ≡ true → length (branches_of group.now) ≡ 1 }
{
    match group {
        [atom] => !is_among(atom),
        _ => false,
    }
}

fn is_among(atom: &Atom) -> bool
    ensures { result ≡ false → length (alternatives atom.now) ≡ 1 }
{
    match atom {
        Atom::Among { .. } => true,
        Atom::Compare { .. } => false,
        Atom::Between { .. } => false,
        Atom::IsNull { .. } => false,
        Atom::Starts { .. } => false,
        Atom::Const(_) => false,
    }
}

/// The members of a group; None where it does not serve.
fn members_of<R: Reader>(
    alloc: Global,
    reader: &R,
    query: &Query,
    group: usize,
) -> Result<Option<Vec<ScanPlan>>, NoMemory>
    requires can { CanAsk query.now (R.shown reader.now) }
    requires there { group < length query.now.only }
    ensures none { IfOk result (λ m. m ≡ None → serves query.now (R.shown reader.now) (group_at query.now.only group) ≡ false) }
    ensures serves { IfOk result (λ m. IfSome m (λ plans. serves query.now (R.shown reader.now) (group_at query.now.only group) ≡ true)) }
    ensures some { IfOk result (λ m. IfSome m (λ plans. AreMembers query.now (R.shown reader.now) (branches_of (group_at query.now.only group)) plans.items)) }
{
    if is_plain(query.only.group(group)) {
        return Ok(None);
    }
    let branches = query.only.branches(alloc, group)?;
    if branches.len() < 2 {
        return Ok(None);
    }
    let mut found = Vec::new(alloc);
    let all = add_members(alloc, reader, query, branches.as_slice(), &mut found)?;
    if all { Ok(Some(found)) } else { Ok(None) }
}

/// The members of the first group that has two branches or more, each of which bounds an index; None where no group has.
pub fn members<R: Reader>(
    alloc: Global,
    reader: &R,
    query: &Query,
) -> Result<Option<Vec<ScanPlan>>, NoMemory>
    requires { CanAsk query.now (R.shown reader.now) }
    ensures none { IfOk result (λ m. m ≡ None → some_serves query.now (R.shown reader.now) ≡ false) }
    ensures some { IfOk result (λ m. IfSome m (λ plans. AreUnited query.now (R.shown reader.now) plans.items)) }
{
    'places: for group in 0..query.only.groups().len() {
        if let Some(plans) = members_of(alloc, reader, query, group)? {
            return Ok(Some(plans));
        }
    }
    Ok(None)
}
