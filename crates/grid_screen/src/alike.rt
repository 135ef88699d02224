// Contingencies of which some have the same ids: of these one finding is enough.
ghost use Rattle.std.specs.Prelude.{◌≡◌, map, Some, IfOk, IfSome, IsTrue, slice_get};
ghost use Rattle.grid_screen.specs.Alike.{event_of, event_of_group, AreAlike};

use crate::{Finding, Findings};
use grid_contingencies::{Contingencies, Contingency};
use grid_ids::{Duplicate, Id, Memory, Same};
use std::alloc::Global;
use std::collections::BTreeMap;

/// The ids of what is out, of what is hit, and of what is stuck.
type Key<'a> = (&'a [Id], &'a [Id], &'a [Id]);

/// The groups of contingencies that differ in their names alone.
#[derive(Drop)]
pub(crate) struct Alike {
    /// A copy of the first contingency of each group.
    pub firsts: Contingencies,
    /// For each contingency the number of its group.
    pub groups: Vec<usize>,
}

// Whether two contingencies differ in their names at most.
fn is_alike(contingency: &Contingency, other: &Contingency) -> bool
    ensures { IsTrue result → event_of contingency.now ≡ event_of other.now }
{
    contingency.has_fault == other.has_fault && contingency.event.same(&other.event)
}

// The group that is guessed, where it has this event.
fn check_group(
    firsts: &[Contingency],
    guess: Option<usize>,
    contingency: &Contingency,
) -> Option<usize>
    ensures { IfSome result (λ group. event_of_group firsts.now group ≡ Some (event_of contingency.now)) }
{
    let group = match guess {
        Some(group) => group,
        None => return None,
    };
    match firsts.get(group) {
        Some(first) if is_alike(first, contingency) => Some(group),
        _ => None,
    }
}

// The ids of a contingency.
fn key_of<'a>(contingency: &'a Contingency) -> Key<'a> {
    (
        contingency.event.out.slice(),
        contingency.event.fault.slice(),
        contingency.event.stuck.slice(),
    )
}

/// The groups of a list. The time is that of so many look-ups in a table of the lists of ids as there are
/// contingencies.
pub(crate) fn find_alike(alloc: Global, list: &[Contingency]) -> Result<Alike, Memory>
    ensures { IfOk result (λ alike. AreAlike list.now alike.firsts alike.groups.items) }
{
    let mut known: BTreeMap<Key<'_>, usize> = BTreeMap::new(alloc);
    let mut firsts = Contingencies::empty(alloc);
    let mut groups = Vec::new(alloc);
    for contingency in list {
        let key = key_of(contingency);
        let guess = known.get(&key).copied();
        let Some(group) = check_group(firsts.slice(), guess, contingency) else {
            known.insert(key, firsts.len())?;
            groups.push(firsts.len())?;
            firsts.push(contingency.copy()?)?;
            continue;
        };
        groups.push(group)?;
    }
    Ok(Alike { firsts, groups })
}

// A copy of the finding of a group. It is out of memory, too, where it has none.
fn copy_at(found: &[Finding], group: usize) -> Result<Finding, Memory>
    ensures { IfOk result (λ finding. slice_get found.now group ≡ Some finding) }
{
    match found.get(group) {
        Some(finding) => Ok(finding.copy()?),
        None => Err(Memory),
    }
}

/// A copy of its group's finding for each contingency. It is out of memory, too, where a group has none.
pub(crate) fn spread(alloc: Global, found: &[Finding], groups: &[usize]) -> Result<Findings, Memory>
    ensures { IfOk result (λ findings. map (λ finding. Some finding) findings
        ≡ map (slice_get found.now) groups.now) }
{
    let mut findings = Findings::empty(alloc);
    for group in groups {
        findings.push(copy_at(found, *group)?)?;
    }
    Ok(findings)
}
