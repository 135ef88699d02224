// Ids of a contingency that nothing has, or that are of no breaker where one should be.
ghost use Rattle.std.specs.Prelude.{◌≡◌, not, IfOk, find};
ghost use Rattle.std.specs.Option.{option_map};
ghost use Rattle.grid_screen.specs.Outages as outages;
ghost use Rattle.grid_screen.specs.Outages.{first_unknown};
ghost use Rattle.grid_screen.specs.Found as found;
ghost use Rattle.grid_screen.specs.Found.{first_amiss, stuck_amiss};

use crate::Finding;
use grid_contingencies::{FaultCase, is_operable};
use grid_ids::{Duplicate, Id, Memory};
use grid_structure::Structure;

// Whether a switch or an equipment has the id.
#[tactic(auto, unfolding(crate::specs::Outages::is_known, crate::specs::Outages::is_switch))]
fn is_known(structure: &Structure, id: &Id) -> bool
    ensures { result ≡ outages.is_known structure.now id.now }
{
    structure.find_switch(id).is_some() || structure.sides(id).is_some()
}

// The first id that is of no switch and of no equipment.
#[tactic(auto, unfolding(crate::specs::Outages::first_unknown))]
fn find_unknown<'a>(structure: &Structure, ids: &'a [Id]) -> Option<&'a Id>
    ensures { option_map (λ id. id.now) result ≡ first_unknown structure.now ids.now }
{
    ids.iter().find(|id| !is_known(structure, id))
}

// Whether a breaker that is not fictitious has the id.
#[tactic(auto, unfolding(crate::specs::Found::is_breaker))]
fn is_breaker(structure: &Structure, id: &Id) -> bool
    ensures { result ≡ found.is_breaker structure.now id.now }
{
    match structure.find_switch(id) {
        Some(at) => is_operable(structure.level(at.level).switch(at.place)),
        None => false,
    }
}

// The first id that is of no breaker.
#[tactic(auto, unfolding(crate::specs::Found::first_no_breaker))]
fn find_no_breaker<'a>(structure: &Structure, ids: &'a [Id]) -> Option<&'a Id>
    ensures { option_map (λ id. id.now) result ≡ found.first_no_breaker structure.now ids.now }
{
    ids.iter().find(|id| !is_breaker(structure, id))
}

// What is amiss of an id that is stuck and of no breaker.
#[tactic(auto, unfolding(crate::specs::Found::stuck_amiss))]
fn amiss_of(structure: &Structure, id: &Id) -> Result<Finding, Memory>
    ensures { IfOk result (λ finding. finding ≡ stuck_amiss structure.now id.now) }
{
    let copy = id.copy()?;
    if is_known(structure, id) {
        return Ok(Finding::NoBreaker(copy));
    }
    Ok(Finding::UnknownId(copy))
}

/// What is amiss of the first id that is: of what is out, then of what is hit, then of what is stuck. The time is that
/// of a look-up of each id.
#[tactic(auto, unfolding(crate::specs::Found::first_amiss))]
pub(crate) fn find_amiss(
    structure: &Structure,
    event: &FaultCase,
) -> Result<Option<Finding>, Memory>
    ensures { IfOk result (λ amiss. amiss ≡ first_amiss structure.now event.now) }
{
    if let Some(id) = find_unknown(structure, event.out.slice()) {
        return Ok(Some(Finding::UnknownId(id.copy()?)));
    }
    if let Some(id) = find_unknown(structure, event.fault.slice()) {
        return Ok(Some(Finding::UnknownId(id.copy()?)));
    }
    match find_no_breaker(structure, event.stuck.slice()) {
        Some(id) => Ok(Some(amiss_of(structure, id)?)),
        None => Ok(None),
    }
}
