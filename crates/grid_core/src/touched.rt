// Which levels a request changes, so that what is kept of the others can stay.
ghost use Rattle.std.specs.Prelude.{◌≡◌, ℕ, ◌<◌, Some, length};
ghost use Rattle.grid_structure.specs.Sites.{levels, site};
ghost use Rattle.grid_structure.specs.Editing.{apply};
ghost use Rattle.grid_requests.specs.Changes.{changed_or, structure_after};
ghost use Rattle.grid_core.specs.Touched.{IsTouch, IsLevelOf, IsLevelOfSwitch, AreLevelsOf};
ghost use Rattle.grid_core.specs.Touched.{AreLevelsOfEnds, AreLevelsOfSides};
ghost use Rattle.grid_core.specs.Kept.{IsMoveOf};

use crate::Request;
use grid_ids::Id;
use grid_structure::{Branch, BranchEnds, Edit, End, Structure};

/// The places of the levels that an edit may change, or of the level whose flags a request may.
#[derive(Clone, Copy)]
pub(crate) enum Touched {
    /// Of one level.
    Level(u32),
    /// Of the levels in which the terminals of an equipment stand or are to stand; one may be named more than once.
    Ends(u32, u32, u32),
    /// Of all levels: where there is a new one, others have other places.
    All,
}

// The level of an id. Where there is none the edit is refused.
fn level_of(structure: &Structure, level: &Id) -> Touched
    ensures { IsLevelOf structure.now level.now result }
{
    match structure.find_level(level) {
        Some(place) => Touched::Level(place),
        None => Touched::All,
    }
}

// The levels of three ends.
fn levels_of_ends(structure: &Structure, end1: &End, end2: &End, end3: &End) -> Touched
    ensures { AreLevelsOf structure.now end1.now.level end2.now.level end3.now.level result }
{
    let first = structure.find_level(&end1.level);
    let second = structure.find_level(&end2.level);
    let third = structure.find_level(&end3.level);
    match (first, second, third) {
        (Some(first), Some(second), Some(third)) => Touched::Ends(first, second, third),
        _ => Touched::All,
    }
}

// The levels of a branch's ends.
fn levels_of_branch(structure: &Structure, branch: &Branch) -> Touched
    ensures { AreLevelsOfEnds structure.now branch.now result }
{
    let BranchEnds { end1, end2, end3 } = branch.ends();
    match end3 {
        Some(end3) => levels_of_ends(structure, end1, end2, end3),
        None => levels_of_ends(structure, end1, end2, end2),
    }
}

// The level of a switch. Where there is none a request that names it is refused.
fn level_of_switch(structure: &Structure, id: &Id) -> Touched
    ensures { IsLevelOfSwitch structure.now id.now result }
{
    match structure.find_switch(id) {
        Some(at) => Touched::Level(at.level),
        None => Touched::All,
    }
}

// The level in which the terminal of a side of an equipment stands, or else the one at this place.
fn level_of_side(structure: &Structure, id: &Id, side: u8, other: u32) -> u32
    requires { other < length (levels structure.now) }
    ensures below { result < length (levels structure.now) }
    ensures level { (level node : ℕ) → site structure.now id.now side ≡ Some (level, node) → level ≡ result }
{
    match structure.site(id, side) {
        Some(site) => site.level,
        None => other,
    }
}

// The levels in which the terminals of an equipment stand. Where there are none the edit that removes it is refused.
fn levels_of_equipment(structure: &Structure, id: &Id) -> Touched
    ensures { AreLevelsOfSides structure.now id.now result }
{
    let first = match structure.site(id, 1) {
        Some(site) => site.level,
        None => return Touched::All,
    };
    let second = level_of_side(structure, id, 2, first);
    let third = level_of_side(structure, id, 3, second);
    Touched::Ends(first, second, third)
}

// The levels that an edit touches.
fn touched_by_edit(structure: &Structure, edit: &Edit) -> Touched
    ensures { IsTouch structure.now (changed_or structure.now (apply structure.now edit.now))
        result }
{
    structure.keeps();
    match edit {
        Edit::AddBusbar { level, .. }
        | Edit::AddSwitch { level, .. }
        | Edit::AddInjection { level, .. }
        | Edit::AddInternal { level, .. }
        | Edit::RemoveInternal { level, .. } => level_of(structure, level),
        Edit::AddBranch { shape, .. } => levels_of_branch(structure, shape.branch()),
        Edit::RemoveSwitch { id } => level_of_switch(structure, id),
        Edit::RemoveEquipment { id } => levels_of_equipment(structure, id),
        Edit::AddSubstation { .. } | Edit::AddLevel { .. } => Touched::All,
    }
}

/// The levels that a request touches, if it is an edit or moves one switch. It takes no memory.
#[tactic(auto, unfolding(crate::specs::Kept::moved_level))]
pub(crate) fn touched_by(structure: &Structure, request: &Request) -> Touched
    ensures touch { IsTouch structure.now (structure_after structure.now request.now) result }
    ensures moved { IsMoveOf structure.now request.now result }
{
    match request {
        Request::Change { edit } => touched_by_edit(structure, edit),
        Request::OpenSwitch { id } => level_of_switch(structure, id),
        Request::CloseSwitch { id } => level_of_switch(structure, id),
        _ => Touched::All,
    }
}
