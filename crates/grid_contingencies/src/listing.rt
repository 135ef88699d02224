// The pieces of a network of which contingencies are made.
ghost use Rattle.std.specs.Prelude.{◌≡◌, ◌++◌, IfOk, OnOk, flat_map};
ghost use Rattle.grid_level.specs.Passing as passing;
ghost use Rattle.grid_structure.specs.Sites.{branches, levels};
ghost use Rattle.grid_contingencies.specs.Pieces as specs;
ghost use Rattle.grid_contingencies.specs.Pieces.{branches_of, breakers_of, placed_of, standing_of};

use crate::Piece;
use grid_ids::{Duplicate, Ids, Memory};
use grid_kinds::{Injection, SwitchKind};
use grid_level::{Placed, Stand, Switch};
use grid_structure::{Branch, Structure};
use std::alloc::Global;

/// Whether the switch is a breaker that is not fictitious.
#[tactic(auto, unfolding(grid_level::specs::Passing::is_operable, grid_level::specs::Passing::is_breaker))]
pub fn is_operable(switch: &Switch) -> bool
    ensures { result ≡ passing.is_operable switch.now }
{
    match switch.kind {
        SwitchKind::Breaker => !switch.fictitious,
        SwitchKind::Disconnector => false,
        SwitchKind::LoadBreakSwitch => false,
    }
}

// Whether a branch is of the kind.
#[tactic(auto, unfolding(crate::specs::Pieces::is_branch_of))]
fn is_branch_of(kind: Piece, branch: &Branch) -> bool
    ensures { result ≡ specs.is_branch_of kind branch.now }
{
    match (kind, branch) {
        (Piece::Line, Branch::Line { .. }) => true,
        (Piece::TwoWindings, Branch::TwoWindings { .. }) => true,
        (Piece::ThreeWindings, Branch::ThreeWindings { .. }) => true,
        _ => false,
    }
}

// Whether what stands at a node is of the kind.
#[tactic(auto, unfolding(crate::specs::Pieces::is_stand_of))]
fn is_stand_of(kind: Piece, stand: &Stand) -> bool
    ensures { result ≡ specs.is_stand_of kind stand.now }
{
    match (kind, stand) {
        (Piece::Generator, Stand::Feeder(Injection::Generator { .. })) => true,
        (Piece::Load, Stand::Feeder(Injection::Load { .. })) => true,
        (Piece::BusbarSection, Stand::Busbar) => true,
        _ => false,
    }
}

// The ids of the branches of a kind.
fn list_branches(alloc: Global, structure: &Structure, kind: Piece) -> Result<Ids, Memory>
    ensures { IfOk result (λ ids. ids ≡ branches_of kind (branches structure.now)) }
{
    let mut ids = Ids::empty(alloc);
    for place in 0..structure.branch_count() {
        if !is_branch_of(kind, structure.branch(place)) {
            continue;
        }
        ids.push(structure.branch_id(place).copy()?)?;
    }
    Ok(ids)
}

// Puts the ids of the equipment of those terminals last that are of the kind.
fn push_placed(ids: &mut Ids, placed: &[Placed], kind: Piece) -> Result<(), Memory>
    ensures { OnOk result (ids.new ≡ ids.old ++ placed_of kind placed.now) }
{
    for placed in placed {
        if !is_stand_of(kind, &placed.stand) {
            continue;
        }
        ids.push(placed.terminal.equipment.copy()?)?;
    }
    Ok(())
}

// The ids of the equipment of a kind that stands at nodes.
fn list_standing(alloc: Global, structure: &Structure, kind: Piece) -> Result<Ids, Memory>
    ensures { IfOk result (λ ids. ids ≡ standing_of kind structure.now) }
{
    let mut ids = Ids::empty(alloc);
    for place in 0..structure.level_count() {
        push_placed(&mut ids, structure.level(place).placed(), kind)?;
    }
    Ok(ids)
}

// Puts the ids of the operable breakers last.
fn push_breakers(ids: &mut Ids, switches: &[Switch]) -> Result<(), Memory>
    ensures { OnOk result (ids.new ≡ ids.old ++ breakers_of switches.now) }
{
    for switch in switches {
        if !is_operable(switch) {
            continue;
        }
        ids.push(switch.id.copy()?)?;
    }
    Ok(())
}

// The ids of the operable breakers of all levels.
fn list_breakers(alloc: Global, structure: &Structure) -> Result<Ids, Memory>
    ensures { IfOk result (λ ids. ids ≡ flat_map (λ l. breakers_of l.switches) (levels structure.now)) }
{
    let mut ids = Ids::empty(alloc);
    for place in 0..structure.level_count() {
        push_breakers(&mut ids, structure.level(place).switches())?;
    }
    Ok(ids)
}

/// The ids of the pieces of a kind, in structure order. The time is that of a look at all branches, or at all levels.
#[tactic(auto, unfolding(crate::specs::Pieces::pieces_of), using(crate::proofs::Branches::lines_are, crate::proofs::Branches::two_are, crate::proofs::Branches::three_are))]
pub(crate) fn pieces(alloc: Global, structure: &Structure, kind: Piece) -> Result<Ids, Memory>
    ensures { IfOk result (λ ids. ids ≡ specs.pieces_of structure.now kind) }
{
    structure.keeps();
    match kind {
        Piece::Line => list_branches(alloc, structure, Piece::Line),
        Piece::TwoWindings => list_branches(alloc, structure, Piece::TwoWindings),
        Piece::ThreeWindings => list_branches(alloc, structure, Piece::ThreeWindings),
        Piece::Generator => list_standing(alloc, structure, Piece::Generator),
        Piece::Load => list_standing(alloc, structure, Piece::Load),
        Piece::BusbarSection => list_standing(alloc, structure, Piece::BusbarSection),
        Piece::Breaker => list_breakers(alloc, structure),
    }
}
