// The state before a fault, level by level.
ghost use Rattle.std.specs.Prelude.{◌≡◌, ◌<◌, length, Some, IfOk, slice_get};
ghost use Rattle.grid_states.specs.Rows.{row_at};
ghost use Rattle.grid_structure.specs.Sites.{levels};
ghost use Rattle.grid_json.specs.Seen.{Knows};
ghost use Rattle.grid_screen.specs.Findings.{CaseFits};
ghost use Rattle.grid_screen.specs.Grounds.{Ground, IsGround};
ghost use Rattle.grid_screen.specs.Scenes.{IsScene};

use grid_contingencies::FaultCase;
use grid_core::Case;
use grid_ids::{Id, Memory};
use grid_json::SeenIds;
use grid_level::Level;
use grid_outages::{Changes, changes_without};
use grid_states::States;
use grid_structure::Structure;
use std::alloc::Global;
use std::marker::Model;

/// The state before a fault: what is screened with what an outage has changed, and the ids of the breakers that are
/// stuck.
#[derive(Drop)]
pub(crate) struct Scene<'a> {
    structure: &'a Structure,
    states: &'a States,
    changes: Changes<'a>,
    stuck: SeenIds,
}

impl<'a> Model for Scene<'a> {
    ghost use Rattle.std.specs.Prelude.{◌≡◌, length};
    ghost use Rattle.grid_structure.specs.Sites.{levels};
    ghost use Rattle.grid_screen.specs.Grounds.{Ground, IsGround, ground};
    ghost use Rattle.grid_outages.specs.Changes.{shown_levels, shown_rows};

    ghost Value = { Ground };

    ghost view = { λ s. ground s.structure.now (shown_levels s.changes (levels s.structure.now))
        (shown_rows s.changes s.states.now.opened) s.stuck };

    ghost invariant = { λ s. (length s.changes ≡ length (levels s.structure.now))
        × (length s.states.now.opened ≡ length (levels s.structure.now))
        × IsGround (ground s.structure.now (shown_levels s.changes (levels s.structure.now))
        (shown_rows s.changes s.states.now.opened) s.stuck) };
}

/// The ids of a list, to look them up in.
pub(crate) fn set_of(alloc: Global, ids: &[Id]) -> Result<SeenIds, Memory>
    ensures { IfOk result (λ set. Knows set ids.now) }
{
    let mut set = SeenIds::empty(alloc);
    for id in ids {
        set.add(id)?;
    }
    Ok(set)
}

impl<'a> Scene<'a> {
    /// The state of a case before a fault: with what is out, one id after the other.
    pub(crate) fn before_fault(
        alloc: Global,
        case: &'a Case,
        fault: &FaultCase,
    ) -> Result<Scene<'a>, Memory>
        requires { CaseFits case.now }
        ensures { IfOk result (IsScene case.now fault.now) }
    {
        case.structure.keeps();
        let changes = changes_without(alloc, &case.structure, &case.states, fault.out.slice())?;
        let stuck = set_of(alloc, fault.stuck.slice())?;
        Ok(Scene {
            structure: &case.structure,
            states: &case.states,
            changes,
            stuck,
        })
    }

    /// The structure that is screened.
    pub(crate) fn structure(&self) -> &'a Structure
        ensures { result.now ≡ self.now.net }
    {
        self.structure
    }

    /// The ids of the breakers that are stuck.
    pub(crate) fn stuck(&self) -> &SeenIds
        ensures { result.now ≡ self.now.stuck }
    {
        &self.stuck
    }

    /// Tells what every state before a fault keeps.
    pub(crate) fn keeps(&self)
        ensures { IsGround self.now }
    {
        let _ = &self.stuck;
    }

    /// The level at a place, before the fault.
    pub(crate) fn level(&self, place: u32) -> &Level
        requires { place < length (levels self.now.net) }
        ensures { slice_get self.now.present place ≡ Some result.now }
    {
        match self.changes.get(place) {
            Some(changed) => changed.level.level(),
            None => self.structure.level(place),
        }
    }

    /// The flags of the switches of the level at a place, before the fault.
    pub(crate) fn opened(&self, place: u32) -> &[bool]
        requires { place < length (levels self.now.net) }
        ensures { result.now ≡ row_at self.now.opened place }
    {
        match self.changes.get(place) {
            Some(changed) => changed.opened.slice(),
            None => self.states.opened_row(place),
        }
    }
}
