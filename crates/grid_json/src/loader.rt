// What is loaded so far of a network.
ghost use Rattle.std.specs.Prelude.{◌≡◌, IfOk};
ghost use Rattle.grid_json.specs.Reading.{Gives};
ghost use Rattle.grid_json.specs.Loading.{Leads, bus_level_load, end_check, level_load, loaded_of, nothing_of, three_check, two_check, with_bus_level, with_network};

use crate::bus_load::{check_id, find_bus};
use crate::buses::{BusEnd, BusLevelDraft, EndDraft};
use crate::ends::{Three, Two};
use crate::load::Load;
use crate::network::LevelDraft;
use crate::seen::SeenIds;
use crate::{ReadError, Reason};
use grid_ids::{Id, Memory};
use grid_structure::{End, Seeded, Structure};
use std::alloc::Global;

/// A network that is being loaded, and which of its levels have configured buses.
#[derive(Drop)]
pub struct Loader {
    pub structure: Structure,
    pub bus_levels: SeenIds,
}

impl Loader {
    /// A network of this id with nothing in it, and with room for so many ids.
    pub fn with_room(seeded: Seeded, id: Id, room: usize) -> Result<Loader, Memory>
        ensures { IfOk result (λ loader. loaded_of loader ≡ nothing_of id) }
    {
        Ok(Loader {
            structure: Structure::with_room(seeded, id, room)?,
            bus_levels: SeenIds::empty(seeded.alloc),
        })
    }

    /// A level of nodes with its parts.
    pub fn add_level(
        &mut self,
        alloc: Global,
        level: LevelDraft,
        substation: &Id,
    ) -> Result<(), ReadError>
        ensures { Leads (loaded_of self.new) result (with_network (loaded_of self.old)
            (level_load level substation.now self.old.structure)) }
    {
        level.load(alloc, substation, &mut self.structure)
    }

    /// A level with configured buses, with its parts. Nothing reads which levels these are before it is there.
    pub fn add_bus_level(
        &mut self,
        alloc: Global,
        level: BusLevelDraft,
        substation: &Id,
    ) -> Result<(), ReadError>
        ensures { Leads (loaded_of self.new) result (with_bus_level level.id (loaded_of self.old)
            (bus_level_load level substation.now self.old.structure)) }
    {
        self.bus_levels.add(&level.id)?;
        level.load(alloc, substation, &mut self.structure)
    }

    /// Whether an end may stand at a node of this level.
    #[tactic(auto, unfolding(crate::specs::Loading::end_check))]
    fn check_node(&self, alloc: Global, end: &End) -> Result<(), ReadError>
        ensures { Gives result (end_check (loaded_of self.now) (EndDraft.Node end.now)) }
    {
        if self.bus_levels.has(&end.level) && self.structure.find_level(&end.level).is_some() {
            return Err(ReadError::here(alloc, Reason::NoNode));
        }
        Ok(())
    }

    /// Whether an end may stand at this bus.
    #[tactic(auto, unfolding(crate::specs::Loading::end_check))]
    fn check_bus(&self, alloc: Global, end: &BusEnd) -> Result<(), ReadError>
        ensures { Gives result (end_check (loaded_of self.now) (EndDraft.Bus end.now)) }
    {
        if self.structure.find_level(&end.level).is_none() {
            return Ok(());
        }
        if !self.bus_levels.has(&end.level) {
            return Err(ReadError::here(alloc, Reason::NoBus));
        }
        find_bus(alloc, &self.structure, &end.level, &end.bus)?;
        Ok(())
    }

    /// Whether an end may stand where it says. A level that is not there is left to the edit.
    fn check_end(&self, alloc: Global, end: &EndDraft) -> Result<(), ReadError>
        ensures { Gives result (end_check (loaded_of self.now) end.now) }
    {
        match end {
            EndDraft::Node(end) => self.check_node(alloc, end),
            EndDraft::Bus(end) => self.check_bus(alloc, end),
        }
    }

    /// Whether the ends of a branch may stand where they say, and then whether its id is short enough.
    #[tactic(auto, unfolding(crate::specs::Loading::two_check))]
    pub fn check_two(&self, alloc: Global, id: &Id, ends: &Two<EndDraft>) -> Result<(), ReadError>
        ensures { Gives result (two_check (loaded_of self.now) id.now ends.now) }
    {
        self.check_end(alloc, &ends.first)?;
        self.check_end(alloc, &ends.second)?;
        if ends.first.is_by_bus() || ends.second.is_by_bus() {
            return check_id(alloc, id);
        }
        Ok(())
    }

    /// Whether the ends of a branch may stand where they say, and then whether its id is short enough.
    #[tactic(auto, unfolding(crate::specs::Loading::three_check))]
    pub fn check_three(
        &self,
        alloc: Global,
        id: &Id,
        ends: &Three<EndDraft>,
    ) -> Result<(), ReadError>
        ensures { Gives result (three_check (loaded_of self.now) id.now ends.now) }
    {
        self.check_end(alloc, &ends.first)?;
        self.check_end(alloc, &ends.second)?;
        self.check_end(alloc, &ends.third)?;
        if ends.first.is_by_bus() || ends.second.is_by_bus() || ends.third.is_by_bus() {
            return check_id(alloc, id);
        }
        Ok(())
    }
}
