// What stands of a network so far: its ids, its levels, and the ends of its lines.
ghost use Rattle.std.specs.Prelude.{◌≡◌, ◌+◌, ◌≤◌, ◌<◌, ◌∷◌, ◌++◌, [], List, ℕ, length, Some, IfSome, OnOk, if◌then◌else◌};
ghost use Rattle.std.specs.Option.{option_map};
ghost use Rattle.std.specs.Str.{bytes_eq};
ghost use Rattle.grid_json.specs.Reading.{Gives};
ghost use Rattle.grid_json.specs.declared.buses.BusEnd.{BusEnd as EndAt};
ghost use Rattle.grid_configured.specs.declared.network.ConfiguredLevel.{ConfiguredLevel as LevelAt};
ghost use Rattle.grid_configured.specs.Checks.{end_check, end_reasons, ids_of, level_check, level_edges, level_nodes};
ghost use Rattle.grid_configured.specs.Standing.{Stands, count_at, spot_of, tally_at, tally_of};

use crate::contents::check_contents;
use crate::network::ConfiguredLevel;
use crate::reasons::{Counts, check_level_itself, check_terminal, refused};
use grid_ids::{Duplicate, Id, Memory};
use grid_json::{BusEnd, ReadError, Reason, SeenIds};
use grid_structure::EditFault;
use std::alloc::Global;
use std::collections::BTreeMap;

/// What a level has: its buses, and how many nodes and edges without the ends of lines.
#[derive(Drop)]
pub(crate) struct Tally {
    pub buses: SeenIds,
    pub nodes: u32,
    pub edges: u32,
}

/// What stands so far.
#[derive(Drop)]
pub(crate) struct Standing {
    /// The ids of all things.
    pub ids: SeenIds,
    /// The levels by their ids.
    pub levels: BTreeMap<Id, Tally>,
    /// How many ends of lines are in each level, by its id.
    pub ends: BTreeMap<Id, u32>,
    /// How many switches there are.
    pub switches: usize,
}

/// What an end of a line finds of its level: whether its bus is there, how many ends are there, and how much stands.
#[derive(Clone, Copy, Debug, PartialEq, Eq)]
pub(crate) struct EndFinding {
    pub there: bool,
    pub ends: u32,
    pub counts: Counts,
}

// How many ends are in the level of an id.
#[tactic(auto, unfolding(crate::specs::Standing::count_at))]
fn count_of(ends: &BTreeMap<Id, u32>, level: &Id) -> u32
    ensures { result ≡ count_at ends.now level.now }
{
    match ends.get(level) {
        Some(count) => *count,
        None => 0,
    }
}

// So many ends are in the level of an id.
fn put_count(ends: &mut BTreeMap<Id, u32>, level: &Id, count: u32) -> Result<(), Memory>
    ensures { OnOk result ((q : List ℕ) → count_at ends.new q
        ≡ (if bytes_eq level.now q then count else count_at ends.old q)) }
{
    let name = level.copy()?;
    match ends.insert(name, count) {
        Ok(_) => Ok(()),
        Err(_) => Err(Memory),
    }
}

// Keeps what a level has under its id.
fn put_tally(levels: &mut BTreeMap<Id, Tally>, level: &Id, tally: Tally) -> Result<(), Memory>
    ensures { OnOk result ((q : List ℕ) → tally_at levels.new q
        ≡ (if bytes_eq level.now q then Some tally else tally_at levels.old q)) }
{
    let name = level.copy()?;
    match levels.insert(name, tally) {
        Ok(_) => Ok(()),
        Err(_) => Err(Memory),
    }
}

// What an end at a bus finds of a level with so many ends, in a network with so many switches.
fn spot_in(tally: &Tally, bus: &Id, ends: u32, switches: usize) -> EndFinding
    ensures { result ≡ spot_of bus.now ends switches tally.now }
{
    EndFinding {
        there: tally.buses.has(bus),
        ends,
        counts: Counts {
            nodes: tally.nodes as usize + ends as usize,
            edges: tally.edges as usize + ends as usize,
            switches,
        },
    }
}

// The reasons against one more end.
#[tactic(auto, unfolding(crate::specs::Checks::end_reasons))]
fn check_spot(alloc: Global, spot: EndFinding) -> Result<(), ReadError>
    ensures check { Gives result (end_reasons spot.there spot.counts.nodes spot.counts.edges
        spot.counts.switches) }
    ensures nodes { OnOk result (spot.counts.nodes < 1024) }
    ensures switches { OnOk result (spot.counts.switches < 200000) }
{
    if !spot.there {
        return Err(ReadError::here(alloc, Reason::NoBus));
    }
    check_terminal(alloc, spot.counts)
}

impl Standing {
    /// Nothing. It takes no memory.
    pub fn empty(alloc: Global) -> Standing
        ensures stands { Stands [] [] [] result }
        ensures none { result.switches ≡ 0 }
    {
        Standing {
            ids: SeenIds::empty(alloc),
            levels: BTreeMap::new(alloc),
            ends: BTreeMap::new(alloc),
            switches: 0,
        }
    }

    // Keeps a level, whose buses are these.
    #[tactic(auto, unfolding(crate::specs::Checks::level_nodes, crate::specs::Checks::level_edges))]
    fn keep_level(&mut self, level: &ConfiguredLevel, buses: SeenIds) -> Result<(), Memory>
        requires nodes { level_nodes level.now ≤ 1024 }
        requires edges { level_edges level.now ≤ 4096 }
        requires switches { (self.old.switches + level_edges level.now) ≤ 200000 }
        ensures levels { OnOk result ((q : List ℕ) → tally_at self.new.levels q
            ≡ (if bytes_eq level.now.id q then Some (tally_of buses level.now) else tally_at
            self.old.levels q)) }
        ensures switches { OnOk result (self.new.switches
            ≡ self.old.switches + level_edges level.now) }
        ensures ids { self.new.ids ≡ self.old.ids }
        ensures ends { self.new.ends ≡ self.old.ends }
    {
        let edges = level.switches.len() + level.items.len();
        let tally = Tally {
            buses,
            nodes: (level.buses.len() + level.items.len()) as u32,
            edges: edges as u32,
        };
        put_tally(&mut self.levels, &level.id, tally)?;
        self.switches += edges;
        Ok(())
    }

    /// A level with what stands in it, behind so many, which stands from then on.
    pub fn check_level(
        &mut self,
        alloc: Global,
        place: usize,
        level: &ConfiguredLevel,
    ) -> Result<(), ReadError>
        requires { self.old.switches ≤ 200000 }
        ensures check { (earlier : List LevelAt) → Stands (ids_of earlier) earlier [] self.old
            → length earlier ≡ place
            → Gives result (level_check earlier level.now) }
        ensures stands { OnOk result ((earlier : List LevelAt) → Stands (ids_of earlier) earlier []
            self.old
            → Stands (ids_of (earlier ++ level.now ∷ [])) (earlier ++ level.now ∷ []) [] self.new) }
        ensures few { OnOk result (self.new.switches ≤ 200000) }
    {
        check_level_itself(alloc, &mut self.ids, place, level)?;
        let mut buses = SeenIds::empty(alloc);
        check_contents(alloc, &mut self.ids, &mut buses, self.switches, level)?;
        match self.keep_level(level, buses) {
            Ok(()) => Ok(()),
            Err(Memory) => Err(ReadError::Memory),
        }
    }

    // What an end finds of its level; None exactly where no level has its id.
    #[tactic(auto, unfolding(crate::specs::Standing::tally_at))]
    fn find(&self, end: &BusEnd) -> Option<EndFinding>
        ensures spot { result
            ≡ option_map
            (spot_of end.now.bus (count_at self.now.ends end.now.level) self.now.switches)
            (tally_at self.now.levels end.now.level) }
        ensures within { IfSome result (λ spot. spot.ends ≤ spot.counts.nodes) }
        ensures switches { IfSome result (λ spot. spot.counts.switches ≡ self.now.switches) }
        ensures ends { IfSome result (λ spot. spot.ends ≡ count_at self.now.ends end.now.level) }
    {
        match self.levels.get(&end.level) {
            Some(tally) => Some(spot_in(
                tally,
                &end.bus,
                count_of(&self.ends, &end.level),
                self.switches,
            )),
            None => None,
        }
    }

    // One more end where it found so much.
    fn keep_end(&mut self, end: &BusEnd, ends: u32) -> Result<(), Memory>
        requires ends { ends < 1024 }
        requires switches { self.old.switches < 200000 }
        ensures ends { OnOk result ((q : List ℕ) → count_at self.new.ends q
            ≡ (if bytes_eq end.now.level q then ends + 1 else count_at self.old.ends q)) }
        ensures switches { OnOk result (self.new.switches ≡ self.old.switches + 1) }
        ensures ids { self.new.ids ≡ self.old.ids }
        ensures levels { self.new.levels ≡ self.old.levels }
    {
        put_count(&mut self.ends, &end.level, ends + 1)?;
        self.switches += 1;
        Ok(())
    }

    /// An end of a line, which stands from then on.
    pub fn check_end(&mut self, alloc: Global, end: &BusEnd) -> Result<(), ReadError>
        ensures check { (ids : List (List ℕ)) (levels : List LevelAt) (ends : List EndAt)
            → Stands ids levels ends self.old
            → Gives result (end_check levels ends end.now) }
        ensures stands { OnOk result ((ids : List (List ℕ)) (levels : List LevelAt) (ends : List
            EndAt)
            → Stands ids levels ends self.old
            → Stands ids levels (ends ++ end.now ∷ []) self.new) }
    {
        let Some(spot) = self.find(end) else {
            return Err(refused(alloc, EditFault::NoLevel));
        };
        check_spot(alloc, spot)?;
        match self.keep_end(end, spot.ends) {
            Ok(()) => Ok(()),
            Err(Memory) => Err(ReadError::Memory),
        }
    }
}
