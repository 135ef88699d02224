// Loading a network as edits, in order.
ghost use Rattle.std.specs.Prelude.{◌≡◌, List, ℕ, Result, IfOk};
ghost use Rattle.grid_structure.specs.Network.{Network};
ghost use Rattle.grid_json.specs.Reading.{Gives};
ghost use Rattle.grid_json.specs.declared.fault.Fault.{Fault as FaultAt};
ghost use Rattle.grid_json.specs.Loading.{Loaded, Leads, Answers, load_items, load_member, edited, loaded_of, parts_load, network_load};

use crate::loader::Loader;
use crate::network::{
    AnyLevelDraft, BusbarDraft, InjectionDraft, InternalDraft, LevelDraft, NetworkDraft,
    SubstationDraft, SwitchDraft,
};
use crate::{ReadError, Reason};
use grid_ids::{Duplicate, Id, Seq};
use grid_structure::{ApplyFault, Edit, Seeded, Structure};
use std::alloc::Global;

/// What loading makes edits of, within the thing that owns it. It is given up then.
pub trait Load: Sized + Drop {
    /// What it is loaded into.
    type Into;

    // What is seen of it.
    ghost State: { Type 0 };

    ghost seen: { Self.Into → State };

    // What is there with this part.
    ghost loads: { Self → List ℕ → State → Result State FaultAt };

    fn load(self, alloc: Global, owner: &Id, into: &mut Self::Into) -> Result<(), ReadError>
        ensures { Leads (seen into.new) result (loads self owner.now (seen into.old)) };
}

/// The parts that stand under a name.
pub fn load_under<T: Load>(
    alloc: Global,
    parts: Seq<T>,
    name: &str,
    owner: &Id,
    into: &mut T::Into,
) -> Result<(), ReadError>
    ensures { Leads (T.seen into.new) result
        (load_member T.loads name.now parts owner.now (T.seen into.old)) }
{
    match load_each(alloc, parts, owner, into) {
        Ok(()) => Ok(()),
        Err(e) => Err(e.under(alloc, name)),
    }
}

/// Each part, under its position.
fn load_each<T: Load>(
    alloc: Global,
    parts: Seq<T>,
    owner: &Id,
    into: &mut T::Into,
) -> Result<(), ReadError>
    ensures { Leads (T.seen into.new) result
        (load_items T.loads 0 parts owner.now (T.seen into.old)) }
{
    let mut position = 0usize;
    for part in parts.into_vec() {
        if let Err(e) = part.load(alloc, owner, into) {
            return Err(e.under_position(alloc, position));
        }
        position += 1;
    }
    Ok(())
}

/// What the answer of an edit is for the load.
pub fn told(alloc: Global, answer: Result<(), ApplyFault>) -> Result<(), ReadError>
    ensures { Answers result answer }
{
    match answer {
        Ok(()) => Ok(()),
        Err(ApplyFault::Refused(fault)) => Err(ReadError::here(alloc, Reason::Load(fault))),
        Err(ApplyFault::Memory) => Err(ReadError::Memory),
    }
}

impl Load for BusbarDraft {
    type Into = Structure;

    ghost State = { Network };

    ghost seen = { λ structure. structure };

    ghost use Rattle.grid_json.specs.Loading.{busbar_load};

    ghost loads = { busbar_load };

    #[tactic(auto, unfolding(crate::specs::Loading::busbar_load))]
    fn load(self, alloc: Global, owner: &Id, structure: &mut Structure) -> Result<(), ReadError> {
        told(alloc, structure.add_busbar(&self.id, owner, self.node))
    }
}

impl Load for SwitchDraft {
    type Into = Structure;

    ghost State = { Network };

    ghost seen = { λ structure. structure };

    ghost use Rattle.grid_json.specs.Loading.{switch_load};

    ghost loads = { switch_load };

    #[tactic(auto, unfolding(crate::specs::Loading::switch_load))]
    fn load(self, alloc: Global, owner: &Id, structure: &mut Structure) -> Result<(), ReadError> {
        let answer = structure.add_switch(
            &self.id,
            owner,
            self.kind,
            self.node1,
            self.node2,
            self.opened,
            self.retained,
            self.fictitious,
        );
        told(alloc, answer)
    }
}

impl Load for InternalDraft {
    type Into = Structure;

    ghost State = { Network };

    ghost seen = { λ structure. structure };

    ghost use Rattle.grid_json.specs.Loading.{internal_load};

    ghost loads = { internal_load };

    #[tactic(auto, unfolding(crate::specs::Loading::internal_load))]
    fn load(self, alloc: Global, owner: &Id, structure: &mut Structure) -> Result<(), ReadError> {
        told(alloc, structure.add_internal(owner, self.node1, self.node2))
    }
}

impl Load for InjectionDraft {
    type Into = Structure;

    ghost State = { Network };

    ghost seen = { λ structure. structure };

    ghost use Rattle.grid_json.specs.Loading.{injection_load};

    ghost loads = { injection_load };

    #[tactic(auto, unfolding(crate::specs::Loading::injection_load))]
    fn load(self, alloc: Global, owner: &Id, structure: &mut Structure) -> Result<(), ReadError> {
        told(
            alloc,
            structure.add_injection(&self.id, owner, self.node, &self.item),
        )
    }
}

/// A level without its parts.
fn add_level(
    alloc: Global,
    level: &LevelDraft,
    substation: &Id,
    structure: &mut Structure,
) -> Result<(), ReadError>
    ensures { Leads structure.new result (edited
        (Edit.AddLevel level.now.id substation.now level.now.nominal_v level.now.low_v
        level.now.high_v) structure.old) }
{
    let answer = structure.add_level(
        &level.id,
        substation,
        level.nominal_v,
        level.low_v,
        level.high_v,
    );
    told(alloc, answer)
}

impl Load for LevelDraft {
    type Into = Structure;

    ghost State = { Network };

    ghost seen = { λ structure. structure };

    ghost use Rattle.grid_json.specs.Loading.{level_load};

    ghost loads = { level_load };

    #[tactic(auto, unfolding(crate::specs::Loading::level_load))]
    fn load(self, alloc: Global, owner: &Id, structure: &mut Structure) -> Result<(), ReadError> {
        add_level(alloc, &self, owner, structure)?;
        load_under(alloc, self.busbars, "busbars", &self.id, structure)?;
        load_under(alloc, self.switches, "switches", &self.id, structure)?;
        load_under(alloc, self.internals, "internal", &self.id, structure)?;
        load_under(alloc, self.injections, "injections", &self.id, structure)
    }
}

impl Load for AnyLevelDraft {
    ghost use Rattle.grid_json.specs.Loading.{any_level_load};

    type Into = Loader;

    ghost State = { Loaded };

    ghost seen = { loaded_of };

    ghost loads = { any_level_load };

    #[tactic(auto, unfolding(crate::specs::Loading::any_level_load))]
    fn load(self, alloc: Global, owner: &Id, loader: &mut Loader) -> Result<(), ReadError> {
        match self {
            AnyLevelDraft::Nodes(level) => loader.add_level(alloc, level, owner),
            AnyLevelDraft::Buses(level) => loader.add_bus_level(alloc, level, owner),
        }
    }
}

/// A substation without its parts.
fn add_substation(alloc: Global, id: &Id, structure: &mut Structure) -> Result<(), ReadError>
    ensures { Leads structure.new result (edited (Edit.AddSubstation id.now) structure.old) }
{
    told(alloc, structure.add_substation(id))
}

impl Load for SubstationDraft {
    ghost use Rattle.grid_json.specs.Loading.{substation_load};

    type Into = Loader;

    ghost State = { Loaded };

    ghost seen = { loaded_of };

    ghost loads = { substation_load };

    #[tactic(auto, unfolding(crate::specs::Loading::substation_load))]
    fn load(self, alloc: Global, _owner: &Id, loader: &mut Loader) -> Result<(), ReadError> {
        add_substation(alloc, &self.id, &mut loader.structure)?;
        load_under(alloc, self.levels, "levels", &self.id, loader)?;
        load_under(alloc, self.transformers, "transformers", &self.id, loader)
    }
}

/// The substations and the lines of a network.
#[tactic(auto, unfolding(crate::specs::Loading::parts_load))]
fn load_parts(alloc: Global, draft: NetworkDraft, loader: &mut Loader) -> Result<(), ReadError>
    ensures { Leads (loaded_of loader.new) result (parts_load draft (loaded_of loader.old)) }
{
    load_under(alloc, draft.substations, "substations", &draft.id, loader)?;
    load_under(alloc, draft.lines, "lines", &draft.id, loader)
}

/// How many ids a level and its parts have: of a level with configured buses, at least so many.
fn count_level_ids(level: &AnyLevelDraft) -> usize {
    let (busbars, switches, injections) = match level {
        AnyLevelDraft::Nodes(level) => (
            level.busbars.len(),
            level.switches.len(),
            level.injections.len(),
        ),
        AnyLevelDraft::Buses(level) => (
            level.buses.len(),
            level.switches.len(),
            level.injections.len(),
        ),
    };
    busbars
        .saturating_add(switches)
        .saturating_add(injections)
        .saturating_add(1)
}

/// How many ids a substation, its levels and its transformers have.
fn count_substation_ids(substation: &SubstationDraft) -> usize {
    let mut count = substation.transformers.len().saturating_add(1);
    for level in substation.levels.slice() {
        count = count.saturating_add(count_level_ids(level));
    }
    count
}

/// How many ids the parts of a network have, for which the table of ids makes room at once.
fn count_ids(draft: &NetworkDraft) -> usize {
    let mut count = draft.lines.len();
    for substation in draft.substations.slice() {
        count = count.saturating_add(count_substation_ids(substation));
    }
    count
}

/// The network of a draft.
#[tactic(auto, unfolding(crate::specs::Loading::network_load))]
pub fn load_network(seeded: Seeded, draft: NetworkDraft) -> Result<Structure, ReadError>
    ensures { Gives result (network_load draft) }
{
    let alloc = seeded.alloc;
    let mut loader = Loader::with_room(seeded, draft.id.copy()?, count_ids(&draft))?;
    match load_parts(alloc, draft, &mut loader) {
        Ok(()) => Ok(loader.structure),
        Err(e) => Err(e.under(alloc, "network")),
    }
}
