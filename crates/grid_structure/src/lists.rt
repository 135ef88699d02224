// A structure from lists of its parts, by the edits that add them in order.
ghost use Rattle.std.specs.Prelude.{◌≡◌, List, ℕ, IfOk, IfErr, OnOk, Ok, flat_map};
ghost use Rattle.grid_structure.specs.Editing as editing;
ghost use Rattle.grid_structure.specs.Editing.{IsTold};
ghost use Rattle.grid_structure.specs.Lists.{IsMade, each_listed, level_listed, listed, network_listed, substation_listed};

use crate::{ApplyFault, Edit, NamedBranch, Seeded, Structure};
use grid_ids::{Duplicate, Id, Seq};
use grid_kinds::{Injection, SwitchKind};

/// A busbar section at a node.
#[derive(Drop)]
pub struct BusbarAt {
    pub id: Id,
    pub node: i64,
}

/// A switch between two nodes.
#[derive(Drop)]
pub struct SwitchBetween {
    pub id: Id,
    pub kind: SwitchKind,
    pub node1: i64,
    pub node2: i64,
    pub opened: bool,
    pub retained: bool,
    pub fictitious: bool,
}

/// An internal connection between two nodes.
#[derive(Drop)]
pub struct InternalBetween {
    pub node1: i64,
    pub node2: i64,
}

/// An injection at a node.
#[derive(Drop)]
pub struct InjectionAt {
    pub id: Id,
    pub node: i64,
    pub item: Injection,
}

/// A level with its parts. The ends of branches are not among them: the branches say where they stand.
#[derive(Drop)]
pub struct LevelLists {
    pub id: Id,
    pub nominal_v: i64,
    pub low_v: Option<i64>,
    pub high_v: Option<i64>,
    pub busbars: Seq<BusbarAt>,
    pub switches: Seq<SwitchBetween>,
    pub internals: Seq<InternalBetween>,
    pub injections: Seq<InjectionAt>,
}

/// A substation with its levels and transformers.
#[derive(Drop)]
pub struct SubstationLists {
    pub id: Id,
    pub levels: Seq<LevelLists>,
    pub transformers: Seq<NamedBranch>,
}

/// A network with its substations and lines.
#[derive(Drop)]
pub struct NetworkLists {
    pub id: Id,
    pub substations: Seq<SubstationLists>,
    pub lines: Seq<NamedBranch>,
}

/// A part that one edit adds to the thing that owns it. It is given up then.
pub trait Part: Sized + Drop {
    ghost use Rattle.grid_structure.specs.declared.Edit.{Edit};

    // The edit.
    ghost edit: { List ℕ → Self → Edit };

    fn add(self, owner: &Id, structure: &mut Structure) -> Result<(), ApplyFault>
        ensures done { OnOk result (editing.apply structure.old (edit owner.now self)
            ≡ Ok structure.new) }
        ensures refused { IfErr result (IsTold (editing.apply structure.old
            (edit owner.now self))) };
}

impl Part for BusbarAt {
    ghost use Rattle.grid_structure.specs.Lists.{busbar_listed};

    ghost edit = { busbar_listed };

    fn add(self, level: &Id, structure: &mut Structure) -> Result<(), ApplyFault> {
        structure.add_busbar(&self.id, level, self.node)
    }
}

impl Part for SwitchBetween {
    ghost use Rattle.grid_structure.specs.Lists.{switch_listed};

    ghost edit = { switch_listed };

    fn add(self, level: &Id, structure: &mut Structure) -> Result<(), ApplyFault> {
        structure.add_switch(
            &self.id,
            level,
            self.kind,
            self.node1,
            self.node2,
            self.opened,
            self.retained,
            self.fictitious,
        )
    }
}

impl Part for InternalBetween {
    ghost use Rattle.grid_structure.specs.Lists.{internal_listed};

    ghost edit = { internal_listed };

    fn add(self, level: &Id, structure: &mut Structure) -> Result<(), ApplyFault> {
        structure.add_internal(level, self.node1, self.node2)
    }
}

impl Part for InjectionAt {
    ghost use Rattle.grid_structure.specs.Lists.{injection_listed};

    ghost edit = { injection_listed };

    fn add(self, level: &Id, structure: &mut Structure) -> Result<(), ApplyFault> {
        structure.add_injection(&self.id, level, self.node, &self.item)
    }
}

impl Part for NamedBranch {
    ghost use Rattle.grid_structure.specs.Lists.{branch_listed};

    ghost edit = { branch_listed };

    fn add(self, _owner: &Id, structure: &mut Structure) -> Result<(), ApplyFault> {
        structure.add_branch(&self.id, &self.shape)
    }
}

// Adds each part.
fn add_each<T: Part>(parts: Seq<T>, owner: &Id, structure: &mut Structure) -> Result<(), ApplyFault>
    ensures { IsMade structure.old (each_listed T.edit owner.now parts) structure.new result }
{
    for part in parts.into_vec() {
        part.add(owner, structure)?;
    }
    Ok(())
}

// Adds a level without its parts.
fn add_bare(
    level: &LevelLists,
    substation: &Id,
    structure: &mut Structure,
) -> Result<(), ApplyFault>
    ensures done { OnOk result (editing.apply structure.old (Edit.AddLevel level.now.id
        substation.now level.now.nominal_v level.now.low_v level.now.high_v) ≡ Ok structure.new) }
    ensures refused { IfErr result (IsTold (editing.apply structure.old (Edit.AddLevel
        level.now.id substation.now level.now.nominal_v level.now.low_v level.now.high_v))) }
{
    structure.add_level(
        &level.id,
        substation,
        level.nominal_v,
        level.low_v,
        level.high_v,
    )
}

// Adds a level with its parts.
fn add_level(
    level: LevelLists,
    substation: &Id,
    structure: &mut Structure,
) -> Result<(), ApplyFault>
    ensures { IsMade structure.old (level_listed substation.now level) structure.new result }
{
    add_bare(&level, substation, structure)?;
    add_each(level.busbars, &level.id, structure)?;
    add_each(level.switches, &level.id, structure)?;
    add_each(level.internals, &level.id, structure)?;
    add_each(level.injections, &level.id, structure)
}

// Adds each level of a substation.
fn add_levels(
    levels: Seq<LevelLists>,
    substation: &Id,
    structure: &mut Structure,
) -> Result<(), ApplyFault>
    ensures { IsMade structure.old (flat_map (level_listed substation.now) levels) structure.new
        result }
{
    for level in levels.into_vec() {
        add_level(level, substation, structure)?;
    }
    Ok(())
}

// Adds a substation with its levels and transformers.
fn add_substation(substation: SubstationLists, structure: &mut Structure) -> Result<(), ApplyFault>
    ensures { IsMade structure.old (substation_listed substation) structure.new result }
{
    structure.add_substation(&substation.id)?;
    add_levels(substation.levels, &substation.id, structure)?;
    add_each(substation.transformers, &substation.id, structure)
}

// Adds each substation of a network.
fn add_substations(
    substations: Seq<SubstationLists>,
    structure: &mut Structure,
) -> Result<(), ApplyFault>
    ensures { IsMade structure.old (flat_map substation_listed substations) structure.new result }
{
    for substation in substations.into_vec() {
        add_substation(substation, structure)?;
    }
    Ok(())
}

// Adds the substations and the lines of a network.
fn add_network(lists: NetworkLists, structure: &mut Structure) -> Result<(), ApplyFault>
    ensures { IsMade structure.old (network_listed lists) structure.new result }
{
    add_substations(lists.substations, structure)?;
    add_each(lists.lines, &lists.id, structure)
}

impl Structure {
    /// The structure that the edits of these lists make, or why the first edit that is refused is.
    #[tactic(auto, unfolding(crate::specs::Lists::listed))]
    pub fn from_lists(seeded: Seeded, lists: NetworkLists) -> Result<Structure, ApplyFault>
        ensures done { IfOk result (λ structure. listed lists ≡ Ok structure) }
        ensures refused { IfErr result (IsTold (listed lists)) }
    {
        let mut structure = Structure::empty(seeded, lists.id.copy()?);
        match add_network(lists, &mut structure) {
            Ok(()) => Ok(structure),
            Err(fault) => Err(fault),
        }
    }
}
