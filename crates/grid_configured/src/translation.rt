// A network with configured buses in node/breaker form, made of lists.
ghost use Rattle.std.specs.Prelude.{◌≡◌, All, IfOk, IsTrue, map};
ghost use Rattle.grid_configured.specs.Checks.{IsTranslatable};
ghost use Rattle.grid_structure.specs.Lists.{network_shown};
ghost use Rattle.grid_configured.specs.Names.{is_plain};
ghost use Rattle.grid_configured.specs.Partial.{housed};
ghost use Rattle.grid_configured.specs.Translation.{translated};

use crate::level_lists::reserved_id;
use crate::line_lists::{GrowingLevel, levels_of, put_lines};
use crate::network::ConfiguredNetwork;
use crate::numbers::numbers_of;
use grid_ids::{Duplicate, Memory, Seq};
use grid_structure::{ApplyFault, NetworkLists, Seeded, Structure, SubstationLists};
use std::alloc::Global;

// A level in a substation of its own.
fn house(alloc: Global, level: GrowingLevel) -> Result<SubstationLists, Memory>
    requires { IsTrue (is_plain level.lists.id) }
    ensures { IfOk result (λ made. made ≡ housed level) }
{
    let id = reserved_id(alloc, &level.lists.id, "S")?;
    let mut levels = Seq::empty(alloc);
    levels.push(level.lists)?;
    Ok(SubstationLists {
        id,
        levels,
        transformers: Seq::empty(alloc),
    })
}

// Each level in a substation of its own.
fn house_each(alloc: Global, levels: Vec<GrowingLevel>) -> Result<Seq<SubstationLists>, Memory>
    requires { All (λ level. IsTrue (is_plain level.lists.id)) levels.items }
    ensures { IfOk result (λ made. made ≡ map housed levels.items) }
{
    let mut made = Seq::empty(alloc);
    for level in levels {
        made.push(house(alloc, level)?)?;
    }
    Ok(made)
}

// The lists of the network in node/breaker form.
fn lists_of(seeded: Seeded, network: &ConfiguredNetwork) -> Result<NetworkLists, Memory>
    requires { IsTranslatable network.now }
    ensures { IfOk result (λ lists. lists ≡ network_shown (translated network.now)) }
{
    let alloc = seeded.alloc;
    let numbers = numbers_of(seeded, network)?;
    let mut levels = levels_of(alloc, &numbers, network)?;
    let lines = put_lines(alloc, &numbers, &mut levels, network)?;
    Ok(NetworkLists {
        id: network.id.copy()?,
        substations: house_each(alloc, levels)?,
        lines,
    })
}

/// A network in node/breaker form: each level in a substation of its own, whose id is the level's with `!S` behind it;
/// each bus a busbar section of its id at the node of its place; the switches retained breakers between those nodes;
/// and each terminal, injections before ends of lines, at a node behind those of the buses, joined to its bus by a
/// breaker of its own, whose id is the equipment's with `!` and the side behind it, closed where the terminal is
/// connected. All ids of the network are plain, and no fault is found in it, so that no id clashes and no limit is
/// passed.
pub fn translate(seeded: Seeded, network: &ConfiguredNetwork) -> Result<Structure, Memory>
    requires { IsTranslatable network.now }
    ensures { IfOk result (λ structure. structure ≡ translated network.now) }
{
    let lists = lists_of(seeded, network)?;
    match Structure::from_lists(seeded, lists) {
        Ok(structure) => Ok(structure),
        Err(ApplyFault::Memory) => Err(Memory),
        Err(ApplyFault::Refused(_)) => unreachable!(),
    }
}
