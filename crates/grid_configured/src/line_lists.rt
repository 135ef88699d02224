// Lines as records, and their ends in the lists of levels.
ghost use Rattle.std.specs.Prelude.{◌≡◌, ◌≤◌, ◌<◌, ◌+◌, ◌++◌, All, List, [], ℕ, Some, None, IfOk, IfSome, IsSome, OnOk, IsTrue, length, map, pos, slice_get, slice_set, take};
ghost use Rattle.grid_configured.specs.Names.{level_plain};
ghost use Rattle.grid_configured.specs.Levels.{item_outlet};
ghost use Rattle.grid_configured.specs.Checks.{IsTranslatable};
ghost use Rattle.grid_configured.specs.Numbers.{HasBuses, HasLevels, number_at};
ghost use Rattle.grid_configured.specs.Partial.{LevelStands, growing, grown, levels_with};
ghost use Rattle.grid_configured.specs.Translation.{translated_line};
ghost use Rattle.grid_configured.specs.declared.line_lists.GrowingLevel.{GrowingLevel as LevelAt};

use crate::level_lists::{breaker_between, level_lists, reserved_id};
use crate::network::{ConfiguredLevel, ConfiguredNetwork};
use crate::numbers::Numbers;
use grid_ids::{Duplicate, Id, Memory, Seq};
use grid_json::BusEnd;
use grid_structure::{Branch, End, LevelLists, NamedBranch};
use std::alloc::Global;

/// A level that gets ends of lines, with its next node.
#[derive(Drop)]
pub(crate) struct GrowingLevel {
    pub lists: LevelLists,
    pub next: u32,
}

// The level at a place, without the ends of lines.
#[tactic(auto, unfolding(crate::specs::Partial::growing))]
fn level_of(
    alloc: Global,
    numbers: &Numbers,
    level: &ConfiguredLevel,
) -> Result<GrowingLevel, Memory>
    requires numbered { HasBuses numbers.now level.now.buses }
    requires stands { LevelStands level.now }
    requires plain { IsTrue (level_plain level.now) }
    requires few { (length level.now.buses + length level.now.items) ≤ 1024 }
    ensures { IfOk result (λ made. made ≡ growing level.now (map (item_outlet level.now)
        level.now.items)) }
{
    let next = (level.buses.len() + level.items.len()) as u32;
    let lists = level_lists(alloc, numbers, level)?;
    Ok(GrowingLevel { lists, next })
}

/// The levels of a network without the ends of its lines.
pub(crate) fn levels_of(
    alloc: Global,
    numbers: &Numbers,
    network: &ConfiguredNetwork,
) -> Result<Vec<GrowingLevel>, Memory>
    requires translatable { IsTranslatable network.now }
    requires numbered { HasLevels numbers.now network.now.levels }
    ensures { IfOk result (λ made. made.items ≡ levels_with network.now []) }
{
    let mut made = Vec::new(alloc);
    for level in network.levels.slice() {
        let first = level_of(alloc, numbers, level)?;
        made.push(first)?;
    }
    Ok(made)
}

// Puts the breaker of an end at a level's next node, and tells where the end stands.
#[tactic(auto, unfolding(crate::specs::Partial::grown))]
fn put_end(level: &mut GrowingLevel, bus: u32, breaker: Id, end: &BusEnd) -> Result<End, Memory>
    requires { level.old.next < 1024 }
    ensures put { OnOk result (level.new ≡ grown breaker bus end.now.connected level.old) }
    ensures stands { IfOk result (λ made. made ≡ record {
      level = end.now.level;
      node = pos
          level.old.next;
    }) }
{
    let node = level.next;
    let switch = breaker_between(breaker, bus, node, end.connected);
    level.lists.switches.push(switch)?;
    level.next = node + 1;
    Ok(End {
        level: end.level.copy()?,
        node: i64::from(node),
    })
}

// Puts the ends of the line at a place into their levels, and makes its record.
fn put_line(
    alloc: Global,
    numbers: &Numbers,
    levels: &mut [GrowingLevel],
    network: &ConfiguredNetwork,
    place: usize,
) -> Result<NamedBranch, Memory>
    requires translatable { IsTranslatable network.now }
    requires numbered { HasLevels numbers.now network.now.levels }
    requires place { place < length network.now.lines }
    requires levels { levels.old ≡ levels_with network.now (take place network.now.lines) }
    ensures levels { OnOk result (levels.new ≡ levels_with network.now (take (place + 1)
        network.now.lines)) }
    ensures line { IfOk result (λ made. IfSome (slice_get network.now.lines place) (λ line. made
        ≡ translated_line network.now line)) }
{
    let line = &network.lines.slice()[place];
    let breaker1 = reserved_id(alloc, &line.id, "1")?;
    let breaker2 = reserved_id(alloc, &line.id, "2")?;
    let place1 = numbers.number(&line.end1.level) as usize;
    let bus1 = numbers.number(&line.end1.bus);
    let end1 = put_end(&mut levels[place1], bus1, breaker1, &line.end1)?;
    let place2 = numbers.number(&line.end2.level) as usize;
    let bus2 = numbers.number(&line.end2.bus);
    let end2 = put_end(&mut levels[place2], bus2, breaker2, &line.end2)?;
    Ok(NamedBranch {
        id: line.id.copy()?,
        shape: Branch::Line { end1, end2 },
    })
}

/// Puts the ends of all lines into their levels, and makes the lines' records.
pub(crate) fn put_lines(
    alloc: Global,
    numbers: &Numbers,
    levels: &mut [GrowingLevel],
    network: &ConfiguredNetwork,
) -> Result<Seq<NamedBranch>, Memory>
    requires translatable { IsTranslatable network.now }
    requires numbered { HasLevels numbers.now network.now.levels }
    requires levels { levels.old ≡ levels_with network.now [] }
    ensures levels { OnOk result (levels.new ≡ levels_with network.now network.now.lines) }
    ensures lines { IfOk result (λ made. made ≡ map (translated_line network.now)
        network.now.lines) }
{
    let mut made = Seq::empty(alloc);
    for place in 0..network.lines.len() {
        made.push(put_line(alloc, numbers, levels, network, place)?)?;
    }
    Ok(made)
}
