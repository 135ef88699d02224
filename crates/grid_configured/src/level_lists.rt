// A level in node/breaker form as lists, without the ends of lines.
ghost use Rattle.std.specs.Prelude.{◌≡◌, true, false, ◌≤◌, ◌+◌, ◌++◌, All, Some, None, IfOk, OnOk, IsTrue, codes, find, length, map, not, pos};
ghost use Rattle.std.specs.List.{enumerate_from};
ghost use Rattle.grid_ids.specs.Name.{has_id};
ghost use Rattle.grid_ids.specs.Fault.{id_fault, is_control};
ghost use Rattle.grid_configured.specs.Levels.{item_outlet};
ghost use Rattle.grid_configured.specs.Names.{is_plain, level_plain};
ghost use Rattle.grid_configured.specs.Numbers.{HasBuses, number_at};
ghost use Rattle.grid_configured.specs.Partial.{LevelStands, bus_at, end_breaker, item_at, item_breaker, joint_at, level_with};

use crate::network::ConfiguredLevel;
use crate::numbers::Numbers;
use grid_ids::{Duplicate, Id, IdFault, Memory, Seq};
use grid_json::{BusInjection, BusSwitch};
use grid_kinds::SwitchKind;
use grid_structure::{BusbarAt, InjectionAt, LevelLists, SwitchBetween};
use std::alloc::Global;

// The id with this text, which is one.
fn id_of(alloc: Global, text: &str) -> Result<Id, Memory>
    requires { id_fault text.now ≡ None }
    ensures { IfOk result (λ id. id ≡ text.now) }
{
    match Id::new(alloc, text) {
        Ok(id) => Ok(id),
        Err(IdFault::Memory) => Err(Memory),
        Err(_) => unreachable!(),
    }
}

/// A reserved id of what is added for a thing: the thing's id, `!`, and a tag.
pub(crate) fn reserved_id(alloc: Global, id: &Id, tag: &str) -> Result<Id, Memory>
    requires plain { IsTrue (is_plain id.now) }
    requires short { length tag.now ≤ 1 }
    requires clean { find is_control tag.now ≡ None }
    ensures { IfOk result (λ made. made ≡ id.now ++ codes "!" ++ tag.now) }
{
    let own = id.text();
    let text = format!(in alloc; "{own}!{tag}")?;
    id_of(alloc, text.as_str())
}

// A breaker between two nodes.
fn switch_between(id: Id, node1: u32, node2: u32, opened: bool, retained: bool) -> SwitchBetween
    ensures { result ≡ record {
      id = id;
      kind = SwitchKind.Breaker;
      node1 = pos node1;
      node2 = pos
          node2;
      opened = opened;
      retained = retained;
      fictitious = false;
    } }
{
    SwitchBetween {
        id,
        kind: SwitchKind::Breaker,
        node1: i64::from(node1),
        node2: i64::from(node2),
        opened,
        retained,
        fictitious: false,
    }
}

/// A breaker between the node of a bus and that of a terminal, closed where it is connected.
pub(crate) fn breaker_between(id: Id, bus: u32, node: u32, connected: bool) -> SwitchBetween
    ensures { result ≡ end_breaker id bus node connected }
{
    switch_between(id, bus, node, !connected, false)
}

// Each bus at the node of its place.
fn busbars_of(alloc: Global, buses: &[Id]) -> Result<Seq<BusbarAt>, Memory>
    ensures { IfOk result (λ made. made ≡ map bus_at (enumerate_from 0 buses.now)) }
{
    let mut made = Seq::empty(alloc);
    for (place, bus) in buses.iter().enumerate() {
        made.push(BusbarAt {
            id: bus.copy()?,
            node: place as i64,
        })?;
    }
    Ok(made)
}

// A switch of a level between its two buses.
fn joint_of(
    numbers: &Numbers,
    level: &ConfiguredLevel,
    switch: &BusSwitch,
) -> Result<SwitchBetween, Memory>
    requires numbered { HasBuses numbers.now level.now.buses }
    requires bus1 { has_id level.now.buses switch.now.bus1 ≡ true }
    requires bus2 { has_id level.now.buses switch.now.bus2 ≡ true }
    ensures { IfOk result (λ made. made ≡ joint_at level.now switch.now) }
{
    let id = switch.id.copy()?;
    let node1 = numbers.number(&switch.bus1);
    let node2 = numbers.number(&switch.bus2);
    Ok(switch_between(id, node1, node2, switch.opened, true))
}

// The switches of a level between its buses.
fn joints_of(
    alloc: Global,
    numbers: &Numbers,
    level: &ConfiguredLevel,
) -> Result<Seq<SwitchBetween>, Memory>
    requires numbered { HasBuses numbers.now level.now.buses }
    requires stands { LevelStands level.now }
    ensures { IfOk result (λ made. made ≡ map (joint_at level.now) level.now.switches) }
{
    let mut made = Seq::empty(alloc);
    for switch in level.switches.slice() {
        let joint = joint_of(numbers, level, switch)?;
        made.push(joint)?;
    }
    Ok(made)
}

// The breaker of an injection at a node.
fn breaker_of(
    alloc: Global,
    numbers: &Numbers,
    level: &ConfiguredLevel,
    item: &BusInjection,
    node: u32,
) -> Result<SwitchBetween, Memory>
    requires numbered { HasBuses numbers.now level.now.buses }
    requires bus { has_id level.now.buses item.now.bus ≡ true }
    requires plain { IsTrue (is_plain item.now.id) }
    ensures { IfOk result (λ made. made ≡ item_breaker level.now (node, item.now)) }
{
    let id = reserved_id(alloc, &item.id, "1")?;
    let bus = numbers.number(&item.bus);
    Ok(breaker_between(id, bus, node, item.connected))
}

// An injection at a node.
fn item_of(item: &BusInjection, node: u32) -> Result<InjectionAt, Memory>
    ensures { IfOk result (λ made. made ≡ item_at (node, item.now)) }
{
    Ok(InjectionAt {
        id: item.id.copy()?,
        node: i64::from(node),
        item: item.item.copy()?,
    })
}

// The injections of a level at the nodes behind those of its buses, and behind its switches a breaker for each.
fn items_of(
    alloc: Global,
    numbers: &Numbers,
    level: &ConfiguredLevel,
    switches: &mut Seq<SwitchBetween>,
) -> Result<Seq<InjectionAt>, Memory>
    requires numbered { HasBuses numbers.now level.now.buses }
    requires stands { LevelStands level.now }
    requires plain { IsTrue (level_plain level.now) }
    requires few { (length level.now.buses + length level.now.items) ≤ 1024 }
    ensures items { IfOk result (λ made. made ≡ map item_at (enumerate_from (length
        level.now.buses) level.now.items)) }
    ensures breakers { OnOk result (switches.new ≡ switches.old ++ map (item_breaker level.now)
        (enumerate_from (length level.now.buses) level.now.items)) }
{
    let mut made = Seq::empty(alloc);
    for (own, item) in level.items.slice().iter().enumerate() {
        let node = (level.buses.len() + own) as u32;
        let breaker = breaker_of(alloc, numbers, level, item, node)?;
        switches.push(breaker)?;
        let placed = item_of(item, node)?;
        made.push(placed)?;
    }
    Ok(made)
}

/// A level with its buses, its switches and its injections.
pub(crate) fn level_lists(
    alloc: Global,
    numbers: &Numbers,
    level: &ConfiguredLevel,
) -> Result<LevelLists, Memory>
    requires numbered { HasBuses numbers.now level.now.buses }
    requires stands { LevelStands level.now }
    requires plain { IsTrue (level_plain level.now) }
    requires few { (length level.now.buses + length level.now.items) ≤ 1024 }
    ensures { IfOk result (λ made. made ≡ level_with level.now (map (item_outlet level.now)
        level.now.items)) }
{
    let busbars = busbars_of(alloc, level.buses.slice())?;
    let mut switches = joints_of(alloc, numbers, level)?;
    let injections = items_of(alloc, numbers, level, &mut switches)?;
    Ok(LevelLists {
        id: level.id.copy()?,
        nominal_v: level.nominal_v,
        low_v: None,
        high_v: None,
        busbars,
        switches,
        internals: Seq::empty(alloc),
        injections,
    })
}
