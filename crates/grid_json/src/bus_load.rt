// Loading levels with configured buses: each bus is a busbar section at the node of its place, and each terminal at a
// bus stands at a node of its own behind a breaker of its own.
ghost use Rattle.std.specs.Prelude.{◌≡◌, ◌<◌, ◌≤◌, pos, length, slice_get, IfOk, codes};
ghost use Rattle.grid_level.specs.Passing.{placed_at};
ghost use Rattle.grid_placed.specs.Translation as translation;
ghost use Rattle.grid_structure.specs.Network.{Network};
ghost use Rattle.grid_structure.specs.Sites.{level_named, levels};
ghost use Rattle.grid_json.specs.Reading.{Gives, under};
ghost use Rattle.grid_json.specs.Loading as loading;
ghost use Rattle.grid_json.specs.Loading.{BreakerAnswers, Leads, breaker_load, bus_at, buses_load, edited, is_busbar_at, place_in, short_id};

use crate::buses::{BusInjection, BusLevelDraft, BusSwitch};
use crate::load::{Load, load_under, told};
use crate::{ReadError, Reason};
use grid_ids::{Id, IdFault, Memory};
use grid_kinds::SwitchKind;
use grid_level::{Level, Stand};
use grid_structure::{ApplyFault, Edit, EditFault, Structure};
use std::alloc::Global;

/// The most bytes that an id at a configured bus has, so that its breaker's has at most 128.
const LONGEST_AT_BUS: usize = 126;

/// Where the terminal of a side stands, and the bus that its breaker joins it with.
#[derive(Clone, Copy, Debug)]
pub struct Feed {
    pub side: u8,
    pub bus: u16,
    pub node: i64,
    pub connected: bool,
}

/// Whether a busbar section stands at a node.
#[tactic(auto, unfolding(grid_level::specs::Passing::is_busbar))]
fn has_busbar(level: &Level, node: u16) -> bool
    ensures { result ≡ is_busbar_at (placed_at level.now node) }
{
    match level.placed_at(node) {
        Some(placed) => match placed.stand {
            Stand::Busbar => true,
            Stand::Feeder(_) | Stand::BranchEnd => false,
        },
        None => false,
    }
}

/// The place of a configured bus in the level at a place.
fn bus_in(structure: &Structure, home: u32, bus: &Id) -> Option<u16>
    requires { home < length (levels structure.now) }
    ensures { result ≡ place_in (slice_get (levels structure.now) home) bus.now }
{
    structure.keeps();
    match structure.site(bus, 1) {
        None => None,
        Some(site) => if site.level != home {
            None
        } else if has_busbar(structure.level(home), site.node) {
            Some(site.node)
        } else {
            None
        },
    }
}

/// The place of a configured bus of a level, which is the node at which it stands there.
fn bus_of(structure: &Structure, level: &Id, bus: &Id) -> Option<u16>
    ensures { result ≡ place_in (level_named structure.now level.now) bus.now }
{
    match structure.find_level(level) {
        Some(home) => bus_in(structure, home, bus),
        None => None,
    }
}

/// The place of a configured bus, which must be one of the level.
#[tactic(auto, unfolding(crate::specs::Loading::bus_at))]
pub fn find_bus(
    alloc: Global,
    structure: &Structure,
    level: &Id,
    bus: &Id,
) -> Result<u16, ReadError>
    ensures { Gives result (bus_at structure.now level.now bus.now) }
{
    match bus_of(structure, level, bus) {
        Some(place) => Ok(place),
        None => Err(ReadError::here(alloc, Reason::NoBus)),
    }
}

/// Whether an id is short enough to stand at a bus.
pub fn check_id(alloc: Global, id: &Id) -> Result<(), ReadError>
    ensures { Gives result (short_id id.now) }
{
    if id.text().len() > LONGEST_AT_BUS {
        return Err(ReadError::here(alloc, Reason::LongAtBus));
    }
    Ok(())
}

/// How many nodes a level has, and none where it is not there.
#[tactic(auto, unfolding(crate::specs::Loading::next_node))]
pub fn next_node(structure: &Structure, level: &Id) -> u32
    ensures { result ≡ loading.next_node structure.now level.now }
{
    match structure.find_level(level) {
        Some(place) => structure.level(place).node_count(),
        None => 0,
    }
}

/// The id of the breaker of a side.
#[tactic(auto, unfolding(grid_placed::specs::Translation::breaker_id))]
fn breaker_id(alloc: Global, id: &Id, side: u8) -> Result<Id, Memory>
    ensures { IfOk result (λ breaker. breaker ≡ translation.breaker_id
        (record { equipment = id.now; side = side })) }
{
    let text = id.text();
    let Ok(name) = format!(in alloc; "{text}!{side}") else {
        return Err(Memory);
    };
    match Id::new(alloc, name.as_str()) {
        Ok(breaker) => Ok(breaker),
        Err(_) => Err(Memory),
    }
}

/// Whether an edit is refused since the id is taken.
fn is_taken(fault: &EditFault) -> bool
    ensures { result ≡ loading.is_taken fault.now }
{
    match fault {
        EditFault::IdTaken => true,
        _ => false,
    }
}

/// Why the breaker of a side is refused.
fn breaker_reason(side: u8, fault: EditFault) -> Reason
    ensures { result ≡ loading.breaker_reason side fault }
{
    if is_taken(&fault) {
        return Reason::BreakerTaken { side };
    }
    Reason::Load(fault)
}

/// What the answer of the edit that adds a breaker is for the load.
fn breaker_told(alloc: Global, side: u8, answer: Result<(), ApplyFault>) -> Result<(), ReadError>
    ensures { BreakerAnswers side result answer }
{
    match answer {
        Ok(()) => Ok(()),
        Err(ApplyFault::Refused(fault)) => Err(ReadError::here(alloc, breaker_reason(side, fault))),
        Err(ApplyFault::Memory) => Err(ReadError::Memory),
    }
}

/// The breaker of a terminal at a bus.
#[tactic(auto, unfolding(crate::specs::Loading::breaker_load))]
pub fn add_breaker(
    alloc: Global,
    id: &Id,
    level: &Id,
    feed: Feed,
    structure: &mut Structure,
) -> Result<(), ReadError>
    ensures { Leads structure.new result (breaker_load id.now feed.side level.now feed.bus
        feed.node feed.connected structure.old) }
{
    let breaker = breaker_id(alloc, id, feed.side)?;
    let answer = structure.add_switch(
        &breaker,
        level,
        SwitchKind::Breaker,
        feed.bus as i64,
        feed.node,
        !feed.connected,
        false,
        false,
    );
    breaker_told(alloc, feed.side, answer)
}

/// A bus of a level at the node of its place.
fn add_bus(
    alloc: Global,
    bus: &Id,
    level: &Id,
    place: usize,
    structure: &mut Structure,
) -> Result<(), ReadError>
    requires { place ≤ 65536 }
    ensures { Leads structure.new result
        (edited (Edit.AddBusbar bus.now level.now (pos place)) structure.old) }
{
    told(alloc, structure.add_busbar(bus, level, place as i64))
}

/// The buses of a level, each as a busbar section at the node of its place.
fn add_buses(
    alloc: Global,
    buses: &[Id],
    level: &Id,
    structure: &mut Structure,
) -> Result<(), ReadError>
    ensures { Leads structure.new result (buses_load 0 buses.now level.now structure.old) }
{
    for (place, bus) in buses.iter().enumerate() {
        match add_bus(alloc, bus, level, place, structure) {
            Ok(()) => {}
            Err(e) => return Err(e.under_position(alloc, place)),
        }
    }
    Ok(())
}

impl Load for BusSwitch {
    ghost use Rattle.grid_json.specs.Loading.{bus_switch_load};

    type Into = Structure;

    ghost State = { Network };

    ghost seen = { λ structure. structure };

    ghost loads = { bus_switch_load };

    #[tactic(auto, unfolding(crate::specs::Loading::bus_switch_load))]
    fn load(self, alloc: Global, owner: &Id, structure: &mut Structure) -> Result<(), ReadError> {
        let place1 = find_bus(alloc, structure, owner, &self.bus1)?;
        let place2 = find_bus(alloc, structure, owner, &self.bus2)?;
        if self.bus1 == self.bus2 {
            return Err(ReadError::here(alloc, Reason::SameBus));
        }
        let answer = structure.add_switch(
            &self.id,
            owner,
            SwitchKind::Breaker,
            place1 as i64,
            place2 as i64,
            self.opened,
            true,
            false,
        );
        told(alloc, answer)
    }
}

impl Load for BusInjection {
    ghost use Rattle.grid_json.specs.Loading.{bus_injection_load};

    type Into = Structure;

    ghost State = { Network };

    ghost seen = { λ structure. structure };

    ghost loads = { bus_injection_load };

    #[tactic(auto, unfolding(crate::specs::Loading::bus_injection_load))]
    fn load(self, alloc: Global, owner: &Id, structure: &mut Structure) -> Result<(), ReadError> {
        let bus = find_bus(alloc, structure, owner, &self.bus)?;
        check_id(alloc, &self.id)?;
        let node = next_node(structure, owner) as i64;
        told(
            alloc,
            structure.add_injection(&self.id, owner, node, &self.item),
        )?;
        let feed = Feed {
            side: 1,
            bus,
            node,
            connected: self.connected,
        };
        add_breaker(alloc, &self.id, owner, feed, structure)
    }
}

/// A level with configured buses, without its parts.
fn add_bare(
    alloc: Global,
    level: &BusLevelDraft,
    substation: &Id,
    structure: &mut Structure,
) -> Result<(), ReadError>
    ensures { Leads structure.new result (edited
        (Edit.AddLevel level.now.id substation.now level.now.nominal_v level.now.low_v
        level.now.high_v) structure.old) }
{
    let answer = structure.add_level(
        &level.id,
        substation,
        level.nominal_v,
        level.low_v,
        level.high_v,
    );
    told(alloc, answer)
}

/// The buses of a level under their name.
fn add_buses_under(
    alloc: Global,
    level: &BusLevelDraft,
    structure: &mut Structure,
) -> Result<(), ReadError>
    ensures { Leads structure.new result (under (codes "buses")
        (buses_load 0 level.now.buses level.now.id structure.old)) }
{
    match add_buses(alloc, level.buses.slice(), &level.id, structure) {
        Ok(()) => Ok(()),
        Err(e) => Err(e.under(alloc, "buses")),
    }
}

impl Load for BusLevelDraft {
    ghost use Rattle.grid_json.specs.Loading.{bus_level_load};

    type Into = Structure;

    ghost State = { Network };

    ghost seen = { λ structure. structure };

    ghost loads = { bus_level_load };

    #[tactic(auto, unfolding(crate::specs::Loading::bus_level_load))]
    fn load(self, alloc: Global, owner: &Id, structure: &mut Structure) -> Result<(), ReadError> {
        add_bare(alloc, &self, owner, structure)?;
        add_buses_under(alloc, &self, structure)?;
        load_under(alloc, self.switches, "switches", &self.id, structure)?;
        load_under(alloc, self.injections, "injections", &self.id, structure)
    }
}
