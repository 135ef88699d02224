// Levels with configured buses as they are written, and ends of branches, which may stand at such buses.
ghost use Rattle.std.specs.Prelude.{◌≡◌};
ghost use Rattle.grid_value.specs.View.{view};
ghost use Rattle.grid_json.specs.Reading.{Gives, texts};
ghost use Rattle.grid_json.specs.Network.{bus_injection_names, bus_level_at, either_end_at};

use crate::ReadError;
use crate::format::Format;
use crate::kinds::InjectionKind;
use crate::network::item_of;
use crate::read::{FromJson, member, member_otherwise, object, only, optional};
use grid_ids::{Id, Ids, Seq};
use grid_kinds::Injection;
use grid_structure::End;
use grid_value::Value;
use std::alloc::Global;

/// A switch between two configured buses of its level.
#[derive(Drop)]
pub struct BusSwitch {
    pub id: Id,
    /// The bus at side 1.
    pub bus1: Id,
    /// The bus at side 2.
    pub bus2: Id,
    /// Whether the switch is open at first.
    pub opened: bool,
}

/// An injection at a configured bus of its level.
#[derive(Drop)]
pub struct BusInjection {
    pub id: Id,
    /// The bus at which its terminal stands.
    pub bus: Id,
    /// Whether the terminal is connected at first.
    pub connected: bool,
    /// What is injected.
    pub item: Injection,
}

/// A level with configured buses: named buses, switches between them, and injections at them.
#[derive(Drop)]
pub struct BusLevelDraft {
    pub id: Id,
    pub nominal_v: i64,
    pub low_v: Option<i64>,
    pub high_v: Option<i64>,
    /// The ids of the buses; a bus's place is its position here.
    pub buses: Ids,
    pub switches: Seq<BusSwitch>,
    pub injections: Seq<BusInjection>,
}

/// An end of a branch at a configured bus.
#[derive(Drop)]
pub struct BusEnd {
    /// The level of the bus.
    pub level: Id,
    /// The bus at which the terminal stands.
    pub bus: Id,
    /// Whether the terminal is connected at first.
    pub connected: bool,
}

/// An end of a branch: at a node, or at a configured bus.
pub enum EndDraft {
    Node(End),
    Bus(BusEnd),
}

// Written out, so that where an end is dropped a proof sees one call, and not a case for each kind of end.
impl Drop for EndDraft {
    fn drop(self) {
        match self {
            EndDraft::Node(_) | EndDraft::Bus(_) => {}
        }
    }
}

impl EndDraft {
    ghost use Rattle.grid_json.specs.Loading as loading;

    /// The level of the end.
    pub fn level(&self) -> &Id
        ensures { result.now ≡ loading.level_of self.now }
    {
        match self {
            EndDraft::Node(end) => &end.level,
            EndDraft::Bus(end) => &end.level,
        }
    }

    /// Whether the end stands at a configured bus.
    pub fn is_by_bus(&self) -> bool
        ensures { result ≡ loading.is_by_bus self.now }
    {
        match self {
            EndDraft::Node(_) => false,
            EndDraft::Bus(_) => true,
        }
    }
}

/// The members of a switch between two configured buses.
pub const BUS_SWITCH_MEMBERS: &[&str] = &["id", "bus1", "bus2", "open"];

impl FromJson for BusSwitch {
    ghost use Rattle.grid_json.specs.Network.{bus_switch_at};

    ghost reads = { λ _. bus_switch_at };

    #[tactic(auto, unfolding(crate::specs::Network::bus_switch_at))]
    fn from_json(alloc: Global, format: Format, value: &Value) -> Result<BusSwitch, ReadError> {
        only(alloc, value, BUS_SWITCH_MEMBERS)?;
        let id = member(alloc, format, value, "id")?;
        let bus1 = member(alloc, format, value, "bus1")?;
        let bus2 = member(alloc, format, value, "bus2")?;
        let opened = member_otherwise(alloc, format, value, "open", false)?;
        Ok(BusSwitch {
            id,
            bus1,
            bus2,
            opened,
        })
    }
}

/// The members that all injections at configured buses have.
pub const BUS_INJECTION_MEMBERS: &[&str] = &["kind", "id", "bus", "connected"];

/// The members of an injection of a kind at a configured bus.
pub fn names_of_bus_injection(kind: InjectionKind) -> &'static [&'static str]
    ensures { texts result.now ≡ bus_injection_names kind }
{
    match kind {
        InjectionKind::Load => &["kind", "id", "bus", "connected", "p0", "q0"],
        InjectionKind::Generator => &[
            "kind",
            "id",
            "bus",
            "connected",
            "target_p",
            "target_v",
            "min_p",
            "max_p",
        ],
        InjectionKind::Battery => &[
            "kind",
            "id",
            "bus",
            "connected",
            "target_p",
            "target_q",
            "min_p",
            "max_p",
        ],
        InjectionKind::ShuntCompensator => &[
            "kind",
            "id",
            "bus",
            "connected",
            "section_count",
            "max_sections",
        ],
        InjectionKind::StaticVarCompensator | InjectionKind::ConverterStation => {
            &["kind", "id", "bus", "connected", "target_q"]
        }
    }
}

impl FromJson for BusInjection {
    ghost use Rattle.grid_json.specs.Network.{bus_injection_at};

    ghost reads = { bus_injection_at };

    #[tactic(auto, unfolding(crate::specs::Network::bus_injection_at))]
    fn from_json(alloc: Global, format: Format, value: &Value) -> Result<BusInjection, ReadError> {
        object(alloc, value)?;
        let kind = member(alloc, format, value, "kind")?;
        only(alloc, value, names_of_bus_injection(kind))?;
        let id = member(alloc, format, value, "id")?;
        let bus = member(alloc, format, value, "bus")?;
        let connected = member_otherwise(alloc, format, value, "connected", true)?;
        let item = item_of(alloc, format, kind, value)?;
        Ok(BusInjection {
            id,
            bus,
            connected,
            item,
        })
    }
}

/// The members of a level with configured buses.
pub const BUS_LEVEL_MEMBERS: &[&str] = &[
    "topology",
    "id",
    "nominal_v",
    "low_v",
    "high_v",
    "buses",
    "switches",
    "injections",
];

impl FromJson for BusLevelDraft {
    ghost reads = { bus_level_at };

    #[tactic(auto, unfolding(crate::specs::Network::bus_level_at))]
    fn from_json(alloc: Global, format: Format, value: &Value) -> Result<BusLevelDraft, ReadError> {
        only(alloc, value, BUS_LEVEL_MEMBERS)?;
        let id = member(alloc, format, value, "id")?;
        let nominal_v = member(alloc, format, value, "nominal_v")?;
        let low_v = optional(alloc, format, value, "low_v")?;
        let high_v = optional(alloc, format, value, "high_v")?;
        let buses = member_otherwise(alloc, format, value, "buses", Seq::empty(alloc))?;
        let switches = member_otherwise(alloc, format, value, "switches", Seq::empty(alloc))?;
        let injections = member_otherwise(alloc, format, value, "injections", Seq::empty(alloc))?;
        Ok(BusLevelDraft {
            id,
            nominal_v,
            low_v,
            high_v,
            buses,
            switches,
            injections,
        })
    }
}

/// The members of an end at a configured bus.
pub const BUS_END_MEMBERS: &[&str] = &["level", "bus", "connected"];

impl FromJson for BusEnd {
    ghost use Rattle.grid_json.specs.Network.{bus_end_at};

    ghost reads = { λ _. bus_end_at };

    #[tactic(auto, unfolding(crate::specs::Network::bus_end_at))]
    fn from_json(alloc: Global, format: Format, value: &Value) -> Result<BusEnd, ReadError> {
        only(alloc, value, BUS_END_MEMBERS)?;
        let level = member(alloc, format, value, "level")?;
        let bus = member(alloc, format, value, "bus")?;
        let connected = member_otherwise(alloc, format, value, "connected", true)?;
        Ok(BusEnd {
            level,
            bus,
            connected,
        })
    }
}

/// An end at a bus where it names one, and else at a node.
#[tactic(auto, unfolding(crate::specs::Network::either_end_at))]
fn either_end(alloc: Global, format: Format, value: &Value) -> Result<EndDraft, ReadError>
    ensures { Gives result (either_end_at (view value.now)) }
{
    if value.get("bus").is_some() {
        return Ok(EndDraft::Bus(BusEnd::from_json(alloc, format, value)?));
    }
    Ok(EndDraft::Node(End::from_json(alloc, format, value)?))
}

impl FromJson for EndDraft {
    ghost use Rattle.grid_json.specs.Network.{end_draft_at};

    ghost reads = { end_draft_at };

    #[tactic(auto, unfolding(crate::specs::Network::end_draft_at))]
    fn from_json(alloc: Global, format: Format, value: &Value) -> Result<EndDraft, ReadError> {
        if format.has_buses() {
            return either_end(alloc, format, value);
        }
        Ok(EndDraft::Node(End::from_json(alloc, format, value)?))
    }
}
