// The network of a job as it is written.
ghost use Rattle.std.specs.Prelude.{◌≡◌};
ghost use Rattle.grid_value.specs.View.{view};
ghost use Rattle.grid_json.specs.Reading.{Gives, texts};
ghost use Rattle.grid_json.specs.Network.{either_level_at, item_at, item_names, level_by, level_members_at, windings_at};

use crate::ReadError;
use crate::buses::{BusLevelDraft, EndDraft};
use crate::ends::{Three, Two};
use crate::format::Format;
use crate::kinds::{InjectionKind, Topology, WindingsKind};
use crate::read::{FromJson, member, member_otherwise, object, only, only_of_kind, optional};
use grid_ids::{Id, Seq};
use grid_kinds::{Injection, SwitchKind};
use grid_value::Value;
use std::alloc::Global;

/// A busbar section at a node.
#[derive(Drop)]
pub struct BusbarDraft {
    pub id: Id,
    pub node: i64,
}

/// A switch between two nodes.
#[derive(Drop)]
pub struct SwitchDraft {
    pub id: Id,
    pub kind: SwitchKind,
    pub node1: i64,
    pub node2: i64,
    pub opened: bool,
    pub retained: bool,
    pub fictitious: bool,
}

/// An internal connection between two nodes.
#[derive(Drop)]
pub struct InternalDraft {
    pub node1: i64,
    pub node2: i64,
}

/// An injection at a node.
#[derive(Drop)]
pub struct InjectionDraft {
    pub id: Id,
    pub node: i64,
    pub item: Injection,
}

/// A level of nodes with its parts.
#[derive(Drop)]
pub struct LevelDraft {
    pub id: Id,
    pub nominal_v: i64,
    pub low_v: Option<i64>,
    pub high_v: Option<i64>,
    pub busbars: Seq<BusbarDraft>,
    pub switches: Seq<SwitchDraft>,
    pub internals: Seq<InternalDraft>,
    pub injections: Seq<InjectionDraft>,
}

/// A level with its parts, joined by nodes or by configured buses.
#[derive(Drop)]
pub enum AnyLevelDraft {
    Nodes(LevelDraft),
    Buses(BusLevelDraft),
}

/// The windings of a transformer: where each stands, and its rated voltage in volts.
#[derive(Drop)]
pub enum Windings {
    Two {
        ends: Two<EndDraft>,
        rated_u: Two<i64>,
    },
    Three {
        ends: Three<EndDraft>,
        rated_u: Three<i64>,
    },
}

/// A transformer of a substation.
#[derive(Drop)]
pub struct TransformerDraft {
    pub id: Id,
    pub windings: Windings,
}

/// A line.
#[derive(Drop)]
pub struct LineDraft {
    pub id: Id,
    pub ends: Two<EndDraft>,
}

/// A substation with its levels and transformers.
#[derive(Drop)]
pub struct SubstationDraft {
    pub id: Id,
    pub levels: Seq<AnyLevelDraft>,
    pub transformers: Seq<TransformerDraft>,
}

/// A network with its substations and lines.
#[derive(Drop)]
pub struct NetworkDraft {
    pub id: Id,
    pub substations: Seq<SubstationDraft>,
    pub lines: Seq<LineDraft>,
}

/// The members of a busbar section.
pub const BUSBAR_MEMBERS: &[&str] = &["id", "node"];

impl FromJson for BusbarDraft {
    ghost use Rattle.grid_json.specs.Network.{busbar_at};

    ghost reads = { λ _. busbar_at };

    #[tactic(auto, unfolding(crate::specs::Network::busbar_at))]
    fn from_json(alloc: Global, format: Format, value: &Value) -> Result<BusbarDraft, ReadError> {
        only(alloc, value, BUSBAR_MEMBERS)?;
        let id = member(alloc, format, value, "id")?;
        let node = member(alloc, format, value, "node")?;
        Ok(BusbarDraft { id, node })
    }
}

/// The members of a switch between two nodes.
pub const SWITCH_MEMBERS: &[&str] = &[
    "id",
    "kind",
    "node1",
    "node2",
    "open",
    "retained",
    "fictitious",
];

impl FromJson for SwitchDraft {
    ghost use Rattle.grid_json.specs.Network.{switch_at};

    ghost reads = { switch_at };

    #[tactic(auto, unfolding(crate::specs::Network::switch_at))]
    fn from_json(alloc: Global, format: Format, value: &Value) -> Result<SwitchDraft, ReadError> {
        only(alloc, value, SWITCH_MEMBERS)?;
        let id = member(alloc, format, value, "id")?;
        let kind = member(alloc, format, value, "kind")?;
        let node1 = member(alloc, format, value, "node1")?;
        let node2 = member(alloc, format, value, "node2")?;
        let opened = member_otherwise(alloc, format, value, "open", false)?;
        let retained = member_otherwise(alloc, format, value, "retained", false)?;
        let fictitious = member_otherwise(alloc, format, value, "fictitious", false)?;
        Ok(SwitchDraft {
            id,
            kind,
            node1,
            node2,
            opened,
            retained,
            fictitious,
        })
    }
}

/// The members of an internal connection.
pub const INTERNAL_MEMBERS: &[&str] = &["node1", "node2"];

impl FromJson for InternalDraft {
    ghost use Rattle.grid_json.specs.Network.{internal_at};

    ghost reads = { λ _. internal_at };

    #[tactic(auto, unfolding(crate::specs::Network::internal_at))]
    fn from_json(alloc: Global, format: Format, value: &Value) -> Result<InternalDraft, ReadError> {
        only(alloc, value, INTERNAL_MEMBERS)?;
        let node1 = member(alloc, format, value, "node1")?;
        let node2 = member(alloc, format, value, "node2")?;
        Ok(InternalDraft { node1, node2 })
    }
}

/// The members that all injections at nodes have.
pub const INJECTION_MEMBERS: &[&str] = &["kind", "id", "node"];

/// The members that an injection has by its kind.
pub fn names_of_item(kind: InjectionKind) -> &'static [&'static str]
    ensures { texts result.now ≡ item_names kind }
{
    match kind {
        InjectionKind::Load => &["p0", "q0"],
        InjectionKind::Generator => &["target_p", "target_v", "min_p", "max_p"],
        InjectionKind::Battery => &["target_p", "target_q", "min_p", "max_p"],
        InjectionKind::ShuntCompensator => &["section_count", "max_sections"],
        InjectionKind::StaticVarCompensator | InjectionKind::ConverterStation => &["target_q"],
    }
}

/// The record of a load.
#[tactic(auto, unfolding(crate::specs::Network::item_at))]
fn load_of(alloc: Global, format: Format, value: &Value) -> Result<Injection, ReadError>
    ensures { Gives result (item_at InjectionKind.Load (view value.now)) }
{
    let p0 = member(alloc, format, value, "p0")?;
    let q0 = member(alloc, format, value, "q0")?;
    Ok(Injection::Load { p0, q0 })
}

/// The record of a generator.
#[tactic(auto, unfolding(crate::specs::Network::item_at))]
fn generator_of(alloc: Global, format: Format, value: &Value) -> Result<Injection, ReadError>
    ensures { Gives result (item_at InjectionKind.Generator (view value.now)) }
{
    let target_p = member(alloc, format, value, "target_p")?;
    let target_v = member(alloc, format, value, "target_v")?;
    let min_p = member(alloc, format, value, "min_p")?;
    let max_p = member(alloc, format, value, "max_p")?;
    Ok(Injection::Generator {
        target_p,
        target_v,
        min_p,
        max_p,
    })
}

/// The record of a battery.
#[tactic(auto, unfolding(crate::specs::Network::item_at))]
fn battery_of(alloc: Global, format: Format, value: &Value) -> Result<Injection, ReadError>
    ensures { Gives result (item_at InjectionKind.Battery (view value.now)) }
{
    let target_p = member(alloc, format, value, "target_p")?;
    let target_q = member(alloc, format, value, "target_q")?;
    let min_p = member(alloc, format, value, "min_p")?;
    let max_p = member(alloc, format, value, "max_p")?;
    Ok(Injection::Battery {
        target_p,
        target_q,
        min_p,
        max_p,
    })
}

/// The record of a shunt compensator.
#[tactic(auto, unfolding(crate::specs::Network::item_at))]
fn shunt_compensator_of(
    alloc: Global,
    format: Format,
    value: &Value,
) -> Result<Injection, ReadError>
    ensures { Gives result (item_at InjectionKind.ShuntCompensator (view value.now)) }
{
    let section_count = member(alloc, format, value, "section_count")?;
    let max_sections = member(alloc, format, value, "max_sections")?;
    Ok(Injection::ShuntCompensator {
        section_count,
        max_sections,
    })
}

/// The record of a static var compensator.
#[tactic(auto, unfolding(crate::specs::Network::item_at))]
fn static_var_compensator_of(
    alloc: Global,
    format: Format,
    value: &Value,
) -> Result<Injection, ReadError>
    ensures { Gives result (item_at InjectionKind.StaticVarCompensator (view value.now)) }
{
    let target_q = member(alloc, format, value, "target_q")?;
    Ok(Injection::StaticVarCompensator { target_q })
}

/// The record of a converter station.
#[tactic(auto, unfolding(crate::specs::Network::item_at))]
fn converter_station_of(
    alloc: Global,
    format: Format,
    value: &Value,
) -> Result<Injection, ReadError>
    ensures { Gives result (item_at InjectionKind.ConverterStation (view value.now)) }
{
    let target_q = member(alloc, format, value, "target_q")?;
    Ok(Injection::ConverterStation { target_q })
}

/// The record of an injection of a kind.
pub fn item_of(
    alloc: Global,
    format: Format,
    kind: InjectionKind,
    value: &Value,
) -> Result<Injection, ReadError>
    ensures { Gives result (item_at kind (view value.now)) }
{
    match kind {
        InjectionKind::Load => load_of(alloc, format, value),
        InjectionKind::Generator => generator_of(alloc, format, value),
        InjectionKind::Battery => battery_of(alloc, format, value),
        InjectionKind::ShuntCompensator => shunt_compensator_of(alloc, format, value),
        InjectionKind::StaticVarCompensator => static_var_compensator_of(alloc, format, value),
        InjectionKind::ConverterStation => converter_station_of(alloc, format, value),
    }
}

impl FromJson for InjectionDraft {
    ghost use Rattle.grid_json.specs.Network.{injection_at};

    ghost reads = { injection_at };

    #[tactic(auto, unfolding(crate::specs::Network::injection_at))]
    fn from_json(
        alloc: Global,
        format: Format,
        value: &Value,
    ) -> Result<InjectionDraft, ReadError> {
        object(alloc, value)?;
        let kind = member(alloc, format, value, "kind")?;
        only_of_kind(alloc, value, INJECTION_MEMBERS, names_of_item(kind))?;
        let id = member(alloc, format, value, "id")?;
        let node = member(alloc, format, value, "node")?;
        let item = item_of(alloc, format, kind, value)?;
        Ok(InjectionDraft { id, node, item })
    }
}

/// The members of a level of nodes.
#[tactic(auto, unfolding(crate::specs::Network::level_members_at))]
fn level_members(alloc: Global, format: Format, value: &Value) -> Result<LevelDraft, ReadError>
    ensures { Gives result (level_members_at format (view value.now)) }
{
    let id = member(alloc, format, value, "id")?;
    let nominal_v = member(alloc, format, value, "nominal_v")?;
    let low_v = optional(alloc, format, value, "low_v")?;
    let high_v = optional(alloc, format, value, "high_v")?;
    let busbars = member_otherwise(alloc, format, value, "busbars", Seq::empty(alloc))?;
    let switches = member_otherwise(alloc, format, value, "switches", Seq::empty(alloc))?;
    let internals = member_otherwise(alloc, format, value, "internal", Seq::empty(alloc))?;
    let injections = member_otherwise(alloc, format, value, "injections", Seq::empty(alloc))?;
    Ok(LevelDraft {
        id,
        nominal_v,
        low_v,
        high_v,
        busbars,
        switches,
        internals,
        injections,
    })
}

/// The members of a level of nodes.
pub const LEVEL_MEMBERS: &[&str] = &[
    "id",
    "nominal_v",
    "low_v",
    "high_v",
    "busbars",
    "switches",
    "internal",
    "injections",
];

impl FromJson for LevelDraft {
    ghost use Rattle.grid_json.specs.Network.{level_at};

    ghost reads = { level_at };

    #[tactic(auto, unfolding(crate::specs::Network::level_at))]
    fn from_json(alloc: Global, format: Format, value: &Value) -> Result<LevelDraft, ReadError> {
        only(alloc, value, LEVEL_MEMBERS)?;
        level_members(alloc, format, value)
    }
}

/// The members of a level of nodes that may say so.
pub const NODE_LEVEL_MEMBERS: &[&str] = &[
    "topology",
    "id",
    "nominal_v",
    "low_v",
    "high_v",
    "busbars",
    "switches",
    "internal",
    "injections",
];

/// A level of nodes that may say so.
#[tactic(auto, unfolding(crate::specs::Network::level_by))]
fn node_level(alloc: Global, format: Format, value: &Value) -> Result<AnyLevelDraft, ReadError>
    ensures { Gives result (level_by Topology.Nodes format (view value.now)) }
{
    only(alloc, value, NODE_LEVEL_MEMBERS)?;
    Ok(AnyLevelDraft::Nodes(level_members(alloc, format, value)?))
}

/// A level with configured buses.
#[tactic(auto, unfolding(crate::specs::Network::level_by))]
fn bus_level(alloc: Global, format: Format, value: &Value) -> Result<AnyLevelDraft, ReadError>
    ensures { Gives result (level_by Topology.Buses format (view value.now)) }
{
    Ok(AnyLevelDraft::Buses(BusLevelDraft::from_json(alloc, format, value)?))
}

/// A level of the kind that it says, and of nodes where it does not say.
#[tactic(auto, unfolding(crate::specs::Network::either_level_at))]
fn either_level(alloc: Global, format: Format, value: &Value) -> Result<AnyLevelDraft, ReadError>
    ensures { Gives result (either_level_at format (view value.now)) }
{
    let topology = member_otherwise(alloc, format, value, "topology", Topology::Nodes)?;
    match topology {
        Topology::Nodes => node_level(alloc, format, value),
        Topology::Buses => bus_level(alloc, format, value),
    }
}

impl FromJson for AnyLevelDraft {
    ghost use Rattle.grid_json.specs.Network.{any_level_at};

    ghost reads = { any_level_at };

    #[tactic(auto, unfolding(crate::specs::Network::any_level_at))]
    fn from_json(alloc: Global, format: Format, value: &Value) -> Result<AnyLevelDraft, ReadError> {
        if format.has_buses() {
            return either_level(alloc, format, value);
        }
        Ok(AnyLevelDraft::Nodes(LevelDraft::from_json(alloc, format, value)?))
    }
}

/// The windings of a kind.
#[tactic(auto, unfolding(crate::specs::Network::windings_at))]
pub fn windings_of(
    alloc: Global,
    format: Format,
    kind: WindingsKind,
    value: &Value,
) -> Result<Windings, ReadError>
    ensures { Gives result (windings_at format kind (view value.now)) }
{
    match kind {
        WindingsKind::Two => {
            let ends = member(alloc, format, value, "ends")?;
            let rated_u = member(alloc, format, value, "rated_u")?;
            Ok(Windings::Two { ends, rated_u })
        }
        WindingsKind::Three => {
            let ends = member(alloc, format, value, "ends")?;
            let rated_u = member(alloc, format, value, "rated_u")?;
            Ok(Windings::Three { ends, rated_u })
        }
    }
}

/// The members of a transformer.
pub const TRANSFORMER_MEMBERS: &[&str] = &["kind", "id", "ends", "rated_u"];

impl FromJson for TransformerDraft {
    ghost use Rattle.grid_json.specs.Network.{transformer_at};

    ghost reads = { transformer_at };

    #[tactic(auto, unfolding(crate::specs::Network::transformer_at))]
    fn from_json(
        alloc: Global,
        format: Format,
        value: &Value,
    ) -> Result<TransformerDraft, ReadError> {
        object(alloc, value)?;
        let kind = member(alloc, format, value, "kind")?;
        only(alloc, value, TRANSFORMER_MEMBERS)?;
        let id = member(alloc, format, value, "id")?;
        let windings = windings_of(alloc, format, kind, value)?;
        Ok(TransformerDraft { id, windings })
    }
}

/// The members of a line.
pub const LINE_MEMBERS: &[&str] = &["id", "ends"];

impl FromJson for LineDraft {
    ghost use Rattle.grid_json.specs.Network.{line_at};

    ghost reads = { line_at };

    #[tactic(auto, unfolding(crate::specs::Network::line_at))]
    fn from_json(alloc: Global, format: Format, value: &Value) -> Result<LineDraft, ReadError> {
        only(alloc, value, LINE_MEMBERS)?;
        let id = member(alloc, format, value, "id")?;
        let ends = member(alloc, format, value, "ends")?;
        Ok(LineDraft { id, ends })
    }
}

/// The members of a substation.
pub const SUBSTATION_MEMBERS: &[&str] = &["id", "levels", "transformers"];

impl FromJson for SubstationDraft {
    ghost use Rattle.grid_json.specs.Network.{substation_at};

    ghost reads = { substation_at };

    #[tactic(auto, unfolding(crate::specs::Network::substation_at))]
    fn from_json(
        alloc: Global,
        format: Format,
        value: &Value,
    ) -> Result<SubstationDraft, ReadError> {
        only(alloc, value, SUBSTATION_MEMBERS)?;
        let id = member(alloc, format, value, "id")?;
        let levels = member_otherwise(alloc, format, value, "levels", Seq::empty(alloc))?;
        let transformers = member_otherwise(
            alloc,
            format,
            value,
            "transformers",
            Seq::empty(alloc),
        )?;
        Ok(SubstationDraft {
            id,
            levels,
            transformers,
        })
    }
}

/// The members of a network.
pub const NETWORK_MEMBERS: &[&str] = &["id", "substations", "lines"];

impl FromJson for NetworkDraft {
    ghost use Rattle.grid_json.specs.Network.{network_at};

    ghost reads = { network_at };

    #[tactic(auto, unfolding(crate::specs::Network::network_at))]
    fn from_json(alloc: Global, format: Format, value: &Value) -> Result<NetworkDraft, ReadError> {
        only(alloc, value, NETWORK_MEMBERS)?;
        let id = member(alloc, format, value, "id")?;
        let substations = member_otherwise(alloc, format, value, "substations", Seq::empty(alloc))?;
        let lines = member_otherwise(alloc, format, value, "lines", Seq::empty(alloc))?;
        Ok(NetworkDraft {
            id,
            substations,
            lines,
        })
    }
}
