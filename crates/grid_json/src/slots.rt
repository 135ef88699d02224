// The members of a network and of its parts, found one by one in any order.
ghost use Rattle.std.specs.Prelude.{◌≡◌, ◌<◌, ◌∷◌, [], None, IfSome, OnSome, codes, length, true};
ghost use Rattle.json.specs.Json.{after_end_array};
ghost use Rattle.grid_json.specs.Streams.{Streams};

use crate::buses::EndDraft;
use crate::ends::Two;
use crate::format::Format;
use crate::network::{
    AnyLevelDraft, BusbarDraft, InjectionDraft, InternalDraft, LevelDraft, LineDraft, NetworkDraft,
    SubstationDraft, SwitchDraft, TransformerDraft,
};
use crate::tokens::{Both, FromTokens, Offer, Slots, fill, is_named, object_of, or_none, small};
use grid_ids::{Id, Seq};
use grid_kinds::SwitchKind;
use grid_structure::End;
use json::{Reader, Token};
use std::alloc::Global;

/// The id and the kind of a switch.
#[derive(Drop)]
pub struct KindSlots {
    pub id: Option<Id>,
    pub kind: Option<SwitchKind>,
}

impl Slots for KindSlots {
    ghost use Rattle.grid_json.specs.Slots.{KindHolds, kind_names};
    ghost use Rattle.grid_json.specs.Kept.{kind_kept};

    ghost names = { kind_names };

    ghost apart = { true };

    ghost holds = { KindHolds };

    ghost kept = { kind_kept };

    fn empty() -> KindSlots {
        KindSlots {
            id: None,
            kind: None,
        }
    }

    fn take(
        &mut self,
        alloc: Global,
        format: Format,
        name: &str,
        reader: &mut Reader<'_>,
        depth: usize,
    ) -> Offer {
        if is_named(name, "id") {
            fill(alloc, format, &mut self.id, reader, depth)
        } else if is_named(name, "kind") {
            fill(alloc, format, &mut self.kind, reader, depth)
        } else {
            Offer::Unknown
        }
    }
}

/// The nodes of a switch or of an internal connection.
#[derive(Drop)]
pub struct NodeSlots {
    pub node1: Option<i64>,
    pub node2: Option<i64>,
}

impl Slots for NodeSlots {
    ghost use Rattle.grid_json.specs.Slots.{NodeHolds, node_names};
    ghost use Rattle.grid_json.specs.Kept.{node_kept};

    ghost names = { node_names };

    ghost apart = { true };

    ghost holds = { NodeHolds };

    ghost kept = { node_kept };

    fn empty() -> NodeSlots {
        NodeSlots {
            node1: None,
            node2: None,
        }
    }

    fn take(
        &mut self,
        alloc: Global,
        format: Format,
        name: &str,
        reader: &mut Reader<'_>,
        depth: usize,
    ) -> Offer {
        if is_named(name, "node1") {
            fill(alloc, format, &mut self.node1, reader, depth)
        } else if is_named(name, "node2") {
            fill(alloc, format, &mut self.node2, reader, depth)
        } else {
            Offer::Unknown
        }
    }
}

/// The flags of a switch.
#[derive(Drop)]
pub struct FlagSlots {
    pub opened: Option<bool>,
    pub retained: Option<bool>,
    pub fictitious: Option<bool>,
}

impl Slots for FlagSlots {
    ghost use Rattle.grid_json.specs.Slots.{FlagHolds, flag_names};
    ghost use Rattle.grid_json.specs.Kept.{flag_kept};

    ghost names = { flag_names };

    ghost apart = { true };

    ghost holds = { FlagHolds };

    ghost kept = { flag_kept };

    fn empty() -> FlagSlots {
        FlagSlots {
            opened: None,
            retained: None,
            fictitious: None,
        }
    }

    fn take(
        &mut self,
        alloc: Global,
        format: Format,
        name: &str,
        reader: &mut Reader<'_>,
        depth: usize,
    ) -> Offer {
        if is_named(name, "open") {
            fill(alloc, format, &mut self.opened, reader, depth)
        } else if is_named(name, "retained") {
            fill(alloc, format, &mut self.retained, reader, depth)
        } else if is_named(name, "fictitious") {
            fill(alloc, format, &mut self.fictitious, reader, depth)
        } else {
            Offer::Unknown
        }
    }
}

impl FromTokens for SwitchDraft {
    #[tactic(auto, unfolding(crate::specs::Network::switch_at))]
    fn from_tokens(
        alloc: Global,
        format: Format,
        reader: &mut Reader<'_>,
        depth: usize,
    ) -> Option<SwitchDraft> {
        let slots: Both<KindSlots, Both<NodeSlots, FlagSlots>> = object_of(
            alloc, format, reader, depth,
        )?;
        let Both {
            first: named,
            second: rest,
        } = slots;
        let Both {
            first: nodes,
            second: flags,
        } = rest;
        Some(SwitchDraft {
            id: named.id?,
            kind: named.kind?,
            node1: nodes.node1?,
            node2: nodes.node2?,
            opened: flags.opened.unwrap_or(false),
            retained: flags.retained.unwrap_or(false),
            fictitious: flags.fictitious.unwrap_or(false),
        })
    }
}

impl FromTokens for InternalDraft {
    #[tactic(auto, unfolding(crate::specs::Network::internal_at))]
    fn from_tokens(
        alloc: Global,
        format: Format,
        reader: &mut Reader<'_>,
        depth: usize,
    ) -> Option<InternalDraft> {
        let slots: NodeSlots = object_of(alloc, format, reader, depth)?;
        Some(InternalDraft {
            node1: slots.node1?,
            node2: slots.node2?,
        })
    }
}

/// The id and the node of what stands at a node.
#[derive(Drop)]
pub struct PlaceSlots {
    pub id: Option<Id>,
    pub node: Option<i64>,
}

impl Slots for PlaceSlots {
    ghost use Rattle.grid_json.specs.Slots.{PlaceHolds, place_names};
    ghost use Rattle.grid_json.specs.Kept.{place_kept};

    ghost names = { place_names };

    ghost apart = { true };

    ghost holds = { PlaceHolds };

    ghost kept = { place_kept };

    fn empty() -> PlaceSlots {
        PlaceSlots {
            id: None,
            node: None,
        }
    }

    fn take(
        &mut self,
        alloc: Global,
        format: Format,
        name: &str,
        reader: &mut Reader<'_>,
        depth: usize,
    ) -> Offer {
        if is_named(name, "id") {
            fill(alloc, format, &mut self.id, reader, depth)
        } else if is_named(name, "node") {
            fill(alloc, format, &mut self.node, reader, depth)
        } else {
            Offer::Unknown
        }
    }
}

impl FromTokens for BusbarDraft {
    #[tactic(auto, unfolding(crate::specs::Network::busbar_at))]
    fn from_tokens(
        alloc: Global,
        format: Format,
        reader: &mut Reader<'_>,
        depth: usize,
    ) -> Option<BusbarDraft> {
        let slots: PlaceSlots = object_of(alloc, format, reader, depth)?;
        Some(BusbarDraft {
            id: slots.id?,
            node: slots.node?,
        })
    }
}

/// The id and the voltages of a level.
#[derive(Drop)]
pub struct VoltageSlots {
    pub id: Option<Id>,
    pub nominal_v: Option<i64>,
    pub low_v: Option<i64>,
    pub high_v: Option<i64>,
}

impl Slots for VoltageSlots {
    ghost use Rattle.grid_json.specs.Slots.{VoltageHolds, voltage_names};
    ghost use Rattle.grid_json.specs.Kept.{voltage_kept};

    ghost names = { voltage_names };

    ghost apart = { true };

    ghost holds = { VoltageHolds };

    ghost kept = { voltage_kept };

    fn empty() -> VoltageSlots {
        VoltageSlots {
            id: None,
            nominal_v: None,
            low_v: None,
            high_v: None,
        }
    }

    fn take(
        &mut self,
        alloc: Global,
        format: Format,
        name: &str,
        reader: &mut Reader<'_>,
        depth: usize,
    ) -> Offer {
        if is_named(name, "id") {
            fill(alloc, format, &mut self.id, reader, depth)
        } else if is_named(name, "nominal_v") {
            fill(alloc, format, &mut self.nominal_v, reader, depth)
        } else if is_named(name, "low_v") {
            fill(alloc, format, &mut self.low_v, reader, depth)
        } else if is_named(name, "high_v") {
            fill(alloc, format, &mut self.high_v, reader, depth)
        } else {
            Offer::Unknown
        }
    }
}

/// The parts of a level.
#[derive(Drop)]
pub struct PartSlots {
    pub busbars: Option<Seq<BusbarDraft>>,
    pub switches: Option<Seq<SwitchDraft>>,
    pub internals: Option<Seq<InternalDraft>>,
    pub injections: Option<Seq<InjectionDraft>>,
}

impl Slots for PartSlots {
    ghost use Rattle.grid_json.specs.Slots.{PartHolds, part_names};
    ghost use Rattle.grid_json.specs.Kept.{part_kept};

    ghost names = { part_names };

    ghost apart = { true };

    ghost holds = { PartHolds };

    ghost kept = { part_kept };

    fn empty() -> PartSlots {
        PartSlots {
            busbars: None,
            switches: None,
            internals: None,
            injections: None,
        }
    }

    fn take(
        &mut self,
        alloc: Global,
        format: Format,
        name: &str,
        reader: &mut Reader<'_>,
        depth: usize,
    ) -> Offer {
        if is_named(name, "busbars") {
            fill(alloc, format, &mut self.busbars, reader, depth)
        } else if is_named(name, "switches") {
            fill(alloc, format, &mut self.switches, reader, depth)
        } else if is_named(name, "internal") {
            fill(alloc, format, &mut self.internals, reader, depth)
        } else if is_named(name, "injections") {
            fill(alloc, format, &mut self.injections, reader, depth)
        } else {
            Offer::Unknown
        }
    }
}

impl FromTokens for LevelDraft {
    #[tactic(auto, unfolding(crate::specs::Network::level_at))]
    fn from_tokens(
        alloc: Global,
        format: Format,
        reader: &mut Reader<'_>,
        depth: usize,
    ) -> Option<LevelDraft> {
        let slots: Both<VoltageSlots, PartSlots> = object_of(alloc, format, reader, depth)?;
        let Both {
            first: voltages,
            second: parts,
        } = slots;
        Some(LevelDraft {
            id: voltages.id?,
            nominal_v: voltages.nominal_v?,
            low_v: voltages.low_v,
            high_v: voltages.high_v,
            busbars: or_none(alloc, parts.busbars),
            switches: or_none(alloc, parts.switches),
            internals: or_none(alloc, parts.internals),
            injections: or_none(alloc, parts.injections),
        })
    }
}

/// A level of a format that has configured buses is read by way of a tree of it alone.
impl FromTokens for AnyLevelDraft {
    #[tactic(auto, unfolding(crate::specs::Network::any_level_at))]
    fn from_tokens(
        alloc: Global,
        format: Format,
        reader: &mut Reader<'_>,
        depth: usize,
    ) -> Option<AnyLevelDraft> {
        if format.has_buses() {
            return small(alloc, format, reader, depth);
        }
        let level = LevelDraft::from_tokens(alloc, format, reader, depth)?;
        Some(AnyLevelDraft::Nodes(level))
    }
}

/// An end at a node.
#[derive(Drop)]
pub struct EndSlots {
    pub level: Option<Id>,
    pub node: Option<i64>,
}

impl Slots for EndSlots {
    ghost use Rattle.grid_json.specs.Slots.{EndHolds, end_names};
    ghost use Rattle.grid_json.specs.Kept.{end_kept};

    ghost names = { end_names };

    ghost apart = { true };

    ghost holds = { EndHolds };

    ghost kept = { end_kept };

    fn empty() -> EndSlots {
        EndSlots {
            level: None,
            node: None,
        }
    }

    fn take(
        &mut self,
        alloc: Global,
        format: Format,
        name: &str,
        reader: &mut Reader<'_>,
        depth: usize,
    ) -> Offer {
        if is_named(name, "level") {
            fill(alloc, format, &mut self.level, reader, depth)
        } else if is_named(name, "node") {
            fill(alloc, format, &mut self.node, reader, depth)
        } else {
            Offer::Unknown
        }
    }
}

impl FromTokens for End {
    #[tactic(auto, unfolding(crate::specs::Network::end_at))]
    fn from_tokens(
        alloc: Global,
        format: Format,
        reader: &mut Reader<'_>,
        depth: usize,
    ) -> Option<End> {
        let slots: EndSlots = object_of(alloc, format, reader, depth)?;
        Some(End {
            level: slots.level?,
            node: slots.node?,
        })
    }
}

/// An end of a format that has configured buses is read by way of a tree of it alone.
impl FromTokens for EndDraft {
    #[tactic(auto, unfolding(crate::specs::Network::end_draft_at))]
    fn from_tokens(
        alloc: Global,
        format: Format,
        reader: &mut Reader<'_>,
        depth: usize,
    ) -> Option<EndDraft> {
        if format.has_buses() {
            return small(alloc, format, reader, depth);
        }
        Some(EndDraft::Node(End::from_tokens(alloc, format, reader, depth)?))
    }
}

/// The next item of an array.
fn next_item<T: FromTokens>(
    alloc: Global,
    format: Format,
    reader: &mut Reader<'_>,
    depth: usize,
) -> Option<T>
    ensures item { IfSome result (λ item. (after_end_array reader.old ≡ None)
        × Streams (T.reads format) depth reader.old reader.new item) }
    ensures shorter { OnSome result (length reader.new < length reader.old) }
{
    if reader.take_end_array() {
        return None;
    }
    T::from_tokens(alloc, format, reader, depth)
}

impl<T: FromTokens> FromTokens for Two<T> {
    fn from_tokens(
        alloc: Global,
        format: Format,
        reader: &mut Reader<'_>,
        depth: usize,
    ) -> Option<Two<T>> {
        if depth == 0 {
            return None;
        }
        let Some(Token::BeginArray) = reader.next() else {
            return None;
        };
        let first = next_item(alloc, format, reader, depth - 1)?;
        let second = next_item(alloc, format, reader, depth - 1)?;
        if !reader.take_end_array() {
            return None;
        }
        Some(Two { first, second })
    }
}

/// The members of a line.
#[derive(Drop)]
pub struct LineSlots {
    pub id: Option<Id>,
    pub ends: Option<Two<EndDraft>>,
}

impl Slots for LineSlots {
    ghost use Rattle.grid_json.specs.Slots.{LineHolds, line_names};
    ghost use Rattle.grid_json.specs.Kept.{line_kept};

    ghost names = { line_names };

    ghost apart = { true };

    ghost holds = { LineHolds };

    ghost kept = { line_kept };

    fn empty() -> LineSlots {
        LineSlots {
            id: None,
            ends: None,
        }
    }

    fn take(
        &mut self,
        alloc: Global,
        format: Format,
        name: &str,
        reader: &mut Reader<'_>,
        depth: usize,
    ) -> Offer {
        if is_named(name, "id") {
            fill(alloc, format, &mut self.id, reader, depth)
        } else if is_named(name, "ends") {
            fill(alloc, format, &mut self.ends, reader, depth)
        } else {
            Offer::Unknown
        }
    }
}

impl FromTokens for LineDraft {
    #[tactic(auto, unfolding(crate::specs::Network::line_at))]
    fn from_tokens(
        alloc: Global,
        format: Format,
        reader: &mut Reader<'_>,
        depth: usize,
    ) -> Option<LineDraft> {
        let slots: LineSlots = object_of(alloc, format, reader, depth)?;
        Some(LineDraft {
            id: slots.id?,
            ends: slots.ends?,
        })
    }
}

/// The members of a substation.
#[derive(Drop)]
pub struct SubstationSlots {
    pub id: Option<Id>,
    pub levels: Option<Seq<AnyLevelDraft>>,
    pub transformers: Option<Seq<TransformerDraft>>,
}

impl Slots for SubstationSlots {
    ghost use Rattle.grid_json.specs.Slots.{SubstationHolds, substation_names};
    ghost use Rattle.grid_json.specs.Kept.{substation_kept};

    ghost names = { substation_names };

    ghost apart = { true };

    ghost holds = { SubstationHolds };

    ghost kept = { substation_kept };

    fn empty() -> SubstationSlots {
        SubstationSlots {
            id: None,
            levels: None,
            transformers: None,
        }
    }

    fn take(
        &mut self,
        alloc: Global,
        format: Format,
        name: &str,
        reader: &mut Reader<'_>,
        depth: usize,
    ) -> Offer {
        if is_named(name, "id") {
            fill(alloc, format, &mut self.id, reader, depth)
        } else if is_named(name, "levels") {
            fill(alloc, format, &mut self.levels, reader, depth)
        } else if is_named(name, "transformers") {
            fill(alloc, format, &mut self.transformers, reader, depth)
        } else {
            Offer::Unknown
        }
    }
}

impl FromTokens for SubstationDraft {
    #[tactic(auto, unfolding(crate::specs::Network::substation_at))]
    fn from_tokens(
        alloc: Global,
        format: Format,
        reader: &mut Reader<'_>,
        depth: usize,
    ) -> Option<SubstationDraft> {
        let slots: SubstationSlots = object_of(alloc, format, reader, depth)?;
        Some(SubstationDraft {
            id: slots.id?,
            levels: or_none(alloc, slots.levels),
            transformers: or_none(alloc, slots.transformers),
        })
    }
}

/// The members of a network.
#[derive(Drop)]
pub struct NetworkSlots {
    pub id: Option<Id>,
    pub substations: Option<Seq<SubstationDraft>>,
    pub lines: Option<Seq<LineDraft>>,
}

impl Slots for NetworkSlots {
    ghost use Rattle.grid_json.specs.Slots.{NetworkHolds, network_names};
    ghost use Rattle.grid_json.specs.Kept.{network_kept};

    ghost names = { network_names };

    ghost apart = { true };

    ghost holds = { NetworkHolds };

    ghost kept = { network_kept };

    fn empty() -> NetworkSlots {
        NetworkSlots {
            id: None,
            substations: None,
            lines: None,
        }
    }

    fn take(
        &mut self,
        alloc: Global,
        format: Format,
        name: &str,
        reader: &mut Reader<'_>,
        depth: usize,
    ) -> Offer {
        if is_named(name, "id") {
            fill(alloc, format, &mut self.id, reader, depth)
        } else if is_named(name, "substations") {
            fill(alloc, format, &mut self.substations, reader, depth)
        } else if is_named(name, "lines") {
            fill(alloc, format, &mut self.lines, reader, depth)
        } else {
            Offer::Unknown
        }
    }
}

impl FromTokens for NetworkDraft {
    #[tactic(auto, unfolding(crate::specs::Network::network_at))]
    fn from_tokens(
        alloc: Global,
        format: Format,
        reader: &mut Reader<'_>,
        depth: usize,
    ) -> Option<NetworkDraft> {
        let slots: NetworkSlots = object_of(alloc, format, reader, depth)?;
        Some(NetworkDraft {
            id: slots.id?,
            substations: or_none(alloc, slots.substations),
            lines: or_none(alloc, slots.lines),
        })
    }
}
