// Levels and their parts as JSON.
ghost use Rattle.std.specs.Prelude.{◌≡◌, ◌<◌, ◌^◌, [], ◌∷◌, IfOk, OnOk};
ghost use Rattle.serde_json.specs.View.{view, members_view};
ghost use Rattle.grid_print.specs.Objects.{members_from, whole};
ghost use Rattle.grid_print.specs.Readable.{IsId, IsWhole, AreWhole, AreReadableBusbars, AreReadableInjections};
ghost use Rattle.grid_print.specs.Network.{switch_word, injection_word, injection_fields, busbar_value, injection_value, busbars_value, injections_value};

use crate::object::{Members, ToJson, array_of, put, put_given, put_value};
use grid_ids::{Id, Memory};
use grid_kinds::{Injection, SwitchKind};
use grid_level::{Internal, Level, Placed, Stand, Switch};
use serde_json::{Map, Value, json};
use std::alloc::Global;

/// The word of a switch's kind.
pub(crate) fn word_of(kind: SwitchKind) -> &'static str
    ensures { result.now ≡ switch_word kind }
{
    match kind {
        SwitchKind::Breaker => "BREAKER",
        SwitchKind::Disconnector => "DISCONNECTOR",
        SwitchKind::LoadBreakSwitch => "LOAD_BREAK_SWITCH",
    }
}

#[tactic(auto, unfolding(crate::specs::Objects::members_from))]
fn busbar(alloc: Global, id: &Id, node: u16) -> Result<Value, Memory>
    ensures value { IfOk result (λ v. view v ≡ busbar_value id.now node) }
    ensures readable { OnOk result (IsId id.now × (node < 2 ^ 63)) }
{
    Ok(json!(in alloc; {"id": id.text(), "node": node})?)
}

/// The word of an injection's kind.
pub(crate) fn injection_word_of(item: &Injection) -> &'static str
    ensures { result.now ≡ injection_word item.now }
{
    match item {
        Injection::Load { .. } => "LOAD",
        Injection::Generator { .. } => "GENERATOR",
        Injection::Battery { .. } => "BATTERY",
        Injection::ShuntCompensator { .. } => "SHUNT_COMPENSATOR",
        Injection::StaticVarCompensator { .. } => "STATIC_VAR_COMPENSATOR",
        Injection::ConverterStation { .. } => "CONVERTER_STATION",
    }
}

/// Puts two whole numbers.
#[tactic(auto, unfolding(crate::specs::Objects::members_from))]
fn put_two(
    members: &mut Members,
    alloc: Global,
    name1: &str,
    value1: &i64,
    name2: &str,
    value2: &i64,
) -> Result<(), Memory>
    ensures value { OnOk result (members_view members.new.entries
        ≡ members_from (members_view members.old.entries) ((name1.now, whole value1.now)
        ∷ (name2.now, whole value2.now) ∷ [])) }
    ensures readable { OnOk result (IsWhole value1.now × IsWhole value2.now) }
{
    put(members, alloc, name1, value1)?;
    put(members, alloc, name2, value2)
}

/// Puts the members of an injection's kind.
#[tactic(auto, unfolding(crate::specs::Objects::members_from))]
pub(crate) fn put_item(members: &mut Members, alloc: Global, item: &Injection) -> Result<(), Memory>
    ensures value { OnOk result (members_view members.new.entries
        ≡ members_from (members_view members.old.entries) (injection_fields item.now)) }
    ensures readable { OnOk result (AreWhole item.now) }
{
    match item {
        Injection::Load { p0, q0 } => put_two(members, alloc, "p0", p0, "q0", q0),
        Injection::Generator {
            target_p,
            target_v,
            min_p,
            max_p,
        } => {
            put_two(members, alloc, "target_p", target_p, "target_v", target_v)?;
            put_two(members, alloc, "min_p", min_p, "max_p", max_p)
        }
        Injection::Battery {
            target_p,
            target_q,
            min_p,
            max_p,
        } => {
            put_two(members, alloc, "target_p", target_p, "target_q", target_q)?;
            put_two(members, alloc, "min_p", min_p, "max_p", max_p)
        }
        Injection::ShuntCompensator {
            section_count,
            max_sections,
        } => put_two(
            members,
            alloc,
            "section_count",
            section_count,
            "max_sections",
            max_sections,
        ),
        Injection::StaticVarCompensator { target_q } | Injection::ConverterStation { target_q } => {
            put(members, alloc, "target_q", target_q)
        }
    }
}

#[tactic(auto, unfolding(crate::specs::Objects::members_from))]
fn injection(alloc: Global, id: &Id, node: u16, item: &Injection) -> Result<Value, Memory>
    ensures value { IfOk result (λ v. view v ≡ injection_value id.now node item.now) }
    ensures readable { OnOk result (IsId id.now × (node < 2 ^ 63) × AreWhole item.now) }
{
    let kind = Value::try_from_str(alloc, injection_word_of(item))?;
    let mut members = Map::new(alloc);
    put_value(&mut members, alloc, "kind", kind)?;
    put(&mut members, alloc, "id", id)?;
    put(&mut members, alloc, "node", &node)?;
    put_item(&mut members, alloc, item)?;
    Ok(Value::from(members))
}

/// The busbar sections among what is placed.
#[tactic(auto, unfolding(crate::specs::Network::busbars_value))]
fn busbars(alloc: Global, placed: &[Placed]) -> Result<Value, Memory>
    ensures value { IfOk result (λ v. view v ≡ busbars_value placed.now) }
    ensures readable { OnOk result (AreReadableBusbars placed.now) }
{
    let mut values = Vec::new(alloc);
    for at in placed {
        if let Stand::Busbar = &at.stand {
            values.push(busbar(alloc, &at.terminal.equipment, at.node)?)?;
        }
    }
    Ok(Value::from(values))
}

/// The injections among what is placed.
#[tactic(auto, unfolding(crate::specs::Network::injections_value))]
fn injections(alloc: Global, placed: &[Placed]) -> Result<Value, Memory>
    ensures value { IfOk result (λ v. view v ≡ injections_value placed.now) }
    ensures readable { OnOk result (AreReadableInjections placed.now) }
{
    let mut values = Vec::new(alloc);
    for at in placed {
        if let Stand::Feeder(item) = &at.stand {
            values.push(injection(alloc, &at.terminal.equipment, at.node, item)?)?;
        }
    }
    Ok(Value::from(values))
}

impl ToJson for Switch {
    ghost use Rattle.grid_print.specs.Network.{switch_value};
    ghost use Rattle.grid_print.specs.Readable.{IsReadableSwitch};

    ghost written = { switch_value };

    ghost readable = { IsReadableSwitch };

    #[tactic(auto, unfolding(crate::specs::Objects::members_from, crate::specs::Network::switch_value))]
    fn to_json(&self, alloc: Global) -> Result<Value, Memory> {
        Ok(json!(in alloc; {
            "id": self.id.text(), "kind": word_of(self.kind), "node1": self.node1, "node2": self.node2,
            "open": self.opened, "retained": self.retained, "fictitious": self.fictitious
        })?)
    }
}

impl ToJson for Internal {
    ghost use Rattle.grid_print.specs.Network.{internal_value};
    ghost use Rattle.grid_print.specs.Readable.{IsReadableInternal};

    ghost written = { internal_value };

    ghost readable = { IsReadableInternal };

    #[tactic(auto, unfolding(crate::specs::Objects::members_from, crate::specs::Network::internal_value))]
    fn to_json(&self, alloc: Global) -> Result<Value, Memory> {
        Ok(json!(in alloc; {"node1": self.node1, "node2": self.node2})?)
    }
}

impl ToJson for Level {
    ghost use Rattle.grid_print.specs.Network.{level_value};
    ghost use Rattle.grid_print.specs.Readable.{IsReadableLevel};

    ghost written = { level_value };

    ghost readable = { IsReadableLevel };

    #[tactic(auto, unfolding(crate::specs::Objects::members_from, crate::specs::Network::level_value), using(crate::proofs::Fields::members_from_append))]
    fn to_json(&self, alloc: Global) -> Result<Value, Memory> {
        let mut members = Map::new(alloc);
        put(&mut members, alloc, "id", self.id())?;
        put(&mut members, alloc, "nominal_v", &self.nominal_v())?;
        put_given(&mut members, alloc, "low_v", &self.low_v())?;
        put_given(&mut members, alloc, "high_v", &self.high_v())?;
        put_value(
            &mut members,
            alloc,
            "busbars",
            busbars(alloc, self.placed())?,
        )?;
        put_value(
            &mut members,
            alloc,
            "switches",
            array_of(alloc, self.switches())?,
        )?;
        put_value(
            &mut members,
            alloc,
            "internal",
            array_of(alloc, self.internals())?,
        )?;
        put_value(
            &mut members,
            alloc,
            "injections",
            injections(alloc, self.placed())?,
        )?;
        Ok(Value::from(members))
    }
}
