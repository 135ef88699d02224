// Networks as JSON. A structure has its levels one substation after the other, and its transformers too, before the
// lines.
ghost use Rattle.std.specs.Prelude.{◌≡◌, ◌≤◌, ◌<◌, ◌+◌, IfOk, OnOk, All, length, map, take, drop};
ghost use Rattle.std.specs.List.{AllWithin};
ghost use Rattle.serde_json.specs.View.{view};
ghost use Rattle.grid_structure.specs.Sites as sites;
ghost use Rattle.grid_print.specs.Objects.{array_of};
ghost use Rattle.grid_print.specs.Readable.{IsId, IsReadableLevel, IsReadableShape, IsReadableBranch};
ghost use Rattle.grid_print.specs.Network.{level_value, named_branch_value, branch_value, transformer_value, line_value, substation_of, substation_value, network_of, network_value};
ghost use Rattle.grid_print.specs.Cutting.{between, levels_before, transformers_before};

use crate::object::{ToJson, put, put_value, three, two};
use grid_ids::{Id, Memory};
use grid_structure::{Branch, Structure};
use serde_json::{Map, Value, json};
use std::alloc::Global;

/// A transformer.
#[tactic(auto, unfolding(crate::specs::Objects::members_from))]
fn transformer(
    alloc: Global,
    kind: &str,
    id: &Id,
    ends: Value,
    rated_u: Value,
) -> Result<Value, Memory>
    ensures value { IfOk result (λ v. view v
        ≡ transformer_value kind.now id.now (view ends) (view rated_u)) }
    ensures readable { OnOk result (IsId id.now) }
{
    let kind = Value::try_from_str(alloc, kind)?;
    let mut members = Map::new(alloc);
    put_value(&mut members, alloc, "kind", kind)?;
    put(&mut members, alloc, "id", id)?;
    put_value(&mut members, alloc, "ends", ends)?;
    put_value(&mut members, alloc, "rated_u", rated_u)?;
    Ok(Value::from(members))
}

#[tactic(auto, unfolding(crate::specs::Objects::members_from))]
fn line(alloc: Global, id: &Id, ends: Value) -> Result<Value, Memory>
    ensures value { IfOk result (λ v. view v ≡ line_value id.now (view ends)) }
    ensures readable { OnOk result (IsId id.now) }
{
    Ok(json!(in alloc; {"id": id.text(), "ends": ends})?)
}

#[tactic(auto, unfolding(crate::specs::Network::branch_value))]
fn branch(alloc: Global, id: &Id, shape: &Branch) -> Result<Value, Memory>
    ensures value { IfOk result (λ v. view v ≡ branch_value id.now shape.now) }
    ensures readable { OnOk result (IsId id.now × IsReadableShape shape.now) }
{
    match shape {
        Branch::Line { end1, end2 } => line(alloc, id, two(alloc, end1, end2)?),
        Branch::TwoWindings {
            end1,
            end2,
            rated_u1,
            rated_u2,
            ..
        } => {
            let ends = two(alloc, end1, end2)?;
            let rated_u = two(alloc, rated_u1, rated_u2)?;
            transformer(alloc, "TWO_WINDINGS", id, ends, rated_u)
        }
        Branch::ThreeWindings {
            end1,
            end2,
            end3,
            rated_u1,
            rated_u2,
            rated_u3,
            ..
        } => {
            let ends = three(alloc, end1, end2, end3)?;
            let rated_u = three(alloc, rated_u1, rated_u2, rated_u3)?;
            transformer(alloc, "THREE_WINDINGS", id, ends, rated_u)
        }
    }
}

/// The levels from one place up to another.
fn levels(alloc: Global, network: &Structure, from: u32, to: u32) -> Result<Value, Memory>
    requires order { from ≤ to }
    requires within { to ≤ length (sites.levels network.now) }
    ensures value { IfOk result (λ v. view v
        ≡ array_of level_value (between from to (sites.levels network.now))) }
    ensures readable { OnOk result (AllWithin IsReadableLevel (sites.levels network.now) from to) }
{
    let mut values = Vec::new(alloc);
    for place in from..to {
        values.push(network.level(place).to_json(alloc)?)?;
    }
    Ok(Value::from(values))
}

/// The branches from one place up to another.
fn branches(alloc: Global, network: &Structure, from: u32, to: u32) -> Result<Value, Memory>
    requires order { from ≤ to }
    requires within { to ≤ length (sites.branches network.now) }
    ensures value { IfOk result (λ v. view v
        ≡ array_of named_branch_value (between from to (sites.branches network.now))) }
    ensures readable { OnOk result (AllWithin IsReadableBranch (sites.branches network.now) from
        to) }
{
    let mut values = Vec::new(alloc);
    for place in from..to {
        values.push(branch(alloc, network.branch_id(place), network.branch(place))?)?;
    }
    Ok(Value::from(values))
}

/// Where the levels of a substation end that begin at a place.
fn levels_end(network: &Structure, substation: u32, from: u32) -> u32
    requires inside { substation < length network.now.substations }
    requires begin { from ≡ levels_before substation network.now.substations }
    ensures { result ≡ levels_before (substation + 1) network.now.substations }
{
    let all = network.level_count();
    prove!(from <= all);
    from + network.levels_of(substation)
}

/// Where the transformers of a substation end that begin at a place.
fn transformers_end(network: &Structure, substation: u32, from: u32) -> u32
    requires inside { substation < length network.now.substations }
    requires begin { from ≡ transformers_before substation network.now.substations }
    ensures { result ≡ transformers_before (substation + 1) network.now.substations }
{
    let all = network.branch_count();
    prove!(from <= all);
    from + network.transformers_of(substation)
}

#[tactic(auto, unfolding(crate::specs::Objects::members_from))]
fn substation(alloc: Global, id: &Id, levels: Value, transformers: Value) -> Result<Value, Memory>
    ensures value { IfOk result (λ v. view v
        ≡ substation_of id.now (view levels) (view transformers)) }
    ensures readable { OnOk result (IsId id.now) }
{
    Ok(json!(in alloc; {"id": id.text(), "levels": levels, "transformers": transformers})?)
}

/// The substations with their levels and transformers, and the place of the first line.
fn substations(alloc: Global, network: &Structure) -> Result<(Value, u32), Memory>
    ensures values { IfOk result (λ made. view made.0
        ≡ array_of substation_value network.now.substations) }
    ensures lines { IfOk result (λ made. made.1
        ≡ transformers_before (length network.now.substations) network.now.substations) }
    ensures ids { OnOk result (All (λ s. IsId s.id) network.now.substations) }
    ensures levels { OnOk result (All IsReadableLevel (sites.levels network.now)) }
    ensures transformers { IfOk result (λ made. AllWithin IsReadableBranch
        (sites.branches network.now) 0 made.1) }
{
    let mut values = Vec::new(alloc);
    let mut level = 0;
    let mut transformer = 0;
    for place in 0..network.substation_count() {
        let level_end = levels_end(network, place, level);
        let transformer_end = transformers_end(network, place, transformer);
        let levels = levels(alloc, network, level, level_end)?;
        let transformers = branches(alloc, network, transformer, transformer_end)?;
        values.push(substation(alloc, network.substation_id(place), levels, transformers)?)?;
        level = level_end;
        transformer = transformer_end;
    }
    Ok((Value::from(values), transformer))
}

#[tactic(auto, unfolding(crate::specs::Objects::members_from, crate::specs::Network::network_value))]
fn whole(alloc: Global, id: &Id, substations: Value, lines: Value) -> Result<Value, Memory>
    ensures value { IfOk result (λ v. view v ≡ network_of id.now (view substations) (view lines)) }
    ensures readable { OnOk result (IsId id.now) }
{
    Ok(json!(in alloc; {"id": id.text(), "substations": substations, "lines": lines})?)
}

impl ToJson for Structure {
    ghost use Rattle.grid_print.specs.Readable.{IsReadable};

    ghost written = { network_value };

    ghost readable = { IsReadable };

    #[tactic(auto, unfolding(crate::specs::Network::network_value))]
    fn to_json(&self, alloc: Global) -> Result<Value, Memory> {
        self.keeps();
        let (substations, first_line) = substations(alloc, self)?;
        let lines = branches(alloc, self, first_line, self.branch_count())?;
        whole(alloc, self.id(), substations, lines)
    }
}
