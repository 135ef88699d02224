// Commands as JSON.
ghost use Rattle.std.specs.Prelude.{◌≡◌, IfOk, OnOk};
ghost use Rattle.serde_json.specs.View.{view, members_view};
ghost use Rattle.grid_print.specs.Objects.{members_from};
ghost use Rattle.grid_print.specs.Command.{one_id, sided, internal_edit, add_level_value, add_injection_value, add_branch_value, add_busbar_value, switch_fields, add_switch_value, line_edit, transformer_edit, retain_value, set_power_value, totals_value, clone_value};

use crate::level::{injection_word_of, put_item, word_of};
use crate::object::{Members, ToJson, put, put_given, put_value, three, two};
use grid_ids::{Id, Memory};
use grid_kinds::Injection;
use grid_requests::Request;
use grid_structure::{Branch, Edit, End};
use serde_json::{Map, Value, json};
use std::alloc::Global;

/// A command of one id.
#[tactic(auto, unfolding(crate::specs::Objects::members_from))]
fn one(alloc: Global, verb: &str, name: &str, id: &Id) -> Result<Value, Memory>
    ensures { IfOk result (λ v. view v ≡ one_id verb.now name.now id.now) }
{
    Ok(json!(in alloc; {"do": verb, name: id.text()})?)
}

/// A command that names an equipment and a side.
#[tactic(auto, unfolding(crate::specs::Objects::members_from))]
fn side_command(alloc: Global, verb: &str, id: &Id, side: &i64) -> Result<Value, Memory>
    ensures { IfOk result (λ v. view v ≡ sided verb.now id.now side.now) }
{
    Ok(json!(in alloc; {"do": verb, "equipment": id.text(), "side": *side})?)
}

/// An edit of an internal connection.
#[tactic(auto, unfolding(crate::specs::Objects::members_from))]
fn internal(
    alloc: Global,
    verb: &str,
    level: &Id,
    node1: &i64,
    node2: &i64,
) -> Result<Value, Memory>
    ensures { IfOk result (λ v. view v ≡ internal_edit verb.now level.now node1.now node2.now) }
{
    Ok(json!(in alloc; {"do": verb, "level": level.text(), "node1": *node1, "node2": *node2})?)
}

#[tactic(auto, unfolding(crate::specs::Objects::members_from), using(crate::proofs::Fields::members_from_append))]
fn add_level(
    alloc: Global,
    id: &Id,
    substation: &Id,
    nominal_v: i64,
    low_v: &Option<i64>,
    high_v: &Option<i64>,
) -> Result<Value, Memory>
    ensures { IfOk result (λ v. view v
        ≡ add_level_value id.now substation.now nominal_v low_v.now high_v.now) }
{
    let verb = Value::try_from_str(alloc, "add_level")?;
    let mut members = Map::new(alloc);
    put_value(&mut members, alloc, "do", verb)?;
    put(&mut members, alloc, "id", id)?;
    put(&mut members, alloc, "substation", substation)?;
    put(&mut members, alloc, "nominal_v", &nominal_v)?;
    put_given(&mut members, alloc, "low_v", low_v)?;
    put_given(&mut members, alloc, "high_v", high_v)?;
    Ok(Value::from(members))
}

#[tactic(auto, unfolding(crate::specs::Objects::members_from))]
fn add_injection(
    alloc: Global,
    id: &Id,
    level: &Id,
    node: i64,
    item: &Injection,
) -> Result<Value, Memory>
    ensures { IfOk result (λ v. view v ≡ add_injection_value id.now level.now node item.now) }
{
    let verb = Value::try_from_str(alloc, "add_injection")?;
    let kind = Value::try_from_str(alloc, injection_word_of(item))?;
    let mut members = Map::new(alloc);
    put_value(&mut members, alloc, "do", verb)?;
    put_value(&mut members, alloc, "kind", kind)?;
    put(&mut members, alloc, "id", id)?;
    put(&mut members, alloc, "level", level)?;
    put(&mut members, alloc, "node", &node)?;
    put_item(&mut members, alloc, item)?;
    Ok(Value::from(members))
}

impl ToJson for End {
    ghost use Rattle.grid_print.specs.Network.{end_value};
    ghost use Rattle.grid_print.specs.Readable.{IsReadableEnd};

    ghost written = { end_value };

    ghost readable = { IsReadableEnd };

    #[tactic(auto, unfolding(crate::specs::Objects::members_from, crate::specs::Network::end_value))]
    fn to_json(&self, alloc: Global) -> Result<Value, Memory> {
        Ok(json!(in alloc; {"level": self.level.text(), "node": self.node})?)
    }
}

/// The edit that adds a transformer.
#[tactic(auto, unfolding(crate::specs::Objects::members_from))]
fn add_transformer(
    alloc: Global,
    kind: &str,
    id: &Id,
    substation: &Id,
    ends: Value,
    rated_u: Value,
) -> Result<Value, Memory>
    ensures { IfOk result (λ v. view v
        ≡ transformer_edit kind.now id.now substation.now (view ends) (view rated_u)) }
{
    let verb = Value::try_from_str(alloc, "add_branch")?;
    let kind = Value::try_from_str(alloc, kind)?;
    let mut members = Map::new(alloc);
    put_value(&mut members, alloc, "do", verb)?;
    put_value(&mut members, alloc, "kind", kind)?;
    put(&mut members, alloc, "id", id)?;
    put_value(&mut members, alloc, "ends", ends)?;
    put(&mut members, alloc, "substation", substation)?;
    put_value(&mut members, alloc, "rated_u", rated_u)?;
    Ok(Value::from(members))
}

#[tactic(auto, unfolding(crate::specs::Objects::members_from))]
fn add_line(alloc: Global, id: &Id, ends: Value) -> Result<Value, Memory>
    ensures { IfOk result (λ v. view v ≡ line_edit id.now (view ends)) }
{
    Ok(json!(in alloc; {"do": "add_branch", "kind": "LINE", "id": id.text(), "ends": ends})?)
}

#[tactic(auto, unfolding(crate::specs::Command::add_branch_value))]
fn add_branch(alloc: Global, id: &Id, shape: &Branch) -> Result<Value, Memory>
    ensures { IfOk result (λ v. view v ≡ add_branch_value id.now shape.now) }
{
    match shape {
        Branch::Line { end1, end2 } => add_line(alloc, id, two(alloc, end1, end2)?),
        Branch::TwoWindings {
            substation,
            end1,
            end2,
            rated_u1,
            rated_u2,
        } => {
            let ends = two(alloc, end1, end2)?;
            let rated_u = two(alloc, rated_u1, rated_u2)?;
            add_transformer(alloc, "TWO_WINDINGS", id, substation, ends, rated_u)
        }
        Branch::ThreeWindings {
            substation,
            end1,
            end2,
            end3,
            rated_u1,
            rated_u2,
            rated_u3,
        } => {
            let ends = three(alloc, end1, end2, end3)?;
            let rated_u = three(alloc, rated_u1, rated_u2, rated_u3)?;
            add_transformer(alloc, "THREE_WINDINGS", id, substation, ends, rated_u)
        }
    }
}

#[tactic(auto, unfolding(crate::specs::Objects::members_from))]
fn add_busbar(alloc: Global, id: &Id, level: &Id, node: i64) -> Result<Value, Memory>
    ensures { IfOk result (λ v. view v ≡ add_busbar_value id.now level.now node) }
{
    Ok(json!(in alloc; {"do": "add_busbar", "id": id.text(), "level": level.text(), "node": node})?)
}

/// Puts what an edit says of a new switch beside its ids, where it adds one.
#[tactic(auto, unfolding(crate::specs::Objects::members_from))]
fn put_switch(members: &mut Members, alloc: Global, edit: &Edit) -> Result<(), Memory>
    ensures { OnOk result (members_view members.new.entries
        ≡ members_from (members_view members.old.entries) (switch_fields edit.now)) }
{
    if let Edit::AddSwitch {
        kind,
        node1,
        node2,
        opened,
        retained,
        fictitious,
        ..
    } = edit
    {
        let word = Value::try_from_str(alloc, word_of(*kind))?;
        put_value(members, alloc, "kind", word)?;
        put(members, alloc, "node1", node1)?;
        put(members, alloc, "node2", node2)?;
        put(members, alloc, "open", opened)?;
        put(members, alloc, "retained", retained)?;
        put(members, alloc, "fictitious", fictitious)?;
    }
    Ok(())
}

#[tactic(auto, unfolding(crate::specs::Objects::members_from))]
fn add_switch(alloc: Global, id: &Id, level: &Id, edit: &Edit) -> Result<Value, Memory>
    ensures { IfOk result (λ v. view v
        ≡ add_switch_value id.now level.now (switch_fields edit.now)) }
{
    let verb = Value::try_from_str(alloc, "add_switch")?;
    let mut members = Map::new(alloc);
    put_value(&mut members, alloc, "do", verb)?;
    put(&mut members, alloc, "id", id)?;
    put(&mut members, alloc, "level", level)?;
    put_switch(&mut members, alloc, edit)?;
    Ok(Value::from(members))
}

impl ToJson for Edit {
    ghost use Rattle.grid_print.specs.Command.{edit_value};

    ghost written = { edit_value };

    #[tactic(auto, unfolding(crate::specs::Command::edit_value))]
    fn to_json(&self, alloc: Global) -> Result<Value, Memory> {
        match self {
            Edit::AddSubstation { id } => one(alloc, "add_substation", "id", id),
            Edit::AddLevel {
                id,
                substation,
                nominal_v,
                low_v,
                high_v,
            } => add_level(alloc, id, substation, *nominal_v, low_v, high_v),
            Edit::AddBusbar { id, level, node } => add_busbar(alloc, id, level, *node),
            Edit::AddSwitch { id, level, .. } => add_switch(alloc, id, level, self),
            Edit::RemoveSwitch { id } => one(alloc, "remove_switch", "id", id),
            Edit::AddInternal {
                level,
                node1,
                node2,
            } => internal(alloc, "add_internal", level, node1, node2),
            Edit::RemoveInternal {
                level,
                node1,
                node2,
            } => internal(alloc, "remove_internal", level, node1, node2),
            Edit::AddInjection {
                id,
                level,
                node,
                item,
            } => add_injection(alloc, id, level, *node, item),
            Edit::AddBranch { id, shape } => add_branch(alloc, id, shape.branch()),
            Edit::RemoveEquipment { id } => one(alloc, "remove_equipment", "id", id),
        }
    }
}

#[tactic(auto, unfolding(crate::specs::Objects::members_from))]
fn retain(alloc: Global, id: &Id, retained: bool) -> Result<Value, Memory>
    ensures { IfOk result (λ v. view v ≡ retain_value id.now retained) }
{
    Ok(json!(in alloc; {"do": "retain", "switch": id.text(), "retained": retained})?)
}

#[tactic(auto, unfolding(crate::specs::Objects::members_from))]
fn set_power(alloc: Global, id: &Id, watts: i64) -> Result<Value, Memory>
    ensures { IfOk result (λ v. view v ≡ set_power_value id.now watts) }
{
    Ok(json!(in alloc; {"do": "set_power", "equipment": id.text(), "watts": watts})?)
}

#[tactic(auto, unfolding(crate::specs::Objects::members_from))]
fn totals(alloc: Global) -> Result<Value, Memory>
    ensures { IfOk result (λ v. view v ≡ totals_value) }
{
    Ok(json!(in alloc; {"do": "totals"})?)
}

#[tactic(auto, unfolding(crate::specs::Objects::members_from))]
fn clone(alloc: Global, from: &Id, to: &Id, overwrite: bool) -> Result<Value, Memory>
    ensures { IfOk result (λ v. view v ≡ clone_value from.now to.now overwrite) }
{
    Ok(json!(in alloc; {
        "do": "clone", "from": from.text(), "to": to.text(), "overwrite": overwrite
    })?)
}

impl ToJson for Request {
    ghost use Rattle.grid_print.specs.Command.{request_value};

    ghost written = { request_value };

    #[tactic(auto, unfolding(crate::specs::Command::request_value))]
    fn to_json(&self, alloc: Global) -> Result<Value, Memory> {
        match self {
            Request::UseVariant { name } => one(alloc, "use", "variant", name),
            Request::OpenSwitch { id } => one(alloc, "open", "switch", id),
            Request::CloseSwitch { id } => one(alloc, "close", "switch", id),
            Request::RetainSwitch { id, retained } => retain(alloc, id, *retained),
            Request::SetPower { id, watts } => set_power(alloc, id, *watts),
            Request::Totals => totals(alloc),
            Request::Connect { id, side } => side_command(alloc, "connect", id, side),
            Request::Disconnect { id, side } => side_command(alloc, "disconnect", id, side),
            Request::BusBreakerView { level } => one(alloc, "bus_breaker_view", "level", level),
            Request::BusView { level } => one(alloc, "bus_view", "level", level),
            Request::Components { level } => one(alloc, "components", "level", level),
            Request::CloneVariant {
                from,
                to,
                overwrite,
            } => clone(alloc, from, to, *overwrite),
            Request::RemoveVariant { name } => one(alloc, "remove", "variant", name),
            Request::Change { edit } => edit.to_json(alloc),
        }
    }
}
