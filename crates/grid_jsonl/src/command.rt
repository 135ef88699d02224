// Commands, as printing writes them in a job.
ghost use Rattle.std.specs.Prelude.{◌∷◌, [], codes};
ghost use Rattle.serde_json.specs.Data.{boolean, string};
ghost use Rattle.serde_json.specs.Written.{compact_text};
ghost use Rattle.grid_print.specs.Objects.{whole};
ghost use Rattle.grid_print.specs.Command.{add_injection_value, edit_value, request_value};
ghost use Rattle.grid_jsonl.specs.Trees.{more_text, ordered};
ghost use Rattle.grid_jsonl.specs.Commands.{fields_before_node, fields_behind_node, new_level_text, new_switch_text};
ghost use Rattle.grid_report.specs.Puts.{Puts};

use crate::branch::put_branch;
use crate::member::{open_with, put_flag, put_given, put_id, put_text, put_whole};
use crate::words::{injection_word, switch_word};
use grid_core::Request;
use grid_ids::{Id, Memory};
use grid_kinds::Injection;
use grid_report::Text;
use grid_structure::Edit;

/// Puts a command of one id.
fn put_one(out: &mut Text, verb: &str, name: &str, id: &Id) -> Result<(), Memory>
    ensures { Puts out.old
        (compact_text (ordered ((codes "do", string verb.now) ∷ (name.now, string id.now) ∷ [])))
        out.new result }
{
    open_with(out, "do", verb)?;
    put_id(out, name, id)?;
    out.put("}")
}

/// Puts a command that names an equipment and a side.
fn put_sided(out: &mut Text, verb: &str, id: &Id, side: &i64) -> Result<(), Memory>
    ensures { Puts out.old
        (compact_text (ordered ((codes "do", string verb.now) ∷ (codes "equipment", string id.now)
        ∷ (codes "side", whole side.now) ∷ [])))
        out.new result }
{
    open_with(out, "do", verb)?;
    put_id(out, "equipment", id)?;
    put_whole(out, "side", side)?;
    out.put("}")
}

// ---- edits

fn put_internal(
    out: &mut Text,
    verb: &str,
    level: &Id,
    node1: &i64,
    node2: &i64,
) -> Result<(), Memory>
    ensures { Puts out.old
        (compact_text (ordered ((codes "do", string verb.now) ∷ (codes "level", string level.now)
        ∷ (codes "node1", whole node1.now) ∷ (codes "node2", whole node2.now) ∷ [])))
        out.new result }
{
    open_with(out, "do", verb)?;
    put_id(out, "level", level)?;
    put_whole(out, "node1", node1)?;
    put_whole(out, "node2", node2)?;
    out.put("}")
}

fn put_new_busbar(out: &mut Text, id: &Id, level: &Id, node: &i64) -> Result<(), Memory>
    ensures { Puts out.old
        (compact_text (ordered ((codes "do", string (codes "add_busbar")) ∷ (codes "id", string id.now)
        ∷ (codes "level", string level.now) ∷ (codes "node", whole node.now) ∷ [])))
        out.new result }
{
    open_with(out, "do", "add_busbar")?;
    put_id(out, "id", id)?;
    put_id(out, "level", level)?;
    put_whole(out, "node", node)?;
    out.put("}")
}

/// Puts the edit that adds a level, where it is one.
fn put_new_level(out: &mut Text, edit: &Edit) -> Result<(), Memory>
    ensures { Puts out.old (new_level_text edit.now) out.new result }
{
    match edit {
        Edit::AddLevel {
            id,
            substation,
            nominal_v,
            low_v,
            high_v,
        } => {
            open_with(out, "do", "add_level")?;
            put_given(out, "high_v", high_v)?;
            put_id(out, "id", id)?;
            put_given(out, "low_v", low_v)?;
            put_whole(out, "nominal_v", nominal_v)?;
            put_id(out, "substation", substation)?;
            out.put("}")
        }
        _ => Ok(()),
    }
}

/// Puts the edit that adds a switch, where it is one.
fn put_new_switch(out: &mut Text, edit: &Edit) -> Result<(), Memory>
    ensures { Puts out.old (new_switch_text edit.now) out.new result }
{
    match edit {
        Edit::AddSwitch {
            id,
            level,
            kind,
            node1,
            node2,
            opened,
            retained,
            fictitious,
        } => {
            open_with(out, "do", "add_switch")?;
            put_flag(out, "fictitious", *fictitious)?;
            put_id(out, "id", id)?;
            put_text(out, "kind", switch_word(*kind))?;
            put_id(out, "level", level)?;
            put_whole(out, "node1", node1)?;
            put_whole(out, "node2", node2)?;
            put_flag(out, "open", *opened)?;
            put_flag(out, "retained", *retained)?;
            out.put("}")
        }
        _ => Ok(()),
    }
}

/// Puts two members that are numbers.
fn put_two(
    out: &mut Text,
    name1: &str,
    number1: &i64,
    name2: &str,
    number2: &i64,
) -> Result<(), Memory>
    ensures { Puts out.old
        (more_text ((name1.now, whole number1.now) ∷ (name2.now, whole number2.now) ∷ []))
        out.new result }
{
    put_whole(out, name1, number1)?;
    put_whole(out, name2, number2)
}

/// Puts the members of an injection's kind that stand before its node.
#[tactic(auto, unfolding(crate::specs::Commands::fields_before_node))]
fn put_before_node(out: &mut Text, item: &Injection) -> Result<(), Memory>
    ensures { Puts out.old (more_text (fields_before_node item.now)) out.new result }
{
    match item {
        Injection::Generator { min_p, max_p, .. } => put_two(out, "max_p", max_p, "min_p", min_p),
        Injection::Battery { min_p, max_p, .. } => put_two(out, "max_p", max_p, "min_p", min_p),
        Injection::ShuntCompensator { max_sections, .. } => {
            put_whole(out, "max_sections", max_sections)
        }
        _ => Ok(()),
    }
}

/// Puts the members of an injection's kind that stand behind its node.
#[tactic(auto, unfolding(crate::specs::Commands::fields_behind_node))]
fn put_behind_node(out: &mut Text, item: &Injection) -> Result<(), Memory>
    ensures { Puts out.old (more_text (fields_behind_node item.now)) out.new result }
{
    match item {
        Injection::Load { p0, q0 } => put_two(out, "p0", p0, "q0", q0),
        Injection::Generator {
            target_p,
            target_v,
            ..
        } => put_two(out, "target_p", target_p, "target_v", target_v),
        Injection::Battery {
            target_p,
            target_q,
            ..
        } => put_two(out, "target_p", target_p, "target_q", target_q),
        Injection::ShuntCompensator { section_count, .. } => {
            put_whole(out, "section_count", section_count)
        }
        Injection::StaticVarCompensator { target_q } => put_whole(out, "target_q", target_q),
        Injection::ConverterStation { target_q } => put_whole(out, "target_q", target_q),
    }
}

fn put_new_injection(
    out: &mut Text,
    id: &Id,
    level: &Id,
    node: &i64,
    item: &Injection,
) -> Result<(), Memory>
    ensures { Puts out.old (compact_text (add_injection_value id.now level.now node.now item.now)) out.new result }
{
    open_with(out, "do", "add_injection")?;
    put_id(out, "id", id)?;
    put_text(out, "kind", injection_word(item))?;
    put_id(out, "level", level)?;
    put_before_node(out, item)?;
    put_whole(out, "node", node)?;
    put_behind_node(out, item)?;
    out.put("}")
}

fn put_edit(out: &mut Text, edit: &Edit) -> Result<(), Memory>
    ensures { Puts out.old (compact_text (edit_value edit.now)) out.new result }
{
    match edit {
        Edit::AddSubstation { id } => put_one(out, "add_substation", "id", id),
        Edit::AddLevel { .. } => put_new_level(out, edit),
        Edit::AddBusbar { id, level, node } => put_new_busbar(out, id, level, node),
        Edit::AddSwitch { .. } => put_new_switch(out, edit),
        Edit::RemoveSwitch { id } => put_one(out, "remove_switch", "id", id),
        Edit::AddInternal {
            level,
            node1,
            node2,
        } => put_internal(out, "add_internal", level, node1, node2),
        Edit::RemoveInternal {
            level,
            node1,
            node2,
        } => put_internal(out, "remove_internal", level, node1, node2),
        Edit::AddInjection {
            id,
            level,
            node,
            item,
        } => put_new_injection(out, id, level, node, item),
        Edit::AddBranch { id, shape } => put_branch(out, id, shape.branch()),
        Edit::RemoveEquipment { id } => put_one(out, "remove_equipment", "id", id),
    }
}

// ---- commands

fn put_retain(out: &mut Text, id: &Id, retained: bool) -> Result<(), Memory>
    ensures { Puts out.old
        (compact_text (ordered ((codes "do", string (codes "retain")) ∷ (codes "retained", boolean retained)
        ∷ (codes "switch", string id.now) ∷ [])))
        out.new result }
{
    open_with(out, "do", "retain")?;
    put_flag(out, "retained", retained)?;
    put_id(out, "switch", id)?;
    out.put("}")
}

fn put_power(out: &mut Text, id: &Id, watts: &i64) -> Result<(), Memory>
    ensures { Puts out.old
        (compact_text (ordered ((codes "do", string (codes "set_power")) ∷ (codes "equipment", string id.now)
        ∷ (codes "watts", whole watts.now) ∷ [])))
        out.new result }
{
    open_with(out, "do", "set_power")?;
    put_id(out, "equipment", id)?;
    put_whole(out, "watts", watts)?;
    out.put("}")
}

fn put_clone(out: &mut Text, from: &Id, to: &Id, overwrite: bool) -> Result<(), Memory>
    ensures { Puts out.old
        (compact_text (ordered ((codes "do", string (codes "clone")) ∷ (codes "from", string from.now)
        ∷ (codes "overwrite", boolean overwrite) ∷ (codes "to", string to.now) ∷ [])))
        out.new result }
{
    open_with(out, "do", "clone")?;
    put_id(out, "from", from)?;
    put_flag(out, "overwrite", overwrite)?;
    put_id(out, "to", to)?;
    out.put("}")
}

fn put_totals(out: &mut Text) -> Result<(), Memory>
    ensures { Puts out.old (compact_text (ordered ((codes "do", string (codes "totals")) ∷ []))) out.new result }
{
    open_with(out, "do", "totals")?;
    out.put("}")
}

/// Puts a command last, as the object that printing writes for it in a job. Where memory runs out, the text is empty.
pub fn put_command(out: &mut Text, request: &Request) -> Result<(), Memory>
    ensures { Puts out.old (compact_text (request_value request.now)) out.new result }
{
    match request {
        Request::UseVariant { name } => put_one(out, "use", "variant", name),
        Request::OpenSwitch { id } => put_one(out, "open", "switch", id),
        Request::CloseSwitch { id } => put_one(out, "close", "switch", id),
        Request::RetainSwitch { id, retained } => put_retain(out, id, *retained),
        Request::SetPower { id, watts } => put_power(out, id, watts),
        Request::Totals => put_totals(out),
        Request::Connect { id, side } => put_sided(out, "connect", id, side),
        Request::Disconnect { id, side } => put_sided(out, "disconnect", id, side),
        Request::BusBreakerView { level } => put_one(out, "bus_breaker_view", "level", level),
        Request::BusView { level } => put_one(out, "bus_view", "level", level),
        Request::Components { level } => put_one(out, "components", "level", level),
        Request::CloneVariant {
            from,
            to,
            overwrite,
        } => put_clone(out, from, to, *overwrite),
        Request::RemoveVariant { name } => put_one(out, "remove", "variant", name),
        Request::Change { edit } => put_edit(out, edit),
    }
}
