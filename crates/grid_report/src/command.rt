// What was asked, by its words.
ghost use Rattle.std.specs.Prelude.{◌++◌, codes};
ghost use Rattle.grid_report.specs.Words.{behind};
ghost use Rattle.grid_report.specs.Commands.{edit_text, retained_text, overwrite_text, command_text};
ghost use Rattle.grid_report.specs.Puts.{Puts};

use crate::text::{Text, put_behind, put_named, put_pair};
use grid_core::Request;
use grid_ids::{Id, Memory};
use grid_structure::Edit;

/// Puts the words of an edit of an internal connection.
fn put_internal(
    out: &mut Text,
    word: &str,
    level: &Id,
    node1: &i64,
    node2: &i64,
) -> Result<(), Memory>
    ensures { Puts out.old (word.now ++ level.now ++ behind node1.now ++ behind node2.now) out.new result }
{
    put_named(out, word, level)?;
    put_pair(out, node1, node2)
}

#[tactic(auto, unfolding(crate::specs::Commands::edit_text))]
fn put_edit(out: &mut Text, edit: &Edit) -> Result<(), Memory>
    ensures { Puts out.old (edit_text edit.now) out.new result }
{
    match edit {
        Edit::AddSubstation { id } => put_named(out, "add_substation ", id),
        Edit::AddLevel { id, .. } => put_named(out, "add_level ", id),
        Edit::AddBusbar { id, .. } => put_named(out, "add_busbar ", id),
        Edit::AddSwitch { id, .. } => put_named(out, "add_switch ", id),
        Edit::RemoveSwitch { id } => put_named(out, "remove_switch ", id),
        Edit::AddInternal {
            level,
            node1,
            node2,
        } => put_internal(out, "add_internal ", level, node1, node2),
        Edit::RemoveInternal {
            level,
            node1,
            node2,
        } => put_internal(out, "remove_internal ", level, node1, node2),
        Edit::AddInjection { id, .. } => put_named(out, "add_injection ", id),
        Edit::AddBranch { id, .. } => put_named(out, "add_branch ", id),
        Edit::RemoveEquipment { id } => put_named(out, "remove_equipment ", id),
    }
}

#[tactic(auto, unfolding(crate::specs::Commands::retained_text))]
fn put_retained(out: &mut Text, id: &Id, retained: bool) -> Result<(), Memory>
    ensures { Puts out.old (codes "retain " ++ id.now ++ retained_text retained) out.new result }
{
    put_named(out, "retain ", id)?;
    if retained {
        out.put(" on")
    } else {
        out.put(" off")
    }
}

/// Puts the words of a command on an equipment with a number: its side, or its watts.
fn put_numbered(out: &mut Text, word: &str, id: &Id, number: &i64) -> Result<(), Memory>
    ensures { Puts out.old (word.now ++ id.now ++ behind number.now) out.new result }
{
    put_named(out, word, id)?;
    put_behind(out, number)
}

#[tactic(auto, unfolding(crate::specs::Commands::overwrite_text))]
fn put_clone(out: &mut Text, from: &Id, to: &Id, overwrite: bool) -> Result<(), Memory>
    ensures { Puts out.old
        (codes "clone " ++ from.now ++ codes " " ++ to.now ++ overwrite_text overwrite)
        out.new result }
{
    put_named(out, "clone ", from)?;
    put_named(out, " ", to)?;
    if overwrite {
        out.put(" overwrite")
    } else {
        Ok(())
    }
}

/// Puts a command by its words. Where memory runs out, the text is empty.
#[tactic(auto, unfolding(crate::specs::Commands::command_text))]
pub fn put_command(out: &mut Text, request: &Request) -> Result<(), Memory>
    ensures { Puts out.old (command_text request.now) out.new result }
{
    match request {
        Request::UseVariant { name } => put_named(out, "use ", name),
        Request::OpenSwitch { id } => put_named(out, "open ", id),
        Request::CloseSwitch { id } => put_named(out, "close ", id),
        Request::RetainSwitch { id, retained } => put_retained(out, id, *retained),
        Request::SetPower { id, watts } => put_numbered(out, "set_power ", id, watts),
        Request::Totals => out.put("totals"),
        Request::Connect { id, side } => put_numbered(out, "connect ", id, side),
        Request::Disconnect { id, side } => put_numbered(out, "disconnect ", id, side),
        Request::BusBreakerView { level } => put_named(out, "bus_breaker_view ", level),
        Request::BusView { level } => put_named(out, "bus_view ", level),
        Request::Components { level } => put_named(out, "components ", level),
        Request::CloneVariant {
            from,
            to,
            overwrite,
        } => put_clone(out, from, to, *overwrite),
        Request::RemoveVariant { name } => put_named(out, "remove ", name),
        Request::Change { edit } => put_edit(out, edit),
    }
}
