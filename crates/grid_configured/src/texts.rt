// The lines of buses, and what was answered.
ghost use Rattle.std.specs.Prelude.{◌++◌, codes};
ghost use Rattle.std.specs.List.{flat_map};
ghost use Rattle.grid_report.specs.Lines.{bus_name};
ghost use Rattle.grid_report.specs.Puts.{Puts};
ghost use Rattle.grid_report.specs.Refusals.{refusal_text};
ghost use Rattle.grid_configured.specs.Texts.{bus_line, bus_lines, count_text, level_text, answer_text, detail_lines};

use crate::{ConfiguredBus, ConfiguredReply, ConfiguredView};
use grid_core::Refusal;
use grid_ids::{Id, Memory};
use grid_report::{Text, put_flows, put_named, put_refusal, put_spaced, put_terminals};

// Puts the name of a bus: its level's id, an underscore and its place.
fn put_bus_name(out: &mut Text, level: &Id, place: u32) -> Result<(), Memory>
    ensures { Puts out.old (codes "  bus " ++ bus_name level.now place) out.new result }
{
    put_named(out, "  bus ", level)?;
    out.put("_")?;
    out.put_unsigned(u64::from(place))
}

// Puts the line of a bus.
#[tactic(auto, unfolding(crate::specs::Texts::bus_line))]
fn put_bus_line(out: &mut Text, level: &Id, bus: &ConfiguredBus) -> Result<(), Memory>
    ensures { Puts out.old (bus_line level.now bus.now) out.new result }
{
    put_bus_name(out, level, bus.place)?;
    out.put(" |")?;
    put_spaced(out, bus.buses.slice())?;
    out.put(" |")?;
    put_terminals(out, bus.terminals.slice())?;
    put_flows(out, &bus.load, &bus.generation)
}

// Puts the line of each bus of a view.
#[tactic(auto, unfolding(crate::specs::Texts::bus_lines))]
fn put_bus_lines(out: &mut Text, view: &ConfiguredView) -> Result<(), Memory>
    ensures { Puts out.old (bus_lines view.now) out.new result }
{
    for bus in view.buses.slice() {
        put_bus_line(out, &view.level, bus)?;
    }
    Ok(())
}

// Puts how many buses a view has.
fn put_count(out: &mut Text, view: &ConfiguredView) -> Result<(), Memory>
    ensures { Puts out.old (count_text view.now) out.new result }
{
    out.put_unsigned(view.buses.len() as u64)?;
    out.put(" buses")
}

// Puts a level's line with its buses.
#[tactic(auto, unfolding(crate::specs::Texts::level_text))]
pub(crate) fn put_level(out: &mut Text, view: &ConfiguredView) -> Result<(), Memory>
    ensures { Puts out.old (level_text view.now) out.new result }
{
    put_named(out, "level ", &view.level)?;
    out.put(": ")?;
    put_count(out, view)?;
    out.put("\n")?;
    put_bus_lines(out, view)
}

fn put_refused(out: &mut Text, refusal: &Refusal) -> Result<(), Memory>
    ensures { Puts out.old (codes "refused " ++ refusal_text refusal.now) out.new result }
{
    out.put("refused ")?;
    put_refusal(out, refusal)
}

// Puts the answer on a command's line.
#[tactic(auto, unfolding(crate::specs::Texts::answer_text))]
pub(crate) fn put_answer(out: &mut Text, reply: &ConfiguredReply) -> Result<(), Memory>
    ensures { Puts out.old (answer_text reply.now) out.new result }
{
    match reply {
        ConfiguredReply::Done => out.put("done"),
        ConfiguredReply::Unchanged => out.put("unchanged"),
        ConfiguredReply::AlreadyConnected => out.put("already connected"),
        ConfiguredReply::AlreadyDisconnected => out.put("already disconnected"),
        ConfiguredReply::View(view) => put_count(out, view),
        ConfiguredReply::Created => out.put("created"),
        ConfiguredReply::Overwritten => out.put("overwritten"),
        ConfiguredReply::Refused(refusal) => put_refused(out, refusal),
    }
}

// Puts the lines below a command's line.
#[tactic(auto, unfolding(crate::specs::Texts::detail_lines))]
pub(crate) fn put_details(out: &mut Text, reply: &ConfiguredReply) -> Result<(), Memory>
    ensures { Puts out.old (detail_lines reply.now) out.new result }
{
    match reply {
        ConfiguredReply::View(view) => put_bus_lines(out, view),
        _ => Ok(()),
    }
}
