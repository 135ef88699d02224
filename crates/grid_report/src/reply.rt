// What was answered, and the lines below it. The lines below components name the level that the request asked for: a
// journal has no such reply to another request.
ghost use Rattle.std.specs.Prelude.{◌++◌, length, codes, decimal};
ghost use Rattle.std.specs.List.{flat_map};
ghost use Rattle.grid_report.specs.Lines.{bus_name};
ghost use Rattle.grid_report.specs.Refusals.{refusal_text};
ghost use Rattle.grid_report.specs.Words.{signed};
ghost use Rattle.grid_report.specs.Replies.{ids_text, counts_text, answer_text, plain_line, position_text, switch_line, breaker_lines, component_line, component_lines, detail_lines};
ghost use Rattle.grid_report.specs.Puts.{Puts};

use crate::bus::{put_bus, put_bus_name, put_buses, put_count};
use crate::refusal::put_refusal;
use crate::text::{Text, put_named};
use grid_busbreaker::{Bus, BusBreakerView, ViewSwitch};
use grid_core::{BusComponent, Refusal, Reply, Request};
use grid_ids::{Id, Memory};

/// Each id behind a comma and a space.
fn put_others(out: &mut Text, ids: &[Id]) -> Result<(), Memory>
    ensures { Puts out.old (flat_map (λ other. codes ", " ++ other) ids.now) out.new result }
{
    for id in ids {
        put_named(out, ", ", id)?;
    }
    Ok(())
}

/// The ids with a comma and a space between them.
#[tactic(auto, unfolding(crate::specs::Replies::ids_text))]
fn put_ids(out: &mut Text, ids: &[Id]) -> Result<(), Memory>
    ensures { Puts out.old (ids_text ids.now) out.new result }
{
    match ids {
        [] => Ok(()),
        [first, others @ ..] => {
            out.put(first.text())?;
            put_others(out, others)
        }
    }
}

/// Puts a word and the ids of the switches that were operated.
fn put_operated(out: &mut Text, word: &str, ids: &[Id]) -> Result<(), Memory>
    ensures { Puts out.old (word.now ++ ids_text ids.now) out.new result }
{
    out.put(word)?;
    put_ids(out, ids)
}

#[tactic(auto, unfolding(crate::specs::Replies::counts_text))]
fn put_counts(out: &mut Text, view: &BusBreakerView) -> Result<(), Memory>
    ensures { Puts out.old (counts_text view.now) out.new result }
{
    out.put_unsigned(view.buses.len() as u64)?;
    out.put(" buses, ")?;
    out.put_unsigned(view.switches.len() as u64)?;
    out.put(" switches")
}

fn put_bus_count(out: &mut Text, buses: &[BusComponent]) -> Result<(), Memory>
    ensures { Puts out.old (decimal (length buses.now) ++ codes " buses") out.new result }
{
    out.put_unsigned(buses.len() as u64)?;
    out.put(" buses")
}

fn put_refused(out: &mut Text, refusal: &Refusal) -> Result<(), Memory>
    ensures { Puts out.old (codes "refused " ++ refusal_text refusal.now) out.new result }
{
    out.put("refused ")?;
    put_refusal(out, refusal)
}

fn put_totals(out: &mut Text, load: &i128, generation: &i128) -> Result<(), Memory>
    ensures { Puts out.old
        (codes "load " ++ signed load.now ++ codes " generation " ++ signed generation.now)
        out.new result }
{
    out.put("load ")?;
    out.put_signed(load)?;
    out.put(" generation ")?;
    out.put_signed(generation)
}

/// Puts the answer on a command's line. Where memory runs out, the text is empty.
#[tactic(auto, unfolding(crate::specs::Replies::answer_text))]
pub fn put_answer(out: &mut Text, reply: &Reply) -> Result<(), Memory>
    ensures { Puts out.old (answer_text reply.now) out.new result }
{
    match reply {
        Reply::Done => out.put("done"),
        Reply::Unchanged => out.put("unchanged"),
        Reply::Closed(ids) => put_operated(out, "closed ", ids.get().slice()),
        Reply::AlreadyConnected => out.put("already connected"),
        Reply::NoPath => out.put("no path"),
        Reply::Opened(ids) => put_operated(out, "opened ", ids.get().slice()),
        Reply::AlreadyDisconnected => out.put("already disconnected"),
        Reply::NoBreaker(terminal) => put_named(out, "no breaker before ", &terminal.equipment),
        Reply::BusBreaker(view) => put_counts(out, view.get()),
        Reply::Bus(view) => put_count(out, view.get()),
        Reply::Components(buses) => put_bus_count(out, buses.get().slice()),
        Reply::Totals { load, generation } => put_totals(out, load, generation),
        Reply::Created => out.put("created"),
        Reply::Overwritten => out.put("overwritten"),
        Reply::Refused(refusal) => put_refused(out, refusal),
    }
}

// ---- the lines below

/// Puts the line of a bus of a bus/breaker view.
#[tactic(auto, unfolding(crate::specs::Replies::plain_line))]
fn put_plain(out: &mut Text, level: &Id, bus: &Bus) -> Result<(), Memory>
    ensures { Puts out.old (plain_line level.now bus.now) out.new result }
{
    put_bus(
        out,
        level,
        bus.least,
        bus.nodes.slice(),
        bus.terminals.slice(),
    )?;
    out.put("\n")
}

fn put_plains(out: &mut Text, level: &Id, buses: &[Bus]) -> Result<(), Memory>
    ensures { Puts out.old (flat_map (plain_line level.now) buses.now) out.new result }
{
    for bus in buses {
        put_plain(out, level, bus)?;
    }
    Ok(())
}

#[tactic(auto, unfolding(crate::specs::Replies::position_text))]
fn put_position(out: &mut Text, opened: bool) -> Result<(), Memory>
    ensures { Puts out.old (position_text opened) out.new result }
{
    if opened {
        out.put(" open ")
    } else {
        out.put(" closed ")
    }
}

/// Puts the names of two buses of a level, and ends the line.
fn put_ends(out: &mut Text, level: &Id, bus1: u16, bus2: u16) -> Result<(), Memory>
    ensures { Puts out.old
        (bus_name level.now bus1 ++ codes " " ++ bus_name level.now bus2 ++ codes "\n")
        out.new result }
{
    put_bus_name(out, level, bus1)?;
    out.put(" ")?;
    put_bus_name(out, level, bus2)?;
    out.put("\n")
}

/// Puts the line of a retained switch.
#[tactic(auto, unfolding(crate::specs::Replies::switch_line))]
fn put_switch(out: &mut Text, level: &Id, switch: &ViewSwitch) -> Result<(), Memory>
    ensures { Puts out.old (switch_line level.now switch.now) out.new result }
{
    put_named(out, "  switch ", &switch.id)?;
    put_position(out, switch.opened)?;
    put_ends(out, level, switch.bus1, switch.bus2)
}

fn put_switches(out: &mut Text, level: &Id, switches: &[ViewSwitch]) -> Result<(), Memory>
    ensures { Puts out.old (flat_map (switch_line level.now) switches.now) out.new result }
{
    for switch in switches {
        put_switch(out, level, switch)?;
    }
    Ok(())
}

#[tactic(auto, unfolding(crate::specs::Replies::breaker_lines))]
fn put_breaker_lines(out: &mut Text, view: &BusBreakerView) -> Result<(), Memory>
    ensures { Puts out.old (breaker_lines view.now) out.new result }
{
    put_plains(out, &view.level, view.buses.slice())?;
    put_switches(out, &view.level, view.switches.slice())
}

/// Puts the line of a bus with its component.
#[tactic(auto, unfolding(crate::specs::Replies::component_line))]
fn put_component(out: &mut Text, level: &Id, bus: &BusComponent) -> Result<(), Memory>
    ensures { Puts out.old (component_line level.now bus.now) out.new result }
{
    out.put("  ")?;
    put_bus_name(out, level, bus.least)?;
    out.put(" component ")?;
    out.put_unsigned(u64::from(bus.component))?;
    out.put(" of ")?;
    out.put_unsigned(u64::from(bus.size))?;
    out.put(" buses\n")
}

fn put_components(out: &mut Text, level: &Id, buses: &[BusComponent]) -> Result<(), Memory>
    ensures { Puts out.old (flat_map (component_line level.now) buses.now) out.new result }
{
    for bus in buses {
        put_component(out, level, bus)?;
    }
    Ok(())
}

/// Puts the lines of the buses of the level that was asked for.
#[tactic(auto, unfolding(crate::specs::Replies::component_lines))]
fn put_asked(out: &mut Text, request: &Request, buses: &[BusComponent]) -> Result<(), Memory>
    ensures { Puts out.old (component_lines request.now buses.now) out.new result }
{
    match request {
        Request::Components { level } => put_components(out, level, buses),
        _ => Ok(()),
    }
}

/// Puts the lines below a command's line.
#[tactic(auto, unfolding(crate::specs::Replies::detail_lines))]
pub(crate) fn put_details(out: &mut Text, request: &Request, reply: &Reply) -> Result<(), Memory>
    ensures { Puts out.old (detail_lines request.now reply.now) out.new result }
{
    match reply {
        Reply::BusBreaker(view) => put_breaker_lines(out, view.get()),
        Reply::Bus(view) => put_buses(out, view.get()),
        Reply::Components(buses) => put_asked(out, request, buses.get().slice()),
        _ => Ok(()),
    }
}
