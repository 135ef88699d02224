// The lines of buses.
ghost use Rattle.grid_report.specs.Lines.{bus_name, terminals_text, bus_text, flows_text, bus_line, bus_lines, count_text, level_text};
ghost use Rattle.grid_report.specs.Puts.{Puts};

use crate::text::{Shown, Text, put_numbers, put_spaced};
use grid_busview::{BusView, ViewBus};
use grid_ids::{Id, Memory};
use grid_level::Terminal;

impl Shown for Terminal {
    ghost use Rattle.grid_report.specs.Lines.{terminal_text};

    ghost shown = { terminal_text };

    #[inline(always)]
    fn show(&self, out: &mut Text) -> Result<(), Memory> {
        out.put(self.equipment.text())?;
        out.put_byte(b'.')?;
        out.put_unsigned(u64::from(self.side))
    }
}

/// Puts the name of a bus last: its level's id, an underscore and its least node. Where memory runs out, the text is
/// empty.
pub fn put_bus_name(out: &mut Text, level: &Id, least: u16) -> Result<(), Memory>
    ensures { Puts out.old (bus_name level.now least) out.new result }
{
    out.put(level.text())?;
    out.put("_")?;
    out.put_unsigned(u64::from(least))
}

/// Puts each terminal behind a space, or a dash where there is none. Where memory runs out, the text is empty.
pub fn put_terminals(out: &mut Text, terminals: &[Terminal]) -> Result<(), Memory>
    ensures { Puts out.old (terminals_text terminals.now) out.new result }
{
    if terminals.is_empty() {
        out.put(" -")
    } else {
        put_spaced(out, terminals)
    }
}

/// Puts the load and the generation of a bus, in W, and ends the line. Where memory runs out, the text is empty.
pub fn put_flows(out: &mut Text, load: &i128, generation: &i128) -> Result<(), Memory>
    ensures { Puts out.old (flows_text load.now generation.now) out.new result }
{
    out.put(" | load ")?;
    out.put_signed(load)?;
    out.put(" | generation ")?;
    out.put_signed(generation)?;
    out.put("\n")?;
    Ok(())
}

/// Puts a bus: its name, its nodes and its terminals.
pub(crate) fn put_bus(
    out: &mut Text,
    level: &Id,
    least: u16,
    nodes: &[u16],
    terminals: &[Terminal],
) -> Result<(), Memory>
    ensures { Puts out.old (bus_text level.now least nodes.now terminals.now) out.new result }
{
    out.put("  bus ")?;
    put_bus_name(out, level, least)?;
    out.put(" |")?;
    put_numbers(out, b' ', nodes)?;
    out.put(" |")?;
    put_terminals(out, terminals)
}

/// Puts the line of a bus of a bus view.
fn put_bus_line(out: &mut Text, level: &Id, bus: &ViewBus) -> Result<(), Memory>
    ensures { Puts out.old (bus_line level.now bus.now) out.new result }
{
    put_bus(
        out,
        level,
        bus.least,
        bus.nodes.slice(),
        bus.terminals.slice(),
    )?;
    put_flows(out, &bus.load, &bus.generation)
}

/// Puts the line of each bus of a view.
#[tactic(auto, unfolding(crate::specs::Lines::bus_lines))]
pub(crate) fn put_buses(out: &mut Text, view: &BusView) -> Result<(), Memory>
    ensures { Puts out.old (bus_lines view.now) out.new result }
{
    for bus in view.buses.slice() {
        put_bus_line(out, &view.level, bus)?;
    }
    Ok(())
}

/// Puts how many buses a view has.
pub(crate) fn put_count(out: &mut Text, view: &BusView) -> Result<(), Memory>
    ensures { Puts out.old (count_text view.now) out.new result }
{
    out.put_unsigned(view.buses.len() as u64)?;
    out.put(" buses")
}

/// Puts a level's line with its buses.
#[tactic(auto, unfolding(crate::specs::Lines::level_text))]
pub(crate) fn put_level(out: &mut Text, view: &BusView) -> Result<(), Memory>
    ensures { Puts out.old (level_text view.now) out.new result }
{
    out.put("level ")?;
    out.put(view.level.text())?;
    out.put(": ")?;
    put_count(out, view)?;
    out.put("\n")?;
    put_buses(out, view)
}
