// The parts of lines: terminals, buses and retained switches.
ghost use Rattle.std.specs.Prelude.{◌∷◌, true, false, codes};
ghost use Rattle.json.specs.Print.{quoted};
ghost use Rattle.serde_json.specs.Data.{string};
ghost use Rattle.grid_report.specs.Lines.{bus_name};
ghost use Rattle.grid_jsonl.specs.Trees.{field_text};
ghost use Rattle.grid_jsonl.specs.Parts.{terminal_value, view_bus_value, bus_value, switch_value, component_value};
ghost use Rattle.grid_report.specs.Puts.{Puts};

use crate::items::{Written, WrittenIn, put_array};
use crate::member::{open_id, put_flag, put_name, put_number, put_sum_of};
use crate::string::put_escaped;
use grid_busbreaker::{Bus, ViewSwitch};
use grid_busview::ViewBus;
use grid_ids::{Id, Memory};
use grid_islands::BusComponent;
use grid_level::Terminal;
use grid_report::Text;

impl Written for Terminal {
    ghost written = { terminal_value };

    fn put(&self, out: &mut Text) -> Result<(), Memory> {
        open_id(out, "id", &self.equipment)?;
        put_number(out, "side", u64::from(self.side))?;
        out.put("}")
    }
}

/// Puts the id of a bus last, as a text: its level's id, an underscore and its least node. Where memory runs out, the
/// text is empty.
pub fn put_bus_id(out: &mut Text, level: &Id, least: u32) -> Result<(), Memory>
    ensures { Puts out.old (quoted (bus_name level.now least)) out.new result }
{
    put_escaped(out, "\"", level.text(), "_")?;
    out.put_unsigned(u64::from(least))?;
    out.put("\"")
}

/// Opens the object of a bus with its id. Where memory runs out, the text is empty.
pub fn open_bus(out: &mut Text, level: &Id, least: u32) -> Result<(), Memory>
    ensures { Puts out.old (123 ∷ field_text false (codes "id", string (bus_name level.now least))) out.new result }
{
    out.put("{\"id\":")?;
    put_bus_id(out, level, least)
}

/// Puts a member that is the id of a bus, behind a comma. Where memory runs out, the text is empty.
#[inline(always)]
#[tactic(auto, unfolding(crate::specs::Trees::field_text))]
pub fn put_bus(out: &mut Text, name: &str, level: &Id, least: u32) -> Result<(), Memory>
    ensures { Puts out.old (field_text true (name.now, string (bus_name level.now least))) out.new result }
{
    put_name(out, name)?;
    put_bus_id(out, level, least)
}

impl WrittenIn for ViewBus {
    ghost written_in = { view_bus_value };

    fn put_in(&self, out: &mut Text, level: &Id) -> Result<(), Memory> {
        open_bus(out, level, u32::from(self.least))?;
        put_array(out, "nodes", self.nodes.slice())?;
        put_array(out, "terminals", self.terminals.slice())?;
        put_sum_of(out, "load", &self.load)?;
        put_sum_of(out, "generation", &self.generation)?;
        out.put("}")
    }
}

impl WrittenIn for Bus {
    ghost written_in = { bus_value };

    fn put_in(&self, out: &mut Text, level: &Id) -> Result<(), Memory> {
        open_bus(out, level, u32::from(self.least))?;
        put_array(out, "nodes", self.nodes.slice())?;
        put_array(out, "terminals", self.terminals.slice())?;
        out.put("}")
    }
}

impl WrittenIn for ViewSwitch {
    ghost written_in = { switch_value };

    fn put_in(&self, out: &mut Text, level: &Id) -> Result<(), Memory> {
        open_id(out, "id", &self.id)?;
        put_flag(out, "open", self.opened)?;
        put_bus(out, "bus1", level, u32::from(self.bus1))?;
        put_bus(out, "bus2", level, u32::from(self.bus2))?;
        out.put("}")
    }
}

impl WrittenIn for BusComponent {
    ghost written_in = { component_value };

    fn put_in(&self, out: &mut Text, level: &Id) -> Result<(), Memory> {
        open_bus(out, level, u32::from(self.least))?;
        put_number(out, "component", u64::from(self.component))?;
        put_number(out, "size", u64::from(self.size))?;
        out.put("}")
    }
}
