// What is written of a variant's buses.
ghost use Rattle.std.specs.Prelude.{◌≡◌, ◌++◌, ◌<◌, ◌^◌, [], ℕ, List, Bool, IfOk, OnOk, OnErr, length, zip, flat_map, codes};
ghost use Rattle.grid_structure.specs.Sites.{levels};
ghost use Rattle.grid_islands.specs.Islands as islands;
ghost use Rattle.grid_core.specs.Fitting.{RowsFit};
ghost use Rattle.grid_hvdc.specs.Numbers as numbers;
ghost use Rattle.grid_hvdc.specs.Names.{bus_names};
ghost use Rattle.grid_hvdc.specs.Stations.{hvdc_links};
ghost use Rattle.grid_hvdc.specs.Texts.{component_text, hvdc_line, level_name, named_line, variant_text, LevelsThere, NumbersOf};
ghost use Rattle.grid_report.specs.Puts.{Puts};

use crate::buses::{BusName, list_buses};
use crate::links::link_pairs;
use crate::numbers::hvdc_numbers;
use crate::{HvdcLine, HvdcNumber, HvdcNumbers};
use grid_ids::{Id, Memory, Seq};
use grid_islands::bus_pairs;
use grid_report::{Text, put_bus_name};
use grid_states::States;
use grid_structure::Structure;
use std::alloc::Global;

// Puts a component's number and size.
fn put_component(out: &mut Text, number: u32, size: u32) -> Result<(), Memory>
    ensures { Puts out.old (component_text number size) out.new result }
{
    out.put(" ")?;
    out.put_unsigned(u64::from(number))?;
    out.put(" of ")?;
    out.put_unsigned(u64::from(size))?;
    out.put(" buses")
}

// Puts the line of a bus.
#[tactic(auto, unfolding(crate::specs::Texts::hvdc_line))]
fn put_line(out: &mut Text, level: &Id, least: u16, number: &HvdcNumber) -> Result<(), Memory>
    ensures { Puts out.old (hvdc_line level.now least number.now) out.new result }
{
    put_bus_name(out, level, least)?;
    out.put(" connected")?;
    put_component(out, number.connected, number.connected_size)?;
    out.put(" synchronous")?;
    put_component(out, number.synchronous, number.synchronous_size)?;
    out.put("\n")
}

// Puts the line of each bus.
fn put_lines(
    out: &mut Text,
    structure: &Structure,
    names: &[BusName],
    numbers: &[HvdcNumber],
) -> Result<(), Memory>
    requires { LevelsThere structure.now names.now }
    ensures { Puts out.old (flat_map (named_line structure.now) (zip names.now numbers.now)) out.new result }
{
    for (name, number) in names.iter().zip(numbers) {
        put_line(out, structure.level(name.level).id(), name.least, number)?;
    }
    Ok(())
}

// The buses of a variant by their numbers, with their components.
#[derive(Drop)]
pub(crate) struct NumberedBuses {
    pub(crate) names: Seq<BusName>,
    pub(crate) numbers: HvdcNumbers,
}

// The buses of all levels, with their components over branches and HVDC lines.
pub(crate) fn number_buses(
    alloc: Global,
    structure: &Structure,
    states: &States,
    lines: &[HvdcLine],
) -> Result<NumberedBuses, Memory>
    requires { RowsFit structure.now states.now.opened }
    ensures names { IfOk result (λ buses. buses.names ≡ bus_names structure.now states.now.opened) }
    ensures numbers { IfOk result (λ buses. (retained : List (List Bool)) → NumbersOf structure.now
        (islands.network_buses structure.now states.now.opened retained) lines.now buses.numbers) }
{
    let all = list_buses(alloc, structure, states)?;
    let branches = bus_pairs(alloc, structure, all.numbered.rows.slice())?;
    let links = link_pairs(alloc, structure, all.numbered.rows.slice(), lines)?;
    let numbers = hvdc_numbers(alloc, all.numbered.count, branches.slice(), links.slice())?;
    Ok(NumberedBuses {
        names: all.names,
        numbers,
    })
}

// Puts a variant's name on a line of its own.
fn put_name(out: &mut Text, name: &Id) -> Result<(), Memory>
    ensures { Puts out.old (codes "variant " ++ name.now ++ codes "\n") out.new result }
{
    out.put("variant ")?;
    out.put(name.text())?;
    out.put("\n")
}

/// Puts a variant's name and the line of each bus of its network last, by place of level, then by least node: the bus
/// with its connected and its synchronous component. The switches have the flags opened of these states: a row for
/// each level, a flag for each switch; the flags retained are of no account. An HVDC line connects the two buses in
/// which its stations stand. Where memory runs out, no text is left. The time is that of the network's nodes,
/// switches, branches and HVDC lines.
pub fn put_variant(
    out: &mut Text,
    alloc: Global,
    name: &Id,
    structure: &Structure,
    states: &States,
    lines: &[HvdcLine],
) -> Result<(), Memory>
    requires { RowsFit structure.now states.now.opened }
    ensures ok { OnOk result ((retained : List (List Bool)) → out.new
        ≡ out.old ++ variant_text name.now structure.now states.now.opened retained lines.now) }
    ensures err { OnErr result (out.new ≡ []) }
{
    let buses = match number_buses(alloc, structure, states, lines) {
        Ok(buses) => buses,
        Err(memory) => {
            out.clear();
            return Err(memory);
        }
    };
    put_name(out, name)?;
    put_lines(out, structure, buses.names.slice(), buses.numbers.slice())
}
