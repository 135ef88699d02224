// The lines of a variant's buses.
ghost use Rattle.std.specs.Prelude.{◌≡◌, ◌++◌, [], List, Bool, IfOk, OnOk, OnErr, length, zip, flat_map};
ghost use Rattle.grid_print.specs.Job.{line_of};
ghost use Rattle.grid_islands.specs.Islands.{network_buses};
ghost use Rattle.grid_core.specs.Fitting.{RowsFit};
ghost use Rattle.grid_jsonl.specs.Outcomes as outcomes;
ghost use Rattle.grid_hvdc.specs.Texts.{LevelsThere};
ghost use Rattle.grid_hvdc.specs.Lines.{bus_object, named_bus_line, variant_objects};
ghost use Rattle.grid_report.specs.Puts.{Puts};

use crate::buses::{BusName, list_buses};
use crate::write::number_buses;
use crate::{HvdcLine, HvdcNumber};
use grid_ids::{Id, Memory};
use grid_jsonl::{open_with, put_bus, put_id, put_number, put_variant_line};
use grid_report::Text;
use grid_states::States;
use grid_structure::Structure;
use std::alloc::Global;

// Puts the line of a bus of a variant.
fn put_bus_line(
    out: &mut Text,
    variant: &Id,
    level: &Id,
    least: u16,
    number: &HvdcNumber,
) -> Result<(), Memory>
    ensures { Puts out.old (line_of (bus_object variant.now level.now least number.now)) out.new result }
{
    open_with(out, "kind", "bus")?;
    put_id(out, "variant", variant)?;
    put_id(out, "level", level)?;
    put_bus(out, "bus", level, u32::from(least))?;
    put_number(out, "connected_component", u64::from(number.connected))?;
    put_number(out, "connected_size", u64::from(number.connected_size))?;
    put_number(out, "synchronous_component", u64::from(number.synchronous))?;
    put_number(out, "synchronous_size", u64::from(number.synchronous_size))?;
    out.put("}\n")
}

// Puts the line of each bus of a variant.
fn put_bus_lines(
    out: &mut Text,
    variant: &Id,
    structure: &Structure,
    names: &[BusName],
    numbers: &[HvdcNumber],
) -> Result<(), Memory>
    requires { LevelsThere structure.now names.now }
    ensures { Puts out.old
        (flat_map (named_bus_line variant.now structure.now) (zip names.now numbers.now))
        out.new result }
{
    for (name, number) in names.iter().zip(numbers) {
        let level = structure.level(name.level).id();
        put_bus_line(out, variant, level, name.least, number)?;
    }
    Ok(())
}

/// Puts the line of a variant and the line of each bus of its network last, as `put_variant` puts their text.
pub fn put_variant_lines(
    out: &mut Text,
    alloc: Global,
    name: &Id,
    structure: &Structure,
    states: &States,
    lines: &[HvdcLine],
) -> Result<(), Memory>
    requires { RowsFit structure.now states.now.opened }
    ensures ok { OnOk result ((retained : List (List Bool)) → out.new
        ≡ out.old ++ outcomes.lines (variant_objects name.now structure.now states.now.opened retained lines.now)) }
    ensures err { OnErr result (out.new ≡ []) }
{
    let buses = match number_buses(alloc, structure, states, lines) {
        Ok(buses) => buses,
        Err(memory) => {
            out.clear();
            return Err(memory);
        }
    };
    put_variant_line(out, name)?;
    put_bus_lines(
        out,
        name,
        structure,
        buses.names.slice(),
        buses.numbers.slice(),
    )
}

/// How many buses a network has, whose switches have the flags opened of these states.
pub fn count_buses(alloc: Global, structure: &Structure, states: &States) -> Result<u64, Memory>
    requires { RowsFit structure.now states.now.opened }
    ensures { IfOk result (λ count. (retained : List (List Bool)) → count
        ≡ length (network_buses structure.now states.now.opened retained)) }
{
    let all = list_buses(alloc, structure, states)?;
    Ok(all.names.len() as u64)
}
