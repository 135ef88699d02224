// The line of a contingency.
ghost use Rattle.std.specs.Prelude.{◌++◌, true, codes, flat_map};
ghost use Rattle.serde_json.specs.Data.{string};
ghost use Rattle.grid_print.specs.Objects.{array_of};
ghost use Rattle.grid_print.specs.Job.{line_of};
ghost use Rattle.grid_jsonl.specs.Trees.{field_text, more_text};
ghost use Rattle.grid_screen.specs.Faults.{switch_ids};
ghost use Rattle.grid_screen.specs.Lines.{contingency_object, effect_fields, unconnected_fields, tripped_fields, more_fields, finding_fields};
ghost use Rattle.grid_report.specs.Puts.{Puts};

use crate::faults::Breakers;
use crate::write::put_switch_ids;
use crate::{Figures, Finding, Losses, Telling};
use grid_ids::{Id, Memory};
use grid_json::Format;
use grid_jsonl::{open_with, put_id, put_name, put_number, put_sum_of};
use grid_report::Text;
use grid_structure::{Structure, SwitchAt};

// Puts the figures after the outage, and what was lost.
#[tactic(auto, unfolding(crate::specs::Lines::effect_fields))]
fn put_effect(out: &mut Text, after: &Figures, losses: &Losses) -> Result<(), Memory>
    ensures { Puts out.old (more_text (effect_fields after.now losses.now)) out.new result }
{
    put_number(out, "buses", u64::from(after.buses))?;
    put_number(out, "components", u64::from(after.components))?;
    put_number(out, "main", u64::from(after.main))?;
    put_sum_of(out, "lost_load", &losses.load)?;
    put_sum_of(out, "lost_generation", &losses.generation)
}

// Puts what became unconnected.
#[tactic(auto, unfolding(crate::specs::Lines::unconnected_fields))]
fn put_unconnected(out: &mut Text, losses: &Losses) -> Result<(), Memory>
    ensures { Puts out.old (more_text (unconnected_fields losses.now)) out.new result }
{
    put_sum_of(out, "unconnected_load", &losses.unconnected_load)?;
    put_sum_of(
        out,
        "unconnected_generation",
        &losses.unconnected_generation,
    )
}

// Puts a member that is the array of the ids of these switches.
#[tactic(auto, unfolding(grid_jsonl::specs::Trees::field_text, crate::specs::Texts::ids_text))]
fn put_ids_of(
    out: &mut Text,
    name: &str,
    structure: &Structure,
    switches: &[SwitchAt],
) -> Result<(), Memory>
    ensures { Puts out.old
        (field_text true (name.now, array_of string (flat_map (switch_ids structure.now) switches.now)))
        out.new result }
{
    put_name(out, name)?;
    put_switch_ids(out, structure, switches)
}

// Puts the breakers that tripped, where there was a fault.
fn put_tripped(
    out: &mut Text,
    structure: &Structure,
    tripped: &Option<Breakers>,
) -> Result<(), Memory>
    ensures { Puts out.old (more_text (tripped_fields structure.now tripped.now)) out.new result }
{
    match tripped {
        Some(breakers) => put_ids_of(out, "tripped", structure, breakers.slice()),
        None => Ok(()),
    }
}

// Puts what the second format has behind the figures.
fn put_second(
    out: &mut Text,
    structure: &Structure,
    losses: &Losses,
    tripped: &Option<Breakers>,
) -> Result<(), Memory>
    ensures { Puts out.old
        (more_text (unconnected_fields losses.now ++ tripped_fields structure.now tripped.now))
        out.new result }
{
    put_unconnected(out, losses)?;
    put_tripped(out, structure, tripped)
}

// Puts what a format has behind the figures.
fn put_more(
    out: &mut Text,
    telling: &Telling<'_>,
    losses: &Losses,
    tripped: &Option<Breakers>,
) -> Result<(), Memory>
    ensures { Puts out.old
        (more_text (more_fields telling.now.format telling.now.structure.now losses.now tripped.now))
        out.new result }
{
    match telling.format {
        Format::One => Ok(()),
        Format::Two => put_second(out, telling.structure, losses, tripped),
        Format::Three => put_second(out, telling.structure, losses, tripped),
        Format::Four => put_second(out, telling.structure, losses, tripped),
        Format::Five => put_second(out, telling.structure, losses, tripped),
    }
}

// Puts the members of what is found.
#[tactic(auto, unfolding(crate::specs::Lines::finding_fields))]
fn put_found(out: &mut Text, telling: &Telling<'_>, finding: &Finding) -> Result<(), Memory>
    ensures { Puts out.old
        (more_text (finding_fields telling.now.format telling.now.structure.now finding.now))
        out.new result }
{
    match finding {
        Finding::UnknownId(id) => put_id(out, "unknown", id),
        Finding::NoBreaker(id) => put_id(out, "no_breaker", id),
        Finding::Effect {
            after,
            losses,
            tripped,
        } => {
            put_effect(out, after, losses)?;
            put_more(out, telling, losses, tripped)
        }
    }
}

/// Puts the line of kind `contingency` of one at a place among all, from 0, by its name with what is found of it, as
/// `put_finding` puts its text. Where memory runs out the text is empty.
pub fn put_finding_line(
    out: &mut Text,
    telling: &Telling<'_>,
    place: u64,
    name: &Id,
    finding: &Finding,
) -> Result<(), Memory>
    ensures { Puts out.old
        (line_of (contingency_object telling.now.format telling.now.structure.now place name.now finding.now))
        out.new result }
{
    open_with(out, "kind", "contingency")?;
    put_number(out, "place", place)?;
    put_id(out, "name", name)?;
    put_found(out, telling, finding)?;
    out.put("}\n")
}
