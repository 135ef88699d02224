// What is written of a contingency.
ghost use Rattle.std.specs.Prelude.{◌≡◌, Option, flat_map};
ghost use Rattle.std.specs.Option.{option_map, option_to_list};
ghost use Rattle.grid_screen.specs.Faults.{switch_ids};
ghost use Rattle.grid_screen.specs.Texts as texts;
ghost use Rattle.grid_screen.specs.Texts.{next_text, counts_text, losses_text, unconnected_text, ids_text, first_text, second_text, finding_text, screen_line};
ghost use Rattle.grid_report.specs.Puts.{Puts};

use crate::faults::Breakers;
use crate::{Figures, Finding, Losses, Telling};
use grid_ids::{Id, Memory};
use grid_json::Format;
use grid_jsonl::put_string;
use grid_report::Text;
use grid_structure::{Structure, SwitchAt};

// Puts how many buses and components there are, and how many buses the main one has.
#[tactic(auto, unfolding(crate::specs::Texts::counts_text))]
fn put_counts(out: &mut Text, figures: &Figures) -> Result<(), Memory>
    ensures { Puts out.old (counts_text figures.now) out.new result }
{
    out.put_unsigned(u64::from(figures.buses))?;
    out.put(" buses, ")?;
    out.put_unsigned(u64::from(figures.components))?;
    out.put(" components, main ")?;
    out.put_unsigned(u64::from(figures.main))
}

// Puts what the main component lost.
#[tactic(auto, unfolding(crate::specs::Texts::losses_text))]
fn put_losses(out: &mut Text, losses: &Losses) -> Result<(), Memory>
    ensures { Puts out.old (losses_text losses.now) out.new result }
{
    out.put(", lost load ")?;
    out.put_signed(&losses.load)?;
    out.put(", lost generation ")?;
    out.put_signed(&losses.generation)
}

// Puts what all buses lost.
#[tactic(auto, unfolding(crate::specs::Texts::unconnected_text))]
fn put_unconnected(out: &mut Text, losses: &Losses) -> Result<(), Memory>
    ensures { Puts out.old (unconnected_text losses.now) out.new result }
{
    out.put(", unconnected load ")?;
    out.put_signed(&losses.unconnected_load)?;
    out.put(", unconnected generation ")?;
    out.put_signed(&losses.unconnected_generation)
}

// The id of the switch at a place, if there is one.
fn id_at<'a>(structure: &'a Structure, at: &SwitchAt) -> Option<&'a Id>
    ensures { option_to_list (option_map (λ id. id.now) result) ≡ switch_ids structure.now at.now }
{
    if at.level >= structure.level_count() {
        return None;
    }
    let level = structure.level(at.level);
    if at.place >= level.switch_count() {
        return None;
    }
    Some(&level.switch(at.place).id)
}

// Puts an id, behind a comma where another one stands before it.
fn put_next(out: &mut Text, id: &Id, later: bool) -> Result<(), Memory>
    ensures { Puts out.old (next_text later id.now) out.new result }
{
    if later {
        out.put(",")?;
    }
    put_string(out, id.text())
}

/// Puts the ids of these switches as an array of JSON, without blanks.
pub(crate) fn put_switch_ids(
    out: &mut Text,
    structure: &Structure,
    switches: &[SwitchAt],
) -> Result<(), Memory>
    ensures { Puts out.old (ids_text (flat_map (switch_ids structure.now) switches.now)) out.new result }
{
    out.put("[")?;
    let mut later = false;
    for at in switches {
        let Some(id) = id_at(structure, at) else {
            continue;
        };
        put_next(out, id, later)?;
        later = true;
    }
    out.put("]")
}

// Puts the breakers that tripped, where there was a fault.
fn put_tripped(
    out: &mut Text,
    structure: &Structure,
    tripped: &Option<Breakers>,
) -> Result<(), Memory>
    ensures { Puts out.old (texts.tripped_text structure.now tripped.now) out.new result }
{
    let Some(breakers) = tripped else {
        return Ok(());
    };
    out.put(", tripped ")?;
    out.put_unsigned(breakers.len() as u64)?;
    out.put(" ")?;
    put_switch_ids(out, structure, breakers.slice())
}

// Puts what is found as the first format has it.
#[tactic(auto, unfolding(crate::specs::Texts::first_text))]
fn put_first(out: &mut Text, finding: &Finding) -> Result<(), Memory>
    ensures { Puts out.old (first_text finding.now) out.new result }
{
    match finding {
        Finding::UnknownId(id) => {
            out.put("unknown ")?;
            out.put(id.text())
        }
        Finding::NoBreaker(id) => {
            out.put("no breaker ")?;
            out.put(id.text())
        }
        Finding::Effect { after, losses, .. } => {
            put_counts(out, after)?;
            put_losses(out, losses)
        }
    }
}

// Puts what is found as the second format has it.
#[tactic(auto, unfolding(crate::specs::Texts::second_text))]
fn put_second(out: &mut Text, structure: &Structure, finding: &Finding) -> Result<(), Memory>
    ensures { Puts out.old (second_text structure.now finding.now) out.new result }
{
    match finding {
        Finding::UnknownId(id) => {
            out.put("unknown ")?;
            put_string(out, id.text())
        }
        Finding::NoBreaker(id) => {
            out.put("no breaker ")?;
            put_string(out, id.text())
        }
        Finding::Effect {
            after,
            losses,
            tripped,
        } => {
            put_counts(out, after)?;
            put_losses(out, losses)?;
            put_unconnected(out, losses)?;
            put_tripped(out, structure, tripped)
        }
    }
}

// Puts what is found.
fn put_found(out: &mut Text, telling: &Telling<'_>, finding: &Finding) -> Result<(), Memory>
    ensures { Puts out.old (finding_text telling.now.format telling.now.structure.now finding.now) out.new result }
{
    match telling.format {
        Format::One => put_first(out, finding),
        Format::Two => put_second(out, telling.structure, finding),
        Format::Three => put_second(out, telling.structure, finding),
        Format::Four => put_second(out, telling.structure, finding),
        Format::Five => put_second(out, telling.structure, finding),
    }
}

/// Puts the line of a contingency with what is found of it: its name, then how many buses and components there are
/// after the outage, how many buses the main component has, and the load and the generation that it lost, in W; or the
/// id that is unknown, or of no breaker. In the second format ids stand as texts of JSON, what became unconnected comes
/// behind what was lost, and where there is a fault, how many breakers tripped, with their ids. Where memory runs out
/// the text is empty. The line is this project's own.
#[tactic(auto, unfolding(crate::specs::Texts::screen_line))]
pub fn put_finding(
    out: &mut Text,
    telling: &Telling<'_>,
    name: &Id,
    finding: &Finding,
) -> Result<(), Memory>
    ensures { Puts out.old
        (screen_line telling.now.format telling.now.structure.now name.now finding.now)
        out.new result }
{
    out.put("contingency ")?;
    out.put(name.text())?;
    out.put(": ")?;
    put_found(out, telling, finding)?;
    out.put("\n")
}
