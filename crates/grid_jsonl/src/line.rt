// The lines of an outcome, in order.
ghost use Rattle.std.specs.Prelude.{◌≡◌, ◌∷◌, true, codes, decimal};
ghost use Rattle.std.specs.List.{flat_map};
ghost use Rattle.serde_json.specs.Written.{compact_text};
ghost use Rattle.grid_print.specs.Objects.{array_of, natural};
ghost use Rattle.grid_jsonl.specs.Trees.{field_text};
ghost use Rattle.grid_print.specs.Job.{line_of};
ghost use Rattle.grid_jsonl.specs.Borrowed.{step_in};
ghost use Rattle.grid_jsonl.specs.Outcomes as outcomes;
ghost use Rattle.grid_jsonl.specs.Outcomes.{command_object, end_of, event_object, level_object, order_object, variant_object};
ghost use Rattle.grid_report.specs.Puts.{Puts};

use crate::event::put_event;
use crate::items::put_array_in;
use crate::member::{open_with, put_id, put_name, put_number};
use crate::step::{Step, put_step, refused_count};
use grid_busview::BusView;
use grid_core::Entry;
use grid_events::Event;
use grid_ids::{Id, Memory};
use grid_report::{Outcome, Shown, Text};

/// What the last line counts.
#[derive(Clone, Copy, Debug, PartialEq, Eq)]
pub struct Counts {
    pub workers: u32,
    pub commands: u64,
    /// How many of the commands were refused.
    pub refused: u64,
    /// How many variants are live.
    pub variants: u64,
    pub listeners: u64,
}

/// A line.
#[derive(Clone, Copy)]
pub(crate) enum Line<'a> {
    /// The order of these steps.
    Order(&'a [Entry]),
    Command(Step<'a>),
    Variant(&'a Id),
    /// The view of a level in a variant.
    Level(&'a Id, &'a BusView),
    /// An event of a step that a listener heard.
    Heard(u64, Step<'a>, &'a Event),
    End(&'a Outcome),
}

impl Shown for Line<'_> {
    ghost use Rattle.grid_jsonl.specs.Lines.{line_text};

    ghost shown = { line_text };

    #[tactic(auto, unfolding(crate::specs::Lines::line_object))]
    fn show(&self, out: &mut Text) -> Result<(), Memory> {
        match self {
            Line::Order(journal) => put_order_line(out, journal),
            Line::Command(step) => put_step_line(out, step),
            Line::Variant(name) => put_variant_line(out, name),
            Line::Level(name, view) => put_level(out, name, view),
            Line::Heard(listener, step, event) => put_heard(out, *listener, step, event),
            Line::End(outcome) => put_end_line(out, &counts_of(outcome)),
        }
    }
}

fn put_workers(out: &mut Text, journal: &[Entry]) -> Result<(), Memory>
    ensures { Puts out.old (flat_map (λ e. 44 ∷ decimal e.worker) journal.now) out.new result }
{
    for entry in journal {
        out.put(",")?;
        out.put_unsigned(u64::from(entry.worker))?;
    }
    Ok(())
}

/// Puts the workers of the steps, as an array.
fn put_order_array(out: &mut Text, journal: &[Entry]) -> Result<(), Memory>
    ensures { Puts out.old (compact_text (array_of (λ e. natural e.worker) journal.now)) out.new result }
{
    match journal {
        [] => out.put("[]"),
        [first, others @ ..] => {
            out.put("[")?;
            out.put_unsigned(u64::from(first.worker))?;
            put_workers(out, others)?;
            out.put("]")
        }
    }
}

#[tactic(auto, unfolding(crate::specs::Trees::field_text))]
fn put_order_member(out: &mut Text, journal: &[Entry]) -> Result<(), Memory>
    ensures { Puts out.old
        (field_text true (codes "order", array_of (λ e. natural e.worker) journal.now))
        out.new result }
{
    put_name(out, "order")?;
    put_order_array(out, journal)
}

/// Puts the line of kind `order` last: the worker of each step. Where memory runs out, the text is empty.
pub fn put_order_line(out: &mut Text, journal: &[Entry]) -> Result<(), Memory>
    ensures { Puts out.old (line_of (order_object journal.now)) out.new result }
{
    open_with(out, "kind", "order")?;
    put_order_member(out, journal)?;
    out.put("}\n")
}

fn put_step_line(out: &mut Text, step: &Step<'_>) -> Result<(), Memory>
    ensures { Puts out.old (line_of (command_object (step_in step.now))) out.new result }
{
    open_with(out, "kind", "command")?;
    out.put(",")?;
    put_step(out, step.place, step.number, step.entry)?;
    out.put("}\n")
}

/// Puts the line of kind `variant` last: the variant's name. Where memory runs out, the text is empty.
pub fn put_variant_line(out: &mut Text, name: &Id) -> Result<(), Memory>
    ensures { Puts out.old (line_of (variant_object name.now)) out.new result }
{
    open_with(out, "kind", "variant")?;
    put_id(out, "variant", name)?;
    out.put("}\n")
}

fn put_level(out: &mut Text, name: &Id, view: &BusView) -> Result<(), Memory>
    ensures { Puts out.old (line_of (level_object name.now view.now)) out.new result }
{
    open_with(out, "kind", "level")?;
    put_id(out, "variant", name)?;
    put_id(out, "level", &view.level)?;
    put_array_in(out, "buses", &view.level, view.buses.slice())?;
    out.put("}\n")
}

fn put_heard(out: &mut Text, listener: u64, step: &Step<'_>, event: &Event) -> Result<(), Memory>
    ensures { Puts out.old (line_of (event_object listener (step_in step.now) event.now)) out.new result }
{
    open_with(out, "kind", "event")?;
    put_number(out, "listener", listener)?;
    put_number(out, "place", step.place)?;
    put_number(out, "worker", u64::from(step.entry.worker))?;
    put_number(out, "step", step.number)?;
    put_event(out, event)?;
    out.put("}\n")
}

/// What the last line of an outcome counts.
#[tactic(auto, unfolding(crate::specs::Outcomes::counts_of))]
fn counts_of(outcome: &Outcome) -> Counts
    ensures { result ≡ outcomes.counts_of outcome.now }
{
    let journal = outcome.journal.slice();
    Counts {
        workers: outcome.workers,
        commands: journal.len() as u64,
        refused: refused_count(journal),
        variants: outcome.views.len() as u64,
        listeners: outcome.filters.len() as u64,
    }
}

/// Puts the line of kind `end` last. Where memory runs out, the text is empty.
pub fn put_end_line(out: &mut Text, counts: &Counts) -> Result<(), Memory>
    ensures { Puts out.old (line_of (end_of counts.now)) out.new result }
{
    open_with(out, "kind", "end")?;
    put_number(out, "workers", u64::from(counts.workers))?;
    put_number(out, "commands", counts.commands)?;
    put_number(out, "refused", counts.refused)?;
    put_number(out, "variants", counts.variants)?;
    put_number(out, "listeners", counts.listeners)?;
    out.put("}\n")
}
