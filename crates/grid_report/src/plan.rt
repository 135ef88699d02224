// The parts of a report, in order.
ghost use Rattle.std.specs.Prelude.{◌++◌, codes, decimal};
ghost use Rattle.std.specs.List.{flat_map};
ghost use Rattle.grid_report.specs.Outcomes.{order_line, step_text, worker_line, variant_line, listener_line};
ghost use Rattle.grid_report.specs.Puts.{Puts};

use crate::bus::put_level;
use crate::command::put_command;
use crate::event::put_event_line;
use crate::reply::{put_answer, put_details};
use crate::text::{Shown, Text, put_named};
use grid_busview::BusView;
use grid_core::{Entry, Reply};
use grid_events::Event;
use grid_ids::{Id, Memory};

/// A part of a report.
#[derive(Clone, Copy)]
pub(crate) enum Block<'a> {
    /// The order of these steps.
    Order(&'a [Entry]),
    /// The line of a worker.
    Worker(u32),
    /// A step with its number, and the lines below.
    Step(u64, &'a Entry),
    /// The line of a variant.
    Variant(&'a Id),
    /// The view of a level.
    Level(&'a BusView),
    /// The line of a listener.
    Listener(u64),
    /// An event that was heard.
    Heard(&'a Event),
    /// The last line.
    End,
}

/// What the view of a level weighs.
const VIEW: usize = 256;

/// About how many ids are as long as a short line.
const PER_LINE: usize = 4;

impl Block<'_> {
    /// About how many short lines the block's text is as long as. No contract speaks of it: it decides which blocks are
    /// made at once.
    pub(crate) fn weight(&self) -> usize {
        match self {
            Block::Step(_, entry) => weight_of(&entry.reply),
            Block::Level(_) => VIEW,
            _ => 1,
        }
    }
}

// About how many short lines a step's text is as long as.
fn weight_of(reply: &Reply) -> usize {
    match reply {
        Reply::Closed(ids) | Reply::Opened(ids) => 1 + ids.get().len() / PER_LINE,
        Reply::BusBreaker(_) | Reply::Bus(_) => VIEW,
        Reply::Components(buses) => buses.get().len(),
        _ => 1,
    }
}

impl Shown for Block<'_> {
    ghost use Rattle.grid_report.specs.Blocks.{block_text};

    ghost shown = { block_text };

    fn show(&self, out: &mut Text) -> Result<(), Memory> {
        match self {
            Block::Order(journal) => put_order(out, journal),
            Block::Worker(worker) => put_worker(out, *worker),
            Block::Step(number, entry) => put_step(out, *number, entry),
            Block::Variant(name) => put_variant(out, name),
            Block::Level(view) => put_level(out, view),
            Block::Listener(number) => put_listener(out, *number),
            Block::Heard(event) => put_event_line(out, event),
            Block::End => out.put("end\n"),
        }
    }
}

/// Puts the worker of each step, behind a space.
fn put_workers(out: &mut Text, journal: &[Entry]) -> Result<(), Memory>
    ensures { Puts out.old (flat_map (λ e. codes " " ++ decimal e.worker) journal.now) out.new result }
{
    for entry in journal {
        out.put(" ")?;
        out.put_unsigned(u64::from(entry.worker))?;
    }
    Ok(())
}

/// Puts the line with the worker of each step, in order. Where memory runs out, the text is empty.
#[tactic(auto, unfolding(crate::specs::Outcomes::order_line))]
pub fn put_order(out: &mut Text, journal: &[Entry]) -> Result<(), Memory>
    ensures { Puts out.old (order_line journal.now) out.new result }
{
    out.put("order")?;
    put_workers(out, journal)?;
    out.put("\n")
}

/// Puts the line of a worker's number. Where memory runs out, the text is empty.
#[tactic(auto, unfolding(crate::specs::Outcomes::worker_line))]
pub fn put_worker(out: &mut Text, worker: u32) -> Result<(), Memory>
    ensures { Puts out.old (worker_line worker) out.new result }
{
    out.put("worker ")?;
    out.put_unsigned(u64::from(worker))?;
    out.put("\n")
}

#[tactic(auto, unfolding(crate::specs::Outcomes::step_text))]
fn put_step(out: &mut Text, number: u64, entry: &Entry) -> Result<(), Memory>
    ensures { Puts out.old (step_text number entry.now) out.new result }
{
    out.put_unsigned(number)?;
    put_named(out, " ", &entry.variant)?;
    out.put(" ")?;
    put_command(out, &entry.request)?;
    out.put(": ")?;
    put_answer(out, &entry.reply)?;
    out.put("\n")?;
    put_details(out, &entry.request, &entry.reply)
}

/// Puts the line of a variant's name. Where memory runs out, the text is empty.
#[tactic(auto, unfolding(crate::specs::Outcomes::variant_line))]
pub fn put_variant(out: &mut Text, name: &Id) -> Result<(), Memory>
    ensures { Puts out.old (variant_line name.now) out.new result }
{
    put_named(out, "variant ", name)?;
    out.put("\n")
}

#[tactic(auto, unfolding(crate::specs::Outcomes::listener_line))]
fn put_listener(out: &mut Text, number: u64) -> Result<(), Memory>
    ensures { Puts out.old (listener_line number) out.new result }
{
    out.put("listener ")?;
    out.put_unsigned(number)?;
    out.put("\n")
}
