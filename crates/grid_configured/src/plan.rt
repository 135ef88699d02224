// The parts of a report, in order.
ghost use Rattle.std.specs.Prelude.{◌≡◌, ◌++◌, OnOk, IfOk, length, map};
ghost use Rattle.std.specs.List.{count_by, flat_map, range_with_len};
ghost use Rattle.grid_report.specs.Outcomes.{numbered};
ghost use Rattle.grid_report.specs.Puts.{Puts};
ghost use Rattle.grid_configured.specs.Texts.{step_text, steps_by, worker_text, level_text, variant_text, report_of};
ghost use Rattle.grid_configured.specs.Outcomes.{told_entry, told_of};
ghost use Rattle.grid_configured.specs.Blocks.{block_objects, block_text};
ghost use Rattle.grid_configured.specs.Lines as told;
ghost use Rattle.grid_configured.specs.Lines.{level_object, objects, variant_objects, worker_objects};

use crate::texts::{put_answer, put_details, put_level};
use crate::{ConfiguredOutcome, ConfiguredReply, ConfiguredVariant, ConfiguredView};
use grid_core::Entry;
use grid_ids::{Id, Memory};
use grid_jsonl::Counts;
use grid_report::{Shown, Text, put_command, put_named, put_order, put_variant, put_worker};
use std::alloc::Global;

// A part of a report.
#[derive(Clone, Copy)]
pub(crate) enum Block<'a> {
    // The order of these steps.
    Order(&'a [Entry]),
    // The line of a worker.
    Worker(u32),
    // A step with its reply, and the lines below.
    Step(Step<'a>),
    // The line of a variant.
    Variant(&'a Id),
    // The view of a level in a variant.
    Level(&'a Id, &'a ConfiguredView),
    // The last line.
    End(Counts),
}

// A step: its place in the order from 0, its number among its worker's steps from 1, and its reply.
#[derive(Clone, Copy)]
pub(crate) struct Step<'a> {
    pub(crate) place: u64,
    pub(crate) number: u64,
    pub(crate) entry: &'a Entry,
    pub(crate) reply: &'a ConfiguredReply,
}

impl Shown for Block<'_> {
    ghost use Rattle.grid_configured.specs.Blocks.{block_text};

    ghost shown = { block_text };

    fn show(&self, out: &mut Text) -> Result<(), Memory> {
        match self {
            Block::Order(journal) => put_order(out, journal),
            Block::Worker(worker) => put_worker(out, *worker),
            Block::Step(step) => put_step(out, step),
            Block::Variant(name) => put_variant(out, name),
            Block::Level(_, view) => put_level(out, view),
            Block::End(_) => out.put("end\n"),
        }
    }
}

#[tactic(auto, unfolding(crate::specs::Texts::step_text))]
fn put_step(out: &mut Text, step: &Step<'_>) -> Result<(), Memory>
    ensures { Puts out.old
        (step_text step.now.number (told_entry step.now.entry.now step.now.reply.now))
        out.new result }
{
    out.put_unsigned(step.number)?;
    put_named(out, " ", &step.entry.variant)?;
    out.put(" ")?;
    put_command(out, &step.entry.request)?;
    out.put(": ")?;
    put_answer(out, step.reply)?;
    out.put("\n")?;
    put_details(out, step.reply)
}

// ---- the plan

fn push_steps<'a>(
    blocks: &mut Vec<Block<'a>>,
    journal: &'a [Entry],
    replies: &'a [ConfiguredReply],
    worker: u32,
) -> Result<(), Memory>
    ensures text { OnOk result (flat_map block_text blocks.new.items
        ≡ flat_map block_text blocks.old.items
        ++ numbered step_text 1 (steps_by worker (told_of journal.now replies.now))) }
    ensures lines { OnOk result (flat_map block_objects blocks.new.items
        ≡ flat_map block_objects blocks.old.items
        ++ worker_objects (told_of journal.now replies.now) worker) }
{
    let mut place = 0;
    let mut number = 0;
    for (entry, reply) in journal.iter().zip(replies) {
        let at = place;
        place += 1;
        if entry.worker == worker {
            number += 1;
            blocks.push(Block::Step(Step {
                place: at,
                number,
                entry,
                reply,
            }))?;
        }
    }
    Ok(())
}

#[tactic(auto, unfolding(crate::specs::Texts::worker_text))]
fn push_worker<'a>(
    blocks: &mut Vec<Block<'a>>,
    journal: &'a [Entry],
    replies: &'a [ConfiguredReply],
    worker: u32,
) -> Result<(), Memory>
    ensures text { OnOk result (flat_map block_text blocks.new.items
        ≡ flat_map block_text blocks.old.items
        ++ worker_text (told_of journal.now replies.now) worker) }
    ensures lines { OnOk result (flat_map block_objects blocks.new.items
        ≡ flat_map block_objects blocks.old.items
        ++ worker_objects (told_of journal.now replies.now) worker) }
{
    blocks.push(Block::Worker(worker))?;
    push_steps(blocks, journal, replies, worker)
}

fn push_workers<'a>(
    blocks: &mut Vec<Block<'a>>,
    journal: &'a [Entry],
    replies: &'a [ConfiguredReply],
    workers: u32,
) -> Result<(), Memory>
    ensures text { OnOk result (flat_map block_text blocks.new.items
        ≡ flat_map block_text blocks.old.items
        ++ flat_map (worker_text (told_of journal.now replies.now))
        (range_with_len 0 workers)) }
    ensures lines { OnOk result (flat_map block_objects blocks.new.items
        ≡ flat_map block_objects blocks.old.items
        ++ flat_map (worker_objects (told_of journal.now replies.now))
        (range_with_len 0 workers)) }
{
    for worker in 0..workers {
        push_worker(blocks, journal, replies, worker)?;
    }
    Ok(())
}

fn push_levels<'a>(
    blocks: &mut Vec<Block<'a>>,
    name: &'a Id,
    views: &'a [ConfiguredView],
) -> Result<(), Memory>
    ensures text { OnOk result (flat_map block_text blocks.new.items
        ≡ flat_map block_text blocks.old.items ++ flat_map level_text views.now) }
    ensures lines { OnOk result (flat_map block_objects blocks.new.items
        ≡ flat_map block_objects blocks.old.items ++ map (level_object name.now) views.now) }
{
    for view in views {
        blocks.push(Block::Level(name, view))?;
    }
    Ok(())
}

#[tactic(auto, unfolding(crate::specs::Texts::variant_text))]
fn push_variant<'a>(
    blocks: &mut Vec<Block<'a>>,
    variant: &'a ConfiguredVariant,
) -> Result<(), Memory>
    ensures text { OnOk result (flat_map block_text blocks.new.items
        ≡ flat_map block_text blocks.old.items ++ variant_text variant.now) }
    ensures lines { OnOk result (flat_map block_objects blocks.new.items
        ≡ flat_map block_objects blocks.old.items ++ variant_objects variant.now) }
{
    blocks.push(Block::Variant(&variant.name))?;
    push_levels(blocks, &variant.name, variant.views.slice())
}

fn push_variants<'a>(
    blocks: &mut Vec<Block<'a>>,
    variants: &'a [ConfiguredVariant],
) -> Result<(), Memory>
    ensures text { OnOk result (flat_map block_text blocks.new.items
        ≡ flat_map block_text blocks.old.items ++ flat_map variant_text variants.now) }
    ensures lines { OnOk result (flat_map block_objects blocks.new.items
        ≡ flat_map block_objects blocks.old.items ++ flat_map variant_objects variants.now) }
{
    for variant in variants {
        push_variant(blocks, variant)?;
    }
    Ok(())
}

// Whether a reply is a refusal.
#[tactic(auto, unfolding(crate::specs::Lines::is_refused))]
fn is_refused(reply: &ConfiguredReply) -> bool
    ensures { result ≡ told.is_refused reply.now }
{
    matches!(reply, ConfiguredReply::Refused(_))
}

// How many replies are refusals.
fn count_refused(replies: &[ConfiguredReply]) -> usize
    ensures { result ≡ count_by told.is_refused replies.now }
{
    let mut count = 0;
    for reply in replies {
        if is_refused(reply) {
            count += 1;
        }
    }
    count
}

// What the last line counts.
#[tactic(auto, unfolding(crate::specs::Lines::counts_of))]
fn counts_of(outcome: &ConfiguredOutcome) -> Counts
    ensures { result ≡ told.counts_of outcome.now }
{
    Counts {
        workers: outcome.workers,
        commands: outcome.journal.len() as u64,
        refused: count_refused(outcome.replies.slice()) as u64,
        variants: outcome.views.len() as u64,
        listeners: 0,
    }
}

// The parts of the report of an outcome, in order.
#[tactic(auto, unfolding(crate::specs::Texts::report_of))]
pub(crate) fn plan<'a>(
    alloc: Global,
    outcome: &'a ConfiguredOutcome,
) -> Result<Vec<Block<'a>>, Memory>
    ensures text { IfOk result (λ blocks. flat_map block_text blocks.items ≡ report_of outcome.now) }
    ensures lines { IfOk result (λ blocks. flat_map block_objects blocks.items
        ≡ objects outcome.now) }
{
    let mut blocks = Vec::new(alloc);
    let journal = outcome.journal.slice();
    blocks.push(Block::Order(journal))?;
    push_workers(
        &mut blocks,
        journal,
        outcome.replies.slice(),
        outcome.workers,
    )?;
    push_variants(&mut blocks, outcome.views.slice())?;
    blocks.push(Block::End(counts_of(outcome)))?;
    Ok(blocks)
}
