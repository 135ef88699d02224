// A report whose text several threads make.
ghost use Rattle.std.specs.Prelude.{◌≡◌, ◌≢◌, ◌≤◌, ◌<◌, ◌++◌, length, IfOk, OnOk, OnErr, Err};
ghost use Rattle.std.specs.List.{flat_map};
ghost use Rattle.std.specs.Io.KnownBytes.{Appends, append_known};
ghost use Rattle.grid_source.specs.Causes.{Rose};
ghost use Rattle.grid_source.specs.Whole.{IsBegun};
ghost use Rattle.grid_report.specs.Blocks.{block_text};
ghost use Rattle.grid_report.specs.Outcomes.{report_of};

use crate::cursors::Report;
use crate::outcome::Outcome;
use crate::pieces::{Pieces, ReportFault, put_texts};
use crate::plan::Block;
use crate::text::{Shown, Text};
use grid_ids::Memory;
use grid_source::Sink;
use rayon::prelude::*;
use std::alloc::Global;
use std::thread::Threads;

/// How many parts of a portion are made into a text each.
const PARTS: usize = 8;

/// How much a portion of blocks weighs at most, before its last one.
const PORTION: usize = 131072;

// The text of some blocks.
fn text_of(alloc: Global, blocks: &[Block<'_>]) -> Result<Text, Memory>
    ensures { IfOk result (λ text. text ≡ flat_map block_text blocks.now) }
{
    let mut text = Text::empty(alloc);
    for block in blocks {
        block.show(&mut text)?;
    }
    Ok(text)
}

// The text of all blocks, in order, in several texts.
fn texts_of<R: Threads + Sync>(
    rt: &R,
    alloc: Global,
    blocks: &[Block<'_>],
) -> Result<Vec<Text>, Memory>
    ensures { IfOk result (λ texts. flat_map (λ t. t) texts.items
        ≡ flat_map block_text blocks.now) }
{
    let at_once = blocks.len() / PARTS + 1;
    let texts: Result<Vec<Text>, Memory> = blocks
        .par_chunks(at_once)
        .with_min_len(1)
        .map(
            |chunk: &[Block<'_>]| -> Result<Text, Memory>
                ensures { IfOk result (λ text. text ≡ flat_map block_text chunk.now) }
            { text_of(alloc, chunk) },
        )
        .collect(rt, alloc)?;
    texts
}

// A block, and those that come next, until they weigh as much as a portion.
fn portion_of<'a>(
    alloc: Global,
    first: Block<'a>,
    report: &mut Report<'a>,
) -> Result<Vec<Block<'a>>, Memory>
    ensures text { IfOk result (λ blocks. block_text first.entry ++ report.old
        ≡ flat_map block_text blocks.items ++ report.new) }
    ensures left { length report.new ≤ length report.old }
{
    let mut weight = first.weight();
    let mut blocks = Vec::new(alloc);
    blocks.push(first)?;
    while weight < PORTION {
        let Some(block) = report.next_block() else {
            break;
        };
        weight = weight.saturating_add(block.weight());
        blocks.push(block)?;
    }
    Ok(blocks)
}

/// Writes the report of an outcome as `write_report` does, where several threads make its text, a portion of which is
/// in memory at a time. No lock is taken, and the call always returns where the sink does. It stops only where the
/// sink's count of faults rose, which is as before after every other answer; after that, or out of memory, a front of
/// the text was written.
pub fn write_report_on_threads<R: Threads + Sync, K: Sink>(
    rt: &R,
    alloc: Global,
    outcome: &Outcome,
    sink: &mut K,
) -> Result<(), ReportFault>
    ensures ok { OnOk result (Appends (K.written sink.old) (K.written sink.new)
        (report_of outcome.now)) }
    ensures err { OnErr result (IsBegun (K.written sink.old) (report_of outcome.now)
        (K.written sink.new)) }
    ensures later { K.faults sink.old ≤ K.faults sink.new }
    ensures cause { result ≡ Err ReportFault.Stopped
        → Rose (K.faults sink.old) (K.faults sink.new) }
    ensures stays { result ≢ Err ReportFault.Stopped → K.faults sink.new ≡ K.faults sink.old }
{
    let mut report = Report::of(outcome);
    let mut pieces = Pieces::empty(alloc);
    while let Some(first) = report.next_block() {
        let portion = portion_of(alloc, first, &mut report)?;
        let texts = texts_of(rt, alloc, portion.as_slice())?;
        put_texts(&mut pieces, sink, texts.as_slice())?;
    }
    pieces.finish(sink)
}
