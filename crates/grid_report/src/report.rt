// Blocks of text, handed to a sink.
ghost use Rattle.std.specs.Prelude.{◌≡◌, ◌≢◌, ◌≤◌, ◌<◌, ◌++◌, ℕ, List as Texts, [], length, OnOk, OnErr, IfOk, IfSome, MatchOption, Err};
ghost use Rattle.std.specs.List.{flat_map};
ghost use Rattle.std.specs.Io.KnownBytes.{Appends, append_known};
ghost use Rattle.grid_source.specs.Causes.{Rose};
ghost use Rattle.grid_source.specs.Whole.{IsBegun};
ghost use Rattle.grid_report.specs.Outcomes.{report_of};

use crate::cursors::Report;
use crate::outcome::Outcome;
use crate::pieces::{Pieces, ReportFault};
use crate::plan::Block;
use crate::text::{Shown, Text};
use crate::variants::put_variants;
use grid_ids::Memory;
use grid_source::Sink;
use std::alloc::Global;

/// Blocks of text that are made one after the other.
pub trait Blocks {
    /// A block.
    type Block: Shown + Drop;

    // The text that is still to come.
    ghost text: { Self → Texts ℕ };

    // At most so many blocks are still to come.
    ghost left: { Self → ℕ };

    /// The next block, or None where no text is left.
    fn next(&mut self) -> Result<Option<Self::Block>, Memory>
        ensures text { IfOk result (λ next. MatchOption next (text self.old ≡ [])
            (λ block. text self.old ≡ Self.Block.shown block ++ text self.new)) }
        ensures left { IfOk result (λ next. IfSome next (λ _. left self.new < left self.old)) };
}

/// Hands the text of each block to the sink, behind the bytes that wait. No more than one block's text is held.
fn put_blocks<B: Blocks + Drop, K: Sink>(
    alloc: Global,
    pieces: &mut Pieces,
    sink: &mut K,
    mut blocks: B,
) -> Result<(), ReportFault>
    ensures ok { OnOk result (Appends (append_known (K.written sink.old) pieces.old)
        (append_known (K.written sink.new) pieces.new) (B.text blocks)) }
    ensures err { OnErr result (IsBegun (append_known (K.written sink.old) pieces.old)
        (B.text blocks) (K.written sink.new)) }
    ensures later { K.faults sink.old ≤ K.faults sink.new }
    ensures cause { result ≡ Err ReportFault.Stopped
        → Rose (K.faults sink.old) (K.faults sink.new) }
    ensures stays { result ≢ Err ReportFault.Stopped → K.faults sink.new ≡ K.faults sink.old }
{
    let mut text = Text::empty(alloc);
    while let Some(block) = blocks.next()? {
        text.clear();
        block.show(&mut text)?;
        pieces.put(sink, text.as_bytes())?;
    }
    Ok(())
}

/// Writes each block, in pieces of `PIECE` bytes, the last one shorter. No more than one block's text is held beside a
/// piece. A piece that is taken in part is offered again from its rest. It stops only where the sink's count of faults
/// rose, which is as before after every other answer; after that, or out of memory, a front of the text was written.
pub fn write_text<B: Blocks + Drop, K: Sink>(
    alloc: Global,
    blocks: B,
    sink: &mut K,
) -> Result<(), ReportFault>
    ensures ok { OnOk result (Appends (K.written sink.old) (K.written sink.new) (B.text blocks)) }
    ensures err { OnErr result (IsBegun (K.written sink.old) (B.text blocks)
        (K.written sink.new)) }
    ensures later { K.faults sink.old ≤ K.faults sink.new }
    ensures cause { result ≡ Err ReportFault.Stopped
        → Rose (K.faults sink.old) (K.faults sink.new) }
    ensures stays { result ≢ Err ReportFault.Stopped → K.faults sink.new ≡ K.faults sink.old }
{
    let mut pieces = Pieces::empty(alloc);
    put_blocks(alloc, &mut pieces, sink, blocks)?;
    pieces.finish(sink)
}

/// Writes each block of a list, as `write_text` does.
pub fn write_blocks<T: Shown, K: Sink>(
    alloc: Global,
    blocks: &[T],
    sink: &mut K,
) -> Result<(), ReportFault>
    ensures ok { OnOk result
        (Appends (K.written sink.old) (K.written sink.new) (flat_map T.shown blocks.now)) }
    ensures err { OnErr result
        (IsBegun (K.written sink.old) (flat_map T.shown blocks.now) (K.written sink.new)) }
    ensures later { K.faults sink.old ≤ K.faults sink.new }
    ensures cause { result ≡ Err ReportFault.Stopped
        → Rose (K.faults sink.old) (K.faults sink.new) }
    ensures stays { result ≢ Err ReportFault.Stopped → K.faults sink.new ≡ K.faults sink.old }
{
    let mut pieces = Pieces::empty(alloc);
    let mut text = Text::empty(alloc);
    for block in blocks {
        text.clear();
        block.show(&mut text)?;
        pieces.put(sink, text.as_bytes())?;
    }
    pieces.finish(sink)
}

impl<'a> Blocks for Report<'a> {
    type Block = Block<'a>;

    ghost text = { λ report. report };

    ghost left = { λ report. length report };

    fn next(&mut self) -> Result<Option<Block<'a>>, Memory> {
        Ok(self.next_block())
    }
}

/// Hands the report of an outcome to the sink, behind the bytes that wait.
fn put_report<K: Sink>(
    alloc: Global,
    pieces: &mut Pieces,
    sink: &mut K,
    outcome: &Outcome,
) -> Result<(), ReportFault>
    ensures ok { OnOk result (Appends (append_known (K.written sink.old) pieces.old)
        (append_known (K.written sink.new) pieces.new) (report_of outcome.now)) }
    ensures err { OnErr result (IsBegun (append_known (K.written sink.old) pieces.old)
        (report_of outcome.now) (K.written sink.new)) }
    ensures later { K.faults sink.old ≤ K.faults sink.new }
    ensures cause { result ≡ Err ReportFault.Stopped
        → Rose (K.faults sink.old) (K.faults sink.new) }
    ensures stays { result ≢ Err ReportFault.Stopped → K.faults sink.new ≡ K.faults sink.old }
{
    put_blocks(alloc, pieces, sink, Report::front(outcome))?;
    put_variants(alloc, pieces, sink, outcome.views.slice())?;
    put_blocks(alloc, pieces, sink, Report::back(outcome))
}

/// Writes the report of an outcome, in pieces of `PIECE` bytes, the last one shorter. Beside the outcome it holds a
/// piece, one block's text and, where there are several variants, the texts of one variant's levels. It stops only
/// where the sink's count of faults rose, which is as before after every other answer; after that, or out of memory, a
/// front of the text was written.
pub fn write_report<K: Sink>(
    alloc: Global,
    outcome: &Outcome,
    sink: &mut K,
) -> Result<(), ReportFault>
    ensures ok { OnOk result (Appends (K.written sink.old) (K.written sink.new)
        (report_of outcome.now)) }
    ensures err { OnErr result (IsBegun (K.written sink.old) (report_of outcome.now)
        (K.written sink.new)) }
    ensures later { K.faults sink.old ≤ K.faults sink.new }
    ensures cause { result ≡ Err ReportFault.Stopped
        → Rose (K.faults sink.old) (K.faults sink.new) }
    ensures stays { result ≢ Err ReportFault.Stopped → K.faults sink.new ≡ K.faults sink.old }
{
    // A single variant shares no text.
    if outcome.views.len() < 2 {
        return write_text(alloc, Report::of(outcome), sink);
    }
    let mut pieces = Pieces::empty(alloc);
    put_report(alloc, &mut pieces, sink, outcome)?;
    pieces.finish(sink)
}
