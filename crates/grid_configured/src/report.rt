// The report of a job with configured buses. It is the report of the journal that the node/breaker form has, with other
// replies beside it: worker, variant and request of each step are the same.
ghost use Rattle.std.specs.Prelude.{◌≡◌, ◌≢◌, ◌≤◌, OnOk, OnErr, Err};
ghost use Rattle.std.specs.Io.KnownBytes.{Appends};
ghost use Rattle.grid_source.specs.Causes.{Rose};
ghost use Rattle.grid_source.specs.Whole.{IsBegun};
ghost use Rattle.grid_jsonl.specs.Outcomes.{lines};
ghost use Rattle.grid_configured.specs.Lines.{objects};
ghost use Rattle.grid_configured.specs.Texts.{report_of};

use crate::ConfiguredOutcome;
use crate::plan::plan;
use grid_ids::Memory;
use grid_jsonl::write_lined;
use grid_report::{ReportFault, write_blocks};
use grid_source::Sink;
use std::alloc::Global;

/// Writes the report of what came of a job with configured buses, in pieces of `PIECE` bytes of `grid_source`, the last
/// one shorter: the order of the steps, each worker's steps with their replies, and each live variant with the views of
/// its levels. It stops only where the sink's count of faults rose, which is as before after every other answer; after
/// that, or out of memory, a front of the text was written.
pub fn write_configured<K: Sink>(
    alloc: Global,
    outcome: &ConfiguredOutcome,
    sink: &mut K,
) -> Result<(), ReportFault>
    ensures ok { OnOk result (Appends (K.written sink.old) (K.written sink.new)
        (report_of outcome.now)) }
    ensures err { OnErr result (IsBegun (K.written sink.old) (report_of outcome.now)
        (K.written sink.new)) }
    ensures later { K.faults sink.old ≤ K.faults sink.new }
    ensures cause { result ≡ Err ReportFault.Stopped
        → Rose (K.faults sink.old) (K.faults sink.new) }
    ensures stays { result ≢ Err ReportFault.Stopped → K.faults sink.new ≡ K.faults sink.old }
{
    let blocks = match plan(alloc, outcome) {
        Ok(blocks) => blocks,
        Err(Memory) => return Err(ReportFault::Memory),
    };
    write_blocks(alloc, blocks.as_slice(), sink)
}

/// Writes the same as JSON Lines, an object on each line, as `write_configured` writes the report: a line that tells
/// the order of the steps, each worker's steps with their replies, each live variant with the views of its levels, and
/// a line of counts.
pub fn write_configured_lines<K: Sink>(
    alloc: Global,
    outcome: &ConfiguredOutcome,
    sink: &mut K,
) -> Result<(), ReportFault>
    ensures ok { OnOk result (Appends (K.written sink.old) (K.written sink.new)
        (lines (objects outcome.now))) }
    ensures err { OnErr result (IsBegun (K.written sink.old) (lines (objects outcome.now))
        (K.written sink.new)) }
    ensures later { K.faults sink.old ≤ K.faults sink.new }
    ensures cause { result ≡ Err ReportFault.Stopped
        → Rose (K.faults sink.old) (K.faults sink.new) }
    ensures stays { result ≢ Err ReportFault.Stopped → K.faults sink.new ≡ K.faults sink.old }
{
    let blocks = match plan(alloc, outcome) {
        Ok(blocks) => blocks,
        Err(Memory) => return Err(ReportFault::Memory),
    };
    write_lined(alloc, blocks.as_slice(), sink)
}
