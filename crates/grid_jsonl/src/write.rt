// Lines, handed to a sink.
ghost use Rattle.std.specs.Prelude.{◌≡◌, ◌≢◌, ◌≤◌, OnOk, OnErr, Err};
ghost use Rattle.std.specs.Io.KnownBytes.{Appends};
ghost use Rattle.grid_source.specs.Causes.{Rose};
ghost use Rattle.grid_source.specs.Whole.{IsBegun};
ghost use Rattle.grid_jsonl.specs.Outcomes.{lines, objects};

use crate::cursors::Lines;
use crate::line::Line;
use crate::numbered::steps_of;
use grid_ids::Memory;
use grid_report::{Blocks, Outcome, ReportFault, write_text};
use grid_source::Sink;
use std::alloc::Global;

impl<'a> Blocks for Lines<'a> {
    ghost use Rattle.std.specs.Prelude.{length};
    ghost use Rattle.std.specs.List.{flat_map};

    type Block = Line<'a>;

    ghost text = { λ rest. flat_map (λ line. line) rest };

    ghost left = { λ rest. length rest };

    fn next(&mut self) -> Result<Option<Line<'a>>, Memory> {
        Ok(self.next_line())
    }
}

/// Writes the lines of an outcome, in pieces of `PIECE` bytes, the last one shorter. Beside the outcome it holds a
/// piece, one line, and a few numbers for each step. It stops only where the sink's count of faults rose, which is as
/// before after every other answer; after that, or out of memory, a front of the lines was written.
pub fn write_lines<K: Sink>(
    alloc: Global,
    outcome: &Outcome,
    sink: &mut K,
) -> Result<(), ReportFault>
    ensures ok { OnOk result (Appends (K.written sink.old) (K.written sink.new)
        (lines (objects outcome.now))) }
    ensures err { OnErr result (IsBegun (K.written sink.old) (lines (objects outcome.now))
        (K.written sink.new)) }
    ensures later { K.faults sink.old ≤ K.faults sink.new }
    ensures cause { result ≡ Err ReportFault.Stopped
        → Rose (K.faults sink.old) (K.faults sink.new) }
    ensures stays { result ≢ Err ReportFault.Stopped → K.faults sink.new ≡ K.faults sink.old }
{
    let steps = steps_of(alloc, outcome.journal.slice())?;
    write_text(alloc, Lines::of(outcome, steps.as_slice()), sink)
}
