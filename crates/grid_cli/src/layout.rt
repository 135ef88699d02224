// What is written in each layout.
ghost use Rattle.std.specs.Prelude.{◌≡◌, ◌≢◌, OnOk, OnErr, Err};
ghost use Rattle.std.specs.List.{flat_map};
ghost use Rattle.std.specs.Io.KnownBytes.{Appends};
ghost use Rattle.grid_source.specs.Causes.{Rose};
ghost use Rattle.grid_source.specs.Whole.{IsBegun};
ghost use Rattle.grid_cli.specs.Layouts.{in_layout, outcome_text};

use grid_forms::Layout;
use grid_jsonl::{Lined, write_lined, write_lines};
use grid_report::{Outcome, ReportFault, Shown, write_blocks, write_report};
use grid_source::Sink;
use std::alloc::Global;

/// Writes what came of a job in a layout.
#[tactic(auto, unfolding(crate::specs::Layouts::outcome_text))]
pub(crate) fn write_outcome<K: Sink>(
    alloc: Global,
    layout: Layout,
    outcome: &Outcome,
    sink: &mut K,
) -> Result<(), ReportFault>
    ensures ok { OnOk result (Appends (K.written sink.old) (K.written sink.new)
        (outcome_text layout outcome.now)) }
    ensures err { OnErr result (IsBegun (K.written sink.old) (outcome_text layout outcome.now)
        (K.written sink.new)) }
    ensures cause { result ≡ Err ReportFault.Stopped
        → Rose (K.faults sink.old) (K.faults sink.new) }
    ensures stays { result ≢ Err ReportFault.Stopped → K.faults sink.new ≡ K.faults sink.old }
{
    match layout {
        Layout::Text => write_report(alloc, outcome, sink),
        Layout::Lines => write_lines(alloc, outcome, sink),
    }
}

/// Writes each of these parts in a layout.
pub(crate) fn write_parts<T: Shown + Lined, K: Sink>(
    alloc: Global,
    layout: Layout,
    parts: &[T],
    sink: &mut K,
) -> Result<(), ReportFault>
    ensures ok { OnOk result (Appends (K.written sink.old) (K.written sink.new)
        (in_layout layout (flat_map T.shown parts.now) (flat_map T.lined parts.now))) }
    ensures err { OnErr result (IsBegun (K.written sink.old)
        (in_layout layout (flat_map T.shown parts.now) (flat_map T.lined parts.now))
        (K.written sink.new)) }
    ensures cause { result ≡ Err ReportFault.Stopped
        → Rose (K.faults sink.old) (K.faults sink.new) }
    ensures stays { result ≢ Err ReportFault.Stopped → K.faults sink.new ≡ K.faults sink.old }
{
    match layout {
        Layout::Text => write_blocks(alloc, parts, sink),
        Layout::Lines => write_lined(alloc, parts, sink),
    }
}
