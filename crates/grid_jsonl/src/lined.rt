// Blocks of lines, handed to a sink.
ghost use Rattle.std.specs.Prelude.{◌≡◌, ◌≢◌, ◌≤◌, ℕ, List as Seq, length, OnOk, OnErr, Err};
ghost use Rattle.std.specs.List.{flat_map};
ghost use Rattle.std.specs.Io.KnownBytes.{Appends};
ghost use Rattle.grid_source.specs.Causes.{Rose};
ghost use Rattle.grid_source.specs.Whole.{IsBegun};
ghost use Rattle.grid_report.specs.Puts.{Puts};

use grid_ids::Memory;
use grid_report::{Blocks, ReportFault, Shown, Text, write_text};
use grid_source::Sink;
use std::alloc::Global;

/// What is put as lines.
pub trait Lined {
    // The bytes of the lines.
    ghost lined: { Self → Seq ℕ };

    /// Puts the lines of the value last. Where memory runs out, the text is empty.
    fn put_lines(&self, out: &mut Text) -> Result<(), Memory>
        ensures { Puts out.old (lined self.now) out.new result };
}

// A block, shown as its lines.
#[derive(Drop)]
struct One<'a, T: Lined> {
    block: &'a T,
}

impl<'a, T: Lined> Shown for One<'a, T> {
    ghost shown = { λ one. T.lined one.block.now };

    fn show(&self, out: &mut Text) -> Result<(), Memory> {
        self.block.put_lines(out)
    }
}

// The blocks that are still to come.
#[derive(Drop)]
struct Rest<'a, T: Lined> {
    blocks: &'a [T],
}

impl<'a, T: Lined> Blocks for Rest<'a, T> {
    type Block = One<'a, T>;

    ghost text = { λ rest. flat_map T.lined rest.blocks.now };

    ghost left = { λ rest. length rest.blocks.now };

    fn next(&mut self) -> Result<Option<One<'a, T>>, Memory> {
        match self.blocks.split_off_first() {
            Some(block) => Ok(Some(One { block })),
            None => Ok(None),
        }
    }
}

/// Writes the lines of each block of a list, in pieces of `PIECE` bytes, the last one shorter. No more than one block's
/// lines are held beside a piece. It stops only where the sink's count of faults rose, which is as before after every
/// other answer; after that, or out of memory, a front of the lines was written.
pub fn write_lined<T: Lined, K: Sink>(
    alloc: Global,
    blocks: &[T],
    sink: &mut K,
) -> Result<(), ReportFault>
    ensures ok { OnOk result
        (Appends (K.written sink.old) (K.written sink.new) (flat_map T.lined blocks.now)) }
    ensures err { OnErr result
        (IsBegun (K.written sink.old) (flat_map T.lined blocks.now) (K.written sink.new)) }
    ensures later { K.faults sink.old ≤ K.faults sink.new }
    ensures cause { result ≡ Err ReportFault.Stopped
        → Rose (K.faults sink.old) (K.faults sink.new) }
    ensures stays { result ≢ Err ReportFault.Stopped → K.faults sink.new ≡ K.faults sink.old }
{
    write_text(alloc, Rest { blocks }, sink)
}
