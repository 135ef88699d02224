// The form `make`: the text of a made job.
ghost use Rattle.std.specs.Prelude.{◌≡◌, ◌≢◌, ◌≤◌, Err, IfOk, OnOk, OnErr};
ghost use Rattle.std.specs.Io.KnownBytes.{Appends};
ghost use Rattle.grid_source.specs.Causes.{Rose};
ghost use Rattle.grid_source.specs.Whole.{IsBegun};
ghost use Rattle.grid_forms.specs.declared.words.TheConstants.{MOST_SEED, MOST_SIZE};
ghost use Rattle.grid_cli.specs.Services.{made_text};

use crate::serving::hand_over;
use grid_ids::Memory;
use grid_make::make_job;
use grid_print::print_job;
use grid_report::ReportFault;
use grid_source::Sink;
use grid_structure::Seeded;

/// The text of a made job.
#[tactic(auto, unfolding(crate::specs::Services::made_text))]
fn made_bytes(seeded: Seeded, seed: u32, size: u32) -> Result<Vec<u8>, Memory>
    requires seed { seed ≤ MOST_SEED }
    requires some { 1 ≤ size }
    requires few { size ≤ MOST_SIZE }
    ensures { IfOk result (λ bytes. bytes.items ≡ made_text seed size) }
{
    let job = make_job(seeded, seed, size)?;
    print_job(seeded.alloc, &job)
}

/// Makes a job, and writes its text.
#[tactic(auto, using(grid_report::proofs::Begun::at_start))]
pub(crate) fn write_made<K: Sink>(
    seeded: Seeded,
    seed: u32,
    size: u32,
    sink: &mut K,
) -> Result<(), ReportFault>
    requires seed { seed ≤ MOST_SEED }
    requires some { 1 ≤ size }
    requires few { size ≤ MOST_SIZE }
    ensures ok { OnOk result (Appends (K.written sink.old) (K.written sink.new)
        (made_text seed size)) }
    ensures err { OnErr result (IsBegun (K.written sink.old) (made_text seed size)
        (K.written sink.new)) }
    ensures cause { result ≡ Err ReportFault.Stopped
        → Rose (K.faults sink.old) (K.faults sink.new) }
    ensures stays { result ≢ Err ReportFault.Stopped → K.faults sink.new ≡ K.faults sink.old }
{
    let bytes = made_bytes(seeded, seed, size)?;
    hand_over(bytes.as_slice(), sink)
}
