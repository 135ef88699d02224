// A trial: the made job, run in its order, and counted.
ghost use Rattle.std.specs.Prelude.{◌≡◌, ◌≢◌, ◌≤◌, ◌<◌, ◌^◌, ◌*◌, All, length, sum_by, count_by, IfOk, OnOk};
ghost use Rattle.std.specs.Prelude.{OnErr, Err};
ghost use Rattle.std.specs.Io.KnownBytes.{Appends};
ghost use Rattle.grid_source.specs.Causes.{Rose};
ghost use Rattle.grid_source.specs.Whole.{IsBegun};
ghost use Rattle.grid_make.specs.MadeJob.{made_job};
ghost use Rattle.grid_report.specs.Puts.{Puts};
ghost use Rattle.grid_forms.specs.declared.words.TheConstants.{MOST_SEED, MOST_SIZE};
ghost use Rattle.grid_cli.specs.Trials.{is_updated, trial_head, trial_of, trial_text};

use crate::counts::{count_commands, put_counted};
use crate::running::run_job;
use grid_busview::BusView;
use grid_core::Entry;
use grid_events::Event;
use grid_ids::Memory;
use grid_make::make_job;
use grid_report::{ReportFault, Shown, Text, VariantView, write_blocks};
use grid_shared::Shared;
use grid_source::Sink;
use grid_structure::Seeded;

/// What a trial counts.
#[derive(Clone, Copy, Debug)]
pub struct Trial {
    pub seed: u32,
    pub size: u32,
    pub commands: usize,
    /// How often a switch was opened or closed.
    pub operated: u128,
    /// How many buses the final views of all live variants have.
    pub buses: u128,
}

impl Shown for Trial {
    ghost use Rattle.grid_cli.specs.Trials.{trial_line};

    ghost shown = { trial_line };

    #[tactic(auto, unfolding(crate::specs::Trials::trial_line))]
    fn show(&self, out: &mut Text) -> Result<(), Memory> {
        put_head(out, self.seed, self.size)?;
        put_counted(out, self.commands as u128, " commands, ")?;
        put_counted(out, self.operated, " switches operated, ")?;
        put_counted(out, self.buses, " buses\n")?;
        Ok(())
    }
}

/// Puts which trial it is.
fn put_head(out: &mut Text, seed: u32, size: u32) -> Result<(), Memory>
    ensures { Puts out.old (trial_head seed size) out.new result }
{
    out.put("trial ")?;
    put_counted(out, u128::from(seed), " ")?;
    put_counted(out, u128::from(size), ": ")
}

fn is_update(event: &Event) -> bool
    ensures { result ≡ is_updated event.now }
{
    matches!(event, Event::Updated { .. })
}

/// How many of a step's events are of a switch that was opened or closed.
fn count_updates(events: &[Event]) -> usize
    ensures { result ≡ count_by is_updated events.now }
{
    let mut count = 0;
    for event in events {
        if is_update(event) {
            count += 1;
        }
    }
    count
}

/// How often a switch was opened or closed.
fn count_operated(journal: &[Entry]) -> u128
    ensures { result ≡ sum_by (λ e. count_by is_updated e.events) journal.now }
{
    let mut total = 0;
    for entry in journal {
        total += count_updates(entry.events.slice()) as u128;
    }
    total
}

/// How many buses the views of a variant have.
fn count_view_buses(views: &[Shared<BusView>]) -> u128
    requires { length views.now < 2 ^ 32 }
    ensures total { result ≡ sum_by (λ view. length view.buses) views.now }
    ensures few { result ≤ 2 ^ 32 * 2 ^ 64 }
{
    let mut total = 0;
    for view in views {
        total += view.get().buses.len() as u128;
    }
    total
}

/// How many buses the views of all variants have.
fn count_buses(variants: &[VariantView]) -> u128
    requires variants { length variants.now < 2 ^ 32 }
    requires views { All (λ v. length v.views < 2 ^ 32) variants.now }
    ensures { result ≡ sum_by (λ v. sum_by (λ view. length view.buses) v.views) variants.now }
{
    let mut total = 0;
    for variant in variants {
        total += count_view_buses(variant.views.slice());
    }
    total
}

/// Runs the made job of a seed and a size, and counts what comes of it.
#[tactic(auto, using(crate::proofs::MadeJobs::made_is_scheduled))]
fn run_trial(seeded: Seeded, seed: u32, size: u32) -> Result<Trial, Memory>
    requires seed { seed ≤ MOST_SEED }
    requires some { 1 ≤ size }
    requires few { size ≤ MOST_SIZE }
    ensures { IfOk result (λ trial. trial ≡ trial_of seed size (made_job seed size)) }
{
    let job = make_job(seeded, seed, size)?;
    let commands = count_commands(job.scripts.slice());
    let outcome = run_job(seeded.alloc, job)?;
    Ok(Trial {
        seed,
        size,
        commands,
        operated: count_operated(outcome.journal.slice()),
        buses: count_buses(outcome.views.slice()),
    })
}

/// Writes the line of a trial.
#[tactic(auto, unfolding(crate::specs::Trials::trial_text), using(grid_report::proofs::Begun::at_start))]
pub fn write_trial<K: Sink>(
    seeded: Seeded,
    seed: u32,
    size: u32,
    sink: &mut K,
) -> Result<(), ReportFault>
    requires seed { seed ≤ MOST_SEED }
    requires some { 1 ≤ size }
    requires few { size ≤ MOST_SIZE }
    ensures ok { OnOk result (Appends (K.written sink.old) (K.written sink.new)
        (trial_text seed size)) }
    ensures err { OnErr result (IsBegun (K.written sink.old) (trial_text seed size)
        (K.written sink.new)) }
    ensures later { K.faults sink.old ≤ K.faults sink.new }
    ensures cause { result ≡ Err ReportFault.Stopped
        → Rose (K.faults sink.old) (K.faults sink.new) }
    ensures stays { result ≢ Err ReportFault.Stopped → K.faults sink.new ≡ K.faults sink.old }
{
    let trial = run_trial(seeded, seed, size)?;
    write_blocks(seeded.alloc, &[trial], sink)
}
