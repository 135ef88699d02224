// The form `check`: what a job has, counted.
ghost use Rattle.std.specs.Prelude.{◌≡◌, ◌≢◌, ◌≤◌, ◌++◌, Err, decimal};
ghost use Rattle.std.specs.Io.KnownBytes.{Appends};
ghost use Rattle.grid_source.specs.Causes.{Rose};
ghost use Rattle.grid_source.specs.Whole.{IsBegun};
ghost use Rattle.grid_json.specs.Job.{command_total};
ghost use Rattle.grid_report.specs.Puts.{Puts};
ghost use Rattle.grid_cli.specs.Counts.{counts_of, check_text};

use crate::serving::JobForm;
use grid_core::Script;
use grid_ids::Memory;
use grid_json::Job;
use grid_report::{ReportFault, Shown, Text, write_blocks};
use grid_source::Sink;
use grid_structure::Seeded;
use std::mem::forget;

/// How many of each a job has.
#[derive(Clone, Copy, Debug)]
pub struct Counts {
    pub substations: u32,
    pub levels: u32,
    pub switches: u32,
    pub commands: usize,
}

impl Shown for Counts {
    ghost use Rattle.grid_cli.specs.Counts.{counts_text};

    ghost shown = { counts_text };

    #[tactic(auto, unfolding(crate::specs::Counts::counts_text))]
    fn show(&self, out: &mut Text) -> Result<(), Memory> {
        out.put("ok: ")?;
        put_counted(out, u128::from(self.substations), " substations, ")?;
        put_counted(out, u128::from(self.levels), " levels, ")?;
        put_counted(out, u128::from(self.switches), " switches, ")?;
        put_counted(out, self.commands as u128, " commands\n")
    }
}

/// Puts a number and the word for what it counts.
pub(crate) fn put_counted(out: &mut Text, number: u128, word: &str) -> Result<(), Memory>
    ensures { Puts out.old (decimal number ++ word.now) out.new result }
{
    out.put_total(number)?;
    out.put(word)
}

/// How many commands all scripts have.
pub(crate) fn count_commands(scripts: &[Script]) -> usize
    requires { command_total scripts.now ≤ 20000 }
    ensures { result ≡ command_total scripts.now }
{
    let mut total = 0;
    for script in scripts {
        total += script.len();
    }
    total
}

/// What a job has.
#[tactic(auto, unfolding(crate::specs::Counts::counts_of))]
fn counts_of(job: &Job) -> Counts
    requires { command_total job.now.scripts ≤ 20000 }
    ensures { result ≡ counts_of job.now }
{
    Counts {
        substations: job.network.substation_count(),
        levels: job.network.level_count(),
        switches: job.network.switch_total(),
        commands: count_commands(job.scripts.slice()),
    }
}

/// The form `check`.
#[derive(Clone, Copy)]
pub(crate) struct Check;

impl JobForm for Check {
    ghost use Rattle.std.specs.Prelude.{◌≡◌};
    ghost use Rattle.grid_cli.specs.Counts.{check_text};
    ghost use Rattle.grid_cli.specs.Services.{no_warning};

    type Job = Job;

    ghost IsText = { λ form job text. text ≡ check_text job };

    ghost warning_of = { λ form. no_warning };

    #[tactic(auto, unfolding(crate::specs::Counts::check_text), using(crate::proofs::Written::exactly))]
    fn write<K: Sink>(
        &self,
        seeded: Seeded,
        job: Job,
        sink: &mut K,
        _warning: &mut Text,
    ) -> Result<(), ReportFault> {
        let written = write_blocks(seeded.alloc, &[counts_of(&job)], sink);
        forget(job);
        written
    }
}
