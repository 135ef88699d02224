// The form `replay`: what comes of a job's commands in its order.
use crate::layout::write_outcome;
use crate::running::run_job;
use crate::serving::JobForm;
use grid_forms::Layout;
use grid_json::Job;
use grid_report::{ReportFault, Text};
use grid_source::Sink;
use grid_structure::Seeded;
use std::mem::forget;

/// The form `replay`.
#[derive(Clone, Copy)]
pub(crate) struct Replay {
    pub(crate) layout: Layout,
}

impl JobForm for Replay {
    ghost use Rattle.std.specs.Prelude.{◌≡◌};
    ghost use Rattle.grid_cli.specs.Orders.{replay_text};
    ghost use Rattle.grid_cli.specs.Services.{no_warning};

    type Job = Job;

    ghost IsText = { λ form job text. text ≡ replay_text form.layout job };

    ghost warning_of = { λ form. no_warning };

    /// Runs the job in its order, and writes what came of it.
    fn write<K: Sink>(
        &self,
        seeded: Seeded,
        job: Job,
        sink: &mut K,
        _warning: &mut Text,
    ) -> Result<(), ReportFault> {
        let outcome = run_job(seeded.alloc, job)?;
        let written = write_outcome(seeded.alloc, self.layout, &outcome, sink);
        forget(outcome);
        written
    }
}
