// The form `print`: a job's network as a job of the network alone.
use crate::serving::{JobForm, hand_over};
use grid_json::Job;
use grid_print::print_network;
use grid_report::{ReportFault, Text};
use grid_source::Sink;
use grid_structure::Seeded;
use std::mem::forget;

/// The form `print`.
#[derive(Clone, Copy)]
pub(crate) struct Print;

impl JobForm for Print {
    ghost use Rattle.std.specs.Prelude.{◌≡◌};
    ghost use Rattle.grid_print.specs.Job.{network_text};
    ghost use Rattle.grid_cli.specs.Services.{no_warning};

    type Job = Job;

    ghost IsText = { λ form job text. text ≡ network_text job.network };

    ghost warning_of = { λ form. no_warning };

    #[tactic(auto, using(crate::proofs::Written::exactly))]
    fn write<K: Sink>(
        &self,
        seeded: Seeded,
        job: Job,
        sink: &mut K,
        _warning: &mut Text,
    ) -> Result<(), ReportFault> {
        let bytes = print_network(seeded.alloc, &job.network)?;
        let written = hand_over(bytes.as_slice(), sink);
        forget(job);
        written
    }
}
