// The form `configured`: jobs of networks with configured buses.
ghost use Rattle.std.specs.Prelude.{◌≡◌, ◌≢◌, ◌≤◌, Err, IfOk, OnOk, OnErr, All, length};
ghost use Rattle.std.specs.Io.KnownBytes.{Appends};
ghost use Rattle.grid_source.specs.Causes.{Rose};
ghost use Rattle.grid_source.specs.Whole.{IsBegun};
ghost use Rattle.grid_json.specs.Job.{max_workers};
ghost use Rattle.grid_report.specs.Histories as histories;
ghost use Rattle.grid_report.specs.Histories.{IsOrder};
ghost use Rattle.grid_configured.specs.Checks.{IsTranslatable};
ghost use Rattle.grid_configured.specs.Names.{IsConfiguredRequest};
ghost use Rattle.grid_configured.specs.Reports.{history_of, report_after};
ghost use Rattle.grid_cli.specs.Configured.{configured_in};

use crate::running::chosen_order;
use crate::serving::JobForm;
use grid_configured::{
    ConfiguredJob, ConfiguredNetwork, ConfiguredOutcome, run_configured, write_configured,
    write_configured_lines,
};
use grid_core::Script;
use grid_forms::Layout;
use grid_ids::Memory;
use grid_json::Order;
use grid_report::{ReportFault, Text};
use grid_source::Sink;
use grid_structure::Seeded;
use std::alloc::Global;

/// What comes of scripts on a network, in the order that is given or else the workers in turn.
fn run_in_order(
    seeded: Seeded,
    network: ConfiguredNetwork,
    scripts: &[Script],
    order: Option<Order>,
) -> Result<ConfiguredOutcome, Memory>
    requires network { IsTranslatable network }
    requires plain { All (All IsConfiguredRequest) scripts.now }
    requires few { length scripts.now ≤ max_workers }
    requires order { IsOrder scripts.now (histories.chosen_order scripts.now order) }
    ensures { IfOk result (λ outcome. outcome
        ≡ report_after (history_of network scripts.now (histories.chosen_order scripts.now
        order))) }
{
    let order = chosen_order(seeded.alloc, order, scripts)?;
    run_configured(seeded, network, scripts, order.slice())
}

/// Writes what came of a job in a layout.
#[tactic(auto, unfolding(crate::specs::Configured::configured_in))]
fn write_outcome<K: Sink>(
    alloc: Global,
    layout: Layout,
    outcome: &ConfiguredOutcome,
    sink: &mut K,
) -> Result<(), ReportFault>
    ensures ok { OnOk result (Appends (K.written sink.old) (K.written sink.new)
        (configured_in layout outcome.now)) }
    ensures err { OnErr result (IsBegun (K.written sink.old) (configured_in layout outcome.now)
        (K.written sink.new)) }
    ensures cause { result ≡ Err ReportFault.Stopped
        → Rose (K.faults sink.old) (K.faults sink.new) }
    ensures stays { result ≢ Err ReportFault.Stopped → K.faults sink.new ≡ K.faults sink.old }
{
    match layout {
        Layout::Text => write_configured(alloc, outcome, sink),
        Layout::Lines => write_configured_lines(alloc, outcome, sink),
    }
}

/// The form `configured`.
#[derive(Clone, Copy)]
pub(crate) struct Configured {
    pub(crate) layout: Layout,
}

impl JobForm for Configured {
    ghost use Rattle.std.specs.Prelude.{◌≡◌};
    ghost use Rattle.grid_cli.specs.Configured.{configured_job_text};
    ghost use Rattle.grid_cli.specs.Services.{no_warning};

    type Job = ConfiguredJob;

    ghost IsText = { λ form job text. text ≡ configured_job_text form.layout job };

    ghost warning_of = { λ form. no_warning };

    /// Runs the job in its order, and writes what came of it.
    fn write<K: Sink>(
        &self,
        seeded: Seeded,
        job: ConfiguredJob,
        sink: &mut K,
        _warning: &mut Text,
    ) -> Result<(), ReportFault> {
        let ConfiguredJob {
            network,
            scripts,
            order,
        } = job;
        let outcome = run_in_order(seeded, network, scripts.slice(), order)?;
        write_outcome(seeded.alloc, self.layout, &outcome, sink)
    }
}
