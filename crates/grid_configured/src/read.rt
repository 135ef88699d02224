// Jobs with configured buses from JSON.
ghost use Rattle.std.specs.Prelude.{◌≤◌, [], All, IfOk, codes, length};
ghost use Rattle.grid_value.specs.View.{view};
ghost use Rattle.grid_json.specs.Job.{command_total, few_at, max_commands, max_workers};
ghost use Rattle.grid_json.specs.Reading.{Gives, array_at, member_or, under};
ghost use Rattle.grid_json.specs.Whole.{JobGives};
ghost use Rattle.grid_configured.specs.Checks.{network_check, IsTranslatable};
ghost use Rattle.grid_configured.specs.Jobs.{IsOrdered, command_at, format_at, workers_at, configured_at, configured_job_of};
ghost use Rattle.grid_configured.specs.Names.{IsConfiguredRequest};

use crate::checks::check_network;
use crate::commands::Command;
use crate::lists::{Each, Reader, read_each, read_member};
use crate::network::{ConfiguredJob, ConfiguredNetwork};
use grid_core::Scripts;
use grid_json::{
    Format, FromJson, JobFault, MOST_WORKERS, ReadError, Reason, are_too_many, member, only,
    optional_order,
};
use grid_value::{ByteFault, Scratch, Tree, Value};
use std::alloc::Global;

/// Reads the format of a job, which must be the first.
struct FirstFormat;

impl Reader for FirstFormat {
    type Item = ();

    ghost reads = { format_at };

    #[tactic(auto, unfolding(crate::specs::Jobs::format_at))]
    fn read(alloc: Global, value: &Value) -> Result<(), ReadError> {
        match i64::from_json(alloc, Format::One, value)? {
            1 => Ok(()),
            _ => Err(ReadError::here(alloc, Reason::Unknown)),
        }
    }
}

// The scripts of all workers; their number is looked at before them.
fn read_few(alloc: Global, value: &Value) -> Result<Scripts, ReadError>
    ensures scripts { Gives result (few_at max_workers Reason.TooManyWorkers (array_at command_at)
        (view value.now)) }
    ensures few { IfOk result (λ scripts. length scripts ≤ max_workers) }
{
    let Some(items) = value.as_array() else {
        return Err(ReadError::here(alloc, Reason::WrongKind));
    };
    if items.are_above(MOST_WORKERS) {
        return Err(ReadError::here(alloc, Reason::TooManyWorkers));
    }
    read_each::<Each<Command>>(alloc, &items)
}

// The scripts of all workers, which together have few commands.
#[tactic(auto, unfolding(crate::specs::Jobs::workers_at))]
fn read_workers(alloc: Global, value: &Value) -> Result<Scripts, ReadError>
    ensures scripts { Gives result (workers_at (view value.now)) }
    ensures few { IfOk result (λ scripts. length scripts ≤ max_workers) }
    ensures total { IfOk result (λ scripts. command_total scripts ≤ max_commands) }
{
    let scripts = read_few(alloc, value)?;
    if are_too_many(scripts.slice()) {
        return Err(ReadError::here(alloc, Reason::TooManyCommands));
    }
    Ok(scripts)
}

// The scripts, or none.
#[tactic(auto, unfolding(grid_json::specs::Job::command_total))]
fn scripts_of(alloc: Global, value: &Value) -> Result<Scripts, ReadError>
    ensures scripts { Gives result (member_or [] workers_at (codes "workers") (view value.now)) }
    ensures few { IfOk result (λ scripts. length scripts ≤ max_workers) }
    ensures total { IfOk result (λ scripts. command_total scripts ≤ max_commands) }
{
    match value.get("workers") {
        None => Ok(Scripts::empty(alloc)),
        Some(found) => match read_workers(alloc, &found) {
            Ok(scripts) => Ok(scripts),
            Err(e) => Err(e.under(alloc, "workers")),
        },
    }
}

// The network keeps what it must.
fn check_member(alloc: Global, network: &ConfiguredNetwork) -> Result<(), ReadError>
    ensures { Gives result (under (codes "configured") (network_check network.now)) }
{
    match check_network(alloc, network) {
        Ok(()) => Ok(()),
        Err(e) => Err(e.under(alloc, "configured")),
    }
}

// The job of a value.
#[tactic(auto, unfolding(crate::specs::Jobs::configured_at), using(crate::proofs::Readings::well_ordered))]
fn read_root(alloc: Global, value: &Value) -> Result<ConfiguredJob, ReadError>
    ensures job { Gives result (configured_at (view value.now)) }
    ensures network { IfOk result (λ job. IsTranslatable job.network) }
    ensures requests { IfOk result (λ job. All (All IsConfiguredRequest) job.scripts) }
    ensures order { IfOk result (λ job. IsOrdered job.scripts job.order) }
    ensures few { IfOk result (λ job. length job.scripts ≤ max_workers) }
    ensures total { IfOk result (λ job. command_total job.scripts ≤ max_commands) }
{
    only(alloc, value, &["format", "configured", "workers", "order"])?;
    read_member::<FirstFormat>(alloc, value, "format")?;
    let network = member(alloc, Format::One, value, "configured")?;
    let scripts = scripts_of(alloc, value)?;
    let order = optional_order(alloc, Format::One, value, scripts.slice())?;
    check_member(alloc, &network)?;
    Ok(ConfiguredJob {
        network,
        scripts,
        order,
    })
}

/// The job of the bytes with its configured buses: BadJson exactly where `serde_json` has no reading of them, BadJob
/// exactly where there is a fault, with the first one. The root's members are `format`, which must be 1, `configured`,
/// and where wanted `workers` and `order`; commands are `use`, `open`, `close`, `connect`, `disconnect`, `bus_view`,
/// `clone` and `remove`. An id with the byte `!` or with more than 100 bytes is Reserved (74). After all are read, the
/// levels in order are held against what stands before them, each followed by its buses, its switches and its
/// injections, and then the lines, whose faults are at the line. The first reason of each thing is told: Load with
/// IdTaken (30), where a level, bus, switch, injection or line before has its id; for an end Load with NoLevel (32);
/// NoBus (75), where the level has no bus of that id; SameBus (76), where both buses of a switch are one; Load with a
/// check's fault (10, 12, 13), and Load with TooManyLevels (35), TooManyNodes (24), TooManyEdges (25) or
/// TooManySwitches (36), where a bus counts as one node, and a terminal as one node, one edge and one switch. The
/// records' rules are the IIDM documentation's, the others and the order are this project's own.
#[tactic(auto, unfolding(crate::specs::Jobs::configured_job_of))]
pub fn read_configured(alloc: Global, bytes: &[u8]) -> Result<ConfiguredJob, JobFault>
    ensures job { JobGives result (configured_job_of bytes.now) }
    ensures network { IfOk result (λ job. IsTranslatable job.network) }
    ensures requests { IfOk result (λ job. All (All IsConfiguredRequest) job.scripts) }
    ensures order { IfOk result (λ job. IsOrdered job.scripts job.order) }
    ensures few { IfOk result (λ job. length job.scripts ≤ max_workers) }
    ensures total { IfOk result (λ job. command_total job.scripts ≤ max_commands) }
{
    let mut scratch = Scratch::new(alloc);
    let tree = match Tree::from_slice(alloc, bytes, &mut scratch) {
        Ok(tree) => tree,
        Err(ByteFault::NotJson) => return Err(JobFault::BadJson),
        Err(ByteFault::Memory) => return Err(JobFault::Memory),
    };
    match read_root(alloc, &tree.root()) {
        Ok(job) => Ok(job),
        Err(ReadError::Memory) => Err(JobFault::Memory),
        Err(ReadError::Fault(fault)) => Err(JobFault::BadJob {
            place: fault.place,
            reason: fault.reason,
        }),
    }
}
