// The top call, and the form `run`: workers on threads of their own.
ghost use Rattle.std.specs.Prelude.{◌≡◌, ◌≢◌, ◌↔◌, [], None, Err, IfOk, OnOk, OnErr, map, string_bytes};
ghost use Rattle.std.specs.Io.KnownBytes.{Appends};
ghost use Rattle.grid_source.specs.Causes.{Rose};
ghost use Rattle.grid_source.specs.Whole.{IsBegun};
ghost use Rattle.grid_forms.specs.Words.{form_of};
ghost use Rattle.grid_json.specs.Whole.{job_of};
ghost use Rattle.grid_cli.specs.Orders.{IsReport, IsScheduled};
ghost use Rattle.grid_cli.specs.Services.{ReadsNothing, no_warning};
ghost use Rattle.grid_cli.specs.Once.{Outcome, OutcomeOf, HandsOver, Exact, ReadsWhole, TellsOf};
ghost use Rattle.grid_cli.specs.Layouts.{outcome_text};
ghost use Rattle.grid_cli.specs.Warnings.{IsWarningOf, Warns};
ghost use Rattle.grid_cli.specs.Threaded.{IsOutcomeOf, IsServed};

use crate::once::{grid_once, keep_if_done};
use crate::running::outcome;
use crate::screen::{Screen, serve_screen};
use crate::serving::{read_from, status_of};
use grid_forms::{Form, Layout, Status, read_words};
use grid_ids::Memory;
use grid_json::Job;
use grid_jsonl::write_lines;
use grid_manager::Gate;
use grid_report::{ReportFault, Text, write_report_on_threads};
use grid_source::{Input, Sink, Source};
use grid_structure::Seeded;
use grid_workers::run_scripts;
use std::alloc::Global;
use std::mem::forget;
use std::sync::Wait;
use std::thread::Threads;

/// Does what the words ask for, from the input to the sink. For `run` each worker makes its script's calls on a thread
/// of its own, all on one board, and every thread has ended when it returns; the gate sees each worker at work. For
/// `screen` the contingencies are looked at by several threads, which take no lock. Every other form is served by
/// `grid_once`. The input's bytes are all that was read after BadJson and BadJob, so what such a status names is found
/// in them. The warning is the line that tells which commands were refused where the output tells none of them: after
/// `hvdc` and `screen` that are Done. It is made before the first byte is written, and else empty.
pub fn grid<R: Threads + Wait + Sync, S: Source, K: Sink, G: Gate>(
    rt: &R,
    seeded: Seeded,
    words: &[String],
    input: &mut Input<S>,
    sink: &mut K,
    gate: &G,
    warning: &mut Text,
) -> Status
    ensures usage { (result ≡ Status.Usage) ↔ (form_of (map string_bytes words.now) ≡ None) }

    // What was read and what was written, by the status. For `run` it is what is written of some order of the job,
    // which the first line tells.
    ensures outcome { Outcome (form_of (map string_bytes words.now)) (S.left input.old.source)
        (S.left input.new.source) (K.written sink.old) (K.written sink.new) result }

    // Where the source tells its bytes, they decide the status, but for faults and running out of memory.
    ensures exact { Exact (form_of (map string_bytes words.now)) (S.left input.old.source) result }

    // A status that tells of the bytes tells of those that the input has.
    ensures kept { TellsOf result → ReadsWhole (S.left input.old.source) (S.left input.new.source)
        input.new.bytes }

    // The warning is that of the job in the bytes that were read.
    ensures warning { Warns (form_of (map string_bytes words.now)) (S.left input.old.source)
        (S.left input.new.source) result warning.new }

    ensures read_fault { result ≡ Status.ReadFault
        → Rose (S.faults input.old.source) (S.faults input.new.source) }
    ensures reads_stay { result ≢ Status.ReadFault
        → S.faults input.new.source ≡ S.faults input.old.source }
    ensures write_fault { result ≡ Status.WriteFault
        → Rose (K.faults sink.old) (K.faults sink.new) }
    ensures writes_stay { result ≢ Status.WriteFault → K.faults sink.new ≡ K.faults sink.old }
    ensures untouched { ReadsNothing (form_of (map string_bytes words.now))
        → S.faults input.new.source ≡ S.faults input.old.source }
{
    warning.clear();
    let host = Host {
        threads: rt,
        gate,
        seeded,
    };
    let status = serve_on(&host, words, input, sink, warning);
    keep_if_done(warning, &status);
    status
}

/// What a call runs on: the threads of its workers, the gate that sees them, and where memory comes from, with the seed
/// of its tables of ids.
#[derive(Drop)]
struct Host<'a, R, G> {
    threads: &'a R,
    gate: &'a G,
    seeded: Seeded,
}

// The same, without what follows from the other clauses, and with a warning that stays where the status is not Done.
fn serve_on<R: Threads + Wait + Sync, S: Source, K: Sink, G: Gate>(
    host: &Host<'_, R, G>,
    words: &[String],
    input: &mut Input<S>,
    sink: &mut K,
    warning: &mut Text,
) -> Status
    requires { warning.old ≡ [] }
    ensures warning { result ≡ Status.Done → Warns (form_of (map string_bytes words.now))
        (S.left input.old.source) (S.left input.new.source) Status.Done warning.new }
    ensures usage { (result ≡ Status.Usage) ↔ (form_of (map string_bytes words.now) ≡ None) }
    ensures outcome { Outcome (form_of (map string_bytes words.now)) (S.left input.old.source)
        (S.left input.new.source) (K.written sink.old) (K.written sink.new) result }
    ensures kept { TellsOf result → ReadsWhole (S.left input.old.source) (S.left input.new.source)
        input.new.bytes }
    ensures read_fault { result ≡ Status.ReadFault
        → Rose (S.faults input.old.source) (S.faults input.new.source) }
    ensures reads_stay { result ≢ Status.ReadFault
        → S.faults input.new.source ≡ S.faults input.old.source }
    ensures write_fault { result ≡ Status.WriteFault
        → Rose (K.faults sink.old) (K.faults sink.new) }
    ensures writes_stay { result ≢ Status.WriteFault → K.faults sink.new ≡ K.faults sink.old }
    ensures untouched { ReadsNothing (form_of (map string_bytes words.now))
        → S.faults input.new.source ≡ S.faults input.old.source }
{
    match served_by(read_words(words)) {
        Served::ByWorkers(layout) => serve_run(host, layout, input, sink),
        Served::ByScreening(layout) => {
            let threads = host.threads;
            serve_screen(
                &Screen { threads, layout },
                host.seeded,
                input,
                sink,
                warning,
            )
        }
        Served::ByOneThread => grid_once(host.seeded, words, input, sink, warning),
    }
}

// Which threads serve a form.
#[derive(Clone, Copy)]
enum Served {
    // Workers, who may wait for each other.
    ByWorkers(Layout),
    // Threads that take no lock.
    ByScreening(Layout),
    // The calling one.
    ByOneThread,
}

fn served_by(form: Option<Form>) -> Served
    ensures { IsServed form result }
{
    match form {
        Some(Form::Run(layout)) => Served::ByWorkers(layout),
        Some(Form::Screen(layout)) => Served::ByScreening(layout),
        Some(
            Form::Check
            | Form::Replay(_)
            | Form::Print
            | Form::Hvdc(_)
            | Form::Configured(_)
            | Form::Make { .. }
            | Form::Trial { .. },
        )
        | None => Served::ByOneThread,
    }
}

// Writes what came of a job in a layout, the report by several threads.
#[tactic(auto, unfolding(crate::specs::Layouts::outcome_text))]
fn write_on_threads<R: Threads + Sync, K: Sink>(
    rt: &R,
    alloc: Global,
    layout: Layout,
    outcome: &grid_report::Outcome,
    sink: &mut K,
) -> Result<(), ReportFault>
    ensures ok { OnOk result (Appends (K.written sink.old) (K.written sink.new)
        (outcome_text layout outcome.now)) }
    ensures err { OnErr result (IsBegun (K.written sink.old) (outcome_text layout outcome.now)
        (K.written sink.new)) }
    ensures cause { result ≡ Err ReportFault.Stopped
        → Rose (K.faults sink.old) (K.faults sink.new) }
    ensures stays { result ≢ Err ReportFault.Stopped → K.faults sink.new ≡ K.faults sink.old }
{
    match layout {
        Layout::Text => write_report_on_threads(rt, alloc, outcome, sink),
        Layout::Lines => write_lines(alloc, outcome, sink),
    }
}

// What came of a job whose workers ran on threads of their own. Where a worker's call found no memory, so did this one.
fn run_job_on_threads<R: Threads + Wait + Sync, G: Gate>(
    rt: &R,
    alloc: Global,
    job: Job,
    gate: &G,
) -> Result<grid_report::Outcome, Memory>
    requires { IsScheduled job }
    ensures { IfOk result (IsOutcomeOf job) }
{
    let workers = job.scripts.len() as u32;
    let run = run_scripts(rt, alloc, job.network, &job.scripts, gate)?;
    if run.short {
        return Err(Memory);
    }
    outcome(alloc, run.board.into_world(), workers, job.filters)
}

/// Runs a job on threads, and writes what came of it in the order in which its workers' steps happened.
fn write_run<R: Threads + Wait + Sync, K: Sink, G: Gate>(
    host: &Host<'_, R, G>,
    layout: Layout,
    job: Job,
    sink: &mut K,
) -> Result<(), ReportFault>
    requires { IsScheduled job }
    ensures written { HandsOver (IsReport layout job) (K.written sink.old) (K.written sink.new)
        result }
    ensures cause { result ≡ Err ReportFault.Stopped
        → Rose (K.faults sink.old) (K.faults sink.new) }
    ensures stays { result ≢ Err ReportFault.Stopped → K.faults sink.new ≡ K.faults sink.old }
{
    let outcome = run_job_on_threads(host.threads, host.seeded.alloc, job, host.gate)?;
    let written = write_on_threads(host.threads, host.seeded.alloc, layout, &outcome, sink);
    forget(outcome);
    written
}

/// Serves the form `run`, as `serve` does those that have no threads.
#[tactic(auto, using(crate::proofs::Written::unread, crate::proofs::Written::after_silent))]
fn serve_run<R: Threads + Wait + Sync, S: Source, K: Sink, G: Gate>(
    host: &Host<'_, R, G>,
    layout: Layout,
    input: &mut Input<S>,
    sink: &mut K,
) -> Status
    ensures outcome { OutcomeOf job_of (IsReport layout) (S.left input.old.source)
        (S.left input.new.source) (K.written sink.old) (K.written sink.new) result }
    ensures kept { TellsOf result → ReadsWhole (S.left input.old.source) (S.left input.new.source)
        input.new.bytes }
    ensures warning { result ≡ Status.Done → IsWarningOf job_of no_warning (S.left input.old.source)
        (S.left input.new.source) [] }
    ensures read_fault { result ≡ Status.ReadFault
        → Rose (S.faults input.old.source) (S.faults input.new.source) }
    ensures reads_stay { result ≢ Status.ReadFault
        → S.faults input.new.source ≡ S.faults input.old.source }
    ensures write_fault { result ≡ Status.WriteFault
        → Rose (K.faults sink.old) (K.faults sink.new) }
    ensures writes_stay { result ≢ Status.WriteFault → K.faults sink.new ≡ K.faults sink.old }
{
    match read_from::<Job, S>(host.seeded, input) {
        Ok(job) => status_of(write_run(host, layout, job, sink)),
        Err(status) => status,
    }
}
