// The form `screen`: what each contingency does to a variant.
ghost use Rattle.std.specs.Prelude.{◌≡◌, ◌≢◌, ◌++◌, [], Err, IfOk, OnOk, OnErr, unwrap_or};
ghost use Rattle.std.specs.Io.KnownBytes.{Appends};
ghost use Rattle.grid_source.specs.Causes.{Rose};
ghost use Rattle.grid_source.specs.Whole.{IsBegun};
ghost use Rattle.grid_slots.specs.Names.{initial_state};
ghost use Rattle.grid_core.specs.Journals.{journal_of};
ghost use Rattle.grid_contingencies.specs.Made as making;
ghost use Rattle.grid_contingencies.specs.Jobs.{screen_job_of};
ghost use Rattle.grid_cli.specs.Orders.{IsScheduled, replay_warning};
ghost use Rattle.grid_cli.specs.Screen.{absent_in, screen_text};
ghost use Rattle.grid_cli.specs.Once.{OutcomeOf, HandsOver, ReadsWhole, TellsOf};
ghost use Rattle.grid_cli.specs.Warnings.{IsWarningOf};

use crate::findings::{Look, Part, Screening, write_findings};
use crate::layout::write_parts;
use crate::running::run_in_order;
use crate::serving::{read_from, status_of};
use grid_contingencies::{Contingencies, Eaches, ScreenJob, Told, made};
use grid_core::World;
use grid_forms::{Layout, Status};
use grid_ids::{Id, Memory};
use grid_jsonl::put_warning;
use grid_report::{ReportFault, Text};
use grid_screen::ScreenedCase;
use grid_screen::laws::cases_fit;
use grid_slots::INITIAL_STATE;
use grid_source::{Input, Sink, Source};
use grid_structure::{Seeded, Structure};
use std::alloc::Global;
use std::thread::Threads;

/// The variant that is named, or else the initial one.
fn variant_or_initial(alloc: Global, variant: Option<Id>) -> Result<Id, Memory>
    ensures { IfOk result (λ name. name ≡ unwrap_or variant initial_state) }
{
    if let Some(name) = variant {
        return Ok(name);
    }
    let Ok(name) = Id::new(alloc, INITIAL_STATE) else {
        return Err(Memory);
    };
    Ok(name)
}

/// The listed contingencies, and those that are made of a structure's pieces behind them.
fn with_made(
    alloc: Global,
    listed: Contingencies,
    structure: &Structure,
    each: &Eaches,
) -> Result<Contingencies, Memory>
    ensures { IfOk result (λ list. list ≡ listed ++ making.made structure.now each.now) }
{
    let mut list = listed.into_vec();
    let mut more = made(alloc, structure, each)?.into_vec();
    list.append(&mut more)?;
    Ok(Contingencies::from_vec(list))
}

/// Writes what is told of a world's steps, that no live variant has the name, and the last line.
fn write_absent<'a, K: Sink>(
    layout: Layout,
    world: &'a World,
    name: &'a Id,
    only: Told,
    sink: &mut K,
) -> Result<(), ReportFault>
    ensures ok { OnOk result (Appends (K.written sink.old) (K.written sink.new)
        (absent_in layout (journal_of world.now.origin world.now.steps) name.now only)) }
    ensures err { OnErr result (IsBegun (K.written sink.old)
        (absent_in layout (journal_of world.now.origin world.now.steps) name.now only)
        (K.written sink.new)) }
    ensures cause { result ≡ Err ReportFault.Stopped
        → Rose (K.faults sink.old) (K.faults sink.new) }
    ensures stays { result ≢ Err ReportFault.Stopped → K.faults sink.new ≡ K.faults sink.old }
{
    let parts = [
        Part::Steps(world.entries()),
        Part::Absent(name),
        Part::End(only, 0, 0),
    ];
    write_parts(world.allocator(), layout, &parts, sink)
}

/// The form `screen`, whose contingencies are looked at by several threads.
#[derive(Drop)]
pub(crate) struct Screen<'a, R> {
    pub(crate) threads: &'a R,
    pub(crate) layout: Layout,
}

/// Runs the job in its order, puts the warning of its refused commands, and then writes what each contingency does
/// to its variant; where no live variant has the name, that is told in their place.
fn write_screen<R: Threads + Sync, K: Sink>(
    form: &Screen<'_, R>,
    alloc: Global,
    screened: ScreenJob,
    sink: &mut K,
    warning: &mut Text,
) -> Result<(), ReportFault>
    requires ready { IsScheduled screened.job }
    requires silent { warning.old ≡ [] }
    ensures written { HandsOver (λ text. text ≡ screen_text form.now.layout screened)
        (K.written sink.old) (K.written sink.new) result }
    ensures warning { OnOk result (warning.new ≡ replay_warning screened.job) }
    ensures cause { result ≡ Err ReportFault.Stopped
        → Rose (K.faults sink.old) (K.faults sink.new) }
    ensures stays { result ≢ Err ReportFault.Stopped → K.faults sink.new ≡ K.faults sink.old }
{
    let ScreenJob {
        format,
        job,
        variant,
        contingencies,
        each,
        only,
    } = screened;
    let name = variant_or_initial(alloc, variant)?;
    let world = run_in_order(alloc, job)?;
    put_warning(warning, world.entries())?;
    let Some(case) = world.case(&name)? else {
        return write_absent(form.layout, &world, &name, only, sink);
    };
    world.keeps();
    cases_fit();
    let list = with_made(alloc, contingencies, &case.structure, &each)?;
    let kept = ScreenedCase::of(alloc, &case)?;
    let screening = Screening {
        threads: form.threads,
        alloc,
        case: &kept,
        look: Look {
            before: kept.figures(),
            layout: form.layout,
            format,
            only,
        },
    };
    write_findings(&screening, world.entries(), list.slice(), sink)
}

/// Serves the form, as `serve` does those that have no threads.
#[tactic(auto, using(crate::proofs::Written::unread, crate::proofs::Written::after_silent))]
pub(crate) fn serve_screen<R: Threads + Sync, S: Source, K: Sink>(
    form: &Screen<'_, R>,
    seeded: Seeded,
    input: &mut Input<S>,
    sink: &mut K,
    warning: &mut Text,
) -> Status
    requires { warning.old ≡ [] }
    ensures outcome { OutcomeOf screen_job_of (λ job text. text ≡ screen_text form.now.layout job)
        (S.left input.old.source) (S.left input.new.source) (K.written sink.old)
        (K.written sink.new) result }
    ensures kept { TellsOf result → ReadsWhole (S.left input.old.source) (S.left input.new.source)
        input.new.bytes }
    ensures warning { result ≡ Status.Done → IsWarningOf screen_job_of
        (λ screened. replay_warning screened.job) (S.left input.old.source)
        (S.left input.new.source) warning.new }
    ensures read_fault { result ≡ Status.ReadFault
        → Rose (S.faults input.old.source) (S.faults input.new.source) }
    ensures reads_stay { result ≢ Status.ReadFault
        → S.faults input.new.source ≡ S.faults input.old.source }
    ensures write_fault { result ≡ Status.WriteFault
        → Rose (K.faults sink.old) (K.faults sink.new) }
    ensures writes_stay { result ≢ Status.WriteFault → K.faults sink.new ≡ K.faults sink.old }
{
    match read_from::<ScreenJob, S>(seeded, input) {
        Ok(screened) => status_of(write_screen(form, seeded.alloc, screened, sink, warning)),
        Err(status) => status,
    }
}
