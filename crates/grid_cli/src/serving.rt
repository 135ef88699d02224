// How a form that reads is served: the job of the input's bytes is read, and what comes of it is written. What a form
// adds is the kind of its job (`ReadJob`), and what it writes and warns of (`JobForm`). A form that has threads adds it
// by a function, since what an impl assumes of its parameters is known of the calling thread alone.
ghost use Rattle.std.specs.Prelude.{◌≡◌, ◌≢◌, [], ℕ, List, Result, Err, IfOk, IfErr, OnOk, OnErr};
ghost use Rattle.std.specs.Io.KnownBytes.{Appends};
ghost use Rattle.grid_source.specs.Causes.{Rose};
ghost use Rattle.grid_source.specs.Whole.{IsBegun};
ghost use Rattle.grid_json.specs.declared.whole.JobFault.{JobFault as FaultOf};
ghost use Rattle.grid_json.specs.Whole.{JobGives};
ghost use Rattle.grid_cli.specs.Once.{OutcomeOf, HandsOver, ReadsWhole, ReadsPart, ReadsNone, ReadsJob, TellsOf};
ghost use Rattle.grid_cli.specs.Once.{status_after};
ghost use Rattle.grid_cli.specs.Warnings.{IsWarningOf};

use grid_forms::Status;
use grid_json::JobFault;
use grid_report::{ReportFault, Text};
use grid_source::{Input, ReadAllFault, Sink, Source, write_all};
use grid_structure::Seeded;

/// A kind of job that a form reads.
pub(crate) trait ReadJob: Sized + Drop {
    // The job of bytes, or their first fault.
    ghost job_of: { List ℕ → Result Self FaultOf };

    // What is known of a job that was read.
    ghost IsReady: { Self → Type 0 };

    /// The job of bytes, or why they are none.
    fn read(seeded: Seeded, bytes: &[u8]) -> Result<Self, JobFault>
        ensures job { JobGives result (job_of bytes.now) }
        ensures ready { IfOk result IsReady };
}

/// A form that reads a job.
pub(crate) trait JobForm {
    /// The kind of job that it reads.
    type Job: ReadJob;

    // The text is one that it writes for a job.
    ghost IsText: { Self → Self.Job → List ℕ → Type 0 };

    // What it warns of where a job's text was written whole.
    ghost warning_of: { Self → Self.Job → List ℕ };

    /// Writes what comes of a job, and puts the warning before the first byte is written.
    fn write<K: Sink>(
        &self,
        seeded: Seeded,
        job: Self::Job,
        sink: &mut K,
        warning: &mut Text,
    ) -> Result<(), ReportFault>
        requires ready { Self.Job.IsReady job }
        requires silent { warning.old ≡ [] }
        ensures written { HandsOver (IsText self.now job) (K.written sink.old)
            (K.written sink.new) result }
        ensures warning { OnOk result (warning.new ≡ warning_of self.now job) }
        ensures cause { result ≡ Err ReportFault.Stopped
            → Rose (K.faults sink.old) (K.faults sink.new) }
        ensures stays { result ≢ Err ReportFault.Stopped → K.faults sink.new ≡ K.faults sink.old };
}

/// Reads the input to its end, or tells why it was not.
fn read_input<S: Source>(input: &mut Input<S>) -> Result<(), Status>
    ensures whole { OnOk result (ReadsWhole (S.left input.old.source) (S.left input.new.source)
        input.new.bytes) }
    ensures part { IfErr result (ReadsPart (S.left input.old.source) (S.left input.new.source)) }
    ensures fault { result ≡ Err Status.ReadFault
        → Rose (S.faults input.old.source) (S.faults input.new.source) }
    ensures stays { result ≢ Err Status.ReadFault
        → S.faults input.new.source ≡ S.faults input.old.source }
{
    match input.read_all() {
        Ok(()) => Ok(()),
        Err(ReadAllFault::Fault) => Err(Status::ReadFault),
        Err(ReadAllFault::TooLong) => Err(Status::TooLong),
        Err(ReadAllFault::Memory) => Err(Status::NoMemory),
    }
}

/// Writes bytes.
#[tactic(auto, using(crate::proofs::Written::stopped))]
pub(crate) fn hand_over<K: Sink>(bytes: &[u8], sink: &mut K) -> Result<(), ReportFault>
    ensures ok { OnOk result (Appends (K.written sink.old) (K.written sink.new) bytes.now) }
    ensures err { OnErr result (IsBegun (K.written sink.old) bytes.now (K.written sink.new)) }
    ensures cause { result ≡ Err ReportFault.Stopped
        → Rose (K.faults sink.old) (K.faults sink.new) }
    ensures stays { result ≢ Err ReportFault.Stopped → K.faults sink.new ≡ K.faults sink.old }
{
    match write_all(sink, bytes) {
        Ok(()) => Ok(()),
        Err(_) => Err(ReportFault::Stopped),
    }
}

/// The status after a text was handed to the sink.
pub(crate) fn status_of(written: Result<(), ReportFault>) -> Status
    ensures { result ≡ status_after written }
{
    match written {
        Ok(()) => Status::Done,
        Err(ReportFault::Stopped) => Status::WriteFault,
        Err(ReportFault::Memory) => Status::NoMemory,
    }
}

/// The job of the input's bytes, or why there is none.
#[tactic(auto, using(crate::proofs::Written::partly, crate::proofs::Written::faulty))]
pub(crate) fn read_from<J: ReadJob, S: Source>(
    seeded: Seeded,
    input: &mut Input<S>,
) -> Result<J, Status>
    ensures job { IfOk result (ReadsJob J.job_of (S.left input.old.source) (S.left input.new.source)) }
    ensures ready { IfOk result J.IsReady }
    ensures none { IfErr result (ReadsNone J.job_of (S.left input.old.source)
        (S.left input.new.source)) }
    ensures kept { IfErr result (λ status. TellsOf status → ReadsWhole (S.left input.old.source)
        (S.left input.new.source) input.new.bytes) }
    ensures fault { result ≡ Err Status.ReadFault
        → Rose (S.faults input.old.source) (S.faults input.new.source) }
    ensures stays { result ≢ Err Status.ReadFault
        → S.faults input.new.source ≡ S.faults input.old.source }
{
    read_input(input)?;
    let job = J::read(seeded, input.bytes())?;
    Ok(job)
}

/// Serves a form: reads its job, and writes what comes of it.
#[tactic(auto, using(crate::proofs::Written::unread, crate::proofs::Written::after_silent))]
pub(crate) fn serve<F: JobForm, S: Source, K: Sink>(
    seeded: Seeded,
    form: &F,
    input: &mut Input<S>,
    sink: &mut K,
    warning: &mut Text,
) -> Status
    requires { warning.old ≡ [] }
    ensures outcome { OutcomeOf F.Job.job_of (F.IsText form.now) (S.left input.old.source)
        (S.left input.new.source) (K.written sink.old) (K.written sink.new) result }
    ensures kept { TellsOf result → ReadsWhole (S.left input.old.source) (S.left input.new.source)
        input.new.bytes }
    ensures warning { result ≡ Status.Done → IsWarningOf F.Job.job_of (F.warning_of form.now)
        (S.left input.old.source) (S.left input.new.source) warning.new }
    ensures read_fault { result ≡ Status.ReadFault
        → Rose (S.faults input.old.source) (S.faults input.new.source) }
    ensures reads_stay { result ≢ Status.ReadFault
        → S.faults input.new.source ≡ S.faults input.old.source }
    ensures write_fault { result ≡ Status.WriteFault
        → Rose (K.faults sink.old) (K.faults sink.new) }
    ensures writes_stay { result ≢ Status.WriteFault → K.faults sink.new ≡ K.faults sink.old }
{
    match read_from::<F::Job, S>(seeded, input) {
        Ok(job) => status_of(form.write(seeded, job, sink, warning)),
        Err(status) => status,
    }
}
