// The top call on one thread.
ghost use Rattle.std.specs.Prelude.{◌≡◌, ◌≢◌, ◌↔◌, [], None, map, string_bytes};
ghost use Rattle.grid_source.specs.Causes.{Rose};
ghost use Rattle.grid_cli.specs.Forms.{form_alone};
ghost use Rattle.grid_cli.specs.Services.{ReadsNothing};
ghost use Rattle.grid_cli.specs.Once.{Outcome, Exact, ReadsWhole, TellsOf};
ghost use Rattle.grid_cli.specs.Warnings.{Warns};

use crate::configured::Configured;
use crate::counts::Check;
use crate::hvdc::Hvdc;
use crate::make::write_made;
use crate::print::Print;
use crate::replay::Replay;
use crate::serving::{serve, status_of};
use crate::trial::write_trial;
use grid_forms::{Form, Status, read_words};
use grid_report::Text;
use grid_source::{Input, Sink, Source};
use grid_structure::Seeded;

/// Does what the words ask for, from the input to the sink, on the calling thread. It serves every form but `run` and
/// `screen`, which are Usage here as words of no form are. It takes no lock. The input's bytes are all that was read
/// after BadJson and BadJob, so what such a status names is found in them. The warning is the line that tells which
/// commands were refused where the output tells none of them: after `hvdc` that is Done. It is made before the first
/// byte is written, and else empty.
pub fn grid_once<S: Source, K: Sink>(
    seeded: Seeded,
    words: &[String],
    input: &mut Input<S>,
    sink: &mut K,
    warning: &mut Text,
) -> Status
    ensures usage { (result ≡ Status.Usage) ↔ (form_alone (map string_bytes words.now) ≡ None) }

    // What was read and what was written, by the status.
    ensures outcome { Outcome (form_alone (map string_bytes words.now)) (S.left input.old.source)
        (S.left input.new.source) (K.written sink.old) (K.written sink.new) result }

    // Where the source tells its bytes, they decide the status, but for faults and running out of memory.
    ensures exact { Exact (form_alone (map string_bytes words.now))
        (S.left input.old.source) result }

    // A status that tells of the bytes tells of those that the input has.
    ensures kept { TellsOf result → ReadsWhole (S.left input.old.source) (S.left input.new.source)
        input.new.bytes }

    // The warning is that of the job in the bytes that were read.
    ensures warning { Warns (form_alone (map string_bytes words.now)) (S.left input.old.source)
        (S.left input.new.source) result warning.new }

    ensures read_fault { result ≡ Status.ReadFault
        → Rose (S.faults input.old.source) (S.faults input.new.source) }
    ensures reads_stay { result ≢ Status.ReadFault
        → S.faults input.new.source ≡ S.faults input.old.source }
    ensures write_fault { result ≡ Status.WriteFault
        → Rose (K.faults sink.old) (K.faults sink.new) }
    ensures writes_stay { result ≢ Status.WriteFault → K.faults sink.new ≡ K.faults sink.old }
    ensures untouched { ReadsNothing (form_alone (map string_bytes words.now))
        → S.faults input.new.source ≡ S.faults input.old.source }
{
    warning.clear();
    let status = run(seeded, words, input, sink, warning);
    keep_if_done(warning, &status);
    status
}

/// Clears a warning unless the status is Done.
pub(crate) fn keep_if_done(warning: &mut Text, status: &Status)
    ensures done { status.now ≡ Status.Done → warning.new ≡ warning.old }
    ensures other { status.now ≢ Status.Done → warning.new ≡ [] }
{
    if !matches!(status, Status::Done) {
        warning.clear();
    }
}

// The same, without what follows from the other clauses, and with a warning that stays where the status is not Done.
#[tactic(auto, using(crate::proofs::Written::after_silent))]
fn run<S: Source, K: Sink>(
    seeded: Seeded,
    words: &[String],
    input: &mut Input<S>,
    sink: &mut K,
    warning: &mut Text,
) -> Status
    requires { warning.old ≡ [] }
    ensures warning { result ≡ Status.Done → Warns (form_alone (map string_bytes words.now))
        (S.left input.old.source) (S.left input.new.source) Status.Done warning.new }
    ensures usage { (result ≡ Status.Usage) ↔ (form_alone (map string_bytes words.now) ≡ None) }
    ensures outcome { Outcome (form_alone (map string_bytes words.now)) (S.left input.old.source)
        (S.left input.new.source) (K.written sink.old) (K.written sink.new) result }
    ensures kept { TellsOf result → ReadsWhole (S.left input.old.source) (S.left input.new.source)
        input.new.bytes }
    ensures read_fault { result ≡ Status.ReadFault
        → Rose (S.faults input.old.source) (S.faults input.new.source) }
    ensures reads_stay { result ≢ Status.ReadFault
        → S.faults input.new.source ≡ S.faults input.old.source }
    ensures write_fault { result ≡ Status.WriteFault
        → Rose (K.faults sink.old) (K.faults sink.new) }
    ensures writes_stay { result ≢ Status.WriteFault → K.faults sink.new ≡ K.faults sink.old }
    ensures untouched { ReadsNothing (form_alone (map string_bytes words.now))
        → S.faults input.new.source ≡ S.faults input.old.source }
{
    let Some(form) = read_words(words) else {
        return Status::Usage;
    };
    match form {
        Form::Check => serve(seeded, &Check, input, sink, warning),
        Form::Replay(layout) => serve(seeded, &Replay { layout }, input, sink, warning),
        Form::Print => serve(seeded, &Print, input, sink, warning),
        Form::Hvdc(layout) => serve(seeded, &Hvdc { layout }, input, sink, warning),
        Form::Configured(layout) => serve(seeded, &Configured { layout }, input, sink, warning),
        Form::Run(_) | Form::Screen(_) => Status::Usage,
        Form::Make { seed, size } => status_of(write_made(seeded, seed, size, sink)),
        Form::Trial { seed, size } => status_of(write_trial(seeded, seed, size, sink)),
    }
}
