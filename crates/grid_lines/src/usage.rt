//! The usage text.

use clap::Command;
use grid_forms::{MOST_SEED, MOST_SIZE};
use grid_source::MOST;
use std::alloc::{AllocError, Global};

const ABOUT: &str =
    "Topology of a power network: which nodes are one bus under given switch positions, which buses are connected, and which breakers connect or disconnect a feeder.";

const FORMS: &str = "grid check < JOB
       grid replay [--json] < JOB > REPORT
       grid run [--json] < JOB > REPORT
       grid print < JOB > JOB
       grid hvdc [--json] < JOB > COMPONENTS
       grid screen [--json] < JOB > FINDINGS
       grid configured [--json] < JOB > REPORT
       grid make SEED SIZE > JOB
       grid trial SEED SIZE";

const STATUSES: &str = "Exit statuses:
  0  the output was written whole
  2  the words are none of these forms
  3  standard input failed
  4  the job is longer than it may be
  5  the input is no JSON
  6  the job has a fault, whose place and reason are told
  7  standard output failed
  8  memory ran out";

/// What the arguments are and how large they may be, and the exit statuses.
fn limits(alloc: Global) -> Result<String, AllocError> {
    format!(in alloc;
        "JOB has at most {MOST} bytes. SEED is from 0 to {MOST_SEED} and SIZE from 1 to {MOST_SIZE}, in decimal digits without a leading zero. With --json the output is JSON Lines: a JSON object on each line.\n\n{STATUSES}"
    )
}

/// The forms, each with what it does.
const ABOUT_FORMS: [(&str, &str); 9] = [
    ("check", "Reads a job and counts what it has"),
    (
        "replay",
        "Reads a job, runs its commands in order and writes the report",
    ),
    (
        "run",
        "Reads a job, runs its workers on threads of their own and writes the report of the order that happened",
    ),
    (
        "print",
        "Reads a job and writes its network, as a job of the network alone",
    ),
    (
        "hvdc",
        "Reads a job with HVDC lines, runs its commands in order and writes the components of the buses of each variant",
    ),
    (
        "screen",
        "Reads a job with contingencies, runs its commands in order and writes what each outage or fault would do to a variant",
    ),
    (
        "configured",
        "Reads a job of a network with configured buses, runs its commands in order and writes the report",
    ),
    ("make", "Writes the job made of a seed and a size"),
    (
        "trial",
        "Runs the job that `make` writes and counts what came of it",
    ),
];

/// The command with its forms.
fn with_forms<'a>(alloc: Global, command: Command<'a>) -> Result<Command<'a>, AllocError> {
    let mut command = command;
    for (name, about) in ABOUT_FORMS {
        command = command.subcommand(Command::new(alloc, name).about(about))?;
    }
    Ok(command)
}

/// The usage text: every form, its arguments, the limits and the exit statuses.
pub fn usage_text(alloc: Global) -> Result<String, AllocError> {
    let limits = limits(alloc)?;
    let command = Command::new(alloc, "grid")
        .about(ABOUT)
        .override_usage(FORMS)
        .after_help(limits.as_str())
        .disable_help_flag(true)
        .disable_help_subcommand(true);
    let mut command = with_forms(alloc, command)?;
    command.render_help()
}
