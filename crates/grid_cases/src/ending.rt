// What a run comes to.
use crate::words::words_of;
use grid_cli::grid;
use grid_forms::Status;
use grid_lines::{Around, ending};
use grid_manager::Idle;
use grid_report::Text;
use grid_source::{Input, SureSink, SureSource};
use grid_structure::Seeded;
use std::alloc::Global;
use std::io;
use std::sync::Wait;
use std::thread::Threads;

/// What a run has come to, as texts.
#[derive(Drop)]
pub(crate) struct Ending {
    pub(crate) status: String,
    /// The place of a job's first fault and the reason, or no text.
    pub(crate) fault: String,
    pub(crate) output: String,
    /// The line on standard error, or no text.
    pub(crate) line: String,
    /// The warning on standard error, or no text.
    pub(crate) warning: String,
}

/// The place of a fault, and the name of its reason.
pub(crate) fn fault_of(alloc: Global, status: &Status) -> io::Result<String> {
    match status {
        Status::BadJob { place, reason } => {
            let reason = format!(in alloc; "{reason:?}")?;
            let name = reason.as_str().split_whitespace().next().unwrap_or("");
            Ok(format!(in alloc; "{} {name}", place.text())?)
        }
        _ => Ok(String::new(alloc)),
    }
}

/// The exit status, and the line on standard error.
pub(crate) fn told(
    alloc: Global,
    words: &[String],
    status: Status,
    job: &[u8],
) -> io::Result<(u8, String)> {
    let around = Around {
        names_file: false,
        reads_directory: false,
    };
    let (number, fault) = ending(alloc, Some(words), around, status, job);
    match fault {
        Some(fault) => Ok((number, format!(in alloc; "{fault}")?)),
        None => Ok((number, String::new(alloc))),
    }
}

/// What the words make of a job.
pub(crate) fn run<R: Threads + Wait + Sync>(
    threads: &R,
    seeded: Seeded,
    words: &str,
    job: Vec<u8>,
) -> io::Result<Ending> {
    let alloc = seeded.alloc;
    let list = words_of(alloc, words)?;
    let mut input = Input::new(alloc, SureSource::new(job, 4096));
    let mut sink = SureSink::new(Vec::new(alloc), 4096);
    let mut warning = Text::empty(alloc);
    let status = grid(
        threads,
        seeded,
        list.as_slice(),
        &mut input,
        &mut sink,
        &Idle,
        &mut warning,
    );
    let fault = fault_of(alloc, &status)?;
    let (number, line) = told(alloc, list.as_slice(), status, input.bytes())?;
    Ok(Ending {
        status: format!(in alloc; "{number}")?,
        fault,
        output: String::from_utf8_lossy(alloc, sink.bytes())?,
        line,
        warning: String::from_utf8_lossy(alloc, warning.as_bytes().trim_ascii_end())?,
    })
}
