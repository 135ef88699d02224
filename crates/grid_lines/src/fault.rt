// The line on standard error.
ghost use Rattle.std.specs.Prelude.{◌≡◌, MatchOption};
ghost use Rattle.grid_forms.specs.Exits.{exit_number};
ghost use Rattle.grid_lines.specs.Told.{told_number};

use crate::look::{Job, Seen};
use crate::not_json::{NotJson, not_json};
use crate::sentence::Shown;
use crate::told::why_seen;
use crate::why::Why;
use crate::wrong_words::{WrongWords, wrong_words};
use grid_forms::{Form, Status, read_words};
use grid_json::{Place, Reason};
use std::alloc::{AllocError, Global};
use thiserror::Error;

/// Why a run was not done: the line on standard error.
#[derive(Debug, Drop, Error)]
pub enum RunFault {
    /// The words are no form.
    #[error("grid: {why}; nothing was read{hint}")]
    Usage {
        why: WrongWords,
        /// How the form is called, where a file is named behind it; or no text.
        hint: String,
    },
    /// The source failed.
    #[error("grid: standard input {}; nothing was written", read_text(.is_directory))]
    ReadFault {
        is_directory: bool,
    },
    /// The system has no random bytes, by which tables of ids are hashed. It has the number of a source that failed.
    #[error("grid: the system gave no random bytes; nothing was read")]
    NoRandomBytes,
    /// The input is too long.
    #[error("grid: the input is longer than 33,554,432 bytes; nothing was written")]
    TooLong,
    /// The input is no JSON.
    #[error("grid: {why}; nothing was written")]
    BadJson {
        why: NotJson,
    },
    /// The job has a fault.
    #[error("grid: the job's first fault is at {}{owner}: {why}; nothing was written (docs/formats.md)", place_text(.place))]
    BadJob {
        place: Place,
        /// The step of the command that has the fault, or the id of the object that has it, in words; or no text.
        owner: String,
        why: Why,
    },
    /// The sink failed.
    #[error("grid: standard output could not be written; the output is cut off")]
    WriteFault,
    /// Out of memory.
    #[error("grid: memory ran out; the output is cut off or missing")]
    NoMemory,
}

/// What the system tells of a call beside its status, for the line alone.
#[derive(Clone, Copy, Debug)]
pub struct Around {
    /// The second word is the name of a file or a directory that is there.
    pub names_file: bool,
    /// Standard input is a directory.
    pub reads_directory: bool,
}

/// What became of reading standard input.
fn read_text(is_directory: &bool) -> &'static str {
    if *is_directory {
        "is a directory, and a job in JSON is wanted"
    } else {
        "could not be read to its end"
    }
}

/// Where a fault stands. The place of the whole job is empty.
fn place_text(place: &Place) -> &str {
    if place.text().is_empty() {
        "its top"
    } else {
        place.text()
    }
}

/// The step of a command by its worker and its number from 1, as a report tells it.
fn step_of(place: &str) -> Option<(usize, usize)> {
    let (_, behind) = place.split_once("/workers/")?;
    let mut steps = behind.split('/');
    let worker = steps.next()?.parse::<usize>().ok()?;
    let position = steps.next()?.parse::<usize>().ok()?;
    Some((worker, position.saturating_add(1)))
}

/// The step of a command with its word, in words.
fn step_told(
    alloc: Global,
    job: &mut Job<'_>,
    command: usize,
    worker: usize,
    step: usize,
) -> Result<String, AllocError> {
    if let Some(member) = job.member(command, "do") {
        if let Some(word) = job.text(member) {
            let word = Shown(word);
            return format!(in alloc; " (step {step} of worker {worker}, `{word}`)");
        }
    }
    format!(in alloc; " (step {step} of worker {worker})")
}

/// Whose fault it is, in words: the command's, by its step, or else the object's, by its id.
fn owner_of(
    alloc: Global,
    job: &mut Job<'_>,
    seen: &Seen<'_>,
    place: &str,
) -> Result<String, AllocError> {
    if let (Some(command), Some((worker, step))) = (seen.command, step_of(place)) {
        return step_told(alloc, job, command, worker, step);
    }
    let Some(owner) = seen.owner else {
        return Ok(String::new(alloc));
    };
    match job.text(owner) {
        Some(id) => format!(in alloc; " of `{}`", Shown(id)),
        None => Ok(String::new(alloc)),
    }
}

/// The place of what is there of a fault: for a member that is missing, that of the object that wants it.
fn place_there<'p>(place: &'p str, reason: &Reason) -> &'p str {
    match (reason, place.rsplit_once('/')) {
        (Reason::Missing, Some((holder, _))) => holder,
        _ => place,
    }
}

/// Why a job has a fault at a place, and whose it is, as its bytes tell; None where they tell no more than the reason.
fn seen_in(
    alloc: Global,
    form: Option<Form>,
    place: &Place,
    reason: &Reason,
    input: &[u8],
) -> Result<Option<(Option<String>, String)>, AllocError> {
    let Ok(text) = std::str::from_utf8(input) else {
        return Ok(None);
    };
    let mut job = Job::new(alloc, text);
    let there = place_there(place.text(), reason);
    let Some(seen) = Seen::at(alloc, &mut job, form, there)? else {
        return Ok(None);
    };
    let owner = owner_of(alloc, &mut job, &seen, there)?;
    let why = why_seen(alloc, &mut job, &seen, reason)?;
    Ok(Some((why, owner)))
}

/// What is told of a job's first fault.
fn bad_job(
    alloc: Global,
    form: Option<Form>,
    place: Place,
    reason: Reason,
    input: &[u8],
) -> RunFault
    ensures { told_number result ≡ 6 }
{
    let (why, owner) = match seen_in(alloc, form, &place, &reason, input) {
        Ok(Some(seen)) => seen,
        _ => (None, String::new(alloc)),
    };
    let why = match why {
        Some(why) => Why::Seen(why),
        None => Why::Alone(reason),
    };
    RunFault::BadJob { place, owner, why }
}

/// What is told of a status on standard error; nothing exactly where the output was written whole.
fn fault_of(
    alloc: Global,
    words: Option<&[String]>,
    around: Around,
    status: Status,
    input: &[u8],
) -> Option<RunFault>
    ensures { MatchOption result (status ≡ Status.Done) (λ fault. told_number fault ≡ exit_number status) }
{
    match status {
        Status::Done => None,
        Status::Usage => {
            let (why, hint) = wrong_words(alloc, words, around.names_file);
            Some(RunFault::Usage { why, hint })
        }
        Status::ReadFault => Some(RunFault::ReadFault {
            is_directory: around.reads_directory,
        }),
        Status::TooLong => Some(RunFault::TooLong),
        Status::BadJson => Some(RunFault::BadJson {
            why: not_json(alloc, input),
        }),
        Status::BadJob { place, reason } => {
            let form = read_words(words.unwrap_or(&[]));
            Some(bad_job(alloc, form, place, reason, input))
        }
        Status::WriteFault => Some(RunFault::WriteFault),
        Status::NoMemory => Some(RunFault::NoMemory),
    }
}

/// The exit status, and what is told of it on standard error. Words and input are those of the call; they are looked at
/// again for what the line names, and an empty input makes it tell less. What is around them moves the wording of a
/// line alone. The words are None where one of them is no UTF-8. The numbers and the texts are this project's own.
pub fn ending(
    alloc: Global,
    words: Option<&[String]>,
    around: Around,
    status: Status,
    input: &[u8],
) -> (u8, Option<RunFault>)
    ensures number { result.0 ≡ exit_number status }
    ensures told { MatchOption result.1 (status ≡ Status.Done)
        (λ fault. told_number fault ≡ exit_number status) }
{
    let number = status.number();
    (number, fault_of(alloc, words, around, status, input))
}
