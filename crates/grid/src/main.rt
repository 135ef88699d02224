//! The program: real streams round the top call.
#![tactic(auto)]

use grid_cli::grid;
use grid_forms::Status;
use grid_lines::{Around, RunFault, ending, usage_text};
use grid_manager::Idle;
use grid_report::Text;
use grid_source::{Input, StdSink, StdSource};
use grid_structure::Seeded;
use std::hash::RandomState;
use std::io::Read;
use std::process::ExitCode;
use std::{env, fs, io};

/// The words behind the program's name; Usage where one is no UTF-8, so that they are no form.
fn words_of(rt: &HostRuntime) -> Result<Vec<String>, Status> {
    let all = match env::args(rt) {
        Ok(all) => all,
        Err(error) if error.kind() == io::ErrorKind::OutOfMemory => return Err(Status::NoMemory),
        Err(_) => return Err(Status::Usage),
    };
    let mut words = Vec::new(rt.alloc());
    for word in all.skip(1) {
        if words.push(word).is_err() {
            return Err(Status::NoMemory);
        }
    }
    Ok(words)
}

/// Tells a fault on standard error, and how the program is called where that is the fault.
fn tell(rt: &HostRuntime, fault: &RunFault) {
    let _ = eprintln!(rt; "{fault}");
    if !matches!(fault, RunFault::Usage { .. }) {
        return;
    }
    if let Ok(usage) = usage_text(rt.alloc()) {
        let _ = eprint!(rt; "\n{usage}");
    }
}

/// Whether the second word is the name of a file or a directory that is there.
fn names_file(rt: &HostRuntime, words: Option<&[String]>) -> bool {
    match words.and_then(|words| words.get(1)) {
        Some(word) => fs::exists(rt, word.as_str()).unwrap_or(false),
        None => false,
    }
}

/// Whether standard input is a directory.
fn reads_directory(rt: &HostRuntime) -> bool {
    let mut byte = [0u8];
    match rt.reader().read(&mut byte) {
        Ok(_) => false,
        Err(error) => error.kind() == io::ErrorKind::IsADirectory,
    }
}

/// What the system tells beside a status, which is asked where a line tells it.
fn around(rt: &HostRuntime, words: Option<&[String]>, status: &Status) -> Around {
    Around {
        names_file: matches!(status, Status::Usage) && names_file(rt, words),
        reads_directory: matches!(status, Status::ReadFault) && reads_directory(rt),
    }
}

/// Tells what a status of these words, if they are texts, and of this input has to tell, and gives its number.
fn exit_with(rt: &HostRuntime, words: Option<&[String]>, status: Status, input: &[u8]) -> ExitCode {
    let around = around(rt, words, &status);
    let (code, fault) = ending(rt.alloc(), words, around, status, input);
    if let Some(fault) = fault {
        tell(rt, &fault);
    }
    ExitCode::from(code)
}

/// Puts the warning of a run on standard error, where there is one.
fn warn(rt: &HostRuntime, warning: &Text) {
    if let Ok(line) = std::str::from_utf8(warning.as_bytes()) {
        let _ = eprint!(rt; "{line}");
    }
}

/// The allocator, and a seed for the tables of ids of this run: whoever writes a job cannot know it.
fn seeded_by(rt: &HostRuntime) -> io::Result<Seeded> {
    Ok(Seeded {
        alloc: rt.alloc(),
        hasher: RandomState::new(rt)?,
    })
}

fn main(rt: HostRuntime) -> ExitCode {
    let words = match words_of(&rt) {
        Ok(words) => words,
        Err(status) => return exit_with(&rt, None, status, &[]),
    };
    let Ok(seeded) = seeded_by(&rt) else {
        tell(&rt, &RunFault::NoRandomBytes);
        return ExitCode::from(Status::ReadFault.number());
    };
    let mut input = Input::new(rt.alloc(), StdSource::new(rt.reader()));
    let mut sink = StdSink::new(io::writer(&rt));
    let mut warning = Text::empty(rt.alloc());
    let status = grid(
        &rt,
        seeded,
        words.as_slice(),
        &mut input,
        &mut sink,
        &Idle,
        &mut warning,
    );
    warn(&rt, &warning);
    exit_with(&rt, Some(words.as_slice()), status, input.bytes())
}
