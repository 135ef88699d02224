//! Runs whole jobs by the top call. Each folder of `data/` is a case: the words, the job, and the exit status, the
//! output and the line or the warning on standard error that they must give, and for a job with a fault also its place
//! and reason. Then come what is told by many calls each: broken input, sources and sinks that fail, the pieces of a
//! long output, a run on threads that is replayed by its order, and many contingencies at once.
#![tactic(auto)]

mod broken;
mod compare;
mod ending;
mod failing;
mod pieces;
mod replayed;
mod screened;
mod words;

use crate::compare::first_difference;
use crate::ending::{Ending, fault_of, run, told};
use grid_forms::Status;
use grid_lines::usage_text;
use grid_structure::Seeded;
use std::hash::RandomState;
use std::sync::Wait;
use std::thread::Threads;
use std::{fs, io};

/// The allocator, and a seed for tables of ids.
fn seeded(rt: &HostRuntime) -> io::Result<Seeded> {
    Ok(Seeded {
        alloc: rt.alloc(),
        hasher: RandomState::new(rt)?,
    })
}

/// The names of the cases, in order.
fn names(rt: &HostRuntime) -> io::Result<Vec<String>> {
    let mut names = Vec::new(rt.alloc());
    for entry in fs::read_dir(rt, ".")? {
        names.push(String::from_str(rt.alloc(), entry?.file_name())?)?;
    }
    names.sort()?;
    Ok(names)
}

/// The bytes of a case's file.
fn part(rt: &HostRuntime, name: &str, file: &str) -> io::Result<Vec<u8>> {
    let path = format!(in rt.alloc(); "{name}/{file}")?;
    fs::read(rt, path.as_str())
}

/// The text of a case's file, or no text where there is none.
fn text_of(rt: &HostRuntime, name: &str, file: &str) -> io::Result<String> {
    let path = format!(in rt.alloc(); "{name}/{file}")?;
    match fs::read_to_string(rt, path.as_str()) {
        Err(error) if error.kind() == io::ErrorKind::NotFound => Ok(String::new(rt.alloc())),
        text => text,
    }
}

/// The one line of a case's file, or no text where there is none.
fn line_of(rt: &HostRuntime, name: &str, file: &str) -> io::Result<String> {
    let text = text_of(rt, name, file)?;
    Ok(String::from_str(rt.alloc(), text.as_str().trim_end())?)
}

/// What a case must come to.
fn wanted_of(rt: &HostRuntime, name: &str) -> io::Result<Ending> {
    let output = format!(in rt.alloc(); "{name}/output")?;
    Ok(Ending {
        status: line_of(rt, name, "status")?,
        fault: line_of(rt, name, "fault")?,
        output: fs::read_to_string(rt, output.as_str())?,
        line: line_of(rt, name, "line")?,
        warning: line_of(rt, name, "warning")?,
    })
}

/// Where a case comes to something else than it must, in words.
fn difference<R: Threads + Wait + Sync>(
    rt: &HostRuntime,
    threads: &R,
    name: &str,
) -> io::Result<Option<String>> {
    let words = text_of(rt, name, "words")?;
    let job = part(rt, name, "job.json")?;
    let got = run(threads, seeded(rt)?, words.as_str(), job)?;
    let wanted = wanted_of(rt, name)?;
    for (what, got, wanted) in [
        ("exit status", &got.status, &wanted.status),
        ("fault", &got.fault, &wanted.fault),
        ("output", &got.output, &wanted.output),
        ("line", &got.line, &wanted.line),
        ("warning", &got.warning, &wanted.warning),
    ] {
        let place = first_difference(rt.alloc(), got.as_str(), wanted.as_str())?;
        if !place.is_empty() {
            return Ok(Some(format!(in rt.alloc(); "another {what}, {place}")?));
        }
    }
    Ok(None)
}

/// Prints the line of each status that no job here ends with, and the usage text.
fn show_lines(rt: &HostRuntime) -> io::Result<()> {
    for status in [
        Status::ReadFault,
        Status::TooLong,
        Status::WriteFault,
        Status::NoMemory,
    ] {
        let (number, line) = told(rt.alloc(), &[], status, &[])?;
        println!(rt; "{number} {line}")?;
    }
    let usage = usage_text(rt.alloc())?;
    print!(rt; "{usage}")
}

/// Makes the cases, and prints the name of each.
fn show_cases<R: Threads + Wait + Sync>(rt: &HostRuntime, threads: &R) -> io::Result<()> {
    let mut failed = 0u64;
    for name in names(rt)? {
        match difference(rt, threads, name.as_str())? {
            None => println!(rt; "{name}")?,
            Some(why) => {
                failed = failed.saturating_add(1);
                println!(rt; "{name}: {why}")?
            }
        }
    }
    println!(rt; "{failed} failed")
}

/// Prints how a check of a job with so many things ended.
fn show_checked(
    rt: &HostRuntime,
    count: u32,
    what: &str,
    status: &Option<Status>,
) -> io::Result<()> {
    match status {
        Some(status) => {
            let fault = fault_of(rt.alloc(), status)?;
            println!(rt; "{count} {what}: {fault}")
        }
        None => println!(rt; "{count} {what}: accepted"),
    }
}

/// Prints how a check of so many spaces ended.
fn show_spaces(rt: &HostRuntime, count: usize) -> io::Result<()> {
    match broken::spaces(seeded(rt)?, count)? {
        Some(status) => println!(rt; "{count} spaces: exit status {}", status.number()),
        None => println!(rt; "{count} spaces: something was written"),
    }
}

/// Prints what comes of broken input of which no single case tells enough.
fn show_broken(rt: &HostRuntime) -> io::Result<()> {
    let seeded = seeded(rt)?;
    let job = part(rt, "first_bus_view", "job.json")?;
    match broken::beginnings(seeded, job.as_slice())? {
        Some(count) => println!(rt; "each beginning of {count} bytes of a job is no JSON")?,
        None => println!(rt; "a beginning of a job is not refused as no JSON")?,
    }
    for count in [20_000, 20_001] {
        show_checked(rt, count, "commands", &broken::commands(seeded, count)?)?;
    }
    for count in [200_000, 200_001] {
        show_checked(rt, count, "switches", &broken::switches(seeded, count)?)?;
    }
    show_spaces(rt, 33_554_432)?;
    show_spaces(rt, 33_554_433)
}

/// Prints a count of calls, each of which failed as it must.
fn show_count(rt: &HostRuntime, words: &str, what: &str, count: Option<u64>) -> io::Result<()> {
    match count {
        Some(count) => println!(rt;
            "{words}: {count} {what}, and where one fails the call ends so"
        ),
        None => println!(rt; "{words}: one of the {what} fails otherwise than it must"),
    }
}

/// Prints how many reads and writes a call has, each of which failed in turn.
fn show_failing<R: Threads + Wait + Sync>(rt: &HostRuntime, threads: &R) -> io::Result<()> {
    let seeded = seeded(rt)?;
    let job = part(rt, "first_bus_view", "job.json")?;
    for words in ["replay", "run", "check", "print", "make 1 1", "trial 1 1"] {
        let reads = failing::reads_of(threads, seeded, words, job.as_slice())?;
        show_count(rt, words, "reads", reads)?;
        let writes = failing::writes_of(threads, seeded, words, job.as_slice())?;
        show_count(rt, words, "writes", writes)?;
    }
    Ok(())
}

/// Prints the pieces in which the report of a long job is handed out.
fn show_pieces(rt: &HostRuntime) -> io::Result<()> {
    print!(rt; "too_many_variants: pieces of")?;
    for size in pieces::pieces_of(seeded(rt)?, part(rt, "too_many_variants", "job.json")?)? {
        print!(rt; " {size}")?;
    }
    println!(rt; " bytes")
}

/// Prints whether a run of three workers is replayed by its order, and how its report is that of the case.
fn show_replayed<R: Threads + Wait + Sync>(rt: &HostRuntime, threads: &R) -> io::Result<()> {
    let job = text_of(rt, "four_report", "job.json")?;
    let wanted = text_of(rt, "four_report", "output")?;
    let (ran, replayed) = replayed::both_reports(threads, seeded(rt)?, job.as_str())?;
    let place = first_difference(rt.alloc(), replayed.as_str(), ran.as_str())?;
    if place.is_empty() && replayed::same_behind_order(ran.as_str(), wanted.as_str()) {
        println!(rt; "four_report: a run on threads is replayed by its order")
    } else {
        println!(rt; "four_report: a run on threads is not replayed by its order, {place}")
    }
}

/// Prints how many of many contingencies are found alike.
fn show_screened<R: Threads + Wait + Sync>(rt: &HostRuntime, threads: &R) -> io::Result<()> {
    let job = text_of(rt, "screen", "job.json")?;
    let (found, lines) = screened::lines_of(threads, seeded(rt)?, job.as_str(), 4_096)?;
    println!(rt; "screen: {found} contingencies in {lines} lines")
}

/// Prints what is told by many calls each.
fn show_parts<R: Threads + Wait + Sync>(rt: &HostRuntime, threads: &R) -> io::Result<()> {
    show_broken(rt)?;
    show_failing(rt, threads)?;
    show_pieces(rt)?;
    show_replayed(rt, threads)?;
    show_screened(rt, threads)
}

fn main(rt: HostRuntime) -> io::Result<()> {
    show_cases(&rt, &rt)?;
    show_lines(&rt)?;
    show_parts(&rt, &rt)
}
