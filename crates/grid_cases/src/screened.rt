// Many contingencies at once.
use crate::ending::run;
use grid_structure::Seeded;
use std::alloc::Global;
use std::io;
use std::sync::Wait;
use std::thread::Threads;

/// A job with contingencies in which one contingency stands so many times.
fn repeated(alloc: Global, job: &str, contingency: &str, count: u64) -> io::Result<Vec<u8>> {
    let (front, _contingencies) = job.split_once("\"contingencies\"").unwrap_or(("", ""));
    let mut text = String::from_str(alloc, front)?;
    text.push_str("\"contingencies\":[")?;
    for place in 0..count {
        if place > 0 {
            text.push_str(",")?;
        }
        text.push_str(contingency)?;
    }
    text.push_str("]}")?;
    Ok(text.into_bytes())
}

// The line of the outage of `L1` in the network of four levels.
const LINE: &str =
    "contingency E1: 4 buses, 2 components, main 2, lost load 30000000, lost generation 120000000";

/// How many lines tell the outage of `L1`, where it stands so many times in a job of four levels, and how many there
/// are.
pub(crate) fn lines_of<R: Threads + Wait + Sync>(
    threads: &R,
    seeded: Seeded,
    job: &str,
    count: u64,
) -> io::Result<(u64, u64)> {
    let job = repeated(seeded.alloc, job, r#"{"name":"E1","out":["L1"]}"#, count)?;
    let ending = run(threads, seeded, "screen", job)?;
    let mut found = 0u64;
    let mut lines = 0u64;
    for line in ending.output.as_str().lines() {
        lines = lines.saturating_add(1);
        if line == LINE {
            found = found.saturating_add(1);
        }
    }
    Ok((found, lines))
}
