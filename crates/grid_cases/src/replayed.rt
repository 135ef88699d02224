// Runs on threads, whose orders are replayed.
use crate::ending::run;
use grid_structure::Seeded;
use std::alloc::Global;
use std::io;
use std::sync::Wait;
use std::thread::Threads;

/// The first line of a report, and the others.
fn first_line(report: &str) -> (&str, &str) {
    report.split_once("\n").unwrap_or(("", ""))
}

/// The job with an order in place of none: that of a report's first line.
fn ordered(alloc: Global, job: &str, line: &str) -> io::Result<Vec<u8>> {
    let (front, _end) = job.rsplit_once("}").unwrap_or(("", ""));
    let mut text = String::from_str(alloc, front)?;
    text.push_str(",\"order\":[")?;
    for (place, word) in line.split(" ").skip(1).enumerate() {
        if place > 0 {
            text.push_str(",")?;
        }
        text.push_str(word)?;
    }
    text.push_str("]}")?;
    Ok(text.into_bytes())
}

/// The reports of a job by a run on threads, and by a replay of the order that this run tells.
pub(crate) fn both_reports<R: Threads + Wait + Sync>(
    threads: &R,
    seeded: Seeded,
    job: &str,
) -> io::Result<(String, String)> {
    let alloc = seeded.alloc;
    let ran = run(threads, seeded, "run", job.as_bytes().to_vec(alloc)?)?;
    let (line, _others) = first_line(ran.output.as_str());
    let job = ordered(alloc, job, line)?;
    let replayed = run(threads, seeded, "replay", job)?;
    Ok((ran.output, replayed.output))
}

/// Whether two reports are the same behind the line of their order.
pub(crate) fn same_behind_order(one: &str, other: &str) -> bool {
    let ((_, one), (_, other)) = (first_line(one), first_line(other));
    !one.is_empty() && one == other
}
