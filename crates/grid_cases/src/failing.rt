// Sources and sinks of which one call fails.
use crate::words::words_of;
use grid_cli::grid;
use grid_forms::Status;
use grid_manager::Idle;
use grid_report::Text;
use grid_source::{Input, MemorySink, MemorySource, SureSink, SureSource};
use grid_structure::Seeded;
use std::io;
use std::sync::Wait;
use std::thread::Threads;

/// No call of a case is tried past this many.
const MOST_CALLS: u64 = 100_000;

/// How a call with these words on a job ends whose source gives 7 bytes at a time and fails at this call, and what it
/// wrote.
fn with_a_read_failing<R: Threads + Wait + Sync>(
    threads: &R,
    seeded: Seeded,
    words: &str,
    job: &[u8],
    call: u64,
) -> io::Result<(Status, Vec<u8>)> {
    let alloc = seeded.alloc;
    let list = words_of(alloc, words)?;
    let mut fails = Vec::new(alloc);
    fails.push(call)?;
    let source = MemorySource::new(job.to_vec(alloc)?, 7, fails);
    let mut input = Input::new(alloc, source);
    let mut sink = SureSink::new(Vec::new(alloc), 4096);
    let mut warning = Text::empty(alloc);
    let status = grid(
        threads,
        seeded,
        list.as_slice(),
        &mut input,
        &mut sink,
        &Idle,
        &mut warning,
    );
    Ok((status, sink.bytes().to_vec(alloc)?))
}

/// The same with a sink that takes 10 bytes at a time and fails at this call.
fn with_a_write_failing<R: Threads + Wait + Sync>(
    threads: &R,
    seeded: Seeded,
    words: &str,
    job: &[u8],
    call: u64,
) -> io::Result<(Status, Vec<u8>)> {
    let alloc = seeded.alloc;
    let list = words_of(alloc, words)?;
    let mut fails = Vec::new(alloc);
    fails.push(call)?;
    let source = SureSource::new(job.to_vec(alloc)?, 4096);
    let mut input = Input::new(alloc, source);
    let room = Vec::with_capacity(alloc, 65_536)?;
    let mut sink = MemorySink::new(room, 10, fails);
    let mut warning = Text::empty(alloc);
    let status = grid(
        threads,
        seeded,
        list.as_slice(),
        &mut input,
        &mut sink,
        &Idle,
        &mut warning,
    );
    Ok((status, sink.bytes().to_vec(alloc)?))
}

/// How many calls of the source there are: with each of them failing the call ends by it with nothing written. None
/// where one ends otherwise.
pub(crate) fn reads_of<R: Threads + Wait + Sync>(
    threads: &R,
    seeded: Seeded,
    words: &str,
    job: &[u8],
) -> io::Result<Option<u64>> {
    for call in 0..MOST_CALLS {
        let (status, written) = with_a_read_failing(threads, seeded, words, job, call)?;
        match status {
            Status::Done => return Ok(Some(call)),
            Status::ReadFault if written.is_empty() => {}
            _ => return Ok(None),
        }
    }
    Ok(None)
}

/// How many calls of the sink there are: with each of them failing the call ends by it, and what the calls before it
/// took is the beginning of the whole output. None where one ends otherwise.
pub(crate) fn writes_of<R: Threads + Wait + Sync>(
    threads: &R,
    seeded: Seeded,
    words: &str,
    job: &[u8],
) -> io::Result<Option<u64>> {
    let (_, whole) = with_a_read_failing(threads, seeded, words, job, u64::MAX)?;
    for call in 0..MOST_CALLS {
        let (status, written) = with_a_write_failing(threads, seeded, words, job, call)?;
        let due = written.len() as u64 == call.saturating_mul(10);
        match status {
            Status::Done if written == whole => return Ok(Some(call)),
            Status::WriteFault if due && whole.starts_with(written.as_slice()) => {}
            _ => return Ok(None),
        }
    }
    Ok(None)
}
