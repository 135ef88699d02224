//! Which worker an order names too often or too seldom.

use crate::look::Job;
use crate::sentence::{Named, Sentence};
use grid_json::MOST_WORKERS;
use std::alloc::{AllocError, Global};

/// How many commands each worker has.
fn script_lengths(
    alloc: Global,
    job: &mut Job<'_>,
    workers: usize,
) -> Result<Vec<usize>, AllocError> {
    let mut lengths = Vec::new(alloc);
    let Some(mut walk) = job.walk(workers) else {
        return Ok(lengths);
    };
    if !walk.enters_array() {
        return Ok(lengths);
    }
    for _ in 0..MOST_WORKERS {
        if !walk.is_at_item() {
            break;
        }
        lengths.push(walk.items().unwrap_or(0))?;
    }
    Ok(lengths)
}

/// What an order that does not fit the scripts names.
#[derive(Drop)]
struct Turns {
    /// How often each worker comes.
    often: Vec<usize>,
    /// The first number that is none of a worker.
    nobody: Option<i64>,
}

/// Whom an order names, of so many workers.
fn count_names(
    alloc: Global,
    job: &mut Job<'_>,
    order: usize,
    workers: usize,
) -> Result<Turns, AllocError> {
    let mut named = Turns {
        often: Vec::new(alloc),
        nobody: None,
    };
    named.often.resize(workers, 0)?;
    let Some(mut walk) = job.walk(order) else {
        return Ok(named);
    };
    if !walk.enters_array() {
        return Ok(named);
    }
    for _ in 0..u64::MAX {
        if !walk.is_at_item() {
            break;
        }
        let Some(number) = walk.whole() else {
            break;
        };
        match usize::try_from(number)
            .ok()
            .and_then(|place| named.often.get_mut(place))
        {
            Some(often) => *often = often.saturating_add(1),
            None => named.nobody = named.nobody.or(Some(number)),
        }
    }
    Ok(named)
}

/// That a worker comes too often or too seldom.
fn other_often(worker: usize, named: usize, commands: usize) -> Sentence<'static> {
    Sentence::two(
        "worker ",
        Named::Count(worker),
        " comes ",
        Named::Turns { named, commands },
        " commands (64)",
    )
}

/// That a number is none of a worker.
fn no_worker(worker: i64, workers: usize) -> Sentence<'static> {
    Sentence::two(
        "the order names worker ",
        Named::Number(worker),
        ", and the job has ",
        Named::Count(workers),
        " workers, counted from 0 (64)",
    )
}

/// Why an order does not fit the scripts: the first worker that it names too often or too seldom, or else a number
/// that is no worker's.
pub(crate) fn order_told(
    alloc: Global,
    job: &mut Job<'_>,
    root: usize,
    order: usize,
) -> Result<Option<Sentence<'static>>, AllocError> {
    let lengths = match job.member(root, "workers") {
        Some(workers) => script_lengths(alloc, job, workers)?,
        None => Vec::new(alloc),
    };
    let named = count_names(alloc, job, order, lengths.len())?;
    for (worker, (named, commands)) in named.often.iter().zip(lengths.iter()).enumerate() {
        if named != commands {
            return Ok(Some(other_often(worker, *named, *commands)));
        }
    }
    match named.nobody {
        Some(worker) => Ok(Some(no_worker(worker, lengths.len()))),
        None => Ok(None),
    }
}
