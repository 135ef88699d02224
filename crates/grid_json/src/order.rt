// Orders of scripts.
ghost use Rattle.std.specs.Prelude.{◌≡◌, ◌<◌, ◌≤◌, map, length, count_by, IfOk, IfSome, Ok, true};
ghost use Rattle.std.specs.List.{list_all};
ghost use Rattle.grid_value.specs.View.{view};
ghost use Rattle.grid_json.specs.Reading.{Gives};
ghost use Rattle.grid_json.specs.Streams.{some_then};
ghost use Rattle.grid_json.specs.Job.{is_worker, counts_from, stands_for, is_order, natural_of, ordered, order_at};

use crate::format::Format;
use crate::job::Order;
use crate::read::FromJson;
use crate::{ReadError, Reason};
use grid_ids::{Memory, Seq};
use grid_requests::Script;
use grid_value::Value;
use std::alloc::Global;

// How often a worker's number stands in an order.
fn times(order: &[i64], worker: i64) -> usize
    ensures { result ≡ count_by (stands_for worker) order.now }
{
    order.iter().filter(|number| **number == worker).count()
}

// Whether each number is a worker's.
fn are_workers(order: &[i64], workers: usize) -> bool
    ensures { result ≡ list_all (is_worker workers) order.now }
{
    order.iter().all(|number| !(*number < 0) && (*number as u64) < workers as u64)
}

// Whether each worker's number stands as often as its script has commands.
fn counts_agree(scripts: &[Script], order: &[i64]) -> bool
    requires { length scripts.now ≤ 32 }
    ensures { result ≡ counts_from 0 (map length scripts.now) order.now }
{
    for (worker, script) in scripts.iter().enumerate() {
        if times(order, worker as i64) != script.len() {
            return false;
        }
    }
    true
}

// Whether each worker's number stands as often as its script has commands, and no other number stands.
#[tactic(auto, unfolding(crate::specs::Job::is_order))]
fn is_scheduled(scripts: &[Script], order: &[i64]) -> bool
    requires { length scripts.now ≤ 32 }
    ensures scheduled { result ≡ is_order (map length scripts.now) order.now }
    ensures workers { result ≡ true → list_all (is_worker (length scripts.now)) order.now ≡ true }
{
    are_workers(order, scripts.len()) && counts_agree(scripts, order)
}

// The numbers as those of workers.
fn workers_of(alloc: Global, order: &[i64], workers: usize) -> Result<Order, Memory>
    requires few { workers ≤ 32 }
    requires workers { list_all (is_worker workers) order.now ≡ true }
    ensures { IfOk result (λ numbers. numbers ≡ map natural_of order.now) }
{
    let mut numbers = Seq::empty(alloc);
    for number in order {
        numbers.push(*number as u32)?;
    }
    Ok(numbers)
}

/// The order of these scripts that the numbers are.
fn order_in(alloc: Global, numbers: &[i64], scripts: &[Script]) -> Result<Order, ReadError>
    requires { length scripts.now ≤ 32 }
    ensures { Gives result (ordered (map length scripts.now) numbers.now) }
{
    if !is_scheduled(scripts, numbers) {
        return Err(ReadError::here(alloc, Reason::Schedule));
    }
    Ok(workers_of(alloc, numbers, scripts.len())?)
}

/// The order of these scripts.
pub fn order_of(
    alloc: Global,
    format: Format,
    value: &Value,
    scripts: &[Script],
) -> Result<Order, ReadError>
    requires { length scripts.now ≤ 32 }
    ensures { Gives result (order_at scripts.now (view value.now)) }
{
    let numbers: Seq<i64> = Seq::from_json(alloc, format, value)?;
    order_in(alloc, numbers.slice(), scripts)
}

/// The order of these scripts that the numbers are, where there are any.
pub fn order_of_some(
    alloc: Global,
    numbers: Option<Seq<i64>>,
    scripts: &[Script],
) -> Option<Option<Order>>
    requires { length scripts.now ≤ 32 }
    ensures { IfSome result
        (λ order. some_then (ordered (map length scripts.now)) numbers ≡ Ok order) }
{
    match numbers {
        None => Some(None),
        Some(numbers) => Some(Some(order_in(alloc, numbers.slice(), scripts).ok()?)),
    }
}
