ghost use Rattle.std.specs.Prelude.{◌≡◌};

use crate::cases::{CASES, Case, Parts, parts_of};
use crate::networks::{FOUR, read, seeded};
use grid_bench::Bench;
use grid_core::{Journal, Reply, Request, Script};
use grid_events::Filters;
use grid_ids::{Duplicate, Memory};
use grid_manager::{Blank, Gate, Manager, Named, Seat};
use grid_report::{Outcome, VariantViews, write_report};
use grid_source::SureSink;
use grid_structure::{Seeded, Structure};
use std::alloc::Global;
use std::marker::Brand;
use std::process::Abort;
use std::sync::Wait;
use std::sync::atomic::{AtomicBool, Ordering};
use std::test::Fail;
use std::thread;
use std::thread::Threads;

/// Holds worker 1 at work until worker 0 is done, who begins once it is at work. Each waits for at most so many turns.
#[derive(Drop)]
struct Hold {
    begun: AtomicBool,
    done: AtomicBool,
    used_up: AtomicBool,
}

impl Hold {
    /// It holds worker 1, or, where it is open from the start, none.
    fn new(open: bool) -> Hold {
        Hold {
            begun: AtomicBool::new(open),
            done: AtomicBool::new(open),
            used_up: AtomicBool::new(false),
        }
    }

    /// Waits for a flag.
    fn wait_for(&self, flag: &AtomicBool) {
        for _ in 0..1_000_000u32 {
            if flag.load(Ordering::SeqCst) {
                return;
            }
            thread::yield_now();
        }
        self.used_up.store(true, Ordering::SeqCst);
    }
}

impl Gate for Hold {
    fn at_work(&self, worker: u32, _bench: &Bench) {
        if worker == 1 {
            self.begun.store(true, Ordering::SeqCst);
            self.wait_for(&self.done);
        }
    }
}

/// What makes the calls of callers.
trait Caller<N: Named> {
    fn call<R: Wait>(
        &self,
        rt: &R,
        seat: &mut Seat<N>,
        request: &Request,
        gate: &Hold,
    ) -> Result<Reply, Memory>;
}

impl<N: Named> Caller<N> for Manager<N> {
    fn call<R: Wait>(
        &self,
        rt: &R,
        seat: &mut Seat<N>,
        request: &Request,
        gate: &Hold,
    ) -> Result<Reply, Memory> {
        self.step(rt, seat, request, gate)
    }
}

/// All calls of a script. The journal tells their replies.
fn all_calls<R: Wait, N: Named, M: Caller<N>>(
    rt: &R,
    manager: &M,
    mut seat: Seat<N>,
    script: &Script,
    gate: &Hold,
) -> Seat<N> {
    for request in script.slice() {
        let _ = manager.call(rt, &mut seat, request, gate);
    }
    seat
}

/// The same once the other worker is at work, after which the gate opens.
fn calls_between<R: Wait, N: Named, M: Caller<N>>(
    rt: &R,
    manager: &M,
    seat: Seat<N>,
    script: &Script,
    gate: &Hold,
) -> Seat<N> {
    gate.wait_for(&gate.begun);
    let seat = all_calls(rt, manager, seat, script, gate);
    gate.done.store(true, Ordering::SeqCst);
    seat
}

/// Two scripts on threads of their own.
fn at_once<R: Threads + Wait + Sync, N: Named + Send + Sync, M: Caller<N> + Sync>(
    rt: &R,
    manager: &M,
    held: Seat<N>,
    asked: &Script,
    free: Seat<N>,
    between: &Script,
    gate: &Hold,
) -> (Seat<N>, Seat<N>) {
    thread::join(
        rt,
        move || all_calls(rt, manager, held, asked, gate),
        move || calls_between(rt, manager, free, between, gate),
    )
}

/// The scripts of a case: those before, one after the other; what is asked and what comes between, at once; and a look
/// by the worker that was held, then by the other.
fn both_scripts<R: Threads + Wait + Sync, N: Named + Send + Sync, M: Caller<N> + Sync>(
    rt: &R,
    manager: &M,
    first: Seat<N>,
    second: Seat<N>,
    parts: &Parts<'_>,
    gate: &Hold,
) -> (Seat<N>, Seat<N>) {
    let first = all_calls(rt, manager, first, parts.before_by_0, gate);
    let second = all_calls(rt, manager, second, parts.before_by_1, gate);
    let (held, free) = at_once(rt, manager, second, parts.asked, first, parts.between, gate);
    let held = all_calls(rt, manager, held, parts.look, gate);
    let free = all_calls(rt, manager, free, parts.look, gate);
    (held, free)
}

/// What two callers leave, and how many steps each was told of once both had ended, and once they had met.
#[derive(Drop)]
struct Left {
    ended: (u64, u64),
    met: (u64, u64),
    journal: Journal,
}

/// The scripts of a case by two callers, who then meet.
fn pair<R: Threads + Wait + Sync, N: Named + Send + Sync>(
    rt: &R,
    alloc: Global,
    blank: Blank,
    parts: &Parts<'_>,
    gate: &Hold,
) -> Result<Left, Memory>
    requires { (blank.table ≡ N.table) × (blank.workers ≡ N.workers) }
{
    let (manager, mut seats) = Manager::<N>::start(alloc, blank)?;
    let (Some(first), Some(second)) = (seats.take(), seats.take()) else {
        return Err(Memory);
    };
    let (mut first, mut second) = both_scripts(rt, &manager, first, second, parts, gate);
    let ended = (
        manager.committed(&mut first),
        manager.committed(&mut second),
    );
    manager.meet(rt, &mut first, &mut second);
    let met = (
        manager.committed(&mut first),
        manager.committed(&mut second),
    );
    let (Ok(()), Ok(())) = (seats.push(first), seats.push(second)) else {
        return Err(Memory);
    };
    Ok(Left {
        ended,
        met,
        journal: manager.close(seats).into_journal(),
    })
}

/// What the scripts of a case on a network leave.
fn left_of<R: Threads + Wait + Sync>(
    rt: &R,
    alloc: Global,
    network: Structure,
    parts: &Parts<'_>,
    gate: &Hold,
) -> Result<Left, Fail> {
    let blank = Blank::make(alloc, network, 2)?;
    Ok(pair::<R, Brand>(rt, alloc, blank, parts, gate)?)
}

/// What two callers leave who make a job's first two scripts at once.
fn left_of_two<R: Threads + Wait + Sync>(
    rt: &R,
    seeded: Seeded,
    text: &str,
    gate: &Hold,
) -> Result<Left, Fail> {
    let alloc = seeded.alloc;
    let job = read(seeded, text.as_bytes())?;
    let none = Script::empty(alloc);
    let parts = Parts {
        before_by_0: &none,
        before_by_1: &none,
        between: job.scripts.get(1).unwrap_or(&none),
        asked: job.scripts.get(0).unwrap_or(&none),
        look: &none,
    };
    left_of(rt, alloc, job.network.copy()?, &parts, gate)
}

/// Asserts the report of two workers' steps, without views.
fn expect_report(
    rt: &impl Abort,
    alloc: Global,
    journal: Journal,
    wanted: &str,
) -> Result<(), Fail> {
    let outcome = Outcome {
        journal,
        workers: 2,
        views: VariantViews::empty(alloc),
        filters: Filters::empty(alloc),
    };
    let mut sink = SureSink::new(Vec::new(alloc), 4096);
    assert!(rt; write_report(alloc, &outcome, &mut sink).is_ok());
    Ok(assert_eq!(rt; sink.bytes(), wanted.as_bytes()))
}

/// Asserts that both callers made eight steps and were told of eight.
fn expect_all_told(rt: &impl Abort, left: &Left) -> Result<(), Fail> {
    assert_eq!(rt; left.ended, (8, 8));
    assert_eq!(rt; left.met, (8, 8));
    assert_eq!(rt; left.journal.len(), 8);
    Ok(())
}

#[test]
fn each_is_told_of_all_steps(rt: HostRuntime) -> Result<(), Fail> {
    let gate = Hold::new(true);
    let left = left_of_two(&rt, seeded(&rt)?, FOUR, &gate)?;
    expect_all_told(&rt, &left)
}

/// A case by two callers, of whom the gate holds worker 1 at work until worker 0's calls between have returned.
fn by_callers<R: Threads + Wait + Sync + Abort>(
    rt: &R,
    seeded: Seeded,
    case: &Case,
    wanted: &str,
) -> Result<(), Fail> {
    let alloc = seeded.alloc;
    let job = case.job(seeded)?;
    let Some(parts) = parts_of(job.scripts.slice()) else {
        return Ok(assert!(rt; false));
    };
    let gate = Hold::new(false);
    let left = left_of(rt, alloc, job.network.copy()?, &parts, &gate)?;
    assert!(rt; !gate.used_up.load(Ordering::SeqCst));
    let steps = left.journal.len() as u64;
    assert_eq!(rt; left.met, (steps, steps));
    expect_report(rt, alloc, left.journal, wanted)
}

#[test]
fn a_step_that_was_held_sees_what_came_between(rt: HostRuntime) -> Result<(), Fail> {
    let seeded = seeded(&rt)?;
    for case in CASES {
        if let Some(wanted) = case.report {
            by_callers(&rt, seeded, &case, wanted)?;
        }
    }
    Ok(())
}
