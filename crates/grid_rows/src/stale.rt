// Which answers are out of date, on a board.
ghost use Rattle.std.specs.Prelude.{◌≡◌, ◌<◌};
ghost use Rattle.grid_bench.specs.Answers.{IsTaskOf};

use crate::cases::{CASES, Case, Parts, parts_of};
use crate::networks::seeded;
use grid_bench::{Answer, Base, Bench, Task};
use grid_board::{Board, CommitFault};
use grid_core::{Reply, Request, Script};
use grid_ids::Duplicate;
use grid_queue::Counts;
use grid_structure::{Seeded, Structure};
use std::alloc::Global;
use std::marker::Brand;
use std::process::Abort;
use std::sync::ledger::{Blank, Ledger};
use std::test::Fail;

/// What a bench that keeps nothing answers, with counters of its own.
fn answered<L: Ledger, W: Ledger>(
    alloc: Global,
    base: Base,
    task: Task,
    visits: Blank,
    writes: Blank,
) -> Result<Answer, Fail>
    requires visits_name { visits.name ≡ L.name }
    requires visits_parts { visits.parts ≡ L.parts }
    requires visits_some { 0 < visits.parts }
    requires writes_name { writes.name ≡ W.name }
    requires writes_parts { writes.parts ≡ W.parts }
    requires writes_some { 0 < writes.parts }
    requires task { IsTaskOf base task }
{
    let mut bench = Bench::empty(alloc);
    let mut counts: Counts<L, W> = Counts::begin(visits, writes);
    Ok(bench.answer(base, task, &mut counts)?)
}

/// A board of two workers.
#[derive(Drop)]
struct Desk {
    board: Board,
    ghost workers: { board.workers ≡ 2 },
}

impl Desk {
    fn start(alloc: Global, network: Structure) -> Result<Desk, Fail> {
        Ok(Desk {
            board: Board::start(alloc, network, 2)?,
        })
    }

    /// The answer to worker 1's request on the present base, where the request has a task.
    fn ask(&mut self, alloc: Global, request: &Request) -> Result<Option<Answer>, Fail> {
        match self.board.snapshot(1, request)? {
            Some((base, task)) => {
                let (visits, writes) = (Blank::new(1), Blank::new(1));
                Ok(Some(answered::<Brand, Brand>(alloc, base, task, visits, writes)?))
            }
            None => Ok(None),
        }
    }

    /// Whether worker 1's answer is out of date for a request.
    fn is_stale(&mut self, request: &Request, answer: Answer) -> bool {
        matches!(
            self.board.commit(1, request, answer),
            Err(CommitFault::Stale)
        )
    }

    /// A step of a request that has no task.
    fn put(&mut self, worker: u32, request: &Request) -> Result<Option<Reply>, Fail>
        requires { worker < 2 }
    {
        match self.board.snapshot(worker, request)? {
            Some(_) => Ok(None),
            None => Ok(Some(self.board.commit_plain(worker, request)?)),
        }
    }

    /// All steps of a script whose requests have no task.
    fn put_all(&mut self, rt: &impl Abort, worker: u32, script: &Script) -> Result<(), Fail>
        requires { worker < 2 }
    {
        for request in script.slice() {
            assert!(rt; self.put(worker, request)?.is_some());
        }
        Ok(())
    }

    /// The steps of a case up to worker 1's commit: whether its answer is out of date then.
    fn is_late(&mut self, rt: &impl Abort, alloc: Global, parts: &Parts<'_>) -> Result<bool, Fail> {
        let ([earlier, ..], [.., asked]) = (parts.asked.slice(), parts.asked.slice()) else {
            panic!(rt; "a request");
        };
        self.put_all(rt, 0, parts.before_by_0)?;
        self.put_all(rt, 1, parts.before_by_1)?;
        let Some(answer) = self.ask(alloc, earlier)? else {
            panic!(rt; "a request that has a task");
        };
        self.put_all(rt, 0, parts.between)?;
        Ok(self.is_stale(asked, answer))
    }
}

/// Whether worker 1's answer is out of date in a case.
fn is_late_in(rt: &impl Abort, seeded: Seeded, case: &Case) -> Result<bool, Fail> {
    let alloc = seeded.alloc;
    let job = case.job(seeded)?;
    let Some(parts) = parts_of(job.scripts.slice()) else {
        panic!(rt; "the scripts of a case");
    };
    let mut desk = Desk::start(alloc, job.network.copy()?)?;
    desk.is_late(rt, alloc, &parts)
}

#[test]
fn what_comes_between_makes_an_answer_stale(rt: HostRuntime) -> Result<(), Fail> {
    let seeded = seeded(&rt)?;
    for case in CASES {
        assert_eq!(rt; is_late_in(&rt, seeded, &case)?, case.stale);
    }
    Ok(())
}
