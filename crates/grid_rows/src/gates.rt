// Runs of whole jobs with gates.
use crate::networks::{FOUR, seeded, with_scripts};
use grid_bench::Bench;
use grid_cli::grid;
use grid_forms::Status;
use grid_ids::Id;
use grid_manager::Gate;
use grid_report::Text;
use grid_source::{Input, SureSink, SureSource};
use grid_structure::Seeded;
use std::process::Abort;
use std::sync::Wait;
use std::sync::atomic::{AtomicBool, AtomicUsize, Ordering};
use std::test::Fail;
use std::thread;
use std::thread::Threads;

/// What a run of a job with a gate writes.
fn ran<R: Threads + Wait + Sync + Abort, G: Gate>(
    rt: &R,
    seeded: Seeded,
    job: Vec<u8>,
    gate: &G,
) -> Result<String, Fail> {
    let alloc = seeded.alloc;
    let mut words = Vec::new(alloc);
    words.push(String::from_str(alloc, "run")?)?;
    let mut input = Input::new(alloc, SureSource::new(job, 4096));
    let mut sink = SureSink::new(Vec::new(alloc), 4096);
    let mut warning = Text::empty(alloc);
    let status = grid(
        rt,
        seeded,
        words.as_slice(),
        &mut input,
        &mut sink,
        gate,
        &mut warning,
    );
    assert!(rt; matches!(status, Status::Done));
    Ok(String::from_utf8(sink.bytes().to_vec(alloc)?)?)
}

/// Holds the first calls of workers 0 and 1 until both have begun, and worker 0 until worker 1's second call.
#[derive(Drop)]
struct Crossing {
    begun_by_0: AtomicBool,
    begun_by_1: AtomicBool,
    again_by_1: AtomicBool,
    used_up: AtomicBool,
}

impl Crossing {
    fn new() -> Crossing {
        Crossing {
            begun_by_0: AtomicBool::new(false),
            begun_by_1: AtomicBool::new(false),
            again_by_1: AtomicBool::new(false),
            used_up: AtomicBool::new(false),
        }
    }

    /// Waits for a flag, for at most so many turns.
    fn wait_for(&self, flag: &AtomicBool) {
        for _ in 0..1_000_000u32 {
            if flag.load(Ordering::SeqCst) {
                return;
            }
            thread::yield_now();
        }
        self.used_up.store(true, Ordering::SeqCst);
    }

    fn hold_0(&self) {
        if self.begun_by_0.load(Ordering::SeqCst) {
            return;
        }
        self.begun_by_0.store(true, Ordering::SeqCst);
        self.wait_for(&self.begun_by_1);
        self.wait_for(&self.again_by_1);
    }

    fn hold_1(&self) {
        if self.begun_by_1.load(Ordering::SeqCst) {
            self.again_by_1.store(true, Ordering::SeqCst);
            return;
        }
        self.begun_by_1.store(true, Ordering::SeqCst);
        self.wait_for(&self.begun_by_0);
    }
}

impl Gate for Crossing {
    fn at_work(&self, worker: u32, _bench: &Bench) {
        match worker {
            0 => self.hold_0(),
            1 => self.hold_1(),
            _ => {}
        }
    }
}

/// The place of the third turn of a worker in a report's first line.
fn third_turn(line: &str, worker: &str) -> Option<usize> {
    let mut seen = 0u32;
    for (place, word) in line.split(" ").enumerate() {
        if word == worker {
            seen = seen.saturating_add(1);
            if seen == 3 {
                return Some(place);
            }
        }
    }
    None
}

#[test]
fn the_order_is_the_one_that_happened(rt: HostRuntime) -> Result<(), Fail> {
    let alloc = rt.alloc();
    let gate = Crossing::new();
    let report = ran(&rt, seeded(&rt)?, FOUR.as_bytes().to_vec(alloc)?, &gate)?;
    assert!(rt; !gate.used_up.load(Ordering::SeqCst));
    let line = report.as_str().lines().next().unwrap_or("");
    let (Some(held), Some(before)) = (third_turn(line, "0"), third_turn(line, "1")) else {
        assert!(rt; false);
        return Ok(());
    };
    assert!(rt; before < held);
    Ok(())
}

/// Looks at the bench of each call, and whether it keeps two levels as it is to at this call.
#[derive(Drop)]
struct Looking {
    one: Id,
    other: Id,
    wanted: &'static [(bool, bool)],
    calls: AtomicUsize,
    differs: AtomicBool,
}

impl Gate for Looking {
    fn at_work(&self, _worker: u32, bench: &Bench) {
        let call = self.calls.load(Ordering::SeqCst);
        let kept = (bench.keeps(&self.one), bench.keeps(&self.other));
        if self.wanted.get(call) != Some(&kept) {
            self.differs.store(true, Ordering::SeqCst);
        }
        self.calls.store(call.saturating_add(1), Ordering::SeqCst);
    }
}

/// Runs a script on the four levels, and asserts which of two levels the bench keeps at each call that has a task.
fn expect_kept<R: Threads + Wait + Sync + Abort>(
    rt: &R,
    seeded: Seeded,
    script: &str,
    levels: (&str, &str),
    wanted: &'static [(bool, bool)],
) -> Result<(), Fail> {
    let alloc = seeded.alloc;
    let gate = Looking {
        one: Id::new(alloc, levels.0)?,
        other: Id::new(alloc, levels.1)?,
        wanted,
        calls: AtomicUsize::new(0),
        differs: AtomicBool::new(false),
    };
    ran(rt, seeded, with_scripts(alloc, FOUR, script)?, &gate)?;
    assert_eq!(rt; gate.calls.load(Ordering::SeqCst), wanted.len());
    Ok(assert!(rt; !gate.differs.load(Ordering::SeqCst)))
}

#[test]
fn a_bench_is_kept_from_step_to_step(rt: HostRuntime) -> Result<(), Fail> {
    // A refusal between the two leaves the bench as it is.
    expect_kept(
        &rt,
        seeded(&rt)?,
        r#"[{"do":"bus_view","level":"A"},{"do":"bus_view","level":"ZZ"},{"do":"bus_view","level":"D"}]"#,
        ("A", "D"),
        &[(true, false), (true, true)],
    )
}

#[test]
fn tasks_keep_what_they_need(rt: HostRuntime) -> Result<(), Fail> {
    // Each in a variant of its own, with a bench of its own. Components ask no bench.
    expect_kept(
        &rt,
        seeded(&rt)?,
        r#"[
          {"do": "clone", "from": "InitialState", "to": "V1"},
          {"do": "use", "variant": "V1"},
          {"do": "connect", "equipment": "LC"},
          {"do": "clone", "from": "InitialState", "to": "V2"},
          {"do": "use", "variant": "V2"},
          {"do": "disconnect", "equipment": "LC"},
          {"do": "clone", "from": "InitialState", "to": "V3"},
          {"do": "use", "variant": "V3"},
          {"do": "bus_breaker_view", "level": "C"},
          {"do": "clone", "from": "InitialState", "to": "V4"},
          {"do": "use", "variant": "V4"},
          {"do": "bus_view", "level": "A"},
          {"do": "clone", "from": "InitialState", "to": "V5"},
          {"do": "use", "variant": "V5"},
          {"do": "components", "level": "A"}
        ]"#,
        ("A", "C"),
        &[(false, false), (false, false), (false, true), (true, false)],
    )
}
