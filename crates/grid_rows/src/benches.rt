// A bench on a worked level: at what cost labels follow.
ghost use Rattle.std.specs.Prelude.{◌≡◌, ◌+◌, ◌<◌, ◌≤◌, IfOk, OnOk, Some, length};
ghost use Rattle.grid_level.specs.Passing.{nodes};
ghost use Rattle.grid_bench.specs.Contents.{content};
ghost use Rattle.grid_bench.specs.Stores.{kept_for};

use crate::networks::{DUO, read, seeded};
use grid_bench::Bench;
use grid_ids::{Duplicate, Id, Memory};
use grid_level::Level;
use grid_queue::Counts;
use grid_shared::Shared;
use grid_structure::Structure;
use std::alloc::Global;
use std::marker::Brand;
use std::process::Abort;
use std::sync::ledger::{Blank, Ledger};
use std::test::Fail;

const CLOSED: [bool; 5] = [false, true, false, false, false];

const PARTED: [bool; 5] = [false, true, false, true, false];

const RETAINED: [bool; 5] = [false, false, false, true, false];

/// The first level of a network.
fn first_level(alloc: Global, network: &Structure) -> Result<Option<Shared<Level>>, Fail> {
    if network.level_count() == 0 {
        return Ok(None);
    }
    let level = network.level(0).copy()?;
    Ok(Some(Shared::new(alloc, level)?))
}

/// A bench that keeps the level with its coupler closed.
fn closed_bench<L: Ledger, W: Ledger>(
    alloc: Global,
    level: &Shared<Level>,
    counts: &mut Counts<L, W>,
) -> Result<Bench, Memory>
    requires { length level.now.switches ≡ 5 }
    ensures { IfOk result (λ bench. kept_for bench level.now.id
        ≡ Some (content level.now CLOSED RETAINED)) }
{
    let mut bench = Bench::empty(alloc);
    bench.refresh(level, &CLOSED, &RETAINED, counts)?;
    Ok(bench)
}

/// The same level with the same flags again costs no visit and no write.
fn refresh_again<L: Ledger, W: Ledger>(
    bench: &mut Bench,
    level: &Shared<Level>,
    counts: &mut Counts<L, W>,
) -> Result<(), Memory>
    requires switches { length level.now.switches ≡ 5 }
    requires kept { kept_for bench.old level.now.id ≡ Some (content level.now CLOSED RETAINED) }
    ensures kept { OnOk result (kept_for bench.new level.now.id
        ≡ Some (content level.now CLOSED RETAINED)) }
    ensures visits { counts.new.visits ≡ counts.old.visits }
    ensures writes { counts.new.writes ≡ counts.old.writes }
{
    bench.refresh(level, &CLOSED, &RETAINED, counts)
}

/// The coupler opens: under either rule all nodes are touched at most.
fn open_coupler<L: Ledger, W: Ledger>(
    bench: &mut Bench,
    level: &Shared<Level>,
    counts: &mut Counts<L, W>,
) -> Result<(), Memory>
    requires switches { length level.now.switches ≡ 5 }
    requires nodes { length (nodes level.now) ≡ 6 }
    requires kept { kept_for bench.old level.now.id ≡ Some (content level.now CLOSED RETAINED) }
    ensures visits { counts.new.visits ≤ counts.old.visits + 12 }
    ensures writes { counts.new.writes ≤ counts.old.writes + 12 }
{
    bench.refresh(level, &PARTED, &RETAINED, counts)
}

/// A bench that kept the level with its coupler closed, twice, and then open.
fn follow_coupler<L: Ledger, W: Ledger>(
    rt: &impl Abort,
    alloc: Global,
    level: Shared<Level>,
    visits: Blank,
    writes: Blank,
) -> Result<Bench, Fail>
    requires visits_name { visits.name ≡ L.name }
    requires visits_parts { visits.parts ≡ L.parts }
    requires visits_some { 0 < visits.parts }
    requires writes_name { writes.name ≡ W.name }
    requires writes_parts { writes.parts ≡ W.parts }
    requires writes_some { 0 < writes.parts }
{
    let mut counts: Counts<L, W> = Counts::begin(visits, writes);
    assert_eq!(rt; level.get().switch_count(), 5);
    assert_eq!(rt; level.get().node_count(), 6);
    let mut bench = closed_bench(alloc, &level, &mut counts)?;
    refresh_again(&mut bench, &level, &mut counts)?;
    open_coupler(&mut bench, &level, &mut counts)?;
    Ok(bench)
}

#[test]
fn labels_follow_the_coupler(rt: HostRuntime) -> Result<(), Fail> {
    let alloc = rt.alloc();
    let job = read(seeded(&rt)?, DUO.as_bytes())?;
    let Some(level) = first_level(alloc, &job.network)? else {
        return Ok(assert!(rt; false));
    };
    let bench = follow_coupler::<Brand, Brand>(&rt, alloc, level, Blank::new(1), Blank::new(1))?;
    let id = Id::new(alloc, "VL")?;
    Ok(assert!(rt; bench.keeps(&id)))
}
