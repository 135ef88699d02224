// Screening in several threads.
ghost use Rattle.std.specs.Prelude.{◌≡◌, IfOk, flat_map};
ghost use Rattle.grid_screen.specs.Findings.{CaseFits, AreFigures};
ghost use Rattle.grid_screen.specs.Found.{AreFindings};
ghost use Rattle.grid_screen.specs.Kept.{IsKeptOf};

use crate::Findings;
use crate::alike::{find_alike, spread};
use crate::part::screen_part;
use crate::screened::ScreenedCase;
use grid_contingencies::{Contingencies, Contingency};
use grid_ids::Memory;
use rayon::prelude::*;
use std::alloc::Global;
use std::thread::Threads;

/// How many contingencies a thread screens at once. Each part costs one pass over the buses and links of the network,
/// and has in memory what its contingencies change.
const PART: usize = 128;

// All of these findings, in order.
fn join(alloc: Global, parts: Vec<Findings>) -> Result<Findings, Memory>
    ensures { IfOk result (λ findings. findings ≡ flat_map (λ part. part) parts.items) }
{
    let mut findings = Vec::new(alloc);
    for part in parts {
        let mut part = part.into_vec();
        findings.append(&mut part)?;
    }
    Ok(Findings::from_vec(findings))
}

// What is found of each contingency, part by part.
fn screen_parts<R: Threads + Sync>(
    rt: &R,
    alloc: Global,
    screened: &ScreenedCase<'_>,
    list: &Contingencies,
) -> Result<Findings, Memory>
    ensures { IfOk result (AreFindings screened.now list.now) }
{
    let case = screened.case;
    let kept = &screened.kept;
    let before = &screened.before;
    let parts: Result<Vec<Findings>, Memory> = list
        .slice()
        .par_chunks(PART)
        .with_min_len(1)
        .map(
            |part: &[Contingency]| -> Result<Findings, Memory>
                requires fits { CaseFits case.now }
                requires kept { IsKeptOf case.now kept.now }
                requires before { AreFigures case.now before.now }
                ensures { IfOk result (AreFindings case.entry.now part.now) }
            { screen_part(alloc, case, kept, before, part) },
        )
        .collect(rt, alloc)?;
    let parts: Vec<Findings> = parts?;
    let findings = join(alloc, parts)?;
    Ok(findings)
}

/// What is found of each contingency on one case, in the list's order, each as `find_one` finds it on one thread. What
/// is kept of the case is lent to all threads, each of which screens a part of the list at a time; contingencies that
/// differ in their names alone are found once; no lock is taken, and the call always returns.
pub fn screen<R: Threads + Sync>(
    rt: &R,
    alloc: Global,
    screened: &ScreenedCase<'_>,
    list: &[Contingency],
) -> Result<Findings, Memory>
    ensures { IfOk result (AreFindings screened.now list.now) }
{
    let alike = find_alike(alloc, list)?;
    let found = screen_parts(rt, alloc, screened, &alike.firsts)?;
    spread(alloc, found.slice(), &alike.groups)
}
