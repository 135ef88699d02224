// A part of a list of contingencies: the outages of all, the figures after each, and the findings.
ghost use Rattle.std.specs.Prelude.{◌≡◌, ◌≤◌, IfOk, length, map, zip};
ghost use Rattle.grid_screen.specs.Findings.{CaseFits, AreFigures};
ghost use Rattle.grid_screen.specs.Found.{AreFindings};
ghost use Rattle.grid_screen.specs.Kept.{IsKeptOf};
ghost use Rattle.grid_screen.specs.Starts.{finding_from};
ghost use Rattle.grid_screen.specs.Started.{AreStarts};

use crate::find::{End, finding_by, start_of};
use crate::{Figures, Findings};
use grid_contingencies::Contingency;
use grid_core::Case;
use grid_figures::{Outage, figures_after_each};
use grid_ids::Memory;
use grid_outages::Screening;
use std::alloc::Global;

// The outages of contingencies, and for each how its finding is made of the figures after it.
#[derive(Drop)]
struct Starts {
    outages: Vec<Outage>,
    ends: Vec<End>,
}

// What is found of contingencies, but for the figures.
fn list_starts(
    alloc: Global,
    case: &Case,
    kept: &Screening,
    part: &[Contingency],
) -> Result<Starts, Memory>
    requires fits { CaseFits case.now }
    requires kept { IsKeptOf case.now kept.now }
    ensures { IfOk result (λ starts. AreStarts case.now kept.now part.now starts.outages.items
        starts.ends.items) }
{
    let mut outages = Vec::new(alloc);
    let mut ends = Vec::new(alloc);
    for contingency in part {
        let start = start_of(alloc, case, kept, contingency)?;
        outages.push(start.outage)?;
        ends.push(start.end)?;
    }
    Ok(Starts { outages, ends })
}

// The findings that figures make.
fn list_findings(
    alloc: Global,
    before: &Figures,
    ends: &[End],
    figures: &[Figures],
) -> Result<Findings, Memory>
    requires { length ends.now ≤ length figures.now }
    ensures { IfOk result (λ findings. findings
        ≡ map (λ pair. finding_from before.now pair.1 pair.0) (zip ends.now figures.now)) }
{
    let mut findings = Findings::empty(alloc);
    for (place, end) in ends.iter().enumerate() {
        findings.push(finding_by(alloc, before, &figures[place], end)?)?;
    }
    Ok(findings)
}

/// What is found of contingencies on a case with these figures. The outages are found one by one, and the figures after
/// all of them at once.
pub(crate) fn screen_part(
    alloc: Global,
    case: &Case,
    kept: &Screening,
    before: &Figures,
    part: &[Contingency],
) -> Result<Findings, Memory>
    requires fits { CaseFits case.now }
    requires kept { IsKeptOf case.now kept.now }
    requires before { AreFigures case.now before.now }
    ensures { IfOk result (AreFindings case.now part.now) }
{
    let starts = list_starts(alloc, case, kept, part)?;
    let figures = figures_after_each(
        alloc,
        kept.sums.slice(),
        kept.joined.slice(),
        &starts.outages,
    )?;
    list_findings(alloc, before, &starts.ends, &figures)
}
