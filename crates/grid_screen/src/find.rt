//! The figures of a case, and what is found of one contingency.

ghost use Rattle.std.specs.Prelude.{◌≡◌, ◌+ℤ◌, neg_ℤ, true, false, IfOk};
ghost use Rattle.grid_screen.specs.Findings.{CaseFits, AreFigures};
ghost use Rattle.grid_screen.specs.Found as found;
ghost use Rattle.grid_screen.specs.Found.{IsFinding};
ghost use Rattle.grid_screen.specs.Kept.{IsKeptOf, IsOutageOf, AreFiguresWithout};
ghost use Rattle.grid_screen.specs.Starts.{StartsEffect, IsStart, finding_from};
ghost use Rattle.grid_figures.specs.Outages.{OutageFits, AreFiguresUnder};
ghost use Rattle.grid_outages.specs.Effects.{IsWhole};

use crate::amiss::find_amiss;
use crate::clearing::clear;
use crate::faults::Breakers;
use crate::{Figures, Finding, Losses};
use grid_contingencies::{Contingency, FaultCase};
use grid_core::Case;
use grid_figures::{Outage, figures_after_each};
use grid_ids::{Duplicate, Id, Memory};
use grid_outages::{Screening, find_changes, make_screening, outage_of};
use grid_structure::SwitchAt;
use std::alloc::Global;

/// What a case gives for every outage.
pub(crate) fn screening_of(alloc: Global, case: &Case) -> Result<Screening, Memory>
    requires { CaseFits case.now }
    ensures { IfOk result (IsKeptOf case.now) }
{
    let kept = make_screening(alloc, &case.structure, &case.states, &case.powers)?;
    Ok(kept)
}

/// What it is to the figures that these ids are out. The time is that of a view of each level that an id touches, and
/// of its links: no other level is looked at again.
pub(crate) fn outage_without(
    alloc: Global,
    case: &Case,
    kept: &Screening,
    ids: &[Id],
) -> Result<Outage, Memory>
    requires fits { CaseFits case.now }
    requires kept { IsKeptOf case.now kept.now }
    ensures { IfOk result (IsOutageOf case.now kept.now ids.now) }
{
    case.structure.keeps();
    let changes = find_changes(alloc, &case.structure, &case.states, &case.powers, ids)?;
    let outage = outage_of(alloc, kept, &changes)?;
    Ok(outage)
}

// The figures after an outage.
fn figures_after(alloc: Global, kept: &Screening, outage: Outage) -> Result<Figures, Memory>
    requires kept { IsWhole kept.now }
    requires outage { OutageFits kept.now.sums kept.now.joined outage }
    ensures { IfOk result (AreFiguresUnder kept.now.sums kept.now.joined outage) }
{
    let outages = [outage];
    let figures = figures_after_each(alloc, kept.sums.slice(), kept.joined.slice(), &outages)?;
    match figures.first() {
        Some(figures) => Ok(*figures),
        None => Err(Memory),
    }
}

/// The figures of a case after these ids are out.
pub(crate) fn figures_without(
    alloc: Global,
    case: &Case,
    kept: &Screening,
    ids: &[Id],
) -> Result<Figures, Memory>
    requires fits { CaseFits case.now }
    requires kept { IsKeptOf case.now kept.now }
    ensures { IfOk result (AreFiguresWithout case.now ids.now) }
{
    let outage = outage_without(alloc, case, kept, ids)?;
    figures_after(alloc, kept, outage)
}

// A sum before less one after. It is out of memory, too, where that would not fit its type.
fn less(before: i128, after: i128) -> Result<i128, Memory>
    ensures { IfOk result (λ lost. lost ≡ before +ℤ neg_ℤ after) }
{
    match before.checked_sub(after) {
        Some(lost) => Ok(lost),
        None => Err(Memory),
    }
}

// What is lost.
#[tactic(auto, unfolding(crate::specs::Found::losses_of))]
fn losses_of(before: &Figures, after: &Figures) -> Result<Losses, Memory>
    ensures { IfOk result (λ losses. losses ≡ found.losses_of before.now after.now) }
{
    Ok(Losses {
        load: less(before.load, after.load)?,
        generation: less(before.generation, after.generation)?,
        unconnected_load: less(before.total_load, after.total_load)?,
        unconnected_generation: less(before.total_generation, after.total_generation)?,
    })
}

// The effect of an outage, with the breakers that tripped where there is a fault.
#[tactic(auto, unfolding(crate::specs::Found::effect_of))]
fn effect_of(before: &Figures, after: Figures, tripped: Option<Breakers>) -> Result<Finding, Memory>
    ensures { IfOk result (λ finding. finding ≡ found.effect_of before.now after tripped) }
{
    let losses = losses_of(before, &after)?;
    Ok(Finding::Effect {
        after,
        losses,
        tripped,
    })
}

/// How a finding is made of the figures after an outage.
#[derive(Drop)]
pub(crate) enum End {
    /// It is this one, whatever they are.
    Amiss(Finding),
    /// It is the effect, with the breakers that tripped where there is a fault.
    Effect(Option<Breakers>),
}

/// An outage, and how a finding is made of the figures after it.
#[derive(Drop)]
pub(crate) struct Start {
    pub outage: Outage,
    pub end: End,
}

// What is out.
fn start_outage(
    alloc: Global,
    case: &Case,
    kept: &Screening,
    event: &FaultCase,
) -> Result<Start, Memory>
    requires fits { CaseFits case.now }
    requires kept { IsKeptOf case.now kept.now }
    ensures { IfOk result (StartsEffect case.now kept.now event.now false) }
{
    Ok(Start {
        outage: outage_without(alloc, case, kept, event.out.slice())?,
        end: End::Effect(None),
    })
}

// A fault that is cleared.
fn start_cleared(
    alloc: Global,
    case: &Case,
    kept: &Screening,
    event: &FaultCase,
) -> Result<Start, Memory>
    requires fits { CaseFits case.now }
    requires kept { IsKeptOf case.now kept.now }
    ensures { IfOk result (StartsEffect case.now kept.now event.now true) }
{
    let cleared = clear(alloc, case, event, event.out.copy()?)?;
    let outage = outage_without(alloc, case, kept, cleared.ids.slice())?;
    Ok(Start {
        outage,
        end: End::Effect(Some(cleared.tripped)),
    })
}

// A contingency in which no id is amiss.
fn start_effect(
    alloc: Global,
    case: &Case,
    kept: &Screening,
    contingency: &Contingency,
) -> Result<Start, Memory>
    requires fits { CaseFits case.now }
    requires kept { IsKeptOf case.now kept.now }
    ensures { IfOk result (StartsEffect case.now kept.now contingency.now.event contingency.now.has_fault) }
{
    if contingency.has_fault {
        return start_cleared(alloc, case, kept, &contingency.event);
    }
    start_outage(alloc, case, kept, &contingency.event)
}

/// What is found of a contingency, but for the figures after it. Where an id is amiss, nothing is out.
#[tactic(auto, unfolding(crate::specs::Found::found_of, crate::specs::Found::finding_of))]
pub(crate) fn start_of(
    alloc: Global,
    case: &Case,
    kept: &Screening,
    contingency: &Contingency,
) -> Result<Start, Memory>
    requires fits { CaseFits case.now }
    requires kept { IsKeptOf case.now kept.now }
    ensures { IfOk result (IsStart case.now kept.now contingency.now) }
{
    match find_amiss(&case.structure, &contingency.event)? {
        Some(amiss) => Ok(Start {
            outage: outage_without(alloc, case, kept, &[])?,
            end: End::Amiss(amiss),
        }),
        None => start_effect(alloc, case, kept, contingency),
    }
}

// A copy of these breakers.
fn copy_breakers(alloc: Global, breakers: &[SwitchAt]) -> Result<Breakers, Memory>
    ensures { IfOk result (λ copy. copy ≡ breakers.now) }
{
    match Vec::from_slice(alloc, breakers) {
        Ok(copy) => Ok(Breakers::from_vec(copy)),
        Err(_) => Err(Memory),
    }
}

/// The finding that the figures after an outage make.
pub(crate) fn finding_by(
    alloc: Global,
    before: &Figures,
    after: &Figures,
    end: &End,
) -> Result<Finding, Memory>
    ensures { IfOk result (λ finding. finding ≡ finding_from before.now after.now end.now) }
{
    match end {
        End::Amiss(finding) => Ok(finding.copy()?),
        End::Effect(None) => effect_of(before, *after, None),
        End::Effect(Some(tripped)) => {
            let tripped = copy_breakers(alloc, tripped.slice())?;
            effect_of(before, *after, Some(tripped))
        }
    }
}

/// The figures of a case, whose states have one row per level and one flag per switch of its structure.
pub fn figures(alloc: Global, case: &Case) -> Result<Figures, Memory>
    requires { CaseFits case.now }
    ensures { IfOk result (AreFigures case.now) }
{
    let kept = screening_of(alloc, case)?;
    figures_without(alloc, case, &kept, &[])
}

/// What is found of one contingency on a case with these figures. The ids of what is out, then of what is hit, then of
/// what is stuck are gone through in order: the first that is of no switch and of no equipment there, or that is stuck
/// and of no operable breaker, is told. Else it is the figures after the switches that are out are opened and the
/// equipment removed, and where there is a fault, when it is cleared then, with the breakers that tripped; and what is
/// lost. An id that comes again changes nothing. The case's states have one row per level and one flag per switch of
/// its structure. The rule is this project's own.
pub fn find_one(
    alloc: Global,
    case: &Case,
    before: &Figures,
    contingency: &Contingency,
) -> Result<Finding, Memory>
    requires fits { CaseFits case.now }
    requires before { AreFigures case.now before.now }
    ensures { IfOk result (IsFinding case.now contingency.now) }
{
    let kept = screening_of(alloc, case)?;
    let start = start_of(alloc, case, &kept, contingency)?;
    let after = figures_after(alloc, &kept, start.outage)?;
    finding_by(alloc, before, &after, &start.end)
}
