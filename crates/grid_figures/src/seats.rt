// The numbers of links' ends, and what the graph of each outage has of its own.
ghost use Rattle.std.specs.Prelude.{◌≡◌, ◌+◌, ◌<◌, ◌^◌, ℕ, [], false, length, map, slice_index, slice_index_or};
ghost use Rattle.std.specs.Prelude.{All, IfOk, MatchOption};
ghost use Rattle.std.specs.List.Sorted.{IsStrictlyIncreasing};
ghost use Rattle.grid_figures.specs.Layouts as layouts;
ghost use Rattle.grid_figures.specs.Layouts.{part_at, changed_parts, first_part, seats_of};
ghost use Rattle.grid_figures.specs.Layouts.{HasSeat, HaveSeats, IsChangeOf};
ghost use Rattle.grid_figures.specs.Outages.{is_changed};
ghost use Rattle.grid_figures.specs.declared.outage.Outage.{Outage};
ghost use Rattle.grid_unions.specs.declared.sweeps.Change.{Change};

use crate::{BusAt, ChangedSums, Outage};
use grid_ids::{Duplicate, Memory, Seq};
use grid_unions::Change;
use std::alloc::Global;

/// The place of a level among those that an outage changes.
pub(crate) fn find_changed(levels: &[ChangedSums], level: usize) -> Option<usize>
    requires { IsStrictlyIncreasing (map (λ c. c.level) levels.now) }
    ensures { MatchOption result (is_changed levels.now level ≡ false)
        (λ place. (place < length levels.now) × ((part_at levels.now place).level ≡ level)) }
{
    match levels.binary_search_by_key(&level, |changed| changed.level as usize) {
        Ok(place) => Some(place),
        Err(_) => None,
    }
}

// The part of a level under an outage whose own parts begin at a place.
fn part_of(first: usize, levels: &[ChangedSums], level: usize) -> usize
    requires rising { IsStrictlyIncreasing (map (λ c. c.level) levels.now) }
    requires few { layouts.part_of first levels.now level < 2 ^ 64 }
    ensures { result ≡ layouts.part_of first levels.now level }
{
    match find_changed(levels, level) {
        Some(place) => first + place,
        None => level,
    }
}

// The number of a bus.
#[tactic(auto, unfolding(crate::specs::Layouts::seat_of))]
fn seat_of(starts: &[u32], first: usize, levels: &[ChangedSums], at: BusAt) -> u32
    requires rising { IsStrictlyIncreasing (map (λ c. c.level) levels.now) }
    requires seat { HasSeat starts.now first levels.now at }
    ensures { result ≡ layouts.seat_of starts.now first levels.now at }
{
    starts[part_of(first, levels, at.level as usize)] + at.bus
}

/// The numbers of both ends of each link.
pub(crate) fn seat_links(
    alloc: Global,
    starts: &[u32],
    first: usize,
    levels: &[ChangedSums],
    links: &[(BusAt, BusAt)],
) -> Result<Seq<(u32, u32)>, Memory>
    requires rising { IsStrictlyIncreasing (map (λ c. c.level) levels.now) }
    requires seats { HaveSeats starts.now first levels.now links.now }
    ensures { IfOk result (λ pairs. pairs ≡ map (seats_of starts.now first levels.now) links.now) }
{
    let mut pairs = Vec::with_capacity(alloc, links.len())?;
    for (one, other) in links {
        pairs.push((
            seat_of(starts, first, levels, *one),
            seat_of(starts, first, levels, *other),
        ))?;
    }
    Ok(Seq::from_vec(pairs))
}

// What the graph of an outage has of its own.
fn change_of(alloc: Global, starts: &[u32], first: usize, outage: &Outage) -> Result<Change, Memory>
    requires rising { IsStrictlyIncreasing (map (λ c. c.level) outage.now.levels) }
    requires seats { HaveSeats starts.now first outage.now.levels outage.now.own }
    ensures { IfOk result (IsChangeOf starts.now first outage.now) }
{
    Ok(Change {
        gone: outage.gone.copy()?,
        own: seat_links(
            alloc,
            starts,
            first,
            outage.levels.slice(),
            outage.own.slice(),
        )?,
    })
}

/// What the graph of each outage has of its own, where the parts of the first one begin at a place.
pub(crate) fn list_changes(
    alloc: Global,
    starts: &[u32],
    first: usize,
    outages: &[Outage],
) -> Result<Vec<Change>, Memory>
    requires rising { All (λ outage. IsStrictlyIncreasing (map (λ c. c.level) outage.levels)) outages.now }
    requires parts { first + length (changed_parts outages.now) < 2 ^ 64 }
    requires seats { (i : ℕ) (d : Outage) → i < length outages.now
        → HaveSeats starts.now (first_part first outages.now i) (slice_index_or outages.now i d).levels
        (slice_index_or outages.now i d).own }
    ensures long { IfOk result (λ changes. length changes.items ≡ length outages.now) }
    ensures each { IfOk result (λ changes. (i : ℕ) (d : Outage) (e : Change) → i < length outages.now
        → IsChangeOf starts.now (first_part first outages.now i) (slice_index_or outages.now i d)
        (slice_index_or changes.items i e)) }
{
    let mut changes = Vec::with_capacity(alloc, outages.len())?;
    let mut place = first;
    for outage in outages {
        changes.push(change_of(alloc, starts, place, outage)?)?;
        place += outage.levels.len();
    }
    Ok(changes)
}
