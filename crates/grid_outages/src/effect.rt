// What an outage is to the figures: the sums of changed levels, the links that are gone, and the links of its own.
ghost use Rattle.std.specs.Prelude.{◌≡◌, ◌++◌, [], IfOk, OnOk, length, map, flat_map};
ghost use Rattle.std.specs.List.{slice_index_or};
ghost use Rattle.grid_figures.specs.Outages.{OutageFits};
ghost use Rattle.grid_islands.specs.Numbering.{node_within};
ghost use Rattle.grid_sparse.specs.Options.{present};
ghost use Rattle.grid_outages.specs.Changes as screened;
ghost use Rattle.grid_outages.specs.Changes.{change_at, place_in};
ghost use Rattle.grid_outages.specs.Effects.{joined_under, IsWhole, ChangesFit, IsEffect};
ghost use Rattle.grid_outages.specs.Parts.{changed_part, row_of, own_at, own_among};

use crate::outage::{Changed, Changes};
use crate::screening::{EndBus, Link, Screening};
use grid_figures::{BusAt, ChangedSums, Outage};
use grid_ids::{Memory, Seq};
use grid_islands::number_of_node;
use grid_unions::Sums;
use std::alloc::Global;

// A copy of these sums.
fn copy_sums(alloc: Global, sums: &[Sums]) -> Result<Seq<Sums>, Memory>
    ensures { IfOk result (λ copy. copy ≡ sums.now) }
{
    match Vec::from_slice(alloc, sums) {
        Ok(copy) => Ok(Seq::from_vec(copy)),
        Err(_) => Err(Memory),
    }
}

// The sums of the levels that have changed.
fn list_changed(alloc: Global, changes: &Changes<'_>) -> Result<Seq<ChangedSums>, Memory>
    ensures { IfOk result (λ levels. levels ≡ map changed_part (present changes.now)) }
{
    let mut levels = Seq::empty(alloc);
    for (place, changed) in changes.iter() {
        levels.push(ChangedSums {
            level: *place,
            sums: copy_sums(alloc, changed.sums.slice())?,
        })?;
    }
    Ok(levels)
}

// The places that a table has for a level.
fn row_at(table: &[Seq<u32>], level: u32) -> &[u32]
    ensures { result.now ≡ slice_index_or table.now level [] }
{
    match table.get(level as usize) {
        Some(row) => row.slice(),
        None => &[],
    }
}

// Puts these places last.
fn push_all(places: &mut Seq<u32>, more: &[u32]) -> Result<(), Memory>
    ensures { OnOk result (places.new ≡ places.old ++ more.now) }
{
    for place in more {
        places.push(*place)?;
    }
    Ok(())
}

// The places that a table has for the levels that have changed.
fn list_gone(alloc: Global, table: &[Seq<u32>], changes: &Changes<'_>) -> Result<Seq<u32>, Memory>
    ensures { IfOk result (λ gone. gone ≡ flat_map (row_of table.now) (present changes.now)) }
{
    let mut gone = Seq::empty(alloc);
    for (place, _changed) in changes.iter() {
        push_all(&mut gone, row_at(table, *place))?;
    }
    Ok(gone)
}

// The place of the bus at a node of a changed level, where a terminal still stands there.
#[tactic(auto, unfolding(crate::specs::Changes::place_among, grid_islands::specs::Numbering::node_within))]
fn place_among(changed: &Changed<'_>, node: i64) -> Option<u32>
    ensures { result ≡ screened.place_among changed.now (node_within node) node }
{
    let number = match u16::try_from(node) {
        Ok(number) => number,
        Err(_) => return None,
    };
    let level = changed.level.level();
    level.placed_at(number)?;
    number_of_node(level, changed.places.slice(), node)
}

// The place of the bus at an end of a branch, among the buses of its level.
fn place_at(changes: &Changes<'_>, spot: &EndBus) -> Option<u32>
    ensures { result ≡ place_in (change_at changes.now spot.now.level) spot.now }
{
    match changes.get(spot.level) {
        Some(changed) => place_among(changed, spot.node),
        None => spot.bus,
    }
}

// Puts a link last, where there is a bus at both ends under the changes.
#[tactic(auto, unfolding(crate::specs::Effects::joined_under))]
fn push_joined(
    own: &mut Seq<(BusAt, BusAt)>,
    changes: &Changes<'_>,
    link: &Link,
) -> Result<(), Memory>
    ensures { OnOk result (own.new ≡ own.old ++ joined_under changes.now link.now) }
{
    let Some(bus) = place_at(changes, &link.first) else {
        return Ok(());
    };
    let level = link.first.level;
    let first = BusAt { level, bus };
    let Some(bus) = place_at(changes, &link.second) else {
        return Ok(());
    };
    let level = link.second.level;
    own.push((first, BusAt { level, bus }))
}

// Puts those of the links at some places last that have a bus at both ends under the changes.
fn push_own(
    own: &mut Seq<(BusAt, BusAt)>,
    changes: &Changes<'_>,
    links: &[Link],
    places: &[u32],
) -> Result<(), Memory>
    ensures { OnOk result (own.new ≡ own.old ++ own_among links.now changes.now places.now) }
{
    for place in places {
        let Some(link) = links.get(*place as usize) else {
            continue;
        };
        push_joined(own, changes, link)?;
    }
    Ok(())
}

// The links with an end at a changed level that have a bus at both ends then.
fn list_own(
    alloc: Global,
    kept: &Screening,
    changes: &Changes<'_>,
) -> Result<Seq<(BusAt, BusAt)>, Memory>
    ensures { IfOk result (λ own. own
        ≡ flat_map (own_at kept.now.links kept.now.ends changes.now) (present changes.now)) }
{
    let mut own = Seq::empty(alloc);
    for (place, _changed) in changes.iter() {
        let places = row_at(kept.ends.slice(), *place);
        push_own(&mut own, changes, kept.links.slice(), places)?;
    }
    Ok(own)
}

/// What changes of levels are to the figures. The time is that of the links with an end at a changed level, and of the
/// buses there.
pub fn outage_of(alloc: Global, kept: &Screening, changes: &Changes<'_>) -> Result<Outage, Memory>
    requires kept { IsWhole kept.now }
    requires changes { ChangesFit kept.now changes.now }
    ensures fits { IfOk result (OutageFits kept.now.sums kept.now.joined) }
    ensures effect { IfOk result (IsEffect kept.now changes.now) }
{
    Ok(Outage {
        levels: list_changed(alloc, changes)?,
        gone: list_gone(alloc, kept.joined_ends.slice(), changes)?,
        own: list_own(alloc, kept, changes)?,
    })
}
