// The figures after each of many outages.
ghost use Rattle.std.specs.Prelude.{◌≡◌, ◌<◌, IfOk, All, [], length};
ghost use Rattle.std.specs.List.{AllZip};
ghost use Rattle.grid_figures.specs.Layouts.{parts_of, IsLaidOut};
ghost use Rattle.grid_figures.specs.Networks.{IsKept};
ghost use Rattle.grid_figures.specs.Outages.{OutageFits, LinksThere, AreFiguresUnder};
ghost use Rattle.grid_figures.specs.Seen.{IsSeenUnder};

use crate::layout::{Layout, lay_out, list_parts, narrow};
use crate::network::Network;
use crate::seats::{list_changes, seat_links};
use crate::{BusAt, Figures, Outage};
use grid_ids::{Memory, Seq};
use grid_unions::{Found, Sums, sweep};
use std::alloc::Global;

// What a sweep finds of the graphs of all outages.
fn find_each(
    alloc: Global,
    layout: &Layout,
    kept: &[Seq<Sums>],
    links: &[(BusAt, BusAt)],
    outages: &[Outage],
) -> Result<Vec<Found>, Memory>
    requires layout { IsLaidOut (parts_of kept.now outages.now) layout.now.starts.items layout.now.weights.items }
    requires links { LinksThere kept.now [] links.now }
    requires outages { All (OutageFits kept.now links.now) outages.now }
    ensures { IfOk result (λ found. AllZip
        (IsSeenUnder kept.now links.now (length layout.now.weights.items)) outages.now found.items) }
{
    let common = seat_links(alloc, &layout.starts, 0, &[], links)?;
    let changes = list_changes(alloc, &layout.starts, kept.len(), outages)?;
    sweep(alloc, &layout.weights, common.slice(), &changes)
}

// The figures after each outage, by what was found of the graphs.
fn list_figures(
    alloc: Global,
    network: &Network<'_>,
    outages: &[Outage],
    found: &[Found],
) -> Result<Vec<Figures>, Memory>
    requires kept { IsKept network.now }
    requires outages { All (OutageFits network.now.kept.now network.now.links.now) outages.now }
    requires found { AllZip (IsSeenUnder network.now.kept.now network.now.links.now network.now.numbers)
        outages.now found.now }
    ensures { IfOk result (λ figures. AllZip
        (AreFiguresUnder network.now.kept.now network.now.links.now) outages.now figures.items) }
{
    let mut figures = Vec::with_capacity(alloc, outages.len())?;
    for (place, outage) in outages.iter().enumerate() {
        figures.push(network.figures_after(outage, &found[place])?)?;
    }
    Ok(figures)
}

/// The figures of a network after each of these outages, in their order: `kept` has the sums of each level's buses, by
/// place, and each of `links` joins two of them.
///
/// After an outage the buses of a level that it changes are its own, and those of the other levels are kept; they are
/// numbered level by level. The links whose places are gone join nothing; of the others no end is in a level that it
/// changes; and its own links join buses that are there after it.
///
/// The time is that of all buses and links, once, with that of what each outage changes, times a logarithm. It is out
/// of memory, too, where the kept buses and those of all changed levels, with one number more, are 2^32 or more, or
/// where a sum would not fit its type.
pub fn figures_after_each(
    alloc: Global,
    kept: &[Seq<Sums>],
    links: &[(BusAt, BusAt)],
    outages: &[Outage],
) -> Result<Vec<Figures>, Memory>
    requires links { LinksThere kept.now [] links.now }
    requires outages { All (OutageFits kept.now links.now) outages.now }
    ensures { IfOk result (λ figures. AllZip (AreFiguresUnder kept.now links.now) outages.now figures.items) }
{
    let parts = list_parts(alloc, kept, outages)?;
    let layout = lay_out(alloc, &parts)?;
    let found = find_each(alloc, &layout, kept, links, outages)?;
    let numbers = narrow(layout.weights.len())?;
    let network = Network::of(alloc, kept, links, numbers)?;
    list_figures(alloc, &network, outages, &found)
}
