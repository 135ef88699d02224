// A network before outages, and its figures after each of them.
ghost use Rattle.std.specs.Prelude.{◌≡◌, ◌+◌, ◌<◌, ◌≤◌, ◌^◌, [], map, length, All, IfOk, slice_get, slice_index};
ghost use Rattle.std.specs.List.Sorted.{IsStrictlyIncreasing};
ghost use Rattle.grid_figures.specs.Outages as outages;
ghost use Rattle.grid_figures.specs.Outages.{sums_before, sums_under, pairs_under, OutageFits, AreFiguresUnder};
ghost use Rattle.grid_figures.specs.Networks.{IsNext, AreNexts, IsKept, has_kept, is_free, is_filled, has_buses};
ghost use Rattle.grid_figures.specs.Seen.{IsMain, IsSeenUnder};

use crate::layout::narrow;
use crate::seats::find_changed;
use crate::totals::{Totals, total_kept, total_under};
use crate::{BusAt, ChangedSums, Figures, Outage};
use grid_ids::{Memory, Seq};
use grid_unions::{Found, Sums};
use std::alloc::Global;

/// A network before outages.
#[derive(Drop)]
pub(crate) struct Network<'a> {
    /// The sums of the buses of each level.
    pub kept: &'a [Seq<Sums>],
    /// The links between buses.
    pub links: &'a [(BusAt, BusAt)],
    /// How many numbers there are in the graphs of all outages.
    pub numbers: u32,
    /// The totals of all buses.
    pub totals: Totals,
    /// For each level, and past the last one, the next level from it on that has buses, or the count of levels.
    pub nexts: Vec<u32>,
}

/// How many buses a component has, and their sums.
#[derive(Clone, Copy)]
struct Main {
    count: u32,
    sums: Sums,
}

// The next level from one on that has buses, or the count of levels, where that from the level after it is known.
fn next_from(kept: &[Seq<Sums>], nexts: &[u32], level: usize) -> u32
    requires few { length kept.now < 2 ^ 32 }
    requires there { level < length kept.now }
    requires long { length nexts.now ≡ length kept.now + 1 }
    requires later { IsNext (has_kept kept.now) (length kept.now) (level + 1) (slice_index nexts.now (level + 1)) }
    ensures { IsNext (has_kept kept.now) (length kept.now) level result }
{
    if kept[level].len() > 0 {
        level as u32
    } else {
        nexts[level + 1]
    }
}

// For each level, and past the last one, the next level from it on that has buses, or the count of levels.
fn list_nexts(alloc: Global, kept: &[Seq<Sums>]) -> Result<Vec<u32>, Memory>
    ensures { IfOk result (λ nexts. AreNexts kept.now nexts.items) }
{
    let count = narrow(kept.len())?;
    let mut nexts = vec![in alloc; count; kept.len() + 1]?;
    let mut level = kept.len();
    while level > 0 {
        level -= 1;
        nexts[level] = next_from(kept, &nexts, level);
    }
    Ok(nexts)
}

// The first level that is changed and has buses then, or the count of levels.
fn first_filled(levels: &[ChangedSums], count: usize) -> usize
    requires rising { IsStrictlyIncreasing (map (λ c. c.level) levels.now) }
    requires levels { All (λ c. c.level < count) levels.now }
    ensures { IsNext (is_filled levels.now) count 0 result }
{
    for changed in levels {
        if changed.sums.len() > 0 {
            return changed.level as usize;
        }
    }
    count
}

// How many components so many buses have, in a graph with so many classes and numbers: each other number is a class.
fn components_of(classes: u32, numbers: u32, buses: u32) -> u32
    requires few { buses ≤ numbers }
    requires classes { numbers ≤ classes + buses }
    ensures { result + numbers ≡ classes + buses }
{
    classes - (numbers - buses)
}

impl<'a> Network<'a> {
    /// A network of these buses and links, in whose graphs there are so many numbers.
    pub(crate) fn of(
        alloc: Global,
        kept: &'a [Seq<Sums>],
        links: &'a [(BusAt, BusAt)],
        numbers: u32,
    ) -> Result<Network<'a>, Memory>
        ensures right { IfOk result IsKept }
        ensures kept { IfOk result (λ network. network.kept.now ≡ kept.now) }
        ensures links { IfOk result (λ network. network.links.now ≡ links.now) }
        ensures numbers { IfOk result (λ network. network.numbers ≡ numbers) }
    {
        Ok(Network {
            kept,
            links,
            numbers,
            totals: total_kept(kept)?,
            nexts: list_nexts(alloc, kept)?,
        })
    }

    // The first level that has kept buses and is not changed, or the count of levels.
    fn first_free(&self, levels: &[ChangedSums]) -> usize
        requires kept { IsKept self.now }
        requires rising { IsStrictlyIncreasing (map (λ c. c.level) levels.now) }
        requires levels { All (λ c. c.level < length self.now.kept.now) levels.now }
        ensures { IsNext (is_free self.now.kept.now levels.now) (length self.now.kept.now) 0 result }
    {
        let mut level = self.nexts[0];
        for changed in levels {
            if changed.level == level {
                level = self.nexts[level as usize + 1];
            }
        }
        level as usize
    }

    // The first level that has buses where these levels are changed, or the count of levels.
    fn first_level(&self, levels: &[ChangedSums]) -> usize
        requires kept { IsKept self.now }
        requires rising { IsStrictlyIncreasing (map (λ c. c.level) levels.now) }
        requires levels { All (λ c. c.level < length self.now.kept.now) levels.now }
        ensures { IsNext (has_buses self.now.kept.now levels.now) (length self.now.kept.now) 0 result }
    {
        let free = self.first_free(levels);
        let filled = first_filled(levels, self.kept.len());
        free.min(filled)
    }

    // The sums of a level's buses where these levels are changed.
    fn level_sums<'b>(&'b self, levels: &'b [ChangedSums], level: usize) -> &'b [Sums]
        requires rising { IsStrictlyIncreasing (map (λ c. c.level) levels.now) }
        requires there { level < length self.now.kept.now }
        ensures { result.now ≡ outages.level_sums self.now.kept.now levels.now level }
    {
        match find_changed(levels, level) {
            Some(place) => levels[place].sums.slice(),
            None => self.kept[level].slice(),
        }
    }

    // The sums of the first bus where these levels are changed, if there is a bus.
    fn first_bus(&self, levels: &[ChangedSums]) -> Option<Sums>
        requires kept { IsKept self.now }
        requires rising { IsStrictlyIncreasing (map (λ c. c.level) levels.now) }
        requires levels { All (λ c. c.level < length self.now.kept.now) levels.now }
        ensures { result ≡ slice_get
            (sums_before self.now.kept.now levels.now (length self.now.kept.now)) 0 }
    {
        let level = self.first_level(levels);
        if level < self.kept.len() {
            self.level_sums(levels, level).first().copied()
        } else {
            None
        }
    }

    // The main component under an outage.
    fn main_under(&self, outage: &Outage, found: &Found) -> Main
        requires kept { IsKept self.now }
        requires fits { OutageFits self.now.kept.now self.now.links.now outage.now }
        requires seen { IsSeenUnder self.now.kept.now self.now.links.now self.now.numbers outage.now found.now }
        ensures { IsMain (length (sums_under self.now.kept.now outage.now))
            (sums_under self.now.kept.now outage.now)
            (pairs_under self.now.kept.now self.now.links.now outage.now) result.count result.sums }
    {
        if found.size > 1 {
            return Main {
                count: found.size,
                sums: found.sums,
            };
        }
        match self.first_bus(outage.levels.slice()) {
            Some(sums) => Main { count: 1, sums },
            None => Main {
                count: 0,
                sums: Sums {
                    load: 0,
                    generation: 0,
                },
            },
        }
    }

    /// The figures after an outage, by what was found of its graph.
    pub(crate) fn figures_after(&self, outage: &Outage, found: &Found) -> Result<Figures, Memory>
        requires kept { IsKept self.now }
        requires fits { OutageFits self.now.kept.now self.now.links.now outage.now }
        requires seen { IsSeenUnder self.now.kept.now self.now.links.now self.now.numbers outage.now found.now }
        ensures { IfOk result (AreFiguresUnder self.now.kept.now self.now.links.now outage.now) }
    {
        let totals = total_under(self.kept, self.totals, outage.levels.slice())?;
        let main = self.main_under(outage, found);
        Ok(Figures {
            buses: totals.buses,
            components: components_of(found.classes, self.numbers, totals.buses),
            main: main.count,
            load: main.sums.load,
            generation: main.sums.generation,
            total_load: totals.load,
            total_generation: totals.generation,
        })
    }
}
