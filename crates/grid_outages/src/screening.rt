// What the levels and branches of a network give to the figures after every outage, made once.
ghost use Rattle.std.specs.Prelude.{◌≡◌, ◌++◌, ◌<◌, IfOk, OnOk, length, map, flat_map};
ghost use Rattle.grid_structure.specs.Sites.{levels};
ghost use Rattle.grid_islands.specs.Numbering.{FlagsFit};
ghost use Rattle.grid_outages.specs.Changes as screened;
ghost use Rattle.grid_outages.specs.Tables.{end_places};
ghost use Rattle.grid_outages.specs.Effects.{joined_of, levels_of, levels_at, LevelsFit, IsWhole};
ghost use Rattle.grid_outages.specs.Changes.{level_sums, level_places, branch_links, link_between, network_links, LinksFit};

use crate::table::{Table, places_by_level};
use grid_busview::BusPlaces;
use grid_figures::BusAt;
use grid_ids::{Memory, Seq};
use grid_islands::number_of_node;
use grid_powers::Powers;
use grid_states::States;
use grid_structure::{Branch, BranchEnds, End, Structure};
use grid_sums::level_buses;
use grid_unions::Sums;
use std::alloc::Global;

/// An end of a branch: the place of its level, its node, and the place of the bus that holds it among the level's
/// buses.
#[derive(Clone, Copy, Debug, PartialEq, Eq)]
pub struct EndBus {
    pub level: u32,
    pub node: i64,
    pub bus: Option<u32>,
}

/// Two ends of a branch.
#[derive(Clone, Copy, Debug, PartialEq, Eq)]
pub struct Link {
    pub first: EndBus,
    pub second: EndBus,
}

/// What is kept of a network for every outage.
#[derive(Drop)]
pub struct Screening {
    /// For each level by place the sums of its buses, by rising least node.
    pub sums: Seq<Seq<Sums>>,
    /// Each two ends of each branch.
    pub links: Seq<Link>,
    /// Those of them that join two buses.
    pub joined: Seq<(BusAt, BusAt)>,
    /// For each level the places of the links with an end there.
    pub ends: Table,
    /// For each level the places of those that join two buses with an end there.
    pub joined_ends: Table,
}

/// The buses of all levels, by place: for each node the place of the bus that holds it, and the sums of each.
#[derive(Drop)]
struct AllBuses {
    places: Seq<BusPlaces>,
    sums: Seq<Seq<Sums>>,
}

// Looks at each level.
fn look_at_levels(
    alloc: Global,
    structure: &Structure,
    states: &States,
    powers: &Powers,
) -> Result<AllBuses, Memory>
    requires rows { length states.now.opened ≡ length (levels structure.now) }
    requires flags { FlagsFit structure.now states.now.opened }
    ensures places { IfOk result (λ all. all.places
        ≡ level_places (levels structure.now) states.now.opened) }
    ensures sums { IfOk result (λ all. all.sums
        ≡ level_sums powers.now.listed (levels structure.now) states.now.opened) }
{
    let mut places = Seq::empty(alloc);
    let mut sums = Seq::empty(alloc);
    for place in 0..structure.level_count() {
        let seen = level_buses(
            alloc,
            structure.level(place),
            states.opened_row(place),
            powers,
        )?;
        places.push(seen.places)?;
        sums.push(seen.sums)?;
    }
    Ok(AllBuses { places, sums })
}

// An end of a branch, where its level is there.
#[tactic(auto, unfolding(crate::specs::Changes::spot_of))]
fn spot_of(structure: &Structure, rows: &[BusPlaces], end: &End) -> Option<EndBus>
    requires { length rows.now ≡ length (levels structure.now) }
    ensures { result ≡ screened.spot_of structure.now rows.now end.now }
{
    let level = match structure.find_level(&end.level) {
        Some(level) => level,
        None => return None,
    };
    Some(EndBus {
        level,
        node: end.node,
        bus: number_of_node(
            structure.level(level),
            rows[level as usize].slice(),
            end.node,
        ),
    })
}

// Puts two ends last, where both levels are there.
#[tactic(auto, unfolding(crate::specs::Changes::link_between))]
fn push_link(
    links: &mut Seq<Link>,
    structure: &Structure,
    rows: &[BusPlaces],
    end1: &End,
    end2: &End,
) -> Result<(), Memory>
    requires { length rows.now ≡ length (levels structure.now) }
    ensures { OnOk result (links.new
        ≡ links.old
        ++ link_between (screened.spot_of structure.now rows.now end1.now)
        (screened.spot_of structure.now rows.now end2.now)) }
{
    let first = spot_of(structure, rows, end1);
    let second = spot_of(structure, rows, end2);
    match (first, second) {
        (Some(first), Some(second)) => links.push(Link { first, second }),
        _ => Ok(()),
    }
}

// Puts each two ends of a branch last.
fn push_branch(
    links: &mut Seq<Link>,
    structure: &Structure,
    rows: &[BusPlaces],
    branch: &Branch,
) -> Result<(), Memory>
    requires { length rows.now ≡ length (levels structure.now) }
    ensures { OnOk result (links.new
        ≡ links.old ++ branch_links structure.now rows.now branch.now) }
{
    let BranchEnds { end1, end2, end3 } = branch.ends();
    push_link(links, structure, rows, end1, end2)?;
    if let Some(end3) = end3 {
        push_link(links, structure, rows, end1, end3)?;
        push_link(links, structure, rows, end2, end3)?;
    }
    Ok(())
}

// Each two ends of each branch.
fn list_links(alloc: Global, structure: &Structure, rows: &[BusPlaces]) -> Result<Seq<Link>, Memory>
    requires { length rows.now ≡ length (levels structure.now) }
    ensures { IfOk result (λ links. links ≡ network_links structure.now rows.now) }
{
    let mut links = Seq::empty(alloc);
    for place in 0..structure.branch_count() {
        push_branch(&mut links, structure, rows, structure.branch(place))?;
    }
    Ok(links)
}

// Puts a link last, where there is a bus at both ends.
#[tactic(auto, unfolding(crate::specs::Effects::joined_of))]
fn push_joined(joined: &mut Seq<(BusAt, BusAt)>, link: &Link) -> Result<(), Memory>
    ensures { OnOk result (joined.new ≡ joined.old ++ joined_of link.now) }
{
    let (Some(first), Some(second)) = (link.first.bus, link.second.bus) else {
        return Ok(());
    };
    let (level, bus) = (link.first.level, first);
    let first = BusAt { level, bus };
    let (level, bus) = (link.second.level, second);
    joined.push((first, BusAt { level, bus }))
}

// The links that join two buses.
fn list_joined(alloc: Global, links: &[Link]) -> Result<Seq<(BusAt, BusAt)>, Memory>
    ensures { IfOk result (λ joined. joined ≡ flat_map joined_of links.now) }
{
    let mut joined = Seq::empty(alloc);
    for link in links {
        push_joined(&mut joined, link)?;
    }
    Ok(joined)
}

// The levels of the ends of links.
fn link_levels(alloc: Global, links: &[Link]) -> Result<Vec<(u32, u32)>, Memory>
    ensures { IfOk result (λ levels. levels.items ≡ map levels_of links.now) }
{
    let mut levels = Vec::with_capacity(alloc, links.len())?;
    for link in links {
        levels.push((link.first.level, link.second.level))?;
    }
    Ok(levels)
}

// The levels of the ends of joined links.
fn joined_levels(alloc: Global, joined: &[(BusAt, BusAt)]) -> Result<Vec<(u32, u32)>, Memory>
    ensures { IfOk result (λ levels. levels.items ≡ map levels_at joined.now) }
{
    let mut levels = Vec::with_capacity(alloc, joined.len())?;
    for link in joined {
        levels.push((link.0.level, link.1.level))?;
    }
    Ok(levels)
}

// For each level the places of the links with an end there.
fn list_ends(alloc: Global, count: u32, links: &[Link]) -> Result<Table, Memory>
    requires { LinksFit count links.now }
    ensures { IfOk result (λ ends. ends ≡ end_places count (map levels_of links.now)) }
{
    let levels = link_levels(alloc, links)?;
    places_by_level(alloc, count, &levels)
}

// For each level the places of the joined links with an end there.
fn list_joined_ends(alloc: Global, count: u32, joined: &[(BusAt, BusAt)]) -> Result<Table, Memory>
    requires { LevelsFit count joined.now }
    ensures { IfOk result (λ ends. ends ≡ end_places count (map levels_at joined.now)) }
{
    let levels = joined_levels(alloc, joined)?;
    places_by_level(alloc, count, &levels)
}

/// What a network gives whose switches have these flags `opened`, under these watts. The time is that of a view of each
/// level and of a look-up for each end of a branch.
pub fn make_screening(
    alloc: Global,
    structure: &Structure,
    states: &States,
    powers: &Powers,
) -> Result<Screening, Memory>
    requires rows { length states.now.opened ≡ length (levels structure.now) }
    requires flags { FlagsFit structure.now states.now.opened }
    ensures sums { IfOk result (λ kept. kept.sums
        ≡ level_sums powers.now.listed (levels structure.now) states.now.opened) }
    ensures links { IfOk result (λ kept. kept.links
        ≡ network_links structure.now (level_places (levels structure.now) states.now.opened)) }
    ensures whole { IfOk result IsWhole }
{
    let all = look_at_levels(alloc, structure, states, powers)?;
    let links = list_links(alloc, structure, all.places.slice())?;
    let joined = list_joined(alloc, links.slice())?;
    let count = structure.level_count();
    let ends = list_ends(alloc, count, links.slice())?;
    let joined_ends = list_joined_ends(alloc, count, joined.slice())?;
    Ok(Screening {
        sums: all.sums,
        links,
        joined,
        ends,
        joined_ends,
    })
}
