// Where the ends of branches stand, and the buses there.
ghost use Rattle.std.specs.Prelude.{◌≡◌, IfOk, length, map, option_and_then};
ghost use Rattle.grid_islands.specs.Spots as spots;
ghost use Rattle.grid_islands.specs.Kept.{IsSpotted};
ghost use Rattle.grid_islands.specs.Spots.{NumbersFit};

use crate::kept::KeptLevel;
use crate::level_ends::LevelEnds;
use crate::pairs::node_index;
use grid_ids::{Memory, Seq};
use grid_structure::{Branch, BranchEnds, End, Structure};
use std::alloc::Global;

/// Where an end of a branch stands.
#[derive(Clone, Copy)]
pub(crate) struct Spot {
    /// The place of its level.
    pub(crate) level: u32,
    /// The place of its node among the level's nodes.
    pub(crate) node: u32,
}

/// Where the ends of a branch stand: none for an end whose level or node there is not, or for a third end that there is
/// not.
#[derive(Clone, Copy)]
pub(crate) struct BranchSpots {
    pub(crate) first: Option<Spot>,
    pub(crate) second: Option<Spot>,
    pub(crate) third: Option<Spot>,
}

/// The spots of branches, in their order.
pub(crate) type Spots = Seq<BranchSpots>;

/// The spots of branches, with the levels in which these have an end.
#[derive(Drop)]
pub(crate) struct IndexedSpots {
    pub(crate) branches: Spots,
    pub(crate) index: LevelEnds,
}

impl IndexedSpots {
    /// The spots of no branch. It takes no memory.
    pub(crate) fn empty(alloc: Global) -> IndexedSpots
        ensures { length result.branches ≡ 0 }
    {
        IndexedSpots {
            branches: Spots::empty(alloc),
            index: LevelEnds::empty(alloc),
        }
    }

    /// The spots of all branches of a network.
    pub(crate) fn of(alloc: Global, structure: &Structure) -> Result<IndexedSpots, Memory>
        ensures { IfOk result (IsSpotted structure.now) }
    {
        let branches = network_spots(alloc, structure)?;
        let index = LevelEnds::of(alloc, structure.level_count(), branches.slice())?;
        Ok(IndexedSpots { branches, index })
    }
}

/// The numbers of the buses in which the ends of a branch stand: none for an end that stands in none, or for a third
/// end that there is not.
#[derive(Clone, Copy)]
pub(crate) struct BranchBuses {
    pub(crate) first: Option<u32>,
    pub(crate) second: Option<u32>,
    pub(crate) third: Option<u32>,
}

/// The buses of branches, in their order.
pub(crate) type Ends = Seq<BranchBuses>;

// Where an end of the branch at a place stands.
#[tactic(auto, unfolding(crate::specs::Spots::spot_of_end))]
fn spot_of_end(structure: &Structure, branch: u32, side: u8, end: &End) -> Option<Spot>
    ensures { result ≡ spots.spot_of_end structure.now end.now }
{
    let level = match structure.level_of_end(branch, side, end) {
        Some(level) => level,
        None => return None,
    };
    match node_index(structure.level(level), end.node) {
        Some(node) => Some(Spot { level, node }),
        None => None,
    }
}

// Where the ends of the branch at a place stand, by its first two ends and the spot of its third.
fn spots_from(
    structure: &Structure,
    place: u32,
    end1: &End,
    end2: &End,
    third: Option<Spot>,
) -> BranchSpots
    ensures { result
        ≡ spots.spots_at (spots.spot_of_end structure.now end1.now)
        (spots.spot_of_end structure.now end2.now) third }
{
    BranchSpots {
        first: spot_of_end(structure, place, 1, end1),
        second: spot_of_end(structure, place, 2, end2),
        third,
    }
}

// Where the ends of the branch at a place stand.
#[tactic(auto, unfolding(crate::specs::Spots::spots_of_branch))]
fn spots_of_branch(structure: &Structure, place: u32, branch: &Branch) -> BranchSpots
    ensures { result ≡ spots.spots_of_branch structure.now branch.now }
{
    let BranchEnds { end1, end2, end3 } = branch.ends();
    let third = match end3 {
        Some(end3) => spot_of_end(structure, place, 3, end3),
        None => None,
    };
    spots_from(structure, place, end1, end2, third)
}

/// The spots of all branches.
pub(crate) fn network_spots(alloc: Global, structure: &Structure) -> Result<Spots, Memory>
    ensures { IfOk result (λ list. list ≡ spots.network_spots structure.now) }
{
    let count = structure.branch_count();
    let mut list = Spots::from_vec(Vec::with_capacity(alloc, count as usize)?);
    for place in 0..count {
        list.push(spots_of_branch(structure, place, structure.branch(place)))?;
    }
    Ok(list)
}

// The number of the bus at a spot, by the numbers of the levels' first buses and by what is kept of the levels.
#[tactic(auto, unfolding(crate::specs::Spots::number_of_spot))]
fn number_of_spot(firsts: &[u32], kept: &[KeptLevel], spot: Option<Spot>) -> Option<u32>
    requires { NumbersFit firsts.now kept.now }
    ensures { result ≡ option_and_then (spots.number_of_spot firsts.now kept.now) spot }
{
    let spot = match spot {
        Some(spot) => spot,
        None => return None,
    };
    let first = match firsts.get(spot.level as usize) {
        Some(first) => *first,
        None => return None,
    };
    let own = match kept.get(spot.level as usize) {
        Some(own) => own,
        None => return None,
    };
    match own.buses.places.get(spot.node as usize) {
        Some(Some(place)) => Some(first + *place),
        _ => None,
    }
}

/// The numbers of the buses at a branch's spots.
#[tactic(auto, unfolding(crate::specs::Spots::buses_of_spots))]
pub(crate) fn buses_at(firsts: &[u32], kept: &[KeptLevel], branch: &BranchSpots) -> BranchBuses
    requires { NumbersFit firsts.now kept.now }
    ensures { result ≡ spots.buses_of_spots firsts.now kept.now branch.now }
{
    BranchBuses {
        first: number_of_spot(firsts, kept, branch.first),
        second: number_of_spot(firsts, kept, branch.second),
        third: number_of_spot(firsts, kept, branch.third),
    }
}

/// The numbers of the buses at the spots of branches, by the numbers of the levels' first buses and by what is kept of
/// the levels.
pub(crate) fn spot_buses(
    alloc: Global,
    firsts: &[u32],
    kept: &[KeptLevel],
    branches: &[BranchSpots],
) -> Result<Ends, Memory>
    requires { NumbersFit firsts.now kept.now }
    ensures { IfOk result (λ ends. ends
        ≡ map (spots.buses_of_spots firsts.now kept.now) branches.now) }
{
    let mut ends = Ends::from_vec(Vec::with_capacity(alloc, branches.len())?);
    for branch in branches {
        ends.push(buses_at(firsts, kept, branch))?;
    }
    Ok(ends)
}
