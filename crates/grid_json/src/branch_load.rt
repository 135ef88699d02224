// Loading branches, of which each end stands at a node, or at a configured bus.
ghost use Rattle.std.specs.Prelude.{◌≡◌, ◌≤◌, IfOk};
ghost use Rattle.grid_structure.specs.Sites.{level_named};
ghost use Rattle.grid_json.specs.Loading as loading;
ghost use Rattle.grid_json.specs.Loading.{Loaded, Leads, edited, loaded_of, end_breaker, three_load, two_load, windings_load};
ghost use Rattle.grid_json.specs.Command.{two_windings_of, three_windings_of};

use crate::ReadError;
use crate::bus_load::{Feed, add_breaker, find_bus, next_node};
use crate::buses::EndDraft;
use crate::command::{line, three_windings, two_windings};
use crate::ends::{Three, Two};
use crate::load::{Load, told};
use crate::loader::Loader;
use crate::network::{LineDraft, TransformerDraft, Windings};
use grid_ids::{Duplicate, Id, Memory};
use grid_structure::{Branch, Edit, End, Structure};
use std::alloc::Global;

/// The node of the end of a side.
#[derive(Clone, Copy, Debug)]
struct SideNode {
    side: u8,
    node: i64,
}

/// How many ends by bus this end is in the level: one, or none.
fn by_bus_in(level: &Id, end: &EndDraft) -> u32
    ensures { result ≡ loading.by_bus_in level.now end.now }
{
    match end {
        EndDraft::Node(_) => 0,
        EndDraft::Bus(end) => if *level == end.level { 1 } else { 0 },
    }
}

/// The next node of a level behind so many more; 0 where the level is not there.
fn next_behind(structure: &Structure, level: &Id, earlier: u32) -> u32
    requires { earlier ≤ 2 }
    ensures { result ≡ loading.next_behind (level_named structure.now level.now) earlier }
{
    match structure.find_level(level) {
        Some(place) => {
            let level = structure.level(place);
            level.keeps();
            level.node_count() + earlier
        }
        None => 0,
    }
}

/// An end at its node, behind so many earlier ends by bus in its level.
#[tactic(auto, unfolding(crate::specs::Loading::placed_end))]
fn placed_end(structure: &Structure, earlier: u32, end: &EndDraft) -> Result<End, Memory>
    requires { earlier ≤ 2 }
    ensures { IfOk result (λ placed. placed ≡ loading.placed_end structure.now earlier end.now) }
{
    match end {
        EndDraft::Node(end) => end.copy(),
        EndDraft::Bus(end) => Ok(End {
            level: end.level.copy()?,
            node: next_behind(structure, &end.level, earlier) as i64,
        }),
    }
}

/// Two ends at their nodes.
#[tactic(auto, unfolding(crate::specs::Loading::two_placed))]
fn two_placed(structure: &Structure, ends: &Two<EndDraft>) -> Result<Two<End>, Memory>
    ensures { IfOk result (λ placed. placed ≡ loading.two_placed structure.now ends.now) }
{
    let earlier = by_bus_in(ends.second.level(), &ends.first);
    Ok(Two {
        first: placed_end(structure, 0, &ends.first)?,
        second: placed_end(structure, earlier, &ends.second)?,
    })
}

/// Three ends at their nodes.
#[tactic(auto, unfolding(crate::specs::Loading::three_placed))]
fn three_placed(structure: &Structure, ends: &Three<EndDraft>) -> Result<Three<End>, Memory>
    ensures { IfOk result (λ placed. placed ≡ loading.three_placed structure.now ends.now) }
{
    let earlier = by_bus_in(ends.second.level(), &ends.first);
    let last = ends.third.level();
    let both = by_bus_in(last, &ends.first) + by_bus_in(last, &ends.second);
    Ok(Three {
        first: placed_end(structure, 0, &ends.first)?,
        second: placed_end(structure, earlier, &ends.second)?,
        third: placed_end(structure, both, &ends.third)?,
    })
}

/// The breaker of an end, where that is by bus.
#[tactic(auto, unfolding(crate::specs::Loading::end_breaker))]
fn add_end_breaker(
    alloc: Global,
    id: &Id,
    end: &EndDraft,
    standing: SideNode,
    structure: &mut Structure,
) -> Result<(), ReadError>
    ensures { Leads structure.new result
        (end_breaker id.now standing.side end.now standing.node structure.old) }
{
    match end {
        EndDraft::Node(_) => Ok(()),
        EndDraft::Bus(end) => {
            let feed = Feed {
                side: standing.side,
                bus: find_bus(alloc, structure, &end.level, &end.bus)?,
                node: standing.node,
                connected: end.connected,
            };
            add_breaker(alloc, id, &end.level, feed, structure)
        }
    }
}

/// The breakers of two ends.
#[tactic(auto, unfolding(crate::specs::Loading::two_breakers))]
fn add_two_breakers(
    alloc: Global,
    id: &Id,
    ends: &Two<EndDraft>,
    nodes: Two<i64>,
    structure: &mut Structure,
) -> Result<(), ReadError>
    ensures { Leads structure.new result
        (loading.two_breakers id.now ends.now nodes structure.old) }
{
    let first = SideNode {
        side: 1,
        node: nodes.first,
    };
    let second = SideNode {
        side: 2,
        node: nodes.second,
    };
    add_end_breaker(alloc, id, &ends.first, first, structure)?;
    add_end_breaker(alloc, id, &ends.second, second, structure)
}

/// The breakers of three ends.
#[tactic(auto, unfolding(crate::specs::Loading::three_breakers))]
fn add_three_breakers(
    alloc: Global,
    id: &Id,
    ends: &Three<EndDraft>,
    nodes: Three<i64>,
    structure: &mut Structure,
) -> Result<(), ReadError>
    ensures { Leads structure.new result
        (loading.three_breakers id.now ends.now nodes structure.old) }
{
    let first = SideNode {
        side: 1,
        node: nodes.first,
    };
    let second = SideNode {
        side: 2,
        node: nodes.second,
    };
    let third = SideNode {
        side: 3,
        node: nodes.third,
    };
    add_end_breaker(alloc, id, &ends.first, first, structure)?;
    add_end_breaker(alloc, id, &ends.second, second, structure)?;
    add_end_breaker(alloc, id, &ends.third, third, structure)
}

/// The nodes of two ends.
fn two_nodes(placed: &Two<End>) -> Two<i64>
    ensures { result ≡ loading.two_nodes placed.now }
{
    Two {
        first: placed.first.node,
        second: placed.second.node,
    }
}

/// The nodes of three ends.
fn three_nodes(placed: &Three<End>) -> Three<i64>
    ensures { result ≡ loading.three_nodes placed.now }
{
    Three {
        first: placed.first.node,
        second: placed.second.node,
        third: placed.third.node,
    }
}

/// A branch.
fn add_branch(
    alloc: Global,
    id: &Id,
    shape: Branch,
    structure: &mut Structure,
) -> Result<(), ReadError>
    ensures { Leads structure.new result (edited (Edit.AddBranch id.now shape) structure.old) }
{
    told(alloc, structure.add_branch(id, &shape))
}

/// A transformer of two windings.
#[tactic(auto, unfolding(crate::specs::Loading::two_load))]
fn load_two(
    alloc: Global,
    id: &Id,
    substation: &Id,
    windings: (&Two<EndDraft>, &Two<i64>),
    loader: &mut Loader,
) -> Result<(), ReadError>
    ensures { Leads (loaded_of loader.new) result (two_load
        (λ placed. two_windings_of substation.now placed windings.entry.1.now) id.now windings.entry.0.now
        (loaded_of loader.old)) }
{
    let (ends, rated_u) = windings;
    loader.check_two(alloc, id, ends)?;
    let home = substation.copy()?;
    let placed = two_placed(&loader.structure, ends)?;
    let nodes = two_nodes(&placed);
    let shape = two_windings(home, placed, rated_u);
    add_branch(alloc, id, shape, &mut loader.structure)?;
    add_two_breakers(alloc, id, ends, nodes, &mut loader.structure)
}

/// A transformer of three windings.
#[tactic(auto, unfolding(crate::specs::Loading::three_load))]
fn load_three(
    alloc: Global,
    id: &Id,
    substation: &Id,
    windings: (&Three<EndDraft>, &Three<i64>),
    loader: &mut Loader,
) -> Result<(), ReadError>
    ensures { Leads (loaded_of loader.new) result (three_load
        (λ placed. three_windings_of substation.now placed windings.entry.1.now) id.now windings.entry.0.now
        (loaded_of loader.old)) }
{
    let (ends, rated_u) = windings;
    loader.check_three(alloc, id, ends)?;
    let home = substation.copy()?;
    let placed = three_placed(&loader.structure, ends)?;
    let nodes = three_nodes(&placed);
    let shape = three_windings(home, placed, rated_u);
    add_branch(alloc, id, shape, &mut loader.structure)?;
    add_three_breakers(alloc, id, ends, nodes, &mut loader.structure)
}

impl Load for TransformerDraft {
    ghost use Rattle.grid_json.specs.Loading.{transformer_load};

    type Into = Loader;

    ghost State = { Loaded };

    ghost seen = { loaded_of };

    ghost loads = { transformer_load };

    #[tactic(auto, unfolding(crate::specs::Loading::transformer_load))]
    fn load(self, alloc: Global, owner: &Id, loader: &mut Loader) -> Result<(), ReadError> {
        match &self.windings {
            Windings::Two { ends, rated_u } => {
                load_two(alloc, &self.id, owner, (ends, rated_u), loader)
            }
            Windings::Three { ends, rated_u } => {
                load_three(alloc, &self.id, owner, (ends, rated_u), loader)
            }
        }
    }
}

impl Load for LineDraft {
    ghost use Rattle.grid_json.specs.Loading.{line_load};

    type Into = Loader;

    ghost State = { Loaded };

    ghost seen = { loaded_of };

    ghost loads = { line_load };

    #[tactic(auto, unfolding(crate::specs::Loading::line_load, crate::specs::Loading::two_load))]
    fn load(self, alloc: Global, _owner: &Id, loader: &mut Loader) -> Result<(), ReadError> {
        loader.check_two(alloc, &self.id, &self.ends)?;
        let placed = two_placed(&loader.structure, &self.ends)?;
        let nodes = two_nodes(&placed);
        let shape = line(placed);
        add_branch(alloc, &self.id, shape, &mut loader.structure)?;
        add_two_breakers(alloc, &self.id, &self.ends, nodes, &mut loader.structure)
    }
}
