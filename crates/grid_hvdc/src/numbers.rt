// The connected and the synchronous component of each bus.
ghost use Rattle.std.specs.Prelude.{◌≡◌, ◌++◌, ℕ, ◌<◌, IfOk, OnOk, length, map, zip, slice_index};
ghost use Rattle.grid_graph.specs.Components.{places};
ghost use Rattle.grid_graph.specs.Graph.{EndsBelow};
ghost use Rattle.grid_hvdc.specs.Numbers as numbers;
ghost use Rattle.grid_hvdc.specs.Numbers.{sized, sized_at, side_by_side};

use crate::{HvdcNumber, HvdcNumbers};
use grid_components::components;
use grid_ids::{Memory, Seq};
use grid_islands::component_sizes;
use std::alloc::Global;

/// A component by its number, with how many buses it has.
#[derive(Clone, Copy, Debug, PartialEq, Eq)]
struct Component {
    number: u32,
    size: u32,
}

// Each number with its size.
fn with_sizes(alloc: Global, numbers: &[u32], sizes: &[u32]) -> Result<Seq<Component>, Memory>
    requires { (k : ℕ) → k < length numbers.now → slice_index numbers.now k < length sizes.now }
    ensures { IfOk result (λ list. list ≡ map (sized sizes.now) numbers.now) }
{
    let mut list = Seq::empty(alloc);
    for number in numbers {
        list.push(Component {
            number: *number,
            size: sizes[*number as usize],
        })?;
    }
    Ok(list)
}

// The component of each bus, with its size.
fn sized_components(
    alloc: Global,
    count: u32,
    pairs: &[(u32, u32)],
) -> Result<Seq<Component>, Memory>
    requires { EndsBelow pairs.now count }
    ensures { IfOk result (λ list. list ≡ map (sized_at count pairs.now) (places count)) }
{
    let numbers = components(alloc, count, pairs)?;
    let sizes = component_sizes(alloc, numbers.slice())?;
    with_sizes(alloc, numbers.slice(), &sizes)
}

// The first pairs, then the others.
fn join_pairs(
    alloc: Global,
    first: &[(u32, u32)],
    others: &[(u32, u32)],
) -> Result<Seq<(u32, u32)>, Memory>
    ensures { IfOk result (λ pairs. pairs ≡ first.now ++ others.now) }
{
    let mut pairs = Vec::new(alloc);
    pairs.extend_from_slice(first)?;
    pairs.extend_from_slice(others)?;
    Ok(Seq::from_vec(pairs))
}

// For each bus its two components.
fn pair_up(
    alloc: Global,
    connected: &[Component],
    synchronous: &[Component],
) -> Result<HvdcNumbers, Memory>
    ensures { IfOk result (λ list. list ≡ map side_by_side (zip connected.now synchronous.now)) }
{
    let mut list = HvdcNumbers::empty(alloc);
    for (over_all, over_branches) in connected.iter().zip(synchronous) {
        list.push(HvdcNumber {
            connected: over_all.number,
            connected_size: over_all.size,
            synchronous: over_branches.number,
            synchronous_size: over_branches.size,
        })?;
    }
    Ok(list)
}

/// For each of so many buses its connected component, in which both lists of pairs join buses, and its synchronous
/// component, in which the branches alone do. The time is that of two searches for components.
pub fn hvdc_numbers(
    alloc: Global,
    count: u32,
    branches: &[(u32, u32)],
    links: &[(u32, u32)],
) -> Result<HvdcNumbers, Memory>
    requires branches { EndsBelow branches.now count }
    requires links { EndsBelow links.now count }
    ensures { IfOk result (λ list. list ≡ numbers.hvdc_numbers count branches.now links.now) }
{
    let synchronous = sized_components(alloc, count, branches)?;
    let both = join_pairs(alloc, branches, links)?;
    let connected = sized_components(alloc, count, both.slice())?;
    pair_up(alloc, connected.slice(), synchronous.slice())
}
