// What stands under each label.
ghost use Rattle.std.specs.Prelude.{◌≡◌, ℕ, ◌<◌, ◌≤◌, ◌^◌, IfOk, OnOk, ◌∷◌, ◌++◌, [], length, slice_index, slice_index_or, slice_set, map, All, IsTrue, List};
ghost use Rattle.grid_level.specs.Kept.{among};
ghost use Rattle.grid_level.specs.Passing.{nodes as nodes_of};
ghost use Rattle.grid_level.specs.VoltageLevel.{VoltageLevel};
ghost use Rattle.grid_groups.specs.Labels.{places_with, items_at, labels_placed, label_of, leading, group_of, groups_by, no_group, AreNumbers, ArePlacesOf, HasPlacesOf};

use crate::joining::index_of;
use grid_ids::{Duplicate, Memory, Seq};
use grid_level::{Level, Nodes, Terminals};
use std::alloc::Global;

/// A list of places.
pub type Places = Seq<u32>;

/// Nodes that are joined, and the places of their terminals among those of the level.
#[derive(Debug, Drop)]
pub struct Group {
    /// The least of the nodes.
    pub least: u16,
    /// The nodes, rising.
    pub nodes: Nodes,
    /// The places of the terminals, by rising node.
    pub terminals: Places,
}

/// A list of groups.
pub type Groups = Seq<Group>;

// How many keys equal each number below the count.
fn counts_of(alloc: Global, keys: &[u32], count: u32) -> Result<Vec<u32>, Memory>
    requires below { (k : ℕ) → k < length keys.now → slice_index keys.now k < count }
    requires few { length keys.now < 2 ^ 32 }
    ensures long { IfOk result (λ counts. length counts.items ≡ count) }
    ensures each { IfOk result (λ counts. (key : ℕ) → key < count
        → slice_index counts.items key ≡ length (places_with keys.now key)) }
{
    let mut counts = vec![in alloc; 0u32; count as usize]?;
    for key in keys {
        counts[*key as usize] += 1;
    }
    Ok(counts)
}

/// The label of each terminal's node, by rising node.
pub fn terminal_labels(alloc: Global, level: &Level, labels: &[u32]) -> Result<Places, Memory>
    requires long { length labels.now ≡ length (nodes_of level.now) }
    requires below { (k : ℕ) → k < length labels.now
        → slice_index labels.now k < length labels.now }
    ensures each { IfOk result (λ keys. keys ≡ labels_placed level.now labels.now) }
    ensures below { IfOk result (λ keys. (k : ℕ) → k < length keys
        → slice_index keys k < length (nodes_of level.now)) }
    ensures few { IfOk result (λ keys. length keys ≤ 1024) }
{
    level.keeps();
    let mut keys = Vec::with_capacity(alloc, level.placed().len())?;
    for placed in level.placed() {
        keys.push_reserved(labels[index_of(level, placed.node) as usize]);
    }
    Ok(Places::from_vec(keys))
}

// The group of a leader with nothing in it yet, and with room for so many nodes and terminals.
#[tactic(auto, unfolding(crate::specs::Labels::group_of, crate::specs::Labels::items_at))]
fn empty_group(
    alloc: Global,
    level: &Level,
    leader: u32,
    nodes: u32,
    terminals: u32,
) -> Result<Group, Memory>
    requires { leader < length (nodes_of level.now) }
    ensures { IfOk result (λ group. group ≡ group_of level.now leader [] []) }
{
    Ok(Group {
        least: level.node_at(leader),
        nodes: Nodes::from_vec(Vec::with_capacity(alloc, nodes as usize)?),
        terminals: Places::from_vec(Vec::with_capacity(alloc, terminals as usize)?),
    })
}

// The groups by rising leader with nothing in them yet, and with room for what has their labels. At each leader, the
// number of its group takes the place of the count of its terminals.
fn empty_groups(
    alloc: Global,
    level: &Level,
    labels: &[u32],
    numbers: &mut Vec<u32>,
) -> Result<Vec<Group>, Memory>
    requires long { length labels.now ≡ length (nodes_of level.now) }
    requires below { (k : ℕ) → k < length labels.now
        → slice_index labels.now k < length labels.now }
    requires numbers { length numbers.old.items ≡ length labels.now }
    ensures groups { IfOk result (λ groups. groups.items
        ≡ map (λ l. group_of level.now l [] []) (leading labels.now)) }
    ensures numbers { OnOk result
        (AreNumbers labels.now (length labels.now) numbers.new.items) }
{
    let count = level.node_count();
    let nodes = counts_of(alloc, labels, count)?;
    let mut groups = Vec::new(alloc);
    for leader in 0..count {
        let index = leader as usize;
        if labels[index] == leader {
            let terminals = numbers[index];
            numbers[index] = groups.len() as u32;
            groups.push(empty_group(alloc, level, leader, nodes[index], terminals)?)?;
        }
    }
    Ok(groups)
}

// Puts a node last in a group.
fn push_node(groups: &mut Vec<Group>, number: u32, node: u16) -> Result<(), Memory>
    requires { number < length groups.old.items }
    ensures { OnOk result (let group = slice_index_or groups.old.items number no_group in
        groups.new.items
        ≡ slice_set groups.old.items number (record group { nodes = group.nodes ++ node ∷ [] })) }
{
    groups[number as usize].nodes.push(node)
}

// Puts the place of a terminal last in a group.
fn push_terminal(groups: &mut Vec<Group>, number: u32, place: u32) -> Result<(), Memory>
    requires { number < length groups.old.items }
    ensures { OnOk result (let group = slice_index_or groups.old.items number no_group in
        groups.new.items
        ≡ slice_set groups.old.items number (record group {
          terminals = group.terminals ++ place ∷ [];
        })) }
{
    groups[number as usize].terminals.push(place)
}

// Puts each node into the group of its label, by rising node.
fn put_nodes(
    groups: &mut Vec<Group>,
    level: &Level,
    labels: &[u32],
    numbers: &[u32],
) -> Result<(), Memory>
    requires long { length labels.now ≡ length (nodes_of level.now) }
    requires below { (k : ℕ) → k < length labels.now
        → slice_index labels.now k < length labels.now }
    requires numbers { AreNumbers labels.now (length labels.now) numbers.now }
    requires groups { groups.old.items
        ≡ map (λ l. group_of level.now l [] []) (leading labels.now) }
    ensures { OnOk result (groups.new.items
        ≡ map (λ l. group_of level.now l (places_with labels.now l) []) (leading labels.now)) }
{
    for index in 0..level.node_count() {
        let label = labels[index as usize];
        if labels[label as usize] == label {
            push_node(groups, numbers[label as usize], level.node_at(index))?;
        }
    }
    Ok(())
}

// Puts the place of each terminal into the group of its label, by rising place.
fn put_terminals(
    groups: &mut Vec<Group>,
    labels: &[u32],
    numbers: &[u32],
    keys: &[u32],
) -> Result<(), Memory>
    requires numbers { AreNumbers labels.now (length labels.now) numbers.now }
    requires keys { (k : ℕ) → k < length keys.now → slice_index keys.now k < length labels.now }
    requires few { length keys.now ≤ 1024 }
    requires groups { length groups.old.items ≡ length (leading labels.now) }
    ensures { OnOk result ((level : VoltageLevel) (nodes : ℕ → List ℕ)
        → groups.old.items ≡ map (λ l. group_of level l (nodes l) []) (leading labels.now)
        → groups.new.items
        ≡ map (λ l. group_of level l (nodes l) (places_with keys.now l)) (leading labels.now)) }
{
    for (place, key) in keys.iter().enumerate() {
        if labels[*key as usize] == *key {
            push_terminal(groups, numbers[*key as usize], place as u32)?;
        }
    }
    Ok(())
}

/// The groups of the nodes that have one label, by rising leader. A leader is an index that is its own label.
pub fn group_nodes(alloc: Global, level: &Level, labels: &[u32]) -> Result<Groups, Memory>
    requires long { length labels.now ≡ length (nodes_of level.now) }
    requires below { (k : ℕ) → k < length labels.now
        → slice_index labels.now k < length labels.now }
    ensures groups { IfOk result (λ groups. groups ≡ groups_by level.now labels.now) }
    ensures within { IfOk result (λ groups. All (HasPlacesOf level.now) groups) }
{
    level.keeps();
    let keys = terminal_labels(alloc, level, labels)?;
    let mut numbers = counts_of(alloc, keys.slice(), level.node_count())?;
    let mut groups = empty_groups(alloc, level, labels, &mut numbers)?;
    put_nodes(&mut groups, level, labels, numbers.as_slice())?;
    put_terminals(&mut groups, labels, numbers.as_slice(), keys.slice())?;
    Ok(Groups::from_vec(groups))
}

/// The terminals at these places among those of the level.
pub fn terminals_at(alloc: Global, level: &Level, places: &[u32]) -> Result<Terminals, Memory>
    requires { ArePlacesOf level.now places.now }
    ensures { IfOk result (λ terminals. terminals
        ≡ map (λ p. p.terminal) (items_at level.now.placed places.now)) }
{
    let placed = level.placed();
    let mut terminals = Vec::with_capacity(alloc, places.len())?;
    for place in places {
        terminals.push_reserved(placed[*place as usize].terminal.copy()?);
    }
    Ok(Terminals::from_vec(terminals))
}

/// The least node joined to a node of the level.
pub fn leader(level: &Level, labels: &[u32], node: u16) -> u16
    requires node { IsTrue (among (nodes_of level.now) node) }
    requires long { length labels.now ≡ length (nodes_of level.now) }
    requires below { (k : ℕ) → k < length labels.now
        → slice_index labels.now k < length labels.now }
    ensures { result
        ≡ slice_index (nodes_of level.now) (label_of (nodes_of level.now) labels.now node) }
{
    level.node_at(labels[index_of(level, node) as usize])
}
