// The indices of a level's nodes, in a table.
ghost use Rattle.std.specs.Prelude.{◌≡◌, IfOk, IsTrue, slice_set};
ghost use Rattle.grid_level.specs.Kept.{among};
ghost use Rattle.grid_level.specs.Passing.{nodes};
ghost use Rattle.grid_groups.specs.Labels.{index_in, HoldsIndices};

use crate::joining::index_of;
use grid_ids::Memory;
use grid_level::Level;
use std::alloc::Global;
use std::marker::Model;

/// A level whose nodes' indices stand in a table, where there are edges enough to pay for one. It is seen as the level.
#[derive(Drop)]
pub struct NodeIndices<'a> {
    level: &'a Level,
    table: Vec<u16>,
}

impl<'a> Model for NodeIndices<'a> {
    ghost use Rattle.grid_level.specs.VoltageLevel.{VoltageLevel};
    ghost use Rattle.grid_level.specs.Passing.{nodes};
    ghost use Rattle.grid_groups.specs.Labels.{HoldsIndices};

    ghost Value = { VoltageLevel };

    ghost view = { λ i. i.level.now };

    ghost invariant = { λ i. HoldsIndices (nodes i.level.now) i.table.items };
}

// How long a table is worth its while: up to the last node, if that is little against the edges, and if these are not
// so few that making the table costs more than finding their ends without one.
fn table_len(level: &Level) -> usize {
    let count = level.node_count();
    if count == 0 || level.edge_count() < 4 {
        return 0;
    }
    let len = level.node_at(count - 1) as usize + 1;
    if len > 256 * level.edge_count() as usize {
        return 0;
    }
    len
}

// Puts an index at a node, as far as the table reaches.
fn put_index(table: &mut Vec<u16>, node: u16, index: u16)
    ensures { table.new.items ≡ slice_set table.old.items node index }
{
    if (node as usize) < table.len() {
        table[node as usize] = index;
    }
}

// The index of each node, as far as the table reaches.
fn table_of(alloc: Global, level: &Level) -> Result<Vec<u16>, Memory>
    ensures { IfOk result (λ table. HoldsIndices (nodes level.now) table.items) }
{
    level.keeps();
    let mut table = vec![in alloc; 0; table_len(level)]?;
    for index in 0..level.node_count() {
        put_index(&mut table, level.node_at(index), index as u16);
    }
    Ok(table)
}

impl<'a> NodeIndices<'a> {
    pub fn of(alloc: Global, level: &'a Level) -> Result<NodeIndices<'a>, Memory>
        ensures { IfOk result (λ indices. indices ≡ level.now) }
    {
        let table = table_of(alloc, level)?;
        Ok(NodeIndices { level, table })
    }

    pub fn level(&self) -> &'a Level
        ensures { result.now ≡ self.now }
    {
        self.level
    }

    /// The index of a node of the level.
    pub fn of_node(&self, node: u16) -> u32
        requires { IsTrue (among (nodes self.now) node) }
        ensures { result ≡ index_in (nodes self.now) node }
    {
        match self.table.get(node as usize) {
            Some(index) => u32::from(*index),
            None => index_of(self.level, node),
        }
    }
}
