//! The groups of a level's nodes, by one label per node: the index of the least node joined to it.
#![tactic(auto)]

mod grouping;
mod joining;
mod nets;
mod node_indices;

pub use grouping::{Group, Groups, Places, group_nodes, leader, terminal_labels, terminals_at};
pub use joining::{closed_labels, index_of, labels};
pub use nets::net_of;
pub use node_indices::NodeIndices;
