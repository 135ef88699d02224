//! The plans that connect a node of a level to a busbar section, and that disconnect it from every one.
#![tactic(auto)]

ghost use Rattle.grid_connect.specs.Laws.{ConnectPlanIsLeast};

mod connect;
mod disconnect;
mod joined;
mod parts;
mod paths;

pub use connect::{plan_connect, plan_connect_from};
pub use disconnect::{plan_disconnect, plan_disconnect_from};
use grid_labels::Labels;
use grid_level::Terminal;
use grid_paths::Places;
use grid_queue::Net;

/// A level's net in which its closed switches pass, with the labels of its nodes, as they are kept.
#[derive(Drop)]
pub struct LabelledNet<'a> {
    pub net: &'a Net,
    pub labels: &'a Labels,
}

/// What connects a node. A breaker is operated only where it is not fictitious. The rule is this project's own.
#[derive(Clone, Debug, Drop)]
pub enum ConnectPlan {
    /// The breakers to close, by their places among the level's edges, in the order of the path. There is at least one.
    Close(Places),
    /// The node is joined to a busbar section already.
    AlreadyConnected,
    /// No path leads to a busbar section over internal connections, closed switches and breakers that may be operated.
    NoPath,
}

/// What disconnects a node. A breaker is operated only where it is not fictitious. The rule is this project's own.
#[derive(Clone, Debug, Drop)]
pub enum DisconnectPlan {
    /// The breakers to open, by their places among the level's edges, rising. There is at least one.
    Opens(Places),
    /// The node is joined to no busbar section.
    AlreadyDisconnected,
    /// No breaker that may be operated stands between the node and this busbar section.
    NoBreaker(Terminal),
}

/// The plan that connects a node closes the open breakers of the closable path of least measure, of all lists of
/// places.
pub fn connect_plan_is_least()
    ensures { ConnectPlanIsLeast }
{}
