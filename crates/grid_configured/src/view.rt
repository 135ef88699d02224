// What is seen of a level with configured buses.

use grid_ids::{Id, Ids, Seq};
use grid_level::Terminals;

/// Buses that closed switches join, at which a connected terminal stands.
#[derive(Clone, Debug, Drop)]
pub struct ConfiguredBus {
    /// The least place of the buses in their level.
    pub place: u32,
    /// The buses, by their places.
    pub buses: Ids,
    /// The connected terminals, injections before ends of lines.
    pub terminals: Terminals,
    /// The sum of `p0` over the loads, in W.
    pub load: i128,
    /// The sum of `target_p` over the generators and batteries, in W.
    pub generation: i128,
}

/// A list of these, by rising place.
pub type ConfiguredBuses = Seq<ConfiguredBus>;

/// The view of a level with configured buses.
#[derive(Clone, Debug, Drop)]
pub struct ConfiguredView {
    /// The level's id.
    pub level: Id,
    pub buses: ConfiguredBuses,
}
