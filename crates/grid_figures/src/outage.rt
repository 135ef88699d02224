// What an outage changes of the buses and links of a network.
use grid_ids::Seq;
use grid_unions::Sums;

/// A bus: the place of its level, and its place among that level's buses.
#[derive(Clone, Copy, Debug, PartialEq, Eq)]
pub struct BusAt {
    pub level: u32,
    pub bus: u32,
}

/// A level that an outage changes: its place, and the sums of its buses then.
#[derive(Debug, Drop)]
pub struct ChangedSums {
    pub level: u32,
    pub sums: Seq<Sums>,
}

/// What an outage changes of a network whose buses stand by level, and whose links join two buses each.
#[derive(Debug, Drop)]
pub struct Outage {
    /// The levels that it changes, by rising place.
    pub levels: Seq<ChangedSums>,
    /// The places of the links that it takes away.
    pub gone: Seq<u32>,
    /// The links that it has besides those that are left.
    pub own: Seq<(BusAt, BusAt)>,
}
