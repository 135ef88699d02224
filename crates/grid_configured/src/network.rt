// Networks whose levels have configured buses.

use grid_core::Scripts;
use grid_ids::{Id, Ids, Seq};
use grid_json::{BusEnd, BusInjection, BusSwitch, Order};

/// A line between configured buses of two levels, which may be one level.
#[derive(Drop)]
pub struct ConfiguredLine {
    pub id: Id,
    /// The end of side 1.
    pub end1: BusEnd,
    /// The end of side 2.
    pub end2: BusEnd,
}

/// A level with configured buses: named buses, switches between them, and injections at them.
#[derive(Drop)]
pub struct ConfiguredLevel {
    pub id: Id,
    /// The nominal voltage, in V.
    pub nominal_v: i64,
    /// The ids of the buses; a bus's place is its position here.
    pub buses: Ids,
    pub switches: Seq<BusSwitch>,
    pub items: Seq<BusInjection>,
}

/// A network whose levels have configured buses.
#[derive(Drop)]
pub struct ConfiguredNetwork {
    pub id: Id,
    pub levels: Seq<ConfiguredLevel>,
    pub lines: Seq<ConfiguredLine>,
}

/// A network with configured buses, the scripts of its workers, and the order of their steps, where one is given.
#[derive(Drop)]
pub struct ConfiguredJob {
    pub network: ConfiguredNetwork,
    pub scripts: Scripts,
    pub order: Option<Order>,
}
