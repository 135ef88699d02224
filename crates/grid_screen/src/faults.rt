//! The sites that a fault is at, and the breakers that protection opens.

use grid_ids::Seq;
use grid_structure::{Site, SwitchAt};

/// The sites that a fault is at, by place of level, then by rising node.
pub type Zone = Seq<Site>;

/// Where the breakers are that protection opens, by place of level, then by place there.
pub type Breakers = Seq<SwitchAt>;
