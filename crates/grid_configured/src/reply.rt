// What a request is answered in a network with configured buses.

use crate::ConfiguredView;
use grid_core::Refusal;

/// What a request is answered in a network with configured buses.
#[derive(Debug, Drop)]
pub enum ConfiguredReply {
    /// It was done.
    Done,
    /// The switch has that position already.
    Unchanged,
    /// The terminal is connected already.
    AlreadyConnected,
    /// The terminal is not connected.
    AlreadyDisconnected,
    /// The view of the level.
    View(ConfiguredView),
    /// The variant was made.
    Created,
    /// The variant was overwritten.
    Overwritten,
    /// It was refused.
    Refused(Refusal),
}
