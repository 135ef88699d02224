//! Networks whose levels have configured buses: their reading from JSON, their views, and the machine that switches and
//! connects in them.
#![tactic(auto)]

mod checks;
mod commands;
mod contents;
mod copies;
pub mod laws;
mod level_lists;
mod line_lists;
mod lined;
mod lists;
mod network;
mod numbers;
mod outcome;
mod parts;
mod plain;
mod plan;
mod read;
mod reasons;
mod replay;
mod reply;
mod report;
mod seeing;
mod standing;
mod texts;
mod translation;
mod view;
mod world;

pub use network::{ConfiguredJob, ConfiguredLevel, ConfiguredLine, ConfiguredNetwork};
pub use outcome::{
    ConfiguredOutcome, ConfiguredReplies, ConfiguredVariant, ConfiguredVariants, ConfiguredViews,
};
pub use read::read_configured;
pub use replay::run_configured;
pub use reply::ConfiguredReply;
pub use report::{write_configured, write_configured_lines};
pub use translation::translate;
pub use view::{ConfiguredBus, ConfiguredBuses, ConfiguredView};
pub use world::ConfiguredWorld;
