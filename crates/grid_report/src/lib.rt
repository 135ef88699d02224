//! The report of what came of a job: texts that grow, its lines, and blocks of text handed to a sink in pieces.
#![tactic(auto)]

mod bus;
mod command;
mod cursors;
mod event;
pub mod laws;
mod outcome;
mod parallel;
mod pieces;
mod plan;
mod refusal;
mod reply;
mod report;
mod text;
mod variants;

pub use bus::{put_bus_name, put_flows, put_terminals};
pub use command::put_command;
pub use outcome::{BusViews, Outcome, VariantView, VariantViews};
pub use parallel::write_report_on_threads;
pub use pieces::{Pieces, ReportFault};
pub use plan::{put_order, put_variant, put_worker};
pub use refusal::{put_reason, put_refusal, refusal_number};
pub use reply::put_answer;
pub use report::{Blocks, write_blocks, write_report, write_text};
pub use text::{Shown, Text, put_named, put_numbers, put_spaced};
