//! What the program tells on standard error: a line for each status but that of success, and the usage text.
#![tactic(auto)]

mod fault;
mod known;
mod look;
mod missing;
mod not_json;
mod order;
mod sentence;
mod stop;
mod told;
mod trail;
mod usage;
mod walk;
mod why;
mod wrong_words;

pub use fault::{Around, RunFault, ending};
pub use not_json::NotJson;
pub use usage::usage_text;
pub use why::Why;
pub use wrong_words::WrongWords;
