//! The forms of a call, their words, and the statuses that a call ends with.
#![tactic(auto)]

mod status;
mod words;

pub use status::Status;
pub use words::{Form, Layout, MOST_SEED, MOST_SIZE, read_words};
