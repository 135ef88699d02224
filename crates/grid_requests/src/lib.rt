//! What workers ask for: requests, and scripts of them.
#![tactic(auto)]

mod request;

pub use request::{Request, Script, Scripts};
