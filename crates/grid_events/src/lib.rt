//! Events of a network and the filters of its listeners.
#![tactic(auto)]

mod event;
mod filter;
mod listener;

pub use event::{Event, Events};
pub use filter::{Filter, Filters};
pub use listener::{Listener, Subscription, Subscriptions};
