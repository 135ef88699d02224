//! JSON values whose texts are lent by the bytes that they were read from.
#![tactic(auto)]

mod grammar;
mod leaf;
mod node;
mod number;
mod read;
mod text;
mod value;

pub use grammar::is_grammatical;
pub use json::Scratch;
pub use leaf::{next_flag, next_text, next_whole};
pub use node::Node;
pub use number::Number;
pub use read::{ByteFault, MAX_DEPTH, Tree};
pub use text::same_text;
pub use value::{Items, Members, Value};
