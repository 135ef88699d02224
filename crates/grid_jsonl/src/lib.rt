//! The outcome of a job as JSON Lines: an object on each line.
#![tactic(auto)]

mod branch;
mod command;
mod cursors;
mod event;
mod items;
mod line;
mod lined;
mod member;
mod numbered;
mod part;
mod reply;
mod scan;
mod step;
mod string;
mod sum;
mod words;
mod write;

pub use command::put_command;
pub use items::{Written, WrittenIn, put_array, put_array_in, put_items, put_items_in};
pub use line::{Counts, put_end_line, put_order_line, put_variant_line};
pub use lined::{Lined, write_lined};
pub use member::{
    open_id, open_with, put_flag, put_given, put_id, put_name, put_number, put_sum_of, put_text,
    put_whole,
};
pub use part::{open_bus, put_bus, put_bus_id};
pub use reply::{put_refused, put_reply, put_word};
pub use step::{put_asked_step, put_state, put_step, put_warning, refused_count};
pub use string::put_string;
pub use sum::put_sum;
pub use write::write_lines;
