//! Jobs from JSON: each value read with the first fault and its place.
#![tactic(auto)]

mod branch_load;
mod bus_load;
mod buses;
mod command;
mod command_tokens;
mod ends;
mod fault;
mod format;
mod injections;
mod job;
mod kinds;
mod laws;
mod load;
mod loader;
mod network;
mod order;
mod place;
mod read;
mod seen;
mod slot;
mod slots;
mod stream;
mod tokens;
mod transformers;
mod whole;
mod words;

pub use buses::{
    BUS_END_MEMBERS, BUS_INJECTION_MEMBERS, BUS_LEVEL_MEMBERS, BUS_SWITCH_MEMBERS, BusEnd,
    BusInjection, BusSwitch, names_of_bus_injection,
};
pub use command::{
    ADDED_INJECTION_MEMBERS, EditVerb, Verb, command_words, names_of_branch, names_of_command,
    verb_named,
};
pub use ends::{END_MEMBERS, Two};
pub use fault::{Fault, ReadError, Reason};
pub use format::Format;
pub use job::{
    JOB_MEMBERS, JobDraft, LISTENER_MEMBERS, MOST_WORKERS, Order, are_too_many, few,
    optional_order, read_draft,
};
pub use kinds::{BranchKind, InjectionKind, injection_named};
pub use laws::{buses_have_places, nodes_load_by_edits, older_formats_are_of_nodes};
pub use network::{
    BUSBAR_MEMBERS, INJECTION_MEMBERS, INTERNAL_MEMBERS, LEVEL_MEMBERS, LINE_MEMBERS,
    NETWORK_MEMBERS, NODE_LEVEL_MEMBERS, SUBSTATION_MEMBERS, SWITCH_MEMBERS, TRANSFORMER_MEMBERS,
    item_of, names_of_item,
};
pub use place::Place;
pub use read::{FromJson, member, member_otherwise, object, only, only_of_kind, optional};
pub use seen::SeenIds;
pub use whole::{Job, JobFault, job_member, read_job, read_value};
pub use words::{
    branch_words, event_words, injection_words, switch_words, topology_words, transformer_words,
};
