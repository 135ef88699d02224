// The whole job: the first pass over its value.
ghost use Rattle.std.specs.Prelude.{◌≡◌, ◌≤◌, [], nat_lt, length, unwrap_or, IfOk, IfSome, OnSome, codes, false};
ghost use Rattle.grid_value.specs.View.{view};
ghost use Rattle.grid_json.specs.Reading.{Gives, member_or, optional_at};
ghost use Rattle.grid_json.specs.Job.{same_kind, has_kind, listeners_at, workers_at, command_total, max_commands, max_workers, few_at, order_at, draft_at};

use crate::format::Format;
use crate::kinds::EventKind;
use crate::network::NetworkDraft;
use crate::order::order_of;
use crate::read::{FromJson, member, member_otherwise, only, optional, read_items};
use crate::{ReadError, Reason};
use grid_events::{Filter, Filters};
use grid_ids::Seq;
use grid_requests::{Script, Scripts};
use grid_value::Value;
use std::alloc::Global;
use std::marker::Model;

/// The order of the workers' steps, by their numbers.
pub type Order = Seq<u32>;

/// A job as it is written, read and not yet loaded.
#[derive(Drop)]
pub struct JobDraft {
    pub network: NetworkDraft,
    pub filters: Filters,
    pub scripts: Scripts,
    pub order: Option<Order>,
}

/// The members of a job.
pub const JOB_MEMBERS: &[&str] = &["format", "network", "listeners", "workers", "order"];

/// The members of a listener.
pub const LISTENER_MEMBERS: &[&str] = &["kinds", "variant"];

/// The most listeners that a job may have.
const MOST_LISTENERS: usize = 16;

/// The most workers that a job may have.
pub const MOST_WORKERS: usize = 32;

/// The most commands that all scripts of a job may have.
const MOST_COMMANDS: usize = 20_000;

/// An array of at most so many items; the limit is looked at before them.
pub fn few<T: FromJson>(
    alloc: Global,
    format: Format,
    value: &Value,
    most: usize,
    reason: Reason,
) -> Result<Seq<T>, ReadError>
    ensures items { Gives result (few_at most reason (T.reads format) (view value.now)) }
    ensures few { IfOk result (λ items. length items ≤ most) }
{
    let Some(items) = value.as_array() else {
        return Err(ReadError::here(alloc, Reason::WrongKind));
    };
    if items.are_above(most) {
        return Err(ReadError::here(alloc, reason));
    }
    read_items(alloc, format, &items)
}

// Whether a kind is the other one.
fn is_kind(kind: EventKind, other: EventKind) -> bool
    ensures { result ≡ same_kind kind other }
{
    kind == other
}

// Whether a kind is among those listed.
#[tactic(auto, unfolding(crate::specs::Job::has_kind))]
fn lists(listed: &[EventKind], kind: EventKind) -> bool
    ensures { result ≡ has_kind listed.now kind }
{
    listed.iter().any(|other| is_kind(kind, *other))
}

impl FromJson for Filter {
    ghost use Rattle.grid_json.specs.Job.{listener_at};

    ghost reads = { listener_at };

    #[tactic(auto, unfolding(crate::specs::Job::listener_at, crate::specs::Job::filter_of))]
    fn from_json(alloc: Global, format: Format, value: &Value) -> Result<Filter, ReadError> {
        only(alloc, value, LISTENER_MEMBERS)?;
        let kinds: Seq<EventKind> = member(alloc, format, value, "kinds")?;
        let variant = optional(alloc, format, value, "variant")?;
        let listed = kinds.slice();
        Ok(Filter {
            created: lists(listed, EventKind::Created),
            removed: lists(listed, EventKind::Removed),
            updated: lists(listed, EventKind::Updated),
            variant_created: lists(listed, EventKind::VariantCreated),
            variant_overwritten: lists(listed, EventKind::VariantOverwritten),
            variant_removed: lists(listed, EventKind::VariantRemoved),
            variant,
        })
    }
}

/// The listeners of a job.
#[derive(Drop)]
pub struct Listeners {
    filters: Filters,
}

impl Model for Listeners {
    ghost use Rattle.std.specs.Prelude.{List};
    ghost use Rattle.grid_events.specs.declared.filter.Filter.{Filter};

    ghost Value = { List Filter };

    ghost view = { λ l. l.filters };
}

impl FromJson for Listeners {
    ghost reads = { listeners_at };

    fn from_json(alloc: Global, format: Format, value: &Value) -> Result<Listeners, ReadError> {
        let filters = few(
            alloc,
            format,
            value,
            MOST_LISTENERS,
            Reason::TooManyListeners,
        )?;
        Ok(Listeners { filters })
    }
}

/// Whether the scripts together have more than 20,000 commands.
#[tactic(auto, unfolding(crate::specs::Job::command_total))]
pub fn are_too_many(scripts: &[Script]) -> bool
    ensures many { result ≡ nat_lt max_commands (command_total scripts.now) }
    ensures few { result ≡ false → command_total scripts.now ≤ max_commands }
{
    let mut left = MOST_COMMANDS;
    for script in scripts {
        if script.len() > left {
            return true;
        }
        left -= script.len();
    }
    false
}

/// The scripts of a job.
#[derive(Drop)]
pub struct Workers {
    scripts: Scripts,
}

impl Model for Workers {
    ghost use Rattle.std.specs.Prelude.{List, ◌≤◌, length, sum_by};
    ghost use Rattle.grid_requests.specs.declared.request.Request.{Request};

    ghost Value = { List (List Request) };

    ghost view = { λ w. w.scripts };

    ghost invariant = { λ w. (length w.scripts ≤ 32) × (sum_by length w.scripts ≤ 20000) };
}

impl FromJson for Workers {
    ghost reads = { workers_at };

    #[tactic(auto, unfolding(crate::specs::Job::command_total))]
    fn from_json(alloc: Global, format: Format, value: &Value) -> Result<Workers, ReadError> {
        let scripts: Scripts = few(alloc, format, value, MOST_WORKERS, Reason::TooManyWorkers)?;
        if are_too_many(scripts.slice()) {
            return Err(ReadError::here(alloc, Reason::TooManyCommands));
        }
        Ok(Workers { scripts })
    }
}

/// The scripts as a job has them, where it may have so many.
#[tactic(auto, unfolding(crate::specs::Job::command_total))]
pub fn workers_of(scripts: Scripts) -> Option<Workers>
    ensures scripts { IfSome result (λ workers. workers ≡ scripts) }
    ensures few { OnSome result (length scripts ≤ max_workers) }
    ensures total { OnSome result (nat_lt max_commands (command_total scripts) ≡ false) }
{
    if scripts.len() > MOST_WORKERS || are_too_many(scripts.slice()) {
        return None;
    }
    Some(Workers { scripts })
}

/// The listeners that were found, or none.
pub fn filters_or_none(alloc: Global, listeners: Option<Listeners>) -> Filters
    ensures { result ≡ unwrap_or listeners [] }
{
    match listeners {
        Some(listeners) => listeners.filters,
        None => Seq::empty(alloc),
    }
}

/// The scripts that were found, or none.
#[tactic(auto, unfolding(crate::specs::Job::command_total))]
pub fn scripts_or_none(alloc: Global, workers: Option<Workers>) -> Scripts
    ensures scripts { result ≡ unwrap_or workers [] }
    ensures few { length result ≤ 32 }
    ensures total { command_total result ≤ max_commands }
{
    match workers {
        Some(workers) => workers.scripts,
        None => Seq::empty(alloc),
    }
}

/// The order of these scripts, where the object has one.
pub fn optional_order(
    alloc: Global,
    format: Format,
    value: &Value,
    scripts: &[Script],
) -> Result<Option<Order>, ReadError>
    requires { length scripts.now ≤ 32 }
    ensures { Gives result (optional_at (order_at scripts.now) (codes "order") (view value.now)) }
{
    match value.get("order") {
        None => Ok(None),
        Some(found) => match order_of(alloc, format, &found, scripts) {
            Ok(order) => Ok(Some(order)),
            Err(e) => Err(e.under(alloc, "order")),
        },
    }
}

// The listeners, or none.
fn listeners_of(alloc: Global, format: Format, value: &Value) -> Result<Filters, ReadError>
    ensures { Gives result (member_or [] (listeners_at format) (codes "listeners")
        (view value.now)) }
{
    let none = Listeners {
        filters: Seq::empty(alloc),
    };
    let listeners = member_otherwise(alloc, format, value, "listeners", none)?;
    Ok(listeners.filters)
}

// The scripts, or none.
#[tactic(auto, unfolding(crate::specs::Job::command_total))]
fn scripts_of(alloc: Global, format: Format, value: &Value) -> Result<Scripts, ReadError>
    ensures scripts { Gives result (member_or [] (workers_at format) (codes "workers")
        (view value.now)) }
    ensures few { IfOk result (λ scripts. length scripts ≤ 32) }
    ensures total { IfOk result (λ scripts. command_total scripts ≤ max_commands) }
{
    let none = Workers {
        scripts: Seq::empty(alloc),
    };
    let workers = member_otherwise(alloc, format, value, "workers", none)?;
    Ok(workers.scripts)
}

/// The first pass over a job: each member in its order.
#[tactic(auto, unfolding(crate::specs::Job::draft_at))]
pub fn read_draft(alloc: Global, value: &Value) -> Result<JobDraft, ReadError>
    ensures draft { Gives result (draft_at (view value.now)) }
    ensures total { IfOk result (λ draft. command_total draft.scripts ≤ max_commands) }
{
    only(alloc, value, JOB_MEMBERS)?;
    let format: Format = member(alloc, Format::One, value, "format")?;
    let network = member(alloc, format, value, "network")?;
    let filters = listeners_of(alloc, format, value)?;
    let scripts = scripts_of(alloc, format, value)?;
    let order = optional_order(alloc, format, value, scripts.slice())?;
    Ok(JobDraft {
        network,
        filters,
        scripts,
        order,
    })
}
