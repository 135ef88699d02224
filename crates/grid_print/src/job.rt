// Jobs as JSON text.
ghost use Rattle.std.specs.Prelude.{◌≡◌, ◌≤◌, [], ◌++◌, false, Some, None, Ok, IfOk, OnOk, map};
ghost use Rattle.serde_json.specs.Data.{depth};
ghost use Rattle.serde_json.specs.Read.{max_depth};
ghost use Rattle.serde_json.specs.Written.{has_float};
ghost use Rattle.serde_json.specs.View.{view};
ghost use Rattle.grid_value.specs.Bytes.{reading};
ghost use Rattle.grid_json.specs.Whole.{job_of};
ghost use Rattle.grid_print.specs.Readable.{IsReadable};
ghost use Rattle.grid_print.specs.Loads.{job_alone};
ghost use Rattle.grid_print.specs.Objects.{word_if, array_of as array};
ghost use Rattle.grid_print.specs.Job.{kinds_value, job_value, line_of, job_text, network_text};

use crate::formats::format_of;
use crate::object::{ToJson, array_of, put, put_given, put_value};
use grid_events::Filter;
use grid_ids::{Memory, Seq};
use grid_json::{Job, Order};
use grid_requests::Script;
use grid_structure::Structure;
use serde_json::{Map, Value};
use std::alloc::Global;

/// Puts a word last where its flag is set.
fn push_word(words: &mut Vec<Value>, alloc: Global, wanted: bool, word: &str) -> Result<(), Memory>
    ensures { OnOk result (map view words.new.items
        ≡ map view words.old.items ++ word_if wanted word.now) }
{
    if wanted {
        words.push(Value::try_from_str(alloc, word)?)?;
    }
    Ok(())
}

/// The kinds that a listener wants.
#[tactic(auto, unfolding(crate::specs::Job::kinds_value))]
fn kinds(alloc: Global, filter: &Filter) -> Result<Value, Memory>
    ensures { IfOk result (λ v. view v ≡ kinds_value filter.now) }
{
    let mut words = Vec::new(alloc);
    push_word(&mut words, alloc, filter.created, "created")?;
    push_word(&mut words, alloc, filter.removed, "removed")?;
    push_word(&mut words, alloc, filter.updated, "updated")?;
    push_word(&mut words, alloc, filter.variant_created, "variant_created")?;
    push_word(
        &mut words,
        alloc,
        filter.variant_overwritten,
        "variant_overwritten",
    )?;
    push_word(&mut words, alloc, filter.variant_removed, "variant_removed")?;
    Ok(Value::from(words))
}

impl ToJson for Filter {
    ghost use Rattle.grid_print.specs.Job.{listener_value};

    ghost written = { listener_value };

    #[tactic(auto, unfolding(crate::specs::Objects::members_from, crate::specs::Job::listener_value))]
    fn to_json(&self, alloc: Global) -> Result<Value, Memory> {
        let mut members = Map::new(alloc);
        put_value(&mut members, alloc, "kinds", kinds(alloc, self)?)?;
        put_given(&mut members, alloc, "variant", &self.variant)?;
        Ok(Value::from(members))
    }
}

impl<T: ToJson + Drop> ToJson for Seq<T> {
    ghost written = { array T.ToJson.written };

    fn to_json(&self, alloc: Global) -> Result<Value, Memory> {
        array_of(alloc, self.slice())
    }
}

/// A job's value.
#[tactic(auto, unfolding(crate::specs::Objects::members_from, crate::specs::Job::job_value))]
fn value_of(
    alloc: Global,
    network: &Structure,
    filters: &[Filter],
    scripts: &[Script],
    order: &Option<Order>,
) -> Result<Value, Memory>
    ensures value { IfOk result (λ v. view v
        ≡ job_value network.now filters.now scripts.now order.now) }
    ensures readable { OnOk result (IsReadable network.now) }
{
    let mut members = Map::new(alloc);
    put(&mut members, alloc, "format", &format_of(network, scripts))?;
    put(&mut members, alloc, "network", network)?;
    put_value(&mut members, alloc, "listeners", array_of(alloc, filters)?)?;
    put_value(&mut members, alloc, "workers", array_of(alloc, scripts)?)?;
    put_given(&mut members, alloc, "order", order)?;
    Ok(Value::from(members))
}

/// The text of a value, with a newline after it.
#[tactic(auto, using(crate::proofs::NewlineTexts::line_returns))]
fn line(alloc: Global, value: &Value) -> Result<Vec<u8>, Memory>
    requires whole { has_float (view value.now) ≡ false }
    requires shallow { depth (view value.now) ≤ max_depth }
    ensures text { IfOk result (λ bytes. bytes.items ≡ line_of (view value.now)) }
    ensures read { IfOk result (λ bytes. reading bytes.items ≡ Some (view value.now)) }
{
    let mut bytes = value.to_vec(alloc)?;
    bytes.push(b'\n')?;
    Ok(bytes)
}

/// The text of a job: one line of JSON, with no space, members by byte order of their names, and a newline. It is of
/// the least format that has the words of the job. It is read back as the same value. Memory comes only where memory
/// runs out.
#[tactic(auto, unfolding(crate::specs::Job::job_text), using(crate::proofs::Wholes::job_has_no_float, crate::proofs::Wholes::job_is_shallow))]
pub fn print_job(alloc: Global, job: &Job) -> Result<Vec<u8>, Memory>
    ensures text { IfOk result (λ bytes. bytes.items ≡ job_text job.now) }
    ensures read { IfOk result (λ bytes. reading bytes.items
        ≡ Some (job_value job.now.network job.now.filters job.now.scripts job.now.order)) }
{
    let value = value_of(
        alloc,
        &job.network,
        job.filters.slice(),
        job.scripts.slice(),
        &job.order,
    )?;
    line(alloc, &value)
}

/// The text of a job of this network alone, with no listeners, no workers and no order. Reading it gives that job: its
/// network is equal to this one. Memory comes only where memory runs out.
#[tactic(auto, unfolding(crate::specs::Job::network_text), using(crate::proofs::Wholes::job_has_no_float, crate::proofs::Wholes::job_is_shallow, crate::proofs::NetworkDrafts::printed_is_back))]
pub fn print_network(alloc: Global, network: &Structure) -> Result<Vec<u8>, Memory>
    ensures text { IfOk result (λ bytes. bytes.items ≡ network_text network.now) }
    ensures read { IfOk result (λ bytes. reading bytes.items
        ≡ Some (job_value network.now [] [] None)) }
    ensures back { IfOk result (λ bytes. job_of bytes.items ≡ Ok (job_alone network.now)) }
{
    network.keeps();
    let filters = Seq::empty(alloc);
    let scripts = Seq::empty(alloc);
    let value = value_of(alloc, network, filters.slice(), scripts.slice(), &None)?;
    line(alloc, &value)
}
