// Jobs from bytes. A draft is made from the tokens as they come, each member into its place, with a tree of the
// listeners alone, or of one level or end at a time in a format that has configured buses. What does not go so (a
// fault, out of memory, a format that stands behind what it chooses, a command whose `do` is not its first member) is
// read again over a tree of the whole, which names the first fault. So nothing is owed of the first way but that what
// it gives is the draft. Then the network is loaded by edits.
ghost use Rattle.std.specs.Prelude.{◌≡◌, ◌≤◌, None, Result, Ok, codes, IfOk, IsTrue};
ghost use Rattle.grid_json.specs.declared.fault.Fault.{Fault};
ghost use Rattle.grid_value.specs.Bytes.{reading};
ghost use Rattle.grid_value.specs.View.{view};
ghost use Rattle.grid_json.specs.Job.{command_total, max_commands, draft_at};
ghost use Rattle.grid_json.specs.Reading.{Gives, member_at};
ghost use Rattle.grid_json.specs.Whole.{loaded, whole_job_at, or_bad_job, draft_of, job_of, JobGives};

use crate::job::{JobDraft, Order, read_draft};
use crate::load::load_network;
use crate::stream::{Stop, stream_draft};
use crate::{Place, ReadError, Reason};
use grid_events::Filters;
use grid_requests::Scripts;
use grid_structure::{Seeded, Structure};
use grid_value::{ByteFault, Scratch, Tree, Value, is_grammatical};
use std::alloc::Global;

/// A network with its listeners, the scripts of its workers, and the order of their steps, where one is given.
#[derive(Drop)]
pub struct Job {
    pub network: Structure,
    pub filters: Filters,
    pub scripts: Scripts,
    pub order: Option<Order>,
}

/// Why bytes are no job.
#[derive(Drop)]
pub enum JobFault {
    /// `serde_json` has no reading of the bytes.
    BadJson,
    /// The first fault of the job, and its place.
    BadJob { place: Place, reason: Reason },
    /// Out of memory.
    Memory,
}

/// What a reading gives, with the fault of a job.
fn of_job<T>(read: Result<T, ReadError>) -> Result<T, JobFault>
    ensures job { (wanted : Result T Fault) → Gives read wanted → JobGives result (or_bad_job wanted) }
    ensures value { IfOk result (λ x. read ≡ Ok x) }
{
    match read {
        Ok(value) => Ok(value),
        Err(ReadError::Memory) => Err(JobFault::Memory),
        Err(ReadError::Fault(fault)) => Err(JobFault::BadJob {
            place: fault.place,
            reason: fault.reason,
        }),
    }
}

/// The first pass over a value.
fn read_first(alloc: Global, value: &Value) -> Result<JobDraft, JobFault>
    ensures draft { JobGives result (or_bad_job (draft_at (view value.now))) }
    ensures total { IfOk result (λ draft. command_total draft.scripts ≤ max_commands) }
{
    of_job(read_draft(alloc, value))
}

/// The first pass over a tree of all that the bytes spell.
#[tactic(auto, unfolding(crate::specs::Whole::draft_of))]
fn read_tree(alloc: Global, bytes: &[u8]) -> Result<JobDraft, JobFault>
    ensures draft { JobGives result (draft_of bytes.now) }
    ensures total { IfOk result (λ draft. command_total draft.scripts ≤ max_commands) }
{
    let mut scratch = Scratch::new(alloc);
    match Tree::from_slice(alloc, bytes, &mut scratch) {
        Ok(tree) => read_first(alloc, &tree.root()),
        Err(ByteFault::NotJson) => Err(JobFault::BadJson),
        Err(ByteFault::Memory) => Err(JobFault::Memory),
    }
}

/// Whether a pass over the tokens, which keeps nothing of them, tells that the bytes are no JSON.
fn is_broken(alloc: Global, bytes: &[u8]) -> bool
    ensures { IsTrue result → reading bytes.now ≡ None }
{
    let mut scratch = Scratch::new(alloc);
    match is_grammatical(bytes, &mut scratch) {
        Ok(is_one) => !is_one,
        Err(_) => false,
    }
}

/// The first pass over the bytes, straight from the tokens where that goes, and else over a tree of them, which is
/// given up then. Where the tokens came to an end, the text is looked at first, since a tree of a broken text is made
/// in vain.
#[tactic(auto, unfolding(crate::specs::Whole::draft_of))]
fn read_bytes(alloc: Global, bytes: &[u8]) -> Result<JobDraft, JobFault>
    ensures draft { JobGives result (draft_of bytes.now) }
    ensures total { IfOk result (λ draft. command_total draft.scripts ≤ max_commands) }
{
    let stop = match stream_draft(alloc, bytes) {
        Ok(draft) => return Ok(draft),
        Err(stop) => stop,
    };
    if stop == Stop::AtEnd && is_broken(alloc, bytes) {
        return Err(JobFault::BadJson);
    }
    read_tree(alloc, bytes)
}

/// The second pass: the draft with its network loaded.
#[tactic(auto, unfolding(crate::specs::Whole::loaded))]
fn load(seeded: Seeded, draft: JobDraft) -> Result<Job, ReadError>
    ensures job { Gives result (loaded draft) }
    ensures scripts { IfOk result (λ job. job.scripts ≡ draft.scripts) }
{
    let network = load_network(seeded, draft.network)?;
    Ok(Job {
        network,
        filters: draft.filters,
        scripts: draft.scripts,
        order: draft.order,
    })
}

/// The second pass, with the fault of a job.
fn read_second(seeded: Seeded, draft: JobDraft) -> Result<Job, JobFault>
    ensures job { JobGives result (or_bad_job (loaded draft)) }
    ensures scripts { IfOk result (λ job. job.scripts ≡ draft.scripts) }
{
    of_job(load(seeded, draft))
}

/// The job of a value: both passes.
#[tactic(auto, unfolding(crate::specs::Whole::whole_job_at))]
fn read_whole(seeded: Seeded, value: &Value) -> Result<Job, ReadError>
    ensures job { Gives result (whole_job_at (view value.now)) }
    ensures total { IfOk result (λ job. command_total job.scripts ≤ max_commands) }
{
    let draft = read_draft(seeded.alloc, value)?;
    load(seeded, draft)
}

/// The job that is the member `job` of an object, which must be there: both passes over it, with `/job` before the
/// place of its first fault.
pub fn job_member(seeded: Seeded, value: &Value) -> Result<Job, ReadError>
    ensures job { Gives result (member_at whole_job_at (codes "job") (view value.now)) }
    ensures total { IfOk result (λ job. command_total job.scripts ≤ max_commands) }
{
    let alloc = seeded.alloc;
    match value.get("job") {
        None => Err(ReadError::here(alloc, Reason::Missing).under(alloc, "job")),
        Some(found) => match read_whole(seeded, &found) {
            Ok(job) => Ok(job),
            Err(e) => Err(e.under(alloc, "job")),
        },
    }
}

/// The job of a value: BadJob exactly where the job has a fault, with the first one; never BadJson.
pub fn read_value(seeded: Seeded, value: &Value) -> Result<Job, JobFault>
    ensures job { JobGives result (or_bad_job (whole_job_at (view value.now))) }
    ensures total { IfOk result (λ job. command_total job.scripts ≤ max_commands) }
{
    of_job(read_whole(seeded, value))
}

/// The job of the bytes: BadJson exactly where `serde_json` has no reading of them, BadJob exactly where the job has a
/// fault, with the first one.
#[tactic(auto, unfolding(crate::specs::Whole::job_of))]
pub fn read_job(seeded: Seeded, bytes: &[u8]) -> Result<Job, JobFault>
    ensures job { JobGives result (job_of bytes.now) }
    ensures total { IfOk result (λ job. command_total job.scripts ≤ max_commands) }
{
    match read_bytes(seeded.alloc, bytes) {
        Ok(draft) => read_second(seeded, draft),
        Err(fault) => Err(fault),
    }
}
