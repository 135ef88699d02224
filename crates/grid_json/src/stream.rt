// The first pass over a job straight from its tokens, where it has no fault.
ghost use Rattle.std.specs.Prelude.{◌≡◌, ◌<◌, ◌≤◌, length, unwrap_or, codes, None, Ok, IfOk, IfSome, IsTrue, true};
ghost use Rattle.grid_json.specs.declared.format.Format.TheVariants.{One};
ghost use Rattle.grid_json.specs.Job.{command_total, max_commands, draft_at};
ghost use Rattle.grid_json.specs.Streams.{Streams, Fills, Takes, WhereTaken};
ghost use Rattle.grid_json.specs.Slots.{JobHolds, job_names};
ghost use Rattle.grid_json.specs.Kept.{job_kept};
ghost use Rattle.grid_json.specs.Whole.{draft_of};

use crate::format::Format;
use crate::job::{JobDraft, Listeners, Workers, filters_or_none, scripts_or_none, workers_of};
use crate::network::NetworkDraft;
use crate::order::order_of_some;
use crate::tokens::{FromTokens, Offer, Slots, fill, is_named, leaf, object_of, small};
use grid_ids::Seq;
use grid_requests::Scripts;
use grid_value::{MAX_DEPTH, Scratch};
use json::{Reader, Token};
use std::alloc::Global;

impl FromTokens for Format {
    fn from_tokens(
        alloc: Global,
        format: Format,
        reader: &mut Reader<'_>,
        _depth: usize,
    ) -> Option<Format> {
        leaf(alloc, format, reader)
    }
}

impl FromTokens for Listeners {
    fn from_tokens(
        alloc: Global,
        format: Format,
        reader: &mut Reader<'_>,
        depth: usize,
    ) -> Option<Listeners> {
        small(alloc, format, reader, depth)
    }
}

impl FromTokens for Workers {
    fn from_tokens(
        alloc: Global,
        format: Format,
        reader: &mut Reader<'_>,
        depth: usize,
    ) -> Option<Workers> {
        let scripts = Scripts::from_tokens(alloc, format, reader, depth)?;
        let workers = workers_of(scripts)?;
        Some(workers)
    }
}

/// Takes the next value of the reader into a slot, by the format that was found.
fn fill_by<T: FromTokens>(
    alloc: Global,
    format: Option<Format>,
    slot: &mut Option<T>,
    reader: &mut Reader<'_>,
    depth: usize,
) -> Offer
    ensures { WhereTaken result
        (Fills (T.reads (unwrap_or format One)) depth reader.old reader.new slot.new
        × (length reader.new < length reader.old)) }
{
    match format {
        Some(format) => fill(alloc, format, slot, reader, depth),
        None => Offer::Fault,
    }
}

/// The members of a job.
#[derive(Drop)]
struct JobSlots {
    format: Option<Format>,
    network: Option<NetworkDraft>,
    listeners: Option<Listeners>,
    workers: Option<Workers>,
    order: Option<Seq<i64>>,
}

impl JobSlots {
    /// Whether no member was found that is read by the format.
    fn awaits_format(&self) -> bool
        ensures { IsTrue result → (self.now.network ≡ None) × (self.now.listeners ≡ None)
            × (self.now.workers ≡ None) }
    {
        self.network.is_none() && self.listeners.is_none() && self.workers.is_none()
    }

    /// Takes the next value of the reader as the format, where no member was found that is read by it.
    fn take_format(
        &mut self,
        alloc: Global,
        format: Format,
        reader: &mut Reader<'_>,
        depth: usize,
    ) -> Offer
        ensures { WhereTaken result
            (Takes (JobHolds format) (codes "format") depth reader.old reader.new self.old self.new
            × (length reader.new < length reader.old)) }
    {
        if !self.awaits_format() {
            return Offer::Fault;
        }
        fill(alloc, format, &mut self.format, reader, depth)
    }
}

impl Slots for JobSlots {
    ghost names = { job_names };

    ghost apart = { true };

    ghost holds = { JobHolds };

    ghost kept = { job_kept };

    fn empty() -> JobSlots {
        JobSlots {
            format: None,
            network: None,
            listeners: None,
            workers: None,
            order: None,
        }
    }

    fn take(
        &mut self,
        alloc: Global,
        format: Format,
        name: &str,
        reader: &mut Reader<'_>,
        depth: usize,
    ) -> Offer {
        if is_named(name, "format") {
            self.take_format(alloc, format, reader, depth)
        } else if is_named(name, "network") {
            fill_by(alloc, self.format, &mut self.network, reader, depth)
        } else if is_named(name, "listeners") {
            fill_by(alloc, self.format, &mut self.listeners, reader, depth)
        } else if is_named(name, "workers") {
            fill_by(alloc, self.format, &mut self.workers, reader, depth)
        } else if is_named(name, "order") {
            fill(alloc, format, &mut self.order, reader, depth)
        } else {
            Offer::Unknown
        }
    }
}

/// The next value of the reader as a job.
#[tactic(auto, unfolding(crate::specs::Job::draft_at))]
fn next_draft(alloc: Global, reader: &mut Reader<'_>, depth: usize) -> Option<JobDraft>
    ensures draft { IfSome result (Streams draft_at depth reader.old reader.new) }
    ensures total { IfSome result (λ draft. command_total draft.scripts ≤ max_commands) }
{
    let slots: JobSlots = object_of(alloc, Format::One, reader, depth)?;
    // The format was found before what was read by it.
    let _format = slots.format?;
    let network = slots.network?;
    let filters = filters_or_none(alloc, slots.listeners);
    let scripts = scripts_or_none(alloc, slots.workers);
    let order = order_of_some(alloc, slots.order, scripts.slice())?;
    Some(JobDraft {
        network,
        filters,
        scripts,
        order,
    })
}

/// Where a pass over tokens stopped, which is a guess at what is wrong, and promises nothing.
#[derive(Clone, Copy, Debug, Drop, PartialEq, Eq)]
pub enum Stop {
    /// Before a good token, as where a job has a fault.
    Midway,
    /// Where no good token follows, as where the text is broken.
    AtEnd,
}

/// Where the reader stands.
fn stop_of(reader: &mut Reader<'_>) -> Stop {
    match reader.next() {
        None | Some(Token::Bad) => Stop::AtEnd,
        Some(_) => Stop::Midway,
    }
}

/// The first pass over the bytes, where they spell a job with no fault whose format stands before what is read by it.
pub fn stream_draft(alloc: Global, bytes: &[u8]) -> Result<JobDraft, Stop>
    ensures draft { IfOk result (λ draft. draft_of bytes.now ≡ Ok draft) }
    ensures total { IfOk result (λ draft. command_total draft.scripts ≤ max_commands) }
{
    let Ok(text) = std::str::from_utf8(bytes) else {
        return Err(Stop::AtEnd);
    };
    let mut scratch = Scratch::new(alloc);
    let Ok(mut reader) = Reader::new(text, &mut scratch) else {
        return Err(Stop::Midway);
    };
    let Some(draft) = next_draft(alloc, &mut reader, MAX_DEPTH) else {
        return Err(stop_of(&mut reader));
    };
    if reader.next().is_some() {
        return Err(Stop::AtEnd);
    }
    Ok(draft)
}
