//! What a job has at the place of its first fault.

use crate::trail::{Stage, Trail};
use crate::walk::Walk;
use grid_forms::Form;
use json::Scratch;
use std::alloc::{AllocError, Global};

/// The text of a job, with the room that reading it needs. Each value is told by where it begins; of members of one
/// name the last counts.
#[derive(Drop)]
pub(crate) struct Job<'a> {
    text: &'a str,
    /// Where the whole value begins.
    top: usize,
    scratch: Scratch,
}

impl<'a> Job<'a> {
    pub(crate) fn new(alloc: Global, text: &'a str) -> Job<'a> {
        Job {
            text,
            top: text.len().saturating_sub(text.trim_ascii_start().len()),
            scratch: Scratch::new(alloc),
        }
    }

    /// A walk from a value on.
    pub(crate) fn walk(&mut self, at: usize) -> Option<Walk<'_>> {
        Walk::new(self.text, at, &mut self.scratch)
    }

    /// The first byte of a value, which tells its type.
    fn first(&self, at: usize) -> Option<u8> {
        self.text.as_bytes().get(at).copied()
    }

    /// The member of a name, where the value is an object.
    pub(crate) fn member(&mut self, at: usize, wanted: &str) -> Option<usize> {
        let mut walk = self.walk(at)?;
        if !walk.enters_object() {
            return None;
        }
        let mut found = None;
        for _ in 0..u64::MAX {
            let Some(name) = walk.next_name() else {
                break;
            };
            if name == wanted {
                found = Some(walk.here());
            }
            walk.pass();
        }
        found
    }

    /// The item at a position, where the value is an array.
    pub(crate) fn item(&mut self, at: usize, position: usize) -> Option<usize> {
        let mut walk = self.walk(at)?;
        if !walk.enters_array() {
            return None;
        }
        for _ in 0..position {
            if !walk.is_at_item() {
                return None;
            }
            walk.pass();
        }
        if walk.is_at_item() {
            Some(walk.here())
        } else {
            None
        }
    }

    /// How many items there are, where the value is an array.
    pub(crate) fn length(&mut self, at: usize) -> Option<usize> {
        self.walk(at)?.items()
    }

    /// The text that the value is.
    pub(crate) fn text(&mut self, at: usize) -> Option<&str> {
        if self.first(at) != Some(b'"') {
            return None;
        }
        self.walk(at)?.leaf()?.as_str()
    }

    /// The number that the value is, as it is written.
    pub(crate) fn number(&mut self, at: usize) -> Option<&str> {
        self.walk(at)?.number()
    }

    /// The whole number that the value is.
    pub(crate) fn whole(&mut self, at: usize) -> Option<i64> {
        self.walk(at)?.whole()
    }

    /// The member of a name, where it is a text.
    pub(crate) fn text_member(&mut self, at: usize, name: &str) -> Option<usize> {
        let member = self.member(at, name)?;
        if self.first(member) == Some(b'"') {
            Some(member)
        } else {
            None
        }
    }

    /// The text of a member, or none.
    pub(crate) fn word(&mut self, at: usize, name: &str) -> &str {
        let Some(member) = self.member(at, name) else {
            return "";
        };
        self.text(member).unwrap_or("")
    }

    /// The job itself, of which the whole text may be a member.
    fn inner(&mut self) -> usize {
        let top = self.top;
        self.member(top, "job").unwrap_or(top)
    }

    /// The network of the job.
    pub(crate) fn network(&mut self) -> Option<usize> {
        let inner = self.inner();
        match self.member(inner, "network") {
            Some(network) => Some(network),
            None => self.member(inner, "configured"),
        }
    }

    /// The job's format, or the last one where it names none.
    pub(crate) fn format(&mut self) -> i64 {
        let inner = self.inner();
        match self.member(inner, "format") {
            Some(format) => self.whole(format).unwrap_or(5),
            None => 5,
        }
    }

    /// Whether the value, a level of a job of the fifth format, has configured buses.
    pub(crate) fn is_bus_level(&mut self, at: usize) -> bool {
        self.word(at, "topology") == "BUS_BREAKER"
    }

    /// The format of a job with contingencies, which is the first where it names none.
    pub(crate) fn screen_format(&mut self) -> i64 {
        let top = self.top;
        match self.member(top, "format") {
            Some(format) => self.whole(format).unwrap_or(1),
            None => 1,
        }
    }

    /// The type of a value, in words.
    pub(crate) fn found(&self, at: usize) -> &'static str {
        match self.first(at) {
            Some(b'n') => "null",
            Some(b't' | b'f') => "true or false",
            Some(b'"') => "a text",
            Some(b'[') => "an array",
            Some(b'{') => "an object",
            _ => "a number",
        }
    }

    /// The text that names a stage of the way, of those members that may. A contingency alone is named by its `name`.
    fn name_of(&self, stage: &Stage, holder: &str) -> Option<usize> {
        let is_text = |at: &usize| self.first(*at) == Some(b'"');
        let name = if holder == "contingencies" {
            stage.name
        } else {
            None
        };
        stage.id.filter(is_text).or(name.filter(is_text))
    }

    /// The id or the name of the last of these stages that has one.
    fn owner_of(&self, trail: &Trail<'_>) -> Option<usize> {
        let mut owner = None;
        for (place, stage) in trail.stages.iter().enumerate() {
            let holder = step_at(trail, place.checked_sub(2));
            owner = self.name_of(stage, holder).or(owner);
        }
        owner
    }
}

/// A step of the way by its position, or no text.
fn step_at<'p>(trail: &Trail<'p>, position: Option<usize>) -> &'p str {
    match position {
        Some(position) => trail.steps.get(position).copied().unwrap_or(""),
        None => "",
    }
}

/// The command that the way goes through.
fn command_of(trail: &Trail<'_>) -> Option<usize> {
    let workers = trail.steps.iter().position(|step| *step == "workers")?;
    let stage = trail.stages.get(workers.saturating_add(3))?;
    Some(stage.at)
}

/// What stands at a place of a job, and what leads there.
#[derive(Clone, Copy, Drop)]
pub(crate) struct Seen<'p> {
    pub(crate) form: Option<Form>,
    pub(crate) value: usize,
    /// The value that holds it, or the value itself at the top.
    pub(crate) parent: usize,
    /// The value that holds that one.
    pub(crate) grandparent: usize,
    /// The id or the name of the innermost object round the place that has one.
    pub(crate) owner: Option<usize>,
    /// The command that the place is in.
    pub(crate) command: Option<usize>,
    /// The last step, a member's name or a position.
    pub(crate) name: &'p str,
    /// The step before it.
    pub(crate) holder: &'p str,
    /// The one before that.
    pub(crate) above: &'p str,
}

impl<'p> Seen<'p> {
    /// What stands at the end of a way; None where that does not lead to its end.
    fn of(job: &Job<'_>, form: Option<Form>, trail: &Trail<'p>) -> Option<Seen<'p>> {
        let steps = trail.steps.len();
        let value = trail.stages.get(steps)?.at;
        let parent = stage_at(trail, steps.checked_sub(1), value);
        Some(Seen {
            form,
            value,
            parent,
            grandparent: stage_at(trail, steps.checked_sub(2), parent),
            owner: job.owner_of(trail),
            command: command_of(trail),
            name: step_at(trail, steps.checked_sub(1)),
            holder: step_at(trail, steps.checked_sub(2)),
            above: step_at(trail, steps.checked_sub(3)),
        })
    }

    /// What stands at a place; None where nothing does.
    pub(crate) fn at(
        alloc: Global,
        job: &mut Job<'_>,
        form: Option<Form>,
        place: &'p str,
    ) -> Result<Option<Seen<'p>>, AllocError> {
        let top = job.top;
        let Some(mut walk) = job.walk(top) else {
            return Ok(None);
        };
        let trail = Trail::to(alloc, &mut walk, place)?;
        Ok(Seen::of(job, form, &trail))
    }

    /// Whether the job is one with configured buses.
    pub(crate) fn is_configured(&self) -> bool {
        matches!(self.form, Some(Form::Configured(_)))
    }

    /// Whether the job is one with contingencies.
    pub(crate) fn is_screen(&self) -> bool {
        matches!(self.form, Some(Form::Screen(_)))
    }

    /// Whether the value is an item of an array.
    pub(crate) fn is_item(&self) -> bool {
        self.name.parse::<usize>().is_ok()
    }
}

/// Where a stage of the way begins, by its position, or else another place.
fn stage_at(trail: &Trail<'_>, position: Option<usize>, otherwise: usize) -> usize {
    match position {
        Some(position) => trail
            .stages
            .get(position)
            .map_or(otherwise, |stage| stage.at),
        None => otherwise,
    }
}
