// Steps, the line of kind `state`, and the warning.
ghost use Rattle.std.specs.Prelude.{◌≡◌, ◌++◌, ◌==◌, length, true, false, codes, decimal};
ghost use Rattle.std.specs.List.{count_by};
ghost use Rattle.std.specs.Option.{option_map};
ghost use Rattle.serde_json.specs.Written.{compact_text};
ghost use Rattle.grid_print.specs.Command.{request_value};
ghost use Rattle.grid_print.specs.Objects.{given, natural};
ghost use Rattle.grid_jsonl.specs.Trees.{field_text, fields_text, more_text};
ghost use Rattle.grid_jsonl.specs.Replies.{reply_value};
ghost use Rattle.grid_jsonl.specs.Borrowed.{step_in};
ghost use Rattle.grid_jsonl.specs.Steps as steps;
ghost use Rattle.grid_jsonl.specs.Steps.{asked_fields, state_line, step_fields, step_of, step_value, told_text, warning_text};
ghost use Rattle.grid_report.specs.Puts.{Puts};

use crate::command::put_command;
use crate::member::{open_with, put_id, put_name, put_number};
use crate::reply::put_reply;
use crate::string::put_escaped;
use grid_core::{Entry, Reply, Request};
use grid_ids::Memory;
use grid_report::{Text, put_answer, put_command as put_words, put_named};

/// A step: its place in the order from 0, its number among its worker's steps from 1, and what came of it.
#[derive(Clone, Copy)]
pub(crate) struct Step<'a> {
    pub(crate) place: u64,
    pub(crate) number: u64,
    pub(crate) entry: &'a Entry,
}

/// Puts the first member of an object, which is a number.
#[tactic(auto, unfolding(crate::specs::Trees::field_text, crate::specs::Trees::name_text))]
fn put_first_number(out: &mut Text, name: &str, number: u64) -> Result<(), Memory>
    ensures { Puts out.old (field_text false (name.now, natural number)) out.new result }
{
    put_escaped(out, "\"", name, "\":")?;
    out.put_unsigned(number)
}

#[tactic(auto, unfolding(crate::specs::Trees::field_text))]
fn put_asked(out: &mut Text, request: &Request) -> Result<(), Memory>
    ensures { Puts out.old (field_text true (codes "command", request_value request.now)) out.new result }
{
    put_name(out, "command")?;
    put_command(out, request)
}

#[tactic(auto, unfolding(crate::specs::Trees::field_text))]
fn put_answered(out: &mut Text, request: &Request, reply: &Reply) -> Result<(), Memory>
    ensures { Puts out.old (field_text true (codes "reply", reply_value request.now reply.now)) out.new result }
{
    put_name(out, "reply")?;
    put_reply(out, request, reply)
}

/// Puts the members of a step last that say who asked for what, without braces: its place in the order from 0, its
/// worker, its number among its worker's steps from 1, the working variant and the command. Where memory runs out,
/// the text is empty.
pub fn put_asked_step(out: &mut Text, place: u64, step: u64, entry: &Entry) -> Result<(), Memory>
    ensures { Puts out.old
        (fields_text (asked_fields place step entry.now.worker entry.now.variant entry.now.request))
        out.new result }
{
    put_first_number(out, "place", place)?;
    put_number(out, "worker", u64::from(entry.worker))?;
    put_number(out, "step", step)?;
    put_id(out, "variant", &entry.variant)?;
    put_asked(out, &entry.request)
}

/// Puts the members of a step last, without braces: its place in the order from 0, its number among its worker's steps
/// from 1, and what came of it. Where memory runs out, the text is empty.
pub fn put_step(out: &mut Text, place: u64, step: u64, entry: &Entry) -> Result<(), Memory>
    ensures { Puts out.old (fields_text (step_fields (step_of place step entry.now))) out.new result }
{
    put_asked_step(out, place, step, entry)?;
    put_answered(out, &entry.request, &entry.reply)
}

// ---- refused steps

/// Whether a reply is a refusal.
#[tactic(auto, unfolding(crate::specs::Steps::is_refused))]
fn is_refused(reply: &Reply) -> bool
    ensures { result ≡ steps.is_refused reply.now }
{
    match reply {
        Reply::Refused(_) => true,
        _ => false,
    }
}

/// How many steps were refused. It takes no memory.
#[tactic(auto, unfolding(crate::specs::Steps::refused_count))]
pub fn refused_count(journal: &[Entry]) -> u64
    ensures { result ≡ steps.refused_count journal.now }
{
    let mut count = 0;
    for entry in journal {
        if is_refused(&entry.reply) {
            count += 1;
        }
    }
    count
}

/// How many of some steps are a worker's.
fn count_of(journal: &[Entry], worker: u32) -> u64
    ensures { result ≡ count_by (λ e. e.worker == worker) journal.now }
{
    journal
        .iter()
        .filter(|entry| entry.worker == worker)
        .count() as u64
}

/// The first step that was refused.
fn first_refused<'a>(journal: &'a [Entry]) -> Option<Step<'a>>
    ensures { option_map step_in result ≡ steps.first_refused journal.now }
{
    for place in 0..journal.len() {
        let entry = &journal[place];
        if is_refused(&entry.reply) {
            return Some(Step {
                place: place as u64,
                number: count_of(&journal[..place + 1], entry.worker),
                entry,
            });
        }
    }
    None
}

/// Puts a step between braces.
fn put_step_object(out: &mut Text, step: &Step<'_>) -> Result<(), Memory>
    ensures { Puts out.old (compact_text (step_value (step_in step.now))) out.new result }
{
    out.put("{")?;
    put_step(out, step.place, step.number, step.entry)?;
    out.put("}")
}

/// Puts a step that was found as a member.
#[tactic(auto, unfolding(crate::specs::Trees::field_text))]
fn put_found(out: &mut Text, step: &Step<'_>) -> Result<(), Memory>
    ensures { Puts out.old (field_text true (codes "first_refused", step_value (step_in step.now))) out.new result }
{
    put_name(out, "first_refused")?;
    put_step_object(out, step)
}

/// Puts the first refused step, where there is one, as a member.
fn put_first_refused(out: &mut Text, journal: &[Entry]) -> Result<(), Memory>
    ensures { Puts out.old
        (more_text (given (codes "first_refused") step_value (steps.first_refused journal.now)))
        out.new result }
{
    match first_refused(journal) {
        Some(step) => put_found(out, &step),
        None => Ok(()),
    }
}

/// Puts the line of kind `state` of a journal last: how many commands it has, how many were refused, and the first
/// that was. Where memory runs out, the text is empty.
pub fn put_state(out: &mut Text, journal: &[Entry]) -> Result<(), Memory>
    ensures { Puts out.old (state_line journal.now) out.new result }
{
    open_with(out, "kind", "state")?;
    put_number(out, "commands", journal.len() as u64)?;
    put_number(out, "refused", refused_count(journal))?;
    put_first_refused(out, journal)?;
    out.put("}\n")
}

// ---- the warning

/// Puts a step's worker and number, and the report's line of it without the number.
#[tactic(auto, unfolding(crate::specs::Steps::told_text))]
fn put_told(out: &mut Text, step: &Step<'_>) -> Result<(), Memory>
    ensures { Puts out.old (told_text (step_in step.now)) out.new result }
{
    let entry = step.entry;
    out.put_unsigned(u64::from(entry.worker))?;
    out.put(" step ")?;
    out.put_unsigned(step.number)?;
    put_named(out, ", ", &entry.variant)?;
    out.put(" ")?;
    put_words(out, &entry.request)?;
    out.put(": ")?;
    put_answer(out, &entry.reply)
}

/// Puts how many of a journal's steps were refused.
fn put_counts(out: &mut Text, journal: &[Entry]) -> Result<(), Memory>
    ensures { Puts out.old
        (codes "grid: warning: " ++ decimal (steps.refused_count journal.now) ++ codes " of "
        ++ decimal (length journal.now) ++ codes " commands refused; the first: worker ")
        out.new result }
{
    out.put("grid: warning: ")?;
    out.put_unsigned(refused_count(journal))?;
    out.put(" of ")?;
    out.put_unsigned(journal.len() as u64)?;
    out.put(" commands refused; the first: worker ")
}

/// Puts the line last that warns of a journal's refused commands, and nothing where none was refused. Where memory runs
/// out, the text is empty.
pub fn put_warning(out: &mut Text, journal: &[Entry]) -> Result<(), Memory>
    ensures { Puts out.old (warning_text journal.now) out.new result }
{
    match first_refused(journal) {
        Some(step) => {
            put_counts(out, journal)?;
            put_told(out, &step)?;
            out.put("\n")
        }
        None => Ok(()),
    }
}
