// Replies.
ghost use Rattle.std.specs.Prelude.{◌≡◌, ◌++◌, ◌∷◌, [], true, codes};
ghost use Rattle.std.specs.Option.{option_copied};
ghost use Rattle.json.specs.Print.{quoted};
ghost use Rattle.serde_json.specs.Data.{string};
ghost use Rattle.serde_json.specs.Written.{compact_text};
ghost use Rattle.grid_report.specs.Lines.{terminal_text};
ghost use Rattle.grid_report.specs.Refusals.{reason_text};
ghost use Rattle.grid_jsonl.specs.Trees.{field_text};
ghost use Rattle.grid_jsonl.specs.Parts.{terminal_value, view_bus_value};
ghost use Rattle.grid_jsonl.specs.Refusals as refusals;
ghost use Rattle.grid_jsonl.specs.Replies.{answer_of, breaker_value, components_value, operated_value, refused_value, reply_value, totals_value};
ghost use Rattle.grid_print.specs.Objects.{array_of};
ghost use Rattle.grid_report.specs.Puts.{Puts};

use crate::items::{Written, put_array, put_array_in, put_items_in};
use crate::member::{open_with, put_name, put_number, put_sum_of};
use crate::string::put_escaped;
use grid_busbreaker::BusBreakerView;
use grid_busview::BusView;
use grid_core::{BusComponent, Refusal, Reply, Request};
use grid_ids::{Id, Memory};
use grid_level::Terminal;
use grid_report::{Text, put_reason, refusal_number};
use grid_structure::EditFault;

/// Puts an answer last that is a word alone, as an object. Where memory runs out, the text is empty.
pub fn put_word(out: &mut Text, word: &str) -> Result<(), Memory>
    ensures { Puts out.old (compact_text (answer_of word.now [])) out.new result }
{
    open_with(out, "answer", word)?;
    out.put("}")
}

/// Puts a word and the switches that were operated.
fn put_operated(out: &mut Text, word: &str, ids: &[Id]) -> Result<(), Memory>
    ensures { Puts out.old (compact_text (operated_value word.now ids.now)) out.new result }
{
    open_with(out, "answer", word)?;
    put_array(out, "switches", ids)?;
    out.put("}")
}

fn put_no_breaker(out: &mut Text, terminal: &Terminal) -> Result<(), Memory>
    ensures { Puts out.old
        (compact_text (answer_of (codes "no breaker") ((codes "before", terminal_value terminal.now) ∷ [])))
        out.new result }
{
    open_with(out, "answer", "no breaker")?;
    put_before(out, terminal)?;
    out.put("}")
}

#[tactic(auto, unfolding(crate::specs::Trees::field_text))]
fn put_before(out: &mut Text, terminal: &Terminal) -> Result<(), Memory>
    ensures { Puts out.old (field_text true (codes "before", terminal_value terminal.now)) out.new result }
{
    put_name(out, "before")?;
    terminal.put(out)
}

fn put_breaker_view(out: &mut Text, view: &BusBreakerView) -> Result<(), Memory>
    ensures { Puts out.old (compact_text (breaker_value view.now)) out.new result }
{
    open_with(out, "answer", "bus_breaker_view")?;
    put_array_in(out, "buses", &view.level, view.buses.slice())?;
    put_array_in(out, "retained", &view.level, view.switches.slice())?;
    out.put("}")
}

fn put_bus_view(out: &mut Text, view: &BusView) -> Result<(), Memory>
    ensures { Puts out.old
        (compact_text (answer_of (codes "bus_view")
        ((codes "buses", array_of (view_bus_value view.now.level) view.now.buses) ∷ [])))
        out.new result }
{
    open_with(out, "answer", "bus_view")?;
    put_array_in(out, "buses", &view.level, view.buses.slice())?;
    out.put("}")
}

/// Puts the buses of the level that was asked for.
#[tactic(auto, unfolding(crate::specs::Replies::components_value))]
fn put_asked(out: &mut Text, request: &Request, buses: &[BusComponent]) -> Result<(), Memory>
    ensures { Puts out.old (compact_text (components_value request.now buses.now)) out.new result }
{
    match request {
        Request::Components { level } => put_items_in(out, level, buses),
        _ => out.put("[]"),
    }
}

#[tactic(auto, unfolding(crate::specs::Trees::field_text))]
fn put_components_of(
    out: &mut Text,
    request: &Request,
    buses: &[BusComponent],
) -> Result<(), Memory>
    ensures { Puts out.old (field_text true (codes "buses", components_value request.now buses.now)) out.new result }
{
    put_name(out, "buses")?;
    put_asked(out, request, buses)
}

fn put_components(out: &mut Text, request: &Request, buses: &[BusComponent]) -> Result<(), Memory>
    ensures { Puts out.old
        (compact_text (answer_of (codes "components") ((codes "buses", components_value request.now buses.now) ∷ [])))
        out.new result }
{
    open_with(out, "answer", "components")?;
    put_components_of(out, request, buses)?;
    out.put("}")
}

fn put_totals(out: &mut Text, load: &i128, generation: &i128) -> Result<(), Memory>
    ensures { Puts out.old (compact_text (totals_value load.now generation.now)) out.new result }
{
    open_with(out, "answer", "totals")?;
    put_sum_of(out, "load", load)?;
    put_sum_of(out, "generation", generation)?;
    out.put("}")
}

// ---- refusals

/// The terminal that takes a node, where a fault names one.
#[tactic(auto, unfolding(crate::specs::Refusals::taken_at))]
fn taken_at(fault: &EditFault) -> Option<&Terminal>
    ensures { option_copied result ≡ refusals.taken_at fault.now }
{
    match fault {
        EditFault::NodeTaken { terminal } => Some(terminal),
        _ => None,
    }
}

/// The terminal that takes a node, where a refusal names one.
#[tactic(auto, unfolding(crate::specs::Refusals::taken_by))]
fn taken_by(refusal: &Refusal) -> Option<&Terminal>
    ensures { option_copied result ≡ refusals.taken_by refusal.now }
{
    match refusal {
        Refusal::Edit(fault) => taken_at(fault),
        _ => None,
    }
}

/// Puts the reason that names the terminal at a node.
fn put_taken(out: &mut Text, terminal: &Terminal) -> Result<(), Memory>
    ensures { Puts out.old (quoted (codes "node taken by " ++ terminal_text terminal.now)) out.new result }
{
    put_escaped(out, "\"node taken by ", terminal.equipment.text(), ".")?;
    out.put_unsigned(u64::from(terminal.side))?;
    out.put("\"")
}

/// Puts a reason as it stands, between quotes.
fn put_plain(out: &mut Text, refusal: &Refusal) -> Result<(), Memory>
    ensures { Puts out.old (34 ∷ (reason_text refusal.now ++ 34 ∷ [])) out.new result }
{
    out.put("\"")?;
    put_reason(out, refusal)?;
    out.put("\"")
}

/// Puts the reason of a refusal. The id of a terminal is all that may have to be escaped in it.
fn put_reason_text(out: &mut Text, refusal: &Refusal) -> Result<(), Memory>
    ensures { Puts out.old (quoted (reason_text refusal.now)) out.new result }
{
    match taken_by(refusal) {
        Some(terminal) => put_taken(out, terminal),
        None => put_plain(out, refusal),
    }
}

#[tactic(auto, unfolding(crate::specs::Trees::field_text))]
fn put_why(out: &mut Text, refusal: &Refusal) -> Result<(), Memory>
    ensures { Puts out.old (field_text true (codes "reason", string (reason_text refusal.now))) out.new result }
{
    put_name(out, "reason")?;
    put_reason_text(out, refusal)
}

/// Puts a refusal last, as an object. Where memory runs out, the text is empty.
pub fn put_refused(out: &mut Text, refusal: &Refusal) -> Result<(), Memory>
    ensures { Puts out.old (compact_text (refused_value refusal.now)) out.new result }
{
    open_with(out, "answer", "refused")?;
    put_number(out, "number", refusal_number(refusal))?;
    put_why(out, refusal)?;
    out.put("}")
}

// ---- replies

/// Puts a reply to a request last, as an object. Where memory runs out, the text is empty.
#[tactic(auto, unfolding(crate::specs::Replies::reply_value))]
pub fn put_reply(out: &mut Text, request: &Request, reply: &Reply) -> Result<(), Memory>
    ensures { Puts out.old (compact_text (reply_value request.now reply.now)) out.new result }
{
    match reply {
        Reply::Done => put_word(out, "done"),
        Reply::Unchanged => put_word(out, "unchanged"),
        Reply::Closed(ids) => put_operated(out, "closed", ids.get().slice()),
        Reply::AlreadyConnected => put_word(out, "already connected"),
        Reply::NoPath => put_word(out, "no path"),
        Reply::Opened(ids) => put_operated(out, "opened", ids.get().slice()),
        Reply::AlreadyDisconnected => put_word(out, "already disconnected"),
        Reply::NoBreaker(terminal) => put_no_breaker(out, terminal),
        Reply::BusBreaker(view) => put_breaker_view(out, view.get()),
        Reply::Bus(view) => put_bus_view(out, view.get()),
        Reply::Components(buses) => put_components(out, request, buses.get().slice()),
        Reply::Totals { load, generation } => put_totals(out, load, generation),
        Reply::Created => put_word(out, "created"),
        Reply::Overwritten => put_word(out, "overwritten"),
        Reply::Refused(refusal) => put_refused(out, refusal),
    }
}
