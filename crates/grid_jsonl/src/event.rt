// What listeners were told.
ghost use Rattle.std.specs.Prelude.{◌∷◌, [], codes};
ghost use Rattle.serde_json.specs.Data.{boolean, string};
ghost use Rattle.grid_jsonl.specs.Trees.{more_text};
ghost use Rattle.grid_jsonl.specs.Outcomes.{event_fields};
ghost use Rattle.grid_report.specs.Puts.{Puts};

use crate::member::{put_flag, put_id, put_text};
use grid_events::Event;
use grid_ids::{Id, Memory};
use grid_report::Text;

/// Puts the word of an event, and an id.
fn put_one(out: &mut Text, word: &str, name: &str, id: &Id) -> Result<(), Memory>
    ensures { Puts out.old
        (more_text ((codes "event", string word.now) ∷ (name.now, string id.now) ∷ []))
        out.new result }
{
    put_text(out, "event", word)?;
    put_id(out, name, id)
}

/// Puts the word of an event, and two variants.
fn put_made(out: &mut Text, word: &str, from: &Id, to: &Id) -> Result<(), Memory>
    ensures { Puts out.old
        (more_text ((codes "event", string word.now) ∷ (codes "from", string from.now)
        ∷ (codes "to", string to.now) ∷ []))
        out.new result }
{
    put_text(out, "event", word)?;
    put_id(out, "from", from)?;
    put_id(out, "to", to)
}

fn put_updated(out: &mut Text, variant: &Id, switch: &Id, opened: bool) -> Result<(), Memory>
    ensures { Puts out.old
        (more_text ((codes "event", string (codes "updated")) ∷ (codes "variant", string variant.now)
        ∷ (codes "switch", string switch.now) ∷ (codes "open", boolean opened) ∷ []))
        out.new result }
{
    put_text(out, "event", "updated")?;
    put_id(out, "variant", variant)?;
    put_id(out, "switch", switch)?;
    put_flag(out, "open", opened)
}

/// Puts the members of an event.
#[tactic(auto, unfolding(crate::specs::Outcomes::event_fields))]
pub(crate) fn put_event(out: &mut Text, event: &Event) -> Result<(), Memory>
    ensures { Puts out.old (more_text (event_fields event.now)) out.new result }
{
    match event {
        Event::Created { id } => put_one(out, "created", "id", id),
        Event::Removed { id } => put_one(out, "removed", "id", id),
        Event::Updated {
            variant,
            switch,
            opened,
        } => put_updated(out, variant, switch, *opened),
        Event::VariantCreated { from, to } => put_made(out, "variant_created", from, to),
        Event::VariantOverwritten { from, to } => put_made(out, "variant_overwritten", from, to),
        Event::VariantRemoved { name } => put_one(out, "variant_removed", "variant", name),
    }
}
