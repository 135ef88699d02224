// What listeners were told.
ghost use Rattle.std.specs.Prelude.{◌++◌, codes};
ghost use Rattle.grid_report.specs.Events.{moved_text, event_text, event_line};
ghost use Rattle.grid_report.specs.Puts.{Puts};

use crate::text::{Text, put_named};
use grid_events::Event;
use grid_ids::{Id, Memory};

#[tactic(auto, unfolding(crate::specs::Events::moved_text))]
fn put_update(out: &mut Text, variant: &Id, switch: &Id, opened: bool) -> Result<(), Memory>
    ensures { Puts out.old
        (codes "updated " ++ variant.now ++ codes " " ++ switch.now ++ moved_text opened)
        out.new result }
{
    put_named(out, "updated ", variant)?;
    put_named(out, " ", switch)?;
    if opened {
        out.put(" opened")
    } else {
        out.put(" closed")
    }
}

/// Puts a word and two variants.
fn put_made(out: &mut Text, word: &str, from: &Id, to: &Id) -> Result<(), Memory>
    ensures { Puts out.old (word.now ++ from.now ++ codes " to " ++ to.now) out.new result }
{
    put_named(out, word, from)?;
    put_named(out, " to ", to)
}

#[tactic(auto, unfolding(crate::specs::Events::event_text))]
fn put_event(out: &mut Text, event: &Event) -> Result<(), Memory>
    ensures { Puts out.old (event_text event.now) out.new result }
{
    match event {
        Event::Created { id } => put_named(out, "created ", id),
        Event::Removed { id } => put_named(out, "removed ", id),
        Event::Updated {
            variant,
            switch,
            opened,
        } => put_update(out, variant, switch, *opened),
        Event::VariantCreated { from, to } => put_made(out, "variant_created ", from, to),
        Event::VariantOverwritten { from, to } => put_made(out, "variant_overwritten ", from, to),
        Event::VariantRemoved { name } => put_named(out, "variant_removed ", name),
    }
}

/// Puts the line of an event.
#[tactic(auto, unfolding(crate::specs::Events::event_line))]
pub(crate) fn put_event_line(out: &mut Text, event: &Event) -> Result<(), Memory>
    ensures { Puts out.old (event_line event.now) out.new result }
{
    put_event(out, event)?;
    out.put("\n")
}
