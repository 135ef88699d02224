// The events of one step.
ghost use Rattle.std.specs.Prelude.{◌≡◌, IfOk};
ghost use Rattle.std.proofs.Common.{rules};

use crate::Entry;
use crate::entries::Part;
use grid_events::{Event, Events};
use grid_ids::{Duplicate, Memory, same_items};
use grid_shared::Shared;
use std::alloc::{AllocError, Global};
use std::marker::Model;

// Where the events lie.
#[derive(Debug, Drop)]
enum Held {
    // In a list of their own.
    Own(Events),
    // In a list that several owners read.
    Shared(Shared<Events>),
}

/// The events of one step, in order. A list of at most one lies here alone; a longer one, as of a plan that moved many
/// switches, is shared by its copies, and by the entries of a journal that tell the same. It is seen as the list.
#[derive(Debug)]
pub struct EventList {
    held: Held,
}

// Written out, so that where one is dropped a proof sees one call, and not a case for each way in which events are
// held.
impl Drop for EventList {
    fn drop(self) {
        let EventList { held: _ } = self;
    }
}

impl Model for EventList {
    ghost use Rattle.std.specs.Prelude.{List};
    ghost use Rattle.grid_events.specs.declared.event.Event.{Event};
    ghost use Rattle.grid_core.specs.EventLists.{held_events};

    ghost Value = { List Event };

    ghost view = { λ list. held_events list.held };
}

impl EventList {
    /// A list of its own, without memory.
    pub(crate) fn own(events: Events) -> EventList
        ensures { result ≡ events }
    {
        EventList {
            held: Held::Own(events),
        }
    }

    /// The list, shared where it has more than one event.
    pub(crate) fn of(alloc: Global, events: Events) -> Result<EventList, Memory>
        ensures { IfOk result (λ list. list ≡ events) }
    {
        if events.len() <= 1 {
            return Ok(EventList::own(events));
        }
        let shared = Shared::new(alloc, events)?;
        Ok(EventList {
            held: Held::Shared(shared),
        })
    }

    /// The same events as a slice, without memory.
    pub fn slice(&self) -> &[Event]
        ensures { result.now ≡ self.now }
    {
        match &self.held {
            Held::Own(events) => events.slice(),
            Held::Shared(events) => events.get().slice(),
        }
    }
}

impl Clone for EventList {
    ghost is_clone = { λ x y. y ≡ x };

    fn clone(&self) -> Result<EventList, AllocError> {
        let held = match &self.held {
            Held::Own(events) => Held::Own(clone_item(events)?),
            Held::Shared(events) => Held::Shared(clone_item(events)?),
        };
        Ok(EventList { held })
    }
}

/// An equal value.
pub(crate) fn clone_item<T: Duplicate>(item: &T) -> Result<T, AllocError>
    ensures { IfOk result (λ copy. copy ≡ item.now) }
{
    item.clone()
}

impl Duplicate for EventList {
    ghost clone_equals = { Prim.search rules };
}

impl Part for EventList {
    fn of(entry: &Entry) -> &EventList {
        &entry.events
    }

    fn is_shared(&self) -> bool {
        matches!(&self.held, Held::Shared(_))
    }

    fn is_like(&self, other: &EventList) -> bool {
        same_items(self.slice(), other.slice())
    }
}
