// Listeners, and who hears what.
ghost use Rattle.std.specs.Prelude.{◌≡◌, [], ◌∷◌, ◌++◌, List, OnOk, OnErr, IfErr, map};
ghost use Rattle.grid_events.specs.Hearing.{hearing, hearings, after_event, after_events, IsToldBefore, IsToldInPart};

use crate::{Event, Filter};
use grid_ids::Memory;
use std::alloc::Global;
use std::marker::Model;

/// Someone who is told events.
pub trait Listener: Drop {
    ghost use Rattle.std.specs.Prelude.{List};
    ghost use Rattle.grid_events.specs.declared.event.Event.{Event};

    // The events that were heard, in order.
    ghost heard: { Self → List Event };

    /// Hears one event. Where memory runs out it is as if it had not been told.
    fn hear(&mut self, event: &Event) -> Result<(), Memory>
        ensures ok { OnOk result (heard self.new ≡ heard self.old ++ event.now ∷ []) }
        ensures err { OnErr result (heard self.new ≡ heard self.old) };
}

/// A listener of any kind, in a box: it has heard what the one in the box has.
impl Listener for Box<dyn Listener> {
    ghost heard = { λ b. (Listener-box b).heard b.value };

    fn hear(&mut self, event: &Event) -> Result<(), Memory> {
        (**self).hear(event)
    }
}

/// A listener with the filter of what it is told.
#[derive(Drop)]
pub struct Subscription<L> {
    /// What is told.
    pub filter: Filter,
    /// Who is told.
    pub listener: L,
}

impl<L: Listener> Subscription<L> {
    // Tells the listener the event, where the filter matches.
    #[tactic(auto, unfolding(crate::specs::Hearing::after_event, crate::specs::Hearing::hearing))]
    fn hear(&mut self, event: &Event) -> Result<(), Memory>
        ensures ok { OnOk result (hearing L.heard self.new
            ≡ after_event event.now (hearing L.heard self.old)) }
        ensures err { OnErr result (hearing L.heard self.new ≡ hearing L.heard self.old) }
    {
        if self.filter.matches(event) {
            self.listener.hear(event)
        } else {
            Ok(())
        }
    }
}

/// Listeners with their filters, in the order in which they came. It is seen as the list of them.
#[derive(Drop)]
pub struct Subscriptions<L> {
    items: Vec<Subscription<L>>,
}

impl<L> Model for Subscriptions<L> {
    ghost use Rattle.std.specs.Prelude.{List};
    ghost use Rattle.grid_events.specs.declared.listener.Subscription.{Subscription};

    ghost Value = { List (Subscription L) };

    ghost view = { λ subscriptions. subscriptions.items.items };
}

impl<L: Listener> Subscriptions<L> {
    /// No listener, without memory.
    pub fn empty(alloc: Global) -> Subscriptions<L>
        ensures { result ≡ [] }
    {
        Subscriptions {
            items: Vec::new(alloc),
        }
    }

    /// Puts a listener last. It comes back only where memory runs out.
    pub fn subscribe(&mut self, filter: Filter, listener: L) -> Result<(), L>
        ensures ok { OnOk result (self.new
            ≡ self.old ++ record { filter = filter; listener = listener } ∷ []) }
        ensures err { OnErr result (self.new ≡ self.old) }
        ensures back { IfErr result (λ same. same ≡ listener) }
    {
        match self.items.push(Subscription { filter, listener }) {
            Ok(()) => Ok(()),
            Err(failed) => Err(failed.value.listener),
        }
    }

    /// The listeners with their filters, without memory.
    pub fn slice(&self) -> &[Subscription<L>]
        ensures { result.now ≡ self.now }
    {
        self.items.as_slice()
    }

    /// Tells the event to every listener whose filter matches, as its last one; the others are as before. Where memory
    /// runs out the matching listeners before some place have heard it, and those from that place on are as before.
    pub fn hear(&mut self, event: &Event) -> Result<(), Memory>
        ensures ok { OnOk result (hearings L.heard self.new
            ≡ map (after_event event.now) (hearings L.heard self.old)) }
        ensures err { OnErr result (IsToldBefore event.now (hearings L.heard self.old)
            (hearings L.heard self.new)) }
    {
        for place in 0..self.items.len() {
            match self.items[place].hear(event) {
                Ok(()) => {}
                Err(memory) => return Err(memory),
            }
        }
        Ok(())
    }

    /// Tells the events one after the other, each to every listener whose filter matches. Where memory runs out those
    /// before some event have been told, that event stands as `hear` leaves it, and no later one has been told.
    pub fn hear_all(&mut self, events: &[Event]) -> Result<(), Memory>
        ensures ok { OnOk result (hearings L.heard self.new
            ≡ map (after_events events.now) (hearings L.heard self.old)) }
        ensures err { OnErr result (IsToldInPart events.now (hearings L.heard self.old)
            (hearings L.heard self.new)) }
    {
        for event in events {
            match self.hear(event) {
                Ok(()) => {}
                Err(memory) => return Err(memory),
            }
        }
        Ok(())
    }
}
