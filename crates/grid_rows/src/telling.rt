// Worlds that tell listeners what happens.
ghost use Rattle.std.specs.Prelude.{◌≡◌, ◌<◌, IsTrue};

use crate::networks::{DUO, read, seeded, with_scripts};
use grid_core::{Journal, Request, Script, World};
use grid_events::{Event, Events, Filter, Listener, Subscriptions};
use grid_ids::{Duplicate, Id, Memory, Same};
use grid_json::Job;
use grid_structure::Seeded;
use std::alloc::Global;
use std::test::Fail;

/// Keeps the events that it hears.
#[derive(Drop)]
struct Recorder {
    events: Events,
}

impl Listener for Recorder {
    ghost heard = { λ recorder. recorder.events };

    fn hear(&mut self, event: &Event) -> Result<(), Memory> {
        self.events.push(event.copy()?)?;
        Ok(())
    }
}

/// What is told of updates in a variant alone.
fn updates_of(alloc: Global, variant: &str) -> Result<Filter, Fail> {
    Ok(Filter {
        created: false,
        removed: false,
        updated: true,
        variant_created: false,
        variant_overwritten: false,
        variant_removed: false,
        variant: Some(Id::new(alloc, variant)?),
    })
}

// A variant in which the coupler is opened twice, and the same coupler opened in the initial one.
const OPENS: &str = r#"[
  {"do": "open", "switch": "BC"},
  {"do": "clone", "from": "InitialState", "to": "VA"},
  {"do": "use", "variant": "VA"},
  {"do": "close", "switch": "BC"},
  {"do": "open", "switch": "ZZ"},
  {"do": "close", "switch": "BC"}
]"#;

/// Makes one more step of the first worker and tells it, or tells that it was not made.
fn is_made<L: Listener>(
    world: &mut World,
    request: &Request,
    listeners: &mut Subscriptions<L>,
) -> bool
    requires { 0 < world.old.workers }
    ensures { IsTrue result → world.new.workers ≡ world.old.workers }
{
    world.step_told(0, request, listeners).is_ok()
}

/// Makes the steps of a script in a world of one worker, and tells them: the journal of those that were made.
fn tell<L: Listener>(
    alloc: Global,
    job: &Job,
    script: &Script,
    listeners: &mut Subscriptions<L>,
) -> Result<Journal, Fail> {
    let mut world = World::start(alloc, job.network.copy()?, 1)?;
    for request in script.slice() {
        if !is_made(&mut world, request, listeners) {
            break;
        }
    }
    Ok(world.into_journal())
}

/// The job of the level with that script.
fn job_that_opens(seeded: Seeded) -> Result<Job, Fail> {
    let bytes = with_scripts(seeded.alloc, DUO, OPENS)?;
    read(seeded, bytes.as_slice())
}

/// Whether the one listener has heard this event alone.
fn heard_just(listeners: &Subscriptions<Recorder>, event: &Event) -> bool {
    match listeners.slice() {
        [subscription] => match subscription.listener.events.slice() {
            [heard] => heard.same(event),
            _ => false,
        },
        _ => false,
    }
}

#[test]
fn a_recorder_hears_the_one_event(rt: HostRuntime) -> Result<(), Fail> {
    let alloc = rt.alloc();
    let job = job_that_opens(seeded(&rt)?)?;
    let Some(script) = job.scripts.get(0) else {
        return Ok(assert!(rt; false));
    };
    let mut listeners = Subscriptions::empty(alloc);
    let recorder = Recorder {
        events: Events::empty(alloc),
    };
    assert!(rt;
        listeners
            .subscribe(updates_of(alloc, "VA")?, recorder)
            .is_ok()
    );
    let journal = tell(alloc, &job, script, &mut listeners)?;
    assert_eq!(rt; journal.len(), 6);
    let closed = Event::Updated {
        variant: Id::new(alloc, "VA")?,
        switch: Id::new(alloc, "BC")?,
        opened: false,
    };
    assert!(rt; heard_just(&listeners, &closed));
    Ok(())
}

#[test]
fn a_boxed_recorder_is_told(rt: HostRuntime) -> Result<(), Fail> {
    let alloc = rt.alloc();
    let job = job_that_opens(seeded(&rt)?)?;
    let Some(script) = job.scripts.get(0) else {
        return Ok(assert!(rt; false));
    };
    let mut boxed: Subscriptions<Box<dyn Listener>> = Subscriptions::empty(alloc);
    let recorder: Box<dyn Listener> = Box::new(
        alloc,
        Recorder {
            events: Events::empty(alloc),
        },
    )?;
    assert!(rt; boxed.subscribe(updates_of(alloc, "VA")?, recorder).is_ok());
    assert_eq!(rt; tell(alloc, &job, script, &mut boxed)?.len(), 6);
    Ok(())
}
