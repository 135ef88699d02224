// Where the writing of a report stands. Each cursor is seen as the text that is still to come, and gives it block by
// block, without memory.
ghost use Rattle.std.specs.Prelude.{◌≡◌, [], ◌∷◌, filter, MatchOption};
ghost use Rattle.std.specs.List.{flat_map, range_with_len};
ghost use Rattle.grid_events.specs.Filters.{matches};
ghost use Rattle.grid_report.specs.Events.{event_line};
ghost use Rattle.grid_report.specs.Outcomes.{numbered, step_text, steps_by, worker_text, variant_text, heard_in, listener_text, report_of};
ghost use Rattle.grid_report.specs.Cursors.{Gives, front_of, back_of};

use crate::outcome::{Outcome, VariantView};
use crate::plan::Block;
use grid_busview::BusView;
use grid_core::Entry;
use grid_events::{Event, Filter};
use grid_shared::Shared;
use std::marker::Model;

// ---- workers

// The steps of a worker from a place of the journal on, after a number of its steps.
#[derive(Drop)]
struct Steps<'a> {
    journal: &'a [Entry],
    worker: u32,
    place: usize,
    number: u64,
}

impl<'a> Model for Steps<'a> {
    ghost use Rattle.std.specs.Prelude.{◌≤◌, ◌+◌, ℕ, List, drop};
    ghost use Rattle.grid_report.specs.Outcomes.{numbered, step_text, steps_by};

    ghost Value = { List ℕ };

    ghost view = { λ s. numbered step_text (s.number + 1) (steps_by s.worker (drop s.place s.journal.now)) };

    ghost invariant = { λ s. s.number ≤ s.place };
}

impl<'a> Steps<'a> {
    // All steps of a worker.
    fn of(journal: &'a [Entry], worker: u32) -> Steps<'a>
        ensures { result ≡ numbered step_text 1 (steps_by worker journal.now) }
    {
        Steps {
            journal,
            worker,
            place: 0,
            number: 0,
        }
    }

    // No step.
    fn none(journal: &'a [Entry]) -> Steps<'a>
        ensures { result ≡ [] }
    {
        Steps {
            journal,
            worker: 0,
            place: journal.len(),
            number: 0,
        }
    }

    // The next step.
    fn next(&mut self) -> Option<Block<'a>>
        ensures { Gives self.old result self.new }
    {
        while self.place < self.journal.len() {
            let entry = &self.journal[self.place];
            self.place += 1;
            if entry.worker == self.worker {
                self.number += 1;
                return Some(Block::Step(self.number, entry));
            }
        }
        None
    }
}

// The rest of a worker's steps, and the workers from a number on.
#[derive(Drop)]
struct Workers<'a> {
    journal: &'a [Entry],
    steps: Steps<'a>,
    next: u32,
    workers: u32,
}

impl<'a> Model for Workers<'a> {
    ghost use Rattle.std.specs.Prelude.{◌-◌, ◌++◌, ℕ, List};
    ghost use Rattle.std.specs.List.{flat_map, range_with_len};
    ghost use Rattle.grid_report.specs.Outcomes.{worker_text};

    ghost Value = { List ℕ };

    ghost view = { λ w. w.steps ++ flat_map (worker_text w.journal.now) (range_with_len w.next (w.workers - w.next)) };
}

impl<'a> Workers<'a> {
    // All workers.
    fn of(journal: &'a [Entry], workers: u32) -> Workers<'a>
        ensures { result ≡ flat_map (worker_text journal.now) (range_with_len 0 workers) }
    {
        Workers {
            journal,
            steps: Steps::none(journal),
            next: 0,
            workers,
        }
    }

    // The next step, or the line of the next worker.
    #[tactic(auto, unfolding(crate::specs::Outcomes::worker_text))]
    fn next(&mut self) -> Option<Block<'a>>
        ensures { Gives self.old result self.new }
    {
        if let Some(block) = self.steps.next() {
            return Some(block);
        }
        if self.next >= self.workers {
            return None;
        }
        let worker = self.next;
        self.steps = Steps::of(self.journal, worker);
        self.next += 1;
        Some(Block::Worker(worker))
    }
}

// ---- variants

// The rest of a variant's levels, and of the variants.
#[derive(Drop)]
struct Variants<'a> {
    levels: &'a [Shared<BusView>],
    variants: &'a [VariantView],
}

impl<'a> Model for Variants<'a> {
    ghost use Rattle.std.specs.Prelude.{◌++◌, ℕ, List};
    ghost use Rattle.std.specs.List.{flat_map};
    ghost use Rattle.grid_report.specs.Lines.{level_text};
    ghost use Rattle.grid_report.specs.Outcomes.{variant_text};

    ghost Value = { List ℕ };

    ghost view = { λ v. flat_map level_text v.levels.now ++ flat_map variant_text v.variants.now };
}

impl<'a> Variants<'a> {
    // All variants.
    fn of(variants: &'a [VariantView]) -> Variants<'a>
        ensures { result ≡ flat_map variant_text variants.now }
    {
        Variants {
            levels: &[],
            variants,
        }
    }

    // The next level, or the line of the next variant.
    #[tactic(auto, unfolding(crate::specs::Outcomes::variant_text))]
    fn next(&mut self) -> Option<Block<'a>>
        ensures { Gives self.old result self.new }
    {
        if let Some(view) = self.levels.split_off_first() {
            return Some(Block::Level(view.get()));
        }
        let variant = self.variants.split_off_first()?;
        self.levels = variant.views.slice();
        Some(Block::Variant(&variant.name))
    }
}

// ---- listeners

// The next event that is wanted.
fn next_event<'a>(wanted: &Filter, events: &mut &'a [Event]) -> Option<&'a Event>
    ensures { MatchOption result
        ((filter (matches wanted.now) events.old.now ≡ []) × (events.new.now ≡ []))
        (λ event. filter (matches wanted.now) events.old.now
        ≡ event.now ∷ filter (matches wanted.now) events.new.now) }
{
    while let Some(event) = events.split_off_first() {
        if wanted.matches(event) {
            return Some(event);
        }
    }
    None
}

// What a listener hears of the rest of a step's events, and of the steps after it. Without a filter it is nothing.
#[derive(Drop)]
struct Heard<'a> {
    wanted: Option<&'a Filter>,
    events: &'a [Event],
    journal: &'a [Entry],
}

impl<'a> Model for Heard<'a> {
    ghost use Rattle.std.specs.Prelude.{◌++◌, ℕ, List};
    ghost use Rattle.std.specs.List.{flat_map};
    ghost use Rattle.std.specs.Option.{option_copied};
    ghost use Rattle.grid_report.specs.Cursors.{lines_for};

    ghost Value = { List ℕ };

    ghost view = { λ h. lines_for (option_copied h.wanted)
        (h.events.now ++ flat_map (λ e. e.events) h.journal.now) };
}

impl<'a> Heard<'a> {
    // All that a listener hears.
    #[tactic(auto, unfolding(crate::specs::Cursors::lines_for, crate::specs::Outcomes::heard_in))]
    fn of(journal: &'a [Entry], wanted: &'a Filter) -> Heard<'a>
        ensures { result ≡ flat_map event_line (heard_in wanted.now journal.now) }
    {
        Heard {
            wanted: Some(wanted),
            events: &[],
            journal,
        }
    }

    // Nothing.
    #[tactic(auto, unfolding(crate::specs::Cursors::lines_for))]
    fn none() -> Heard<'a>
        ensures { result ≡ [] }
    {
        Heard {
            wanted: None,
            events: &[],
            journal: &[],
        }
    }

    // The next event that is heard.
    fn next(&mut self) -> Option<Block<'a>>
        ensures { Gives self.old result self.new }
    {
        let wanted = self.wanted?;
        loop {
            if let Some(event) = next_event(wanted, &mut self.events) {
                return Some(Block::Heard(event));
            }
            let entry = self.journal.split_off_first()?;
            self.events = entry.events.slice();
        }
    }
}

// What the listener at hand still hears, and the listeners from a number on.
#[derive(Drop)]
struct Listeners<'a> {
    journal: &'a [Entry],
    heard: Heard<'a>,
    filters: &'a [Filter],
    number: usize,
}

impl<'a> Model for Listeners<'a> {
    ghost use Rattle.std.specs.Prelude.{◌++◌, ℕ, List, drop};
    ghost use Rattle.grid_report.specs.Outcomes.{numbered, listener_text};

    ghost Value = { List ℕ };

    ghost view = { λ l. l.heard
        ++ numbered (listener_text l.journal.now) l.number (drop l.number l.filters.now) };
}

impl<'a> Listeners<'a> {
    // All listeners.
    fn of(journal: &'a [Entry], filters: &'a [Filter]) -> Listeners<'a>
        ensures { result ≡ numbered (listener_text journal.now) 0 filters.now }
    {
        Listeners {
            journal,
            heard: Heard::none(),
            filters,
            number: 0,
        }
    }

    // The next event that is heard, or the line of the next listener.
    #[tactic(auto, unfolding(crate::specs::Outcomes::listener_text))]
    fn next(&mut self) -> Option<Block<'a>>
        ensures { Gives self.old result self.new }
    {
        if let Some(block) = self.heard.next() {
            return Some(block);
        }
        if self.number >= self.filters.len() {
            return None;
        }
        let number = self.number;
        self.heard = Heard::of(self.journal, &self.filters[number]);
        self.number += 1;
        Some(Block::Listener(number as u64))
    }
}

// ---- the report

/// A report, from a block on.
#[derive(Drop)]
pub(crate) struct Report<'a> {
    is_ordered: bool,
    journal: &'a [Entry],
    workers: Workers<'a>,
    variants: Variants<'a>,
    listeners: Listeners<'a>,
    is_ended: bool,
}

impl<'a> Model for Report<'a> {
    ghost use Rattle.std.specs.Prelude.{[], ◌++◌, ℕ, List, cond, codes};
    ghost use Rattle.grid_report.specs.Outcomes.{order_line};

    ghost Value = { List ℕ };

    ghost view = { λ r. cond r.is_ordered [] (order_line r.journal.now)
        ++ r.workers ++ r.variants ++ r.listeners ++ cond r.is_ended [] (codes "end\n") };
}

impl<'a> Report<'a> {
    /// The whole report of an outcome.
    #[tactic(auto, unfolding(crate::specs::Outcomes::report_of))]
    pub(crate) fn of(outcome: &'a Outcome) -> Report<'a>
        ensures { result ≡ report_of outcome.now }
    {
        let journal = outcome.journal.slice();
        Report {
            is_ordered: false,
            journal,
            workers: Workers::of(journal, outcome.workers),
            variants: Variants::of(outcome.views.slice()),
            listeners: Listeners::of(journal, outcome.filters.slice()),
            is_ended: false,
        }
    }

    /// The report up to the variants.
    pub(crate) fn front(outcome: &'a Outcome) -> Report<'a>
        ensures { result ≡ front_of outcome.now }
    {
        let journal = outcome.journal.slice();
        Report {
            is_ordered: false,
            journal,
            workers: Workers::of(journal, outcome.workers),
            variants: Variants::of(&[]),
            listeners: Listeners::of(journal, &[]),
            is_ended: true,
        }
    }

    /// The report behind the variants.
    pub(crate) fn back(outcome: &'a Outcome) -> Report<'a>
        ensures { result ≡ back_of outcome.now }
    {
        let journal = outcome.journal.slice();
        Report {
            is_ordered: true,
            journal,
            workers: Workers::of(journal, 0),
            variants: Variants::of(&[]),
            listeners: Listeners::of(journal, outcome.filters.slice()),
            is_ended: false,
        }
    }

    /// The next block.
    pub(crate) fn next_block(&mut self) -> Option<Block<'a>>
        ensures { Gives self.old result self.new }
    {
        if !self.is_ordered {
            self.is_ordered = true;
            return Some(Block::Order(self.journal));
        }
        if let Some(block) = self.workers.next() {
            return Some(block);
        }
        if let Some(block) = self.variants.next() {
            return Some(block);
        }
        if let Some(block) = self.listeners.next() {
            return Some(block);
        }
        if self.is_ended {
            return None;
        }
        self.is_ended = true;
        Some(Block::End)
    }
}
