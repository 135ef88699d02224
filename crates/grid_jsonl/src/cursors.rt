// Where the writing of lines stands. Each cursor is seen as the lines that are still to come, and gives them one by
// one, without memory.
ghost use Rattle.std.specs.Prelude.{◌≡◌, [], ◌∷◌, filter, map, MatchOption};
ghost use Rattle.std.specs.List.{flat_map, range_with_len};
ghost use Rattle.std.specs.Option.{option_map};
ghost use Rattle.grid_events.specs.Filters.{matches};
ghost use Rattle.grid_jsonl.specs.Borrowed.{step_in};
ghost use Rattle.grid_jsonl.specs.Steps as those;
ghost use Rattle.grid_jsonl.specs.Outcomes.{level_object, listener_objects, listeners_from, objects, steps_by, variant_objects, worker_objects};
ghost use Rattle.grid_jsonl.specs.Lines.{Gives, texts, told_for};

use crate::line::Line;
use crate::step::Step;
use grid_busview::BusView;
use grid_core::Entry;
use grid_events::{Event, Filter};
use grid_ids::Id;
use grid_report::{Outcome, VariantView};
use grid_shared::Shared;
use std::marker::Model;

// ---- workers

// The next step of a worker.
#[tactic(auto, unfolding(crate::specs::Outcomes::steps_by))]
fn next_step<'a>(worker: u32, steps: &mut &'a [Step<'a>]) -> Option<Step<'a>>
    ensures { MatchOption result
        ((steps_by worker (map step_in steps.old.now) ≡ []) × (steps.new.now ≡ []))
        (λ step. steps_by worker (map step_in steps.old.now)
        ≡ step_in step ∷ steps_by worker (map step_in steps.new.now)) }
{
    while let Some(step) = steps.split_off_first() {
        if step.entry.worker == worker {
            return Some(*step);
        }
    }
    None
}

// The rest of a worker's steps, and the workers from a number on.
#[derive(Drop)]
struct Workers<'a> {
    steps: &'a [Step<'a>],
    worker: u32,
    rest: &'a [Step<'a>],
    next: u32,
    workers: u32,
}

impl<'a> Model for Workers<'a> {
    ghost use Rattle.std.specs.Prelude.{◌-◌, ◌++◌, ℕ, List, map};
    ghost use Rattle.std.specs.List.{flat_map, range_with_len};
    ghost use Rattle.grid_jsonl.specs.Borrowed.{step_in};
    ghost use Rattle.grid_jsonl.specs.Outcomes.{worker_objects};
    ghost use Rattle.grid_jsonl.specs.Lines.{texts};

    ghost Value = { List (List ℕ) };

    ghost view = { λ w. texts (worker_objects (map step_in w.rest.now) w.worker
        ++ flat_map (worker_objects (map step_in w.steps.now)) (range_with_len w.next (w.workers - w.next))) };
}

impl<'a> Workers<'a> {
    // All workers.
    #[tactic(auto, unfolding(crate::specs::Outcomes::worker_objects, crate::specs::Outcomes::steps_by))]
    fn of(steps: &'a [Step<'a>], workers: u32) -> Workers<'a>
        ensures { result
            ≡ texts (flat_map (worker_objects (map step_in steps.now)) (range_with_len 0 workers)) }
    {
        Workers {
            steps,
            worker: 0,
            rest: &[],
            next: 0,
            workers,
        }
    }

    // The next step.
    fn next(&mut self) -> Option<Line<'a>>
        ensures { Gives self.old result self.new }
    {
        loop {
            if let Some(step) = next_step(self.worker, &mut self.rest) {
                return Some(Line::Command(step));
            }
            if self.next >= self.workers {
                return None;
            }
            self.worker = self.next;
            self.rest = self.steps;
            self.next += 1;
        }
    }
}

// ---- variants

// The rest of a variant's levels. Without a name there are none.
#[derive(Drop)]
struct Levels<'a> {
    name: Option<&'a Id>,
    views: &'a [Shared<BusView>],
}

impl<'a> Model for Levels<'a> {
    ghost use Rattle.std.specs.Prelude.{ℕ, List};
    ghost use Rattle.std.specs.Option.{option_copied};
    ghost use Rattle.grid_jsonl.specs.Lines.{levels_for, texts};

    ghost Value = { List (List ℕ) };

    ghost view = { λ l. texts (levels_for (option_copied l.name) l.views.now) };
}

impl<'a> Levels<'a> {
    // All levels of a variant.
    #[tactic(auto, unfolding(crate::specs::Lines::levels_for))]
    fn of(variant: &'a VariantView) -> Levels<'a>
        ensures { result ≡ texts (map (level_object variant.now.name) variant.now.views) }
    {
        Levels {
            name: Some(&variant.name),
            views: variant.views.slice(),
        }
    }

    // No level.
    #[tactic(auto, unfolding(crate::specs::Lines::levels_for))]
    fn none() -> Levels<'a>
        ensures { result ≡ [] }
    {
        Levels {
            name: None,
            views: &[],
        }
    }

    // The next level.
    #[tactic(auto, unfolding(crate::specs::Lines::levels_for, crate::specs::Lines::line_object))]
    fn next(&mut self) -> Option<Line<'a>>
        ensures { Gives self.old result self.new }
    {
        let name = self.name?;
        let view = self.views.split_off_first()?;
        Some(Line::Level(name, view.get()))
    }
}

// The rest of a variant's levels, and of the variants.
#[derive(Drop)]
struct Variants<'a> {
    levels: Levels<'a>,
    variants: &'a [VariantView],
}

impl<'a> Model for Variants<'a> {
    ghost use Rattle.std.specs.Prelude.{◌++◌, ℕ, List};
    ghost use Rattle.std.specs.List.{flat_map};
    ghost use Rattle.grid_jsonl.specs.Outcomes.{variant_objects};
    ghost use Rattle.grid_jsonl.specs.Lines.{texts};

    ghost Value = { List (List ℕ) };

    ghost view = { λ v. v.levels ++ texts (flat_map variant_objects v.variants.now) };
}

impl<'a> Variants<'a> {
    // All variants.
    fn of(variants: &'a [VariantView]) -> Variants<'a>
        ensures { result ≡ texts (flat_map variant_objects variants.now) }
    {
        Variants {
            levels: Levels::none(),
            variants,
        }
    }

    // The next level, or the next variant.
    #[tactic(auto, unfolding(crate::specs::Outcomes::variant_objects, crate::specs::Lines::line_object))]
    fn next(&mut self) -> Option<Line<'a>>
        ensures { Gives self.old result self.new }
    {
        if let Some(line) = self.levels.next() {
            return Some(line);
        }
        let variant = self.variants.split_off_first()?;
        self.levels = Levels::of(variant);
        Some(Line::Variant(&variant.name))
    }
}

// ---- listeners

// The next event that is wanted.
fn next_event<'a>(wanted: &Filter, events: &mut &'a [Event]) -> Option<&'a Event>
    ensures { MatchOption result
        ((filter (matches wanted.now) events.old.now ≡ []) × (events.new.now ≡ []))
        (λ event. filter (matches wanted.now) events.old.now
        ≡ event.now ∷ filter (matches wanted.now) events.new.now) }
{
    while let Some(event) = events.split_off_first() {
        if wanted.matches(event) {
            return Some(event);
        }
    }
    None
}

// The next event of a step that a listener hears.
#[tactic(auto, unfolding(crate::specs::Lines::told_for, crate::specs::Lines::line_object))]
fn next_told<'a>(
    listener: u64,
    wanted: &Filter,
    step: Option<Step<'a>>,
    events: &mut &'a [Event],
) -> Option<Line<'a>>
    ensures { Gives
        (texts (told_for listener wanted.now (option_map step_in step.entry) events.old.now))
        result
        (texts (told_for listener wanted.now (option_map step_in step.entry) events.new.now)) }
{
    let step = step?;
    let event = next_event(wanted, events)?;
    Some(Line::Heard(listener, step, event))
}

// What a listener hears of the rest of a step's events, and of the steps behind it. Without a filter it is nothing.
#[derive(Drop)]
struct Heard<'a> {
    listener: u64,
    wanted: Option<&'a Filter>,
    step: Option<Step<'a>>,
    events: &'a [Event],
    rest: &'a [Step<'a>],
}

impl<'a> Model for Heard<'a> {
    ghost use Rattle.std.specs.Prelude.{ℕ, List, map};
    ghost use Rattle.std.specs.Option.{option_copied, option_map};
    ghost use Rattle.grid_jsonl.specs.Borrowed.{step_in};
    ghost use Rattle.grid_jsonl.specs.Lines.{heard_for, texts};

    ghost Value = { List (List ℕ) };

    ghost view = { λ h. texts (heard_for h.listener (option_copied h.wanted) (option_map step_in h.step)
        h.events.now (map step_in h.rest.now)) };
}

impl<'a> Heard<'a> {
    // All that a listener hears.
    #[tactic(auto, unfolding(crate::specs::Lines::heard_for, crate::specs::Lines::told_for))]
    fn of(steps: &'a [Step<'a>], listener: u64, wanted: &'a Filter) -> Heard<'a>
        ensures { result ≡ texts (listener_objects (map step_in steps.now) listener wanted.now) }
    {
        Heard {
            listener,
            wanted: Some(wanted),
            step: None,
            events: &[],
            rest: steps,
        }
    }

    // Nothing.
    #[tactic(auto, unfolding(crate::specs::Lines::heard_for))]
    fn none() -> Heard<'a>
        ensures { result ≡ [] }
    {
        Heard {
            listener: 0,
            wanted: None,
            step: None,
            events: &[],
            rest: &[],
        }
    }

    // The next event that is heard.
    fn next(&mut self) -> Option<Line<'a>>
        ensures { Gives self.old result self.new }
    {
        let wanted = self.wanted?;
        loop {
            if let Some(line) = next_told(self.listener, wanted, self.step, &mut self.events) {
                return Some(line);
            }
            let step = self.rest.split_off_first()?;
            self.step = Some(*step);
            self.events = step.entry.events.slice();
        }
    }
}

// What the listener at hand still hears, and the listeners from a number on.
#[derive(Drop)]
struct Listeners<'a> {
    steps: &'a [Step<'a>],
    heard: Heard<'a>,
    number: u64,
    filters: &'a [Filter],
}

impl<'a> Model for Listeners<'a> {
    ghost use Rattle.std.specs.Prelude.{◌++◌, ◌+◌, ◌<◌, ◌^◌, ℕ, List, length, map};
    ghost use Rattle.grid_jsonl.specs.Borrowed.{step_in};
    ghost use Rattle.grid_jsonl.specs.Outcomes.{listeners_from};
    ghost use Rattle.grid_jsonl.specs.Lines.{texts};

    ghost Value = { List (List ℕ) };

    ghost view = { λ l. l.heard ++ texts (listeners_from (map step_in l.steps.now) l.number l.filters.now) };

    ghost invariant = { λ l. l.number + length l.filters.now < 2 ^ 64 };
}

impl<'a> Listeners<'a> {
    // All listeners.
    fn of(steps: &'a [Step<'a>], filters: &'a [Filter]) -> Listeners<'a>
        ensures { result ≡ texts (listeners_from (map step_in steps.now) 0 filters.now) }
    {
        Listeners {
            steps,
            heard: Heard::none(),
            number: 0,
            filters,
        }
    }

    // The next event that is heard.
    fn next(&mut self) -> Option<Line<'a>>
        ensures { Gives self.old result self.new }
    {
        loop {
            if let Some(line) = self.heard.next() {
                return Some(line);
            }
            let wanted = self.filters.split_off_first()?;
            self.heard = Heard::of(self.steps, self.number, wanted);
            self.number += 1;
        }
    }
}

// ---- all lines

/// The lines of an outcome, from one on.
#[derive(Drop)]
pub(crate) struct Lines<'a> {
    outcome: &'a Outcome,
    is_ordered: bool,
    workers: Workers<'a>,
    variants: Variants<'a>,
    listeners: Listeners<'a>,
    is_ended: bool,
}

impl<'a> Model for Lines<'a> {
    ghost use Rattle.std.specs.Prelude.{[], ◌∷◌, ◌++◌, ℕ, List, cond};
    ghost use Rattle.grid_print.specs.Job.{line_of};
    ghost use Rattle.grid_jsonl.specs.Outcomes.{end_object, order_object};

    ghost Value = { List (List ℕ) };

    ghost view = { λ l. cond l.is_ordered [] (line_of (order_object l.outcome.now.journal) ∷ [])
        ++ l.workers ++ l.variants ++ l.listeners ++ cond l.is_ended [] (line_of (end_object l.outcome.now) ∷ []) };
}

impl<'a> Lines<'a> {
    /// All lines of an outcome, whose steps are these.
    #[tactic(auto, unfolding(crate::specs::Outcomes::objects))]
    pub(crate) fn of(outcome: &'a Outcome, steps: &'a [Step<'a>]) -> Lines<'a>
        requires { map step_in steps.now ≡ those.steps outcome.now.journal }
        ensures { result ≡ texts (objects outcome.now) }
    {
        Lines {
            outcome,
            is_ordered: false,
            workers: Workers::of(steps, outcome.workers),
            variants: Variants::of(outcome.views.slice()),
            listeners: Listeners::of(steps, outcome.filters.slice()),
            is_ended: false,
        }
    }

    /// The next line.
    #[tactic(auto, unfolding(crate::specs::Lines::line_object))]
    pub(crate) fn next_line(&mut self) -> Option<Line<'a>>
        ensures { Gives self.old result self.new }
    {
        if !self.is_ordered {
            self.is_ordered = true;
            return Some(Line::Order(self.outcome.journal.slice()));
        }
        if let Some(line) = self.workers.next() {
            return Some(line);
        }
        if let Some(line) = self.variants.next() {
            return Some(line);
        }
        if let Some(line) = self.listeners.next() {
            return Some(line);
        }
        if self.is_ended {
            return None;
        }
        self.is_ended = true;
        Some(Line::End(self.outcome))
    }
}
