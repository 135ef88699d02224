// The levels that are kept for the variant in a slot, for its next view or plan.
ghost use Rattle.std.specs.Prelude.{◌≡◌, ◌<◌, IfOk, IfNone, IfSome, length};
ghost use Rattle.grid_structure.specs.Sites.{levels};
ghost use Rattle.grid_core.specs.Fitting.{RowsFit};
ghost use Rattle.grid_core.specs.Copied.{AreCopies};
ghost use Rattle.grid_core.specs.Kept.{IsKeptLevel};

use crate::copies::{Copies, Pace};
use grid_bench::Bench;
use grid_ids::Memory;
use grid_level::Level;
use grid_shared::Shared;
use grid_states::States;
use grid_structure::Structure;
use std::alloc::Global;
use std::collections::BTreeMap;

/// A level with fewer switches and internal connections is looked at from nothing as soon as by what is kept of it.
const FEW: u32 = 64;

/// How many switches at most may have moved in the world since a level was asked for, for each ask of any level, where
/// nets and labels of it are made. They cost four looks from nothing, and pay only where its flags can be followed.
const MOST_MOVES: u64 = 50;

// What is known of the asks for a level: how many of its edges were counted, and what else when it was asked for last.
#[derive(Clone, Copy)]
struct Asked {
    counted: u32,
    pace: Pace,
}

/// A bench, and what is known of the asks for levels, by their places.
#[derive(Drop)]
pub(crate) struct KeptLevels {
    pub(crate) bench: Bench,
    asked: BTreeMap<u32, Asked>,
}

impl KeptLevels {
    /// No level. It takes no memory.
    pub(crate) fn none(alloc: Global) -> KeptLevels {
        KeptLevels {
            bench: Bench::empty(alloc),
            asked: BTreeMap::new(alloc),
        }
    }

    /// Forgets which levels were asked for, where they have other places from now on.
    pub(crate) fn forget_places(&mut self, alloc: Global)
        ensures { self.new.bench ≡ self.old.bench }
    {
        self.asked = BTreeMap::new(alloc);
    }

    // Whether the level at a place was asked for before, and few switches moved for each ask since.
    fn was_just_asked(&self, place: u32, pace: Pace) -> bool {
        match self.asked.get(&place) {
            Some(asked) => pace.is_slow(asked.pace, MOST_MOVES),
            None => false,
        }
    }

    // Notes that the level at a place is asked for at this pace, and that so many edges of it are counted, if no more
    // are. It answers how many were not counted yet.
    fn note(&mut self, place: u32, edges: u32, pace: Pace) -> Result<u32, Memory>
        ensures { self.new.bench ≡ self.old.bench }
    {
        let counted = match self.asked.get(&place) {
            Some(asked) => asked.counted,
            None => 0,
        };
        let next = Asked {
            counted: counted.max(edges),
            pace,
        };
        match self.asked.insert(place, next) {
            Ok(_) => Ok(edges.saturating_sub(counted)),
            Err(_) => Err(Memory),
        }
    }

    // Whether a level of many edges, at a place, is worth keeping with the flags that a variant has now: it was just
    // asked for, or what is kept of it can follow to them.
    fn is_worth(&self, structure: &Structure, states: &States, place: u32, pace: Pace) -> bool
        requires place { place < length (levels structure.now) }
        requires opened { RowsFit structure.now states.now.opened }
        requires retained { RowsFit structure.now states.now.retained }
    {
        if self.was_just_asked(place, pace) {
            return true;
        }
        let level = structure.level(place);
        self.bench.follows(level, states.opened_row(place), states.retained_row(place))
    }

    /// Keeps the level at a place with the flags that a variant has now, where that is worth while; else all that is
    /// kept stays as it is. It is kept as a copy, which other slots share.
    pub(crate) fn keep(
        &mut self,
        structure: &Structure,
        states: &States,
        place: u32,
        copies: &mut Copies,
    ) -> Result<Option<Shared<Level>>, Memory>
        requires place { place < length (levels structure.now) }
        requires opened { RowsFit structure.now states.now.opened }
        requires retained { RowsFit structure.now states.now.retained }
        requires copies { AreCopies structure.now copies.old }
        ensures kept { IfOk result (λ kept. IfSome kept
            (IsKeptLevel structure.now states.now place self.new.bench)) }
        ensures stays { IfOk result (λ kept. IfNone kept (self.new.bench ≡ self.old.bench)) }
        ensures copies { AreCopies structure.now copies.new }
    {
        let edges = structure.level(place).edge_count();
        if edges < FEW {
            return Ok(None);
        }
        let pace = copies.count_ask();
        if !self.is_worth(structure, states, place, pace) {
            self.note(place, 0, pace)?;
            return Ok(None);
        }
        copies.count(self.note(place, edges, pace)?);
        let level = copies.level(self.bench.alloc(), structure, place)?;
        self.bench.keep(&level, states.opened_row(place), states.retained_row(place))?;
        Ok(Some(level))
    }
}
