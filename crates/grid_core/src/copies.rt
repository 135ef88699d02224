// Levels of the present structure that benches and bases share.
ghost use Rattle.std.specs.Prelude.{◌≡◌, ◌<◌, [], length, slice_get, Some, None, IfOk, OnOk, OnErr};
ghost use Rattle.std.specs.Option.{option_copied};
ghost use Rattle.grid_structure.specs.Network.{Network};
ghost use Rattle.grid_structure.specs.Sites.{levels};
ghost use Rattle.grid_islands.specs.Kept.{LeavesOthers};
ghost use Rattle.grid_core.specs.Copied.{AreCopies, Puts, copy_at};
ghost use Rattle.grid_core.specs.Touched.{IsTouch};

use crate::touched::Touched;
use grid_ids::{Duplicate, Memory};
use grid_level::Level;
use grid_shared::Shared;
use grid_structure::Structure;
use std::alloc::Global;
use std::collections::BTreeMap;
use std::marker::Model;

/// The most edges that the levels of all benches have together. A bench takes some 60 bytes for an edge, so that all of
/// them take some 256 MB. The bound is this project's own: nothing that is asked depends on it but time and memory.
const MOST_KEPT_EDGES: u32 = 4_000_000;

/// The most edges of a level.
const MOST_EDGES: u32 = 4096;

/// What the world has counted at a time: about how many switches moved, and how often a level was asked for. It decides
/// only what is worth keeping.
#[derive(Clone, Copy)]
pub(crate) struct Pace {
    moves: u64,
    asks: u64,
}

/// Levels of a structure by their places, each copied when it was first asked for, so that it can be read while the
/// structure is not. It is seen as the list of the pairs of a place and the level there, by rising place.
#[derive(Drop)]
pub(crate) struct Copies {
    levels: BTreeMap<u32, Shared<Level>>,
    // How many edges the levels have that benches took since all benches were empty.
    taken: u32,
    pace: Pace,
}

impl Pace {
    /// Whether at most so many switches moved for each ask from one time to another.
    pub(crate) fn is_slow(self, since: Pace, most: u64) -> bool {
        let asks = self.asks.saturating_sub(since.asks);
        self.moves.saturating_sub(since.moves) <= asks.saturating_mul(most)
    }
}

impl Model for Copies {
    ghost use Rattle.grid_core.specs.Copied.{Copied};

    ghost Value = { Copied };

    ghost view = { λ copies. copies.levels.entries };
}

impl Copies {
    /// No level. It takes no memory.
    pub(crate) fn none(alloc: Global) -> Copies
        ensures { result ≡ [] }
    {
        Copies {
            levels: BTreeMap::new(alloc),
            taken: 0,
            pace: Pace { moves: 0, asks: 0 },
        }
    }

    /// Whether no level is kept.
    pub(crate) fn is_empty(&self) -> bool {
        self.levels.is_empty()
    }

    /// Counts edges of a level that a bench takes.
    pub(crate) fn count(&mut self, edges: u32)
        ensures { self.new ≡ self.old }
    {
        self.taken = self.taken.saturating_add(edges);
    }

    /// Begins the count anew, where all benches are empty.
    pub(crate) fn count_anew(&mut self)
        ensures { self.new ≡ self.old }
    {
        self.taken = 0;
    }

    /// Counts switches that moved, or other changes.
    pub(crate) fn count_moves(&mut self, moves: u64)
        ensures { self.new ≡ self.old }
    {
        self.pace.moves = self.pace.moves.saturating_add(moves);
    }

    /// Counts an ask for a level, and answers what was counted till then.
    pub(crate) fn count_ask(&mut self) -> Pace
        ensures { self.new ≡ self.old }
    {
        let pace = self.pace;
        self.pace.asks = pace.asks.saturating_add(1);
        pace
    }

    /// Whether a bench may take one level more, whatever edges it has.
    pub(crate) fn has_room(&self) -> bool {
        self.taken <= MOST_KEPT_EDGES - MOST_EDGES
    }

    // The copy that is kept of a place; None exactly where none is.
    fn find(&self, place: u32) -> Option<&Shared<Level>>
        ensures { option_copied result ≡ copy_at self.now place }
    {
        self.levels.get(&place)
    }

    // Keeps a level under its place.
    fn keep(&mut self, place: u32, level: Shared<Level>) -> Result<(), Memory>
        ensures ok { OnOk result (Puts place (Some level) self.old self.new) }
        ensures err { OnErr result (self.new ≡ self.old) }
    {
        match self.levels.insert(place, level) {
            Ok(_) => Ok(()),
            Err(_) => Err(Memory),
        }
    }

    // Lets go the copy of a place.
    fn remove(&mut self, place: u32)
        ensures { Puts place None self.old self.new }
    {
        drop(self.levels.remove(&place));
    }

    /// Lets go the copies of the levels that an edit touches. It takes no memory.
    pub(crate) fn follow(&mut self, alloc: Global, touched: Touched)
        ensures { (net next : Network) → IsTouch net next touched → AreCopies net self.old
            → AreCopies next self.new }
    {
        match touched {
            Touched::Level(place) => self.remove(place),
            Touched::Ends(first, second, third) => {
                self.remove(first);
                self.remove(second);
                self.remove(third);
            }
            Touched::All => self.levels = BTreeMap::new(alloc),
        }
    }

    /// The level at a place of the structure that the levels are of: the one that is kept, or else a copy, which is
    /// kept from then on.
    pub(crate) fn level(
        &mut self,
        alloc: Global,
        structure: &Structure,
        place: u32,
    ) -> Result<Shared<Level>, Memory>
        requires place { place < length (levels structure.now) }
        requires copies { AreCopies structure.now self.old }
        ensures level { IfOk result (λ level. slice_get (levels structure.now) place ≡ Some level) }
        ensures copies { AreCopies structure.now self.new }
    {
        if let Some(level) = self.find(place) {
            return level.copy();
        }
        let level = Shared::new(alloc, structure.level(place).copy()?)?;
        self.keep(place, level.copy()?)?;
        Ok(level)
    }
}
