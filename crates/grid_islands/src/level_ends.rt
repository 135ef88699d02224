// The ends of branches, by the levels in which they stand.
ghost use Rattle.std.specs.Prelude.{◌≡◌, ℕ, ◌<◌, true, IfOk, OnOk, Some, length, slice_get};
ghost use Rattle.grid_islands.specs.LevelEnds.{AreLinked, HasEnd, IsMore, IsIndexOf};
ghost use Rattle.grid_islands.specs.Spots.{is_in, touches};

use crate::spots::{BranchSpots, Spot};
use grid_ids::{Memory, Seq};
use std::alloc::Global;

/// An end of a branch that stands in a level.
#[derive(Clone, Copy)]
pub(crate) struct LevelEnd {
    /// The place of the level.
    pub(crate) level: u32,
    /// The place of the branch.
    pub(crate) branch: u32,
    /// The place of the end before this one in the same level.
    pub(crate) before: Option<u32>,
}

/// The ends of branches that stand in levels, in order of branches, with the last one of each level.
#[derive(Drop)]
pub(crate) struct LevelEnds {
    pub(crate) ends: Seq<LevelEnd>,
    pub(crate) lasts: Seq<Option<u32>>,
}

impl LevelEnds {
    /// The ends of no branch, in no level. It takes no memory.
    pub(crate) fn empty(alloc: Global) -> LevelEnds {
        LevelEnds {
            ends: Seq::empty(alloc),
            lasts: Seq::empty(alloc),
        }
    }

    // No end, in so many levels.
    fn of_none(alloc: Global, levels: u32) -> Result<LevelEnds, Memory>
        ensures linked { IfOk result (λ index. AreLinked index.ends index.lasts) }
        ensures none { IfOk result (λ index. length index.ends ≡ 0) }
        ensures long { IfOk result (λ index. length index.lasts ≡ levels) }
    {
        let lasts = match vec![in alloc; None; levels as usize] {
            Ok(lasts) => lasts,
            Err(_) => return Err(Memory),
        };
        Ok(LevelEnds {
            ends: Seq::empty(alloc),
            lasts: Seq::from_vec(lasts),
        })
    }

    // Puts an end of a branch in a level last, where that is one of these levels.
    fn add(&mut self, level: u32, branch: u32) -> Result<(), Memory>
        requires { AreLinked self.old.ends self.old.lasts }
        ensures more { OnOk result (IsMore self.old self.new branch) }
        ensures there { OnOk result (level < length self.old.lasts → HasEnd self.new level branch) }
    {
        let Some(last) = self.lasts.get(level as usize) else {
            return Ok(());
        };
        let Ok(place) = u32::try_from(self.ends.len()) else {
            return Err(Memory);
        };
        let before = *last;
        self.ends.push(LevelEnd {
            level,
            branch,
            before,
        })?;
        self.lasts.set(level as usize, Some(place));
        Ok(())
    }

    // Puts the end of a branch at a spot last, where there is one.
    fn add_spot(&mut self, spot: Option<Spot>, branch: u32) -> Result<(), Memory>
        requires { AreLinked self.old.ends self.old.lasts }
        ensures more { OnOk result (IsMore self.old self.new branch) }
        ensures there { OnOk result ((level : ℕ) → level < length self.old.lasts
            → is_in level spot ≡ true → HasEnd self.new level branch) }
    {
        match spot {
            Some(spot) => self.add(spot.level, branch),
            None => Ok(()),
        }
    }

    // Puts the ends of the branch at a place last.
    fn add_branch(&mut self, place: u32, branch: &BranchSpots) -> Result<(), Memory>
        requires { AreLinked self.old.ends self.old.lasts }
        ensures more { OnOk result (IsMore self.old self.new place) }
        ensures there { OnOk result ((level : ℕ) → level < length self.old.lasts
            → touches level branch.now ≡ true → HasEnd self.new level place) }
    {
        self.add_spot(branch.first, place)?;
        self.add_spot(branch.second, place)?;
        self.add_spot(branch.third, place)?;
        Ok(())
    }

    /// The ends at the spots of these branches, in so many levels.
    pub(crate) fn of(
        alloc: Global,
        levels: u32,
        branches: &[BranchSpots],
    ) -> Result<LevelEnds, Memory>
        ensures index { IfOk result (IsIndexOf branches.now) }
        ensures long { IfOk result (λ index. length index.lasts ≡ levels) }
    {
        let Ok(count) = u32::try_from(branches.len()) else {
            return Err(Memory);
        };
        let mut index = LevelEnds::of_none(alloc, levels)?;
        for place in 0..count {
            index.add_branch(place, &branches[place as usize])?;
        }
        Ok(index)
    }

    /// The last end in a level.
    pub(crate) fn last(&self, level: u32) -> Option<u32>
        requires inside { level < length self.now.lasts }
        ensures { slice_get self.now.lasts level ≡ Some result }
    {
        self.lasts[level as usize]
    }
}
