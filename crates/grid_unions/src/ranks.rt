// The least number of each tree, and the greatest tree.
ghost use Rattle.std.specs.Prelude.{◌≡◌, ℕ, ◌<◌, true, false, length, IfOk, slice_set};
ghost use Rattle.grid_unions.specs.Ranks.{Ranks, ranking, first_at, firsts_united, IsChosen};

use crate::forest::{Forest, own_numbers};
use grid_ids::Memory;
use std::alloc::Global;
use std::marker::Model;

/// For each root the least number of its tree, and the root of the greatest tree.
#[derive(Drop)]
pub(crate) struct Ranking {
    firsts: Vec<u32>,
    greatest: u32,
}

impl Model for Ranking {
    ghost use Rattle.grid_unions.specs.Ranks.{Ranking, ranking};

    ghost Value = { Ranking };

    ghost view = { λ r. ranking r.firsts.items r.greatest };
}

// Whether so many nodes with that least one rank at or before so many others with theirs.
fn ranks(size: u32, first: u32, other_size: u32, other_first: u32) -> bool
    ensures yes { result ≡ true → Ranks size first other_size other_first }
    ensures no { result ≡ false → Ranks other_size other_first size first }
{
    if other_size < size {
        return true;
    }
    if size < other_size {
        return false;
    }
    first <= other_first
}

impl Ranking {
    /// The ranks of trees of one node each.
    pub(crate) fn new(alloc: Global, count: u32) -> Result<Ranking, Memory>
        ensures long { IfOk result (λ ranks. length ranks.firsts ≡ count) }
        ensures own { IfOk result (λ ranks. (x : ℕ) → x < count → first_at ranks x ≡ x) }
        ensures greatest { IfOk result (λ ranks. ranks.greatest ≡ 0) }
    {
        let firsts = own_numbers(alloc, count)?;
        Ok(Ranking {
            firsts,
            greatest: 0,
        })
    }

    /// The least number of a root's tree.
    pub(crate) fn first(&self, root: u32) -> u32
        requires { root < length self.now.firsts }
        ensures { result ≡ first_at self.now root }
    {
        self.firsts[root as usize]
    }

    /// The root of the greatest tree.
    pub(crate) fn greatest(&self) -> u32
        ensures { result ≡ self.now.greatest }
    {
        self.greatest
    }

    /// Takes in that a root was hung under another one.
    pub(crate) fn unite(&mut self, forest: &Forest, low: u32, top: u32)
        requires low { low < length self.old.firsts }
        requires top { top < length self.old.firsts }
        requires greatest { self.old.greatest < length self.old.firsts }
        requires sizes { length forest.now.sizes ≡ length self.old.firsts }
        ensures firsts { self.new.firsts ≡ firsts_united self.old.firsts low top }
        ensures chosen { IsChosen forest.now self.new self.old.greatest top }
    {
        let first = self.firsts[top as usize].min(self.firsts[low as usize]);
        self.firsts[top as usize] = first;
        let held = self.greatest;
        let held_first = self.firsts[held as usize];
        if ranks(forest.size(held), held_first, forest.size(top), first) {
            return;
        }
        self.greatest = top;
    }

    /// Gives a root's tree the least number that it had, and chooses the tree that was the greatest.
    pub(crate) fn take_back(&mut self, top: u32, first: u32, greatest: u32)
        requires { top < length self.old.firsts }
        ensures { self.new ≡ ranking (slice_set self.old.firsts top first) greatest }
    {
        self.firsts[top as usize] = first;
        self.greatest = greatest;
    }
}
