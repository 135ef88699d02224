// Classes under pairs that were joined.
ghost use Rattle.std.specs.Prelude.{◌≡◌, ◌-◌, ◌<◌, ◌≤◌, [], length, drop, IfOk, OnOk, OnErr};
ghost use Rattle.grid_graph.specs.Components.{places};
ghost use Rattle.grid_graph.specs.Graph.{graph, EndsBelow, joined_in, least_joined, count_joined};
ghost use Rattle.grid_unions.specs.Ranks.{IsGreatest};
ghost use Rattle.grid_graph.specs.Joined.{groups};
ghost use Rattle.grid_unions.specs.Unions.{with_newest};

use crate::forest::Forest;
use crate::join::Join;
use crate::ranks::Ranking;
use grid_ids::{Memory, Seq};
use std::alloc::Global;
use std::marker::Model;

/// Classes of the numbers below a count under pairs that were joined, of which the newest can be taken back. Seen as a
/// graph: the count, and the pairs, the newest first.
#[derive(Drop)]
pub struct Unions {
    forest: Forest,
    ranks: Ranking,
    joins: Seq<Join>,
}

impl Model for Unions {
    ghost use Rattle.std.specs.Prelude.{length, map, reverse, ◌<◌, ◌^◌};
    ghost use Rattle.grid_graph.specs.Graph.{Graph, graph};

    ghost Value = { Graph };

    ghost use Rattle.grid_unions.specs.Unions.{pair_of, AreRight};
    ghost use Rattle.grid_unions.specs.Ranks.{AreRanked};

    ghost view = { λ u. graph (length u.forest.parents) (map pair_of (reverse u.joins)) };

    ghost invariant = { λ u. (length u.forest.parents < 2 ^ 32)
        × (AreRight (length u.forest.parents) (reverse u.joins) u.forest
        × AreRanked (length u.forest.parents) (reverse u.joins) u.forest u.ranks) };
}

impl Unions {
    /// The numbers below a count, of which none is joined to another.
    pub fn new(alloc: Global, count: u32) -> Result<Unions, Memory>
        ensures { IfOk result (λ unions. unions ≡ graph count []) }
    {
        let forest = Forest::new(alloc, count)?;
        let ranks = Ranking::new(alloc, count)?;
        Ok(Unions {
            forest,
            ranks,
            joins: Seq::empty(alloc),
        })
    }

    /// Joins two numbers. Where memory runs out, all is as before.
    pub fn join(&mut self, a: u32, b: u32) -> Result<(), Memory>
        requires a { a < self.old.nodes }
        requires b { b < self.old.nodes }
        ensures ok { OnOk result (self.new ≡ with_newest self.old a b) }
        ensures err { OnErr result (self.new ≡ self.old) }
    {
        let first = self.forest.root(a);
        let second = self.forest.root(b);
        let greatest = self.ranks.greatest();
        if first == second {
            let least = self.ranks.first(first);
            self.joins.push(Join {
                a,
                b,
                hung: None,
                first: least,
                greatest,
            })?;
            return Ok(());
        }
        let (low, top) = self.forest.in_order(first, second);
        let least = self.ranks.first(top);
        self.joins.push(Join {
            a,
            b,
            hung: Some(low),
            first: least,
            greatest,
        })?;
        self.forest.hang(low, top);
        self.ranks.unite(&self.forest, low, top);
        Ok(())
    }

    /// How many pairs were joined.
    pub fn mark(&self) -> usize
        ensures { result ≡ length self.now.pairs }
    {
        self.joins.len()
    }

    /// Takes the newest pairs back until so many are left. It takes no memory.
    pub fn back_to(&mut self, mark: usize)
        requires { mark ≤ length self.old.pairs }
        ensures { self.new ≡ graph self.old.nodes (drop (length self.old.pairs - mark) self.old.pairs) }
    {
        while self.mark() > mark {
            self.take_back();
        }
    }

    // Takes the newest pair back, if there is one.
    fn take_back(&mut self)
        ensures { self.new ≡ graph self.old.nodes (drop 1 self.old.pairs) }
    {
        let Some(join) = self.joins.pop() else {
            return;
        };
        let Some(low) = join.hung else {
            return;
        };
        let top = self.forest.take_back(low);
        self.ranks.take_back(top, join.first, join.greatest);
    }

    /// Whether two numbers are joined.
    pub fn are_joined(&self, a: u32, b: u32) -> bool
        requires a { a < self.now.nodes }
        requires b { b < self.now.nodes }
        ensures { result ≡ joined_in self.now a b }
    {
        self.forest.root(a) == self.forest.root(b)
    }

    /// How many numbers are joined to one, with itself.
    pub fn size(&self, a: u32) -> u32
        requires { a < self.now.nodes }
        ensures { result ≡ count_joined self.now a }
    {
        self.forest.size(self.forest.root(a))
    }

    /// The least number that is joined to one.
    pub fn least(&self, a: u32) -> u32
        requires { a < self.now.nodes }
        ensures { result ≡ least_joined self.now a }
    {
        self.ranks.first(self.forest.root(a))
    }

    /// The least number of the class with the most numbers; of several such classes, of the one with the least number.
    pub fn greatest(&self) -> u32
        requires { 0 < self.now.nodes }
        ensures { IsGreatest self.now result }
    {
        self.ranks.first(self.ranks.greatest())
    }

    /// How many classes there are.
    pub fn classes(&self) -> u32
        ensures { result ≡ length (groups (places self.now.nodes) self.now.pairs) }
    {
        self.forest.roots()
    }

    /// Tells what always holds: both ends of each pair are below the count.
    pub fn ends_below(&self)
        ensures { EndsBelow self.now.pairs self.now.nodes }
    {
        let _ = &self.joins;
    }
}
