// Classes under pairs that were joined, with the sums of their weights.
ghost use Rattle.std.specs.Prelude.{◌≡◌, ◌-◌, ◌+ℤ◌, ◌^◌, ◌<◌, ◌≤◌, [], length, drop, IfOk, OnOk, OnErr};
ghost use Rattle.grid_graph.specs.Components.{places};
ghost use Rattle.grid_graph.specs.Graph.{graph, EndsBelow, joined_in, least_joined, count_joined};
ghost use Rattle.grid_graph.specs.Joined.{groups};
ghost use Rattle.grid_unions.specs.Ranks.{IsGreatest};
ghost use Rattle.grid_unions.specs.Summed.{weighted, class_sum, sum_of_both};
ghost use Rattle.grid_unions.specs.Unions.{with_newest};

use crate::Unions;
use grid_ids::{Memory, Seq};
use std::alloc::Global;
use std::marker::Model;

/// The sums over the loads and over the generation, in W.
#[derive(Clone, Copy, Debug, PartialEq, Eq)]
pub struct Sums {
    pub load: i128,
    pub generation: i128,
}

// The sums that stood at a place before a pair was joined.
#[derive(Clone, Copy)]
struct Replaced {
    place: u32,
    sums: Sums,
}

/// Classes of numbers with weights under pairs that were joined, of which the newest can be taken back. Seen as a
/// graph, of which the newest pair comes first, and the weights by number.
#[derive(Drop)]
pub struct Summed {
    unions: Unions,
    // by the least number of each class
    sums: Seq<Sums>,
    // for each pair the sums that it replaced, the newest last
    replaced: Seq<Replaced>,
}

impl Model for Summed {
    ghost use Rattle.std.specs.Prelude.{reverse};
    ghost use Rattle.grid_unions.specs.Summed.{Weighted, weighted, sums_before, AreSummed};

    ghost Value = { Weighted };

    ghost view = { λ s. weighted s.unions (sums_before s.sums (reverse s.replaced)) };

    ghost invariant = { λ s.
        let older = reverse s.replaced in
        AreSummed s.unions.nodes s.unions.pairs (sums_before s.sums older) older s.sums };
}

// The sums of both. It is out of memory, too, where a sum would not fit its type.
fn add_sums(first: Sums, second: Sums) -> Result<Sums, Memory>
    ensures load { IfOk result (λ both. both.load ≡ first.load +ℤ second.load) }
    ensures generation { IfOk result (λ both. both.generation
        ≡ first.generation +ℤ second.generation) }
{
    match (
        first.load.checked_add(second.load),
        first.generation.checked_add(second.generation),
    ) {
        (Some(load), Some(generation)) => Ok(Sums { load, generation }),
        _ => Err(Memory),
    }
}

// The sums of a class, or of two classes together, by their least numbers.
fn sums_of_both(sums: &Seq<Sums>, first: u32, second: u32) -> Result<Sums, Memory>
    requires first { first < length sums.now }
    requires second { second < length sums.now }
    ensures load { IfOk result (λ both. both.load ≡ sum_of_both (λ s. s.load) sums.now first second) }
    ensures generation { IfOk result (λ both. both.generation
        ≡ sum_of_both (λ s. s.generation) sums.now first second) }
{
    let own = sums[first as usize];
    if first == second {
        return Ok(own);
    }
    add_sums(own, sums[second as usize])
}

impl Summed {
    /// Numbers with these weights, of which none is joined to another.
    pub fn new(alloc: Global, weights: &[Sums]) -> Result<Summed, Memory>
        requires { length weights.now < 2 ^ 32 }
        ensures { IfOk result (λ summed. summed ≡ weighted (graph (length weights.now) []) weights.now) }
    {
        let unions = Unions::new(alloc, weights.len() as u32)?;
        Ok(Summed {
            unions,
            sums: Seq::from_vec(weights.to_vec(alloc)?),
            replaced: Seq::empty(alloc),
        })
    }

    /// Joins two numbers. Where memory runs out, or a sum would not fit its type, all is as before.
    pub fn join(&mut self, a: u32, b: u32) -> Result<(), Memory>
        requires a { a < self.old.net.nodes }
        requires b { b < self.old.net.nodes }
        ensures ok { OnOk result (self.new ≡ weighted (with_newest self.old.net a b) self.old.weights) }
        ensures err { OnErr result (self.new ≡ self.old) }
    {
        let first = self.unions.least(a);
        let second = self.unions.least(b);
        let both = sums_of_both(&self.sums, first, second)?;
        let place = first.min(second);
        let sums = self.sums[place as usize];
        self.replaced.push(Replaced { place, sums })?;
        if let Err(fault) = self.unions.join(a, b) {
            self.replaced.pop();
            return Err(fault);
        }
        self.sums.set(place as usize, both);
        Ok(())
    }

    /// How many pairs were joined.
    pub fn mark(&self) -> usize
        ensures { result ≡ length self.now.net.pairs }
    {
        self.unions.mark()
    }

    /// Takes the newest pairs back until so many are left. It takes no memory.
    pub fn back_to(&mut self, mark: usize)
        requires { mark ≤ length self.old.net.pairs }
        ensures { self.new ≡ weighted
            (graph self.old.net.nodes (drop (length self.old.net.pairs - mark) self.old.net.pairs))
            self.old.weights }
    {
        while self.mark() > mark {
            self.take_back();
        }
    }

    // Takes the newest pair back, if there is one.
    fn take_back(&mut self)
        ensures { self.new ≡ weighted (graph self.old.net.nodes (drop 1 self.old.net.pairs)) self.old.weights }
    {
        let Some(replaced) = self.replaced.pop() else {
            return;
        };
        self.unions.back_to(self.unions.mark() - 1);
        self.sums.set(replaced.place as usize, replaced.sums);
    }

    /// The sums of the weights of the numbers that are joined to one, with its own.
    pub fn sums(&self, a: u32) -> Sums
        requires { a < self.now.net.nodes }
        ensures load { result.load ≡ class_sum (λ s. s.load) self.now.net self.now.weights a }
        ensures generation { result.generation ≡ class_sum (λ s. s.generation) self.now.net self.now.weights a }
    {
        self.sums[self.unions.least(a) as usize]
    }

    /// Whether two numbers are joined.
    pub fn are_joined(&self, a: u32, b: u32) -> bool
        requires a { a < self.now.net.nodes }
        requires b { b < self.now.net.nodes }
        ensures { result ≡ joined_in self.now.net a b }
    {
        self.unions.are_joined(a, b)
    }

    /// How many numbers are joined to one, with itself.
    pub fn size(&self, a: u32) -> u32
        requires { a < self.now.net.nodes }
        ensures { result ≡ count_joined self.now.net a }
    {
        self.unions.size(a)
    }

    /// The least number that is joined to one.
    pub fn least(&self, a: u32) -> u32
        requires { a < self.now.net.nodes }
        ensures { result ≡ least_joined self.now.net a }
    {
        self.unions.least(a)
    }

    /// The least number of the class with the most numbers; of several such classes, of the one with the least number.
    pub fn greatest(&self) -> u32
        requires { 0 < self.now.net.nodes }
        ensures { IsGreatest self.now.net result }
    {
        self.unions.greatest()
    }

    /// How many classes there are.
    pub fn classes(&self) -> u32
        ensures { result ≡ length (groups (places self.now.net.nodes) self.now.net.pairs) }
    {
        self.unions.classes()
    }

    /// Tells what always holds: both ends of each pair are below the count, and there are as many weights.
    pub fn well_formed(&self)
        ensures ends { EndsBelow self.now.net.pairs self.now.net.nodes }
        ensures long { length self.now.weights ≡ self.now.net.nodes }
    {
        self.unions.ends_below();
    }
}
