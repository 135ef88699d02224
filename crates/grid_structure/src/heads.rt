// How many levels and transformers are the substations' own. Blocks of substations have a sum each, so that few numbers
// are added up where there are many substations.
ghost use Rattle.std.specs.Prelude.{◌≡◌, ◌+◌, ◌-◌, ◌<◌, ◌≤◌, ◌^◌, [], ◌∷◌, ◌++◌, length, take, drop, sum, slice_get, slice_index_or, slice_set, Some, OnOk, OnErr};
ghost use Rattle.std.specs.List.{sum_by};
ghost use Rattle.std.proofs.Common.{rules};
ghost use Rattle.grid_structure.specs.Cutting.{level_total, transformer_total, head_place};
ghost use Rattle.grid_structure.specs.Clearing.{winding_place};
ghost use Rattle.grid_structure.specs.Blocks.{AreSums, count_of, opened, place_by};
ghost use Rattle.grid_structure.specs.declared.structure.Head.{Head};

use crate::structure::Head;
use grid_ids::{Duplicate, Id, Memory, clone_items};
use std::alloc::{AllocError, Global};
use std::marker::Model;

// How many substations have one sum.
const BLOCK: usize = 256;

/// What is counted of a substation's own.
#[derive(Clone, Copy, Debug)]
pub enum Own {
    Levels,
    Transformers,
}

/// A block of substations, and what is left of a place there.
#[derive(Clone, Copy, Debug)]
pub struct Stop {
    pub block: usize,
    pub rest: u32,
}

// How many are a substation's own.
fn count_own(head: &Head, own: Own) -> u32
    ensures { result ≡ count_of own head.now }
{
    match own {
        Own::Levels => head.levels,
        Own::Transformers => head.transformers,
    }
}

// How many are these substations' own.
fn total_own(heads: &[Head], own: Own) -> u32
    requires { sum_by (count_of own) heads.now < 2 ^ 32 }
    ensures { result ≡ sum_by (count_of own) heads.now }
{
    let mut total = 0;
    for place in 0..heads.len() {
        total += count_own(&heads[place], own);
    }
    total
}

// The sum of these blocks.
fn sum_of(sums: &[u32]) -> u32
    requires { sum sums.now < 2 ^ 32 }
    ensures { result ≡ sum sums.now }
{
    sums.iter().sum()
}

// The first blocks.
fn front(sums: &[u32], count: usize) -> &[u32]
    requires { count ≤ length sums.now }
    ensures { result.now ≡ take count sums.now }
{
    &sums[..count]
}

// The substations from a place to another.
fn part(heads: &[Head], from: usize, to: usize) -> &[Head]
    requires order { from ≤ to }
    requires end { to ≤ length heads.now }
    ensures { result.now ≡ take (to - from) (drop from heads.now) }
{
    &heads[from..to]
}

// The substations from a place on.
fn tail(heads: &[Head], from: usize) -> &[Head]
    requires { from ≤ length heads.now }
    ensures { result.now ≡ drop from heads.now }
{
    &heads[from..]
}

// How many are the first substations' own.
fn total_before(heads: &[Head], sums: &[u32], own: Own, count: usize) -> u32
    requires sums { AreSums (count_of own) heads.now sums.now }
    requires within { count ≤ length heads.now }
    requires few { sum_by (count_of own) heads.now < 2 ^ 32 }
    ensures { result ≡ sum_by (count_of own) (take count heads.now) }
{
    let blocks = count / BLOCK;
    let total = sum_of(front(sums, blocks));
    total + total_own(part(heads, blocks * BLOCK, count), own)
}

// The place of the substation in whose own a place lies, counted over them all.
fn head_in(heads: &[Head], own: Own, place: u32) -> usize
    requires { place < sum_by (count_of own) heads.now }
    ensures place { result ≡ place_by (count_of own) heads.now place }
    ensures within { result < length heads.now }
{
    let mut rest = place;
    for at in 0..heads.len() {
        let count = count_own(&heads[at], own);
        if rest < count {
            return at;
        }
        rest -= count;
    }
    0
}

// The block in whose own a place lies.
fn block_of(sums: &[u32], place: u32) -> Stop
    ensures within { result.block ≤ length sums.now }
    ensures split { sum (take result.block sums.now) + result.rest ≡ place }
{
    let mut rest = place;
    for block in 0..sums.len() {
        let count = sums[block];
        if rest < count {
            return Stop { block, rest };
        }
        rest -= count;
    }
    Stop {
        block: sums.len(),
        rest,
    }
}

// The place of the substation in whose own a place lies, found by its block.
fn head_at(heads: &[Head], sums: &[u32], own: Own, place: u32) -> usize
    requires sums { AreSums (count_of own) heads.now sums.now }
    requires within { place < sum_by (count_of own) heads.now }
    requires few { length heads.now < 2 ^ 32 }
    ensures { result ≡ place_by (count_of own) heads.now place }
{
    let stop = block_of(sums, place);
    let start = stop.block * BLOCK;
    start + head_in(tail(heads, start), own, stop.rest)
}

// Sees that the blocks reach beyond this many substations.
fn open_block(sums: &mut Vec<u32>, count: usize) -> Result<(), Memory>
    ensures ok { OnOk result (sums.new.items ≡ opened count sums.old.items) }
    ensures err { OnErr result (sums.new.items ≡ sums.old.items) }
{
    if count / BLOCK < sums.len() {
        return Ok(());
    }
    match sums.push(0) {
        Ok(()) => Ok(()),
        Err(_) => Err(Memory),
    }
}

/// The substations in order of creation, seen as their list.
#[derive(Drop)]
pub struct Heads {
    items: Vec<Head>,
    // of each block, how many levels it has, and how many transformers
    level_sums: Vec<u32>,
    transformer_sums: Vec<u32>,
}

impl Model for Heads {
    ghost use Rattle.std.specs.Prelude.{List};
    ghost use Rattle.grid_structure.specs.declared.structure.Head.{Head};

    ghost Value = { List Head };

    ghost use Rattle.grid_structure.specs.Blocks.{HasSums};

    ghost view = { λ a. a.items.items };

    ghost invariant = { λ a. HasSums a.items.items a.level_sums.items a.transformer_sums.items };
}

impl Heads {
    // No substation, which takes no memory.
    pub(crate) fn empty(alloc: Global) -> Heads
        ensures { result ≡ [] }
    {
        Heads {
            items: Vec::new(alloc),
            level_sums: Vec::new(alloc),
            transformer_sums: Vec::new(alloc),
        }
    }

    pub(crate) fn len(&self) -> usize
        ensures { result ≡ length self.now }
    {
        self.items.len()
    }

    pub(crate) fn as_slice(&self) -> &[Head]
        ensures { result.now ≡ self.now }
    {
        self.items.as_slice()
    }

    pub(crate) fn head(&self, at: usize) -> &Head
        requires { at < length self.now }
        ensures { result.now ≡ slice_index_or self.now at result.now }
    {
        &self.items[at]
    }

    // How many levels the first substations have.
    pub(crate) fn levels_before(&self, count: usize) -> u32
        requires within { count ≤ length self.now }
        requires few { level_total self.now < 2 ^ 32 }
        ensures { result ≡ level_total (take count self.now) }
    {
        let (heads, sums) = (self.items.as_slice(), self.level_sums.as_slice());
        total_before(heads, sums, Own::Levels, count)
    }

    // How many transformers the first substations have.
    pub(crate) fn transformers_before(&self, count: usize) -> u32
        requires within { count ≤ length self.now }
        requires few { transformer_total self.now < 2 ^ 32 }
        ensures { result ≡ transformer_total (take count self.now) }
    {
        let (heads, sums) = (self.items.as_slice(), self.transformer_sums.as_slice());
        total_before(heads, sums, Own::Transformers, count)
    }

    // The place of the substation whose levels go so far.
    pub(crate) fn head_of_level(&self, level: u32) -> usize
        requires within { level < level_total self.now }
        requires few { length self.now < 2 ^ 32 }
        ensures { result ≡ head_place self.now level }
    {
        let (heads, sums) = (self.items.as_slice(), self.level_sums.as_slice());
        head_at(heads, sums, Own::Levels, level)
    }

    // The place of the substation whose transformers go so far.
    pub(crate) fn head_of_transformer(&self, place: u32) -> usize
        requires within { place < transformer_total self.now }
        requires few { length self.now < 2 ^ 32 }
        ensures { result ≡ winding_place self.now place }
    {
        let (heads, sums) = (self.items.as_slice(), self.transformer_sums.as_slice());
        head_at(heads, sums, Own::Transformers, place)
    }

    // Puts a substation last that has nothing.
    pub(crate) fn push(&mut self, id: Id) -> Result<(), Memory>
        ensures ok { OnOk result (self.new
            ≡ self.old ++ record { id = id; levels = 0; transformers = 0 } ∷ []) }
        ensures err { OnErr result (self.new ≡ self.old) }
    {
        let count = self.items.len();
        match open_block(&mut self.level_sums, count) {
            Ok(()) => {}
            Err(fault) => return Err(fault),
        }
        match open_block(&mut self.transformer_sums, count) {
            Ok(()) => {}
            Err(fault) => return Err(fault),
        }
        let head = Head {
            id,
            levels: 0,
            transformers: 0,
        };
        match self.items.push(head) {
            Ok(()) => {}
            Err(_) => return Err(Memory),
        }
        Ok(())
    }

    // Counts a level more at a substation.
    pub(crate) fn add_level(&mut self, at: usize)
        requires within { at < length self.old }
        requires few { level_total self.old + 1 < 2 ^ 32 }
        ensures { (h : Head) → slice_get self.old at ≡ Some h
            → self.new ≡ slice_set self.old at (record h { levels = h.levels + 1 }) }
    {
        self.items[at].levels += 1;
        self.level_sums[at / BLOCK] += 1;
    }

    // Counts a transformer more at a substation.
    pub(crate) fn add_transformer(&mut self, at: usize)
        requires within { at < length self.old }
        requires few { transformer_total self.old + 1 < 2 ^ 32 }
        ensures { (h : Head) → slice_get self.old at ≡ Some h
            → self.new ≡ slice_set self.old at (record h { transformers = h.transformers + 1 }) }
    {
        self.items[at].transformers += 1;
        self.transformer_sums[at / BLOCK] += 1;
    }

    // Counts a transformer less at a substation.
    pub(crate) fn take_transformer(&mut self, at: usize)
        requires within { at < length self.old }
        requires some { (h : Head) → slice_get self.old at ≡ Some h → 1 ≤ h.transformers }
        ensures { (h : Head) → slice_get self.old at ≡ Some h
            → self.new ≡ slice_set self.old at (record h { transformers = h.transformers - 1 }) }
    {
        self.items[at].transformers -= 1;
        self.transformer_sums[at / BLOCK] -= 1;
    }
}

impl Clone for Heads {
    ghost is_clone = { λ x y. y ≡ x };

    fn clone(&self) -> Result<Heads, AllocError> {
        Ok(Heads {
            items: clone_items(&self.items)?,
            level_sums: clone_items(&self.level_sums)?,
            transformer_sums: clone_items(&self.transformer_sums)?,
        })
    }
}

impl Duplicate for Heads {
    ghost clone_equals = { Prim.search rules };
}
