// Trees over numbered nodes, of which the roots are hung under each other and taken back.
ghost use Rattle.std.specs.Prelude.{◌≡◌, ℕ, ◌+◌, ◌-◌, ◌^◌, ◌<◌, ◌≤◌, ◌⊎◌, [], length, IfOk, slice_index};
ghost use Rattle.grid_graph.specs.Graph.{Graph, graph, least_joined};
ghost use Rattle.grid_unions.specs.Trees.{parent_of, size_at, hung, unhung, IsForest, IsKept, IsHung};

use grid_ids::Memory;
use std::alloc::Global;
use std::marker::Model;

/// For each node the one that it points to, a root to itself, and the size of its tree when it was a root last. No way
/// is made shorter, so that what was hung last can be taken back by two writes.
#[derive(Drop)]
pub(crate) struct Forest {
    parents: Vec<u32>,
    sizes: Vec<u32>,
    roots: u32,
}

impl Model for Forest {
    ghost use Rattle.grid_unions.specs.Trees.{Trees, trees};

    ghost Value = { Trees };

    ghost view = { λ f. trees f.parents.items f.sizes.items f.roots };
}

/// The numbers below a count in order.
pub(crate) fn own_numbers(alloc: Global, count: u32) -> Result<Vec<u32>, Memory>
    ensures long { IfOk result (λ numbers. length numbers.items ≡ count) }
    ensures own { IfOk result (λ numbers. (x : ℕ) → x < count → slice_index numbers.items x ≡ x) }
{
    Ok((0..count).collect(alloc)?)
}

// As many ones.
fn ones(alloc: Global, count: u32) -> Result<Vec<u32>, Memory>
    ensures long { IfOk result (λ ones. length ones.items ≡ count) }
    ensures one { IfOk result (λ ones. (x : ℕ) → x < count → slice_index ones.items x ≡ 1) }
{
    Ok(vec![in alloc; 1; count as usize]?)
}

impl Forest {
    /// The nodes below a count, each a root.
    pub(crate) fn new(alloc: Global, count: u32) -> Result<Forest, Memory>
        ensures { IfOk result (λ forest. IsForest (graph count []) forest) }
    {
        let parents = own_numbers(alloc, count)?;
        let sizes = ones(alloc, count)?;
        Ok(Forest {
            parents,
            sizes,
            roots: count,
        })
    }

    /// The root of a node's tree.
    pub(crate) fn root(&self, node: u32) -> u32
        requires kept { IsKept self.now }
        requires node { node < length self.now.parents }
        ensures below { result < length self.now.parents }
        ensures root { parent_of self.now result ≡ result }
        ensures same { (net : Graph) → IsForest net self.now → least_joined net result ≡ least_joined net node }
    {
        let mut at = node;
        while self.parents[at as usize] != at {
            at = self.parents[at as usize];
        }
        at
    }

    /// The size of a root's tree.
    pub(crate) fn size(&self, root: u32) -> u32
        requires { root < length self.now.sizes }
        ensures { result ≡ size_at self.now root }
    {
        self.sizes[root as usize]
    }

    /// How many roots there are.
    pub(crate) fn roots(&self) -> u32
        ensures { result ≡ self.now.roots }
    {
        self.roots
    }

    /// Of two roots the one of the lesser tree, and then the other one, under which it is hung so that ways stay short.
    pub(crate) fn in_order(&self, first: u32, second: u32) -> (u32, u32)
        requires first { first < length self.now.sizes }
        requires second { second < length self.now.sizes }
        ensures { (result ≡ (first, second)) ⊎ (result ≡ (second, first)) }
    {
        if self.sizes[first as usize] <= self.sizes[second as usize] {
            (first, second)
        } else {
            (second, first)
        }
    }

    /// Hangs a root under another one.
    pub(crate) fn hang(&mut self, low: u32, top: u32)
        requires low { low < length self.old.sizes }
        requires parents { low < length self.old.parents }
        requires top { top < length self.old.sizes }
        requires fits { size_at self.old top + size_at self.old low < 2 ^ 32 }
        requires roots { 1 ≤ self.old.roots }
        ensures { self.new ≡ hung self.old low top }
    {
        self.sizes[top as usize] += self.sizes[low as usize];
        self.parents[low as usize] = top;
        self.roots -= 1;
    }

    /// Makes a root of a node again, and tells under which one it was hung.
    pub(crate) fn take_back(&mut self, low: u32) -> u32
        requires hung { IsHung self.old low }
        requires sizes { length self.old.sizes ≡ length self.old.parents }
        requires roots { self.old.roots + 1 < 2 ^ 32 }
        ensures top { result ≡ parent_of self.old low }
        ensures after { self.new ≡ unhung self.old low }
    {
        let top = self.parents[low as usize];
        self.sizes[top as usize] -= self.sizes[low as usize];
        self.parents[low as usize] = low;
        self.roots += 1;
        top
    }
}
