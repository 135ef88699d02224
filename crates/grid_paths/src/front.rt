// The nodes from which a search goes on.
ghost use Rattle.std.specs.Prelude.{◌≡◌, ◌<◌, [], ◌∷◌, ◌++◌, length, IfOk, IfNone, IfSome, OnOk};
ghost use Rattle.std.specs.List.Sorted.{IsPermutation};

use grid_ids::Memory;
use std::alloc::Global;
use std::marker::Model;

/// Nodes that wait, in the order in which they were put, each with the cost at which it waits.
#[derive(Drop)]
struct Queue {
    /// All that were put.
    entries: Vec<(u64, u32)>,
    /// How many of them were taken.
    taken: usize,
}

impl Model for Queue {
    ghost use Rattle.std.specs.Prelude.{ℕ, ◌≤◌, List, length, drop};

    ghost Value = { List (ℕ × ℕ) };

    ghost view = { λ queue. drop queue.taken queue.entries.items };

    ghost invariant = { λ queue. queue.taken ≤ length queue.entries.items };
}

impl Queue {
    /// A queue in which no node waits, with room for so many.
    fn with_room(alloc: Global, nodes: usize) -> Result<Queue, Memory>
        ensures { IfOk result (λ queue. queue ≡ []) }
    {
        Ok(Queue {
            entries: Vec::with_capacity(alloc, nodes)?,
            taken: 0,
        })
    }

    /// Puts a node last, which waits at a cost.
    fn put(&mut self, cost: u64, node: u32) -> Result<(), Memory>
        ensures { OnOk result (self.new ≡ self.old ++ (cost, node) ∷ []) }
    {
        self.entries.push((cost, node))?;
        Ok(())
    }

    /// The cost at which the first waits.
    fn first_cost(&self) -> Option<u64>
        ensures some { IfSome result (λ _. 0 < length self.now) }
        ensures none { IfNone result (self.now ≡ []) }
    {
        let (cost, _) = self.entries.get(self.taken)?;
        Some(*cost)
    }

    /// Takes out the first.
    fn take(&mut self) -> Option<(u64, u32)>
        ensures some { IfSome result (λ first. self.old ≡ first ∷ self.new) }
        ensures none { IfNone result (self.old ≡ []) }
    {
        let first = *self.entries.get(self.taken)?;
        self.taken += 1;
        Some(first)
    }
}

/// The nodes that wait. As they are visited at rising costs and a step weighs one of two amounts, those reached by the
/// same amount are put at rising costs: they need no order but that in which they were put.
#[derive(Drop)]
pub(crate) struct Front {
    /// Those reached by a free edge, and the goals.
    free: Queue,
    /// Those reached by a closing.
    closing: Queue,
}

impl Model for Front {
    ghost use Rattle.std.specs.Prelude.{ℕ, List, ◌++◌};

    ghost Value = { List (ℕ × ℕ) };

    ghost view = { λ front. front.free ++ front.closing };
}

impl Front {
    /// A front at which no node waits, with room for so many that are reached by a free edge.
    pub(crate) fn with_room(alloc: Global, nodes: usize) -> Result<Front, Memory>
        ensures { IfOk result (λ front. front ≡ []) }
    {
        Ok(Front {
            free: Queue::with_room(alloc, nodes)?,
            closing: Queue::with_room(alloc, 0)?,
        })
    }

    /// One more node waits at a cost.
    pub(crate) fn put(&mut self, cost: u64, node: u32, by_closing: bool) -> Result<(), Memory>
        ensures { OnOk result (IsPermutation ((cost, node) ∷ self.old) self.new) }
    {
        if by_closing {
            self.closing.put(cost, node)
        } else {
            self.free.put(cost, node)
        }
    }

    /// Takes out a node with the cost at which it waits: of the first of both queues, that of lesser cost.
    pub(crate) fn take(&mut self) -> Option<(u64, u32)>
        ensures some { IfSome result (λ next. IsPermutation self.old (next ∷ self.new)) }
        ensures none { IfNone result (self.old ≡ []) }
    {
        let Some(free) = self.free.first_cost() else {
            return self.closing.take();
        };
        match self.closing.first_cost() {
            Some(closing) if closing < free => self.closing.take(),
            _ => self.free.take(),
        }
    }
}
