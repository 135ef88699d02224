// What is found of many graphs over the same numbers that have most of their pairs in common.
ghost use Rattle.std.specs.Prelude.{◌≡◌, ◌<◌, ◌^◌, [], ◌∷◌, not, length, map, filter, IfOk, OnOk, All};
ghost use Rattle.std.specs.List.{AllZip};
ghost use Rattle.grid_graph.specs.Graph.{EndsBelow};
ghost use Rattle.grid_unions.specs.Halves.{AreClear, is_gone, is_marked, with_joined, IsReady, CanSweep, IsMore};
ghost use Rattle.grid_unions.specs.Sweep.{pair_at, IsFitting, IsFoundOf};

use crate::forest::own_numbers;
use crate::marks::mark_gone;
use crate::{Summed, Sums};
use grid_ids::{Memory, Seq};
use std::alloc::Global;

/// What one of many graphs over the same numbers has of its own.
#[derive(Debug, Drop)]
pub struct Change {
    /// The places of the common pairs that it has not.
    pub gone: Seq<u32>,
    /// Its pairs beside the common ones.
    pub own: Seq<(u32, u32)>,
}

/// What is found of a graph over numbers with weights.
#[derive(Clone, Copy, Debug, PartialEq, Eq)]
pub struct Found {
    /// How many classes it has.
    pub classes: u32,
    /// The least number of its greatest class; of several with as many numbers that of the one with the least number.
    pub main: u32,
    /// How many numbers that class has.
    pub size: u32,
    /// The sums of their weights.
    pub sums: Sums,
}

/// Where a sweep stands: the pairs that are joined, a mark for each common pair, of which none is set between calls,
/// and what was found so far.
#[derive(Drop)]
struct Board {
    summed: Summed,
    marks: Seq<bool>,
    found: Vec<Found>,
}

// Joins the pairs at those of the pending places that are not marked, and gives the marked places.
fn join_unmarked(
    alloc: Global,
    common: &[(u32, u32)],
    marks: &[bool],
    pending: &[u32],
    summed: &mut Summed,
) -> Result<Vec<u32>, Memory>
    requires ends { EndsBelow common.now summed.old.net.nodes }
    requires long { length marks.now ≡ length common.now }
    requires pending { All (λ place. place < length common.now) pending.now }
    ensures rest { IfOk result (λ rest. rest.items ≡ filter (is_marked marks.now) pending.now) }
    ensures joined { OnOk result (summed.new ≡ with_joined summed.old
        (map (pair_at common.now) (filter (λ place. not (is_marked marks.now place)) pending.now))) }
{
    let mut rest = Vec::new(alloc);
    for place in pending {
        if marks[*place as usize] {
            rest.push(*place)?;
        } else {
            let (a, b) = common[*place as usize];
            summed.join(a, b)?;
        }
    }
    Ok(rest)
}

// Joins pairs one after the other.
fn join_all(summed: &mut Summed, pairs: &[(u32, u32)]) -> Result<(), Memory>
    requires { EndsBelow pairs.now summed.old.net.nodes }
    ensures { OnOk result (summed.new ≡ with_joined summed.old pairs.now) }
{
    for (a, b) in pairs {
        summed.join(*a, *b)?;
    }
    Ok(())
}

impl Board {
    // Joins the pairs at those of the pending places that are gone in none of these changes, and gives the others.
    fn settle(
        &mut self,
        alloc: Global,
        common: &[(u32, u32)],
        changes: &[Change],
        pending: &[u32],
    ) -> Result<Vec<u32>, Memory>
        requires can { CanSweep common.now changes.now self.old.summed pending.now }
        requires long { length self.old.marks ≡ length common.now }
        requires clear { AreClear self.old.marks }
        ensures rest { IfOk result (λ rest. rest.items ≡ filter (is_gone changes.now) pending.now) }
        ensures joined { OnOk result (self.new.summed ≡ with_joined self.old.summed
            (map (pair_at common.now) (filter (λ place. not (is_gone changes.now place)) pending.now))) }
        ensures long { OnOk result (length self.new.marks ≡ length common.now) }
        ensures clear { OnOk result (AreClear self.new.marks) }
        ensures found { self.new.found ≡ self.old.found }
    {
        mark_gone(&mut self.marks, changes, true);
        let rest = join_unmarked(alloc, common, self.marks.slice(), pending, &mut self.summed)?;
        mark_gone(&mut self.marks, changes, false);
        Ok(rest)
    }

    // Joins a change's own pairs, and puts last what is found then.
    fn look(&mut self, common: &[(u32, u32)], change: &Change) -> Result<(), Memory>
        requires some { 0 < self.old.summed.net.nodes }
        requires change { IsFitting self.old.summed.net.nodes common.now change.now }
        requires ready { IsReady common.now self.old.summed.net.pairs [] change.now }
        ensures joined { OnOk result (self.new.summed ≡ with_joined self.old.summed change.now.own) }
        ensures marks { self.new.marks ≡ self.old.marks }
        ensures found { OnOk result (IsMore self.old.summed.weights common.now (change.now ∷ [])
            self.old.found.items self.new.found.items) }
    {
        join_all(&mut self.summed, change.own.slice())?;
        self.summed.well_formed();
        let main = self.summed.greatest();
        self.found.push(Found {
            classes: self.summed.classes(),
            main,
            size: self.summed.size(main),
            sums: self.summed.sums(main),
        })?;
        Ok(())
    }

    // Puts last what is found of each of these changes. At the end as many pairs are joined as before.
    fn solve(
        &mut self,
        alloc: Global,
        common: &[(u32, u32)],
        changes: &[Change],
        pending: &[u32],
    ) -> Result<(), Memory>
        requires some { 0 < length changes.now }
        requires can { CanSweep common.now changes.now self.old.summed pending.now }
        requires long { length self.old.marks ≡ length common.now }
        requires clear { AreClear self.old.marks }
        ensures summed { OnOk result (self.new.summed ≡ self.old.summed) }
        ensures long { OnOk result (length self.new.marks ≡ length common.now) }
        ensures clear { OnOk result (AreClear self.new.marks) }
        ensures found { OnOk result (IsMore self.old.summed.weights common.now changes.now
            self.old.found.items self.new.found.items) }
    {
        let mark = self.summed.mark();
        let rest = self.settle(alloc, common, changes, pending)?;
        if changes.len() < 2 {
            self.look(common, &changes[0])?;
            self.summed.back_to(mark);
            return Ok(());
        }
        let (front, back) = changes.split_at(changes.len() / 2);
        self.solve(alloc, common, front, &rest)?;
        self.solve(alloc, common, back, &rest)?;
        self.summed.back_to(mark);
        Ok(())
    }
}

/// What is found of the graph of each change, in their order: the common pairs but for those that are gone in it, and
/// its own ones, over as many numbers as there are weights.
///
/// A common pair that is gone in no change is joined once. Beside that as many pairs are joined and taken back as are
/// gone in the changes, times the logarithm of the number of changes, and each change's own pairs once. It is out of
/// memory, too, where a sum would not fit its type, or where the places of the common pairs would not.
pub fn sweep(
    alloc: Global,
    weights: &[Sums],
    common: &[(u32, u32)],
    changes: &[Change],
) -> Result<Vec<Found>, Memory>
    requires some { 0 < length weights.now }
    requires few { length weights.now < 2 ^ 32 }
    requires ends { EndsBelow common.now (length weights.now) }
    requires changes { All (IsFitting (length weights.now) common.now) changes.now }
    ensures { IfOk result (λ found. AllZip (IsFoundOf weights.now common.now) changes.now found.items) }
{
    let Ok(count) = u32::try_from(common.len()) else {
        return Err(Memory);
    };
    let mut board = Board {
        summed: Summed::new(alloc, weights)?,
        marks: Seq::from_vec(vec![in alloc; false; common.len()]?),
        found: Vec::new(alloc),
    };
    if changes.is_empty() {
        return Ok(board.found);
    }
    let pending = own_numbers(alloc, count)?;
    board.solve(alloc, common, changes, &pending)?;
    Ok(board.found)
}
