// What stands at the nodes of each label.
ghost use Rattle.std.specs.Prelude.{◌≡◌, ℕ, ◌<◌, IfOk, length, slice_index, slice_set};
ghost use Rattle.grid_level.specs.Passing.{nodes};
ghost use Rattle.grid_groups.specs.Labels.{labels_placed};
ghost use Rattle.grid_busview.specs.Labelled as labelled;
ghost use Rattle.grid_busview.specs.Labelled.{counted, is_enough, count_with};

use crate::indices::index_from;
use grid_ids::Memory;
use grid_level::{Level, Stand};
use std::alloc::Global;

// How many of each kind stand at some nodes. A branch end is a feeder.
#[derive(Clone, Copy)]
pub(crate) struct Count {
    pub(crate) busbars: usize,
    pub(crate) branch_ends: usize,
    pub(crate) feeders: usize,
}

impl Count {
    pub(crate) fn add(&mut self, stand: &Stand)
        requires busbars { self.old.busbars < usize.MAX }
        requires branch_ends { self.old.branch_ends < usize.MAX }
        requires feeders { self.old.feeders < usize.MAX }
        ensures { self.new ≡ counted self.old stand.now }
    {
        match stand {
            Stand::Busbar => self.busbars += 1,
            Stand::Feeder(_) => self.feeders += 1,
            Stand::BranchEnd => {
                self.branch_ends += 1;
                self.feeders += 1;
            }
        }
    }

    /// How many terminals there are, as far as their number is needed for room alone.
    pub(crate) fn terminals(&self) -> usize {
        self.busbars.saturating_add(self.feeders)
    }
}

// Whether nodes with these counts are a bus.
pub(crate) fn makes_bus(count: Count) -> bool
    ensures { result ≡ is_enough count }
{
    (count.busbars >= 1 && count.feeders >= 1) || (count.branch_ends >= 1 && count.feeders >= 2)
}

// One terminal more under its label.
fn count_under(counts: &mut Vec<Count>, label: u32, stand: &Stand)
    requires label { label < length counts.old.items }
    requires busbars { (labelled.count_at counts.old.items label).busbars < usize.MAX }
    requires branch_ends { (labelled.count_at counts.old.items label).branch_ends < usize.MAX }
    requires feeders { (labelled.count_at counts.old.items label).feeders < usize.MAX }
    ensures { counts.new.items
        ≡ slice_set counts.old.items label (counted (labelled.count_at counts.old.items label)
        stand.now) }
{
    counts[label as usize].add(stand);
}

// How many of each kind stand at the nodes of each label.
pub(crate) fn count_labels(
    alloc: Global,
    level: &Level,
    labels: &[u32],
) -> Result<Vec<Count>, Memory>
    requires long { length labels.now ≡ length (nodes level.now) }
    requires below { (k : ℕ) → k < length labels.now
        → slice_index labels.now k < length labels.now }
    ensures long { IfOk result (λ counts. length counts.items ≡ length labels.now) }
    ensures each { IfOk result (λ counts. (label : ℕ) → label < length labels.now
        → labelled.count_at counts.items label
        ≡ count_with level.now.placed (labels_placed level.now labels.now) label) }
{
    level.keeps();
    let none = Count {
        busbars: 0,
        branch_ends: 0,
        feeders: 0,
    };
    let mut counts = match vec![in alloc; none; labels.len()] {
        Ok(counts) => counts,
        Err(_) => return Err(Memory),
    };
    let mut index = 0;
    for placed in level.placed() {
        index = index_from(level, index, placed.node);
        count_under(&mut counts, labels[index as usize], &placed.stand);
    }
    Ok(counts)
}
