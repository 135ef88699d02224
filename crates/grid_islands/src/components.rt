// The components of a network's buses.
ghost use Rattle.std.specs.Prelude.{◌≡◌, ◌<◌, ◌^◌, IfOk, List, Bool, flat_map};
ghost use Rattle.grid_graph.specs.Graph.{graph};
ghost use Rattle.grid_queue.specs.Parents.{AreLabelsOf};
ghost use Rattle.grid_structure.specs.Network.{Network};
ghost use Rattle.grid_islands.specs.Islands as islands;
ghost use Rattle.grid_islands.specs.Numbering.{IsCounted, IsOwn, AreNumbers};
ghost use Rattle.grid_islands.specs.Spots.{pairs_of_buses};

use crate::BusComponents;
use crate::numbering::Counts;
use crate::sizes::list_components;
use crate::spots::Ends;
use grid_components::{LabelRanks, list_ranks, rank_labels};
use grid_ids::{Memory, Seq};
use std::alloc::Global;

/// The components of a network's buses.
#[derive(Drop)]
pub(crate) struct Numbers {
    /// How many buses the levels have.
    counts: Counts,
    /// The buses in which the ends of the branches stand.
    ends: Ends,
    /// For each bus the least one that is joined to it.
    labels: Seq<u32>,
    /// For each bus that is a label the number of its component.
    ranks: Seq<u32>,
    /// For each component's number how many buses have it.
    sizes: Seq<u32>,
}

impl Numbers {
    /// The components of the buses that are counted, by those in which the ends of the branches stand and by their
    /// labels.
    pub(crate) fn make(
        alloc: Global,
        counts: Counts,
        ends: Ends,
        labels: Vec<u32>,
    ) -> Result<Numbers, Memory>
        requires few { counts.count < 2 ^ 32 }
        requires labels { AreLabelsOf (graph counts.count (flat_map pairs_of_buses ends)) labels.items }
        ensures made { IfOk result (λ numbers. (net : Network) (opened : List (List Bool))
            → IsCounted net opened counts (flat_map pairs_of_buses ends)
            → AreNumbers net opened numbers) }
        ensures counts { IfOk result (λ numbers. numbers.counts ≡ counts) }
        ensures ends { IfOk result (λ numbers. numbers.ends ≡ ends) }
        ensures labels { IfOk result (λ numbers. numbers.labels ≡ labels.items) }
    {
        let LabelRanks { ranks, sizes } = rank_labels(alloc, &labels)?;
        Ok(Numbers {
            counts,
            ends,
            labels: Seq::from_vec(labels),
            ranks,
            sizes,
        })
    }

    /// How many buses the levels have, those in which the ends of the branches stand, and their labels.
    pub(crate) fn into_parts(self) -> (Counts, Ends, Seq<u32>)
        ensures counts { result.0 ≡ self.counts }
        ensures ends { result.1 ≡ self.ends }
        ensures labels { result.2 ≡ self.labels }
    {
        let Numbers {
            counts,
            ends,
            labels,
            ranks: _,
            sizes: _,
        } = self;
        (counts, ends, labels)
    }

    /// The buses of the level at a place with these least nodes, each with the number and the size of its component.
    pub(crate) fn list_level(
        &self,
        alloc: Global,
        level: u32,
        leasts: &[u16],
    ) -> Result<BusComponents, Memory>
        requires own { (net : Network) × (opened : List (List Bool))
            × (AreNumbers net opened self.now × IsOwn net opened level leasts.now) }
        ensures { IfOk result (λ list. (net : Network) (opened retained : List (List Bool))
            → AreNumbers net opened self.now → IsOwn net opened level leasts.now
            → list ≡ islands.level_components net opened retained level) }
    {
        let first = self.counts.firsts[level as usize] as usize;
        let labels = &self.labels.slice()[first..first + leasts.len()];
        let numbers = list_ranks(alloc, labels, self.ranks.slice())?;
        list_components(alloc, leasts, 0, numbers.slice(), self.sizes.slice())
    }
}
