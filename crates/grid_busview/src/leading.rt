// Which labels lead buses, and in which bus each node stands.
ghost use Rattle.std.specs.Prelude.{◌≡◌, ◌<◌, ◌≤◌, IfOk, length, map};
ghost use Rattle.grid_level.specs.Passing.{nodes};
ghost use Rattle.grid_busview.specs.Labelled as labelled;
ghost use Rattle.grid_busview.specs.Labelled.{led_place, AreRooted, AreLed};

use crate::BusPlaces;
use crate::counts::{Count, count_labels, makes_bus};
use grid_ids::{Memory, Seq};
use grid_level::Level;
use std::alloc::Global;

/// What stands under each label.
pub(crate) type Counts = Seq<Count>;

/// What the labels of a level's nodes tell of its buses.
#[derive(Drop)]
pub(crate) struct Led {
    /// For each label what stands at its nodes.
    pub(crate) counts: Counts,
    /// For each node the place of the bus that its label leads, or none.
    pub(crate) places: BusPlaces,
}

// Whether an index leads a bus: it is its own label, and enough stands at the nodes of that label.
#[tactic(auto, unfolding(crate::specs::Labelled::leads_bus))]
pub(crate) fn leads_bus(labels: &[u32], counts: &[Count], index: u32) -> bool
    requires label { index < length labels.now }
    requires count { index < length counts.now }
    ensures { result ≡ labelled.leads_bus labels.now counts.now index }
{
    labels[index as usize] == index && makes_bus(counts[index as usize])
}

// For each node the place of the bus that its label leads, or none. A label is no greater than its index, so what it
// leads is found before the others that have it.
fn bus_places(alloc: Global, labels: &[u32], counts: &[Count]) -> Result<BusPlaces, Memory>
    requires rooted { AreRooted labels.now }
    requires counts { length counts.now ≡ length labels.now }
    requires few { length labels.now ≤ 1024 }
    ensures { IfOk result (λ places. places ≡ map (led_place labels.now counts.now) labels.now) }
{
    let mut places = Vec::with_capacity(alloc, labels.len())?;
    let mut bus_count = 0u32;
    for (index, label) in labels.iter().enumerate() {
        if *label as usize != index {
            let place = places[*label as usize];
            places.push_reserved(place);
        } else if leads_bus(labels, counts, index as u32) {
            places.push_reserved(Some(bus_count));
            bus_count += 1;
        } else {
            places.push_reserved(None);
        }
    }
    Ok(BusPlaces::from_vec(places))
}

/// What the labels of a level's nodes lead.
pub(crate) fn led_by(alloc: Global, level: &Level, labels: &[u32]) -> Result<Led, Memory>
    requires long { length labels.now ≡ length (nodes level.now) }
    requires rooted { AreRooted labels.now }
    ensures { IfOk result (λ led. AreLed level.now labels.now led) }
{
    level.keeps();
    let counts = count_labels(alloc, level, labels)?;
    let places = bus_places(alloc, labels, &counts)?;
    Ok(Led {
        counts: Counts::from_vec(counts),
        places,
    })
}
