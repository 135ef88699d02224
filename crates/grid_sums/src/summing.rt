// The sums of watts of a level's buses.
ghost use Rattle.std.specs.Prelude.{◌≡◌, ℕ, ◌<◌, ◌+ℤ◌, None, Some, IfOk, length, slice_index_or, zip};
ghost use Rattle.grid_level.specs.Passing.{nodes, positioned};
ghost use Rattle.grid_busview.specs.Views.{node_buses_of};
ghost use Rattle.grid_watts.specs.Watts.{level_watts};
ghost use Rattle.grid_sums.specs.Sums.{sums_of};
ghost use Rattle.grid_sums.specs.Feeding.{no_sums, with_watts, sums_in, ArePlacesBelow};

use grid_busview::{BusPlaces, node_buses};
use grid_groups::index_of;
use grid_ids::{Memory, Seq};
use grid_kinds::Injection;
use grid_level::{Level, Stand};
use grid_powers::Powers;
use grid_unions::Sums;
use grid_watts::watts_at;
use std::alloc::Global;

/// What the buses of a level are.
#[derive(Debug, Drop)]
pub struct LevelBuses {
    /// For each node, by rising number, the place of the bus that holds it; none where no bus does.
    pub places: BusPlaces,
    /// The sums of each bus, by rising least node.
    pub sums: Seq<Sums>,
}

// A sum with some watts more. It is out of memory, too, where it would not fit its type.
fn add(sum: i128, watts: i64) -> Result<i128, Memory>
    ensures { IfOk result (λ new. new ≡ sum +ℤ watts) }
{
    match sum.checked_add(i128::from(watts)) {
        Some(new) => Ok(new),
        None => Err(Memory),
    }
}

// The sums with the watts of one terminal more: those of a load, or of a generator or a battery, count.
#[tactic(auto, unfolding(grid_busview::specs::Views::is_load, grid_busview::specs::Views::is_load_item, grid_busview::specs::Views::is_generation, grid_busview::specs::Views::is_generation_item))]
fn add_watts(sums: Sums, stand: &Stand, watts: i64) -> Result<Sums, Memory>
    ensures { IfOk result (λ new. new ≡ with_watts sums stand.now watts) }
{
    let Sums { load, generation } = sums;
    match stand {
        Stand::Feeder(Injection::Load { .. }) => Ok(Sums {
            load: add(load, watts)?,
            generation,
        }),
        Stand::Feeder(Injection::Generator { .. } | Injection::Battery { .. }) => Ok(Sums {
            load,
            generation: add(generation, watts)?,
        }),
        _ => Ok(sums),
    }
}

// The sums of so many buses, where the nodes of a level stand in these buses.
fn sum_buses(
    alloc: Global,
    level: &Level,
    places: &[Option<u32>],
    count: usize,
    powers: &Powers,
) -> Result<Vec<Sums>, Memory>
    requires long { length places.now ≡ length (nodes level.now) }
    requires below { ArePlacesBelow places.now count }
    ensures long { IfOk result (λ sums. length sums.items ≡ count) }
    ensures each { IfOk result (λ sums. (bus : ℕ) → bus < count
        → slice_index_or sums.items bus no_sums
        ≡ sums_in (nodes level.now) places.now (zip level.now.placed (level_watts powers.now.listed level.now)) bus) }
{
    level.keeps();
    let none = Sums {
        load: 0,
        generation: 0,
    };
    let mut sums = vec![in alloc; none; count]?;
    for placed in level.placed() {
        let Some(bus) = places[index_of(level, placed.node) as usize] else {
            continue;
        };
        let watts = watts_at(powers, placed);
        sums[bus as usize] = add_watts(sums[bus as usize], &placed.stand, watts)?;
    }
    Ok(sums)
}

/// The buses of a level whose switches have these flags `opened`, under these watts: those of the bus view, which takes
/// more memory and time. The time is that of `node_buses`, and of a look at each terminal.
pub fn level_buses(
    alloc: Global,
    level: &Level,
    opened: &[bool],
    powers: &Powers,
) -> Result<LevelBuses, Memory>
    requires { length opened.now ≡ length level.now.switches }
    ensures places { IfOk result (λ buses. buses.places
        ≡ (node_buses_of (positioned level.now opened.now)).places) }
    ensures sums { IfOk result (λ buses. buses.sums
        ≡ sums_of powers.now.listed level.now opened.now) }
{
    level.keeps();
    let buses = node_buses(alloc, level, opened)?;
    let count = buses.leasts.len();
    let sums = sum_buses(alloc, level, buses.places.slice(), count, powers)?;
    Ok(LevelBuses {
        places: buses.places,
        sums: Seq::from_vec(sums),
    })
}
