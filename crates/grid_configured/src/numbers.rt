// The places of levels and the nodes of buses, by their ids. Whoever writes a job chooses its ids, so they are hashed
// by a seed that he cannot know; no answer hangs on it.
ghost use Rattle.std.specs.Prelude.{◌≡◌, ◌≤◌, List, ℕ, [], None, Some, IsSome, OnOk, IfOk, if◌then◌else◌, length, All};
ghost use Rattle.std.specs.Str.{bytes_eq};
ghost use Rattle.grid_configured.specs.Checks.{IsTranslatable};
ghost use Rattle.grid_configured.specs.Numbers.{HasLevels, bus_numbers, level_numbers, number_at, numbered};

use crate::network::{ConfiguredLevel, ConfiguredNetwork};
use grid_ids::{Duplicate, Id, Memory};
use grid_structure::Seeded;
use indexmap::IndexMap;
use std::hash::RandomState;
use std::marker::Model;

/// The numbers of ids. It is seen as pairs of an id and its number, whose order tells nothing.
#[derive(Drop)]
pub(crate) struct Numbers {
    numbers: IndexMap<Id, u32, RandomState>,
}

impl Model for Numbers {
    ghost use Rattle.std.specs.Prelude.{List, ℕ};

    ghost Value = { List (List ℕ × ℕ) };

    ghost view = { λ table. table.numbers.entries };
}

impl Numbers {
    // No numbers. It takes no memory.
    fn empty(seeded: Seeded) -> Numbers
        ensures { result ≡ [] }
    {
        Numbers {
            numbers: IndexMap::with_hasher(seeded.alloc, seeded.hasher),
        }
    }

    // Gives an id a number.
    #[tactic(auto, unfolding(crate::specs::Numbers::number_at))]
    fn put(&mut self, id: &Id, number: u32) -> Result<(), Memory>
        ensures { OnOk result ((q : List ℕ) → number_at self.new q
            ≡ (if bytes_eq id.now q then Some number else number_at self.old q)) }
    {
        let name = id.copy()?;
        match self.numbers.insert(name, number) {
            Ok(_) => Ok(()),
            Err(_) => Err(Memory),
        }
    }

    /// The number of an id that has one.
    #[tactic(auto, unfolding(crate::specs::Numbers::number_at))]
    pub fn number(&self, id: &Id) -> u32
        requires { IsSome (number_at self.now id.now) }
        ensures { number_at self.now id.now ≡ Some result }
    {
        match self.numbers.get(id) {
            Some(number) => *number,
            None => unreachable!(),
        }
    }
}

// Gives each bus of a level its place.
fn put_buses(numbers: &mut Numbers, buses: &[Id]) -> Result<(), Memory>
    requires { length buses.now ≤ 1024 }
    ensures { OnOk result ((q : List ℕ) → number_at numbers.new q ≡ numbered (bus_numbers
        buses.now) (number_at numbers.old q) q) }
{
    for (place, bus) in buses.iter().enumerate() {
        numbers.put(bus, place as u32)?;
    }
    Ok(())
}

// Gives each level its place, and each bus its place in its level.
fn put_levels(numbers: &mut Numbers, levels: &[ConfiguredLevel]) -> Result<(), Memory>
    requires few { length levels.now ≤ 10000 }
    requires buses { All (λ level. length level.buses ≤ 1024) levels.now }
    ensures { OnOk result ((q : List ℕ) → number_at numbers.new q ≡ numbered (level_numbers 0
        levels.now) (number_at numbers.old q) q) }
{
    for (place, level) in levels.iter().enumerate() {
        numbers.put(&level.id, place as u32)?;
        put_buses(numbers, level.buses.slice())?;
    }
    Ok(())
}

/// The numbers of a network's levels and buses.
pub(crate) fn numbers_of(seeded: Seeded, network: &ConfiguredNetwork) -> Result<Numbers, Memory>
    requires { IsTranslatable network.now }
    ensures { IfOk result (λ numbers. HasLevels numbers network.now.levels) }
{
    let mut numbers = Numbers::empty(seeded);
    put_levels(&mut numbers, network.levels.slice())?;
    Ok(numbers)
}
