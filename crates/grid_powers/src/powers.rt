// Watts by id, and two sums.
ghost use Rattle.std.specs.Prelude.{◌≡◌, ◌↔◌, ◌+ℤ◌, pos, neg_ℤ, ◌≤ℤ◌, ◌<ℤ◌, ◌^◌, [], length, IsTrue, OnOk, OnErr};
ghost use Rattle.std.proofs.Common.{rules};
ghost use Rattle.grid_powers.specs.Listed.{value_in, with_value, without_value, IsByOrder, opening_of, shifted};

use grid_ids::{Duplicate, Id, Memory};
use std::alloc::{AllocError, Global};
use std::collections::BTreeMap;
use std::marker::Model;

/// Watts by id, and two sums, of the loads and of the generation, in W: what a variant sets apart from the records,
/// which is this project's own. It is seen as the list of its pairs by byte order of the ids, which all differ, and the
/// two numbers. The pairs say nothing of the numbers: who keeps one keeps them together.
#[derive(Drop)]
pub struct Powers {
    values: BTreeMap<Id, i64>,
    load: i128,
    generation: i128,
}

impl Model for Powers {
    ghost use Rattle.grid_powers.specs.Listed.{PowerList};

    ghost Value = { PowerList };

    ghost view = { λ powers. record {
      listed = powers.values.entries;
      load = powers.load;
      generation = powers.generation;
    } };
}

impl Powers {
    /// An empty list, and these numbers. It takes no memory.
    pub fn opening(alloc: Global, load: i128, generation: i128) -> Powers
        ensures { result ≡ opening_of load generation }
    {
        Powers {
            values: BTreeMap::new(alloc),
            load,
            generation,
        }
    }

    /// The watts of an id; None exactly where the id is not listed. It takes no memory.
    pub fn value(&self, id: &Id) -> Option<i64>
        ensures { result ≡ value_in self.now.listed id.now }
    {
        self.values.get(id).copied()
    }

    /// Gives the id these watts. Where memory runs out all is as before.
    pub fn put(&mut self, id: Id, watts: i64) -> Result<(), Memory>
        ensures ok { OnOk result (self.new
            ≡ record self.old { listed = with_value id watts self.old.listed }) }
        ensures err { OnErr result (self.new ≡ self.old) }
    {
        match self.values.insert(id, watts) {
            Ok(_) => Ok(()),
            Err(_) => Err(Memory),
        }
    }

    /// Takes the pair of an id out, and answers its watts; None exactly where the id is not listed. It takes no memory.
    pub fn forget(&mut self, id: &Id) -> Option<i64>
        ensures watts { result ≡ value_in self.old.listed id.now }
        ensures rest { self.new
            ≡ record self.old { listed = without_value id.now self.old.listed } }
    {
        self.values.remove(id)
    }

    /// Adds to the two numbers. It takes no memory.
    pub fn shift(&mut self, load: i128, generation: i128)
        requires load_low { neg_ℤ (pos (2 ^ 127)) ≤ℤ (self.old.load +ℤ load) }
        requires load_high { (self.old.load +ℤ load) <ℤ pos (2 ^ 127) }
        requires generation_low { neg_ℤ (pos (2 ^ 127)) ≤ℤ (self.old.generation +ℤ generation) }
        requires generation_high { (self.old.generation +ℤ generation) <ℤ pos (2 ^ 127) }
        ensures { self.new ≡ shifted load generation self.old }
    {
        self.load += load;
        self.generation += generation;
    }

    /// The first number. It takes no memory.
    pub fn load(&self) -> i128
        ensures { result ≡ self.now.load }
    {
        self.load
    }

    /// The second number. It takes no memory.
    pub fn generation(&self) -> i128
        ensures { result ≡ self.now.generation }
    {
        self.generation
    }

    /// How many pairs there are. It takes no memory.
    pub fn len(&self) -> usize
        ensures { result ≡ length self.now.listed }
    {
        self.values.len()
    }

    /// Whether there is no pair. It takes no memory.
    pub fn is_empty(&self) -> bool
        ensures { IsTrue result ↔ (self.now.listed ≡ []) }
    {
        self.values.is_empty()
    }

    /// Tells what every list keeps: its pairs stand by byte order of their ids, and no two have equal ids.
    pub fn keeps(&self)
        ensures { IsByOrder self.now.listed }
    {
        let _ = self.values.len();
    }
}

impl Clone for Powers {
    ghost is_clone = { λ powers copy. copy ≡ powers };

    fn clone(&self) -> Result<Powers, AllocError> {
        Ok(Powers {
            values: self.values.clone()?,
            load: self.load,
            generation: self.generation,
        })
    }
}

impl Duplicate for Powers {
    ghost clone_equals = { Prim.search rules };
}
