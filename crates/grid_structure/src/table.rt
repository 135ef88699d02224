// What each id has. The table keeps a clue beside the entry: of a switch the place that it had when it was added, of a
// branch the number that it was counted by. A new id is put in before what may fail, and taken out again without
// memory where that fails, since the table makes no room ahead. Whoever writes a job chooses its ids, so they are
// hashed by a seed that he cannot know; no answer hangs on it.
ghost use Rattle.std.specs.Prelude.{◌≡◌, ℕ, List, if◌then◌else◌, [], Some, None, IfOk, IsTrue, IsFalse, is_some, OnErr, true};
ghost use Rattle.std.specs.Str.{bytes_eq};
ghost use Rattle.std.proofs.Common.{rules};
ghost use Rattle.grid_structure.specs.Table.{entry_at, slot_at};

use crate::records::{Clue, Slot};
use crate::structure::IdOwner;
use grid_ids::{Duplicate, Id, Memory};
use indexmap::IndexMap;
use indexmap::map::Entry as Place;
use std::alloc::{AllocError, Global};
use std::hash::RandomState;
use std::marker::Model;

/// An allocator, and the seed by which tables of ids are hashed.
#[derive(Clone, Copy)]
pub struct Seeded {
    pub alloc: Global,
    pub hasher: RandomState,
}

/// What has an id, with a clue of where to look for it first.
#[derive(Clone, Copy, Debug)]
pub struct Found {
    pub entry: Option<IdOwner>,
    pub clue: Clue,
}

/// What each id has. It is seen as pairs of an id and its entry, whose order tells nothing.
#[derive(Drop)]
pub struct Table {
    slots: IndexMap<Id, Slot, RandomState>,
}

impl Model for Table {
    ghost use Rattle.std.specs.Prelude.{List, ℕ};
    ghost use Rattle.grid_structure.specs.declared.structure.IdOwner.{IdOwner};

    ghost Value = { List (List ℕ × IdOwner) };

    ghost view = { λ table. table.slots.entries };
}

// Puts a slot where none is, and tells whether it did: one search finds both.
#[tactic(auto, unfolding(crate::specs::Table::entry_at, crate::specs::Table::slot_at))]
fn claim_slot(
    slots: &mut IndexMap<Id, Slot, RandomState>,
    id: &Id,
    entry: IdOwner,
    clue: Clue,
) -> Result<bool, Memory>
    ensures free { IfOk result (λ free. IsTrue free → slot_at slots.old id.now ≡ None) }
    ensures put { IfOk result (λ free. IsTrue free → (q : List ℕ) → slot_at slots.new q
        ≡ (if bytes_eq id.now q then Some entry else slot_at slots.old q)) }
    ensures undone { IfOk result (λ free. IsTrue free → (q : List ℕ) → (if bytes_eq id.now q
        then None else slot_at slots.new q) ≡ slot_at slots.old q) }
    ensures taken { IfOk result (λ free. IsFalse free → is_some (slot_at slots.old id.now)
        ≡ true) }
    ensures kept { IfOk result (λ free. IsFalse free → (q : List ℕ) → slot_at slots.new q
        ≡ slot_at slots.old q) }
    ensures same { OnErr result ((q : List ℕ) → slot_at slots.new q ≡ slot_at slots.old q) }
{
    let name = id.copy()?;
    match slots.entry(name) {
        Ok(Place::Vacant(place)) => {
            place.insert(Slot::new(entry, clue));
            Ok(true)
        }
        Ok(Place::Occupied(place)) => {
            place.into_mut();
            Ok(false)
        }
        Err(_) => Err(Memory),
    }
}

impl Table {
    /// A table of nothing, which takes no memory.
    pub(crate) fn empty(seeded: Seeded) -> Table
        ensures { result ≡ [] }
    {
        Table {
            slots: IndexMap::with_hasher(seeded.alloc, seeded.hasher),
        }
    }

    /// A table of nothing with room for so many ids, which need no memory for their places.
    pub(crate) fn with_room(seeded: Seeded, room: usize) -> Result<Table, Memory>
        ensures { IfOk result (λ table. table ≡ []) }
    {
        let slots = IndexMap::with_capacity_and_hasher(seeded.alloc, room, seeded.hasher)?;
        Ok(Table { slots })
    }

    /// What has the id, with its clue.
    #[tactic(auto, unfolding(crate::specs::Table::entry_at))]
    pub(crate) fn find(&self, id: &Id) -> Found
        ensures { result.entry ≡ entry_at self.now id.now }
    {
        match self.slots.get(id) {
            Some(slot) => Found {
                entry: Some(slot.entry()),
                clue: slot.clue(),
            },
            None => Found {
                entry: None,
                clue: Clue::numbered(0),
            },
        }
    }

    /// What has the id.
    pub(crate) fn entry(&self, id: &Id) -> Option<IdOwner>
        ensures { result ≡ entry_at self.now id.now }
    {
        self.find(id).entry
    }

    /// Puts an entry where none is, and tells whether it did: one search finds both.
    #[tactic(auto, unfolding(crate::specs::Table::slot_at))]
    pub(crate) fn claim(&mut self, id: &Id, entry: IdOwner, clue: Clue) -> Result<bool, Memory>
        ensures free { IfOk result (λ free. IsTrue free → entry_at self.old id.now ≡ None) }
        ensures put { IfOk result (λ free. IsTrue free → (q : List ℕ) → entry_at self.new q
            ≡ (if bytes_eq id.now q then Some entry else entry_at self.old q)) }
        ensures undone { IfOk result (λ free. IsTrue free → (q : List ℕ) → (if bytes_eq id.now q
            then None else entry_at self.new q) ≡ entry_at self.old q) }
        ensures taken { IfOk result (λ free. IsFalse free → is_some (entry_at self.old id.now)
            ≡ true) }
        ensures kept { IfOk result (λ free. IsFalse free → (q : List ℕ) → entry_at self.new q
            ≡ entry_at self.old q) }
        ensures same { OnErr result ((q : List ℕ) → entry_at self.new q ≡ entry_at self.old q) }
    {
        claim_slot(&mut self.slots, id, entry, clue)
    }

    /// Takes the entry of an id out, without memory.
    pub(crate) fn take(&mut self, id: &Id)
        ensures { (q : List ℕ) → entry_at self.new q
            ≡ (if bytes_eq id.now q then None else entry_at self.old q) }
    {
        self.slots.swap_remove(id);
    }
}

impl Clone for Table {
    ghost is_clone = { λ x y. y ≡ x };

    fn clone(&self) -> Result<Table, AllocError> {
        Ok(Table {
            slots: self.slots.clone()?,
        })
    }
}

impl Duplicate for Table {
    ghost clone_equals = { Prim.search rules };
}
