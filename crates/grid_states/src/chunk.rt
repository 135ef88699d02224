// A short piece of a list, which copies share.
ghost use Rattle.std.specs.Prelude.{◌≡◌, ◌<◌, [], ◌∷◌, ◌++◌, length, slice_set, slice_index_or, OnOk, OnErr, IfOk};
ghost use Rattle.std.proofs.Common.{rules};

use grid_ids::{Duplicate, Memory};
use std::alloc::{AllocError, Global};
use std::marker::Model;
use std::sync::Arc;

// Some items that follow one another. A copy shares them, until one of the two is changed and gets items of its own.
// It is seen as the list of the items.
#[derive(Debug, Drop)]
pub(crate) struct Chunk<T> {
    items: Arc<Vec<T>>,
}

impl<T> Model for Chunk<T> {
    ghost use Rattle.std.specs.Prelude.{List};
    ghost use Rattle.std.specs.Arc.{arc_value};

    ghost Value = { List T };

    ghost view = { λ chunk. (arc_value chunk.items).items };
}

// It shares the items: one more owner, and no memory.
impl<T: Drop> Clone for Chunk<T> {
    ghost is_clone = { λ x y. y ≡ x };

    fn clone(&self) -> Result<Chunk<T>, AllocError> {
        Ok(Chunk {
            items: Arc::try_clone(&self.items)?,
        })
    }
}

impl<T: Drop> Chunk<T> {
    // A chunk of its own with this one item.
    pub(crate) fn single(alloc: Global, item: T) -> Result<Chunk<T>, Memory>
        ensures { IfOk result (λ chunk. chunk ≡ item ∷ []) }
    {
        let mut items = Vec::new(alloc);
        items.push(item)?;
        Ok(Chunk {
            items: Arc::new(alloc, items)?,
        })
    }

    // How many items there are.
    pub(crate) fn len(&self) -> usize
        ensures { result ≡ length self.now }
    {
        self.items.len()
    }

    // How many lists share the items, for tests alone.
    #[cfg(test)]
    pub(crate) fn sharers(&self) -> usize {
        Arc::strong_count(&self.items)
    }

    // The item at a place.
    pub(crate) fn get(&self, place: usize) -> &T
        requires { place < length self.now }
        ensures { result.now ≡ slice_index_or self.now place result.now }
    {
        &self.items[place]
    }
}

impl<T: Duplicate + Drop> Chunk<T> {
    // Puts another item at a place, in a chunk of its own.
    #[tactic(auto, using(grid_ids::specs::Clones::items_clone_equals))]
    pub(crate) fn set(&mut self, place: usize, item: T) -> Result<(), Memory>
        requires { place < length self.old }
        ensures ok { OnOk result (self.new ≡ slice_set self.old place item) }
        ensures err { OnErr result (self.new ≡ self.old) }
    {
        Arc::make_mut(&mut self.items)?[place] = item;
        Ok(())
    }

    // Puts an item last, in a chunk of its own.
    #[tactic(auto, using(grid_ids::specs::Clones::items_clone_equals))]
    pub(crate) fn push(&mut self, item: T) -> Result<(), Memory>
        ensures ok { OnOk result (self.new ≡ self.old ++ item ∷ []) }
        ensures err { OnErr result (self.new ≡ self.old) }
    {
        Arc::make_mut(&mut self.items)?.push(item)?;
        Ok(())
    }
}

impl<T: Duplicate + Drop> Chunk<T> {
    ghost use Rattle.std.specs.Borrow.{sem};
    ghost use Rattle.grid_states.specs.Lending.{chunk_lends};

    // The item at a place, to be changed, in a chunk of its own.
    #[tactic(auto, using(grid_ids::specs::Clones::items_clone_equals))]
    pub(crate) fn item_mut(&mut self, place: usize) -> Result<&mut T, Memory>
        requires { place < length self.old }
        ensures* writes_back { sem 𝓛 (chunk_lends T.row self.entry place result) }
        ensures value { IfOk result (λ item. item.now ≡ slice_index_or self.old place item.now) }
    {
        let items = Arc::make_mut(&mut self.items)?;
        Ok(&mut items[place])
    }
}
