// The chunks of a list.
ghost use Rattle.std.specs.Prelude.{◌≡◌, ◌<◌, [], ◌∷◌, ◌++◌, length, slice_set, slice_index_or, OnOk, OnErr, IfOk};
ghost use Rattle.std.proofs.Common.{rules};
ghost use Rattle.grid_states.specs.Chunked.{AreChunked, IsGrown};

use crate::chunk::Chunk;
use grid_ids::{Duplicate, Memory};
use std::alloc::{AllocError, Global};
use std::marker::Model;

// How many items a chunk has; the last may have fewer.
const CHUNK: usize = 64;

// A list in chunks. A copy has a list of the chunks of its own, and shares the chunks. It is seen as the list of the
// items.
#[derive(Debug, Drop)]
pub(crate) struct Chunks<T> {
    chunks: Vec<Chunk<T>>,
    count: usize,
}

impl<T> Model for Chunks<T> {
    ghost use Rattle.std.specs.Prelude.{List};
    ghost use Rattle.grid_states.specs.Chunked.{joined, AreChunked};

    ghost Value = { List T };

    ghost view = { λ list. joined list.chunks.items };

    ghost invariant = { λ list. AreChunked 64 list.chunks.items list.count };
}

impl<T: Drop> Clone for Chunks<T> {
    ghost is_clone = { λ x y. y ≡ x };

    #[tactic(auto, using(grid_ids::specs::Clones::items_clone_equals))]
    fn clone(&self) -> Result<Chunks<T>, AllocError> {
        Ok(Chunks {
            chunks: self.chunks.clone()?,
            count: self.count,
        })
    }
}

impl<T: Drop> Duplicate for Chunks<T> {
    ghost clone_equals = { Prim.search rules };
}

impl<T: Drop> Chunks<T> {
    // No chunk, without memory.
    pub(crate) fn empty(alloc: Global) -> Self
        ensures { result ≡ [] }
    {
        Chunks {
            chunks: Vec::new(alloc),
            count: 0,
        }
    }

    // How many items there are.
    pub(crate) fn len(&self) -> usize
        ensures { result ≡ length self.now }
    {
        self.count
    }

    // How many lists share the chunk of a place, for tests alone.
    #[cfg(test)]
    pub(crate) fn sharers(&self, place: usize) -> usize
        requires { place < length self.now }
    {
        self.chunks[place / CHUNK].sharers()
    }

    // The item at a place.
    pub(crate) fn get(&self, place: usize) -> &T
        requires { place < length self.now }
        ensures { result.now ≡ slice_index_or self.now place result.now }
    {
        self.chunks[place / CHUNK].get(place % CHUNK)
    }
}

impl<T: Duplicate + Drop> Chunks<T> {
    // Puts another item at a place, in a chunk of its own.
    pub(crate) fn set(&mut self, place: usize, item: T) -> Result<(), Memory>
        requires { place < length self.old }
        ensures ok { OnOk result (self.new ≡ slice_set self.old place item) }
        ensures err { OnErr result (self.new ≡ self.old) }
    {
        self.chunks[place / CHUNK].set(place % CHUNK, item)
    }

    // Puts an item last, in a chunk of its own.
    pub(crate) fn push(&mut self, item: T) -> Result<(), Memory>
        ensures ok { OnOk result (self.new ≡ self.old ++ item ∷ []) }
        ensures err { OnErr result (self.new ≡ self.old) }
    {
        let count = self.count.checked_add(1).ok_or(Memory)?;
        push_to(&mut self.chunks, self.count, item)?;
        self.count = count;
        Ok(())
    }
}

impl<T: Duplicate + Drop> Chunks<T> {
    ghost use Rattle.std.specs.Borrow.{sem};
    ghost use Rattle.grid_states.specs.Lending.{chunks_lend};

    // The item at a place, to be changed, in a chunk of its own.
    pub(crate) fn item_mut(&mut self, place: usize) -> Result<&mut T, Memory>
        requires { place < length self.old }
        ensures* writes_back { sem 𝓛 (chunks_lend T.row self.entry place result) }
        ensures value { IfOk result (λ item. item.now ≡ slice_index_or self.old place item.now) }
    {
        self.chunks[place / CHUNK].item_mut(place % CHUNK)
    }
}

// Puts an item last in chunks of so many items: in the last chunk where it has room, and else in another one.
fn push_to<T: Duplicate + Drop>(
    chunks: &mut Vec<Chunk<T>>,
    count: usize,
    item: T,
) -> Result<(), Memory>
    requires { AreChunked CHUNK chunks.old.items count }
    ensures ok { OnOk result (IsGrown CHUNK chunks.old.items chunks.new.items count item) }
    ensures err { OnErr result (chunks.new.items ≡ chunks.old.items) }
{
    if count % CHUNK == 0 {
        let chunk = Chunk::single(*chunks.allocator(), item)?;
        chunks.push(chunk)?;
        return Ok(());
    }
    chunks[count / CHUNK].push(item)
}
