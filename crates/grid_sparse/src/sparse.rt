// A list of options of which only those that are there take memory.
ghost use Rattle.std.specs.Prelude.{◌≡◌, ℕ, ◌<◌, ◌^◌, None, Some, length, IfSome, IfNone, OnOk, OnErr, slice_set, slice_index_or};
ghost use Rattle.std.specs.Option.{option_copied};
ghost use Rattle.grid_sparse.specs.Options.{present, AreThere, AreNoneFrom, IsFirstFrom};

use grid_ids::Memory;
use std::alloc::Global;
use std::collections::BTreeMap;
use std::collections::btree_map::Iter;
use std::marker::Model;

/// A list of options of which only those that are there take memory. Its length never changes, and a long one costs no
/// more than a short one: time and memory go with how many are there. It is seen as the list of the options, and its
/// places are counted from 0.
#[derive(Drop)]
pub struct Sparse<T> {
    count: u32,
    held: BTreeMap<u32, T>,
}

impl<T> Model for Sparse<T> {
    ghost use Rattle.std.specs.Prelude.{List, Option, ◌<◌, ◌^◌};
    ghost use Rattle.std.specs.Ordering.{nat_cmp};
    ghost use Rattle.std.specs.BTreeMap as tree;
    ghost use Rattle.grid_sparse.specs.Options.{options, IsNoneFrom};

    ghost Value = { List (Option T) };

    ghost view = { λ s. options (tree.get nat_cmp s.held) s.count };

    ghost invariant = { λ s. (s.count < 2 ^ 32) × IsNoneFrom s.count (tree.get nat_cmp s.held) };
}

impl<T: Drop> Sparse<T> {
    /// So many options, of which none is there. It takes no memory.
    pub fn new(alloc: Global, count: u32) -> Sparse<T>
        ensures long { length result ≡ count }
        ensures none { (place : ℕ) → slice_index_or result place None ≡ None }
    {
        Sparse {
            count,
            held: BTreeMap::new(alloc),
        }
    }

    /// How many options there are, whether there or not.
    pub fn len(&self) -> u32
        ensures { result ≡ length self.now }
    {
        self.count
    }

    /// The value at a place; None where none is there, and where the place is not below the length.
    pub fn get(&self, place: u32) -> Option<&T>
        ensures { option_copied result ≡ slice_index_or self.now place None }
    {
        self.held.get(&place)
    }

    /// Takes the value at a place out, and leaves none there; None where none is there, and where the place is not
    /// below the length.
    pub fn take(&mut self, place: u32) -> Option<T>
        ensures taken { result ≡ slice_index_or self.old place None }
        ensures left { self.new ≡ slice_set self.old place None }
    {
        self.held.remove(&place)
    }

    /// Puts a value at a place, instead of the one that was there. It takes memory only where none was there. Without
    /// it all stays as it was, and the value is lost.
    pub fn put(&mut self, place: u32, value: T) -> Result<(), Memory>
        requires { place < length self.old }
        ensures ok { OnOk result (self.new ≡ slice_set self.old place (Some value)) }
        ensures err { OnErr result (self.new ≡ self.old) }
        ensures absent { OnErr result (slice_index_or self.old place None ≡ None) }
    {
        match self.held.insert(place, value) {
            Ok(_) => Ok(()),
            Err(_) => Err(Memory),
        }
    }

    /// Those that are there with their places, by rising place.
    pub fn iter(&self) -> Iter<'_, u32, T>
        ensures pairs { result ≡ present self.now }
        ensures found { AreThere self.now (present self.now) }
    {
        self.held.iter()
    }

    /// The first place from a place on at which a value is there; None exactly where there is none from there on. So a
    /// loop goes over those that are there and changes them on the way.
    pub fn next_from(&self, place: u32) -> Option<u32>
        ensures first { IfSome result (IsFirstFrom place self.now) }
        ensures none { IfNone result (AreNoneFrom place self.now) }
        ensures few { length self.now < 2 ^ 32 }
    {
        match self.held.range(place..).next() {
            Some((first, _)) => Some(*first),
            None => None,
        }
    }
}
