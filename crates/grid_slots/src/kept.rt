// The states of the variants. Variants that are known to have the same states have them between them: such states are
// kept once, and a change of all variants changes them once. A variant that is changed alone first gets its own.
ghost use Rattle.std.specs.Prelude.{◌≡◌, ◌<◌, ◌≤◌, ◌==◌, [], ◌∷◌, length, map, insert, remove, slice_set, if◌then◌else◌, All, OnOk, OnErr, IfOk, IsTrue, IsFalse};
ghost use Rattle.grid_states.specs.Rows.{with_empty, shifted, HasRoom};
ghost use Rattle.grid_states.specs.Sums.{IsSmall};
ghost use Rattle.grid_slots.specs.Changes.{after, Fits};
ghost use Rattle.grid_slots.specs.Kept.{kept_rows, rows_in_place, any_rows_list, AreKept, AreKeptBut, IsSole, IsShared, IsOwn};

use crate::changes::{Change, change_in, changed_states, shift_each, wider_states};
use grid_ids::{Duplicate, Memory};
use grid_states::{Shift, States};
use std::alloc::Global;
use std::marker::Model;

// The states of each variant, by place. It is seen as the list of what each has.
#[derive(Drop)]
pub(crate) struct Kept {
    // for each variant, which of the states it has
    numbers: Vec<usize>,
    states: Vec<States>,
}

impl Model for Kept {
    ghost use Rattle.std.specs.Prelude.{List, length};
    ghost use Rattle.grid_states.specs.Rows.{Rows};
    ghost use Rattle.grid_slots.specs.Kept.{kept_rows, AreKept};

    ghost Value = { List Rows };

    ghost view = { λ kept. kept_rows kept.numbers.items kept.states.items };

    ghost invariant = { λ kept. AreKept kept.numbers.items (length kept.states.items) };
}

/// The states that each variant is to have, made before they are put. It is seen as their list.
#[derive(Drop)]
pub struct Widened {
    pub(crate) kept: Kept,
}

impl Model for Widened {
    ghost use Rattle.grid_slots.specs.Kept.{EachRows};

    ghost Value = { EachRows };

    ghost view = { λ widened. record { items = widened.kept } };
}

impl Kept {
    ghost use Rattle.std.specs.Borrow.{sem};
    ghost use Rattle.grid_slots.specs.Lending.{kept_lends};

    // The states of the only variant.
    pub(crate) fn start(alloc: Global, initial: States) -> Result<Kept, Memory>
        ensures { IfOk result (λ kept. kept ≡ initial ∷ []) }
    {
        let mut numbers = Vec::new(alloc);
        numbers.push(0)?;
        let mut states = Vec::new(alloc);
        states.push(initial)?;
        Ok(Kept { numbers, states })
    }

    // The states of the variant at a place.
    pub(crate) fn get(&self, place: usize) -> &States
        requires { place < length self.now }
        ensures { result.now ≡ rows_in_place self.now place }
    {
        &self.states[self.numbers[place]]
    }

    // The states of the variant at a place, to be changed for it alone. It takes memory only where another has them
    // too.
    pub(crate) fn get_mut(&mut self, place: usize) -> Result<&mut States, Memory>
        requires { place < length self.old }
        ensures* writes_back { sem 𝓛 (kept_lends self.entry place result) }
        ensures states { IfOk result (λ states. states.now ≡ rows_in_place self.old place) }
    {
        let own = own_states(&mut self.numbers, &mut self.states, place)?;
        Ok(&mut self.states[own])
    }

    // Gives one variant the states of another. It takes no memory.
    pub(crate) fn set_as(&mut self, place: usize, source: usize)
        requires place { place < length self.old }
        requires source { source < length self.old }
        ensures { self.new ≡ slice_set self.old place (rows_in_place self.old source) }
    {
        let former = self.numbers[place];
        self.numbers[place] = self.numbers[source];
        release(&mut self.numbers, &mut self.states, former);
    }

    // Puts a variant at a place, with the states of another.
    pub(crate) fn insert_as(&mut self, place: usize, source: usize) -> Result<(), Memory>
        requires place { place ≤ length self.old }
        requires source { source < length self.old }
        ensures ok { OnOk result (self.new
            ≡ insert self.old place (rows_in_place self.old source)) }
        ensures err { OnErr result (self.new ≡ self.old) }
    {
        let number = self.numbers[source];
        self.numbers.insert(place, number)?;
        Ok(())
    }

    // Takes a variant out. It takes no memory.
    pub(crate) fn remove(&mut self, place: usize)
        requires { place < length self.old }
        ensures { self.new ≡ remove self.old place }
    {
        let former = self.numbers.remove(place);
        release(&mut self.numbers, &mut self.states, former);
    }

    // Changes every variant, or where memory runs out none.
    pub(crate) fn change_all(&mut self, change: Change) -> Result<(), Memory>
        requires { All (Fits change) self.old }
        ensures ok { OnOk result (self.new ≡ map (after change) self.old) }
        ensures err { OnErr result (self.new ≡ self.old) }
    {
        if self.states.len() == 1 {
            return change_in(&mut self.states[0], change);
        }
        self.states = changed_states(&self.states, change)?;
        Ok(())
    }

    // Adds to the sums of every variant. It takes no memory.
    pub(crate) fn shift_all(&mut self, by: Shift)
        requires room { All HasRoom self.old }
        requires small { IsSmall by }
        ensures { self.new ≡ map (shifted by) self.old }
    {
        shift_each(&mut self.states, by);
    }

    // The same with a level more, at this place, which has no switch yet.
    pub(crate) fn wider(&self, level: u32) -> Result<Kept, Memory>
        requires { All (λ rows. level ≤ length rows.opened) self.now }
        ensures { IfOk result (λ kept. kept ≡ map (λ rows. with_empty rows level) self.now) }
    {
        Ok(Kept {
            numbers: self.numbers.clone()?,
            states: wider_states(&self.states, level)?,
        })
    }

    // Whether some variant lists watts for a node of a level.
    pub(crate) fn any_lists(&self, level: u32, node: u16) -> bool
        requires { All (λ rows. level < length rows.opened) self.now }
        ensures { result ≡ any_rows_list self.now level node }
    {
        any_listing(&self.states, level, node)
    }
}

// Whether some of these states list watts for a node of a level.
#[tactic(auto, unfolding(crate::specs::Kept::any_rows_list))]
fn any_listing(all: &[States], level: u32, node: u16) -> bool
    requires { All (λ rows. level < length rows.opened) all.now }
    ensures { result ≡ any_rows_list all.now level node }
{
    for states in all {
        if states.watts(level, node).is_some() {
            return true;
        }
    }
    false
}

// Whether another variant has the number of the one at a place.
fn is_shared(numbers: &[usize], place: usize) -> bool
    requires { place < length numbers.now }
    ensures shared { IsTrue result → IsShared numbers.now place }
    ensures sole { IsFalse result → IsSole numbers.now place }
{
    let number = numbers[place];
    for other in 0..numbers.len() {
        if other != place && numbers[other] == number {
            return true;
        }
    }
    false
}

// The number of states that the variant at a place has alone: its own, or else a copy, which it gets.
fn own_states(
    numbers: &mut Vec<usize>,
    states: &mut Vec<States>,
    place: usize,
) -> Result<usize, Memory>
    requires place { place < length numbers.old.items }
    requires kept { AreKept numbers.old.items (length states.old.items) }
    ensures ok { IfOk result (λ own.
        IsOwn numbers.old.items states.old.items numbers.new.items states.new.items place own) }
    ensures numbers { OnErr result (numbers.new.items ≡ numbers.old.items) }
    ensures states { OnErr result (states.new.items ≡ states.old.items) }
{
    let number = numbers[place];
    if !is_shared(numbers, place) {
        return Ok(number);
    }
    let own = states.len();
    let copy = states[number].copy()?;
    states.push(copy)?;
    numbers[place] = own;
    Ok(own)
}

// Lets the states of a number go where no variant has it.
fn release(numbers: &mut Vec<usize>, states: &mut Vec<States>, number: usize)
    requires number { number < length states.old.items }
    requires kept { AreKeptBut numbers.old.items (length states.old.items) number }
    ensures rows { kept_rows numbers.new.items states.new.items ≡ kept_rows numbers.old.items states.old.items }
    ensures kept { AreKept numbers.new.items (length states.new.items) }
{
    if numbers.contains(&number) {
        return;
    }
    states.swap_remove(number);
    renumber(numbers, states.len(), number);
}

// Gives those of one number another.
fn renumber(numbers: &mut Vec<usize>, from: usize, to: usize)
    ensures { numbers.new.items ≡ map (λ n. if n == from then to else n) numbers.old.items }
{
    for place in 0..numbers.len() {
        if numbers[place] == from {
            numbers[place] = to;
        }
    }
}
