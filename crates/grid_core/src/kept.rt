// What is kept for the variant in each slot, for its next request, and what all slots share.
ghost use Rattle.std.specs.Prelude.{◌≡◌, ◌<◌, IsTrue, IsFalse, OnOk, Bool, List, length};
ghost use Rattle.grid_structure.specs.Network.{Network};
ghost use Rattle.grid_slots.specs.Variant.{Variant};
ghost use Rattle.grid_requests.specs.Changes.{structure_after};
ghost use Rattle.grid_core.specs.Kept as kept;
ghost use Rattle.grid_islands.specs.declared.kept.KeptBuses.{KeptBuses};
ghost use Rattle.grid_core.specs.Kept.{AreKnown, AreSlotBuses, AreBySlot, IsKept, LeavesRow, IsRowMove, AreMoved, IsMoveOf, SameFlags};
ghost use Rattle.grid_core.specs.Touched.{IsTouch};

use crate::copies::Copies;
use crate::kept_levels::KeptLevels;
use crate::touched::{Touched, touched_by};
use crate::{Reply, Request};
use grid_ids::Memory;
use grid_islands::KeptBuses;
use grid_structure::{Edit, Structure};
use std::alloc::Global;

/// Of which levels it is known that their buses are kept under the flags that the variant has now. Others may be so
/// nevertheless.
#[derive(Clone, Copy)]
pub(crate) enum Known {
    /// Of all.
    All,
    /// Of all but the one at a place.
    AllBut(u32),
    /// Of none.
    Nothing,
}

impl Known {
    // What is known where the flags of the level at a place may have changed.
    fn but(self, level: u32) -> Known
        ensures { (net : Network) (was opened : List (List Bool)) (buses : KeptBuses)
            → LeavesRow level was opened → AreKnown net was buses self
            → AreKnown net opened buses result }
    {
        match self {
            Known::All => Known::AllBut(level),
            Known::AllBut(other) => {
                if other == level {
                    Known::AllBut(level)
                } else {
                    Known::Nothing
                }
            }
            Known::Nothing => Known::Nothing,
        }
    }
}

/// What is kept for the variant in a slot.
#[derive(Drop)]
pub(crate) struct SlotKept {
    /// The buses of the levels, for the next request for components.
    pub(crate) buses: KeptBuses,
    /// Which of them are known to be those under the flags that the variant has now.
    pub(crate) known: Known,
    /// Levels with the labels of their nodes, for the next view or plan.
    pub(crate) levels: KeptLevels,
}

/// What is kept for the variant in each slot, and the copies of levels that the slots share.
#[derive(Drop)]
pub(crate) struct Kept {
    pub(crate) slots: Vec<SlotKept>,
    pub(crate) copies: Copies,
}

impl SlotKept {
    // Nothing, which takes no memory.
    fn empty(alloc: Global) -> SlotKept
        ensures { (net : Network) (opened : List (List Bool)) → AreSlotBuses net opened result }
    {
        SlotKept {
            buses: KeptBuses::empty(alloc),
            known: Known::Nothing,
            levels: KeptLevels::none(alloc),
        }
    }

    // Lets go the buses of the levels that an edit touches. The levels with the labels of their nodes stay, since each
    // is compared with the present one before it is used.
    fn follow(&mut self, alloc: Global, touched: Touched)
        ensures { (net next : Network) (was opened : List (List Bool)) → IsTouch net next touched
            → AreSlotBuses net was self.old → AreSlotBuses next opened self.new }
    {
        self.known = Known::Nothing;
        match touched {
            Touched::Level(place) => self.buses.let_go(alloc, place),
            Touched::Ends(first, second, third) => {
                self.buses.let_go(alloc, first);
                self.buses.let_go(alloc, second);
                self.buses.let_go(alloc, third);
            }
            Touched::All => {
                self.buses = KeptBuses::empty(alloc);
                self.levels.forget_places(alloc);
            }
        }
    }

    // Takes it for unknown whether the buses of the level at this place are kept under the flags that the variant has
    // now, or where there is no place, those of any level.
    fn doubt(&mut self, moved: Option<u32>)
        ensures { (net : Network) (was opened : List (List Bool)) → IsRowMove moved was opened
            → AreSlotBuses net was self.old → AreSlotBuses net opened self.new }
    {
        match moved {
            Some(level) => self.known = self.known.but(level),
            None => self.known = Known::Nothing,
        }
    }
}

impl Kept {
    /// Nothing. It takes no memory.
    pub(crate) fn none(alloc: Global) -> Kept
        ensures { (net : Network) (variants : List Variant) → IsKept net variants result }
    {
        Kept {
            slots: Vec::new(alloc),
            copies: Copies::none(alloc),
        }
    }

    /// The levels that a request touches, if it is an edit or moves one switch; where nothing is kept none is looked
    /// for. It takes no memory.
    pub(crate) fn touched_by(&self, structure: &Structure, request: &Request) -> Touched
        ensures touch { IsTouch structure.now (structure_after structure.now request.now) result }
        ensures moved { IsMoveOf structure.now request.now result }
    {
        if self.slots.is_empty() && self.copies.is_empty() {
            return Touched::All;
        }
        touched_by(structure, request)
    }
}

/// Makes room for what is to be kept for a slot, where there is none yet.
pub(crate) fn make_room(alloc: Global, all: &mut Vec<SlotKept>, slot: u32) -> Result<(), Memory>
    ensures room { OnOk result (slot < length all.new.items) }
    ensures kept { (net : Network) (variants : List Variant) → AreBySlot net variants all.old.items
        → AreBySlot net variants all.new.items }
{
    while all.len() <= slot as usize {
        all.push(SlotKept::empty(alloc))?;
    }
    Ok(())
}

// Empties each slot's bench.
fn empty_benches(alloc: Global, all: &mut Vec<SlotKept>)
    ensures { (net : Network) (variants : List Variant) → AreBySlot net variants all.old.items
        → AreBySlot net variants all.new.items }
{
    for slot in 0..all.len() {
        all[slot].levels = KeptLevels::none(alloc);
    }
}

/// Empties all benches, where they could not take one level more within the bound on what they have together.
pub(crate) fn bound_benches(alloc: Global, all: &mut Kept)
    ensures { (net : Network) (variants : List Variant) → IsKept net variants all.old
        → IsKept net variants all.new }
{
    if all.copies.has_room() {
        return;
    }
    empty_benches(alloc, &mut all.slots);
    all.copies.count_anew();
}

// Whether a request leaves levels and branches, and in the variant in each slot what is open, as they are.
#[tactic(auto, unfolding(crate::specs::Kept::leaves, crate::specs::Kept::edit_leaves))]
fn leaves(request: &Request) -> bool
    ensures { result ≡ kept.leaves request.now }
{
    match request {
        Request::UseVariant { .. }
        | Request::SetPower { .. }
        | Request::Totals
        | Request::BusBreakerView { .. }
        | Request::BusView { .. }
        | Request::Components { .. } => true,
        Request::Change { edit } => edit_leaves(edit),
        _ => false,
    }
}

// Whether an edit leaves levels and branches as they are.
#[tactic(auto, unfolding(crate::specs::Kept::edit_leaves))]
fn edit_leaves(edit: &Edit) -> bool
    ensures { result ≡ kept.edit_leaves edit.now }
{
    match edit {
        Edit::AddSubstation { .. } => true,
        _ => false,
    }
}

// Whether a request is an edit that was accepted.
#[tactic(auto, unfolding(crate::specs::Kept::accepts))]
fn accepts(request: &Request, reply: &Reply) -> bool
    ensures { result ≡ kept.accepts request.now reply.now }
{
    match (request, reply) {
        (Request::Change { .. }, Reply::Done) => true,
        _ => false,
    }
}

// The level whose flags alone a request may have changed, where it touches that level alone.
#[tactic(auto, unfolding(crate::specs::Kept::moved_level))]
fn moved_level(request: &Request, touched: Touched) -> Option<u32>
    ensures { result ≡ kept.moved_level request.now touched }
{
    match (request, touched) {
        (Request::OpenSwitch { .. } | Request::CloseSwitch { .. }, Touched::Level(place)) => {
            Some(place)
        }
        _ => None,
    }
}

// Takes it for unknown, for each slot, whether the level's buses at this place are kept under the present flags, or
// where there is no place, those of any level.
fn doubt(all: &mut Vec<SlotKept>, moved: Option<u32>)
    ensures { (net : Network) (before after : List Variant) → AreMoved moved before after
        → AreBySlot net before all.old.items → AreBySlot net after all.new.items }
{
    for slot in 0..all.len() {
        all[slot].doubt(moved);
    }
}

// Lets go, for each slot, the buses of the levels that an edit touches.
fn follow_slots(alloc: Global, all: &mut Vec<SlotKept>, touched: Touched)
    ensures { (net next : Network) (before after : List Variant) → IsTouch net next touched
        → AreBySlot net before all.old.items → AreBySlot next after all.new.items }
{
    for slot in 0..all.len() {
        all[slot].follow(alloc, touched);
    }
}

// As how many moves a request counts that does not leave all as it is: each switch of a plan, and else one.
fn moves_of(reply: &Reply) -> u64 {
    match reply {
        Reply::Closed(ids) | Reply::Opened(ids) => ids.get().len() as u64,
        _ => 1,
    }
}

/// Lets go what a request may have made wrong: after an accepted edit what is kept of the levels that it touches,
/// unless levels and branches are as before; and where flags may have changed, that the buses of those levels are
/// kept under them. Of switches that may have moved it counts how many.
pub(crate) fn follow(
    alloc: Global,
    all: &mut Kept,
    request: &Request,
    reply: &Reply,
    touched: Touched,
)
    ensures { (net : Network) (before after : List Variant) → IsKept net before all.old
        → IsTouch net (structure_after net request.now) touched
        → (IsTrue (kept.leaves request.now) → SameFlags before after)
        → (IsFalse (kept.accepts request.now reply.now) → structure_after net request.now ≡ net)
        → AreMoved (kept.moved_level request.now touched) before after
        → IsKept (structure_after net request.now) after all.new }
{
    if leaves(request) {
        return;
    }
    all.copies.count_moves(moves_of(reply));
    if accepts(request, reply) {
        all.copies.follow(alloc, touched);
        follow_slots(alloc, &mut all.slots, touched);
    } else {
        doubt(&mut all.slots, moved_level(request, touched));
    }
}
