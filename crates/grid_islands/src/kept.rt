// The buses of levels, kept for the next call with the flags that they were made of, and the spots of branches.
ghost use Rattle.std.specs.Prelude.{◌≡◌, ◌≢◌, ℕ, ◌<◌, ◌≤◌, ◌^◌, Bool, IsTrue, IsFalse, IsSome, IfOk, OnOk, OnErr, List, length, map, flat_map, slice_get};
ghost use Rattle.grid_structure.specs.Network.{Network};
ghost use Rattle.grid_structure.specs.Sites.{levels};
ghost use Rattle.grid_islands.specs.declared.kept.KeptLevel.{KeptLevel};
ghost use Rattle.grid_islands.specs.Numbering.{FlagsFit, counts_before};
ghost use Rattle.grid_islands.specs.Islands as islands;
ghost use Rattle.grid_graph.specs.Graph.{graph};
ghost use Rattle.grid_queue.specs.Parents.{AreLabelsOf};
ghost use Rattle.grid_islands.specs.Kept.{kept_of, IsKeptAt, IsMadeOf, IsLeftOrNone, LeavesOthers, AreBusesOf, AreKept, AreKeptBut, IsFollowedBy, IsSpotted, IsMovedAt};
ghost use Rattle.grid_islands.specs.LevelEnds.{IsIndexOf};
ghost use Rattle.grid_islands.specs.Spots as spots;
ghost use Rattle.grid_islands.specs.Spots.{NumbersFit, pairs_of_buses};

use crate::BusComponents;
use crate::components::Numbers;
use crate::following::{follow_level, mark_level};
use crate::joins::join_ends;
use crate::numbering::Counts;
use crate::rejoining::{no_marks, rejoin};
use crate::spots::{Ends, IndexedSpots, spot_buses};
use grid_busview::{NodeBuses, node_buses};
use grid_ids::{Memory, Seq, same_items};
use grid_level::Level;
use grid_states::States;
use grid_structure::Structure;
use std::alloc::Global;

/// The buses of a level, with the flags `opened` that they were made of.
#[derive(Drop)]
pub(crate) struct KeptLevel {
    opened: Seq<bool>,
    pub(crate) buses: NodeBuses,
    // The level is as it was then. Where it may be another one by now, nothing is to be read from here.
    valid: bool,
}

impl KeptLevel {
    // What is left where a level was let go. It takes no memory.
    fn gone(alloc: Global) -> KeptLevel
        ensures { IsFalse result.valid }
    {
        KeptLevel {
            opened: Seq::empty(alloc),
            buses: NodeBuses {
                leasts: Seq::empty(alloc),
                places: Seq::empty(alloc),
            },
            valid: false,
        }
    }

    // Whether these are the buses of the level under these flags.
    fn is_of(&self, opened: &[bool]) -> bool
        ensures { IsTrue result → IsTrue self.now.valid × (self.now.opened ≡ opened.now) }
    {
        if self.valid {
            same_items(self.opened.slice(), opened)
        } else {
            false
        }
    }
}

/// The buses of the levels of a network that were looked at, from the first level on, each with the flags that it had
/// then. A call that is given them makes anew only the buses of levels whose flags are others, and of those that were
/// let go. Where the ends of the network's branches stand is kept, too, once it is found, until a level is let go, and
/// so are the components, until a level is made anew.
#[derive(Drop)]
pub struct KeptBuses {
    levels: Seq<KeptLevel>,
    // The spots of all branches; of none before they are found.
    spots: IndexedSpots,
    // The components of the buses of these levels, once they are found.
    numbers: Option<Numbers>,
}

impl KeptBuses {
    /// The buses of no level. It takes no memory.
    pub fn empty(alloc: Global) -> KeptBuses
        ensures { (net : Network) → AreBusesOf net result }
    {
        KeptBuses {
            levels: Seq::empty(alloc),
            spots: IndexedSpots::empty(alloc),
            numbers: None,
        }
    }

    // Whether the level at a place is kept under these flags.
    fn has(&self, place: u32, opened: &[bool]) -> bool
        ensures { IsTrue result → (own : KeptLevel) × IsKeptAt self.now place own
            × IsTrue own.valid × (own.opened ≡ opened.now) }
    {
        match self.levels.get(place as usize) {
            Some(own) => own.is_of(opened),
            None => false,
        }
    }

    /// Lets go what is kept of the level at a place, which is not to be the same any more: its buses, the spots of
    /// branches, since nodes may have other places among its nodes, and the components. It takes no memory.
    pub fn let_go(&mut self, alloc: Global, place: u32)
        ensures { (net next : Network) → LeavesOthers net next place → AreBusesOf net self.old
            → AreBusesOf next self.new }
    {
        self.spots = IndexedSpots::empty(alloc);
        self.numbers = None;
        if (place as usize) < self.levels.len() {
            self.levels.set(place as usize, KeptLevel::gone(alloc));
        }
    }

    // Keeps this of the level at a place, in the place of what was kept of it. Those before it are kept.
    fn put(&mut self, place: u32, own: KeptLevel) -> Result<(), Memory>
        requires { place ≤ length self.old.levels }
        ensures own { OnOk result (IsKeptAt self.new place own) }
        ensures others { (other : ℕ) → other ≢ place
            → slice_get self.new.levels other ≡ slice_get self.old.levels other }
        ensures spots { self.new.spots ≡ self.old.spots }
        ensures numbers { self.new.numbers ≡ self.old.numbers }
        ensures err { OnErr result (self.new ≡ self.old) }
    {
        if (place as usize) < self.levels.len() {
            self.levels.set(place as usize, own);
            Ok(())
        } else {
            self.levels.push(own)
        }
    }

    // Keeps a level at its place under these flags. Where it is kept so already, nothing is made; else the components
    // go.
    fn keep(
        &mut self,
        alloc: Global,
        place: u32,
        level: &Level,
        opened: &[bool],
    ) -> Result<(), Memory>
        requires before { place ≤ length self.old.levels }
        requires made { (own : KeptLevel) → IsKeptAt self.old place own → IsMadeOf level.now own }
        requires flags { length opened.now ≡ length level.now.switches }
        ensures own { OnOk result (IsKeptAt self.new place (kept_of level.now opened.now)) }
        ensures others { (other : ℕ) → other ≢ place
            → slice_get self.new.levels other ≡ slice_get self.old.levels other }
        ensures spots { self.new.spots ≡ self.old.spots }
        ensures numbers { OnOk result (IsLeftOrNone self.old self.new) }
        ensures err { OnErr result (self.new ≡ self.old) }
    {
        if self.has(place, opened) {
            return Ok(());
        }
        let buses = node_buses(alloc, level, opened)?;
        let opened = Seq::from_vec(Vec::from_slice(alloc, opened)?);
        let own = KeptLevel {
            opened,
            buses,
            valid: true,
        };
        self.put(place, own)?;
        self.numbers = None;
        Ok(())
    }

    // The buses that are kept of the level at a place.
    fn buses(&self, place: u32) -> &NodeBuses
        requires { place < length self.now.levels }
        ensures { (own : KeptLevel) → IsKeptAt self.now place own → result.now ≡ own.buses }
    {
        &self.levels[place as usize].buses
    }

    /// Keeps every level under these flags.
    pub(crate) fn keep_all(
        &mut self,
        alloc: Global,
        structure: &Structure,
        states: &States,
    ) -> Result<(), Memory>
        requires rows { length states.now.opened ≡ length (levels structure.now) }
        requires flags { FlagsFit structure.now states.now.opened }
        requires kept { AreBusesOf structure.now self.old }
        ensures every { OnOk result (AreKept structure.now states.now.opened self.new) }
        ensures kept { AreBusesOf structure.now self.new }
    {
        for place in 0..structure.level_count() {
            self.keep(
                alloc,
                place,
                structure.level(place),
                states.opened_row(place),
            )?;
        }
        Ok(())
    }

    // How many buses the levels have, which are kept under these flags.
    fn count(&self, alloc: Global, structure: &Structure, states: &States) -> Result<Counts, Memory>
        requires { AreKept structure.now states.now.opened self.now }
        ensures value { IfOk result (λ counts. counts
            ≡ counts_before states.now.opened (levels structure.now) (length (levels structure.now))) }
        ensures few { IfOk result (λ counts. counts.count < 2 ^ 32) }
    {
        let mut counts = Counts::with_room(alloc, structure.level_count())?;
        for place in 0..structure.level_count() {
            counts.add(self.buses(place).leasts.len())?;
        }
        Ok(counts)
    }

    // Finds the spots of all branches, where they are not kept.
    fn find_spots(&mut self, alloc: Global, structure: &Structure) -> Result<(), Memory>
        requires { AreBusesOf structure.now self.old }
        ensures found { OnOk result (IsSpotted structure.now self.new.spots) }
        ensures levels { self.new.levels ≡ self.old.levels }
        ensures kept { AreBusesOf structure.now self.new }
    {
        if self.spots.branches.len() == 0 {
            self.spots = IndexedSpots::of(alloc, structure)?;
        }
        Ok(())
    }

    // The buses that are kept in which the ends of the branches stand whose spots are kept, by the numbers of the
    // levels' first buses.
    fn ends(&self, alloc: Global, firsts: &[u32]) -> Result<Ends, Memory>
        requires { NumbersFit firsts.now self.now.levels }
        ensures { IfOk result (λ ends. ends
            ≡ map (spots.buses_of_spots firsts.now self.now.levels) self.now.spots.branches) }
    {
        spot_buses(
            alloc,
            firsts,
            self.levels.slice(),
            self.spots.branches.slice(),
        )
    }

    // Finds the components, where they are not kept. The levels are kept under these flags.
    fn find_numbers(
        &mut self,
        alloc: Global,
        structure: &Structure,
        states: &States,
    ) -> Result<(), Memory>
        requires rows { length states.now.opened ≡ length (levels structure.now) }
        requires kept { AreBusesOf structure.now self.old }
        requires every { AreKept structure.now states.now.opened self.old }
        ensures found { OnOk result (IsSome self.new.numbers) }
        ensures levels { self.new.levels ≡ self.old.levels }
        ensures kept { AreBusesOf structure.now self.new }
    {
        if self.numbers.is_some() {
            return Ok(());
        }
        self.find_spots(alloc, structure)?;
        let counts = self.count(alloc, structure, states)?;
        let ends = self.ends(alloc, counts.firsts.slice())?;
        let labels = join_ends(alloc, counts.count, ends.slice())?;
        self.numbers = Some(Numbers::make(alloc, counts, ends, labels)?);
        Ok(())
    }

    // How many buses are kept of the level at a place.
    fn bus_count(&self, place: u32) -> usize
        ensures { (own : KeptLevel) → IsKeptAt self.now place own
            → result ≡ length own.buses.leasts }
    {
        match self.levels.get(place as usize) {
            Some(own) => own.buses.leasts.len(),
            None => 0,
        }
    }

    // Writes the buses anew in which the ends of the branches of a level stand, and gives the labels that all buses
    // have then, by those that they had.
    fn follow(
        &self,
        alloc: Global,
        labels: Vec<u32>,
        ends: &mut Ends,
        firsts: &[u32],
        level: u32,
    ) -> Result<Vec<u32>, Memory>
        requires fit { NumbersFit firsts.now self.now.levels }
        requires spots { IsIndexOf self.now.spots.branches self.now.spots.index }
        requires inside { level < length self.now.spots.index.lasts }
        requires few { length labels.items < 2 ^ 32 }
        requires before { (before : List KeptLevel)
            × IsMovedAt level before self.now firsts.now (length labels.items) ends.old }
        requires labels { AreLabelsOf (graph (length labels.items) (flat_map pairs_of_buses ends.old))
            labels.items }
        ensures ends { OnOk result (ends.new
            ≡ map (spots.buses_of_spots firsts.now self.now.levels) self.now.spots.branches) }
        ensures labels { IfOk result (λ new. AreLabelsOf (graph (length labels.items)
            (flat_map pairs_of_buses ends.new)) new.items) }
    {
        let mut marks = no_marks(alloc, labels.len())?;
        let index = &self.spots.index;
        mark_level(&mut marks, &labels, ends.slice(), index, level);
        follow_level(ends, firsts, self.levels.slice(), &self.spots, level);
        mark_level(&mut marks, &labels, ends.slice(), index, level);
        Ok(rejoin(labels, marks, ends.slice()))
    }

    // Finds the components anew from these, where the level at a place alone has other buses than when they were found,
    // but as many.
    fn follow_numbers(
        &mut self,
        alloc: Global,
        structure: &Structure,
        states: &States,
        place: u32,
        numbers: Numbers,
    ) -> Result<(), Memory>
        requires rows { length states.now.opened ≡ length (levels structure.now) }
        requires kept { AreBusesOf structure.now self.old }
        requires spots { IsSpotted structure.now self.old.spots }
        requires inside { place < length (levels structure.now) }
        requires every { AreKept structure.now states.now.opened self.old }
        requires numbers { IsFollowedBy structure.now place numbers self.old }
        ensures levels { self.new.levels ≡ self.old.levels }
        ensures kept { AreBusesOf structure.now self.new }
    {
        let (counts, mut ends, labels) = numbers.into_parts();
        let labels = self.follow(
            alloc,
            labels.into_vec(),
            &mut ends,
            counts.firsts.slice(),
            place,
        )?;
        self.numbers = Some(Numbers::make(alloc, counts, ends, labels)?);
        Ok(())
    }

    // Keeps the level at a place under these flags, where all others are kept under them. Where it has as many buses as
    // before, what is known of the others' buses serves to find the components.
    pub(crate) fn keep_one(
        &mut self,
        alloc: Global,
        structure: &Structure,
        states: &States,
        place: u32,
    ) -> Result<(), Memory>
        requires rows { length states.now.opened ≡ length (levels structure.now) }
        requires flags { FlagsFit structure.now states.now.opened }
        requires kept { AreBusesOf structure.now self.old }
        requires others { AreKeptBut structure.now states.now.opened place self.old }
        ensures every { OnOk result (AreKept structure.now states.now.opened self.new) }
        ensures kept { AreBusesOf structure.now self.new }
    {
        if place >= structure.level_count() {
            return Ok(());
        }
        if self.has(place, states.opened_row(place)) {
            return Ok(());
        }
        self.find_spots(alloc, structure)?;
        let count = self.bus_count(place);
        let numbers = self.numbers.take();
        let level = structure.level(place);
        self.keep(alloc, place, level, states.opened_row(place))?;
        match numbers {
            Some(numbers) => {
                if self.bus_count(place) != count {
                    return Ok(());
                }
                self.follow_numbers(alloc, structure, states, place, numbers)
            }
            None => Ok(()),
        }
    }

    /// The buses of the level at a place, each with the number and the size of its component. The levels are kept
    /// under these flags.
    pub(crate) fn list_level(
        &mut self,
        alloc: Global,
        structure: &Structure,
        states: &States,
        level: u32,
    ) -> Result<BusComponents, Memory>
        requires rows { length states.now.opened ≡ length (levels structure.now) }
        requires level { level < length (levels structure.now) }
        requires kept { AreBusesOf structure.now self.old }
        requires every { AreKept structure.now states.now.opened self.old }
        ensures list { IfOk result (λ list. (retained : List (List Bool)) → list
            ≡ islands.level_components structure.now states.now.opened retained level) }
        ensures kept { AreBusesOf structure.now self.new }
        ensures every { AreKept structure.now states.now.opened self.new }
    {
        self.find_numbers(alloc, structure, states)?;
        match &self.numbers {
            Some(numbers) => numbers.list_level(alloc, level, self.buses(level).leasts.slice()),
            None => unreachable!(),
        }
    }
}
