// What an outage changes: the levels in which a switch is opened or from which terminals are taken.
ghost use Rattle.std.specs.Prelude.{◌≡◌, ℕ, ◌<◌, ◌+◌, None, Some, IfOk, OnOk, length, map, slice_get, slice_set, slice_index_or, true, find};
ghost use Rattle.std.specs.Option.{option_map};
ghost use Rattle.grid_ids.specs.Name.{same_id};
ghost use Rattle.grid_level.specs.LevelEdits.{level_without_equipment};
ghost use Rattle.grid_states.specs.Rows.{row_at, with_flag};
ghost use Rattle.grid_structure.specs.Sites.{levels};
ghost use Rattle.grid_islands.specs.Numbering.{FlagsFit};
ghost use Rattle.grid_outages.specs.Changes.{change_at, shown_levels, shown_rows, FitsAt, IsLooked, AreLooked};
ghost use Rattle.grid_outages.specs.Steps.{cleared_side, taken_out, levels_with_out, rows_with_out, levels_after, rows_after, Shows, ShowsSo, Stands};

use grid_busview::BusPlaces;
use grid_ids::{Duplicate, Id, Memory, Seq};
use grid_json::SeenIds;
use grid_level::{Flags, Level, Placed};
use grid_powers::Powers;
use grid_sparse::Sparse;
use grid_states::States;
use grid_structure::{Structure, SwitchAt};
use grid_sums::level_buses;
use grid_unions::Sums;
use std::alloc::Global;
use std::marker::Model;

/// A level as an outage leaves it: a copy where terminals are taken out, else the structure's own. It is seen as the
/// level.
#[derive(Drop)]
pub struct Shown<'a> {
    before: &'a Level,
    copy: Option<Level>,
}

impl<'a> Model for Shown<'a> {
    ghost use Rattle.grid_level.specs.VoltageLevel.{VoltageLevel};
    ghost use Rattle.grid_outages.specs.Copied.{copy_or};

    ghost Value = { VoltageLevel };

    ghost view = { λ s. copy_or s.copy s.before.now };
}

impl<'a> Shown<'a> {
    /// A level as it is.
    fn of(level: &'a Level) -> Shown<'a>
        ensures { result ≡ level.now }
    {
        Shown {
            before: level,
            copy: None,
        }
    }

    /// The level.
    pub fn level(&self) -> &Level
        ensures { result.now ≡ self.now }
    {
        match &self.copy {
            Some(copy) => copy,
            None => self.before,
        }
    }

    // Takes all terminals of an equipment out.
    fn clear(&mut self, id: &Id) -> Result<(), Memory>
        ensures { OnOk result (self.new ≡ level_without_equipment id.now self.old) }
    {
        let mut copy = match self.copy.take() {
            Some(copy) => copy,
            None => self.before.copy()?,
        };
        clear_level(&mut copy, id);
        self.copy = Some(copy);
        Ok(())
    }
}

/// A level that an outage changes: with its terminals and the flags of its switches after it, for each node the place
/// of the bus that holds it, and the sums of its buses. Places and sums stand once the level was looked at.
#[derive(Drop)]
pub struct Changed<'a> {
    pub level: Shown<'a>,
    pub opened: Flags,
    pub places: BusPlaces,
    pub sums: Seq<Sums>,
}

/// For each level by place what it is after an outage; none where it is as before.
pub type Changes<'a> = Sparse<Box<Changed<'a>>>;

// A copy of these flags.
fn copy_flags(alloc: Global, flags: &[bool]) -> Result<Flags, Memory>
    ensures { IfOk result (λ copy. copy ≡ flags.now) }
{
    match Vec::from_slice(alloc, flags) {
        Ok(copy) => Ok(Seq::from_vec(copy)),
        Err(_) => Err(Memory),
    }
}

// A level with these flags, not looked at yet.
fn standing<'a>(alloc: Global, level: &'a Level, flags: &[bool]) -> Result<Box<Changed<'a>>, Memory>
    ensures level { IfOk result (λ standing. standing.value.level ≡ level.now) }
    ensures opened { IfOk result (λ standing. standing.value.opened ≡ flags.now) }
{
    let opened = copy_flags(alloc, flags)?;
    let changed = Changed {
        level: Shown::of(level),
        opened,
        places: BusPlaces::empty(alloc),
        sums: Seq::empty(alloc),
    };
    Ok(Box::new(alloc, changed)?)
}

// Opens the switch at a place.
fn with_open<'a>(changed: Box<Changed<'a>>, place: u32) -> Box<Changed<'a>>
    requires { place < length changed.value.opened }
    ensures level { result.value.level ≡ changed.entry.value.level }
    ensures opened { result.value.opened ≡ slice_set changed.entry.value.opened place true }
{
    let mut changed = changed;
    changed.opened.set(place as usize, true);
    changed
}

// Takes all terminals of an equipment out.
fn without<'a>(changed: Box<Changed<'a>>, id: &Id) -> Result<Box<Changed<'a>>, Memory>
    ensures level { IfOk result (λ c. c.value.level
        ≡ level_without_equipment id.now changed.entry.value.level) }
    ensures opened { IfOk result (λ c. c.value.opened ≡ changed.entry.value.opened) }
{
    let mut changed = changed;
    changed.level.clear(id)?;
    Ok(changed)
}

// Takes out what stands of the level at a place.
fn take_standing<'a>(
    alloc: Global,
    structure: &'a Structure,
    states: &States,
    changes: &mut Changes<'a>,
    place: u32,
) -> Result<Box<Changed<'a>>, Memory>
    requires place { place < length (levels structure.now) }
    requires changes { length changes.old ≡ length (levels structure.now) }
    requires rows { length states.now.opened ≡ length (levels structure.now) }
    ensures level { IfOk result (λ s. slice_get (shown_levels changes.old (levels
        structure.now)) place ≡ Some s.value.level) }
    ensures opened { IfOk result (λ s. s.value.opened
        ≡ row_at (shown_rows changes.old states.now.opened) place) }
    ensures left { OnOk result (changes.new ≡ slice_set changes.old place None) }
{
    match changes.take(place) {
        Some(changed) => Ok(changed),
        None => standing(alloc, structure.level(place), states.opened_row(place)),
    }
}

// The node of the first terminal of an equipment.
fn node_of_equipment(placed: &[Placed], id: &Id) -> Option<u16>
    ensures { result
        ≡ option_map (λ p. p.node) (find (λ p. same_id id.now p.terminal.equipment) placed.now) }
{
    match placed.iter().find(|p| id == &p.terminal.equipment) {
        Some(found) => Some(found.node),
        None => None,
    }
}

// Takes all terminals of an equipment out of a level, without memory.
fn clear_level(level: &mut Level, id: &Id)
    ensures { level.new ≡ level_without_equipment id.now level.old }
{
    while let Some(node) = node_of_equipment(level.placed(), id) {
        level.keeps();
        level.take_terminal(node);
    }
}

// Opens a switch.
fn open_switch<'a>(
    alloc: Global,
    structure: &'a Structure,
    states: &States,
    changes: &mut Changes<'a>,
    at: SwitchAt,
) -> Result<(), Memory>
    requires shows { ShowsSo (levels structure.now) states.now.opened changes.old }
    requires level { at.level < length (levels structure.now) }
    requires place { at.place < length (row_at (shown_rows changes.old states.now.opened) at.level) }
    ensures { OnOk result (Shows (levels structure.now) states.now.opened changes.new
        (shown_levels changes.old (levels structure.now))
        (with_flag (shown_rows changes.old states.now.opened) at.level at.place true)) }
{
    let taken = take_standing(alloc, structure, states, changes, at.level)?;
    changes.put(at.level, with_open(taken, at.place))?;
    Ok(())
}

// Takes the terminals of an equipment out of the level in which that of a side stands.
fn clear_side<'a>(
    alloc: Global,
    structure: &'a Structure,
    states: &States,
    changes: &mut Changes<'a>,
    at: (&Id, u8),
) -> Result<(), Memory>
    requires { ShowsSo (levels structure.now) states.now.opened changes.old }
    ensures { OnOk result (Shows (levels structure.now) states.now.opened changes.new
        (cleared_side structure.now at.entry.0.now at.entry.1 (shown_levels changes.old (levels
        structure.now))) (shown_rows changes.old states.now.opened)) }
{
    let (id, side) = at;
    let site = match structure.site(id, side) {
        Some(site) => site,
        None => return Ok(()),
    };
    let taken = take_standing(alloc, structure, states, changes, site.level)?;
    let cleared = without(taken, id)?;
    changes.put(site.level, cleared)?;
    Ok(())
}

// Takes all terminals of an equipment out.
#[tactic(auto, unfolding(crate::specs::Steps::taken_out))]
fn take_out<'a>(
    alloc: Global,
    structure: &'a Structure,
    states: &States,
    changes: &mut Changes<'a>,
    id: &Id,
) -> Result<(), Memory>
    requires { ShowsSo (levels structure.now) states.now.opened changes.old }
    ensures { OnOk result (Shows (levels structure.now) states.now.opened changes.new
        (taken_out structure.now id.now (shown_levels changes.old (levels structure.now)))
        (shown_rows changes.old states.now.opened)) }
{
    clear_side(alloc, structure, states, changes, (id, 1))?;
    clear_side(alloc, structure, states, changes, (id, 2))?;
    clear_side(alloc, structure, states, changes, (id, 3))
}

// Opens the switch of an id, or takes the equipment out.
fn put_out<'a>(
    alloc: Global,
    structure: &'a Structure,
    states: &States,
    changes: &mut Changes<'a>,
    id: &Id,
) -> Result<(), Memory>
    requires { ShowsSo (levels structure.now) states.now.opened changes.old }
    ensures { OnOk result (Shows (levels structure.now) states.now.opened changes.new
        (levels_with_out structure.now (shown_levels changes.old (levels structure.now))
        id.now) (rows_with_out structure.now (shown_rows changes.old states.now.opened)
        id.now)) }
{
    match structure.find_switch(id) {
        Some(at) => open_switch(alloc, structure, states, changes, at),
        None => take_out(alloc, structure, states, changes, id),
    }
}

// Puts these ids out, one after the other. One that was named before is left out, since it changes nothing.
fn put_all_out<'a>(
    alloc: Global,
    structure: &'a Structure,
    states: &States,
    changes: &mut Changes<'a>,
    ids: &[Id],
) -> Result<(), Memory>
    requires { Shows (levels structure.now) states.now.opened changes.old (levels structure.now)
        states.now.opened }
    ensures { OnOk result (Shows (levels structure.now) states.now.opened changes.new
        (levels_after structure.now ids.now (levels structure.now))
        (rows_after structure.now ids.now states.now.opened)) }
{
    let mut seen = SeenIds::empty(alloc);
    for id in ids {
        if !seen.add(id)? {
            continue;
        }
        put_out(alloc, structure, states, changes, id)?;
    }
    Ok(())
}

// Looks at a level that has changed.
fn look<'a>(
    alloc: Global,
    changed: Box<Changed<'a>>,
    powers: &Powers,
) -> Result<Box<Changed<'a>>, Memory>
    requires { length changed.value.opened ≡ length changed.value.level.switches }
    ensures level { IfOk result (λ c. c.value.level ≡ changed.entry.value.level) }
    ensures opened { IfOk result (λ c. c.value.opened ≡ changed.entry.value.opened) }
    ensures looked { IfOk result (λ c. IsLooked powers.now.listed c.value) }
{
    let mut changed = changed;
    let seen = level_buses(alloc, changed.level.level(), changed.opened.slice(), powers)?;
    changed.places = seen.places;
    changed.sums = seen.sums;
    Ok(changed)
}

// Looks at each level that has changed, once.
fn look_at_all<'a>(alloc: Global, powers: &Powers, changes: &mut Changes<'a>) -> Result<(), Memory>
    requires { (k : ℕ) → FitsAt (change_at changes.old k) }
    ensures { OnOk result (AreLooked powers.now.listed changes.old changes.new) }
{
    let count = changes.len();
    let mut from = 0;
    while let Some(place) = changes.next_from(from) {
        let changed = changes.take(place).unwrap();
        let looked = look(alloc, changed, powers)?;
        changes.put(place, looked)?;
        from = place + 1;
    }
    Ok(())
}

/// The levels that change where these ids are out, one after the other, not looked at yet: a switch is opened, an
/// equipment removed. The time is that of a look-up of each id, with a copy of each level from which equipment is
/// removed.
pub fn changes_without<'a>(
    alloc: Global,
    structure: &'a Structure,
    states: &States,
    ids: &[Id],
) -> Result<Changes<'a>, Memory>
    requires rows { length states.now.opened ≡ length (levels structure.now) }
    requires flags { FlagsFit structure.now states.now.opened }
    ensures { IfOk result (λ changes. Shows (levels structure.now) states.now.opened changes
        (levels_after structure.now ids.now (levels structure.now))
        (rows_after structure.now ids.now states.now.opened)) }
{
    let mut changes = Sparse::new(alloc, structure.level_count());
    put_all_out(alloc, structure, states, &mut changes, ids)?;
    Ok(changes)
}

/// The levels that change where these ids are out, one after the other: a switch is opened, an equipment removed. The
/// time is that of a look-up of each id and of a view of each level that they touch, with a copy where equipment is
/// removed.
pub fn find_changes<'a>(
    alloc: Global,
    structure: &'a Structure,
    states: &States,
    powers: &Powers,
    ids: &[Id],
) -> Result<Changes<'a>, Memory>
    requires rows { length states.now.opened ≡ length (levels structure.now) }
    requires flags { FlagsFit structure.now states.now.opened }
    ensures { IfOk result (λ changes. Stands powers.now.listed (levels structure.now) states.now.opened
        changes (levels_after structure.now ids.now (levels structure.now))
        (rows_after structure.now ids.now states.now.opened)) }
{
    let mut changes = changes_without(alloc, structure, states, ids)?;
    look_at_all(alloc, powers, &mut changes)?;
    Ok(changes)
}
