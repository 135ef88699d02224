// The network of the made job, by edits.
ghost use Rattle.std.specs.Prelude.{◌≡◌, ◌<◌, ◌≤◌, ◌+◌, ◌*◌, ◌-◌, pos, Ok, IsOk, IsTrue, IfOk, OnOk};
ghost use Rattle.grid_structure.specs.Editing.{apply};
ghost use Rattle.grid_make.specs.Draws.{next, later, same, in_turn};
ghost use Rattle.grid_make.specs.MadeNetwork.{line_end, coupler_edit, switch_edit, busbar_edits, feeder_edits, outlet_edits, level_edits, line_edits, unrefused, IsUnrefused};
ghost use Rattle.grid_make.specs.MadeNetwork as made;
ghost use Rattle.grid_make.specs.Pieces.{is_piece};

use crate::draws::Draws;
use crate::names::{feeder_injection, feeder_switch, id_of, numbered, part};
use grid_ids::Memory;
use grid_kinds::{Injection, SwitchKind};
use grid_structure::{ApplyFault, BoxedBranch, Branch, Edit, End, Seeded, Structure};
use std::alloc::Global;

/// How many feeders a level has.
const FEEDERS: u32 = 4;

/// The nominal voltage of each level, in V.
const NOMINAL: i64 = 225_000;

/// A feeder, by the number of its level and its own there.
#[derive(Clone, Copy)]
struct Feeder {
    level: u32,
    number: u32,
}

/// The node of this number.
fn node(number: u32) -> i64
    ensures { result ≡ pos number }
{
    i64::from(number)
}

/// Makes an edit that is not refused.
fn change(structure: &mut Structure, edit: Edit) -> Result<(), Memory>
    requires { IsOk (apply structure.now edit) }
    ensures { OnOk result (apply structure.old edit ≡ Ok structure.new) }
{
    match structure.apply(&edit) {
        Ok(()) => Ok(()),
        Err(ApplyFault::Memory) => Err(Memory),
        Err(ApplyFault::Refused(_)) => unreachable!(),
    }
}

/// A substation with its level, and the level's busbar sections.
#[tactic(auto, unfolding(crate::specs::MadeNetwork::busbar_edits, crate::specs::MadeNetwork::unrefused))]
fn add_busbars(alloc: Global, structure: &mut Structure, level: u32) -> Result<(), Memory>
    requires { IsOk (unrefused (busbar_edits level) structure.now) }
    ensures { OnOk result (unrefused (busbar_edits level) structure.old ≡ Ok structure.new) }
{
    let substation = Edit::AddSubstation {
        id: numbered(alloc, "S", level)?,
    };
    change(structure, substation)?;
    let voltage_level = Edit::AddLevel {
        id: numbered(alloc, "L", level)?,
        substation: numbered(alloc, "S", level)?,
        nominal_v: NOMINAL,
        low_v: None,
        high_v: None,
    };
    change(structure, voltage_level)?;
    let first = Edit::AddBusbar {
        id: part(alloc, level, "B0")?,
        level: numbered(alloc, "L", level)?,
        node: 0,
    };
    change(structure, first)?;
    let second = Edit::AddBusbar {
        id: part(alloc, level, "B1")?,
        level: numbered(alloc, "L", level)?,
        node: 1,
    };
    change(structure, second)
}

/// The coupler between a level's busbar sections.
#[tactic(auto, unfolding(crate::specs::MadeNetwork::coupler_edit))]
fn coupler(alloc: Global, draws: &mut Draws, level: u32) -> Result<Edit, Memory>
    ensures edit { IfOk result (λ edit. edit ≡ coupler_edit level draws.old) }
    ensures draws { draws.new ≡ next draws.old }
{
    let draw = draws.next();
    Ok(Edit::AddSwitch {
        id: part(alloc, level, "C")?,
        level: numbered(alloc, "L", level)?,
        kind: SwitchKind::Breaker,
        node1: 0,
        node2: 1,
        opened: draw % 2 == 1,
        retained: true,
        fictitious: false,
    })
}

/// An internal connection of a level.
#[tactic(auto, unfolding(crate::specs::MadeNetwork::internal_edit))]
fn internal(alloc: Global, level: u32, node1: u32, node2: u32) -> Result<Edit, Memory>
    ensures { IfOk result (λ edit. edit ≡ made.internal_edit level node1 node2) }
{
    Ok(Edit::AddInternal {
        level: numbered(alloc, "L", level)?,
        node1: node(node1),
        node2: node(node2),
    })
}

/// The injection of a feeder with this number. Powers are in W.
#[tactic(auto, unfolding(crate::specs::MadeNetwork::feeder_injection))]
fn injection(number: u32) -> Injection
    requires { number < 4 }
    ensures { result ≡ made.feeder_injection number }
{
    let power = i64::from(1_000_000 * (number + 1));
    if number % 2 == 0 {
        Injection::Load { p0: power, q0: 0 }
    } else {
        Injection::Generator {
            target_p: power,
            target_v: NOMINAL,
            min_p: 0,
            max_p: 10_000_000,
        }
    }
}

impl Feeder {
    /// A switch of the feeder, by its letter.
    #[tactic(auto, unfolding(crate::specs::MadeNetwork::switch_edit))]
    fn switch(
        self,
        alloc: Global,
        letter: &str,
        kind: SwitchKind,
        node1: u32,
        node2: u32,
        opened: bool,
    ) -> Result<Edit, Memory>
        requires { IsTrue (is_piece 16 letter.now) }
        ensures { IfOk result (λ edit. edit
            ≡ switch_edit self.level self.number letter.now kind node1 node2 opened) }
    {
        Ok(Edit::AddSwitch {
            id: feeder_switch(alloc, self.level, self.number, letter)?,
            level: numbered(alloc, "L", self.level)?,
            kind,
            node1: node(node1),
            node2: node(node2),
            opened,
            retained: false,
            fictitious: false,
        })
    }

    /// The injection at the end of the feeder.
    #[tactic(auto, unfolding(crate::specs::MadeNetwork::injection_edit))]
    fn end(self, alloc: Global) -> Result<Edit, Memory>
        requires { self.number < 4 }
        ensures { IfOk result (λ edit. edit ≡ made.injection_edit self.level self.number) }
    {
        Ok(Edit::AddInjection {
            id: feeder_injection(alloc, self.level, self.number)?,
            level: numbered(alloc, "L", self.level)?,
            node: node(4 + 3 * self.number),
            item: injection(self.number),
        })
    }

    /// Puts the feeder into its level.
    #[tactic(auto, unfolding(crate::specs::MadeNetwork::feeder_edits, crate::specs::MadeNetwork::unrefused))]
    fn add(self, alloc: Global, structure: &mut Structure, draws: &mut Draws) -> Result<(), Memory>
        requires number { self.number < 4 }
        requires accepted { IsOk (unrefused (feeder_edits self.level self.number draws.now)
            structure.now) }
        ensures edits { OnOk result (unrefused (feeder_edits self.level self.number draws.old)
            structure.old ≡ Ok structure.new) }
        ensures draws { draws.new ≡ next draws.old }
    {
        let is_odd = draws.next() % 2 == 1;
        let inner = 2 + 3 * self.number;
        let outer = 3 + 3 * self.number;
        let first = self.switch(alloc, "P", SwitchKind::Disconnector, 0, inner, is_odd)?;
        change(structure, first)?;
        let second = self.switch(alloc, "Q", SwitchKind::Disconnector, 1, inner, !is_odd)?;
        change(structure, second)?;
        let breaker = self.switch(alloc, "K", SwitchKind::Breaker, inner, outer, false)?;
        change(structure, breaker)?;
        let connection = internal(alloc, self.level, outer, 4 + 3 * self.number)?;
        change(structure, connection)?;
        change(structure, self.end(alloc)?)
    }
}

/// The feeders of a level.
fn add_feeders(
    alloc: Global,
    structure: &mut Structure,
    draws: &mut Draws,
    level: u32,
) -> Result<(), Memory>
    requires { IsOk (unrefused (in_turn (feeder_edits level) next 0 4 draws.now) structure.now) }
    ensures edits { OnOk result (unrefused (in_turn (feeder_edits level) next 0 4 draws.old)
        structure.old ≡ Ok structure.new) }
    ensures draws { OnOk result (draws.new ≡ later 4 draws.old) }
{
    for number in 0..FEEDERS {
        Feeder { level, number }.add(alloc, structure, draws)?;
    }
    Ok(())
}

/// The internal connection to where a line ends, if there is one.
#[tactic(auto, unfolding(crate::specs::MadeNetwork::outlet_edits, crate::specs::MadeNetwork::unrefused))]
fn add_outlet(
    alloc: Global,
    structure: &mut Structure,
    is_there: bool,
    level: u32,
    node1: u32,
    node2: u32,
) -> Result<(), Memory>
    requires { IsOk (unrefused (outlet_edits is_there level node1 node2) structure.now) }
    ensures { OnOk result (unrefused (outlet_edits is_there level node1 node2) structure.old
        ≡ Ok structure.new) }
{
    if is_there {
        change(structure, internal(alloc, level, node1, node2)?)
    } else {
        Ok(())
    }
}

/// A level of a network of this size.
#[tactic(auto, unfolding(crate::specs::MadeNetwork::level_edits))]
fn add_level(
    alloc: Global,
    structure: &mut Structure,
    draws: &mut Draws,
    size: u32,
    level: u32,
) -> Result<(), Memory>
    requires level { level < size }
    requires accepted { IsOk (unrefused (level_edits size level draws.now) structure.now) }
    ensures edits { OnOk result (unrefused (level_edits size level draws.old) structure.old
        ≡ Ok structure.new) }
    ensures draws { OnOk result (draws.new ≡ later 5 draws.old) }
{
    add_busbars(alloc, structure, level)?;
    change(structure, coupler(alloc, draws, level)?)?;
    add_feeders(alloc, structure, draws, level)?;
    add_outlet(alloc, structure, level + 1 != size, level, 0, 100)?;
    add_outlet(alloc, structure, level != 0, level, 1, 101)?;
    Ok(())
}

/// The levels of a network of this size.
fn add_levels(
    alloc: Global,
    structure: &mut Structure,
    draws: &mut Draws,
    size: u32,
) -> Result<(), Memory>
    requires { IsOk (unrefused (in_turn (level_edits size) (later 5) 0 size draws.now)
        structure.now) }
    ensures edits { OnOk result (unrefused (in_turn (level_edits size) (later 5) 0 size draws.old)
        structure.old ≡ Ok structure.new) }
    ensures draws { OnOk result (draws.new ≡ later (5 * size) draws.old) }
{
    for level in 0..size {
        add_level(alloc, structure, draws, size, level)?;
    }
    Ok(())
}

/// An end of a line.
fn end(alloc: Global, level: u32, number: u32) -> Result<End, Memory>
    ensures { IfOk result (λ end. end ≡ line_end level number) }
{
    Ok(End {
        level: numbered(alloc, "L", level)?,
        node: node(number),
    })
}

/// The line from a level to the next one.
#[tactic(auto, unfolding(crate::specs::MadeNetwork::line_edits, crate::specs::MadeNetwork::unrefused))]
fn add_line(alloc: Global, structure: &mut Structure, level: u32) -> Result<(), Memory>
    requires level { level < 1000 }
    requires accepted { IsOk (unrefused (line_edits level 0) structure.now) }
    ensures { OnOk result (unrefused (line_edits level 0) structure.old ≡ Ok structure.new) }
{
    let line = Branch::Line {
        end1: end(alloc, level, 100)?,
        end2: end(alloc, level + 1, 101)?,
    };
    let edit = Edit::AddBranch {
        id: numbered(alloc, "T", level)?,
        shape: BoxedBranch::new(alloc, line)?,
    };
    change(structure, edit)
}

/// So many lines, from the first level on.
fn add_lines(alloc: Global, structure: &mut Structure, count: u32) -> Result<(), Memory>
    requires count { count < 1000 }
    requires accepted { IsOk (unrefused (in_turn line_edits same 0 count 0) structure.now) }
    ensures { OnOk result (unrefused (in_turn line_edits same 0 count 0) structure.old
        ≡ Ok structure.new) }
{
    for level in 0..count {
        add_line(alloc, structure, level)?;
    }
    Ok(())
}

/// The network of this size, from the draw after the last one on.
pub fn make_network(seeded: Seeded, draws: &mut Draws, size: u32) -> Result<Structure, Memory>
    requires some { 1 ≤ size }
    requires few { size ≤ 1000 }
    ensures network { IfOk result (λ network. IsUnrefused draws.old size network) }
    ensures draws { OnOk result (draws.new ≡ later (5 * size) draws.old) }
{
    let alloc = seeded.alloc;
    let mut structure = Structure::empty(seeded, id_of(alloc, "M")?);
    add_levels(alloc, &mut structure, draws, size)?;
    add_lines(alloc, &mut structure, size - 1)?;
    Ok(structure)
}
