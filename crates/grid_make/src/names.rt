// The ids of the made job.
ghost use Rattle.std.specs.Prelude.{◌≡◌, ◌++◌, None, IsTrue, IfOk, decimal};
ghost use Rattle.grid_ids.specs.Fault.{id_fault};
ghost use Rattle.grid_make.specs.Pieces.{is_piece};
ghost use Rattle.grid_make.specs.MadeNetwork.{part_name, switch_name, injection_name};

use grid_ids::{Id, IdFault, Memory};
use std::alloc::Global;

/// The id with this text, which is one.
pub fn id_of(alloc: Global, text: &str) -> Result<Id, Memory>
    requires { id_fault text.now ≡ None }
    ensures { IfOk result (λ id. id ≡ text.now) }
{
    match Id::new(alloc, text) {
        Ok(id) => Ok(id),
        Err(IdFault::Memory) => Err(Memory),
        Err(_) => unreachable!(),
    }
}

/// A letter and a number: a substation, a level, a line or a variant.
pub fn numbered(alloc: Global, letter: &str, number: u32) -> Result<Id, Memory>
    requires { IsTrue (is_piece 16 letter.now) }
    ensures { IfOk result (λ id. id ≡ letter.now ++ decimal number) }
{
    let text = format!(in alloc; "{letter}{number}")?;
    id_of(alloc, text.as_str())
}

/// What belongs to a level, by the text after the level's name.
pub fn part(alloc: Global, level: u32, part: &str) -> Result<Id, Memory>
    requires { IsTrue (is_piece 40 part.now) }
    ensures { IfOk result (λ id. id ≡ part_name level part.now) }
{
    let text = format!(in alloc; "L{level}{part}")?;
    id_of(alloc, text.as_str())
}

/// A switch of a feeder, by its letter.
pub fn feeder_switch(alloc: Global, level: u32, feeder: u32, letter: &str) -> Result<Id, Memory>
    requires { IsTrue (is_piece 16 letter.now) }
    ensures { IfOk result (λ id. id ≡ switch_name level feeder letter.now) }
{
    let text = format!(in alloc; "F{feeder}{letter}")?;
    part(alloc, level, text.as_str())
}

/// The injection of a feeder.
pub fn feeder_injection(alloc: Global, level: u32, feeder: u32) -> Result<Id, Memory>
    ensures { IfOk result (λ id. id ≡ injection_name level feeder) }
{
    let text = format!(in alloc; "I{feeder}")?;
    part(alloc, level, text.as_str())
}
