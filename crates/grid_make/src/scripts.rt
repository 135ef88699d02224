// The scripts of the made job.
ghost use Rattle.std.specs.Prelude.{◌≡◌, ◌<◌, ◌≤◌, ◌*◌, ◌/◌, ◌%◌, ◌++◌, IfOk, OnOk};
ghost use Rattle.grid_make.specs.Draws.{next, later, in_turn};
ghost use Rattle.grid_make.specs.MadeJob.{command_of, drawn_command, next_command, worker_scripts};
ghost use Rattle.grid_make.specs.MadeJob as made;

use crate::draws::Draws;
use crate::names::{feeder_injection, id_of, numbered, part};
use grid_ids::{Memory, Seq};
use grid_requests::{Request, Script, Scripts};
use std::alloc::Global;

/// How many workers there are.
const WORKERS: u32 = 4;

/// The command of a kind: it disconnects or connects the injection of a feeder, or opens the coupler of a level.
#[tactic(auto, unfolding(crate::specs::MadeJob::command_of))]
fn command(alloc: Global, kind: u32, level: u32, feeder: u32) -> Result<Request, Memory>
    ensures { IfOk result (λ request. request ≡ command_of kind level feeder) }
{
    match kind {
        0 => Ok(Request::Disconnect {
            id: feeder_injection(alloc, level, feeder)?,
            side: 1,
        }),
        1 => Ok(Request::Connect {
            id: feeder_injection(alloc, level, feeder)?,
            side: 1,
        }),
        _ => Ok(Request::OpenSwitch {
            id: part(alloc, level, "C")?,
        }),
    }
}

/// The command of a draw, in a network of this size.
#[tactic(auto, unfolding(crate::specs::MadeJob::drawn_command))]
fn drawn(alloc: Global, size: u32, draw: u32) -> Result<Request, Memory>
    requires { 1 ≤ size }
    ensures { IfOk result (λ request. request ≡ drawn_command size draw) }
{
    command(alloc, draw / 64 % 3, draw % size, draw / 16 % 4)
}

/// Puts four commands per level last.
fn push_commands(
    alloc: Global,
    script: &mut Script,
    draws: &mut Draws,
    size: u32,
) -> Result<(), Memory>
    requires some { 1 ≤ size }
    requires few { size ≤ 1000 }
    ensures script { OnOk result (script.new
        ≡ script.old ++ in_turn (next_command size) next 0 (4 * size) draws.old) }
    ensures draws { OnOk result (draws.new ≡ later (4 * size) draws.old) }
{
    for _ in 0..4 * size {
        let draw = draws.next();
        script.push(drawn(alloc, size, draw)?)?;
    }
    Ok(())
}

/// The script of a worker.
#[tactic(auto, unfolding(crate::specs::MadeJob::script))]
fn make_script(alloc: Global, draws: &mut Draws, size: u32, worker: u32) -> Result<Script, Memory>
    requires some { 1 ≤ size }
    requires few { size ≤ 1000 }
    ensures script { IfOk result (λ script. script ≡ made.script size worker draws.old) }
    ensures draws { OnOk result (draws.new ≡ later (4 * size) draws.old) }
{
    let mut script = Seq::empty(alloc);
    script.push(Request::CloneVariant {
        from: id_of(alloc, "InitialState")?,
        to: numbered(alloc, "W", worker)?,
        overwrite: false,
    })?;
    script.push(Request::UseVariant {
        name: numbered(alloc, "W", worker)?,
    })?;
    push_commands(alloc, &mut script, draws, size)?;
    script.push(Request::BusView {
        level: numbered(alloc, "L", 0)?,
    })?;
    Ok(script)
}

/// The scripts of the workers.
pub fn make_scripts(alloc: Global, draws: &mut Draws, size: u32) -> Result<Scripts, Memory>
    requires some { 1 ≤ size }
    requires few { size ≤ 1000 }
    ensures { IfOk result (λ scripts. scripts
        ≡ in_turn (worker_scripts size) (later (4 * size)) 0 4 draws.old) }
{
    let mut scripts = Seq::empty(alloc);
    for worker in 0..WORKERS {
        scripts.push(make_script(alloc, draws, size, worker)?)?;
    }
    Ok(scripts)
}
