// A whole run, from a structure to the board that is left.
ghost use Rattle.std.specs.Prelude.{◌≡◌, ◌<◌, ◌^◌, length, IfOk};
ghost use Rattle.grid_workers.specs.Runs.{IsRun};

use crate::run_workers;
use grid_board::Board;
use grid_core::Scripts;
use grid_ids::Memory;
use grid_manager::{Blank, Gate, Manager, Named};
use grid_structure::Structure;
use std::alloc::Global;
use std::marker::Brand;
use std::sync::Wait;
use std::thread::Threads;

/// What a run leaves: the board, and whether some worker has commands of its script left, where memory runs out.
#[derive(Drop)]
pub struct Finished {
    pub board: Board,
    pub short: bool,
}

/// Runs each script by a worker of its own, on a thread of its own, over one structure. The board that is left is a
/// history over this structure in which worker n asked the first commands of script n, and no other worker asked
/// anything; where the run is not short, each worker asked its whole script.
pub fn run_scripts<R: Threads + Wait + Sync, G: Gate>(
    rt: &R,
    alloc: Global,
    structure: Structure,
    scripts: &Scripts,
    gate: &G,
) -> Result<Finished, Memory>
    requires { length scripts.now < 2 ^ 32 }
    ensures { IfOk result (λ run. IsRun structure scripts.now run.board run.short) }
{
    let workers = scripts.len() as u32;
    if workers == 0 {
        let board = Board::start(alloc, structure, 0)?;
        return Ok(Finished {
            board,
            short: false,
        });
    }
    let blank = Blank::make(alloc, structure, workers)?;
    run_named::<Brand, R, G>(rt, alloc, blank, scripts, gate)
}

// The same, from a blank whose table N names.
fn run_named<N: Named + Send + Sync, R: Threads + Wait + Sync, G: Gate>(
    rt: &R,
    alloc: Global,
    blank: Blank,
    scripts: &Scripts,
    gate: &G,
) -> Result<Finished, Memory>
    requires named { (blank.table ≡ N.table) × (blank.workers ≡ N.workers) }
    requires count { length scripts.now ≡ N.workers }
    requires some { 0 < length scripts.now }
    ensures { IfOk result (λ run. IsRun blank.structure scripts.now run.board run.short) }
{
    let (manager, seats) = Manager::<N>::start(alloc, blank)?;
    let worked = run_workers(rt, alloc, &manager, seats, scripts, gate);
    let board = manager.close(worked.seats);
    Ok(Finished {
        board,
        short: worked.short,
    })
}
