//! The made job: a large valid job from a seed and a size.
#![tactic(auto)]

ghost use Rattle.std.specs.Prelude.{◌≡◌, ◌≤◌, ◌+◌, ◌*◌, length, IfOk};
ghost use Rattle.grid_json.specs.Job.{command_total, max_commands};
ghost use Rattle.grid_make.specs.MadeNetwork.{IsUnrefused};
ghost use Rattle.grid_make.specs.MadeJob.{made_job};

mod draws;
mod laws;
mod names;
mod network;
mod scripts;

use crate::draws::Draws;
pub use crate::laws::made_edits_are_accepted;
use crate::network::make_network;
use crate::scripts::make_scripts;
use grid_ids::{Memory, Seq};
use grid_json::Job;
use grid_structure::Seeded;

/// The job of a seed up to 65,536 and a size from 1 to 1,000: a network of so many levels in a row, and four workers,
/// each with four commands per level on a variant of its own. It has no listeners and no order. The network of a job
/// that is made has every edit, none of them refused. The only other answer is Memory.
#[tactic(auto, unfolding(crate::specs::MadeJob::made_job))]
pub fn make_job(seeded: Seeded, seed: u32, size: u32) -> Result<Job, Memory>
    requires seed { seed ≤ 65536 }
    requires some { 1 ≤ size }
    requires few { size ≤ 1000 }
    ensures made { IfOk result (λ job. job ≡ made_job seed size) }
    ensures whole { IfOk result (λ job. IsUnrefused seed size job.network) }
    ensures workers { IfOk result (λ job. length job.scripts ≡ 4) }
    ensures commands { IfOk result (λ job. command_total job.scripts ≡ 4 * (3 + 4 * size)) }
    ensures total { IfOk result (λ job. command_total job.scripts ≤ max_commands) }
{
    let mut draws = Draws::new(seed);
    let alloc = seeded.alloc;
    let network = make_network(seeded, &mut draws, size)?;
    let scripts = make_scripts(alloc, &mut draws, size)?;
    Ok(Job {
        network,
        filters: Seq::empty(alloc),
        scripts,
        order: None,
    })
}
