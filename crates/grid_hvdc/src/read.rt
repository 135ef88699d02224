// Jobs with HVDC lines from JSON. The whole is one value, which stays until the lines were held against the loaded
// network, since a line's stations are ids of it.
ghost use Rattle.std.specs.Prelude.{◌≤◌, [], IfOk, codes};
ghost use Rattle.grid_value.specs.View.{view};
ghost use Rattle.grid_json.specs.Job.{command_total, max_commands};
ghost use Rattle.grid_json.specs.Reading.{Gives, under};
ghost use Rattle.grid_json.specs.Whole.{JobGives};
ghost use Rattle.grid_hvdc.specs.Checks.{lines_check};
ghost use Rattle.grid_hvdc.specs.Jobs.{hvdc_at, hvdc_job_of};

use crate::checks::check_lines;
use crate::{HvdcJob, HvdcLine, HvdcLines};
use grid_json::{Format, FromJson, JobFault, ReadError, job_member, member, only};
use grid_structure::{Seeded, Structure};
use grid_value::{ByteFault, Scratch, Tree, Value};
use std::alloc::Global;

impl FromJson for HvdcLine {
    ghost use Rattle.grid_hvdc.specs.Jobs.{line_at};

    ghost reads = { λ _. line_at };

    #[tactic(auto, unfolding(crate::specs::Jobs::line_at))]
    fn from_json(alloc: Global, format: Format, value: &Value) -> Result<HvdcLine, ReadError> {
        only(alloc, value, &["id", "station1", "station2"])?;
        let id = member(alloc, format, value, "id")?;
        let station1 = member(alloc, format, value, "station1")?;
        let station2 = member(alloc, format, value, "station2")?;
        Ok(HvdcLine {
            id,
            station1,
            station2,
        })
    }
}

// The lines fit the loaded network and each other.
fn check_member(alloc: Global, structure: &Structure, lines: &[HvdcLine]) -> Result<(), ReadError>
    ensures { Gives result (under (codes "hvdc") (lines_check structure.now [] 0 lines.now)) }
{
    match check_lines(alloc, structure, lines) {
        Ok(()) => Ok(()),
        Err(e) => Err(e.under(alloc, "hvdc")),
    }
}

// The job of a value, with its HVDC lines.
#[tactic(auto, unfolding(crate::specs::Jobs::hvdc_at))]
fn read_root(seeded: Seeded, value: &Value) -> Result<HvdcJob, ReadError>
    ensures job { Gives result (hvdc_at (view value.now)) }
    ensures total { IfOk result (λ hvdc. command_total hvdc.job.scripts ≤ max_commands) }
{
    let alloc = seeded.alloc;
    only(alloc, value, &["job", "hvdc"])?;
    let job = job_member(seeded, value)?;
    let lines: HvdcLines = member(alloc, Format::One, value, "hvdc")?;
    check_member(alloc, &job.network, lines.slice())?;
    Ok(HvdcJob { job, lines })
}

/// The job of the bytes with its HVDC lines: BadJson exactly where `serde_json` has no reading of them, BadJob exactly
/// where there is a fault, with the first one. The root's member `job` is read whole, with its loading, before `hvdc`;
/// after all are read, each line in order is held against the loaded network and the lines before it: its id is new,
/// then the ids of side 1 and of side 2 are each that of a converter station that no line or side before names. The
/// rules and their order are this project's own.
#[tactic(auto, unfolding(crate::specs::Jobs::hvdc_job_of))]
pub fn read_hvdc(seeded: Seeded, bytes: &[u8]) -> Result<HvdcJob, JobFault>
    ensures job { JobGives result (hvdc_job_of bytes.now) }
    ensures total { IfOk result (λ hvdc. command_total hvdc.job.scripts ≤ max_commands) }
{
    let alloc = seeded.alloc;
    let mut scratch = Scratch::new(alloc);
    let tree = match Tree::from_slice(alloc, bytes, &mut scratch) {
        Ok(tree) => tree,
        Err(ByteFault::NotJson) => return Err(JobFault::BadJson),
        Err(ByteFault::Memory) => return Err(JobFault::Memory),
    };
    match read_root(seeded, &tree.root()) {
        Ok(hvdc) => Ok(hvdc),
        Err(ReadError::Memory) => Err(JobFault::Memory),
        Err(ReadError::Fault(fault)) => Err(JobFault::BadJob {
            place: fault.place,
            reason: fault.reason,
        }),
    }
}
