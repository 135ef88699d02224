// The steps of a journal with their places and numbers.
ghost use Rattle.std.specs.Prelude.{◌≡◌, ◌==◌, suc, length, map, take, IfOk};
ghost use Rattle.std.specs.List.{count_by};
ghost use Rattle.grid_jsonl.specs.Borrowed.{step_in};
ghost use Rattle.grid_jsonl.specs.Steps as those;

use crate::step::Step;
use grid_core::Entry;
use grid_ids::Memory;
use std::alloc::Global;

// The number of a worker's next step behind the first steps of a journal. The scan ends at the worker's last one, so
// over a whole journal it passes each step at most once for each worker.
fn number_behind(journal: &[Entry], steps: &[Step<'_>], worker: u32) -> u64
    requires { map step_in steps.now ≡ take (length steps.now) (those.steps journal.now) }
    ensures { result ≡ suc (count_by (λ e. e.worker == worker) (take (length steps.now) journal.now)) }
{
    let mut place = steps.len();
    while place > 0 {
        place -= 1;
        if journal[place].worker == worker {
            return steps[place].number + 1;
        }
    }
    1
}

/// The steps of a journal.
pub(crate) fn steps_of<'a>(alloc: Global, journal: &'a [Entry]) -> Result<Vec<Step<'a>>, Memory>
    ensures { IfOk result (λ steps. map step_in steps.items ≡ those.steps journal.now) }
{
    let mut steps = Vec::new(alloc);
    for (place, entry) in journal.iter().enumerate() {
        let number = number_behind(journal, steps.as_slice(), entry.worker);
        steps.push(Step {
            place: place as u64,
            number,
            entry,
        })?;
    }
    Ok(steps)
}
