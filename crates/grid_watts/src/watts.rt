// Watts of terminals, under what a variant lists. They are read for each view, which goes over the level anyway; where
// a variant lists none, the records alone are read.
ghost use Rattle.std.specs.Prelude.{◌≡◌, ◌^◌, pos, neg_ℤ, ◌≤ℤ◌, IfOk, IsTrue};
ghost use Rattle.grid_busview.specs.Views as views;
ghost use Rattle.grid_watts.specs.Watts as specs;
ghost use Rattle.grid_watts.specs.Shares.{share};
ghost use Rattle.grid_watts.specs.Ranges.{is_narrow};

use grid_busview::{record_watts, watts_of};
use grid_ids::{Id, Memory};
use grid_kinds::Injection;
use grid_level::{Level, Placed, Stand, Values};
use grid_powers::Powers;
use std::alloc::Global;

/// Whether it is a load, a generator or a battery.
#[tactic(auto, unfolding(crate::specs::Watts::is_powered, grid_busview::specs::Views::is_load, grid_busview::specs::Views::is_load_item, grid_busview::specs::Views::is_generation, grid_busview::specs::Views::is_generation_item))]
pub(crate) fn is_powered(stand: &Stand) -> bool
    ensures { result ≡ specs.is_powered stand.now }
{
    matches!(
        stand,
        Stand::Feeder(
            Injection::Load { .. } | Injection::Generator { .. } | Injection::Battery { .. }
        )
    )
}

/// The watts of what stands somewhere under an id, in W: the value that is listed, or else `p0` of a load and
/// `target_p` of a generator or a battery; 0 for other equipment. The list beside the records is this project's own.
/// It takes no memory.
pub fn watts_for(powers: &Powers, id: &Id, stand: &Stand) -> i64
    ensures watts { result ≡ specs.watts_for powers.now.listed id.now stand.now }
    ensures narrow { IsTrue (is_narrow result) }
{
    if is_powered(stand) {
        powers.value(id).unwrap_or(watts_of(stand))
    } else {
        0
    }
}

/// The watts of what stands at a node, in W. It takes no memory.
#[tactic(auto, unfolding(crate::specs::Watts::watts_at))]
pub fn watts_at(powers: &Powers, placed: &Placed) -> i64
    ensures { result ≡ specs.watts_at powers.now.listed placed.now }
{
    watts_for(powers, &placed.terminal.equipment, &placed.stand)
}

// The watts of a level's terminals, each looked up.
fn listed_watts(alloc: Global, level: &Level, powers: &Powers) -> Result<Values, Memory>
    ensures { IfOk result (λ values. values ≡ specs.level_watts powers.now.listed level.now) }
{
    let mut values = Values::empty(alloc);
    for placed in level.placed() {
        values.push(watts_at(powers, placed))?;
    }
    Ok(values)
}

/// The watts of a level's terminals, in W, one number per placed terminal by rising node. Where nothing is listed, no
/// id is looked up.
pub fn level_watts(alloc: Global, level: &Level, powers: &Powers) -> Result<Values, Memory>
    ensures { IfOk result (λ values. values ≡ specs.level_watts powers.now.listed level.now) }
{
    if powers.is_empty() {
        return record_watts(alloc, level);
    }
    listed_watts(alloc, level, powers)
}

/// What some watts add to the sum over all loads.
#[tactic(auto, unfolding(crate::specs::Shares::share, grid_busview::specs::Views::is_load, grid_busview::specs::Views::is_load_item))]
pub(crate) fn load_share(stand: &Stand, watts: i64) -> i128
    ensures share { result ≡ share views.is_load stand.now watts }
    ensures low { neg_ℤ (pos (2 ^ 63)) ≤ℤ result }
    ensures high { result ≤ℤ pos (2 ^ 63) }
{
    match stand {
        Stand::Feeder(Injection::Load { .. }) => i128::from(watts),
        _ => 0,
    }
}

/// What some watts add to the sum over all generators and batteries.
#[tactic(auto, unfolding(crate::specs::Shares::share, grid_busview::specs::Views::is_generation, grid_busview::specs::Views::is_generation_item))]
pub(crate) fn generation_share(stand: &Stand, watts: i64) -> i128
    ensures share { result ≡ share views.is_generation stand.now watts }
    ensures low { neg_ℤ (pos (2 ^ 63)) ≤ℤ result }
    ensures high { result ≤ℤ pos (2 ^ 63) }
{
    match stand {
        Stand::Feeder(Injection::Generator { .. } | Injection::Battery { .. }) => {
            i128::from(watts)
        }
        _ => 0,
    }
}
