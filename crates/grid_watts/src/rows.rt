// Watts of terminals, under the row of their level in a variant. A view merges the row with the level's terminals,
// both by rising node; nothing is searched.
ghost use Rattle.std.specs.Prelude.{◌≡◌, ◌<◌, List, IfOk, IsTrue, length};
ghost use Rattle.grid_busview.specs.Views as views;
ghost use Rattle.grid_powers.specs.Listed.{Listed};
ghost use Rattle.grid_states.specs.Rows.{pairs_at};
ghost use Rattle.grid_states.specs.Sums.{IsSmall};
ghost use Rattle.grid_watts.specs.Watts as specs;
ghost use Rattle.grid_watts.specs.Nodes as nodes;
ghost use Rattle.grid_watts.specs.Ranges.{is_narrow};

use crate::merge::next_watts;
use crate::moves::less;
use crate::watts::{generation_share, is_powered, load_share};
use grid_busview::{record_watts, watts_of};
use grid_ids::Memory;
use grid_kinds::Injection;
use grid_level::{Level, Placed, Stand, Values};
use grid_states::{Counted, NodeWatts, Shift, States, Sum};
use std::alloc::Global;

/// The watts of a level's terminals, in W, one number per placed terminal by rising node, under the row of the level.
/// Where nothing is listed, the records alone are read.
pub fn row_watts(alloc: Global, level: &Level, row: &[NodeWatts]) -> Result<Values, Memory>
    ensures { (listed : Listed) → row.now ≡ nodes.listed_row listed level.now
        → IfOk result (λ values. values ≡ specs.level_watts listed level.now) }
{
    if row.is_empty() {
        return record_watts(alloc, level);
    }
    merged(alloc, level, row)
}

// The watts of a level's terminals, of which some are listed.
fn merged(alloc: Global, level: &Level, row: &[NodeWatts]) -> Result<Values, Memory>
    ensures { (listed : Listed) → row.now ≡ nodes.listed_row listed level.now
        → IfOk result (λ values. values ≡ specs.level_watts listed level.now) }
{
    level.keeps();
    let mut values = Values::empty(alloc);
    let mut left = row;
    for placed in level.placed() {
        let (watts, rest) = next_watts(placed, left);
        values.push(watts)?;
        left = rest;
    }
    Ok(values)
}

/// The watts of what stands at a node of a level, in W, in a variant. It takes no memory.
#[tactic(auto, unfolding(crate::specs::Nodes::row_watts_at))]
pub fn watts_in(states: &States, level: u32, placed: &Placed) -> i64
    requires { level < length states.now.opened }
    ensures watts { result ≡ nodes.row_watts_at (pairs_at states.now.watts level) placed.now }
    ensures narrow { IsTrue (is_narrow result) }
{
    if is_powered(&placed.stand) {
        states
            .watts(level, placed.node)
            .unwrap_or(watts_of(&placed.stand))
    } else {
        0
    }
}

/// What the sums gain by the record of what stands somewhere: nothing where it is no load, generator or battery.
#[tactic(auto, unfolding(crate::specs::Nodes::gain))]
pub fn gain_of(stand: &Stand) -> Shift
    ensures gain { result ≡ nodes.gain stand.now }
    ensures small { IsSmall result }
    ensures narrow { IsTrue (is_narrow (views.stand_watts stand.now)) }
{
    let watts = watts_of(stand);
    Shift {
        load: load_share(stand, watts),
        generation: generation_share(stand, watts),
    }
}

/// By what the sums change where something that has the former watts gets others.
#[tactic(auto, unfolding(crate::specs::Nodes::change))]
pub fn change_of(stand: &Stand, former: i64, watts: i64) -> Shift
    ensures change { result ≡ nodes.change stand.now former watts }
    ensures small { IsSmall result }
    ensures narrow { IsTrue (is_narrow watts) }
{
    Shift {
        load: less(load_share(stand, watts), load_share(stand, former)),
        generation: less(
            generation_share(stand, watts),
            generation_share(stand, former),
        ),
    }
}

/// What a load, a generator or a battery counts by its record; None exactly where it is none.
#[tactic(auto, unfolding(crate::specs::Nodes::counted, grid_busview::specs::Views::is_load, grid_busview::specs::Views::is_load_item, grid_busview::specs::Views::is_generation, grid_busview::specs::Views::is_generation_item))]
pub fn counted(stand: &Stand) -> Option<Counted>
    ensures { result ≡ nodes.counted stand.now }
{
    let watts = watts_of(stand);
    match stand {
        Stand::Feeder(Injection::Load { .. }) => Some(Counted {
            sum: Sum::Load,
            watts,
        }),
        Stand::Feeder(Injection::Generator { .. } | Injection::Battery { .. }) => Some(Counted {
            sum: Sum::Generation,
            watts,
        }),
        _ => None,
    }
}
