// Jobs with configured buses, run in an order.
ghost use Rattle.std.specs.Prelude.{◌≡◌, ◌≤◌, ◌<◌, [], All, IsTrue, IfOk, OnOk, Some, length, slice_get, option_map};
ghost use Rattle.grid_core.specs.History.{live, is_live};
ghost use Rattle.grid_structure.specs.Editing.{max_levels};
ghost use Rattle.grid_json.specs.Job.{max_workers};
ghost use Rattle.grid_report.specs.Histories.{steps_of, IsOrder};
ghost use Rattle.grid_configured.specs.Checks.{IsTranslatable};
ghost use Rattle.grid_configured.specs.Names.{IsConfiguredRequest};
ghost use Rattle.grid_configured.specs.Histories.{begun};
ghost use Rattle.grid_configured.specs.Reports.{replies_of, variant_view, variant_views, history_of, report_after};

use crate::outcome::{ConfiguredReplies, ConfiguredVariant, ConfiguredVariants, ConfiguredViews};
use crate::{ConfiguredNetwork, ConfiguredOutcome, ConfiguredWorld};
use grid_core::Script;
use grid_ids::{Duplicate, Id, Memory, Seq};
use grid_structure::Seeded;
use std::alloc::Global;

// Makes the steps of all scripts in an order, and gives their replies.
fn run(
    alloc: Global,
    world: &mut ConfiguredWorld,
    scripts: &[Script],
    order: &[u32],
) -> Result<ConfiguredReplies, Memory>
    requires start { world.old ≡ begun world.old.network (length scripts.now) }
    requires plain { All (All IsConfiguredRequest) scripts.now }
    requires order { IsOrder scripts.now order.now }
    ensures world { OnOk result (world.new ≡ history_of world.old.network scripts.now order.now) }
    ensures replies { IfOk result (λ replies. replies
        ≡ replies_of world.old.network (steps_of scripts.now order.now)) }
{
    let mut replies = Seq::empty(alloc);
    let mut cursors: Vec<usize> = vec![in alloc; 0; scripts.len()]?;
    for worker in order {
        let place = *worker as usize;
        let request = &scripts[place][cursors[place]];
        let reply = world.step(*worker, request)?;
        replies.push(reply)?;
        cursors[place] += 1;
    }
    Ok(replies)
}

// The view of each level in a live variant, by place.
fn level_views(alloc: Global, world: &ConfiguredWorld, name: &Id) -> Result<ConfiguredViews, Memory>
    requires live { IsTrue (is_live world.now.steps name.now) }
    requires few { length world.now.network.levels ≤ max_levels }
    ensures { IfOk result (λ views. views
        ≡ (variant_view world.now.network world.now.steps name.now).views) }
{
    let mut views = Seq::empty(alloc);
    for level in 0..world.network().levels.len() as u32 {
        let view = world.view(name, level)?;
        views.push(view)?;
    }
    Ok(views)
}

// The views of the live variant at a place, by byte order of names.
fn view_variant(
    alloc: Global,
    world: &ConfiguredWorld,
    place: u32,
) -> Result<ConfiguredVariant, Memory>
    requires place { place < length (live world.now.steps) }
    requires few { length world.now.network.levels ≤ max_levels }
    ensures { IfOk result (λ view. option_map (variant_view world.now.network world.now.steps)
        (slice_get (live world.now.steps) place) ≡ Some view) }
{
    let name = world.variant_name(place);
    let views = level_views(alloc, world, name)?;
    Ok(ConfiguredVariant {
        name: name.copy()?,
        views,
    })
}

// The views of all live variants, by byte order of names.
fn view_variants(alloc: Global, world: &ConfiguredWorld) -> Result<ConfiguredVariants, Memory>
    requires { length world.now.network.levels ≤ max_levels }
    ensures { IfOk result (λ views. views ≡ variant_views world.now.network world.now.steps) }
{
    let mut views = Seq::empty(alloc);
    for place in 0..world.variant_count() {
        let view = view_variant(alloc, world, place)?;
        views.push(view)?;
    }
    Ok(views)
}

// What came of a world's history, whose steps had these replies.
fn outcome(
    alloc: Global,
    world: ConfiguredWorld,
    replies: ConfiguredReplies,
    workers: u32,
) -> Result<ConfiguredOutcome, Memory>
    requires few { length world.network.levels ≤ max_levels }
    requires workers { workers ≡ world.workers }
    requires replies { replies ≡ replies_of world.network world.steps }
    ensures { IfOk result (λ outcome. outcome ≡ report_after world) }
{
    let views = view_variants(alloc, &world)?;
    Ok(ConfiguredOutcome {
        journal: world.into_journal(),
        replies,
        workers,
        views,
    })
}

/// Runs scripts on a network with configured buses, each of at most 32 workers' own, in an order in which each worker's
/// number stands as often as its script has commands, and gives what a report tells of it. All ids of the network and
/// of the commands are plain, the commands are those of networks with configured buses, and no fault is found in the
/// network.
pub fn run_configured(
    seeded: Seeded,
    network: ConfiguredNetwork,
    scripts: &[Script],
    order: &[u32],
) -> Result<ConfiguredOutcome, Memory>
    requires network { IsTranslatable network }
    requires plain { All (All IsConfiguredRequest) scripts.now }
    requires few { length scripts.now ≤ max_workers }
    requires order { IsOrder scripts.now order.now }
    ensures { IfOk result (λ outcome. outcome
        ≡ report_after (history_of network scripts.now order.now)) }
{
    let alloc = seeded.alloc;
    let workers = scripts.len() as u32;
    let mut world = ConfiguredWorld::start(seeded, network, workers)?;
    let replies = run(alloc, &mut world, scripts, order)?;
    outcome(alloc, world, replies, workers)
}
