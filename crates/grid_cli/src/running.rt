// Jobs, run in their order. Where a job gives no order, the list of its workers in turn is made, so that one loop makes
// the steps, with a cursor into each worker's script. That an order that was read is one of its scripts is known of
// each job, so the loop takes a worker's next command without a test. The report is written after the last step, from
// the journal and the views: running out of memory during the steps writes nothing.
ghost use Rattle.std.specs.Prelude.{◌≡◌, ◌++◌, ◌≤◌, ◌<◌, ◌^◌, All, length, map, IfOk, OnOk};
ghost use Rattle.grid_json.specs.Job.{max_workers};
ghost use Rattle.grid_report.specs.Histories as histories;
ghost use Rattle.grid_report.specs.Histories.{history_of, outcome_of, in_turn, chosen_order, IsOrder};
ghost use Rattle.grid_cli.specs.Orders.{IsScheduled, order_of};

use crate::views::variant_views;
use grid_core::{Request, Script, World};
use grid_events::Filters;
use grid_ids::{Memory, Seq};
use grid_json::{Job, Order};
use grid_report::Outcome;
use grid_structure::Structure;
use std::alloc::Global;

/// Puts a worker's number last, once for each of its commands.
fn push_turn(order: &mut Order, worker: u32, script: &[Request]) -> Result<(), Memory>
    ensures { OnOk result (order.new ≡ order.old ++ map (λ request. worker) script.now) }
{
    for _ in script {
        order.push(worker)?;
    }
    Ok(())
}

/// The first worker's commands, then the second's and so on.
fn in_turn(alloc: Global, scripts: &[Script]) -> Result<Order, Memory>
    requires { length scripts.now ≤ max_workers }
    ensures { IfOk result (λ order. order ≡ in_turn scripts.now) }
{
    let mut order = Seq::empty(alloc);
    for (worker, script) in scripts.iter().enumerate() {
        push_turn(&mut order, worker as u32, script.slice())?;
    }
    Ok(order)
}

/// Makes the steps of all scripts in an order.
fn run(
    alloc: Global,
    network: Structure,
    scripts: &[Script],
    order: &[u32],
) -> Result<World, Memory>
    requires few { length scripts.now ≤ max_workers }
    requires order { IsOrder scripts.now order.now }
    ensures { IfOk result (λ world. world ≡ history_of network scripts.now order.now) }
{
    let mut world = World::start(alloc, network, scripts.len() as u32)?;
    let mut cursors: Vec<usize> = vec![in alloc; 0; scripts.len()]?;
    for worker in order {
        let place = *worker as usize;
        let request = &scripts[place][cursors[place]];
        world.enter(*worker, request)?;
        cursors[place] += 1;
    }
    Ok(world)
}

/// The order that is given, or else the workers in turn.
pub(crate) fn chosen_order(
    alloc: Global,
    order: Option<Order>,
    scripts: &[Script],
) -> Result<Order, Memory>
    requires { length scripts.now ≤ max_workers }
    ensures { IfOk result (λ found. found ≡ chosen_order scripts.now order) }
{
    match order {
        Some(order) => Ok(order),
        None => in_turn(alloc, scripts),
    }
}

/// What came of a world's history, with these filters. What the world holds beside its journal is left as it is to the
/// program's end, which gives back all at once.
pub(crate) fn outcome(
    alloc: Global,
    world: World,
    workers: u32,
    filters: Filters,
) -> Result<Outcome, Memory>
    requires { workers ≡ world.workers }
    ensures outcome { IfOk result (λ outcome. outcome ≡ outcome_of world filters) }
    ensures few { IfOk result (λ outcome. length outcome.views < 2 ^ 32) }
    ensures each { IfOk result (λ outcome. All (λ v. length v.views < 2 ^ 32) outcome.views) }
{
    let views = variant_views(alloc, &world)?;
    Ok(Outcome {
        journal: world.leave(),
        workers,
        views,
        filters,
    })
}

/// The world after the steps of all scripts, in the order that is given or else the workers in turn.
fn replayed(
    alloc: Global,
    network: Structure,
    scripts: &[Script],
    order: Option<Order>,
) -> Result<World, Memory>
    requires few { length scripts.now ≤ max_workers }
    requires order { IsOrder scripts.now (histories.chosen_order scripts.now order) }
    ensures { IfOk result (λ world. world
        ≡ history_of network scripts.now (histories.chosen_order scripts.now order)) }
{
    let order = chosen_order(alloc, order, scripts)?;
    run(alloc, network, scripts, order.slice())
}

/// The world after a job's commands, made in its order.
#[tactic(auto, unfolding(crate::specs::Orders::order_of))]
pub(crate) fn run_in_order(alloc: Global, job: Job) -> Result<World, Memory>
    requires { IsScheduled job }
    ensures { IfOk result (λ world. world ≡ history_of job.network job.scripts (order_of job)) }
{
    let Job {
        network,
        scripts,
        order,
        ..
    } = job;
    replayed(alloc, network, scripts.slice(), order)
}

/// What comes of a job that is run in its order.
#[tactic(auto, unfolding(crate::specs::Orders::order_of))]
pub fn run_job(alloc: Global, job: Job) -> Result<Outcome, Memory>
    requires { IsScheduled job }
    ensures outcome { IfOk result (λ outcome. outcome
        ≡ outcome_of (history_of job.network job.scripts (order_of job)) job.filters) }
    ensures few { IfOk result (λ outcome. length outcome.views < 2 ^ 32) }
    ensures each { IfOk result (λ outcome. All (λ v. length v.views < 2 ^ 32) outcome.views) }
{
    let Job {
        network,
        filters,
        scripts,
        order,
    } = job;
    let world = replayed(alloc, network, scripts.slice(), order)?;
    outcome(alloc, world, scripts.len() as u32, filters)
}
