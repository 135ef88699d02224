// How many buses a network has, and their sums, as outages change them.
ghost use Rattle.std.specs.Prelude.{◌≡◌, ◌+◌, ◌<◌, ◌+ℤ◌, [], length, map, All, IfOk};
ghost use Rattle.std.specs.List.Sorted.{IsStrictlyIncreasing};
ghost use Rattle.grid_figures.specs.Figures.{total_sum};
ghost use Rattle.grid_figures.specs.Outages.{sums_before};
ghost use Rattle.grid_figures.specs.Networks.{AreTotals};

use crate::ChangedSums;
use crate::layout::narrow;
use grid_ids::{Memory, Seq};
use grid_unions::Sums;

/// How many buses there are, and their sums, in W.
#[derive(Clone, Copy)]
pub(crate) struct Totals {
    pub buses: u32,
    pub load: i128,
    pub generation: i128,
}

// A sum with one more. It is out of memory, too, where it would not fit its type.
fn plus(sum: i128, more: i128) -> Result<i128, Memory>
    ensures { IfOk result (λ new. new ≡ sum +ℤ more) }
{
    match sum.checked_add(more) {
        Some(new) => Ok(new),
        None => Err(Memory),
    }
}

// A sum of which one is taken away. It is out of memory, too, where it would not fit its type.
fn minus(sum: i128, less: i128) -> Result<i128, Memory>
    ensures { IfOk result (λ new. new +ℤ less ≡ sum) }
{
    match sum.checked_sub(less) {
        Some(new) => Ok(new),
        None => Err(Memory),
    }
}

// With the sums of one bus more.
fn add_sums(total: Sums, bus: &Sums) -> Result<Sums, Memory>
    ensures load { IfOk result (λ new. new.load ≡ total.load +ℤ bus.now.load) }
    ensures generation { IfOk result (λ new. new.generation ≡ total.generation +ℤ bus.now.generation) }
{
    Ok(Sums {
        load: plus(total.load, bus.load)?,
        generation: plus(total.generation, bus.generation)?,
    })
}

// The sums over all of these buses.
fn sum_all(sums: &[Sums]) -> Result<Sums, Memory>
    ensures load { IfOk result (λ total. total.load ≡ total_sum (λ s. s.load) sums.now) }
    ensures generation { IfOk result (λ total. total.generation
        ≡ total_sum (λ s. s.generation) sums.now) }
{
    let mut total = Sums {
        load: 0,
        generation: 0,
    };
    for bus in sums {
        total = add_sums(total, bus)?;
    }
    Ok(total)
}

// How many buses there are with others in place of some.
fn exchange_buses(buses: u32, old: usize, new: usize) -> Result<u32, Memory>
    ensures { IfOk result (λ count. count + old ≡ buses + new) }
{
    match buses.checked_sub(narrow(old)?) {
        Some(rest) => match rest.checked_add(narrow(new)?) {
            Some(count) => Ok(count),
            None => Err(Memory),
        },
        None => Err(Memory),
    }
}

// The totals with other buses in place of some.
fn exchange(totals: Totals, old: &[Sums], new: &[Sums]) -> Result<Totals, Memory>
    ensures buses { IfOk result (λ now. now.buses + length old.now ≡ totals.buses + length new.now) }
    ensures load { IfOk result (λ now. (now.load +ℤ total_sum (λ s. s.load) old.now)
        ≡ (totals.load +ℤ total_sum (λ s. s.load) new.now)) }
    ensures generation { IfOk result (λ now. (now.generation +ℤ total_sum (λ s. s.generation) old.now)
        ≡ (totals.generation +ℤ total_sum (λ s. s.generation) new.now)) }
{
    let less = sum_all(old)?;
    let more = sum_all(new)?;
    Ok(Totals {
        buses: exchange_buses(totals.buses, old.len(), new.len())?,
        load: plus(minus(totals.load, less.load)?, more.load)?,
        generation: plus(minus(totals.generation, less.generation)?, more.generation)?,
    })
}

/// The totals of the buses that are kept.
pub(crate) fn total_kept(kept: &[Seq<Sums>]) -> Result<Totals, Memory>
    ensures { IfOk result (AreTotals (sums_before kept.now [] (length kept.now))) }
{
    let mut totals = Totals {
        buses: 0,
        load: 0,
        generation: 0,
    };
    for sums in kept {
        totals = exchange(totals, &[], sums.slice())?;
    }
    Ok(totals)
}

/// The totals where these levels are changed.
pub(crate) fn total_under(
    kept: &[Seq<Sums>],
    whole: Totals,
    levels: &[ChangedSums],
) -> Result<Totals, Memory>
    requires rising { IsStrictlyIncreasing (map (λ c. c.level) levels.now) }
    requires levels { All (λ c. c.level < length kept.now) levels.now }
    requires whole { AreTotals (sums_before kept.now [] (length kept.now)) whole }
    ensures { IfOk result (AreTotals (sums_before kept.now levels.now (length kept.now))) }
{
    let mut totals = whole;
    for changed in levels {
        totals = exchange(
            totals,
            kept[changed.level as usize].slice(),
            changed.sums.slice(),
        )?;
    }
    Ok(totals)
}
