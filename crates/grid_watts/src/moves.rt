// A list of watts and its sums, changed together.
ghost use Rattle.std.specs.Prelude.{◌≡◌, ◌^◌, pos, neg_ℤ, ◌+ℤ◌, ◌≤ℤ◌, OnOk, OnErr, option_map, IsTrue};
ghost use Rattle.grid_watts.specs.Ranges.{HasRoom, is_narrow};
ghost use Rattle.grid_watts.specs.Watts as specs;
ghost use Rattle.grid_watts.specs.Moves.{gained, taken, lost, set_to};

use crate::watts::{generation_share, load_share, watts_at, watts_for};
use grid_ids::{Id, Memory};
use grid_level::{Placed, Stand};
use grid_powers::Powers;

// The first number without the second.
pub(crate) fn less(a: i128, b: i128) -> i128
    requires a_low { neg_ℤ (pos (2 ^ 63)) ≤ℤ a }
    requires a_high { a ≤ℤ pos (2 ^ 63) }
    requires b_low { neg_ℤ (pos (2 ^ 63)) ≤ℤ b }
    requires b_high { b ≤ℤ pos (2 ^ 63) }
    ensures is { result ≡ a +ℤ neg_ℤ b }
    ensures low { neg_ℤ (pos (2 ^ 64)) ≤ℤ result }
    ensures high { result ≤ℤ pos (2 ^ 64) }
{
    a - b
}

// The number with the other sign.
fn negated(a: i128) -> i128
    requires low { neg_ℤ (pos (2 ^ 63)) ≤ℤ a }
    requires high { a ≤ℤ pos (2 ^ 63) }
    ensures is { result ≡ neg_ℤ a }
    ensures low { neg_ℤ (pos (2 ^ 63)) ≤ℤ result }
    ensures high { result ≤ℤ pos (2 ^ 63) }
{
    -a
}

/// Adds the watts of a new injection to the sums. It takes no memory.
#[tactic(auto, unfolding(crate::specs::Moves::gained))]
pub fn gain(powers: &mut Powers, id: &Id, stand: &Stand)
    requires { HasRoom powers.old }
    ensures moved { powers.new ≡ gained id.now stand.now powers.old }
    ensures narrow { IsTrue (is_narrow (specs.watts_for powers.old.listed id.now stand.now)) }
{
    let watts = watts_for(powers, id, stand);
    powers.shift(load_share(stand, watts), generation_share(stand, watts));
}

// Takes the watts of what stands at a node out of the sums.
#[tactic(auto, unfolding(crate::specs::Moves::taken))]
fn take(powers: &mut Powers, placed: &Placed)
    requires { HasRoom powers.old }
    ensures { powers.new ≡ taken placed.now powers.old }
{
    let watts = watts_at(powers, placed);
    powers.shift(
        negated(load_share(&placed.stand, watts)),
        negated(generation_share(&placed.stand, watts)),
    );
}

/// Takes the watts of removed equipment out of the sums, where it was found as a load, a generator or a battery, and
/// the equipment out of the list. It takes no memory.
#[tactic(auto, unfolding(crate::specs::Moves::lost, crate::specs::Moves::taken))]
pub fn lose(powers: &mut Powers, id: &Id, found: Option<&Placed>)
    requires { HasRoom powers.old }
    ensures { powers.new ≡ lost id.now (option_map (λ p. p.now) found.entry) powers.old }
{
    if let Some(placed) = found {
        take(powers, placed);
    }
    powers.forget(id);
}

/// Gives a load, a generator or a battery of this id these watts, in W. Where memory runs out all is as before.
#[tactic(auto, unfolding(crate::specs::Moves::set_to, crate::specs::Shares::set_part))]
pub fn set(powers: &mut Powers, id: Id, placed: &Placed, watts: i64) -> Result<(), Memory>
    requires { HasRoom powers.old }
    ensures ok { OnOk result (powers.new ≡ set_to id placed.now watts powers.old) }
    ensures err { OnErr result (powers.new ≡ powers.old) }
    ensures narrow { IsTrue (is_narrow watts) }
{
    let former = watts_at(powers, placed);
    let stand = &placed.stand;
    let load = less(load_share(stand, watts), load_share(stand, former));
    let generation = less(
        generation_share(stand, watts),
        generation_share(stand, former),
    );
    powers.put(id, watts)?;
    powers.shift(load, generation);
    Ok(())
}
