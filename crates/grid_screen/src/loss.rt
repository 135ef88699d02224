//! Which findings are losses.
ghost use Rattle.std.specs.Prelude.{◌≡◌, nat_lt};
ghost use Rattle.grid_screen.specs.Found as found;
ghost use Rattle.grid_screen.specs.Found.{has_losses, is_some_watts};

use crate::{Figures, Finding, Losses};

// Whether there are watts.
fn is_some(watts: i128) -> bool
    ensures { result ≡ is_some_watts watts }
{
    watts != 0
}

// Whether watts are lost.
#[tactic(auto, unfolding(crate::specs::Found::has_losses))]
fn loses(losses: &Losses) -> bool
    ensures { result ≡ has_losses losses.now }
{
    is_some(losses.load)
        || is_some(losses.generation)
        || is_some(losses.unconnected_load)
        || is_some(losses.unconnected_generation)
}

/// Whether a finding is a loss, where these were the figures before: an id is amiss, watts are lost or unconnected, or
/// there are more components than before. Watts that cancel are none. The rule is this project's own.
#[tactic(auto, unfolding(crate::specs::Found::is_loss))]
pub fn is_loss(before: &Figures, finding: &Finding) -> bool
    ensures { result ≡ found.is_loss before.now finding.now }
{
    match finding {
        Finding::UnknownId(_) => true,
        Finding::NoBreaker(_) => true,
        Finding::Effect { after, losses, .. } => {
            loses(losses) || before.components < after.components
        }
    }
}
