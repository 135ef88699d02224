// The bus view that was made last of a level.
ghost use Rattle.std.specs.Prelude.{◌≡◌, IfSome, IsTrue, None, if◌then◌else◌};
ghost use Rattle.grid_bench.specs.Shown.{LookSame};

use grid_busview::BusView;
use grid_ids::{Same, same_items};
use grid_level::{Level, Values};
use grid_shared::Shared;

/// A bus view with the watts that it was made of.
#[derive(Drop)]
pub(crate) struct Shown {
    /// The watts of each placed terminal, by rising node.
    pub(crate) powers: Values,
    pub(crate) view: Shared<BusView>,
}

impl Shown {
    /// The view, where it was made of these watts.
    pub(crate) fn under(&self, powers: &[i64]) -> Option<&Shared<BusView>>
        ensures view { IfSome result (λ view. view.now ≡ self.now.view) }
        ensures powers { IfSome result (λ _. self.now.powers ≡ powers.now) }
    {
        if same_items(self.powers.slice(), powers) {
            Some(&self.view)
        } else {
            None
        }
    }
}

/// Whether something is shown, and it is the same of both levels, which have the same ends.
pub(crate) fn shows_same(shown: &Option<Shown>, level: &Level, other: &Level) -> bool
    ensures { IsTrue result → LookSame level.now other.now }
{
    shown.is_some() && level.id().same(other.id()) && same_items(level.placed(), other.placed())
}

/// Keeps what is shown, or lets it go.
pub(crate) fn keep_where(shown: &mut Option<Shown>, stays: bool)
    ensures { shown.new ≡ (if stays then shown.old else None) }
{
    if !stays {
        *shown = None;
    }
}
