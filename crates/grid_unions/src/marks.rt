// Marks at the places of a list.
ghost use Rattle.std.specs.Prelude.{◌≡◌, ℕ, ◌<◌, if◌then◌else◌, length, All};
ghost use Rattle.grid_unions.specs.Halves.{is_marked, is_gone};
ghost use Rattle.grid_unions.specs.Sweep.{is_among};

use crate::Change;
use grid_ids::Seq;

// Gives places this mark.
fn mark_places(marks: &mut Seq<bool>, places: &[u32], mark: bool)
    requires { All (λ place. place < length marks.old) places.now }
    ensures long { length marks.new ≡ length marks.old }
    ensures marked { (x : ℕ) → is_marked marks.new x
        ≡ (if is_among places.now x then mark else is_marked marks.old x) }
{
    for place in places {
        marks.set(*place as usize, mark);
    }
}

/// Gives all places that are gone in some change this mark.
pub(crate) fn mark_gone(marks: &mut Seq<bool>, changes: &[Change], mark: bool)
    requires { All (λ change. All (λ place. place < length marks.old) change.gone) changes.now }
    ensures long { length marks.new ≡ length marks.old }
    ensures marked { (x : ℕ) → is_marked marks.new x
        ≡ (if is_gone changes.now x then mark else is_marked marks.old x) }
{
    for change in changes {
        mark_places(marks, change.gone.slice(), mark);
    }
}
