// The ends of a branch, whatever it is.
ghost use Rattle.std.specs.Prelude.{◌≡◌, ◌∷◌, [], None, Some};
ghost use Rattle.grid_structure.specs.Sites.{branch_ends};

use crate::{Branch, End};

/// The ends of a branch, in the order of its sides: two, or three.
#[derive(Clone, Copy)]
pub struct BranchEnds<'a> {
    pub end1: &'a End,
    pub end2: &'a End,
    pub end3: Option<&'a End>,
}

impl Branch {
    /// The branch's ends, in the order of its sides.
    #[tactic(auto, unfolding(crate::specs::Sites::branch_ends))]
    pub fn ends(&self) -> BranchEnds<'_>
        ensures two { result.end3 ≡ None
            → branch_ends self.now ≡ result.end1.now ∷ result.end2.now ∷ [] }
        ensures three { (end : _) → result.end3 ≡ Some end
            → branch_ends self.now ≡ result.end1.now ∷ result.end2.now ∷ end.now ∷ [] }
    {
        match self {
            Branch::Line { end1, end2 } | Branch::TwoWindings { end1, end2, .. } => BranchEnds {
                end1,
                end2,
                end3: None,
            },
            Branch::ThreeWindings {
                end1,
                end2,
                end3,
                ..
            } => BranchEnds {
                end1,
                end2,
                end3: Some(end3),
            },
        }
    }
}
