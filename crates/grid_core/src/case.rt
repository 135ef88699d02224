// What a variant stands at, apart from its world.
ghost use Rattle.std.specs.Prelude.{◌≡◌, IfOk};
ghost use Rattle.grid_core.specs.Cases.{case_of};

use crate::World;
use grid_ids::{Duplicate, Id, Memory};
use grid_powers::Powers;
use grid_states::States;
use grid_structure::Structure;
use grid_watts::collected;

/// What a variant stands at: the structure, what the variant has of each level, both flags of each switch and by node
/// the watts that it lists, with the sums over the structure, and these watts by id.
#[derive(Drop)]
pub struct Case {
    pub structure: Structure,
    pub states: States,
    pub powers: Powers,
}

impl World {
    /// What a variant stands at, in copies of its own; None exactly where the name is not live.
    #[tactic(auto, unfolding(crate::specs::Cases::case_of, crate::specs::Cases::case_seen))]
    pub fn case(&self, name: &Id) -> Result<Option<Case>, Memory>
        ensures { IfOk result (λ case. case ≡ case_of self.now.origin self.now.steps name.now) }
    {
        if !self.is_live(name) {
            return Ok(None);
        }
        let alloc = self.allocator();
        self.keeps();
        let states = self.states_in(name).copy()?;
        let structure = self.structure().copy()?;
        let powers = collected(alloc, &structure, &states)?;
        Ok(Some(Case {
            structure,
            states,
            powers,
        }))
    }
}
