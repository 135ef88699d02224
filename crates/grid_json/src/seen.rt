// Sets of ids that were named before.
ghost use Rattle.std.specs.Prelude.{◌≡◌, [], ◌∷◌, ◌++◌, not, IfOk, OnOk, OnErr};
ghost use Rattle.grid_ids.specs.Name.{has_id};
ghost use Rattle.grid_json.specs.Seen.{Knows};

use grid_ids::{Duplicate, Id, Memory};
use std::alloc::Global;
use std::collections::BTreeSet;
use std::marker::Model;

/// Ids that a job has named so far, found in the time of the logarithm of their count, whatever they are. It is seen as
/// the list of them by byte order.
#[derive(Drop)]
pub struct SeenIds {
    ids: BTreeSet<Id>,
}

impl Model for SeenIds {
    ghost use Rattle.std.specs.Prelude.{List, ℕ};

    ghost Value = { List (List ℕ) };

    ghost view = { λ seen. seen.ids.keys };
}

impl SeenIds {
    /// No ids. It takes no memory.
    pub fn empty(alloc: Global) -> SeenIds
        ensures { result ≡ [] }
    {
        SeenIds {
            ids: BTreeSet::new(alloc),
        }
    }

    /// Whether the id is there. It takes no memory.
    pub fn has(&self, id: &Id) -> bool
        ensures { result ≡ has_id self.now id.now }
    {
        self.ids.contains(id)
    }

    /// Puts the id in, and tells whether it was not there. Where memory runs out all is as before.
    pub fn add(&mut self, id: &Id) -> Result<bool, Memory>
        ensures new { IfOk result (λ new. new ≡ not (has_id self.old id.now)) }
        ensures known { OnOk result (Knows self.new (self.old ++ id.now ∷ [])) }
        ensures same { OnErr result (self.new ≡ self.old) }
    {
        let name = id.copy()?;
        match self.ids.insert(name) {
            Ok(new) => Ok(new),
            Err(_) => Err(Memory),
        }
    }
}
