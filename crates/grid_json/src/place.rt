// Where in a job a fault stands.
ghost use Rattle.std.specs.Prelude.{List, ℕ, string_bytes};

use grid_ids::Memory;
use std::alloc::Global;
use std::marker::Model;

/// Where a fault stands: member names and positions, each after `/`.
#[derive(Debug, Drop)]
pub struct Place {
    text: String,
}

impl Model for Place {
    ghost Value = { List ℕ };

    ghost view = { λ p. string_bytes p.text };
}

impl Place {
    ghost use Rattle.std.specs.Prelude.{◌≡◌, [], ◌∷◌, ◌++◌, IfOk};

    pub fn text(&self) -> &str
        ensures { result.now ≡ self.now }
    {
        self.text.as_str()
    }

    pub fn root(alloc: Global) -> Place
        ensures { result ≡ [] }
    {
        Place {
            text: String::new(alloc),
        }
    }

    /// The place with this text.
    pub fn new(alloc: Global, text: &str) -> Result<Place, Memory>
        ensures { IfOk result (λ p. p ≡ text.now) }
    {
        Ok(Place {
            text: String::from_str(alloc, text)?,
        })
    }

    /// The place with one more step in front.
    pub fn under(self, alloc: Global, name: &str) -> Result<Place, Memory>
        ensures { IfOk result (λ p. p ≡ 47 ∷ (name.now ++ self)) }
    {
        let mut text = String::from_str(alloc, "/")?;
        text.push_str(name)?;
        text.push_str(self.text.as_str())?;
        Ok(Place { text })
    }
}
