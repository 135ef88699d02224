// Draws, one after the other.
ghost use Rattle.std.specs.Prelude.{◌≡◌, ◌≤◌};
ghost use Rattle.grid_make.specs.Draws.{next};

use std::marker::Model;

/// A generator of draws, seen as its last draw, or at first as its seed.
#[derive(Drop)]
pub struct Draws {
    last: u32,
}

impl Model for Draws {
    ghost use Rattle.std.specs.Prelude.{ℕ, ◌<◌};

    ghost Value = { ℕ };

    ghost view = { λ draws. draws.last };

    ghost invariant = { λ draws. draws.last < 65537 };
}

impl Draws {
    /// The generator with this seed.
    pub fn new(seed: u32) -> Draws
        requires { seed ≤ 65536 }
        ensures { result ≡ seed }
    {
        Draws { last: seed }
    }

    /// The next draw.
    #[tactic(auto, unfolding(crate::specs::Draws::next))]
    pub fn next(&mut self) -> u32
        ensures draw { result ≡ next self.old }
        ensures last { self.new ≡ next self.old }
    {
        self.last = (75 * self.last + 74) % 65_537;
        self.last
    }
}
