// By what the sums of a variant change.
ghost use Rattle.std.specs.Prelude.{◌≡◌};
ghost use Rattle.grid_states.specs.Sums.{taken, IsSmall};

/// By how much the sums of a variant grow, in W.
#[derive(Clone, Copy, Debug)]
pub struct Shift {
    pub load: i128,
    pub generation: i128,
}

/// The sum that a terminal's watts are part of.
#[derive(Clone, Copy, Debug)]
pub enum Sum {
    /// That of all loads.
    Load,
    /// That of all generators and batteries.
    Generation,
}

/// The watts that a load, a generator or a battery has by its record, in W, and the sum that they are part of.
#[derive(Clone, Copy, Debug)]
pub struct Counted {
    pub sum: Sum,
    pub watts: i64,
}

impl Counted {
    /// What the sums lose where these watts go.
    pub fn loss(self) -> Shift
        ensures shift { result ≡ taken self.sum self.watts }
        ensures small { IsSmall result }
    {
        loss(self.sum, self.watts)
    }
}

// What the sums lose where some watts of one of them go.
#[tactic(auto, unfolding(crate::specs::Sums::taken))]
pub(crate) fn loss(sum: Sum, watts: i64) -> Shift
    ensures shift { result ≡ taken sum watts }
    ensures small { IsSmall result }
{
    let less = -i128::from(watts);
    match sum {
        Sum::Load => Shift {
            load: less,
            generation: 0,
        },
        Sum::Generation => Shift {
            load: 0,
            generation: less,
        },
    }
}
