// The law of the made network.
ghost use Rattle.grid_make.specs.MadeNetwork.{MadeEditsAreAccepted};

/// No edit of a made network is refused, for any seed and each size from 1 to 1,000.
#[tactic(auto, using(crate::proofs::LinesMade::made_edits_are_accepted))]
pub fn made_edits_are_accepted()
    ensures { MadeEditsAreAccepted }
{}
