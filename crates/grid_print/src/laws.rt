// Laws of what is written.
ghost use Rattle.grid_print.specs.Laws.{NetworksAreRead, NetworkJobsAreRead};
ghost use Rattle.grid_print.specs.Loads.{NetworksAreLoaded};

/// The first pass over a network that is written gives the network again, before it is loaded: alone, and in the job of
/// that network.
#[tactic(auto, using(crate::proofs::RoundTrips::networks_are_read, crate::proofs::RoundTrips::network_jobs_are_read))]
pub fn networks_are_read()
    ensures networks { NetworksAreRead }
    ensures jobs { NetworkJobsAreRead }
{}

/// A sound network that is loaded from its draft is the network again.
#[tactic(auto, using(crate::proofs::NetworkLoad::networks_are_loaded))]
pub fn networks_are_loaded()
    ensures { NetworksAreLoaded }
{}
