// The law of what is printed and read again.
ghost use Rattle.grid_reading_back.specs.Laws.{ReadJobsReturn, PrintedJobsAreRead, SpelledJobsAreRead, ReadJobsAreReadable};

/// A printed job is read back as that job: its network, its listeners, the scripts of its workers and its order. That
/// holds of each job that was read, whose levels with configured buses are printed as the levels of nodes that they
/// were loaded as. It holds of each other one whose ids are ids, whose numbers fit 64 bits, whose network is sound,
/// which has no more listeners, workers and commands than a job may have, and whose order, if any, is one of its
/// scripts: of its text where its ids are UTF-8, and of all bytes that spell its JSON value, as those that `print_job`
/// gives.
#[tactic(auto, using(crate::proofs::Whole::spelled_back, crate::proofs::Texts::printed_back, crate::proofs::RoundTrips::read_jobs_return))]
pub fn printed_jobs_are_read()
    ensures returns { ReadJobsReturn }
    ensures printed { PrintedJobsAreRead }
    ensures spelled { SpelledJobsAreRead }
    ensures readable { ReadJobsAreReadable }
{}
