//! A printed job reads back as that job.
#![tactic(auto)]

mod laws;

pub use laws::printed_jobs_are_read;
