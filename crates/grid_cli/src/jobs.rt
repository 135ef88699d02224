// The kinds of jobs that forms read.
use crate::serving::ReadJob;
use grid_configured::{ConfiguredJob, read_configured};
use grid_contingencies::{ScreenJob, read_screen};
use grid_hvdc::{HvdcJob, read_hvdc};
use grid_json::{Job, JobFault, read_job};
use grid_structure::Seeded;

impl ReadJob for Job {
    ghost use Rattle.grid_json.specs.Whole.{job_of};
    ghost use Rattle.grid_cli.specs.Orders.{IsCounted};

    ghost job_of = { job_of };

    ghost IsReady = { IsCounted };

    fn read(seeded: Seeded, bytes: &[u8]) -> Result<Job, JobFault> {
        read_job(seeded, bytes)
    }
}

impl ReadJob for HvdcJob {
    ghost use Rattle.grid_hvdc.specs.Jobs.{hvdc_job_of};
    ghost use Rattle.grid_cli.specs.Orders.{IsScheduled};

    ghost job_of = { hvdc_job_of };

    ghost IsReady = { λ hvdc. IsScheduled hvdc.job };

    fn read(seeded: Seeded, bytes: &[u8]) -> Result<HvdcJob, JobFault> {
        read_hvdc(seeded, bytes)
    }
}

impl ReadJob for ScreenJob {
    ghost use Rattle.grid_contingencies.specs.Jobs.{screen_job_of};
    ghost use Rattle.grid_cli.specs.Orders.{IsScheduled};

    ghost job_of = { screen_job_of };

    ghost IsReady = { λ screened. IsScheduled screened.job };

    fn read(seeded: Seeded, bytes: &[u8]) -> Result<ScreenJob, JobFault> {
        read_screen(seeded, bytes)
    }
}

impl ReadJob for ConfiguredJob {
    ghost use Rattle.grid_configured.specs.Jobs.{configured_job_of};
    ghost use Rattle.grid_cli.specs.Configured.{IsRunnable};

    ghost job_of = { configured_job_of };

    ghost IsReady = { IsRunnable };

    fn read(seeded: Seeded, bytes: &[u8]) -> Result<ConfiguredJob, JobFault> {
        read_configured(seeded.alloc, bytes)
    }
}
