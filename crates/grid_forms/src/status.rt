// How a call ends.
ghost use Rattle.std.specs.Prelude.{◌≡◌};
ghost use Rattle.grid_forms.specs.Exits.{exit_number};

use grid_json::{JobFault, Place, Reason};

/// How a run ends. The numbers are the program's exit statuses.
#[derive(Debug, Drop)]
pub enum Status {
    /// 0: the output was written whole.
    Done,
    /// 2: the words are no form. Nothing was read.
    Usage,
    /// 3: the source failed. Nothing was written.
    ReadFault,
    /// 4: the input has more than 33,554,432 bytes. Nothing was written.
    TooLong,
    /// 5: the input is no JSON. Nothing was written.
    BadJson,
    /// 6: the input is JSON, but no job: its first fault, and where that stands. Nothing was written.
    BadJob { place: Place, reason: Reason },
    /// 7: the sink failed. A front of the output was written.
    WriteFault,
    /// 8: out of memory. A front of the output was written, or nothing.
    NoMemory,
}

/// The status that says why bytes are no job.
impl From<JobFault> for Status {
    ghost use Rattle.std.specs.Prelude.{◌≡◌};
    ghost use Rattle.grid_forms.specs.Faults.{status_for};

    ghost from_gives = { λ fault status. status ≡ status_for fault };

    fn from(fault: JobFault) -> Status {
        match fault {
            JobFault::BadJson => Status::BadJson,
            JobFault::BadJob { place, reason } => Status::BadJob { place, reason },
            JobFault::Memory => Status::NoMemory,
        }
    }
}

impl Status {
    /// The program's exit status. The numbers are this project's own.
    pub fn number(&self) -> u8
        ensures { result ≡ exit_number self.now }
    {
        match self {
            Status::Done => 0,
            Status::Usage => 2,
            Status::ReadFault => 3,
            Status::TooLong => 4,
            Status::BadJson => 5,
            Status::BadJob { .. } => 6,
            Status::WriteFault => 7,
            Status::NoMemory => 8,
        }
    }
}
