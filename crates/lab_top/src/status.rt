//! Program: exit statuses.

ghost use Rattle.std.specs.Prelude.{◌≡◌};
ghost use Rattle.lab_top.specs.Numbers.{exit_status};
ghost use Rattle.lab_top.specs.inner.Steps.{status_if};

use front_end::Status;

/// How a run of the lab ends; its number is the program's exit status.
#[derive(Clone, Copy, Debug, PartialEq, Eq)]
pub enum LabStatus {
    /// The answer was written.
    Done,
    /// The answer was written, and it says that an assertion was violated or not watched.
    Failed,
    /// The arguments were invalid; the usage line was written.
    Usage,
    /// The source was refused; the line of its fault was written.
    Refused,
    /// Reading failed.
    ReadFault,
    /// Writing failed.
    WriteFault,
    /// Memory ran out.
    NoMemory,
}

impl LabStatus {
    /// The exit status.
    pub fn number(self) -> u8
        ensures { result ≡ exit_status self }
    {
        match self {
            LabStatus::Done => 0,
            LabStatus::Failed => 8,
            LabStatus::Usage => 1,
            LabStatus::Refused => 2,
            LabStatus::ReadFault => 3,
            LabStatus::WriteFault => 4,
            LabStatus::NoMemory => 5,
        }
    }

    /// The status of a call that ended so; if it is done, whether it is a failure.
    pub(crate) fn of(ended: Status, fails: bool) -> LabStatus
        ensures { result ≡ status_if fails ended }
    {
        match ended {
            Status::Done if fails => LabStatus::Failed,
            Status::Done => LabStatus::Done,
            Status::Usage => LabStatus::Usage,
            Status::Refused => LabStatus::Refused,
            Status::ReadFault => LabStatus::ReadFault,
            Status::WriteFault => LabStatus::WriteFault,
            Status::NoMemory => LabStatus::NoMemory,
        }
    }
}
