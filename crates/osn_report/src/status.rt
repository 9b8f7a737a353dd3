//! How a run of the program ended, as a number.
ghost use Rattle.std.specs.Prelude.{◌≡◌};
ghost use Rattle.osn_report.specs.Status.{status_code};

/// How a run of the program ended.
#[derive(Clone, Copy, Debug, PartialEq, Eq, Hash)]
pub enum Status {
    /// All was done, or help was asked for and shown.
    Done,
    /// The input was refused.
    Refused,
    /// An argument is wrong.
    Misused,
    /// A read failed, or a file could not be opened, or is kept by another run of the program.
    ReadFault,
    /// A write failed.
    WriteFault,
    /// Standard output failed, and that was not reported yet: `end_output` does that.
    Unwritten,
    /// Memory ran out.
    NoMemory,
}

impl Status {
    /// Returns the status number of the program.
    pub fn code(self) -> u8
        ensures { result ≡ status_code self }
    {
        match self {
            Status::Done => 0,
            Status::Refused => 1,
            Status::Misused => 2,
            Status::ReadFault | Status::WriteFault | Status::Unwritten => 3,
            Status::NoMemory => 4,
        }
    }
}
