//! How a run ends.
ghost use Rattle.std.specs.Prelude.{◌≡◌, nat_lt};
ghost use Rattle.suite_run.specs.Run.{fault_status, final_status};
ghost use Rattle.suite_run.specs.Exit.{exit_code_of};

use cl_io::LineFault;

/// How a run ends.
#[derive(Clone, Copy, Debug, PartialEq, Eq)]
pub enum Status {
    /// The whole input was read and answered, and no line was refused.
    Done,
    /// The whole input was read and answered, and some line was refused.
    SomeRefused,
    /// The words are no command.
    BadWords,
    /// A file can't be begun.
    OpenFault,
    /// A file can't be read on.
    ReadFault,
    /// The output can't be written on.
    WriteFault,
    NoMemory,
    /// The files have more bytes than are read.
    InputTooLong,
}

impl Status {
    /// The exit status of a process that ends so.
    pub fn exit_code(self) -> u8
        ensures { result ≡ exit_code_of self }
    {
        match self {
            Status::Done => 0,
            Status::SomeRefused => 1,
            Status::BadWords => 2,
            Status::OpenFault => 3,
            Status::ReadFault => 4,
            Status::WriteFault => 5,
            Status::NoMemory => 6,
            Status::InputTooLong => 7,
        }
    }

    /// Of a run that read and answered the whole input, of which so many lines were refused.
    pub(crate) fn of_whole(refused: u64) -> Status
        ensures { result ≡ final_status (nat_lt 0 refused) }
    {
        if refused > 0 {
            Status::SomeRefused
        } else {
            Status::Done
        }
    }

    /// Of a run that a fault of its input stopped.
    pub(crate) fn of_fault(fault: LineFault) -> Status
        ensures { result ≡ fault_status fault }
    {
        match fault {
            LineFault::Begin => Status::OpenFault,
            LineFault::Read => Status::ReadFault,
            LineFault::InputTooLong => Status::InputTooLong,
            LineFault::NoMemory => Status::NoMemory,
        }
    }
}
