ghost use Rattle.std.specs.Prelude.{◌≡◌};
ghost use Rattle.hare.specs.Codes.{code_of};

/// How a run ended; `code` is the program's exit status.
#[derive(Clone, Copy, Debug, PartialEq, Eq)]
pub enum Status {
    /// The run ended, and every write succeeded.
    Done,
    /// A step was refused; no module is replaced.
    StepRefused,
    /// The words are not good.
    BadWords,
    /// A line of the script is no command.
    BadScript,
    /// The files are no project.
    NotAccepted,
    /// A file was not read.
    ReadFault,
    /// A file was not replaced.
    WriteFault,
    /// The report was not written.
    ReportFault,
    /// Out of memory; nothing is replaced or written.
    Memory,
    /// A length or a number is past its limit.
    OverLimit,
}

impl Status {
    /// The exit status.
    pub fn code(self) -> u8
        ensures { result ≡ code_of self }
    {
        match self {
            Status::Done => 0,
            Status::StepRefused => 1,
            Status::BadWords => 2,
            Status::BadScript => 3,
            Status::NotAccepted => 4,
            Status::ReadFault => 5,
            Status::WriteFault => 6,
            Status::ReportFault => 7,
            Status::Memory => 8,
            Status::OverLimit => 9,
        }
    }
}
