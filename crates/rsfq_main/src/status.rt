//! How a run ended.

ghost use Rattle.std.specs.Prelude.{◌≡◌};
ghost use Rattle.rsfq_main.specs.Faults.{number_of};

/// How a run ended. The program exits with its number.
#[derive(Clone, Copy, Debug, PartialEq, Eq)]
pub enum Status {
    /// The output was written whole.
    Done,
    /// The text was refused.
    Refused,
    /// The words are no command.
    Usage,
    /// A read failed.
    ReadFault,
    /// A write failed, or took nothing.
    WriteFault,
    /// Memory ran out.
    NoMemory,
    /// The answer to a question is no. `check` alone asks one.
    No,
}

impl Status {
    /// The exit status, 0 to 6.
    pub fn number(self) -> u8
        ensures { result ≡ number_of self }
    {
        match self {
            Status::Done => 0,
            Status::Refused => 1,
            Status::Usage => 2,
            Status::ReadFault => 3,
            Status::WriteFault => 4,
            Status::NoMemory => 5,
            Status::No => 6,
        }
    }
}
