ghost use Rattle.std.specs.Prelude.{◌≡◌};
ghost use Rattle.fd_stored.specs.Codes.{code_of};

/// How a run of the program ended, and with which exit status.
#[derive(Clone, Copy, Debug, PartialEq, Eq)]
pub enum Status {
    /// All was done.
    Done = 0,
    /// All was done, and what was asked for isn't there.
    Missed = 1,
    /// The words are no command.
    Words = 2,
    /// The input was refused.
    Refused = 3,
    /// A read of the input failed.
    InputFault = 4,
    /// A write of the output or of the report failed.
    OutputFault = 5,
    /// A call of the store failed.
    DiskFault = 6,
    /// An allocation was refused.
    NoMemory = 7,
    /// The stored schema or a dataset is damaged.
    Damaged = 8,
    /// A limit would be passed.
    Limit = 9,
}

impl Status {
    /// The exit status of the process.
    pub fn code(self) -> u8
        ensures { result ≡ code_of self }
    {
        self as u8
    }
}
