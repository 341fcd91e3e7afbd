ghost use Rattle.std.specs.Prelude.{◌≡◌};
ghost use Rattle.braid_io.specs.Statuses.{status_code};

/// How a run of the program ended.
#[derive(Clone, Copy, Debug, PartialEq, Eq)]
pub enum Status {
    /// All was done, and all of its text was written.
    Done,
    /// What was read is at fault, and the line that says so was written.
    Bad,
    /// The words are no command, and the line that says so was written.
    Usage,
    /// A read, a write or a connection failed.
    Outside,
    /// There was not enough memory.
    Memory,
    /// The run was cut short.
    Cut,
}

impl Status {
    /// The exit status of a program that ended so: 0 to 5, in the order of the variants.
    pub fn code(self) -> u8
        ensures value { result ≡ status_code self }
    {
        self as u8
    }
}
