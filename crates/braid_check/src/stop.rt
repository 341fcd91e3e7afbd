ghost use Rattle.std.specs.Prelude.{◌≡◌};
ghost use Rattle.braid_check.specs.CheckTexts.{status_of};

use braid_frame::FrameFault;
use braid_io::Status;
use braid_text::Accept;

/// Why the reading of a stream stopped.
#[derive(Debug, Drop)]
pub enum Stop {
    /// The source ended, and its bytes are a stream.
    End,
    /// The source ended after `at` bytes, which are neither a stream nor at fault.
    Torn { at: u64 },
    /// The stream has this fault.
    Fault(FrameFault),
    /// An update was refused with this answer.
    Refused(Accept),
    /// A read failed.
    ReadFault,
    /// The most bytes were read, and no end had come.
    Spent,
}

impl Stop {
    /// How a run ends that stopped so and wrote its text.
    pub fn status(&self) -> Status
        ensures value { result ≡ status_of self.now }
    {
        match self {
            Stop::End => Status::Done,
            Stop::Torn { .. } | Stop::Fault(_) | Stop::Refused(_) => Status::Bad,
            Stop::ReadFault => Status::Outside,
            Stop::Spent => Status::Cut,
        }
    }
}
