ghost use Rattle.std.specs.Prelude.{◌≡◌};
ghost use Rattle.braid_http.specs.Asks.{answer_of, over_of};

use crate::refusal::Refusal;
use crate::request::Asked;

/// Why there is no request.
#[derive(Clone, Copy, Debug, PartialEq, Eq)]
pub enum Stop {
    /// The source ended, and no byte of a request had come.
    End,
    /// The bytes are no request.
    Refused(Refusal),
    /// The source ended inside a request.
    Torn,
    /// A read failed.
    ReadFault,
    /// There was no memory.
    Memory,
}

impl Stop {
    /// The answer that says so.
    pub fn answer(self) -> Asked
        ensures value { result ≡ answer_of self }
    {
        match self {
            Stop::End => Asked::End,
            Stop::Refused(refusal) => Asked::Refused(refusal),
            Stop::Torn => Asked::Torn,
            Stop::ReadFault => Asked::ReadFault,
            Stop::Memory => Asked::Memory,
        }
    }

    /// What a wire answers for good from then on: nothing after the end of the source.
    pub fn for_good(self) -> Option<Stop>
        ensures value { result ≡ over_of (answer_of self) }
    {
        match self {
            Stop::End => None,
            Stop::Refused(_) | Stop::Torn | Stop::ReadFault | Stop::Memory => Some(self),
        }
    }
}
