ghost use Rattle.std.specs.Prelude.{◌≡◌};
ghost use Rattle.braid_stream.specs.Steps.{answer_of};

use braid_change::Update;
use braid_frame::FrameFault;

/// What a reader answers next.
#[derive(Drop)]
pub enum Next {
    /// The next update of the stream.
    Update(Update),
    /// The source ended, and its bytes are a stream.
    End,
    /// The source ended after `at` bytes, within a line, a head or a content, or before a patch: they are neither a
    /// stream nor at fault.
    Torn { at: u64 },
    /// The stream has this fault, whose place counts from the first byte read.
    Fault(FrameFault),
    /// A read failed. The next call goes on where this one stopped.
    ReadFault,
    /// 1,099,511,627,776 bytes were read, and hold no further update and no fault.
    Spent,
    /// There was no memory.
    Memory,
}

/// How a reader ended, for good.
#[derive(Clone, Copy, Debug, PartialEq, Eq)]
pub enum Ended {
    End,
    Torn { at: u64 },
    Fault(FrameFault),
    Spent,
    Memory,
}

impl Ended {
    /// The answer that says so.
    pub fn answer(self) -> Next
        ensures value { result ≡ answer_of self }
    {
        match self {
            Ended::End => Next::End,
            Ended::Torn { at } => Next::Torn { at },
            Ended::Fault(fault) => Next::Fault(fault),
            Ended::Spent => Next::Spent,
            Ended::Memory => Next::Memory,
        }
    }
}
