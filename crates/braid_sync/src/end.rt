ghost use Rattle.std.specs.Prelude.{◌≡◌};

use braid_frame::FrameFault;
use braid_http::Refusal;
use braid_ids::Id;
use braid_text::Which;

/// How a sync or a follow ended. What was learnt or acknowledged before stays in the replica.
#[derive(Debug, Drop)]
pub enum SyncEnd {
    /// All was learnt that was to be learnt; in a sync, nothing is unsent.
    Done,
    /// A reply ended before it was whole; in a sync also a subscription's before its current version was held.
    Cut,
    /// The server answered with this status: to a subscription another than 209, or to a PUT another than 200.
    Peer { status: u16 },
    /// A reply is none, or its body is none.
    BadHead(Refusal),
    /// The subscription's reply has no `Current-Version`.
    NoCurrent,
    /// Its `Current-Version` is no list of identifiers.
    BadCurrent,
    /// It has two lines of `Merge-Type`, or another merge type.
    OtherMergeType,
    /// The data of its body is no stream of updates.
    BadStream(FrameFault),
    /// Another update with the identifier of one that came is held.
    Clash { id: Id },
    /// The least parent of an update that came is not confirmed.
    UnknownParent { id: Id },
    /// The first joined patch of an update, counted from 0, that ends past the text at its parents, and that text's length.
    OutOfRange { patch: u32, len: u32 },
    /// The first of the replica's limits that an update would pass.
    Full { which: Which, limit: u64 },
    /// The server could not be reached.
    DialFault,
    /// A read failed.
    ReadFault,
    /// A write to the server failed.
    WriteFault,
    /// A line could not be printed.
    OutFault,
    /// 1,099,511,627,776 bytes of one body were read without its end.
    Spent,
    /// There was no memory.
    Memory,
}

impl From<braid_ids::Memory> for SyncEnd {
    ghost use Rattle.braid_sync.specs.declared.end.SyncEnd.TheVariants as ends;

    ghost from_gives = { λ _ end. end ≡ ends.Memory };

    fn from(_none: braid_ids::Memory) -> SyncEnd {
        SyncEnd::Memory
    }
}
