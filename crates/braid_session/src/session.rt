/// How a session ended.
#[derive(Clone, Copy, Debug, PartialEq, Eq)]
pub enum SessionEnd {
    /// The source ended between two requests, or a request that asked to close was answered.
    Closed,
    /// The bell ended, and a subscription's last chunk was written.
    Stopped,
    /// 10,000 requests were answered.
    Spent,
    /// The bytes were no request, and were answered with this status.
    Refused { status: u16 },
    /// The source ended inside a request.
    Torn,
    /// A read failed.
    ReadFault,
    /// A write failed.
    WriteFault,
    /// The hall gives no more turns.
    Worn,
    /// There was no memory. Of the request or the turn at hand nothing was written.
    Memory,
}

/// What a session leaves.
#[derive(Debug, Drop)]
pub struct SessionNote {
    /// The length found at each of its turns.
    pub marks: Vec<u64>,
    /// How many requests were answered with a reply that was written whole. A subscription counts once its head is.
    pub requests: u64,
    /// How it ended.
    pub end: SessionEnd,
}
