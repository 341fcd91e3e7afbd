//! The client's commands over hostile replies: what is printed, the status, and what is kept.

use crate::scripts::dialer;
use braid_client::client_run;
use braid_ids::{Bytes, Word};
use braid_io::{MemDialer, MemKeeper, MemSink, Status};
use std::alloc::Global;
use std::test::Fail;

/// A state of agent `a` with `x-1` confirmed, whose body is `ab`, and `a-1` unsent, which inserts `P`.
pub const STATE: &[u8] =
    b"braid-state 1\nagent: a\nserver: h:1\npath: /doc\nconfirmed: 1\nunsent: 1\n\nVersion: \"x-1\"\r\nParents:\r\nContent-Length: 2\r\n\r\nab\r\n\r\nVersion: \"a-1\"\r\nParents: \"x-1\"\r\nPatches: 1\r\n\r\nContent-Length: 1\r\nContent-Range: text [1:1]\r\n\r\nP\r\n\r\nend\n";

/// The words of a command.
fn words_of(alloc: Global, words: &[&[u8]]) -> Result<Vec<Word>, Fail> {
    let mut list = Vec::new(alloc);
    for word in words {
        list.push(Word::of(alloc, word)?)?;
    }
    Ok(list)
}

/// These bytes under `s`.
fn entries_of(alloc: Global, state: &[u8]) -> Result<Vec<(Word, Bytes)>, Fail> {
    let name = Word::of(alloc, b"s")?;
    let bytes = Bytes::of(alloc, state)?;
    Ok(vec![in alloc; (name, bytes)]?)
}

/// A keeper of these bytes under `s`. The loads and saves of these numbers fail.
pub fn keeper_of(alloc: Global, state: &[u8], fails: &[u64]) -> Result<MemKeeper, Fail> {
    let entries = entries_of(alloc, state)?;
    let fails = Vec::from_slice(alloc, fails)?;
    Ok(MemKeeper::new(entries, fails))
}

/// Whether these bytes are kept under `s`.
fn keeps(keeper: &MemKeeper, state: &[u8]) -> bool {
    match keeper.kept(b"s") {
        Some(bytes) => bytes.get() == state,
        None => false,
    }
}

/// What a run of a command printed, and its status.
#[derive(Drop)]
pub struct Ran {
    pub status: Status,
    pub out: MemSink,
}

/// A run of a command, onto a sink of this room.
pub fn run(
    alloc: Global,
    words: &[&[u8]],
    keeper: &mut MemKeeper,
    dialer: &mut MemDialer,
    room: usize,
) -> Result<Ran, Fail> {
    let words = words_of(alloc, words)?;
    let mut out = MemSink::new(alloc, room, Vec::new(alloc))?;
    let status = client_run(alloc, &words, keeper, dialer, &mut out);
    Ok(Ran { status, out })
}

impl Ran {
    /// Whether this was printed, with this status.
    pub fn is_so(&self, line: &[u8], status: Status) -> bool {
        self.out.written() == line && self.status == status
    }
}

/// Whether a run printed this, with this status, and left this state.
pub fn left(ran: &Ran, keeper: &MemKeeper, line: &[u8], status: Status, state: &[u8]) -> bool {
    ran.is_so(line, status) && keeps(keeper, state)
}

/// A sync with these bytes on the two links.
fn run_sync(
    alloc: Global,
    keeper: &mut MemKeeper,
    first: &[u8],
    second: &[u8],
) -> Result<Ran, Fail> {
    let mut dialer = dialer(alloc, first, second, 4_096)?;
    run(alloc, &[b"sync", b"s"], keeper, &mut dialer, 100)
}

/// Whether a sync with these bytes on the two links prints this, with this status, and keeps the state as it was.
fn tells(
    alloc: Global,
    first: &[u8],
    second: &[u8],
    line: &[u8],
    status: Status,
) -> Result<bool, Fail> {
    let mut keeper = keeper_of(alloc, STATE, &[])?;
    let ran = run_sync(alloc, &mut keeper, first, second)?;
    Ok(left(&ran, &keeper, line, status, STATE))
}

/// What the two links give, the line, and the status.
type Row = (&'static [u8], &'static [u8], &'static [u8], Status);

/// The first row that is told otherwise.
fn first_other(alloc: Global, rows: &[Row]) -> Result<Option<usize>, Fail> {
    for (n, (first, second, line, status)) in rows.iter().enumerate() {
        if !tells(alloc, first, second, line, *status)? {
            return Ok(Some(n));
        }
    }
    Ok(None)
}

/// A subscription whose version is held.
const HELD: &[u8] = b"HTTP/1.1 209 X\r\nCurrent-Version: \"x-1\"\r\n\r\n";

/// Hostile replies, and their lines.
const LINES: &[Row] = &[
    (
        b"HTTP/1.1 209 X\r\nCurrent-Version: \"y-1\"\r\n\r\nVersion: \"x-1\"\r\nContent-Length: 2\r\n\r\nho",
        b"",
        b"fault: Clash \"x-1\"\n",
        Status::Bad,
    ),
    (
        b"HTTP/1.1 209 X\r\nCurrent-Version: \"y-1\"\r\n\r\nVersion: \"a-1\"\r\nParents: \"x-1\"\r\nContent-Length: 2\r\n\r\nho",
        b"",
        b"fault: Clash \"a-1\"\n",
        Status::Bad,
    ),
    (
        b"HTTP/1.1 209 X\r\nCurrent-Version: \"y-1\"\r\n\r\nVersion: \"y-1\"\r\nParents: \"a-1\"\r\nPatches: 0\r\n\r\n",
        b"",
        b"fault: UnknownParent \"a-1\"\n",
        Status::Bad,
    ),
    (
        b"HTTP/1.1 209 X\r\nCurrent-Version: \"y-1\"\r\n\r\nVersion: \"y-1\"\r\nParents: \"x-1\"\r\nContent-Range: text [0:3]\r\nContent-Length: 0\r\n\r\n",
        b"",
        b"fault: OutOfRange patch 0 len 2\n",
        Status::Bad,
    ),
    (
        b"HTTP/1.1 209 X\r\n\r\n",
        b"",
        b"fault: NoCurrent\n",
        Status::Bad,
    ),
    (
        b"HTTP/1.1 209 X\r\nCurrent-Version: x\r\n\r\n",
        b"",
        b"fault: BadCurrent\n",
        Status::Bad,
    ),
    (
        b"HTTP/1.1 209 X\r\nMerge-Type: sync9\r\n\r\n",
        b"",
        b"fault: OtherMergeType\n",
        Status::Bad,
    ),
    (
        b"HTTP/1.1 200 OK\r\n\r\n",
        b"",
        b"fault: Peer 200\n",
        Status::Cut,
    ),
    (
        b"HTTP/1.1 099 X\r\n\r\n",
        b"",
        b"fault: BadHead\n",
        Status::Bad,
    ),
    (
        b"HTTP/1.1 209 X\r\nContent-Length: 1\r\nContent-Length: 1\r\n\r\n",
        b"",
        b"fault: BadLength\n",
        Status::Bad,
    ),
    (
        b"HTTP/1.1 209 X\r\nContent-Length: 1\r\nTransfer-Encoding: chunked\r\n\r\n",
        b"",
        b"fault: BothLengths\n",
        Status::Bad,
    ),
    (
        b"HTTP/1.1 209 X\r\nCurrent-Version: \"y-1\"\r\nTransfer-Encoding: chunked\r\n\r\nzz\r\n",
        b"",
        b"fault: BadChunk\n",
        Status::Bad,
    ),
    (
        b"HTTP/1.1 209 X\r\nCurrent-Version: \"y-1\"\r\nTransfer-Encoding: chunked\r\n\r\n0\r\n\r\n",
        b"",
        b"fault: Cut\n",
        Status::Cut,
    ),
    (
        b"HTTP/1.1 209 X\r\nCurrent-Version: \"y-1\"\r\n\r\nno colon\r\n",
        b"",
        b"fault: BadLine at 0\n",
        Status::Bad,
    ),
    (
        b"HTTP/1.1 209 X\r\nCurrent-Version: \"y-1\"\r\n\r\nVersion: \"y-1\", \"z-1\"\r\nPatches: 0\r\n\r\n",
        b"",
        b"fault: ManyVersions at 0\n",
        Status::Bad,
    ),
    (
        b"HTTP/1.1 209 X\r\nCurrent-Version: \"y-1\"\r\n\r\nVersion: \"y-1\"\r\nContent-Length: 1048577\r\n\r\n",
        b"",
        b"fault: TooLong at 0\n",
        Status::Bad,
    ),
    (
        HELD,
        b"HTTP/1.1 200 OK\r\nConte",
        b"fault: Cut\n",
        Status::Cut,
    ),
    (
        HELD,
        b"HTTP/1.1 507 X\r\nContent-Length: 0\r\n\r\n",
        b"fault: Peer 507\n",
        Status::Cut,
    ),
    (
        HELD,
        b"HTTP/1.1 200 OK\r\nTransfer-Encoding: chunked\r\n\r\nzz\r\n",
        b"fault: BadChunk\n",
        Status::Bad,
    ),
];

#[test]
fn a_hostile_reply_has_its_line(rt: HostRuntime) -> Result<(), Fail> {
    assert_eq!(rt; first_other(rt.alloc(), LINES)?, None);
    Ok(())
}
