ghost use Rattle.std.specs.Prelude.{◌≤◌, ◌<◌};

use super::*;
use braid_change::{Update, canon};
use braid_fields::Reason;
use braid_ids::Bytes;
use braid_io::{MemSink, WriteEnd};
use std::alloc::Global;
use std::test::Fail;

/// How bytes end that were fed.
#[derive(Clone, Copy, Debug, PartialEq, Eq)]
enum End {
    Resting,
    Torn,
    Fault(u64, Reason),
}

/// What a framer made of bytes.
#[derive(Drop)]
struct Framed {
    /// The canonical spellings of the updates, one after the other.
    spelled: Bytes,
    /// The place behind the last update's last byte.
    last: usize,
    end: End,
}

/// Where the piece that begins at `at` ends: the first piece has `first` bytes and the others have `size`.
fn piece_end(at: usize, len: usize, first: usize, size: usize) -> usize
    requires within { at < len }
    ensures behind { at < result }
    ensures within { result ≤ len }
{
    let wanted = if at < first {
        first
    } else {
        at.saturating_add(size.max(1))
    };
    wanted.min(len)
}

impl Framed {
    /// Adds an update, where there is one, whose last byte stands before `at`.
    fn add(&mut self, alloc: Global, update: Option<Update>, at: usize) -> Result<(), Fail> {
        if let Some(update) = update {
            self.spelled.push(canon(alloc, &update)?.get())?;
            self.last = at;
        }
        Ok(())
    }
}

/// Feeds the bytes in pieces: a first one of `first` bytes, and others of `size`.
fn feed_all(alloc: Global, bytes: &[u8], first: usize, size: usize) -> Result<Framed, Fail> {
    let mut framer = Framer::new(alloc);
    let mut framed = Framed {
        spelled: Bytes::of(alloc, b"")?,
        last: 0,
        end: End::Torn,
    };
    let mut at = 0;
    while at < bytes.len() {
        let end = piece_end(at, bytes.len(), first, size);
        match framer.feed(&bytes[at..end]) {
            Ok(fed) => {
                at += fed.taken;
                framed.add(alloc, fed.update, at)?;
            }
            Err(FeedFault::Frame(fault)) => {
                framed.end = End::Fault(fault.at, fault.reason);
                return Ok(framed);
            }
            Err(fault) => return Err(Fail::from(fault)),
        }
    }
    if framer.resting() {
        framed.end = End::Resting;
    }
    Ok(framed)
}

/// Whether the bytes give these canonical spellings and this end when they are fed in such pieces.
fn gives(
    alloc: Global,
    bytes: &[u8],
    first: usize,
    size: usize,
    row: &(&[u8], End),
) -> Result<bool, Fail> {
    let framed = feed_all(alloc, bytes, first, size)?;
    Ok(framed.spelled.get() == row.0 && framed.end == row.1)
}

/// Whether they give that in one piece, byte by byte, and cut in two before each byte.
fn gives_always(alloc: Global, bytes: &[u8], row: &(&[u8], End)) -> Result<bool, Fail> {
    if !gives(alloc, bytes, 1, 1, row)? {
        return Ok(false);
    }
    for first in 0..bytes.len() {
        if !gives(alloc, bytes, first, bytes.len(), row)? {
            return Ok(false);
        }
    }
    Ok(true)
}

const HI: &[u8] = b"Version: \"a-1\"\r\nParents:\r\nContent-Length: 2\r\n\r\nhi\r\n\r\n";

const JELLO: &[u8] =
    b"Version: \"b-1\"\r\nParents: \"a-1\"\r\nPatches: 2\r\n\r\nContent-Length: 1\r\nContent-Range: text [0:1]\r\n\r\nJ\r\nContent-Length: 1\r\nContent-Range: text [5:5]\r\n\r\n!\r\n\r\n";

#[test]
fn updates_come_out_of_any_pieces(rt: HostRuntime) -> Result<(), Fail> {
    let rows: [(&[u8], (&[u8], End)); 8] = [
        (b"", (b"", End::Resting)),
        (b"\n\r\n", (b"", End::Resting)),
        (HI, (HI, End::Resting)),
        (JELLO, (JELLO, End::Resting)),
        (
            b"\n\n\n\n\nHTTP 200 OK\nVersion: \"a-1\"\nParents:\nContent-Length: 2\n\nhi",
            (HI, End::Resting),
        ),
        (
            b"HTTP/1.1 200\r\nversion: \"a-1\"\r\nX: y\r\nCONTENT-LENGTH:  2\t\r\n\r\nhi\r\n",
            (HI, End::Resting),
        ),
        (
            b"Version: \"a-1\"\r\nContent-Length: 4\r\n\r\nhi",
            (b"", End::Torn),
        ),
        (b"\r", (b"", End::Torn)),
    ];
    for (bytes, row) in rows {
        assert!(rt; gives_always(rt.alloc(), bytes, &row)?);
    }
    Ok(())
}

#[test]
fn patches_come_out_of_any_pieces(rt: HostRuntime) -> Result<(), Fail> {
    let rows: [(&[u8], (&[u8], End)); 4] = [
        (
            b"Version: \"c\"\nPatches: 0\n\n",
            (
                b"Version: \"c\"\r\nParents:\r\nPatches: 0\r\n\r\n\r\n",
                End::Resting,
            ),
        ),
        (
            b"Version: \"b-1\"\r\nParents: \"a-1\"\r\nContent-Range: text [2:2]\r\nContent-Length: 1\r\n\r\n!",
            (
                b"Version: \"b-1\"\r\nParents: \"a-1\"\r\nPatches: 1\r\n\r\nContent-Length: 1\r\nContent-Range: text [2:2]\r\n\r\n!\r\n\r\n",
                End::Resting,
            ),
        ),
        (
            b"Version: \"c\"\nParents: \"b\", \"a\"\nParents: \"b\"\nContent-Length: 0\n\n",
            (
                b"Version: \"c\"\r\nParents: \"a\", \"b\"\r\nContent-Length: 0\r\n\r\n\r\n\r\n",
                End::Resting,
            ),
        ),
        (
            b"Version: \"c\"\nPatches: 2\n\n\r\n\nContent-Length: 0\nContent-Range: text [1:2]\n\n\n\n",
            (b"", End::Torn),
        ),
    ];
    for (bytes, row) in rows {
        assert!(rt; gives_always(rt.alloc(), bytes, &row)?);
    }
    Ok(())
}

#[test]
fn faults_of_lines_and_contents_have_their_places(rt: HostRuntime) -> Result<(), Fail> {
    let rows: [(&[u8], (&[u8], End)); 8] = [
        (b"\r\r\n", (b"", End::Fault(0, Reason::BadLine))),
        (
            b"Version: \"a-1\"\r\nno colon\r\n",
            (b"", End::Fault(16, Reason::BadLine)),
        ),
        (b"HTTP 200\r\n\r\n", (b"", End::Fault(10, Reason::BadLine))),
        (
            b"\nHTTP 404 Not Found\n",
            (b"", End::Fault(1, Reason::BadStatus)),
        ),
        (
            b"Version: \"a\"\nPatches: 1\n\nHTTP 200\n",
            (b"", End::Fault(25, Reason::BadLine)),
        ),
        (
            b"Version: \"a\"\nContent-Length: 1\n\n\xc3\xa9",
            (b"", End::Fault(32, Reason::NotText)),
        ),
        (
            b"Version: \"a\"\nPatches: 1\n\n\nContent-Length: 1\n\nx",
            (b"", End::Fault(26, Reason::NoRange)),
        ),
        (
            b"Version: \"a\"\nPatches: 2\n\nContent-Length: 0\nContent-Range: text [0:5]\n\nContent-Length: 0\nContent-Range: text [4:5]\n\n",
            (b"", End::Fault(70, Reason::Overlap)),
        ),
    ];
    for (bytes, row) in rows {
        assert!(rt; gives_always(rt.alloc(), bytes, &row)?);
    }
    Ok(())
}

#[test]
fn faults_of_heads_stand_at_the_head(rt: HostRuntime) -> Result<(), Fail> {
    let rows: [(&[u8], Reason); 11] = [
        (b"X: y\n\n", Reason::NoVersion),
        (
            b"Version: \"a\",\"b\"\nContent-Length: 0\n\n",
            Reason::ManyVersions,
        ),
        (b"Version: \"a\",\nContent-Length: 0\n\n", Reason::BadList),
        (b"Version: \"\"\nContent-Length: 0\n\n", Reason::BadId),
        (b"Version: \"a\"\n\n", Reason::NoLength),
        (b"Version: \"a\"\nContent-Length: x\n\n", Reason::BadLength),
        (
            b"Version: \"a\"\nContent-Length: 1048577\n\n",
            Reason::TooLong,
        ),
        (b"Version: \"a\"\nPatches: 1001\n\n", Reason::TooManyPatches),
        (
            b"Version: \"a\"\nPatches: 1\nPatches: 1\n\n",
            Reason::RepeatedField,
        ),
        (
            b"Version: \"a\"\nPatches: 1\nContent-Range: text [0:0]\n\n",
            Reason::BadRange,
        ),
        (
            b"Version: \"a\"\nTransfer-Encoding: chunked\nContent-Length: 0\n\n",
            Reason::Encoded,
        ),
    ];
    for (bytes, reason) in rows {
        assert!(rt; gives_always(rt.alloc(), bytes, &(b"", End::Fault(0, reason)))?);
    }
    Ok(())
}

#[test]
fn rarer_faults_of_heads_stand_at_the_head(rt: HostRuntime) -> Result<(), Fail> {
    let rows: [(&[u8], Reason); 5] = [
        (
            b"Version: \"a\"\nMerge-Type: sync9\nContent-Length: 0\n\n",
            Reason::OtherMergeType,
        ),
        (
            b"Version: \"z\"\nParents: \"a\", \"b\", \"c\", \"d\", \"e\", \"f\", \"g\", \"h\", \"i\", \"j\", \"k\", \"l\", \"m\", \"n\", \"o\", \"p\", \"q\", \"r\", \"s\", \"t\", \"u\", \"v\", \"w\", \"x\", \"y\", \"z\", \"0\", \"1\", \"2\", \"3\", \"4\", \"5\", \"6\"\nContent-Length: 0\n\n",
            Reason::TooManyParents,
        ),
        (b"Version: \"a\"\nPatches: x\n\n", Reason::BadCount),
        (
            b"Version: \"a\"\nContent-Range: line [0:0]\nContent-Length: 0\n\n",
            Reason::OtherUnit,
        ),
        (
            b"Version: \"a\"\nContent-Range: text [2:1]\nContent-Length: 0\n\n",
            Reason::Backwards,
        ),
    ];
    for (bytes, reason) in rows {
        assert!(rt; gives_always(rt.alloc(), bytes, &(b"", End::Fault(0, reason)))?);
    }
    Ok(())
}

#[test]
fn a_fault_counts_what_was_fed_before(rt: HostRuntime) -> Result<(), Fail> {
    let alloc = rt.alloc();
    let mut bytes = Bytes::of(alloc, HI)?;
    bytes.push(b"HTTP 404 Not Found\r\n")?;
    let row = (HI, End::Fault(53, Reason::BadStatus));
    assert!(rt; gives_always(alloc, bytes.get(), &row)?);
    Ok(())
}

#[test]
fn an_update_is_complete_at_its_last_byte(rt: HostRuntime) -> Result<(), Fail> {
    for first in 0..150 {
        let framed = feed_all(rt.alloc(), JELLO, first, 150)?;
        assert_eq!(rt; framed.last, 146);
        assert!(rt; framed.spelled.get() == JELLO);
    }
    Ok(())
}

/// A head of so many bytes, and whether it ends with them.
fn long_head(alloc: Global, len: usize, ends: bool) -> Result<Bytes, Fail>
    requires few { len < 20_000 }
{
    let mut bytes = Bytes::of(alloc, b"Version: \"a\"\nContent-Length: 0\nX: ")?;
    let filled = len.saturating_sub(36);
    for _ in 0..filled {
        bytes.push(b"x")?;
    }
    if ends {
        bytes.push(b"\n\n")?;
    } else {
        bytes.push(b"xx")?;
    }
    Ok(bytes)
}

#[test]
fn a_head_has_16384_bytes_at_most(rt: HostRuntime) -> Result<(), Fail> {
    let alloc = rt.alloc();
    let long = End::Fault(0, Reason::HeadTooLong);
    let rows = [
        (16_383, false, End::Torn),
        (16_384, true, End::Resting),
        (16_384, false, long),
        (16_385, true, long),
    ];
    for (len, ends, end) in rows {
        let bytes = long_head(alloc, len, ends)?;
        assert_eq!(rt; feed_all(alloc, bytes.get(), 0, 20_000)?.end, end);
        assert_eq!(rt; feed_all(alloc, bytes.get(), 0, 1)?.end, end);
    }
    Ok(())
}

#[test]
fn a_fault_is_answered_again(rt: HostRuntime) -> Result<(), Fail> {
    let mut framer = Framer::new(rt.alloc());
    let fault = FeedFault::Frame(FrameFault {
        at: 0,
        reason: Reason::BadLine,
    });
    assert_eq!(rt; framer.feed(b"no colon\n").err(), Some(fault));
    assert_eq!(rt; framer.feed(HI).err(), Some(fault));
    assert_eq!(rt; framer.feed(b"").err(), Some(fault));
    assert!(rt; !framer.resting());
    Ok(())
}

#[test]
fn an_update_is_written_in_its_canonical_spelling(rt: HostRuntime) -> Result<(), Fail> {
    let alloc = rt.alloc();
    let fed = Framer::new(alloc).feed(HI)?;
    let Some(update) = fed.update else {
        return Err(Fail::from("no update"));
    };
    let rows: [(usize, Result<(), WriteEnd>, &[u8]); 2] = [
        (53, Ok(()), HI),
        (20, Err(WriteEnd::WriteFault), &HI[..20]),
    ];
    for (room, end, written) in rows {
        let mut sink = MemSink::new(alloc, room, Vec::new(alloc))?;
        assert_eq!(rt; write_update(&update, &mut sink), end);
        assert!(rt; sink.written() == written);
    }
    Ok(())
}
