use super::*;
use braid_change::Update;
use braid_fields::Reason;
use std::alloc::Global;
use std::test::Fail;

/// Whether the updates are those of these identifiers, in this order.
fn are(updates: &[Update], ids: &[&[u8]]) -> bool {
    updates.len() == ids.len()
        && updates
            .iter()
            .zip(ids.iter())
            .all(|(update, id)| update.id().bytes() == *id)
}

/// Whether the bytes hold the updates of these identifiers and end so.
fn is_read(alloc: Global, bytes: &[u8], ids: &[&[u8]], end: StreamEnd) -> Result<bool, Fail> {
    let stream = read_stream(alloc, bytes)?;
    Ok(stream.end == end && are(&stream.updates, ids))
}

/// The end that a fault is.
fn fault(at: u64, reason: Reason) -> StreamEnd {
    StreamEnd::Fault { at, reason }
}

/// The canonical spelling of the identifier `a-1` without parents and with the body `hi`.
const CANONICAL: &[u8] = b"Version: \"a-1\"\r\nParents:\r\nContent-Length: 2\r\n\r\nhi\r\n\r\n";

#[test]
fn gaps_and_updates_are_streams(rt: HostRuntime) -> Result<(), Fail> {
    let alloc = rt.alloc();
    let rows: [(&[u8], &[&[u8]]); 10] = [
        (b"", &[]),
        (b"\r\n\n\r\n", &[]),
        (CANONICAL, &[b"a-1"]),
        (
            b"\n\n\n\n\nHTTP 200 OK\nVersion: \"a-1\"\nParents:\nContent-Length: 2\n\nhi\n\n",
            &[b"a-1"],
        ),
        (
            b"HTTP/1.1 200\r\nvErSiOn:\"a\\\"1\"\r\nOther: \x80\r\ncontent-length: 0\r\n\r\n",
            &[b"a\"1"],
        ),
        (
            b"Version: \"b\"\r\nPatches: 0\r\n\r\nVersion: \"c\"\r\nContent-Length: 1\r\n\r\n\n\n",
            &[b"b", b"c"],
        ),
        (
            b"Version: \"b\"\r\nContent-Range: text [0:1]\r\nContent-Length: 1\r\n\r\nx",
            &[b"b"],
        ),
        (
            b"Version: \"b\"\nPatches: 2\n\n\nContent-Range: text [0:0]\nContent-Length: 1\n\nx\n\nContent-Length: 0\nContent-Range: text [1:2]\n\n",
            &[b"b"],
        ),
        (
            b"Version: \"b\"\nPatches: 2\nContent-Length: x\n\nContent-Length: 1\nContent-Range: text [0:0]\n\nxContent-Length: 0\nContent-Range: text [0:2]\n\n",
            &[b"b"],
        ),
        (
            b"Version: \"b\"\nParents: \"a\"\nParents: \"a\", \"c\"\nPatches: 0\n\n",
            &[b"b"],
        ),
    ];
    for (n, (bytes, ids)) in rows.iter().enumerate() {
        assert!(rt; is_read(alloc, bytes, ids, StreamEnd::Gap)?, "row {n}");
    }
    Ok(())
}

#[test]
fn an_update_has_its_parents_and_patches(rt: HostRuntime) -> Result<(), Fail> {
    let alloc = rt.alloc();
    let bytes =
        b"Version: \"b\"\nParents: \"c\"\nParents: \"a\", \"c\"\nPatches: 2\n\nContent-Length: 2\nContent-Range: text [0:1]\n\n\xc3\xa9Content-Length: 0\nContent-Range: text [3:5]\n\n";
    let stream = read_stream(alloc, bytes)?;
    let Some(update) = stream.updates.first() else {
        return Err("no update".into());
    };
    assert_eq!(rt; update.parents().len(), 2);
    let patches = update.change().patches();
    let (Some(first), Some(last)) = (patches.first(), patches.last()) else {
        return Err("no patches".into());
    };
    assert!(rt;
        first.start == 0 && first.end == 1 && first.text.chars().first() == Some(&'\u{e9}')
    );
    assert!(rt; last.start == 3 && last.end == 5 && last.text.chars().is_empty());
    Ok(())
}

#[test]
fn the_first_fault_is_named_with_its_place(rt: HostRuntime) -> Result<(), Fail> {
    let alloc = rt.alloc();
    let rows: [(&[u8], u64, Reason); 14] = [
        (b"Version: \"a\",\"b\"\r\n\r\n", 0, Reason::ManyVersions),
        (b"Version: \"a\",\r\n\r\n", 0, Reason::BadList),
        (b"Version:\nVersion: \"a\"\n\n", 0, Reason::BadList),
        (b"Version: \"\"\r\n\r\n", 0, Reason::BadId),
        (
            b"\n\r\nVersion: \"a\"\r\nno colon\r\nPatches: x\r\n\r\n",
            17,
            Reason::BadLine,
        ),
        (b"\nHTTP 200 OK\n\nVersion: \"a\"\n\n", 13, Reason::BadLine),
        (b"\nHTTP 201 Created\nno colon\n", 1, Reason::BadStatus),
        (
            b"Version: \"a\"\nContent-Length: 1\n\n\xc3\xa9",
            32,
            Reason::NotText,
        ),
        (
            b"\nVersion: \"a\"\nPatches: 1\nContent-Range: text [0:0]\n\n",
            1,
            Reason::BadRange,
        ),
        (
            b"Version: \"a\"\nContent-Length: 1\nContent-Length: 1\n\nx",
            0,
            Reason::RepeatedField,
        ),
        (
            b"Version: \"a\"\nPatches: 1\nPatches: 1\n\n",
            0,
            Reason::RepeatedField,
        ),
        (
            b"Version: \"a\"\nPatches: 1\n\n\nHTTP 200 OK\nContent-Length: 0\n",
            26,
            Reason::BadLine,
        ),
        (
            b"Version: \"a\"\nPatches: 1\n\n\nContent-Length: 0\n\n",
            26,
            Reason::NoRange,
        ),
        (
            b"Version: \"a\"\nPatches: 1\n\n\nContent-Length: 1\nContent-Range: text [0:0]\n\n\x80",
            71,
            Reason::NotText,
        ),
    ];
    for (n, (bytes, at, reason)) in rows.iter().enumerate() {
        assert!(rt; is_read(alloc, bytes, &[], fault(*at, *reason))?, "row {n}");
    }
    Ok(())
}

#[test]
fn a_fault_stands_behind_whole_updates(rt: HostRuntime) -> Result<(), Fail> {
    let alloc = rt.alloc();
    let mut bytes = Vec::from_slice(alloc, CANONICAL)?;
    bytes.extend_from_slice(b"HTTP 404 Not Found\r\n")?;
    assert!(rt; is_read(alloc, &bytes, &[b"a-1"], fault(53, Reason::BadStatus))?);
    bytes.extend_from_slice(CANONICAL)?;
    assert!(rt; is_read(alloc, &bytes, &[b"a-1"], fault(53, Reason::BadStatus))?);
    Ok(())
}

#[test]
fn an_update_that_is_not_whole_is_torn(rt: HostRuntime) -> Result<(), Fail> {
    let alloc = rt.alloc();
    for count in 1..CANONICAL.len() {
        let front = &CANONICAL[..count];
        let whole = count == 49 || count == 51;
        if count < 49 {
            assert!(rt; is_read(alloc, front, &[], StreamEnd::Torn)?, "{count}");
        } else if whole {
            assert!(rt;
                is_read(alloc, front, &[b"a-1"], StreamEnd::Gap)?,
                "{count}"
            );
        } else {
            assert!(rt;
                is_read(alloc, front, &[b"a-1"], StreamEnd::Torn)?,
                "{count}"
            );
        }
    }
    Ok(())
}

/// A head of so many bytes without the empty line that ends it.
fn long_head(alloc: Global, len: usize) -> Result<Vec<u8>, Fail> {
    let mut bytes = Vec::from_slice(alloc, b"Version: \"a\"\nPatches: 0\nOther: ")?;
    let fill = vec![in alloc; b'x'; len.saturating_sub(32)]?;
    bytes.extend_from_slice(&fill)?;
    bytes.push(b'\n')?;
    Ok(bytes)
}

#[test]
fn a_head_ends_within_its_limit(rt: HostRuntime) -> Result<(), Fail> {
    let alloc = rt.alloc();
    let mut bytes = long_head(alloc, 16_383)?;
    assert!(rt; is_read(alloc, &bytes, &[], StreamEnd::Torn)?);
    bytes.push(b'\n')?;
    assert!(rt; is_read(alloc, &bytes, &[b"a"], StreamEnd::Gap)?);
    let mut bytes = long_head(alloc, 16_384)?;
    assert!(rt; is_read(alloc, &bytes, &[], fault(0, Reason::HeadTooLong))?);
    bytes.push(b'\n')?;
    assert!(rt; is_read(alloc, &bytes, &[], fault(0, Reason::HeadTooLong))?);
    Ok(())
}
