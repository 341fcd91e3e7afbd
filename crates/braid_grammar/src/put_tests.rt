use super::PutFault::{Extra, Short};
use super::*;
use braid_fields::Reason::{
    Backwards, BadCount, BadId, BadLength, BadLine, BadList, BadRange, Encoded, ManyVersions,
    NoLength, NoRange, NoVersion, NotText, OtherMergeType, OtherUnit, Overlap, RepeatedField,
    TooLong, TooManyPatches,
};
use braid_fields::{HeadFields, Reason, read_field};
use std::alloc::Global;
use std::test::Fail;

/// The known fields of field lines, each with its LF.
fn fields_of(alloc: Global, lines: &[u8]) -> Result<HeadFields, Fail> {
    let mut fields = HeadFields::new(alloc);
    for line in lines.split_inclusive(|byte| *byte == b'\n') {
        match read_field(line) {
            Some((name, value)) => fields.add(alloc, name, value)?,
            None => return Err("no field line".into()),
        }
    }
    Ok(fields)
}

/// What is wrong with the PUT of these lines and this body.
fn fault_of(alloc: Global, lines: &[u8], body: &[u8]) -> Result<Option<PutFault>, Fail> {
    let fields = fields_of(alloc, lines)?;
    Ok(read_put(alloc, &fields.parts, body).err())
}

/// The fields of a PUT of two patches.
const TWO: &[u8] = b"Version: \"a\"\nParents: \"c\", \"b\"\nPatches: 2\n";

/// The two patches, each with what follows its head.
const PATCHES: &[u8] =
    b"Content-Length: 1\nContent-Range: text [0:1]\n\nx\r\nContent-Length: 2\nContent-Range: text [1:1]\n\n\xc3\xa9";

#[test]
fn a_body_is_the_content_that_the_fields_ask_for(rt: HostRuntime) -> Result<(), Fail> {
    let alloc = rt.alloc();
    let rows: [(&[u8], &[u8], Option<PutFault>); 11] = [
        (b"Version: \"a\"\n", b"hi\r", None),
        (b"Version: \"a\"\n", b"", None),
        (
            b"Version: \"a\"\nContent-Length: 1\nContent-Length: x\nTransfer-Encoding: chunked\n",
            b"hi",
            None,
        ),
        (
            b"Version: \"a\"\nContent-Range: text [0:1]\n",
            b"hi\n",
            None,
        ),
        (b"Version: \"a\"\nPatches: 0\n", b"", None),
        (b"Version: \"a\"\nPatches: 0\n", b"\n\r\n", None),
        (b"Version: \"a\"\nPatches: 0\n", b"\r", Some(Extra)),
        (b"Version: \"a\"\nPatches: 1\n", b"", Some(Short)),
        (b"Version: \"a\"\nPatches: 1\n", b"\r\n\r", Some(Short)),
        (b"Version: \"a\"\nPatches: 1\n", PATCHES, Some(Extra)),
        (b"Version: \"a\"\nPatches: 3\n", PATCHES, Some(Short)),
    ];
    for (n, (lines, body, fault)) in rows.iter().enumerate() {
        assert!(rt; fault_of(alloc, lines, body)? == *fault, "row {n}");
    }
    Ok(())
}

#[test]
fn behind_the_last_patch_stand_empty_lines(rt: HostRuntime) -> Result<(), Fail> {
    let alloc = rt.alloc();
    let rows: [(&[u8], Option<PutFault>); 6] = [
        (b"", None),
        (b"\n", None),
        (b"\r\n\n\r\n", None),
        (b"\r", Some(Extra)),
        (b"\r\n\r", Some(Extra)),
        (b"x", Some(Extra)),
    ];
    for (n, (more, fault)) in rows.iter().enumerate() {
        let mut body = Vec::from_slice(alloc, PATCHES)?;
        body.extend_from_slice(more)?;
        assert!(rt; fault_of(alloc, TWO, &body)? == *fault, "row {n}");
    }
    let short = &PATCHES[..PATCHES.len() - 1];
    assert!(rt; fault_of(alloc, TWO, short)? == Some(Short));
    let fields = fields_of(alloc, TWO)?;
    let update = read_put(alloc, &fields.parts, PATCHES)?;
    assert!(rt; update.id().bytes() == b"a".as_slice() && update.change().patches().len() == 2);
    Ok(())
}

#[test]
fn the_first_reason_counts(rt: HostRuntime) -> Result<(), Fail> {
    let alloc = rt.alloc();
    let rows: [(&[u8], &[u8], Reason); 22] = [
        (b"Content-Encoding: gzip\nPatches: x\n", b"x", Encoded),
        (b"Patches: 1\nPatches: 1\n", b"", RepeatedField),
        (b"Merge-Type: sync9\n", b"", OtherMergeType),
        (b"Version: a\n", b"", BadList),
        (b"Patches: x\n", b"", NoVersion),
        (b"Version: \"a\", \"b\"\n", b"\x80", ManyVersions),
        (b"Version: \"\"\n", b"", BadId),
        (b"Version: \"a\"\nPatches: -1\n", b"", BadCount),
        (b"Version: \"a\"\nPatches: 1001\n", b"", TooManyPatches),
        (
            b"Version: \"a\"\nContent-Range: lines [0:1]\n",
            b"",
            OtherUnit,
        ),
        (
            b"Version: \"a\"\nContent-Range: text [0:1]\nPatches: 1\n",
            b"x",
            BadRange,
        ),
        (
            b"Version: \"a\"\nContent-Range: text [2:1]\n",
            b"\x80",
            Backwards,
        ),
        (b"Version: \"a\"\n", b"a\xff", NotText),
        (
            b"Version: \"a\"\nContent-Range: text [0:0]\n",
            b"\x80",
            NotText,
        ),
        (
            b"Version: \"a\"\nPatches: 2\n",
            b"\nHTTP/1.1 200 OK\n",
            BadLine,
        ),
        (
            b"Version: \"a\"\nPatches: 2\n",
            b"Content-Range: text [0:0]\n\n",
            NoLength,
        ),
        (
            b"Version: \"a\"\nPatches: 2\n",
            b"Content-Length: x\n\n",
            BadLength,
        ),
        (
            b"Version: \"a\"\nPatches: 2\n",
            b"Content-Length: 1048577\n\n",
            TooLong,
        ),
        (
            b"Version: \"a\"\nPatches: 2\n",
            b"Content-Length: 0\n\n",
            NoRange,
        ),
        (
            b"Version: \"a\"\nPatches: 2\n",
            b"Content-Length: 0\nContent-Range: text [0:2]\n\nContent-Length: 9\nContent-Range: text [1:2]\n\n",
            Overlap,
        ),
        (
            b"Version: \"a\"\nPatches: 1\n",
            b"Content-Length: 1\nContent-Range: text [0:2]\n\n\x80\r",
            NotText,
        ),
        (
            b"Version: \"a\"\nPatches: 1\n",
            b"Content-Length: 1\nContent-Length: 1\n\n",
            RepeatedField,
        ),
    ];
    for (n, (lines, body, reason)) in rows.iter().enumerate() {
        let fault = fault_of(alloc, lines, body)?;
        assert!(rt; fault == Some(PutFault::Reason(*reason)), "row {n}");
    }
    Ok(())
}
