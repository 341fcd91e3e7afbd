ghost use Rattle.std.specs.Prelude.{◌<◌};

use super::*;
use braid_ids::Bytes;
use braid_io::{MemSource, PureSource};
use std::alloc::Global;
use std::test::Fail;

const ONE: &[u8] = b"Version: \"a-1\"\r\nParents:\r\nContent-Length: 2\r\n\r\nhi";

const TWO: &[u8] =
    b"\n\nVersion: \"a-1\"\nParents:\nContent-Length: 2\n\nhi\r\n\r\nVersion: \"b-1\"\r\nParents: \"a-1\"\r\nPatches: 1\r\n\r\nContent-Length: 1\r\nContent-Range: text [2:2]\r\n\r\n!\r\n\r\n";

/// Puts what an answer is at the end, in a few characters.
fn describe(alloc: Global, out: &mut Vec<u8>, next: &Next) -> Result<(), Fail> {
    match next {
        Next::Update(update) => out.extend_from_slice(update.id().bytes())?,
        Next::End => out.extend_from_slice(b"End")?,
        Next::Torn { at } => out.extend_from_slice(format!(in alloc; "Torn {at}")?.as_bytes())?,
        Next::Fault(fault) => {
            let text = format!(in alloc; "{:?} {}", fault.reason, fault.at)?;
            out.extend_from_slice(text.as_bytes())?;
        }
        Next::ReadFault => out.extend_from_slice(b"ReadFault")?,
        Next::Spent => out.extend_from_slice(b"Spent")?,
        Next::Memory => out.extend_from_slice(b"Memory")?,
    }
    out.push(b',')?;
    Ok(())
}

/// The first answers of a reader of this input, which comes in pieces of this size, with these reads failing.
fn answers(
    alloc: Global,
    input: &[u8],
    piece: usize,
    fails: &[u64],
    calls: usize,
) -> Result<Vec<u8>, Fail>
    requires { 0 < piece }
{
    let bytes = Bytes::of(alloc, input)?;
    let mut source = MemSource::new(bytes, piece, Vec::from_slice(alloc, fails)?);
    let mut reader = UpdateReader::new(alloc);
    let mut out = Vec::new(alloc);
    for _ in 0..calls {
        let next = reader.next(&mut source);
        describe(alloc, &mut out, &next)?;
    }
    Ok(out)
}

#[test]
fn a_reader_answers_the_updates_and_how_the_stream_ended(rt: HostRuntime) -> Result<(), Fail> {
    let rows: [(&[u8], usize, &[u8]); 8] = [
        (b"", 2, b"End,End,"),
        (b"\r\n\n", 2, b"End,End,"),
        (ONE, 3, b"a-1,End,End,"),
        (TWO, 4, b"a-1,b-1,End,End,"),
        (&ONE[..48], 2, b"Torn 48,Torn 48,"),
        (&TWO[..60], 3, b"a-1,Torn 60,Torn 60,"),
        (b"no colon\n", 2, b"BadLine 0,BadLine 0,"),
        (
            b"\nVersion: \"a-1\"\nContent-Length: 1\n\n\xff\n",
            2,
            b"NotText 35,NotText 35,",
        ),
    ];
    for (input, calls, expected) in rows {
        for piece in [1usize, 10, 9000] {
            let found = answers(rt.alloc(), input, piece.max(1), &[], calls)?;
            assert_eq!(rt; found.as_slice(), expected);
        }
    }
    Ok(())
}

/// The first answers of a reader of this input, which comes in one piece, each with the number of reads so far.
fn answers_with_reads(alloc: Global, input: &[u8], calls: usize) -> Result<Vec<u8>, Fail> {
    let bytes = Bytes::of(alloc, input)?;
    let mut source = MemSource::new(bytes, 9000, Vec::new(alloc));
    let mut reader = UpdateReader::new(alloc);
    let mut out = Vec::new(alloc);
    for _ in 0..calls {
        let next = reader.next(&mut source);
        describe(alloc, &mut out, &next)?;
        let reads = source.calls();
        out.extend_from_slice(format!(in alloc; "{reads},")?.as_bytes())?;
    }
    Ok(out)
}

#[test]
fn what_one_read_brought_is_answered_before_the_next_read(rt: HostRuntime) -> Result<(), Fail> {
    let rows: [(&[u8], usize, &[u8]); 3] = [
        (TWO, 4, b"a-1,1,b-1,1,End,2,End,2,"),
        (ONE, 2, b"a-1,1,End,2,"),
        (
            b"Version: \"a-1\"\nContent-Length: 0\n\nno colon\n",
            2,
            b"a-1,1,BadLine 34,1,",
        ),
    ];
    for (input, calls, expected) in rows {
        let found = answers_with_reads(rt.alloc(), input, calls)?;
        assert_eq!(rt; found.as_slice(), expected);
    }
    Ok(())
}

#[test]
fn a_reader_goes_on_after_a_failed_read(rt: HostRuntime) -> Result<(), Fail> {
    let rows: [(&[u8], usize, &[u64], usize, &[u8]); 4] = [
        (ONE, 10, &[2], 3, b"ReadFault,a-1,End,"),
        (
            ONE,
            1,
            &[0, 1, 30],
            5,
            b"ReadFault,ReadFault,ReadFault,a-1,End,",
        ),
        (ONE, 9000, &[1], 4, b"a-1,ReadFault,End,End,"),
        (&ONE[..48], 9000, &[1, 3], 3, b"ReadFault,Torn 48,Torn 48,"),
    ];
    for (input, piece, fails, calls, expected) in rows {
        let found = answers(rt.alloc(), input, piece.max(1), fails, calls)?;
        assert_eq!(rt; found.as_slice(), expected);
    }
    Ok(())
}

#[test]
fn a_body_may_be_longer_than_the_buffer(rt: HostRuntime) -> Result<(), Fail> {
    let alloc = rt.alloc();
    let mut input = Vec::from_slice(alloc, b"Version: \"a-1\"\nContent-Length: 20000\n\n")?;
    input.extend_from_slice(&vec![in alloc; b'a'; 20_000]?)?;
    input.extend_from_slice(ONE)?;
    let found = answers(alloc, &input, 100_000, &[], 3)?;
    assert_eq!(rt; found.as_slice(), b"a-1,a-1,End,".as_slice());
    Ok(())
}

#[test]
fn a_reader_with_a_source_of_its_own_gives_it_back(rt: HostRuntime) -> Result<(), Fail> {
    let alloc = rt.alloc();
    let mut reader = StreamReader::new(alloc, PureSource::new(Bytes::of(alloc, ONE)?));
    let mut out = Vec::new(alloc);
    let first = reader.next();
    describe(alloc, &mut out, &first)?;
    let second = reader.next();
    describe(alloc, &mut out, &second)?;
    assert_eq!(rt; out.as_slice(), b"a-1,End,".as_slice());
    assert!(rt; reader.source().left().is_empty());
    let source = reader.into_source();
    assert!(rt; source.left().is_empty());
    Ok(())
}

#[test]
fn a_reader_leaves_its_source_alone_once_it_has_ended(rt: HostRuntime) -> Result<(), Fail> {
    let alloc = rt.alloc();
    let bytes = Bytes::of(alloc, b"no colon\n and more")?;
    let mut source = MemSource::new(bytes, 9, Vec::new(alloc));
    let mut reader = UpdateReader::new(alloc);
    let mut out = Vec::new(alloc);
    let first = reader.next(&mut source);
    describe(alloc, &mut out, &first)?;
    let second = reader.next(&mut source);
    describe(alloc, &mut out, &second)?;
    assert_eq!(rt; out.as_slice(), b"BadLine 0,BadLine 0,".as_slice());
    assert_eq!(rt; source.calls(), 1);
    assert_eq!(rt; source.left(), b" and more".as_slice());
    Ok(())
}
