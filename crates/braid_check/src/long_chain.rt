//! A long chain of updates, each on the one before it.

use super::*;
use braid_ids::{Bytes, Word, after};
use braid_io::{MemSink, MemSource, Status};
use std::alloc::Global;
use std::test::Fail;

/// What is printed of the chain before its text. The digest was computed by python3's hashlib.
const LINES: &[u8] =
    b"versions: 40000\nfrontier: \"c-40000\"\nlength: 40000\ndigest: 723556362153b95c03153a05cebe0ce851c551faeba90d48bb13111419ac42c4\ntext:\n";

/// The canonical spelling of update number k: `x` at the end of what the one before it has.
fn push_update(alloc: Global, stream: &mut Vec<u8>, k: u32) -> Result<(), Fail> {
    let n = k.saturating_sub(1);
    let parents = if n == 0 {
        format!(in alloc; "")?
    } else {
        format!(in alloc; " \"c-{n}\"")?
    };
    let spelling = format!(in alloc;
        "Version: \"c-{k}\"\r\nParents:{parents}\r\nPatches: 1\r\n\r\nContent-Length: 1\r\nContent-Range: text [{n}:{n}]\r\n\r\nx\r\n\r\n"
    )?;
    stream.extend_from_slice(spelling.as_bytes())?;
    Ok(())
}

/// The chain as a stream.
fn chain(alloc: Global) -> Result<Vec<u8>, Fail> {
    let mut stream = Vec::new(alloc);
    for k in 1..40_001u32 {
        push_update(alloc, &mut stream, k)?;
    }
    Ok(stream)
}

/// What `check` writes of these bytes.
fn checked(alloc: Global, input: &[u8]) -> Result<MemSink, Fail> {
    let mut source = MemSource::new(Bytes::of(alloc, input)?, 8_192, Vec::new(alloc));
    let mut out = MemSink::new(alloc, 100_000, Vec::new(alloc))?;
    let words = [Word::of(alloc, b"check")?];
    match check_run(alloc, &words, &mut source, &mut out) {
        Status::Done => Ok(out),
        _ => Err("no lines".into()),
    }
}

/// Whether a text is these lines, 40,000 letters `x` and a line end.
fn has_letters(lines: &[u8], text: &[u8]) -> bool {
    let Some(letters) = after(lines, text) else {
        return false;
    };
    let found = letters.iter().filter(|byte| **byte == b'x').count();
    found == 40_000 && letters.len() == 40_001 && letters.last() == Some(&b'\n')
}

#[test]
fn long_chain(rt: HostRuntime) -> Result<(), Fail> {
    let stream = chain(rt.alloc())?;
    let out = checked(rt.alloc(), &stream)?;
    if has_letters(LINES, out.written()) {
        Ok(())
    } else {
        Err("another text".into())
    }
}
