ghost use Rattle.std.specs.Prelude.{IfOk, All};
ghost use Rattle.braid_io.specs.MemDoors.{IsUnusedPair};

use super::*;
use braid_ids::{Bytes, Memory, Word};
use braid_io::{MemBell, MemDialer, MemDoor, MemKeeper, MemLink, MemPort, MemSink, MemSource};
use std::alloc::Global;
use std::io::ErrorKind;
use std::marker::Sync;
use std::sync::Wait;
use std::test::Fail;
use std::thread::Threads;
use words::WordsFault;

const ONE: &[u8] = b"Version: \"a-1\"\r\nParents:\r\nContent-Length: 2\r\n\r\nhi";

const ONE_TEXT: &[u8] =
    b"versions: 1\nfrontier: \"a-1\"\nlength: 2\ndigest: 16f68e38e2d2af2c0f82455355d769640b1dda0f72c99b60b18f6f42deefbc9d\ntext:\nhi\n";

/// What `show` prints of a state with that update alone, unsent.
const SHOWN: &[u8] =
    b"agent: a\npath: /d\nfrontier: \"a-1\"\nconfirmed: 0\nunsent: 1\nlength: 2\ndigest: 16f68e38e2d2af2c0f82455355d769640b1dda0f72c99b60b18f6f42deefbc9d\ntext:\nhi\n";

/// What a drill prints that draws one sync of a replica without updates. The digest is that of no bytes.
const DRILLED: &[u8] =
    b"rounds: 1\nversions: 0\nunsent: 0\nequal: 4\ndigest: e3b0c44298fc1c149afbf4c8996fb92427ae41e4649b934ca495991b7852b855\n";

const PUT: &[u8] = b"PUT /a HTTP/1.1\r\nVersion: \"a-1\"\r\nContent-Length: 2\r\n\r\nhi";

/// What the program on these words left.
#[derive(Drop)]
struct Outcome {
    code: u8,
    out: MemSink,
    source: MemSource,
    keeper: MemKeeper,
    dialer: MemDialer,
    port: MemPort,
}

impl Outcome {
    /// Whether it ended so, with this text, and used nothing but what is printed and, `asked` times, the port.
    fn is(&self, code: u8, text: &[u8], asked: usize) -> bool {
        let unused = self.keeper.calls() == 0 && self.dialer.calls() == 0;
        self.code == code
            && self.out.written() == text
            && unused
            && self.port.asked().len() == asked
    }
}

/// A door with one link, which puts a version, and a bell.
fn pair_of(alloc: Global) -> Result<(MemDoor, MemBell), Memory>
    ensures ok { IfOk result IsUnusedPair }
{
    let put = Bytes::of(alloc, PUT)?;
    let link = MemLink::new(alloc, put, 100, 100, Vec::new(alloc))?;
    let mut links = Vec::new(alloc);
    links.push(link)?;
    Ok((
        MemDoor::new(alloc, links, Vec::new(alloc))?,
        MemBell::new(0),
    ))
}

/// A port with one door.
fn port_of(alloc: Global) -> Result<MemPort, Memory> {
    let mut pairs = Vec::new(alloc);
    pairs.push(pair_of(alloc)?)?;
    Ok(MemPort::new(alloc, pairs, Vec::new(alloc)))
}

/// The program on these words, or on the fault of reading them, over this input. The read calls with these numbers fail.
fn end_with<R: Threads + Wait + Sync>(
    rt: &R,
    alloc: Global,
    words: Result<&[&[u8]], WordsFault>,
    input: &[u8],
    fails: &[u64],
) -> Result<Outcome, Memory> {
    let words = match words {
        Ok(words) => Ok(words_of(alloc, words)?),
        Err(fault) => Err(fault),
    };
    let fails = Vec::from_slice(alloc, fails)?;
    let mut source = MemSource::new(Bytes::of(alloc, input)?, 10, fails);
    let mut out = MemSink::new(alloc, 1_000, Vec::new(alloc))?;
    let mut keeper = MemKeeper::new(Vec::new(alloc), Vec::new(alloc));
    let mut dialer = MemDialer::new(alloc, Vec::new(alloc), Vec::new(alloc))?;
    let mut port = port_of(alloc)?;
    let code = exit_code(
        alloc,
        rt,
        words,
        &mut source,
        &mut out,
        &mut keeper,
        &mut dialer,
        &mut port,
    );
    Ok(Outcome {
        code,
        out,
        source,
        keeper,
        dialer,
        port,
    })
}

/// These words.
fn words_of(alloc: Global, words: &[&[u8]]) -> Result<Vec<Word>, Memory> {
    let mut list = Vec::new(alloc);
    for word in words {
        list.push(Word::of(alloc, word)?)?;
    }
    Ok(list)
}

#[test]
fn words_and_input_give_the_exit_status(rt: HostRuntime) -> Result<(), Fail> {
    let rows: [(&[&[u8]], &[u8], u8, &[u8]); 3] = [
        (&[b"check"], ONE, 0, ONE_TEXT),
        (&[b"check"], b"no colon\n", 1, b"fault: BadLine at 0\n"),
        (&[b"check", b"--help"], ONE, 2, b"fault: Usage\n"),
    ];
    for (words, input, code, text) in rows {
        let found = end_with(&rt, rt.alloc(), Ok(words), input, &[])?;
        assert!(rt; found.is(code, text, 0));
    }
    let found = end_with(&rt, rt.alloc(), Ok(&[b"check"]), ONE, &[0])?;
    assert_eq!(rt; found.code, 3);
    Ok(())
}

#[test]
fn connections_are_served_and_nothing_is_read(rt: HostRuntime) -> Result<(), Fail> {
    let rows: [(&[&[u8]], u8, &[u8], usize); 3] = [
        (
            &[b"serve", b"h:1", b"--workers", b"1"],
            0,
            b"serving: h:1\nversions: 1\nsessions: 1\n",
            1,
        ),
        (
            &[b"serve", b"h:1", b"--workers", b"2"],
            3,
            b"fault: PortFault\n",
            1,
        ),
        (&[b"serve", b"h:1", b"--workers"], 2, b"fault: Usage\n", 0),
    ];
    for (words, code, text, asked) in rows {
        let found = end_with(&rt, rt.alloc(), Ok(words), ONE, &[])?;
        assert!(rt; found.is(code, text, asked));
        assert_eq!(rt; found.source.left(), ONE);
    }
    Ok(())
}

#[test]
fn a_drill_prints_and_touches_nothing_else(rt: HostRuntime) -> Result<(), Fail> {
    let rows: [(&[&[u8]], u8, &[u8]); 5] = [
        (&[b"drill", b"5", b"1"], 0, DRILLED),
        (&[b"drill", b"5", b"0"], 2, b"fault: Usage\n"),
        (&[b"drill", b"5", b"20001"], 2, b"fault: Usage\n"),
        (&[b"drill", b"5"], 2, b"fault: Usage\n"),
        (&[b"drill", b"5", b"1", b"1"], 2, b"fault: Usage\n"),
    ];
    for (words, code, text) in rows {
        let found = end_with(&rt, rt.alloc(), Ok(words), ONE, &[])?;
        assert!(rt; found.is(code, text, 0));
        assert_eq!(rt; found.source.left(), ONE);
    }
    Ok(())
}

#[test]
fn other_words_are_refused_and_nothing_is_read(rt: HostRuntime) -> Result<(), Fail> {
    let rows: [(Result<&[&[u8]], WordsFault>, u8, &[u8]); 13] = [
        (Ok(&[]), 2, b"fault: Usage\n"),
        (Ok(&[b""]), 2, b"fault: Usage\n"),
        (Ok(&[b"", b"check"]), 2, b"fault: Usage\n"),
        (Ok(&[b"Check"]), 2, b"fault: Usage\n"),
        (Ok(&[b"chec"]), 2, b"fault: Usage\n"),
        (Ok(&[b"check\0"]), 2, b"fault: Usage\n"),
        (Ok(&[b"--check"]), 2, b"fault: Usage\n"),
        (Ok(&[b"server", b"h:1"]), 2, b"fault: Usage\n"),
        (Ok(&[b"shows", b"s"]), 2, b"fault: Usage\n"),
        (Ok(&[b"drills", b"5", b"1"]), 2, b"fault: Usage\n"),
        (Ok(&[b"\xff", b"5", b"1"]), 2, b"fault: Usage\n"),
        (Err(WordsFault::NotText), 2, b"fault: Usage\n"),
        (Err(WordsFault::Memory), 4, b""),
    ];
    for (words, code, text) in rows {
        let found = end_with(&rt, rt.alloc(), words, ONE, &[])?;
        assert!(rt; found.is(code, text, 0));
        assert_eq!(rt; found.source.left(), ONE);
    }
    Ok(())
}

/// What a client's words on what `keeper` keeps print, with the exit status, where no server is reached.
fn client_ends<R: Threads + Wait + Sync>(
    rt: &R,
    alloc: Global,
    words: &[&[u8]],
    keeper: &mut MemKeeper,
) -> Result<(u8, MemSink), Memory> {
    let words = words_of(alloc, words)?;
    let mut source = MemSource::new(Bytes::of(alloc, b"")?, 1, Vec::new(alloc));
    let mut out = MemSink::new(alloc, 1_000, Vec::new(alloc))?;
    let mut dialer = MemDialer::new(alloc, Vec::new(alloc), Vec::new(alloc))?;
    let mut port = port_of(alloc)?;
    let code = exit_code(
        alloc,
        rt,
        Ok(words),
        &mut source,
        &mut out,
        keeper,
        &mut dialer,
        &mut port,
    );
    Ok((code, out))
}

#[test]
fn a_client_keeps_what_it_writes(rt: HostRuntime) -> Result<(), Fail> {
    let rows: [(&[&[u8]], u8, &[u8]); 8] = [
        (&[b"new", b"s", b"a", b"h:1", b"/d"], 0, b"agent: a\n"),
        (&[b"set", b"s", b"hi"], 0, b"wrote: \"a-1\"\n"),
        (&[b"show", b"s"], 0, SHOWN),
        (
            &[b"edit", b"s", b"9", b"9", b"x"],
            1,
            b"fault: OutOfRange patch 0 len 2\n",
        ),
        (&[b"sync", b"s"], 3, b"fault: DialFault\n"),
        (&[b"follow", b"s", b"1"], 3, b"fault: DialFault\n"),
        (&[b"show", b"t"], 1, b"fault: NoState\n"),
        (&[b"show", b"s", b"s"], 2, b"fault: Usage\n"),
    ];
    let mut keeper = MemKeeper::new(Vec::new(rt.alloc()), Vec::new(rt.alloc()));
    for (words, code, text) in rows {
        let (found, out) = client_ends(&rt, rt.alloc(), words, &mut keeper)?;
        assert!(rt; found == code && out.written() == text);
    }
    Ok(())
}

#[test]
fn words_are_read_or_their_fault_is_told(rt: HostRuntime) {
    assert!(rt; read_words(&rt).is_ok());
    let rows = [
        (ErrorKind::OutOfMemory, WordsFault::Memory),
        (ErrorKind::InvalidData, WordsFault::NotText),
    ];
    for (kind, fault) in rows {
        assert_eq!(rt; words::words_fault(kind), fault);
    }
}
