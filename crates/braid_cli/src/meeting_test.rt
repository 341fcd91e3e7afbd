//! Two clients and a server of the program over the system's sockets, on this machine alone.

use crate::commands::exit_code;
use braid_ids::{Bytes, Word};
use braid_io::{MemKeeper, MemSink, MemSource};
use braid_net::{TcpDialer, TcpPort};
use std::alloc::Global;
use std::marker::{Send, Sync};
use std::net::{Net, TcpListener, TcpStream};
use std::sync::Wait;
use std::thread;
use std::thread::Threads;
use std::time::{Clock, Duration};

/// The words of a client, and what they print. `@` stands for the server's address.
const STEPS: [(&[&[u8]], &[u8]); 12] = [
    (&[b"new", b"ann", b"ann", b"@", b"/notes"], b"agent: ann\n"),
    (&[b"set", b"ann", b"hello"], b"wrote: \"ann-1\"\n"),
    (&[b"sync", b"ann"], b"synced: confirmed 1 unsent 0\n"),
    (&[b"new", b"bob", b"bob", b"@", b"/notes"], b"agent: bob\n"),
    (&[b"sync", b"bob"], b"synced: confirmed 1 unsent 0\n"),
    (
        &[b"edit", b"ann", b"5", b"5", b", Bob"],
        b"wrote: \"ann-2\"\n",
    ),
    (
        &[b"edit", b"bob", b"0", b"0", b"Oh, "],
        b"wrote: \"bob-1\"\n",
    ),
    (&[b"sync", b"ann"], b"synced: confirmed 2 unsent 0\n"),
    (&[b"sync", b"bob"], b"synced: confirmed 3 unsent 0\n"),
    (&[b"sync", b"ann"], b"synced: confirmed 3 unsent 0\n"),
    (&[b"show", b"ann"], ANN_SHOWN),
    (&[b"show", b"bob"], BOB_SHOWN),
];

/// What both show at the end. The digest was computed by python3's hashlib.
const ANN_SHOWN: &[u8] =
    b"agent: ann\npath: /notes\nfrontier: \"ann-2\", \"bob-1\"\nconfirmed: 3\nunsent: 0\nlength: 14\ndigest: bc2ca253816a4176afd3faa9039646fecf359223cee00ac213b4ced5d1f14e9d\ntext:\nOh, hello, Bob\n";

const BOB_SHOWN: &[u8] =
    b"agent: bob\npath: /notes\nfrontier: \"ann-2\", \"bob-1\"\nconfirmed: 3\nunsent: 0\nlength: 14\ndigest: bc2ca253816a4176afd3faa9039646fecf359223cee00ac213b4ced5d1f14e9d\ntext:\nOh, hello, Bob\n";

/// These words, with the server's address in place of `@`.
fn words_of(alloc: Global, words: &[&[u8]], server: &[u8]) -> Option<Vec<Word>> {
    let mut list = Vec::new(alloc);
    for word in words {
        let word = if *word == b"@".as_slice() {
            server
        } else {
            *word
        };
        list.push(Word::of(alloc, word).ok()?).ok()?;
    }
    Some(list)
}

/// What the program on these words prints, with its exit status, where it keeps its states in `keeper`.
fn ends<R>(alloc: Global, rt: &R, words: Vec<Word>, keeper: &mut MemKeeper) -> Option<(u8, Bytes)>
where
    R: Net<Listener = TcpListener, Stream = TcpStream>
        + Threads
        + Wait
        + Clock
        + Copy
        + Send
        + Sync,
{
    let mut source = MemSource::new(Bytes::of(alloc, b"").ok()?, 1, Vec::new(alloc));
    let mut out = MemSink::new(alloc, 1_000, Vec::new(alloc)).ok()?;
    let (mut dialer, mut port) = (TcpDialer::new(*rt), TcpPort::new(*rt));
    let code = exit_code(
        alloc,
        rt,
        Ok(words),
        &mut source,
        &mut out,
        keeper,
        &mut dialer,
        &mut port,
    );
    Some((code, Bytes::of(alloc, out.written()).ok()?))
}

/// What the program prints that served eight connections at an address, with its exit status.
fn serve_eight<R>(alloc: Global, rt: &R, server: &[u8]) -> Option<(u8, Bytes)>
where
    R: Net<Listener = TcpListener, Stream = TcpStream>
        + Threads
        + Wait
        + Clock
        + Copy
        + Send
        + Sync,
{
    let words: &[&[u8]] = &[b"serve", b"@", b"--workers=8", b"--take=8"];
    let words = words_of(alloc, words, server)?;
    let mut keeper = MemKeeper::new(Vec::new(alloc), Vec::new(alloc));
    ends(alloc, rt, words, &mut keeper)
}

/// Whether a step prints what is wanted. The first sync is tried until the server is there.
fn step_holds<R>(
    alloc: Global,
    rt: &R,
    server: &[u8],
    keeper: &mut MemKeeper,
    words: &[&[u8]],
    wanted: &[u8],
) -> Option<bool>
where
    R: Net<Listener = TcpListener, Stream = TcpStream>
        + Threads
        + Wait
        + Clock
        + Copy
        + Send
        + Sync,
{
    for _ in 0..500u32 {
        let (code, text) = ends(alloc, rt, words_of(alloc, words, server)?, keeper)?;
        if text.get() != b"fault: DialFault\n".as_slice() {
            return Some(code == 0 && text.get() == wanted);
        }
        thread::sleep(rt, Duration::from_millis(10));
    }
    None
}

/// Whether each step of the two clients prints what is wanted.
fn steps_hold<R>(alloc: Global, rt: &R, server: &[u8]) -> Option<bool>
where
    R: Net<Listener = TcpListener, Stream = TcpStream>
        + Threads
        + Wait
        + Clock
        + Copy
        + Send
        + Sync,
{
    let mut keeper = MemKeeper::new(Vec::new(alloc), Vec::new(alloc));
    for (words, wanted) in STEPS {
        if !step_holds(alloc, rt, server, &mut keeper, words, wanted)? {
            return Some(false);
        }
    }
    Some(true)
}

/// Whether two clients meet at the first of some ports that is free.
fn meet_at<R>(alloc: Global, rt: &R, first: u32) -> Option<bool>
where
    R: Net<Listener = TcpListener, Stream = TcpStream>
        + Threads
        + Wait
        + Clock
        + Copy
        + Send
        + Sync,
{
    for n in 0..20u32 {
        let number = first.saturating_add(n);
        let server = format!(in alloc; "127.0.0.1:{number}").ok()?;
        let server = Bytes::of(alloc, server.as_bytes()).ok()?;
        let (served, hold) = thread::join(
            rt,
            || serve_eight(alloc, rt, server.get()),
            || steps_hold(alloc, rt, server.get()),
        );
        let (code, _text) = served?;
        if code != 3 {
            return Some(code == 0 && hold == Some(true));
        }
    }
    None
}

#[test]
fn two_clients_meet(rt: HostRuntime) {
    let first = 40_000 + std::process::id(rt.process()) % 20_000;
    assert!(rt; meet_at(rt.alloc(), &rt, first) == Some(true));
}
