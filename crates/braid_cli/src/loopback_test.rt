//! The program's parts over the system's sockets, on this machine alone.

use crate::commands::exit_code;
use braid_ids::{Bytes, Word};
use braid_io::{Dialed, Dialer, MemKeeper, MemSink, MemSource, Read, Source, write_all};
use braid_net::{TcpDialer, TcpLink, TcpPort};
use std::alloc::Global;
use std::marker::{Send, Sync};
use std::net::{Net, TcpListener, TcpStream};
use std::sync::Wait;
use std::thread;
use std::thread::Threads;
use std::time::{Clock, Duration};

const PUT: &[u8] =
    b"PUT /a HTTP/1.1\r\nConnection: close\r\nVersion: \"a-1\"\r\nContent-Length: 2\r\n\r\nhi";

const STORED: &[u8] =
    b"HTTP/1.1 200 OK\r\nVersion: \"a-1\"\r\nContent-Length: 0\r\nConnection: close\r\n\r\n";

/// The words that serve one connection at an address.
fn words_at(alloc: Global, server: &[u8]) -> Option<Vec<Word>> {
    let mut words = Vec::new(alloc);
    for word in [b"serve".as_slice(), server, b"--workers=2", b"--take=1"] {
        words.push(Word::of(alloc, word).ok()?).ok()?;
    }
    Some(words)
}

/// What the program prints that served one connection at an address, with its exit status.
fn serve_one<R>(alloc: Global, rt: &R, server: &[u8]) -> Option<(u8, Bytes)>
where
    R: Net<Listener = TcpListener, Stream = TcpStream>
        + Threads
        + Wait
        + Clock
        + Copy
        + Send
        + Sync,
{
    let words = words_at(alloc, server)?;
    let mut source = MemSource::new(Bytes::of(alloc, b"").ok()?, 1, Vec::new(alloc));
    let mut out = MemSink::new(alloc, 1_000, Vec::new(alloc)).ok()?;
    let mut keeper = MemKeeper::new(Vec::new(alloc), Vec::new(alloc));
    let (mut dialer, mut port) = (TcpDialer::new(*rt), TcpPort::new(*rt));
    let code = exit_code(
        alloc,
        rt,
        Ok(words),
        &mut source,
        &mut out,
        &mut keeper,
        &mut dialer,
        &mut port,
    );
    Some((code, Bytes::of(alloc, out.written()).ok()?))
}

/// A connection to an address, once somebody listens there.
fn dial<R: Net<Stream = TcpStream> + Clock + Copy + Send>(
    alloc: Global,
    rt: &R,
    server: &Bytes,
) -> Option<TcpLink> {
    let mut dialer = TcpDialer::new(*rt);
    for _ in 0..500u32 {
        if let Dialed::Up(link) = dialer.dial(alloc, server) {
            return Some(link);
        }
        thread::sleep(rt, Duration::from_millis(10));
    }
    None
}

/// Whether a version is put and its reply comes.
fn puts<R: Net<Stream = TcpStream> + Clock + Copy + Send>(
    alloc: Global,
    rt: &R,
    server: &Bytes,
) -> Option<bool> {
    let mut link = dial(alloc, rt, server)?;
    write_all(PUT, &mut link).ok()?;
    let mut buf = [0u8; 200];
    match link.read(&mut buf) {
        Read::Got(n) => Some(&buf[..n] == STORED),
        Read::End | Read::Failed => None,
    }
}

/// What the program leaves that serves one connection at an address, and whether its client's version was put.
fn meet<R>(alloc: Global, rt: &R, server: &Bytes) -> Option<(u8, Bytes, bool)>
where
    R: Net<Listener = TcpListener, Stream = TcpStream>
        + Threads
        + Wait
        + Clock
        + Copy
        + Send
        + Sync,
{
    let (served, put) = thread::join(
        rt,
        || serve_one(alloc, rt, server.get()),
        || puts(alloc, rt, server),
    );
    let (code, text) = served?;
    Some((code, text, put == Some(true)))
}

/// Whether one connection was served at the first of some ports that is free.
fn serves_at<R>(alloc: Global, rt: &R, first: u32) -> Option<bool>
where
    R: Net<Listener = TcpListener, Stream = TcpStream>
        + Threads
        + Wait
        + Clock
        + Copy
        + Send
        + Sync,
{
    for n in 0..20u32 {
        let number = first.saturating_add(n);
        let server = format!(in alloc; "127.0.0.1:{number}").ok()?;
        let (code, text, put) = meet(alloc, rt, &Bytes::of(alloc, server.as_bytes()).ok()?)?;
        if code != 3 {
            let wanted = format!(in alloc; "serving: {server}\nversions: 1\nsessions: 1\n").ok()?;
            return Some(code == 0 && put && text.get() == wanted.as_bytes());
        }
    }
    None
}

#[test]
fn a_connection_over_loopback_is_served(rt: HostRuntime) {
    let first = 20_000 + std::process::id(rt.process()) % 20_000;
    assert!(rt; serves_at(rt.alloc(), &rt, first) == Some(true));
}
