use super::*;
use braid_ids::{Bytes, Word};
use braid_io::{
    Bell, Came, Dialed, Dialer, Door, Keeper, Loaded, Opened, Port, Rang, Read, Saved, Sink,
    Source, Wrote, write_all,
};
use std::alloc::Global;
use std::marker::Send;
use std::net::{Net, TcpListener, TcpStream};
use std::rt::Files;
use std::sync::Wait;
use std::thread::Threads;
use std::time::{Clock, Duration, Instant};
use std::{fs, thread};

/// The doors of an opening for two workers, at a port that the system gives, which take one connection together.
fn doors<R: Net<Listener = TcpListener, Stream = TcpStream> + Wait + Clock + Copy + Send>(
    alloc: Global,
    port: &mut TcpPort<R>,
) -> Option<(TcpDoor, TcpDoor)> {
    let server = Bytes::of(alloc, b"127.0.0.1:0").ok()?;
    let Opened::Up(mut pairs) = port.open(alloc, &server, 2, 1) else {
        return None;
    };
    let (door, _) = pairs.pop()?;
    let (other, _) = pairs.pop()?;
    Some((door, other))
}

/// The address that a door listens at.
fn address_of(alloc: Global, door: &TcpDoor) -> Option<Bytes> {
    let address = door.address().ok()?;
    let text = format!(in alloc; "{address}").ok()?;
    Bytes::of(alloc, text.as_bytes()).ok()
}

/// Both ends of a connection to a door.
fn ends<R: Net<Stream = TcpStream> + Send + Drop>(
    alloc: Global,
    dialer: &mut TcpDialer<R>,
    door: &mut TcpDoor,
) -> Option<(TcpLink, TcpLink)> {
    let server = address_of(alloc, door)?;
    let Dialed::Up(client) = dialer.dial(alloc, &server) else {
        return None;
    };
    let Came::Up(link) = door.accept() else {
        return None;
    };
    Some((client, link))
}

/// Writes a text on one side and reads it on the other. Whether it came.
fn passes(text: &[u8], from: &mut TcpLink, to: &mut TcpLink) -> bool {
    let mut buf = [0u8; 16];
    match (write_all(text, from), to.read(&mut buf)) {
        (Ok(()), Read::Got(n)) => &buf[..n] == text,
        _ => false,
    }
}

/// Whether the other end has gone: a read ends, and after some writes one fails.
fn finds_it_gone(link: &mut TcpLink) -> bool {
    let ended = link.read(&mut [0u8; 1]) == Read::End;
    for _ in 0..1_000u32 {
        if link.write(b"x") == Wrote::Failed {
            return ended && link.read_faults() == 0 && link.write_faults() == 1;
        }
    }
    false
}

/// What one connection comes to: its bytes come both ways, its end is found, and then both doors have ended.
fn serve_one<R: Net<Stream = TcpStream> + Send + Drop>(
    alloc: Global,
    dialer: &mut TcpDialer<R>,
    door: &mut TcpDoor,
    other: &mut TcpDoor,
) -> Option<[bool; 4]> {
    let (mut client, mut link) = ends(alloc, dialer, door)?;
    let there = passes(b"ping", &mut client, &mut link);
    let back = passes(b"pong", &mut link, &mut client);
    dialer.hang_up(client);
    let gone = finds_it_gone(&mut link);
    door.put_back(link);
    let ended = has_ended(door) && has_ended(other);
    Some([there, back, gone, ended])
}

/// Whether a door has ended.
fn has_ended(door: &mut TcpDoor) -> bool {
    matches!(door.accept(), Came::End)
}

/// What the connection of an opening comes to.
fn open_and_serve<R>(alloc: Global, rt: R) -> Option<[bool; 4]>
where
    R: Net<Listener = TcpListener, Stream = TcpStream> + Wait + Clock + Copy + Send,
{
    let mut port = TcpPort::new(rt);
    let mut dialer = TcpDialer::new(rt);
    let (mut door, mut other) = doors(alloc, &mut port)?;
    serve_one(alloc, &mut dialer, &mut door, &mut other)
}

#[test]
fn a_connection_carries_bytes_both_ways_and_uses_up_a_claim(rt: HostRuntime) {
    let served = open_and_serve(rt.alloc(), rt);
    assert!(rt; served == Some([true; 4]));
}

/// Whether a port fails at an address.
fn fails_to_open<R: Net<Listener = TcpListener, Stream = TcpStream> + Wait + Clock + Copy + Send>(
    alloc: Global,
    port: &mut TcpPort<R>,
    server: &Bytes,
) -> bool {
    matches!(port.open(alloc, server, 1, 1), Opened::Failed)
}

/// Whether a port fails at an address that is taken, and at one that is no text.
fn fails_at_taken<R>(alloc: Global, rt: R) -> Option<[bool; 2]>
where
    R: Net<Listener = TcpListener, Stream = TcpStream> + Wait + Clock + Copy + Send,
{
    let mut port = TcpPort::new(rt);
    let (door, _other) = doors(alloc, &mut port)?;
    let taken = address_of(alloc, &door)?;
    let no_text = Bytes::of(alloc, b"\xff:0").ok()?;
    let fails = fails_to_open(alloc, &mut port, &taken);
    Some([fails, fails_to_open(alloc, &mut port, &no_text)])
}

#[test]
fn a_port_fails_where_its_address_is_taken(rt: HostRuntime) {
    let fails = fails_at_taken(rt.alloc(), rt);
    assert!(rt; fails == Some([true; 2]));
}

/// Whether a dialer fails at an address.
fn fails_to_dial<R: Net<Stream = TcpStream> + Send + Drop>(
    alloc: Global,
    dialer: &mut TcpDialer<R>,
    server: &[u8],
) -> Option<bool> {
    let server = Bytes::of(alloc, server).ok()?;
    Some(matches!(dialer.dial(alloc, &server), Dialed::Failed))
}

#[test]
fn a_dialer_fails_where_nobody_listens(rt: HostRuntime) {
    let mut dialer = TcpDialer::new(rt);
    for server in [b"127.0.0.1:1".as_slice(), b"\xff:1", b"127.0.0.1"] {
        let fails = fails_to_dial(rt.alloc(), &mut dialer, server);
        assert!(rt; fails == Some(true));
    }
}

/// Whether a bell was answered within two seconds, or after them.
fn waits<R>(rt: &R, bell: &mut RingBell<R>) -> Option<bool>
where
    R: Wait + Clock + Send + Drop,
{
    let start = Instant::now(rt).ok()?;
    if bell.wait() != Rang::Again {
        return None;
    }
    Some(start.elapsed(rt).ok()? >= Duration::from_millis(1_900))
}

/// Rings one of two bells, and tells which waits then last: both once, and the second again.
fn waits_after_a_ring<R>(alloc: Global, rt: R) -> Option<[bool; 3]>
where
    R: Wait + Clock + Copy + Send,
{
    let mut first = RingBell::new(alloc, rt).ok()?;
    let mut second = first.another().ok()?;
    first.ring();
    let other = waits(&rt, &mut second)?;
    let own = waits(&rt, &mut first)?;
    let again = waits(&rt, &mut second)?;
    Some([other, own, again])
}

#[test]
fn a_ring_is_heard_at_each_bell_once(rt: HostRuntime) {
    let last = waits_after_a_ring(rt.alloc(), rt);
    assert!(rt; last == Some([false, false, true]));
}

/// Rings one bell a little after the wait for another began in a second thread. Whether the wait was then over at once.
fn wakes<R: Threads + Wait + Clock + Copy + Send>(alloc: Global, rt: R) -> Option<bool> {
    let mut first = RingBell::new(alloc, rt).ok()?;
    let mut second = first.another().ok()?;
    let start = Instant::now(&rt).ok()?;
    let (rang, ()) = thread::join(
        &rt,
        || second.wait(),
        || {
            thread::sleep(&rt, Duration::from_millis(100));
            first.ring();
        },
    );
    Some(rang == Rang::Again && start.elapsed(&rt).ok()? < Duration::from_millis(1_900))
}

#[test]
fn a_ring_wakes_a_thread_that_waits(rt: HostRuntime) {
    assert!(rt; wakes(rt.alloc(), rt) == Some(true));
}

/// Whether a load gives these bytes, or nothing where there are none.
fn gives<R: Files + Drop>(
    alloc: Global,
    keeper: &mut FileKeeper<R>,
    name: &Word,
    kept: Option<&[u8]>,
) -> bool {
    match keeper.load(alloc, name) {
        Loaded::Bytes(found) => kept.is_some_and(|bytes| found.get() == bytes),
        Loaded::Nothing => kept.is_none(),
        Loaded::Failed | Loaded::Memory => false,
    }
}

/// Saves bytes. Whether that was answered so, and these are then given.
fn saves<R: Files + Drop>(
    alloc: Global,
    keeper: &mut FileKeeper<R>,
    name: &Word,
    bytes: &[u8],
    answer: Saved,
    kept: &[u8],
) -> Option<bool> {
    let bytes = Bytes::of(alloc, bytes).ok()?;
    Some(keeper.save(alloc, name, &bytes) == answer && gives(alloc, keeper, name, Some(kept)))
}

/// What is given before and after two saves at a path where nothing stands.
fn keeps_the_last<R: Files + Drop>(
    alloc: Global,
    keeper: &mut FileKeeper<R>,
    name: &Word,
) -> Option<[bool; 3]> {
    let none = gives(alloc, keeper, name, None);
    let first = saves(alloc, keeper, name, b"one", Saved::Done, b"one")?;
    let second = saves(alloc, keeper, name, b"three", Saved::Done, b"three")?;
    Some([none, first, second])
}

/// What is given beside a file that a stop left half written, after the save that follows, and after one that fails, as
/// a folder stands where the new file is to be written.
fn keeps_at_a_stop<R: Files + Copy + Drop>(
    alloc: Global,
    rt: R,
    keeper: &mut FileKeeper<R>,
    name: &Word,
    beside: &str,
) -> Option<[bool; 3]> {
    fs::write(&rt, beside, b"fo".as_slice()).ok()?;
    let older = gives(alloc, keeper, name, Some(b"three"));
    let newer = saves(alloc, keeper, name, b"four", Saved::Done, b"four")?;
    fs::create_dir(&rt, beside).ok()?;
    let failed = saves(alloc, keeper, name, b"five", Saved::Failed, b"four")?;
    fs::remove_dir(&rt, beside).ok()?;
    Some([older, newer, failed])
}

/// What a keeper comes to at a path.
fn keeps<R: Files + Copy + Drop>(
    alloc: Global,
    rt: R,
    path: &str,
) -> Option<([bool; 3], [bool; 3])> {
    let name = Word::of(alloc, path.as_bytes()).ok()?;
    let beside = format!(in alloc; "{path}.new").ok()?;
    let mut keeper = FileKeeper::new(rt);
    // What an earlier run may have left.
    let _ = fs::remove_file(&rt, path);
    let last = keeps_the_last(alloc, &mut keeper, &name)?;
    let stop = keeps_at_a_stop(alloc, rt, &mut keeper, &name, beside.as_str())?;
    fs::remove_file(&rt, path).ok()?;
    Some((last, stop))
}

/// Whether a load and a save fail at a name.
fn fails_to_keep<R: Files + Drop>(alloc: Global, rt: R, name: &[u8]) -> Option<bool> {
    let name = Word::of(alloc, name).ok()?;
    let bytes = Bytes::of(alloc, b"").ok()?;
    let mut keeper = FileKeeper::new(rt);
    let loaded = matches!(keeper.load(alloc, &name), Loaded::Failed);
    Some(loaded && keeper.save(alloc, &name, &bytes) == Saved::Failed)
}

/// A path of this run's own.
fn path_of(alloc: Global, process: u32) -> Option<String> {
    format!(in alloc; "/tmp/braid_net_{process}.state").ok()
}

/// What a keeper comes to at a path of this run's own.
fn keeps_at<R: Files + Copy + Drop>(
    alloc: Global,
    rt: R,
    process: u32,
) -> Option<([bool; 3], [bool; 3])> {
    let path = path_of(alloc, process)?;
    keeps(alloc, rt, path.as_str())
}

#[test]
fn a_file_is_kept_and_replaced_whole(rt: HostRuntime) {
    let kept = keeps_at(rt.alloc(), rt, std::process::id(rt.process()));
    assert!(rt; kept == Some(([true; 3], [true; 3])));
    for name in [b"/dev/null/none".as_slice(), b"\xff"] {
        assert!(rt; fails_to_keep(rt.alloc(), rt, name) == Some(true));
    }
}
