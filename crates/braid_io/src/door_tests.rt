ghost use Rattle.std.specs.Prelude.{◌≡◌, IsTrue, IfOk, All, List, ℕ};
ghost use Rattle.braid_io.specs.Outside.{Intake, Outflow, Moves, WritesAll, IsNewLink, with_last};
ghost use Rattle.braid_io.specs.Doors.{Visit};
ghost use Rattle.braid_io.specs.Dialers.{Talk};
ghost use Rattle.braid_io.specs.MemDoors.{IsUnused, IsUnusedPair};

use super::*;
use braid_ids::{Bytes, Memory, Word};
use std::alloc::Global;
use std::process::Abort;
use std::test::Fail;

/// Reads once and writes what it got. Whether both were done.
fn echo<K: Link>(link: &mut K) -> bool
    ensures echoed { IsTrue result → (bytes : List ℕ)
        × Moves bytes (K.intake link.old) (K.intake link.new) × WritesAll bytes (K.outflow link.old) (K.outflow link.new) }
{
    let mut buf = [0u8; 8];
    match link.read(&mut buf) {
        Read::Got(n) => write_all(&buf[..n], link) == Ok(()),
        Read::End | Read::Failed => false,
    }
}

/// Accepts a link, echoes on it, and puts it back. Whether all was done.
fn serve_one<D: Door>(door: &mut D) -> bool
    ensures served { IsTrue result → (bytes : List ℕ) × (intake : Intake) × (outflow : Outflow) × (visit : Visit)
        × IsNewLink intake outflow × Moves bytes intake visit.intake × WritesAll bytes outflow visit.outflow
        × ((D.doorway door.new).served ≡ with_last (D.doorway door.old).served visit) }
    ensures up { (D.doorway door.new).up ≡ (D.doorway door.old).up }
{
    let Came::Up(mut link) = door.accept() else {
        return false;
    };
    let done = echo(&mut link);
    door.put_back(link);
    done
}

/// Dials, echoes, and hangs up. Whether all was done.
fn call_one<D: Dialer>(dialer: &mut D, alloc: Global, server: &Bytes) -> bool
    ensures called { IsTrue result → (bytes : List ℕ) × (intake : Intake) × (outflow : Outflow) × (talk : Talk)
        × IsNewLink intake outflow × Moves bytes intake talk.intake × WritesAll bytes outflow talk.outflow
        × (talk.server ≡ server.now)
        × ((D.dialing dialer.new).talks ≡ with_last (D.dialing dialer.old).talks talk) }
    ensures up { (D.dialing dialer.new).servers ≡ (D.dialing dialer.old).servers }
{
    let Dialed::Up(mut link) = dialer.dial(alloc, server) else {
        return false;
    };
    let done = echo(&mut link);
    dialer.hang_up(link);
    done
}

/// A link that has `text` to give, three bytes at a time, and room for eight; the reads and writes of these numbers fail.
fn link_of(alloc: Global, text: &[u8], fails: &[u64]) -> Result<MemLink, Memory>
    ensures ok { IfOk result IsUnused }
{
    let left = Bytes::of(alloc, text)?;
    MemLink::new(alloc, left, 3, 8, Vec::from_slice(alloc, fails)?)
}

/// A link that gives `abcd`, and one whose reads fail.
fn two_links(alloc: Global) -> Result<Vec<MemLink>, Memory>
    ensures ok { IfOk result (λ links. All IsUnused links.items) }
{
    let first = link_of(alloc, b"abcd", &[])?;
    let second = link_of(alloc, b"e", &[0, 1])?;
    Ok(Vec::from_array(alloc, [first, second])?)
}

/// A door with two links whose second accept fails, and a bell that answers twice.
fn pair_of(alloc: Global) -> Result<(MemDoor, MemBell), Memory>
    ensures ok { IfOk result IsUnusedPair }
{
    let fails = Vec::from_slice(alloc, &[1])?;
    let door = MemDoor::new(alloc, two_links(alloc)?, fails)?;
    Ok((door, MemBell::new(2)))
}

/// Whether the link was read, written and failed to be read so.
fn tells(link: &MemLink, taken: &[u8], written: &[u8], faults: u64) -> bool {
    link.taken() == taken && link.written() == written && link.read_faults() == faults
}

/// What four visits at a door come to.
fn visits(door: &mut MemDoor) -> [bool; 4] {
    let first = serve_one(door);
    let second = serve_one(door);
    let third = serve_one(door);
    [first, second, third, serve_one(door)]
}

/// Whether the door counted those visits and keeps the links.
fn keeps_visits(door: &MemDoor) -> bool {
    let [first, second] = door.served() else {
        return false;
    };
    door.calls() == 4
        && door.faults() == 1
        && tells(first, b"abc", b"abc", 0)
        && tells(second, b"", b"", 1)
}

#[test]
fn a_door_keeps_the_links_put_back(rt: HostRuntime) -> Result<(), Fail> {
    let (mut door, _) = pair_of(rt.alloc())?;
    let answers = visits(&mut door);
    let keeps = keeps_visits(&door);
    assert!(rt; keeps && answers == [true, false, false, false]);
    Ok(())
}

/// A port with two pairs.
fn port_of(alloc: Global) -> Result<MemPort, Memory> {
    let first = pair_of(alloc)?;
    let second = pair_of(alloc)?;
    let pairs = Vec::from_array(alloc, [first, second])?;
    Ok(MemPort::new(alloc, pairs, Vec::new(alloc)))
}

/// How many pairs a port gives for so many workers.
fn given(port: &mut MemPort, alloc: Global, server: &Bytes, workers: u32) -> Option<usize> {
    match port.open(alloc, server, workers, 7) {
        Opened::Up(pairs) => Some(pairs.len()),
        Opened::Failed | Opened::Memory => None,
    }
}

#[test]
fn a_port_gives_its_pairs_once(rt: HostRuntime) -> Result<(), Fail> {
    let alloc = rt.alloc();
    let server = Bytes::of(alloc, b"localhost:9000")?;
    let mut port = port_of(alloc)?;
    let three = given(&mut port, alloc, &server, 3);
    let one = given(&mut port, alloc, &server, 1);
    let other = given(&mut port, alloc, &server, 1);
    let none = given(&mut port, alloc, &server, 1);
    let counts = (port.calls(), port.faults(), port.asked().len());
    assert!(rt; [three, one, other, none] == [None, Some(1), Some(1), None] && counts == (4, 2, 4));
    Ok(())
}

#[test]
fn a_bell_answers_so_often(rt: HostRuntime) {
    let mut bell = MemBell::new(2);
    bell.ring();
    let first = bell.wait();
    let second = bell.wait();
    let third = bell.wait();
    assert!(rt; (first, second, third) == (Rang::Again, Rang::Again, Rang::End));
    assert!(rt; (bell.agains(), bell.rings()) == (2, 1));
}

/// What four calls of a dialer come to.
fn dials(dialer: &mut MemDialer, alloc: Global, server: &Bytes) -> [bool; 4] {
    let first = call_one(dialer, alloc, server);
    let second = call_one(dialer, alloc, server);
    let third = call_one(dialer, alloc, server);
    [first, second, third, call_one(dialer, alloc, server)]
}

/// Whether the dialer counted those calls and keeps the links.
fn keeps_talks(dialer: &MemDialer, server: &Bytes) -> bool {
    let [first, second] = dialer.talks() else {
        return false;
    };
    dialer.calls() == 4
        && dialer.faults() == 2
        && first.server.get() == server.get()
        && second.server.get() == server.get()
        && tells(&first.link, b"abc", b"abc", 0)
        && tells(&second.link, b"", b"", 1)
}

#[test]
fn a_dialer_keeps_the_links_hung_up(rt: HostRuntime) -> Result<(), Fail> {
    let alloc = rt.alloc();
    let server = Bytes::of(alloc, b"localhost:9000")?;
    let fails = Vec::from_slice(alloc, &[0])?;
    let mut dialer = MemDialer::new(alloc, two_links(alloc)?, fails)?;
    let answers = dials(&mut dialer, alloc, &server);
    let keeps = keeps_talks(&dialer, &server);
    assert!(rt; keeps && answers == [false, true, false, false]);
    Ok(())
}

/// Whether a load gives these bytes, or nothing where there are none.
fn gives(keeper: &mut MemKeeper, alloc: Global, name: &Word, kept: Option<&[u8]>) -> bool {
    match keeper.load(alloc, name) {
        Loaded::Bytes(bytes) => kept == Some(bytes.get()),
        Loaded::Nothing => kept.is_none(),
        Loaded::Failed | Loaded::Memory => false,
    }
}

/// Saves bytes. Whether that was answered so, and what is then given is this.
fn saves(
    keeper: &mut MemKeeper,
    alloc: Global,
    name: &Word,
    row: (&[u8], Saved, &[u8]),
) -> Result<bool, Memory> {
    let bytes = Bytes::of(alloc, row.0)?;
    let answer = keeper.save(alloc, name, &bytes);
    Ok(answer == row.1 && gives(keeper, alloc, name, Some(row.2)))
}

#[test]
fn a_keeper_gives_what_was_saved_last(rt: HostRuntime) -> Result<(), Fail> {
    let alloc = rt.alloc();
    let name = Word::of(alloc, b"notes.state")?;
    let mut keeper = MemKeeper::new(Vec::new(alloc), Vec::from_slice(alloc, &[3])?);
    let none = gives(&mut keeper, alloc, &name, None);
    let first = saves(&mut keeper, alloc, &name, (b"one", Saved::Done, b"one"))?;
    let failed = saves(&mut keeper, alloc, &name, (b"two", Saved::Failed, b"one"))?;
    let second = saves(&mut keeper, alloc, &name, (b"two", Saved::Done, b"two"))?;
    let counts = (keeper.calls(), keeper.load_faults(), keeper.save_faults());
    assert!(rt; none && first && failed && second && counts == (7, 0, 1));
    Ok(())
}
