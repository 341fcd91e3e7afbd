//! Two workers beside one another: each of two connections, or its bell, waits for a reply of the other.

ghost use Rattle.std.specs.Prelude.{◌≡◌};

use crate::serve_run;
use crate::tests::words_of;
use braid_ids::{Bytes, Memory};
use braid_io::{
    Bell, Came, Door, Link, MemSink, Opened, Port, Rang, Read, Sink, Source, Status, Wrote,
};
use std::alloc::Global;
use std::sync::atomic::{AtomicBool, Ordering};
use std::sync::{Arc, Wait};
use std::test::Fail;
use std::thread::Threads;

/// How often a connection looks whether it may go on.
const LOOKS: u32 = 10_000_000;

const GET_FIRST: &[u8] =
    b"GET /notes HTTP/1.1\r\n\r\nGET /notes HTTP/1.1\r\nConnection: close\r\n\r\n";

const GET_LENGTH: usize = 23;

const PUT: &[u8] =
    b"PUT /notes HTTP/1.1\r\nVersion: \"ann-1\"\r\nContent-Length: 5\r\nConnection: close\r\n\r\nhello";

const ABSENT: &[u8] =
    b"HTTP/1.1 404 Not Found\r\nContent-Type: text/plain; charset=utf-8\r\nContent-Length: 7\r\n\r\nAbsent\n";

const FOUND: &[u8] =
    b"HTTP/1.1 200 OK\r\nVersion: \"ann-1\"\r\nMerge-Type: ti-text\r\nContent-Type: text/plain; charset=utf-8\r\nContent-Length: 5\r\nConnection: close\r\n\r\nhello";

const STORED: &[u8] =
    b"HTTP/1.1 200 OK\r\nVersion: \"ann-1\"\r\nContent-Length: 0\r\nConnection: close\r\n\r\n";

const WATCH: &[u8] = b"GET /notes HTTP/1.1\r\nSubscribe: true\r\n\r\n";

const WATCHED: &[u8] =
    b"HTTP/1.1 209 Subscription\r\nSubscribe: true\r\nCurrent-Version:\r\nMerge-Type: ti-text\r\nContent-Type: text/plain; charset=utf-8\r\nTransfer-Encoding: chunked\r\nConnection: close\r\n\r\n";

const CHUNKS: &[u8] =
    b"3a\r\nVersion: \"ann-1\"\r\nParents:\r\nContent-Length: 5\r\n\r\nhello\r\n\r\n\r\n0\r\n\r\n";

/// Whether a flag was set, within so many looks.
fn was_set(flag: &AtomicBool) -> bool {
    for _ in 0..LOOKS {
        if flag.load(Ordering::SeqCst) {
            return true;
        }
    }
    false
}

/// What a connection does: it gives a text, from a place on only once another connection was answered, and says when
/// it was answered itself.
#[derive(Drop)]
struct Plan {
    text: &'static [u8],
    gate: usize,
    awaits: Arc<AtomicBool, Global>,
    answered: Arc<AtomicBool, Global>,
}

/// A connection that does so.
#[derive(Drop)]
struct GateLink {
    plan: Plan,
    at: usize,
    written: Vec<u8>,
    read_faults: u64,
    write_faults: u64,
}

impl Source for GateLink {
    ghost use Rattle.std.specs.Prelude.{None};

    ghost intake = { λ a. record { taken = None; left = None; faults = a.read_faults } };

    ghost beside_reads = { λ a. record { written = None; faults = a.write_faults } };

    fn read(&mut self, buf: &mut [u8]) -> Read {
        if self.at >= self.plan.text.len() {
            return Read::End;
        }
        if self.at == self.plan.gate && !was_set(&self.plan.awaits) {
            self.read_faults = self.read_faults.saturating_add(1);
            return Read::Failed;
        }
        buf[0] = self.plan.text[self.at];
        self.at += 1;
        Read::Got(1)
    }
}

impl Sink for GateLink {
    ghost use Rattle.std.specs.Prelude.{None};

    ghost outflow = { λ a. record { written = None; faults = a.write_faults } };

    ghost beside_writes = { λ a. record { taken = None; left = None; faults = a.read_faults } };

    fn write(&mut self, piece: &[u8]) -> Wrote {
        if self.written.extend_from_slice(piece).is_err() {
            self.write_faults = self.write_faults.saturating_add(1);
            return Wrote::Failed;
        }
        self.plan.answered.store(true, Ordering::SeqCst);
        Wrote::Took(piece.len())
    }
}

impl Link for GateLink {
    ghost use Rattle.std.specs.Prelude.{refl};

    ghost reads_keep = { λ x. refl };

    ghost writes_keep = { λ x. refl };
}

/// A door with one connection.
#[derive(Drop)]
struct GateDoor {
    alloc: Global,
    plan: Option<Plan>,
    served: Option<GateLink>,
    read_faults: u64,
    write_faults: u64,
}

impl Door for GateDoor {
    type Link = GateLink;

    ghost use Rattle.std.specs.Prelude.{None};

    ghost doorway = { λ a. record {
      served = None;
      left = None;
      up = None;
      faults = 0;
      link_read_faults = a.read_faults;
      link_write_faults = a.write_faults;
    } };

    fn accept(&mut self) -> Came<GateLink> {
        match self.plan.take() {
            Some(plan) => Came::Up(GateLink {
                plan,
                at: 0,
                written: Vec::new(self.alloc),
                read_faults: 0,
                write_faults: 0,
            }),
            None => Came::End,
        }
    }

    fn put_back(&mut self, link: GateLink) {
        self.read_faults = self.read_faults.saturating_add(link.read_faults);
        self.write_faults = self.write_faults.saturating_add(link.write_faults);
        self.served = Some(link);
    }
}

/// A bell that answers `Again` once, where it waits for a connection that was answered then, and ends.
#[derive(Drop)]
struct GateBell {
    awaits: Option<Arc<AtomicBool, Global>>,
    agains: u64,
    rings: u64,
}

impl Bell for GateBell {
    ghost use Rattle.std.specs.Prelude.{None};

    ghost ringing = { λ a. record { answers = None; agains = a.agains; rings = a.rings } };

    fn wait(&mut self) -> Rang {
        match self.awaits.take() {
            Some(flag) if was_set(&flag) => {
                self.agains = self.agains.saturating_add(1);
                Rang::Again
            }
            _ => Rang::End,
        }
    }

    fn ring(&mut self) {
        self.rings = self.rings.saturating_add(1);
    }
}

/// A door for a connection, and a bell that waits for an answer, or does not.
fn pair_of(
    plan: Plan,
    alloc: Global,
    awaits: Option<Arc<AtomicBool, Global>>,
) -> (GateDoor, GateBell)
    ensures sums { (result.0.read_faults ≡ 0) × (result.0.write_faults ≡ 0) }
    ensures bell { (result.1.agains ≡ 0) × (result.1.rings ≡ 0) }
{
    let door = GateDoor {
        alloc,
        plan: Some(plan),
        served: None,
        read_faults: 0,
        write_faults: 0,
    };
    let bell = GateBell {
        awaits,
        agains: 0,
        rings: 0,
    };
    (door, bell)
}

/// A port with two doors.
#[derive(Drop)]
struct GatePort {
    plans: Option<(Plan, Plan)>,
    awaits: Option<Arc<AtomicBool, Global>>,
    faults: u64,
}

impl Port for GatePort {
    type Door = GateDoor;

    type Bell = GateBell;

    ghost use Rattle.std.specs.Prelude.{None};

    ghost porting = { λ a. record { asked = None; faults = a.faults } };

    fn open(
        &mut self,
        alloc: Global,
        _server: &Bytes,
        workers: u32,
        _take: u32,
    ) -> Opened<GateDoor, GateBell> {
        let Ok(mut pairs) = Vec::with_capacity(alloc, 2) else {
            return Opened::Memory;
        };
        if workers != 2 {
            self.faults = self.faults.saturating_add(1);
            return Opened::Failed;
        }
        let Some((front, back)) = self.plans.take() else {
            self.faults = self.faults.saturating_add(1);
            return Opened::Failed;
        };
        pairs.push_reserved(pair_of(front, alloc, self.awaits.take()));
        pairs.push_reserved(pair_of(back, alloc, None));
        Opened::Up(pairs)
    }
}

/// A port whose first connection asks twice, the second time once the second connection was answered; and whose second
/// connection puts a text once the first one was answered.
fn gates(alloc: Global) -> Result<GatePort, Memory> {
    let got = Arc::new(alloc, AtomicBool::new(false))?;
    let put = Arc::new(alloc, AtomicBool::new(false))?;
    let front = Plan {
        text: GET_FIRST,
        gate: GET_LENGTH,
        awaits: Arc::try_clone(&put)?,
        answered: Arc::try_clone(&got)?,
    };
    let back = Plan {
        text: PUT,
        gate: 0,
        awaits: got,
        answered: put,
    };
    Ok(GatePort {
        plans: Some((front, back)),
        awaits: None,
        faults: 0,
    })
}

/// A port whose first connection subscribes, with a bell that waits until the second connection was answered; and whose
/// second connection puts a text once the head of the first was written.
fn watch_gates(alloc: Global) -> Result<GatePort, Memory> {
    let head = Arc::new(alloc, AtomicBool::new(false))?;
    let put = Arc::new(alloc, AtomicBool::new(false))?;
    let front = Plan {
        text: WATCH,
        gate: WATCH.len(),
        awaits: Arc::try_clone(&put)?,
        answered: Arc::try_clone(&head)?,
    };
    let awaits = Some(Arc::try_clone(&put)?);
    let back = Plan {
        text: PUT,
        gate: 0,
        awaits: head,
        answered: put,
    };
    Ok(GatePort {
        plans: Some((front, back)),
        awaits,
        faults: 0,
    })
}

/// Whether a door's connection was answered by these two texts together.
fn was_answered(pair: Option<&(GateDoor, GateBell)>, first: &[u8], second: &[u8]) -> bool {
    let Some((door, _)) = pair else {
        return false;
    };
    let Some(link) = &door.served else {
        return false;
    };
    link.written.strip_prefix(first) == Some(second)
}

/// Whether both connections of a port were answered so, by two workers.
fn are_answered<R: Threads + Wait + Sync>(
    rt: &R,
    alloc: Global,
    port: GatePort,
    front: [&[u8]; 2],
    back: &[u8],
) -> Result<bool, Memory> {
    let words: [&[u8]; 4] = [b"serve", b"h:1", b"--workers", b"2"];
    let words = words_of(alloc, &words)?;
    let mut port = port;
    let mut out = MemSink::new(alloc, 1_000, Vec::new(alloc))?;
    let served = serve_run(alloc, rt, &words, &mut port, &mut out);
    let [first, second] = front;
    let got = was_answered(served.doors.first(), first, second);
    let put = was_answered(served.doors.last(), back, b"");
    Ok(got && put && served.status == Status::Done)
}

#[test]
fn workers_run_beside_one_another(rt: HostRuntime) -> Result<(), Fail> {
    let port = gates(rt.alloc())?;
    assert!(rt; are_answered(&rt, rt.alloc(), port, [ABSENT, FOUND], STORED)?);
    Ok(())
}

#[test]
fn a_subscription_is_woken_by_another_connection(rt: HostRuntime) -> Result<(), Fail> {
    let port = watch_gates(rt.alloc())?;
    assert!(rt; are_answered(&rt, rt.alloc(), port, [WATCHED, CHUNKS], STORED)?);
    Ok(())
}
