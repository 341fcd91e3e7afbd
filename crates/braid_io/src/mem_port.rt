ghost use Rattle.std.specs.Prelude.{◌≡◌, ◌+◌, ◌≤◌, ◌++◌, [], All, length, vec_len, vec_capacity};
ghost use Rattle.braid_io.specs.Doors.{Opens};
ghost use Rattle.braid_io.specs.MemDoors.{MemPorting, MemOpens, IsUnusedPair, doorway_of, ringing_of, porting_of};

use crate::calls::Calls;
use crate::mem_bell::MemBell;
use crate::mem_door::MemDoor;
use crate::port::{Asked, Opened, Port};
use braid_ids::Bytes;
use std::alloc::Global;
use std::collections::VecDeque;
use std::marker::Model;

/// A port that gives the doors and bells of a list in their order, and keeps what it was asked for.
///
/// An opening fails exactly where its number is one of those that are to fail or fewer pairs are left than it asks for,
/// and then only the counts and what was asked for change.
#[derive(Drop)]
pub struct MemPort {
    asked: Vec<Asked>,
    left: VecDeque<(MemDoor, MemBell)>,
    calls: Calls,
}

impl Model for MemPort {
    ghost use Rattle.std.specs.Prelude.{All};
    ghost use Rattle.braid_io.specs.MemDoors.{MemPorting, IsUnusedPair};

    ghost Value = { MemPorting };

    ghost view = { λ a. record {
      asked = a.asked.items;
      left = a.left.items;
      fails = a.calls.fails.items;
      calls = a.calls.made;
      faults = a.calls.faults;
    } };

    ghost invariant = { λ a. All IsUnusedPair a.left.items };
}

impl MemPort {
    /// A port that has all of `pairs` to give, which are new.
    ///
    /// `fails` has the numbers of the openings that fail, counted from 0.
    pub fn new(alloc: Global, pairs: Vec<(MemDoor, MemBell)>, fails: Vec<u64>) -> MemPort
        requires unused { All IsUnusedPair pairs.items }
        ensures value { result ≡ record { asked = []; left = pairs.items; fails = fails.items; calls = 0; faults = 0 } }
    {
        MemPort {
            asked: Vec::new(alloc),
            left: VecDeque::from(pairs),
            calls: Calls::new(fails),
        }
    }

    /// What it was asked for so far.
    pub fn asked(&self) -> &[Asked]
        ensures value { result.now ≡ self.now.asked }
    {
        self.asked.as_slice()
    }

    /// The number of openings so far, or 2^64 - 1 where there were more.
    pub fn calls(&self) -> u64
        ensures value { result ≡ self.now.calls }
    {
        self.calls.made()
    }

    /// The number of openings that failed, or 2^64 - 1 where there were more.
    pub fn faults(&self) -> u64
        ensures value { result ≡ self.now.faults }
    {
        self.calls.faults()
    }
}

impl Port for MemPort {
    type Door = MemDoor;

    type Bell = MemBell;

    ghost use Rattle.braid_io.specs.MemDoors.{porting_of};

    ghost porting = { porting_of };

    fn open(
        &mut self,
        alloc: Global,
        server: &Bytes,
        workers: u32,
        take: u32,
    ) -> Opened<MemDoor, MemBell>
        ensures open { Opens doorway_of ringing_of
            (record { server = server.now; workers = workers; take = take }) result (porting_of self.old)
            (porting_of self.new) }
        ensures exact { MemOpens
            (record { server = server.now; workers = workers; take = take }) result self.old self.new }
    {
        let Ok(server) = Bytes::of(alloc, server.get()) else {
            return Opened::Memory;
        };
        let Ok(pairs) = Vec::with_capacity(alloc, workers as usize) else {
            return Opened::Memory;
        };
        let asked = Asked {
            server,
            workers,
            take,
        };
        let Ok(()) = self.asked.push(asked) else {
            return Opened::Memory;
        };
        if self.calls.begin() || self.left.len() < workers as usize {
            self.calls.fault();
            return Opened::Failed;
        }
        Opened::Up(first_of(&mut self.left, workers, pairs))
    }
}

/// Moves the first `count` of a queue to an empty list that has room for them.
fn first_of<T: Drop>(from: &mut VecDeque<T>, count: u32, to: Vec<T>) -> Vec<T>
    requires some { count ≤ length from.old.items }
    requires empty { to.items ≡ [] }
    requires room { count ≤ vec_capacity to }
    ensures moved { from.old.items ≡ result.items ++ from.new.items }
    ensures count { length result.items ≡ count }
{
    let mut first = to;
    for _n in 0..count {
        let Some(item) = from.pop_front() else {
            unreachable!()
        };
        match first.push(item) {
            Ok(()) => {}
            Err(_) => unreachable!(),
        }
    }
    first
}
