ghost use Rattle.std.specs.Prelude.{◌≡◌, [], All, IfOk};
ghost use Rattle.braid_io.specs.Outside.{HasOne};
ghost use Rattle.braid_io.specs.Doors.{Accepts, PutsBack};
ghost use Rattle.braid_io.specs.InMemory.{talk_intake, talk_outflow};
ghost use Rattle.braid_io.specs.MemDoors.{MemDoorway, MemAccepts, MemPutsBack, IsUnused, doorway_of};

use crate::calls::Calls;
use crate::door::{Came, Door};
use crate::mem_link::MemLink;
use braid_ids::Memory;
use std::alloc::Global;
use std::collections::VecDeque;
use std::marker::Model;

/// A door that gives the links of a list in their order, and keeps those that are put back.
///
/// An accept fails exactly where its number is one of those that are to fail, and then only the counts change. Else it
/// ends exactly where no link is left. No call but `new` takes memory.
#[derive(Drop)]
pub struct MemDoor {
    served: Vec<MemLink>,
    left: VecDeque<MemLink>,
    up: usize,
    calls: Calls,
    link_read_faults: u64,
    link_write_faults: u64,
}

impl Model for MemDoor {
    ghost use Rattle.std.specs.Prelude.{◌+◌, ◌≤◌, All, length, vec_capacity};
    ghost use Rattle.braid_io.specs.MemDoors.{MemDoorway, IsUnused};

    ghost Value = { MemDoorway };

    ghost view = { λ a. record {
      served = a.served.items;
      left = a.left.items;
      up = a.up;
      fails = a.calls.fails.items;
      calls = a.calls.made;
      faults = a.calls.faults;
      link_read_faults = a.link_read_faults;
      link_write_faults = a.link_write_faults;
    } };

    ghost invariant = { λ a. All IsUnused a.left.items
        × (length a.served.items + a.up + length a.left.items ≤ vec_capacity a.served) };
}

impl MemDoor {
    /// A door that has all of `links` to give. The room for those put back is taken here.
    ///
    /// The links are unused: nothing was read from them or written to them. `fails` has the numbers of the accepts that
    /// fail, counted from 0.
    ///
    /// Errors: `Memory` where there was none for the room.
    pub fn new(alloc: Global, links: Vec<MemLink>, fails: Vec<u64>) -> Result<MemDoor, Memory>
        requires unused { All IsUnused links.items }
        ensures ok { IfOk result (λ door. door ≡ record {
          served = [];
          left = links.items;
          up = 0;
          fails = fails.items;
          calls = 0;
          faults = 0;
          link_read_faults = 0;
          link_write_faults = 0;
        }) }
    {
        Ok(MemDoor {
            served: Vec::with_capacity(alloc, links.len())?,
            left: VecDeque::from(links),
            up: 0,
            calls: Calls::new(fails),
            link_read_faults: 0,
            link_write_faults: 0,
        })
    }

    /// The links put back so far.
    pub fn served(&self) -> &[MemLink]
        ensures value { result.now ≡ self.now.served }
    {
        self.served.as_slice()
    }

    /// The number of accepts so far, or 2^64 - 1 where there were more.
    pub fn calls(&self) -> u64
        ensures value { result ≡ self.now.calls }
    {
        self.calls.made()
    }

    /// The number of accepts that failed, or 2^64 - 1 where there were more.
    pub fn faults(&self) -> u64
        ensures value { result ≡ self.now.faults }
    {
        self.calls.faults()
    }
}

impl Door for MemDoor {
    type Link = MemLink;

    ghost use Rattle.braid_io.specs.MemDoors.{doorway_of};

    ghost doorway = { doorway_of };

    fn accept(&mut self) -> Came<MemLink>
        ensures accept { Accepts talk_intake talk_outflow result (doorway_of self.old) (doorway_of self.new) }
        ensures exact { MemAccepts result self.old self.new }
    {
        if self.calls.begin() {
            self.calls.fault();
            return Came::Failed;
        }
        match self.left.pop_front() {
            Some(link) => {
                self.up += 1;
                Came::Up(link)
            }
            None => Came::End,
        }
    }

    fn put_back(&mut self, link: MemLink)
        requires up { HasOne (doorway_of self.old).up }
        ensures put_back { PutsBack (talk_intake link) (talk_outflow link) (doorway_of self.old) (doorway_of self.new) }
        ensures exact { MemPutsBack link self.old self.new }
    {
        self.link_read_faults = self.link_read_faults.saturating_add(link.read_faults());
        self.link_write_faults = self.link_write_faults.saturating_add(link.write_faults());
        self.up -= 1;
        match self.served.push(link) {
            Ok(()) => {}
            Err(_) => unreachable!(),
        }
    }
}
