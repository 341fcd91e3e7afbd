ghost use Rattle.std.specs.Prelude.{◌≡◌, [], All, IfOk};
ghost use Rattle.braid_io.specs.Outside.{IsFilled};
ghost use Rattle.braid_io.specs.Dialers.{Dials, HangsUp};
ghost use Rattle.braid_io.specs.InMemory.{talk_intake, talk_outflow};
ghost use Rattle.braid_io.specs.MemDoors.{IsUnused};
ghost use Rattle.braid_io.specs.MemDialers.{MemDialing, MemDials, MemHangsUp, dialing_of};

use crate::calls::Calls;
use crate::dialer::{Dialed, Dialer};
use crate::mem_link::MemLink;
use braid_ids::{Bytes, Memory};
use std::alloc::Global;
use std::collections::VecDeque;
use std::marker::Model;

/// A link that was hung up, and the server that it was dialled to.
#[derive(Drop)]
pub struct HungUp {
    /// The server's address.
    pub server: Bytes,
    /// The link, as it was then.
    pub link: MemLink,
}

/// A dialer that gives the links of a list in their order, and keeps those that are hung up.
///
/// A dial fails exactly where its number is one of those that are to fail or no link is left, and then only the counts
/// change. Hanging up takes no memory.
#[derive(Drop)]
pub struct MemDialer {
    talks: Vec<HungUp>,
    servers: Vec<Bytes>,
    left: VecDeque<MemLink>,
    calls: Calls,
    link_read_faults: u64,
    link_write_faults: u64,
}

impl Model for MemDialer {
    ghost use Rattle.std.specs.Prelude.{◌+◌, ◌≤◌, All, length, vec_capacity};
    ghost use Rattle.braid_io.specs.MemDoors.{IsUnused};
    ghost use Rattle.braid_io.specs.MemDialers.{MemDialing};

    ghost Value = { MemDialing };

    ghost view = { λ a. record {
      talks = a.talks.items;
      servers = a.servers.items;
      left = a.left.items;
      fails = a.calls.fails.items;
      calls = a.calls.made;
      faults = a.calls.faults;
      link_read_faults = a.link_read_faults;
      link_write_faults = a.link_write_faults;
    } };

    ghost invariant = { λ a. All IsUnused a.left.items
        × (length a.servers.items + length a.left.items ≤ vec_capacity a.servers)
        × (length a.talks.items + length a.servers.items + length a.left.items ≤ vec_capacity a.talks) };
}

impl MemDialer {
    /// A dialer that has all of `links` to give. The room for those hung up is taken here.
    ///
    /// The links are unused: nothing was read from them or written to them. `fails` has the numbers of the dials that fail,
    /// counted from 0.
    ///
    /// Errors: `Memory` where there was none for the room.
    pub fn new(alloc: Global, links: Vec<MemLink>, fails: Vec<u64>) -> Result<MemDialer, Memory>
        requires unused { All IsUnused links.items }
        ensures ok { IfOk result (λ dialer. dialer ≡ record {
          talks = [];
          servers = [];
          left = links.items;
          fails = fails.items;
          calls = 0;
          faults = 0;
          link_read_faults = 0;
          link_write_faults = 0;
        }) }
    {
        Ok(MemDialer {
            talks: Vec::with_capacity(alloc, links.len())?,
            servers: Vec::with_capacity(alloc, links.len())?,
            left: VecDeque::from(links),
            calls: Calls::new(fails),
            link_read_faults: 0,
            link_write_faults: 0,
        })
    }

    /// The links hung up so far.
    pub fn talks(&self) -> &[HungUp]
        ensures value { result.now ≡ self.now.talks }
    {
        self.talks.as_slice()
    }

    /// The number of dials so far, or 2^64 - 1 where there were more.
    pub fn calls(&self) -> u64
        ensures value { result ≡ self.now.calls }
    {
        self.calls.made()
    }

    /// The number of dials that failed, or 2^64 - 1 where there were more.
    pub fn faults(&self) -> u64
        ensures value { result ≡ self.now.faults }
    {
        self.calls.faults()
    }
}

impl Dialer for MemDialer {
    type Link = MemLink;

    ghost use Rattle.braid_io.specs.MemDialers.{dialing_of};

    ghost dialing = { dialing_of };

    fn dial(&mut self, alloc: Global, server: &Bytes) -> Dialed<MemLink>
        ensures dial { Dials talk_intake talk_outflow server.now result (dialing_of self.old) (dialing_of self.new) }
        ensures exact { MemDials server.now result self.old self.new }
    {
        let Ok(server) = Bytes::of(alloc, server.get()) else {
            return Dialed::Memory;
        };
        if self.calls.begin() {
            self.calls.fault();
            return Dialed::Failed;
        }
        let Some(link) = self.left.pop_front() else {
            self.calls.fault();
            return Dialed::Failed;
        };
        match self.servers.push(server) {
            Ok(()) => Dialed::Up(link),
            Err(_) => unreachable!(),
        }
    }

    fn hang_up(&mut self, link: MemLink)
        requires up { IsFilled (dialing_of self.old).servers }
        ensures hang_up { HangsUp (talk_intake link) (talk_outflow link) (dialing_of self.old) (dialing_of self.new) }
        ensures exact { MemHangsUp link self.old self.new }
    {
        let Some(server) = self.servers.pop() else {
            unreachable!()
        };
        self.link_read_faults = self.link_read_faults.saturating_add(link.read_faults());
        self.link_write_faults = self.link_write_faults.saturating_add(link.write_faults());
        match self.talks.push(HungUp { server, link }) {
            Ok(()) => {}
            Err(_) => unreachable!(),
        }
    }
}
