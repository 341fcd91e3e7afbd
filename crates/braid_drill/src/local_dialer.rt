ghost use Rattle.std.specs.Prelude.{◌≡◌};
ghost use Rattle.braid_io.specs.Dialers.{HangsUp};
ghost use Rattle.braid_drill.specs.Told.{IsFree, told_dialing, untold_intake, untold_outflow};

use crate::exchange::{Exchange, ROOM};
use crate::line::Line;
use crate::local_link::LocalLink;
use crate::server::Server;
use braid_ids::Bytes;
use braid_io::{Dialed, Dialer};
use std::alloc::Global;
use std::marker::Sync;
use std::mem;
use std::sync::Wait;

/// Which replies of one sync are cut.
#[derive(Clone, Copy, Debug, PartialEq, Eq)]
pub enum Cut {
    /// None is.
    Nothing,
    /// That to the subscription, after so many bytes.
    Subscription { after: usize },
    /// Each to a PUT, before its first byte.
    Puts,
}

/// How many bytes of the replies are given on a link, by whether it is the first one of a sync, which subscribes.
fn given_on(cut: Cut, first: bool) -> usize {
    match cut {
        Cut::Subscription { after } if first => after,
        Cut::Puts if !first => 0,
        _ => ROOM,
    }
}

/// A dialer in memory of one server in the same program, which every address reaches.
///
/// One link is up at a time: it has the server until it is hung up, and a dial meanwhile fails. The dialer tells the
/// servers of links that are up and its counts, which stay at 2^64 - 1 once they are there.
#[derive(Drop)]
pub struct LocalDialer<'a, R> {
    rt: &'a R,
    line: Line,
    cut: Cut,
    first: bool,
    faults: u64,
    link_read_faults: u64,
    link_write_faults: u64,
    lacks_memory: bool,
}

impl<'a, R> LocalDialer<'a, R> {
    /// A dialer of a server. It takes no memory.
    pub fn new(rt: &'a R, server: Server) -> LocalDialer<'a, R>
        ensures free { IsFree result.line }
    {
        LocalDialer {
            rt,
            line: Line::Free(server),
            cut: Cut::Nothing,
            first: true,
            faults: 0,
            link_read_faults: 0,
            link_write_faults: 0,
            lacks_memory: false,
        }
    }

    /// Begins a sync: says which replies are cut in it.
    pub fn begin(&mut self, cut: Cut)
        ensures kept { self.new.line ≡ self.old.line }
    {
        self.cut = cut;
        self.first = true;
    }

    /// Whether a call of a link that was hung up failed for want of memory.
    pub fn lacks_memory(&self) -> bool {
        self.lacks_memory
    }

    /// The server, where no link is up.
    pub fn into_server(self) -> Server
        requires free { IsFree self.line }
    {
        match self.line {
            Line::Free(server) => server,
            Line::Busy(_) => unreachable!(),
        }
    }
}

impl<'a, R: Wait + Sync> Dialer for LocalDialer<'a, R> {
    type Link = LocalLink<'a, R>;

    ghost use Rattle.braid_drill.specs.Told.{told_dialing};

    ghost dialing = { λ a. told_dialing a.line a.faults a.link_read_faults a.link_write_faults };

    fn dial(&mut self, alloc: Global, server: &Bytes) -> Dialed<LocalLink<'a, R>> {
        let Ok(address) = Bytes::of(alloc, server.get()) else {
            return Dialed::Memory;
        };
        match mem::replace(&mut self.line, Line::Busy(address)) {
            Line::Free(server) => {
                let given = given_on(self.cut, self.first);
                self.first = false;
                let exchange = Exchange::new(alloc, self.rt, server, given);
                Dialed::Up(LocalLink::new(exchange))
            }
            Line::Busy(address) => {
                self.line = Line::Busy(address);
                self.faults = self.faults.saturating_add(1);
                Dialed::Failed
            }
        }
    }

    fn hang_up(&mut self, link: LocalLink<'a, R>)
        ensures hang_up { HangsUp (untold_intake link.entry.read_faults) (untold_outflow link.entry.write_faults)
            (told_dialing self.old.line self.old.faults self.old.link_read_faults self.old.link_write_faults)
            (told_dialing self.new.line self.new.faults self.new.link_read_faults self.new.link_write_faults) }
    {
        self.link_read_faults = self.link_read_faults.saturating_add(link.read_faults());
        self.link_write_faults = self.link_write_faults.saturating_add(link.write_faults());
        self.lacks_memory |= link.lacks_memory();
        self.line = Line::Free(link.into_exchange().into_server());
    }
}
