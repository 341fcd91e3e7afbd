ghost use Rattle.std.specs.Prelude.{◌≡◌, IfOk};

use braid_io::{Bell, Rang};
use std::alloc::{AllocError, Global};
use std::marker::Send;
use std::sync::{Arc, Condvar, Mutex, Wait};
use std::time::{Clock, Duration};

/// How many seconds a bell waits at most.
const LONGEST_WAIT: u64 = 2;

/// What the bells of one opening share: how often any of them was rung.
#[derive(Drop)]
struct Tower {
    count: Mutex<u64>,
    rung: Condvar,
}

/// One of the bells of an opening. A ring of one wakes those who wait at the others.
///
/// A wait lasts until some bell was rung after the last wait of this one, or until two seconds are over. The bell never
/// ends, so that one who waits for news tries its connection every two seconds and finds it gone.
#[derive(Drop)]
pub struct RingBell<R> {
    rt: R,
    tower: Arc<Tower, Global>,
    seen: u64,
    agains: u64,
    rings: u64,
}

impl<R: Wait + Clock + Copy> RingBell<R> {
    /// A bell with no other.
    pub(crate) fn new(alloc: Global, rt: R) -> Result<RingBell<R>, AllocError>
        ensures new { IfOk result (λ bell. (bell.agains ≡ 0) × (bell.rings ≡ 0)) }
    {
        let tower = Tower {
            count: Mutex::new(0),
            rung: Condvar::new(),
        };
        Ok(RingBell {
            rt,
            tower: Arc::new(alloc, tower)?,
            seen: 0,
            agains: 0,
            rings: 0,
        })
    }

    /// One more bell beside this one. It has seen no ring.
    pub(crate) fn another(&self) -> Result<RingBell<R>, AllocError>
        ensures new { IfOk result (λ bell. (bell.agains ≡ 0) × (bell.rings ≡ 0)) }
    {
        Ok(RingBell {
            rt: self.rt,
            tower: Arc::try_clone(&self.tower)?,
            seen: 0,
            agains: 0,
            rings: 0,
        })
    }
}

impl<R: Wait + Clock + Send + Drop> Bell for RingBell<R> {
    ghost use Rattle.braid_net.specs.Told.{untold_ringing};

    ghost ringing = { λ a. untold_ringing a.agains a.rings };

    fn wait(&mut self) -> Rang {
        let seen = self.seen;
        let count = self.tower.count.lock(&self.rt);
        let longest = Duration::from_secs(LONGEST_WAIT);
        let (count, _timed_out) = self
            .tower
            .rung
            .wait_timeout_while(&self.rt, count, longest, |n| *n <= seen);
        self.seen = *count;
        drop(count);
        self.agains = self.agains.saturating_add(1);
        Rang::Again
    }

    fn ring(&mut self) {
        let mut count = self.tower.count.lock(&self.rt);
        *count = count.saturating_add(1);
        drop(count);
        self.tower.rung.notify_all();
        self.rings = self.rings.saturating_add(1);
    }
}
