ghost use Rattle.std.specs.Prelude.{◌≡◌};
ghost use Rattle.braid_io.specs.Bells.{Waits, Rings};
ghost use Rattle.braid_io.specs.MemDoors.{MemRinging, ringing_of};

use crate::bell::{Bell, Rang};
use std::marker::Model;

/// A bell that answers `Again` a given number of times, and then ends. It never waits.
#[derive(Drop)]
pub struct MemBell {
    answers: u64,
    agains: u64,
    rings: u64,
}

impl Model for MemBell {
    ghost use Rattle.braid_io.specs.MemDoors.{MemRinging};

    ghost Value = { MemRinging };

    ghost view = { λ a. record { answers = a.answers; agains = a.agains; rings = a.rings } };
}

impl MemBell {
    /// A bell that has `answers` Agains to answer.
    pub fn new(answers: u64) -> MemBell
        ensures value { result ≡ record { answers = answers; agains = 0; rings = 0 } }
    {
        MemBell {
            answers,
            agains: 0,
            rings: 0,
        }
    }

    /// The number of Agains answered so far, or 2^64 - 1 where there were more.
    pub fn agains(&self) -> u64
        ensures value { result ≡ self.now.agains }
    {
        self.agains
    }

    /// The number of rings so far, or 2^64 - 1 where there were more.
    pub fn rings(&self) -> u64
        ensures value { result ≡ self.now.rings }
    {
        self.rings
    }
}

impl Bell for MemBell {
    ghost use Rattle.braid_io.specs.MemDoors.{ringing_of};

    ghost ringing = { ringing_of };

    fn wait(&mut self) -> Rang {
        if self.answers == 0 {
            return Rang::End;
        }
        self.answers -= 1;
        self.agains = self.agains.saturating_add(1);
        Rang::Again
    }

    fn ring(&mut self) {
        self.rings = self.rings.saturating_add(1);
    }
}
