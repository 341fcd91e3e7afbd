ghost use Rattle.braid_io.specs.Bells.{Ringing, Waits, Rings};

use std::marker::Send;

/// What a wait answers.
#[derive(Clone, Copy, Debug, PartialEq, Eq)]
pub enum Rang {
    /// It may be that something was rung for; look again.
    Again,
    /// The bell has ended, and will not answer `Again` any more.
    End,
}

/// What tells those who wait that there may be something new.
pub trait Bell: Drop + Send {
    /// How many Agains it has left, where it tells that, how many it answered, and how many rings were made through it.
    ghost ringing: { Self → Ringing };

    /// Waits until it is worth looking again, or until the bell ends.
    fn wait(&mut self) -> Rang
        ensures wait { Waits result (ringing self.old) (ringing self.new) };

    /// Wakes those who wait.
    fn ring(&mut self)
        ensures ring { Rings (ringing self.old) (ringing self.new) };
}
