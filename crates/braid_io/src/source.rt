ghost use Rattle.std.specs.Prelude.{◌≡◌, ◌<◌, length};
ghost use Rattle.braid_io.specs.Outside.{Intake, Outflow, Reads, no_outflow};

/// What a read answers.
#[derive(Clone, Copy, Debug, PartialEq, Eq)]
pub enum Read {
    /// The next bytes stand at the front of the buffer: their number, at least 1.
    Got(usize),
    /// The source has ended: nothing is left.
    End,
    /// The read failed, and the source's count of faults rose. No byte was taken; a later read may succeed.
    Failed,
}

/// Where bytes come from.
pub trait Source: Drop {
    /// What it has given and has left, where it tells them, and how often it failed.
    ghost intake: { Self → Intake };

    /// What a read leaves as it was: of an object that is a sink too, what it has taken.
    ghost beside_reads: { Self → Outflow } = { λ _. no_outflow };

    /// Reads the next bytes into the front of a buffer, which is not empty.
    ///
    /// What the buffer holds past the bytes got is not said.
    fn read(&mut self, buf: &mut [u8]) -> Read
        requires some { 0 < length buf.old }
        ensures read { Reads result buf.new (intake self.old) (intake self.new) }
        ensures kept { beside_reads self.new ≡ beside_reads self.old };
}
