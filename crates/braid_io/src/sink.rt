ghost use Rattle.std.specs.Prelude.{◌≡◌, ◌<◌, length, OnOk, IfErr};
ghost use Rattle.braid_io.specs.Outside.{Intake, Outflow, Writes, WritesAll, WritesPart, no_intake};

/// What a write answers.
#[derive(Clone, Copy, Debug, PartialEq, Eq)]
pub enum Wrote {
    /// The first bytes of the piece were taken: their number, at least 1.
    Took(usize),
    /// The write failed, and the sink's count of faults rose. No byte was taken; a later write may succeed.
    Failed,
}

/// Why bytes were not written whole.
#[derive(Clone, Copy, Debug, PartialEq, Eq)]
pub enum WriteEnd {
    /// A write failed, and the sink's count of faults rose.
    WriteFault,
    /// There was no memory for the text to be written.
    Memory,
}

/// Where bytes go to.
pub trait Sink: Drop {
    /// What it has taken, where it tells that, and how often it failed.
    ghost outflow: { Self → Outflow };

    /// What a write leaves as it was: of an object that is a source too, what it has given and has left.
    ghost beside_writes: { Self → Intake } = { λ _. no_intake };

    /// Writes a piece, which is not empty. The sink may take only the first bytes of it.
    fn write(&mut self, piece: &[u8]) -> Wrote
        requires some { 0 < length piece.now }
        ensures write { Writes result piece.now (outflow self.old) (outflow self.new) }
        ensures kept { beside_writes self.new ≡ beside_writes self.old };
}

/// Writes all the bytes, piece by piece as the sink takes them. It takes no memory.
///
/// Errors: `WriteFault` at the first write that fails; the sink has then taken a prefix of the bytes.
/// It never answers `Memory`.
pub fn write_all<S: Sink>(bytes: &[u8], sink: &mut S) -> Result<(), WriteEnd>
    ensures ok { OnOk result (WritesAll bytes.now (S.outflow sink.old) (S.outflow sink.new)) }
    ensures err { IfErr result (λ end. (end ≡ WriteEnd.WriteFault)
        × WritesPart bytes.now (S.outflow sink.old) (S.outflow sink.new)) }
    ensures kept { S.beside_writes sink.new ≡ S.beside_writes sink.old }
{
    let mut rest = bytes;
    while !rest.is_empty() {
        match sink.write(rest) {
            Wrote::Took(n) => rest = &rest[n..],
            Wrote::Failed => return Err(WriteEnd::WriteFault),
        }
    }
    Ok(())
}
