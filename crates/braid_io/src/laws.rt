//! Laws of the definitions, each the contract of a function that does nothing.

ghost use Rattle.std.specs.Prelude.{◌≡◌, List, ℕ, length};
ghost use Rattle.braid_io.specs.InMemory.{MemIntake, MemOutflow, MemReads, MemWrites, PureIntake, PureReads};
ghost use Rattle.braid_io.specs.declared.source.Read.{Read as ReadAnswer};
ghost use Rattle.braid_io.specs.declared.sink.Wrote.{Wrote as WriteAnswer};

/// A read of a source in memory has one outcome: two reads of the same source into buffers of one length give the
/// same answer and leave the same source.
pub fn one_read()
    ensures law { (old new later : MemIntake) (first second : ReadAnswer) (buf other : List ℕ)
        → length buf ≡ length other
        → MemReads first buf old new → MemReads second other old later → (first ≡ second) × (new ≡ later) }
{}

/// A read of a source that never fails has one outcome, for buffers of one length.
pub fn one_pure_read()
    ensures law { (old new later : PureIntake) (first second : ReadAnswer) (buf other : List ℕ)
        → length buf ≡ length other
        → PureReads first buf old new → PureReads second other old later → (first ≡ second) × (new ≡ later) }
{}

/// A write to a sink in memory has one outcome: two writes of the same piece to the same sink give the same answer
/// and leave the same sink.
pub fn one_write()
    ensures law { (old new later : MemOutflow) (first second : WriteAnswer) (piece : List ℕ)
        → MemWrites first piece old new → MemWrites second piece old later → (first ≡ second) × (new ≡ later) }
{}
