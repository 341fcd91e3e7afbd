ghost use Rattle.std.specs.Prelude.{◌≡◌};

use crate::sink::Sink;
use crate::source::Source;

/// A source and a sink in one: a connection.
///
/// Its two laws say that neither side disturbs the other: a read leaves what was written and the count of failed writes
/// as they were, and a write what was read, what is left and the count of failed reads.
pub trait Link: Source + Sink {
    /// What a read leaves as it was is what the sink's side tells.
    ghost reads_keep: { (x : Self) → Self.beside_reads x ≡ Self.outflow x };

    /// What a write leaves as it was is what the source's side tells.
    ghost writes_keep: { (x : Self) → Self.beside_writes x ≡ Self.intake x };
}
