//! Writing an update as the framer reads it.

ghost use Rattle.std.specs.Prelude.{◌≡◌, [], ◌∷◌, OnOk, IfErr};
ghost use Rattle.braid_change.specs.Spellings.{canonical};
ghost use Rattle.braid_grammar.specs.Streams.{IsStream};
ghost use Rattle.braid_io.specs.Outside.{WritesAll, WritesPart};

use crate::buffered::Buffered;
use braid_change::{Update, spell};
use braid_grammar::laws::canonical_is_read;
use braid_io::{Sink, WriteEnd};

/// Writes the canonical spelling of an update, which is a stream of this one update. It takes no memory: the spelling
/// goes through a buffer of 8,192 bytes.
///
/// Errors: `WriteFault` at the first write that fails, where the sink's count of faults rose; a front of the spelling
/// was then written. It never answers `Memory`.
pub fn write_update<S: Sink>(update: &Update, sink: &mut S) -> Result<(), WriteEnd>
    ensures ok { OnOk result (WritesAll (canonical update.now) (S.outflow sink.old) (S.outflow sink.new)) }
    ensures stream { IsStream (update.now ∷ []) (canonical update.now) }
    ensures err { IfErr result (λ end. (end ≡ WriteEnd.WriteFault)
        × WritesPart (canonical update.now) (S.outflow sink.old) (S.outflow sink.new)) }
    ensures kept { S.beside_writes sink.new ≡ S.beside_writes sink.old }
{
    // Of every update at hand its type says that the law on spellings holds of it.
    update.id();
    canonical_is_read();
    let mut out = Buffered::new(sink);
    spell(update, &mut out);
    out.end()
}
