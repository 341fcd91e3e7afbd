//! Laws of readers, each the contract of a function that does nothing.

ghost use Rattle.std.specs.Prelude.{◌≡◌, ◌<◌, ◌++◌, ℕ, List};
ghost use Rattle.braid_io.specs.Outside.{Intake};
ghost use Rattle.braid_change.specs.Updates.{UpdateView};
ghost use Rattle.braid_grammar.specs.Streams.{HaveUpdates};
ghost use Rattle.braid_stream.specs.declared.reading.Reading.{Reading};
ghost use Rattle.braid_stream.specs.declared.next.Next.TheVariants.{Update};
ghost use Rattle.braid_stream.specs.Readers.{HasTaken, Answers, budget};

/// What a reader that goes on has taken: bytes that complete exactly the updates that it answered and have no fault,
/// followed by those that it holds. The updates are determined by the reader and the bytes.
pub fn meaning()
    ensures updates { (us : List UpdateView) (reader : Reading) (bytes : List ℕ) → HasTaken us reader bytes
        → (fed : List ℕ) × (held : List ℕ) × (bytes ≡ fed ++ held) × HaveUpdates us fed }
    ensures one { (us vs : List UpdateView) (reader : Reading) (bytes : List ℕ)
        → HasTaken us reader bytes → HasTaken vs reader bytes → us ≡ vs }
{}

/// Each update that a reader answers costs at least one byte of what it may still feed, so that a loop over its answers
/// ends.
pub fn budget_falls()
    ensures law { (us : List UpdateView) (bytes : List ℕ) (u : UpdateView) (old new : Reading) (before after : Intake)
        → HasTaken us old bytes → Answers us bytes (Update u) new before after → budget new < budget old }
{}
