//! The framer.

ghost use Rattle.std.specs.Prelude.{◌≡◌, ℕ, ◌+◌, ◌<◌, ◌^◌, ◌↔◌, List, [], Err, IsTrue, length};
ghost use Rattle.braid_change.specs.Updates.{UpdateView};
ghost use Rattle.braid_grammar.specs.Streams.{IsStream};
ghost use Rattle.braid_frame.specs.declared.fed.FeedFault.TheVariants as faults;
ghost use Rattle.braid_frame.specs.declared.fed.FrameFault.{FrameFault};
ghost use Rattle.braid_frame.specs.Phases.{IsFraming};
ghost use Rattle.braid_frame.specs.Framing.{StandsFor, IsOpen, HasFailed, HadNoMemory, Feeds};

use crate::fed::{Fed, FeedFault};
use crate::state::{Awaits, Phase, State};
use crate::steps::step;
use std::alloc::Global;
use std::marker::Model;

/// Makes updates out of the bytes of an update stream, which come in pieces of any kind.
///
/// It keeps at most one head or content, and the patches of one update.
#[derive(Drop)]
pub struct Framer {
    alloc: Global,
    state: State,
}

impl Model for Framer {
    ghost use Rattle.braid_frame.specs.declared.state.State.{State};
    ghost use Rattle.braid_frame.specs.Phases.{IsFraming};

    ghost Value = { State };

    ghost view = { λ framer. framer.state };

    ghost invariant = { λ framer. IsFraming framer.state };
}

impl Framer {
    /// A framer that was fed nothing. It takes no memory.
    pub fn new(alloc: Global) -> Framer
        ensures stands { StandsFor [] result [] }
        ensures open_still { IsOpen result }
    {
        Framer {
            alloc,
            state: State {
                at: 0,
                kept: Vec::new(alloc),
                line: 0,
                awaits: Awaits::UpdateHead,
                phase: Phase::Lines,
            },
        }
    }

    /// Takes a piece, or the front of it up to the last byte of the update that it completes.
    ///
    /// All bytes fed, this piece with them, are fewer than 2^64, as long as no fault was answered. What follows an
    /// update in the piece is not taken: feed it again, from `taken` on.
    ///
    /// Errors: `Frame` with the first fault of all bytes fed, as soon as they have one; the framer answers that
    /// fault for good, and takes no memory for it. `Memory` where there was none; it answers that for good.
    pub fn feed(&mut self, piece: &[u8]) -> Result<Fed, FeedFault>
        requires fed { IsOpen self.old → (us : List UpdateView) × (b : List ℕ) × StandsFor us self.old b
            × (length b + length piece.now < 2 ^ 64) }
        ensures feeds { (us : List UpdateView) (b : List ℕ) → StandsFor us self.old b
            → Feeds us b piece.now result self.new }
        ensures failed { (fault : FrameFault) → HasFailed self.old fault
            → (result ≡ Err (faults.Frame fault)) × (self.new ≡ self.old) }
        ensures memory { HadNoMemory self.old → (result ≡ Err faults.Memory) × (self.new ≡ self.old) }
    {
        match &self.state.phase {
            Phase::Faulted(fault) => Err(FeedFault::Frame(*fault)),
            Phase::NoMemory => Err(FeedFault::Memory),
            _ => feed(self.alloc, &mut self.state, piece),
        }
    }

    /// Whether the bytes fed end between updates, in empty lines or none, with no line begun: they are a stream.
    /// It takes no memory.
    pub fn resting(&self) -> bool
        ensures rests { (us : List UpdateView) (b : List ℕ) → StandsFor us self.now b → IsTrue result ↔ IsStream us b }
    {
        match &self.state.phase {
            Phase::Lines => self.state.kept.is_empty(),
            _ => false,
        }
    }
}

/// Takes a piece up to the end of an update.
fn feed(alloc: Global, state: &mut State, piece: &[u8]) -> Result<Fed, FeedFault>
    requires framing { IsFraming state.old }
    requires open_still { IsOpen state.old }
    requires fed { (us : List UpdateView) × (b : List ℕ) × StandsFor us state.old b
        × (length b + length piece.now < 2 ^ 64) }
    ensures framing { IsFraming state.new }
    ensures feeds { (us : List UpdateView) (b : List ℕ) → StandsFor us state.old b
        → Feeds us b piece.now result state.new }
{
    let mut taken = 0;
    while taken < piece.len() {
        match step(alloc, state, &piece[taken..]) {
            Ok(fed) => {
                taken += fed.taken;
                if fed.update.is_some() {
                    return Ok(Fed {
                        taken,
                        update: fed.update,
                    });
                }
            }
            Err(fault) => return Err(fault),
        }
    }
    Ok(Fed {
        taken,
        update: None,
    })
}
