//! Laws of framers, each the contract of a function that does nothing.

ghost use Rattle.std.specs.Prelude.{ℕ, List};
ghost use Rattle.braid_change.specs.Updates.{UpdateView};
ghost use Rattle.braid_fields.specs.declared.reason.Reason.{Reason};
ghost use Rattle.braid_grammar.specs.Streams.{Completes, IsFault, IsFaultless};
ghost use Rattle.braid_frame.specs.declared.fed.FrameFault.{FrameFault};
ghost use Rattle.braid_frame.specs.declared.state.State.{State};
ghost use Rattle.braid_frame.specs.Phases.{HasFault};
ghost use Rattle.braid_frame.specs.Framing.{StandsFor, IsOpen, HasFailed};

/// What the updates and the bytes of a framer are. The bytes complete exactly these updates. Where they have a fault
/// the framer has answered it; a fault that it has answered is theirs, behind these updates; and where it has answered
/// none they have none.
pub fn meaning()
    ensures completes { (us : List UpdateView) (framer : State) (b : List ℕ) → StandsFor us framer b → Completes us b }
    ensures faultless { (us : List UpdateView) (framer : State) (b : List ℕ) → StandsFor us framer b → IsOpen framer
        → IsFaultless b }
    ensures fault { (us : List UpdateView) (framer : State) (b : List ℕ) (at : ℕ) (r : Reason) → StandsFor us framer b
        → IsFault b at r → HasFailed framer (record { at = at; reason = r }) }
    ensures failed { (us : List UpdateView) (framer : State) (b : List ℕ) (f : FrameFault) → StandsFor us framer b
        → HasFailed framer f → HasFault us b f }
{}
