//! Laws of the definitions, each the contract of a function that does nothing.

ghost use Rattle.std.specs.Prelude.{◌≡◌, ◌≤◌, ◌++◌, [], List, ℕ, length};
ghost use Rattle.braid_state.specs.declared.state.State.{State};
ghost use Rattle.braid_state.specs.States.{SpellsState, IsState, state_text};
ghost use Rattle.braid_state.specs.declared.state.StateFault.TheVariants as faults;
ghost use Rattle.braid_state.specs.StateFaults.{IsStateFault};

/// Bytes spell one state at most, and have a fault at one place at most, which is none past their end; and those that
/// spell a state have none.
pub fn one_reading()
    ensures state { (s t : State) (bytes : List ℕ) → SpellsState s bytes → SpellsState t bytes → s ≡ t }
    ensures place { (bytes : List ℕ) (at to : ℕ) → IsStateFault bytes (faults.BadState at)
        → IsStateFault bytes (faults.BadState to) → at ≡ to }
    ensures within { (bytes : List ℕ) (at : ℕ) → IsStateFault bytes (faults.BadState at) → at ≤ length bytes }
    ensures apart { (s : State) (bytes : List ℕ) (at : ℕ) → SpellsState s bytes
        → IsStateFault bytes (faults.BadState at) → ⊥ }
{}

/// The text of a state spells it.
pub fn text_is_spelled()
    ensures law { (s : State) → IsState s → SpellsState s (state_text s) }
{}

/// A file is a state whole or not at all: no proper front of a state's text is the text of a state, and nothing longer
/// that begins with it is. The same holds of every spelling of a state.
pub fn whole_only()
    ensures front { (s t : State) (front more : List ℕ) → IsState s → state_text s ≡ front ++ more
        → SpellsState t front → more ≡ [] }
    ensures longer { (s t : State) (more : List ℕ) → IsState s → SpellsState t (state_text s ++ more) → more ≡ [] }
    ensures any { (s t : State) (bytes more : List ℕ) → SpellsState s bytes → SpellsState t (bytes ++ more)
        → more ≡ [] }
{}
