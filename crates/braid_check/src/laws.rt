//! Laws of the definitions, each the contract of a function that does nothing.

ghost use Rattle.std.specs.Prelude.{◌≡◌, ◌∷◌, ◌++◌, ◌⊎◌, ◌↔◌, [], List, ℕ, Contains};
ghost use Rattle.braid_io.specs.declared.status.Status.{Status as Ended};
ghost use Rattle.braid_change.specs.Updates.{UpdateView};
ghost use Rattle.braid_grammar.specs.Streams.{IsStream};
ghost use Rattle.braid_text.specs.Histories.{SameGraph, IsLegal};
ghost use Rattle.braid_check.specs.Accepted.{history_of, replica_answer, IsAccepted, AreAccepted};
ghost use Rattle.braid_check.specs.CheckTexts.{Ending, IsCheckText, IsFound, IsEndText, ShowNothing, history_text, found};
ghost use Rattle.braid_check.specs.Kept.{IsWithin};

/// The history that updates leave has exactly these updates. One more joins it at the end, where it is not among them,
/// and leaves it as it is, where it is.
pub fn each_once()
    ensures none { history_of [] ≡ [] }
    ensures exact { (us : List UpdateView) (u : UpdateView) → Contains (history_of us) u ↔ Contains us u }
    ensures joins { (us : List UpdateView) (u : UpdateView) → ¬ (Contains us u)
        → history_of (us ++ u ∷ []) ≡ history_of us ++ u ∷ [] }
    ensures passes { (us : List UpdateView) (u : UpdateView) → Contains us u
        → history_of (us ++ u ∷ []) ≡ history_of us }
{}

/// No updates are accepted ones; and with one more they are accepted exactly where those before it are, and the answer
/// to it is that it is new or known.
pub fn accepted_one_by_one()
    ensures none { AreAccepted [] }
    ensures more { (us : List UpdateView) (u : UpdateView)
        → AreAccepted (us ++ u ∷ []) ↔ (AreAccepted us × IsAccepted (replica_answer (history_of us) u)) }
{}

/// The accepted updates of a stream leave a legal history within the limits of a replica.
pub fn accepted_is_legal()
    ensures legal { (us : List UpdateView) (bytes : List ℕ) → IsStream us bytes → AreAccepted us
        → IsLegal (history_of us) }
    ensures within { (us : List UpdateView) (bytes : List ℕ) → IsStream us bytes → AreAccepted us
        → IsWithin (history_of us) }
{}

/// Two streams of the same updates have the same text, in whatever order and however often their updates come, where
/// all of them are accepted.
pub fn order_does_not_matter()
    ensures law { (us vs : List UpdateView) (bytes other : List ℕ) → IsStream us bytes → IsStream vs other
        → AreAccepted us → AreAccepted vs
        → SameGraph us vs → history_text (history_of us) ≡ history_text (history_of vs) }
{}

/// Bytes and the way in which reading ended have one status and one text.
pub fn one_text()
    ensures law { (ending : Ending) (bytes : List ℕ) (status other : Ended) (text more : List ℕ)
        → IsCheckText ending bytes status text → IsCheckText ending bytes other more → (status ≡ other)
        × (text ≡ more) }
{}

/// Bytes that show a fault, or an update that is refused, have a text for no other end; and they show it whatever
/// follows.
pub fn found_decides()
    ensures only { (ending : Ending) (bytes : List ℕ) (status other : Ended) (text more : List ℕ)
        → IsCheckText found bytes status text → IsCheckText ending bytes other more → ending ≡ found }
    ensures stays { (bytes more : List ℕ) (status : Ended) (text : List ℕ)
        → IsCheckText found bytes status text → IsCheckText found (bytes ++ more) status text }
{}

/// Bytes show such a fault or such an update, or neither, and never both. Where they show neither, and are all there
/// are, they have a status and a text.
pub fn found_or_not()
    ensures either { (bytes : List ℕ) → ((text : List ℕ) × IsFound bytes text) ⊎ ShowNothing bytes }
    ensures apart { (bytes text : List ℕ) → IsFound bytes text → ¬ ShowNothing bytes }
    ensures ends { (bytes : List ℕ) → ShowNothing bytes
        → (status : Ended) × (text : List ℕ) × IsEndText bytes status text }
{}
