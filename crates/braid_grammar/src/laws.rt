//! Laws of the definitions, each the contract of a function that does nothing.

ghost use Rattle.std.specs.Prelude.{◌≡◌, ◌≢◌, ◌+◌, ◌⊎◌, ◌↔◌, ◌∷◌, ◌++◌, [], List, ℕ, false, Result, Err, length};
ghost use Rattle.braid_change.specs.Updates.{UpdateView};
ghost use Rattle.braid_change.specs.Spellings.{canonical};
ghost use Rattle.braid_fields.specs.declared.reason.Reason.{Reason};
ghost use Rattle.braid_fields.specs.declared.parts.Parts.{Parts};
ghost use Rattle.braid_fields.specs.Known.{is_there};
ghost use Rattle.braid_grammar.specs.declared.put.PutFault.{PutFault};
ghost use Rattle.braid_grammar.specs.declared.put.PutFault.TheVariants.{Memory};
ghost use Rattle.braid_grammar.specs.Outcomes.{Whole};
ghost use Rattle.braid_grammar.specs.Readings.{next_at};
ghost use Rattle.braid_grammar.specs.Streams.{IsGap, SpellsUpdate, IsStream, IsFault, Completes, IsTorn};
ghost use Rattle.braid_grammar.specs.FaultPlaces.{IsWrongAt};
ghost use Rattle.braid_grammar.specs.Puts.{SpellsPut, IsPutReading, with_length};
ghost use Rattle.braid_change.specs.Updates.{IsUpdate};

/// Bytes are a stream of one list of updates, or have a fault at one place for one reason, or neither. Where there is
/// a fault, it is the fault of all bytes that go on from these, and none of them are a stream.
pub fn one_reading()
    ensures decided { (b : List ℕ) → ((us : List UpdateView) × IsStream us b)
        ⊎ (((at : ℕ) × (r : Reason) × IsFault b at r) ⊎ IsTorn b) }
    ensures stream { (us vs : List UpdateView) (b : List ℕ) → IsStream us b → IsStream vs b → us ≡ vs }
    ensures fault { (b : List ℕ) (at to : ℕ) (r s : Reason) → IsFault b at r → IsFault b to s → (at ≡ to) × (r ≡ s) }
    ensures apart { (us : List UpdateView) (b : List ℕ) (at : ℕ) (r : Reason) → IsStream us b → IsFault b at r → ⊥ }
    ensures stays { (b more : List ℕ) (at : ℕ) (r : Reason) → IsFault b at r → IsFault (b ++ more) at r }
    ensures never { (us : List UpdateView) (b more : List ℕ) (at : ℕ) (r : Reason) → IsFault b at r
        → IsStream us (b ++ more) → ⊥ }
{}

/// The updates that bytes hold whole are one list, and those of a stream are its own.
pub fn one_list()
    ensures one { (us vs : List UpdateView) (b : List ℕ) → Completes us b → Completes vs b → us ≡ vs }
    ensures stream { (us : List UpdateView) (b : List ℕ) → IsStream us b → Completes us b }
{}

/// A fault, in the words of the grammar. The head of an update may stand behind a stream, and that of a patch behind the
/// head of its update and the patches before. There a line behind good lines is wrong, or the head has no end within
/// the limit, or has a reason against it, or the content that it asks for is no text. Each of these is the fault, and
/// there is no other.
pub fn fault_in_words()
    ensures law { (bytes : List ℕ) (at : ℕ) (reason : Reason) → IsFault bytes at reason ↔ IsWrongAt bytes at reason }
{}

/// No bytes spell two updates, and none begin with two: what is spelled first is one update, with one rest behind it.
pub fn one_update()
    ensures law { (u v : UpdateView) (bytes : List ℕ) → SpellsUpdate u bytes → SpellsUpdate v bytes → u ≡ v }
    ensures first { (u v : UpdateView) (gap first rest other second left : List ℕ) → IsGap gap → SpellsUpdate u first
        → IsGap other → SpellsUpdate v second
        → gap ++ (first ++ rest) ≡ other ++ (second ++ left) → (u ≡ v) × (rest ≡ left) }
{}

/// What is spelled is an update that the program can hold.
pub fn spelled_is_built()
    ensures law { (u : UpdateView) (bytes : List ℕ) → SpellsUpdate u bytes → IsUpdate u }
{}

/// The canonical spelling of an update that the program can hold is a spelling of it and a gap, so a stream of this one
/// update; and whatever follows it, the first update is this one.
pub fn canonical_is_read()
    ensures front { (u : UpdateView) → IsUpdate u → (front : List ℕ) × (rest : List ℕ) × SpellsUpdate u front
        × IsGap rest × (canonical u ≡ front ++ rest) }
    ensures stream { (u : UpdateView) → IsUpdate u → IsStream (u ∷ []) (canonical u) }
    ensures first { (u v : UpdateView) (gap first rest more : List ℕ) → IsUpdate u → IsGap gap → SpellsUpdate v first
        → canonical u ++ more ≡ gap ++ (first ++ rest) → v ≡ u }
{}

/// The reader of whole lists takes for the next update exactly what is spelled after a gap, and leaves the rest.
pub fn next_is_spelled()
    ensures found { (u : UpdateView) (at to : ℕ) (bytes rest : List ℕ) → next_at at bytes ≡ Whole u to rest
        → (gap : List ℕ) × (first : List ℕ) × IsGap gap × SpellsUpdate u first × (bytes ≡ gap ++ (first ++ rest))
        × (to ≡ at + length gap + length first) }
    ensures spelled { (u : UpdateView) (at : ℕ) (gap first rest : List ℕ) → IsGap gap → SpellsUpdate u first
        → next_at at (gap ++ (first ++ rest)) ≡ Whole u (at + length gap + length first) rest }
{}

/// The fields and the body of a PUT have one reading: they are one update or have one fault, and not both. What is read
/// is an update that the program can hold.
pub fn one_put_reading()
    ensures one { (parts : Parts) (body : List ℕ) (r s : Result UpdateView PutFault) → r ≢ Err Memory → s ≢ Err Memory
        → IsPutReading parts body r → IsPutReading parts body s → r ≡ s }
    ensures some { (parts : Parts) (body : List ℕ) → (r : Result UpdateView PutFault) × (r ≢ Err Memory)
        × IsPutReading parts body r }
    ensures built { (u : UpdateView) (parts : Parts) (body : List ℕ) → SpellsPut u parts body → IsUpdate u }
{}

/// Of a PUT the request's own `Content-Length` is not looked at, and a body without `Patches` is the content, whole.
pub fn put_differences()
    ensures length { (parts : Parts) (values : List (List ℕ)) (body : List ℕ) (r : Result UpdateView PutFault)
        → IsPutReading parts body r
        → IsPutReading (with_length values parts) body r }
    ensures whole { (u : UpdateView) (parts : Parts) (body : List ℕ) → is_there parts.patches ≡ false
        → (s : SpellsPut u parts body) → s.whole.content ≡ body }
{}
