//! Laws of books, each the contract of a function that does nothing.

ghost use Rattle.std.specs.Prelude.{◌≡◌, ◌≢◌, ◌↔◌, ℕ, ◌+◌, ◌≤◌, ◌++◌, ◌∷◌, [], List, Contains, length, take, filter};
ghost use Rattle.braid_change.specs.Updates.{UpdateView, IsUpdate};
ghost use Rattle.braid_graph.specs.Entries.{HoldsAll};
ghost use Rattle.braid_text.specs.Histories.{graph_of, IsLegal};
ghost use Rattle.braid_text.specs.Answers.{needs_of};
ghost use Rattle.braid_text.specs.Sent.{is_outside, sent};
ghost use Rattle.braid_store.specs.declared.entry.Entry.{Entry};
ghost use Rattle.braid_store.specs.declared.put.Put.{Put};
ghost use Rattle.braid_store.specs.declared.put.Put.TheVariants.{New, Known, Memory};
ghost use Rattle.braid_store.specs.Books.{of_path, paths_of, counts_at, IsLegalBook};
ghost use Rattle.braid_store.specs.Answers.{IsPut, put_answer};
ghost use Rattle.braid_store.specs.Cursors.{CursorView, IsFit, sent_of, left_past};

/// Every book that `put` can make is legal: the book without entries is, and stays so with each entry that is new to it.
pub fn every_book_is_legal()
    ensures none { IsLegalBook [] }
    ensures more { (B : List Entry) (e : Entry) → IsLegalBook B → IsPut B e New → IsLegalBook (B ++ e ∷ []) }
{}

/// An entry joins the history of its path and leaves that of each other path as it is. A path is among those of a book
/// exactly where it has an entry.
pub fn paths_stand_apart()
    ensures own { (B : List Entry) (e : Entry) → of_path (B ++ e ∷ []) e.path ≡ of_path B e.path ++ e.update ∷ [] }
    ensures others { (B : List Entry) (e : Entry) (p : List ℕ) → p ≢ e.path → of_path (B ++ e ∷ []) p ≡ of_path B p }
    ensures paths { (B : List Entry) (p : List ℕ) → Contains (paths_of B) p ↔ (of_path B p ≢ []) }
{}

/// One entry more is one version more, the elements and deletions that its update needs, and a resource where its path had
/// no entry. The width is the one that the update needs.
pub fn counts_grow()
    ensures new_resource { (B : List Entry) (e : Entry) → of_path B e.path ≡ []
        → (counts_at (B ++ e ∷ []) e.path).resources ≡ (counts_at B e.path).resources + 1 }
    ensures same_resources { (B : List Entry) (e : Entry) → of_path B e.path ≢ []
        → (counts_at (B ++ e ∷ []) e.path).resources ≡ (counts_at B e.path).resources }
    ensures versions { (B : List Entry) (e : Entry) → (counts_at (B ++ e ∷ []) e.path).versions
        ≡ (counts_at B e.path).versions + 1 }
    ensures elements { (B : List Entry) (e : Entry) → (counts_at (B ++ e ∷ []) e.path).elements
        ≡ (counts_at B e.path).elements + (needs_of (of_path B e.path) e.update).elements }
    ensures deletions { (B : List Entry) (e : Entry) → (counts_at (B ++ e ∷ []) e.path).deletions
        ≡ (counts_at B e.path).deletions + (needs_of (of_path B e.path) e.update).deletions }
    ensures width { (B : List Entry) (e : Entry) → (counts_at (B ++ e ∷ []) e.path).width
        ≡ (needs_of (of_path B e.path) e.update).width }
{}

/// The answer to an entry of an update that the program can hold is the one that fits, and no other fits but want of memory;
/// to an update that the path holds only Known fits.
pub fn one_answer()
    ensures fits { (B : List Entry) (e : Entry) → IsLegalBook B → IsUpdate e.update → IsPut B e (put_answer B e) }
    ensures one { (B : List Entry) (e : Entry) → IsLegalBook B → IsUpdate e.update → (a : Put) → IsPut B e a
        → a ≢ Memory → a ≡ put_answer B e }
    ensures known { (B : List Entry) (e : Entry) → IsLegalBook B → IsUpdate e.update
        → Contains (of_path B e.path) e.update → (a : Put) → IsPut B e a → a ≡ Known }
{}

/// What is sent of a longer book begins with what is sent of the shorter one; behind it comes all that was put to the path
/// since. What is sent of the first entries stays as the book grows.
pub fn sent_grows()
    ensures begins { (B C : List Entry) (p : List ℕ) (F : List (List ℕ)) → IsLegalBook (B ++ C)
        → HoldsAll (graph_of (of_path B p)) F → sent (of_path (B ++ C) p) F ≡ sent (of_path B p) F ++ of_path C p }
    ensures stays { (B C : List Entry) (p : List ℕ) (F : List (List ℕ)) (n : ℕ) → n ≤ length B
        → sent_of (B ++ C) p F n ≡ sent_of B p F n }
{}

/// A cursor begins with all that is sent. What it was given and what is left are what is sent, and what comes to the
/// history meanwhile is left behind it.
pub fn cursors_give_what_is_sent()
    ensures begins { (H : List UpdateView) (F : List (List ℕ)) → left_past H F 0 ≡ sent H F }
    ensures whole { (H : List UpdateView) (F : List (List ℕ)) (n : ℕ)
        → filter (is_outside H F) (take n H) ++ left_past H F n ≡ sent H F }
    ensures more { (H K : List UpdateView) (F : List (List ℕ)) (n : ℕ) → IsLegal (H ++ K) → HoldsAll (graph_of H) F
        → n ≤ length H → left_past (H ++ K) F n ≡ left_past H F n ++ K }
{}

/// A cursor that fits a book fits each longer book that is legal.
pub fn fits_longer()
    ensures law { (B C : List Entry) (c : CursorView) → IsFit B c → IsLegalBook (B ++ C) → IsFit (B ++ C) c }
{}
