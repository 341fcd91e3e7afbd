//! Laws of the definitions, each the contract of a function that does nothing.

ghost use Rattle.std.specs.Prelude.{◌≡◌, ◌↔◌, ◌+◌, ◌++◌, ◌∷◌, [], ℕ, List, Some, codes, length, map, flat_map, slice_get, Contains};
ghost use Rattle.braid_change.specs.declared.patch.Patch.{Patch};
ghost use Rattle.braid_change.specs.declared.change.Change.{Change};
ghost use Rattle.braid_change.specs.declared.change.Change.TheVariants.{Body, Patches};
ghost use Rattle.braid_change.specs.Changes.{IsShaped};
ghost use Rattle.braid_change.specs.Splices.{spliced, AreRanges, removed, inserted};
ghost use Rattle.braid_tree.specs.Keys.{Key, key_cmp, key_in};
ghost use Rattle.braid_tree.specs.Nodes.{Node, path_of, IsReading, with_nodes, run};
ghost use Rattle.braid_tree.specs.Elements.{element_of};
ghost use Rattle.braid_tree.specs.Trees.{IsTree, AreDistinct, AreNewKeys};
ghost use Rattle.braid_rebase.specs.Additions.{chars_of, origin_at, nodes_at, deleted_at, ranges_at, key_of, added_nodes, deleted_keys, seen_after, AreUnder, IsDeletedAt};
ghost use Rattle.braid_graph.specs.Entries.{GraphEntry};
ghost use Rattle.braid_tree.specs.Rows.{Stamp, Row, RowDeletion, element_at, key_at};
ghost use Rattle.braid_rebase.specs.Resolved.{IsSeenAt, places_of, row_ranges, runs_at, places_at};
ghost use Rattle.braid_rebase.specs.Standing.{AreRunsOf};
ghost use Rattle.braid_rebase.specs.Worked.{abc, patch, text_after, three_patches};

/// What a version of a higher level adds to the nodes that its parents see, and what it deletes of them, make the splice
/// of their text.
pub fn adds_the_splice()
    ensures law { (level : ℕ) (id : List ℕ) (S : List (Node Key)) (change : Change) (t : List ℕ) → IsReading key_cmp S
        → AreDistinct S → AreUnder level S → IsShaped change → spliced (chars_of S) change ≡ Some t
        → chars_of (seen_after level id S change) ≡ t }
{}

/// A version's nodes have the characters of its ranges' texts, in order, with ordinals that go on through all ranges, and
/// are as many as these characters.
pub fn nodes_are_the_texts()
    ensures characters { (key : ℕ → Key) (S : List (Node Key)) (n : ℕ) (rs : List Patch)
        → chars_of (nodes_at key S n rs) ≡ flat_map (λ (r : Patch). r.text) rs }
    ensures keys { (key : ℕ → Key) (S : List (Node Key)) (n : ℕ) (rs : List Patch) (k : ℕ) (x : Node Key)
        → slice_get (nodes_at key S n rs) k ≡ Some x → x.key ≡ key (n + k) }
    ensures counted { (key : ℕ → Key) (S : List (Node Key)) (n : ℕ) (rs : List Patch)
        → length (nodes_at key S n rs) ≡ inserted rs }
{}

/// Each range's text is a run whose origin is the seen node before the range, or the root where the range starts at 0;
/// each further node of the run has the one before it as its origin.
pub fn origins_are_seen()
    ensures runs { (key : ℕ → Key) (S : List (Node Key)) (n : ℕ) (front back : List Patch) (r : Patch)
        → nodes_at key S n (front ++ r ∷ back) ≡ nodes_at key S n front
        ++ (run key (origin_at S r.start) (n + inserted front) r.text
        ++ nodes_at key S (n + inserted front + length r.text) back) }
    ensures root { (S : List (Node Key)) → origin_at S 0 ≡ [] }
    ensures seen { (S : List (Node Key)) (s : ℕ) (x : Node Key) → slice_get S s ≡ Some x
        → origin_at S (s + 1) ≡ path_of x }
    ensures first { (key : ℕ → Key) (text : List ℕ) (above : List Key) (n : ℕ) (x : Node Key)
        → slice_get (run key above n text) 0 ≡ Some x → x.above ≡ above }
    ensures next { (key : ℕ → Key) (text : List ℕ) (above : List Key) (n k : ℕ) (x y : Node Key)
        → slice_get (run key above n text) k ≡ Some x → slice_get (run key above n text) (k + 1) ≡ Some y
        → y.above ≡ path_of x }
{}

/// Deleted are exactly the seen nodes within the ranges, as many as the ranges remove.
pub fn ranges_are_deleted()
    ensures exact { (S : List (Node Key)) (rs : List Patch) (k : Key)
        → Contains (deleted_at S rs) k ↔ IsDeletedAt S rs k }
    ensures counted { (S : List (Node Key)) (rs : List Patch) (low : ℕ) → AreRanges low (length S) rs
        → length (deleted_at S rs) ≡ removed rs }
{}

/// The nodes of a version with new keys and a higher level leave a tree.
pub fn leaves_a_tree()
    ensures law { (level : ℕ) (id : List ℕ) (S : List (Node Key)) (change : Change) (d : List (Node Key))
        → IsTree key_cmp d → AreNewKeys (key_in level id) 0 d → ((x : Node Key) → Contains S x → Contains d x)
        → AreUnder level S → IsTree key_cmp (with_nodes key_cmp (added_nodes level id S change) d) }
{}

/// The rows that the ancestry of a frontier sees are one list.
pub fn one_view()
    ensures law { (es : List GraphEntry) (F : List (List ℕ)) (deletions : List RowDeletion) (rows S T : List Row)
        → IsSeenAt es F deletions rows S → IsSeenAt es F deletions rows T → S ≡ T }
{}

/// Where the seen rows list nodes, an update is resolved to what the definitions say that it adds to the nodes: the
/// ranges are those in the nodes, each run is that of its range, and the places deleted are those of the deleted keys.
pub fn resolves_what_is_added()
    ensures ranges { (vs : List Stamp) (S : List Row) (N : List (Node Key)) (change : Change)
        → map (element_at vs) S ≡ map element_of N → row_ranges S change ≡ ranges_at N change }
    ensures runs { (vs : List Stamp) (S : List Row) (N : List (Node Key)) (change : Change)
        → map (element_at vs) S ≡ map element_of N → IsShaped change
        → AreRunsOf vs N 0 (runs_at (places_of S) 0 (row_ranges S change)) (ranges_at N change) }
    ensures deletes { (vs : List Stamp) (S : List Row) (N : List (Node Key)) (change : Change)
        → map (element_at vs) S ≡ map element_of N → map (key_at vs) (places_at (places_of S) (row_ranges S change))
        ≡ deleted_keys N change }
{}

/// What a version adds to a short text.
pub fn rows()
    ensures inserts { text_after (Patches (patch 1 1 (codes "P") ∷ [])) ≡ codes "aPbc" }
    ensures replaces { text_after (Patches (patch 0 2 (codes "J") ∷ [])) ≡ codes "Jc" }
    ensures joins { text_after three_patches ≡ codes "axyzc!" }
    ensures body { text_after (Body (codes "hi")) ≡ codes "hi" }
    ensures keys { map key_of (added_nodes 2 (codes "p-1") abc three_patches)
        ≡ key_in 2 (codes "p-1") 0 ∷ key_in 2 (codes "p-1") 1 ∷ key_in 2 (codes "p-1") 2 ∷ key_in 2 (codes "p-1") 3
        ∷ [] }
    ensures deleted { deleted_keys abc three_patches ≡ key_in 1 (codes "x-1") 1 ∷ [] }
    ensures origins { map (λ (x : Node Key). (element_of x).origin)
        (added_nodes 2 (codes "p-1") abc (Patches (patch 1 3 (codes "PQ") ∷ [])))
        ≡ Some (key_in 1 (codes "x-1") 0) ∷ Some (key_in 2 (codes "p-1") 0) ∷ [] }
    ensures path { origin_at abc 3 ≡ key_in 1 (codes "x-1") 0 ∷ key_in 1 (codes "x-1") 1 ∷ key_in 1 (codes "x-1") 2
        ∷ [] }
{}
