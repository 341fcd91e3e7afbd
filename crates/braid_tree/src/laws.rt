//! Laws of the reading order and of what marked versions see, each the contract of a function that does nothing.

ghost use Rattle.std.specs.Prelude.{◌≡◌, ◌↔◌, ◌⊎◌, ◌++◌, ◌∷◌, [], ◌+◌, ℕ, Bool, List, Option, Some, None, MatchOption, IsTrue, Contains, codes, length, map};
ghost use Rattle.std.specs.List.{AllByRecursion};
ghost use Rattle.std.specs.List.Sorted.{IsPermutation};
ghost use Rattle.std.specs.declared.cmp.Ordering.TheVariants.{Less};
ghost use Rattle.braid_ids.specs.MarkSets.{IsMarked};
ghost use Rattle.braid_tree.specs.declared.at.At.{At};
ghost use Rattle.braid_tree.specs.Keys.{Key, key_cmp};
ghost use Rattle.braid_tree.specs.Paths.{PathBefore};
ghost use Rattle.braid_tree.specs.Nodes.{Node, path_of, Before, IsReading, with_node, with_nodes, run};
ghost use Rattle.braid_tree.specs.Trees.{Member, HasPath, IsTree, AreSmaller, AreRisingKeys, AreNewKeys, IsWithout, RisesToKey, IsCutFor};
ghost use Rattle.braid_tree.specs.Elements.{element_of, last_key, IsListedOrigin};
ghost use Rattle.braid_tree.specs.Rows.{Stamp, Row, RowDeletion, PutsOne, Inserts, next_key};
ghost use Rattle.braid_tree.specs.Seen.{is_deleted_by, is_seen_by, seen_rows, Deletes};
ghost use Rattle.braid_tree.specs.Worked.{x_run, p_run, q_run, r_run, text_of_runs};

/// Of two nodes one stands before the other, or they have one path; never both, and never in a circle.
pub fn order_is_total()
    ensures total { (x y : Node Key) → Before key_cmp x y ⊎ ((path_of x ≡ path_of y) ⊎ Before key_cmp y x) }
    ensures strict { (x y : Node Key) → Before key_cmp x y → ¬ (Before key_cmp y x) }
    ensures transitive { (x y z : Node Key) → Before key_cmp x y → Before key_cmp y z → Before key_cmp x z }
{}

/// The reading is depth first: a node stands before all below it, nodes with one origin stand by falling key, and
/// what stands between two nodes below one node is below it too.
pub fn reading_is_depth_first()
    ensures below { (p : List Key) (k : Key) (q : List Key) → PathBefore key_cmp p (p ++ k ∷ q) }
    ensures siblings { (x y : Node Key) → x.above ≡ y.above → key_cmp y.key x.key ≡ Less → Before key_cmp x y }
    ensures together { (p a c q : List Key) → PathBefore key_cmp (p ++ a) q → PathBefore key_cmp q (p ++ c)
        → (b : List Key) × (q ≡ p ++ b) }
{}

/// A reading is determined by its members. `Member` says by cases on a list what `Contains` says by number.
pub fn one_reading()
    ensures member { (xs : List (Node Key)) (z : Node Key) → Member z xs ↔ Contains xs z }
    ensures law { (xs ys : List (Node Key)) → IsReading key_cmp xs → IsReading key_cmp ys
        → ((z : Node Key) → Member z xs ↔ Member z ys) → xs ≡ ys }
{}

/// A new node that is put behind its origin, past the neighbours with greater keys, stands where the order wants it.
pub fn node_lands()
    ensures law { (x : Node Key) (front over tail : List (Node Key)) → IsCutFor key_cmp x.above x.key front over tail
        → RisesToKey key_cmp x → AllByRecursion (IsWithout x.key) (front ++ (over ++ tail))
        → with_node key_cmp x (front ++ (over ++ tail)) ≡ front ++ (over ++ x ∷ tail) }
{}

/// A run stands together: all of it comes where its first character comes.
pub fn run_stands_together()
    ensures law { (key : ℕ → Key) → AreRisingKeys key_cmp key
        → (text : List ℕ) (above : List Key) (n : ℕ) (front over tail : List (Node Key))
        → IsCutFor key_cmp above (key n) front over tail
        → AreSmaller key_cmp (key n) above → AreNewKeys key n (front ++ (over ++ tail))
        → with_nodes key_cmp (run key above n text) (front ++ (over ++ tail))
        ≡ front ++ (over ++ (run key above n text ++ tail)) }
{}

/// A tree with a run in its order is a tree, with the nodes that it had and those of the run.
pub fn tree_grows()
    ensures tree { (key : ℕ → Key) → AreRisingKeys key_cmp key
        → (text : List ℕ) (above : List Key) (n : ℕ) (d : List (Node Key)) → IsTree key_cmp d
        → AreNewKeys key n d → (above ≡ []) ⊎ HasPath d above → AreSmaller key_cmp (key n) above
        → IsTree key_cmp (with_nodes key_cmp (run key above n text) d) }
    ensures members { (xs d : List (Node Key)) (z : Node Key)
        → Member z (with_nodes key_cmp xs d) ↔ (Member z xs ⊎ Member z d) }
{}

/// An element is its node without the path: in a tree its origin is the root, or a listed node with a smaller key. So
/// elements in reading order are those of at most one tree.
pub fn elements_keep_origins()
    ensures root { last_key [] ≡ None }
    ensures last { (above : List Key) (k : Key) → last_key (above ++ k ∷ []) ≡ Some k }
    ensures listed { (d : List (Node Key)) → IsTree key_cmp d → (x : Node Key) → Member x d
        → IsListedOrigin d x (element_of x).origin }
    ensures one { (d e : List (Node Key)) → IsTree key_cmp d → IsTree key_cmp e
        → map element_of d ≡ map element_of e → d ≡ e }
{}

/// Marked versions see an element where its version is marked and none of them deletes it. So the order of the deletions
/// is of no account, and one more that is put anywhere among them adds itself alone.
pub fn seen_is_decided()
    ensures deleted { (marks : List Bool) (deletions : List RowDeletion) (at : At)
        → IsTrue (is_deleted_by marks deletions at) ↔ Deletes marks deletions at }
    ensures seen { (marks : List Bool) (deletions : List RowDeletion) (row : Row)
        → IsTrue (is_seen_by marks deletions row)
        ↔ (IsMarked marks row.at.version × ¬ (Deletes marks deletions row.at)) }
    ensures unordered { (marks : List Bool) (ds es : List RowDeletion) (rows : List Row)
        → ((d : RowDeletion) → Contains ds d ↔ Contains es d) → seen_rows marks ds rows ≡ seen_rows marks es rows }
    ensures members { (old new : List RowDeletion) (d : RowDeletion) → PutsOne old d new
        → (e : RowDeletion) → Contains new e ↔ (Contains old e ⊎ (e ≡ d)) }
    ensures counted { (old new : List RowDeletion) (d : RowDeletion) → PutsOne old d new → length new ≡ length old + 1 }
    ensures permuted { (old new : List RowDeletion) (d : RowDeletion) → PutsOne old d new
        → IsPermutation (old ++ d ∷ []) new }
{}

/// A run that is put where its origin and its version's level allow it leaves a tree: so the rows of a document list
/// a tree from the first run on.
pub fn run_leaves_a_tree()
    ensures law { (vs : List Stamp) (old : List Row) (es : List (Node Key)) (after : Option At) (above : List Key)
        (n : ℕ)
        (text : List ℕ) → Inserts vs old es after above n
        → IsTree key_cmp (with_nodes key_cmp (run (next_key vs) above n text) es) }
{}

/// Two runs that are typed behind one character at one time read alike in both orders of arrival.
pub fn worked_rows()
    ensures before { text_of_runs x_run p_run q_run [] ≡ codes "aQPb" }
    ensures after { text_of_runs x_run q_run p_run [] ≡ codes "aQPb" }
    ensures between { text_of_runs x_run p_run q_run r_run ≡ codes "aQRPb" }
    ensures between_after { text_of_runs x_run q_run p_run r_run ≡ codes "aQRPb" }
{}
