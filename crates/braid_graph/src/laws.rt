//! Laws of the definitions, each the contract of a function that does nothing.

ghost use Rattle.std.specs.Prelude.{◌≡◌, ◌≢◌, ◌↔◌, ◌+◌, ◌<◌, ◌∷◌, [], List, ℕ, Contains};
ghost use Rattle.braid_graph.specs.Entries.{GraphEntry, HoldsAll, IsHistoryGraph, SameEntries};
ghost use Rattle.braid_graph.specs.Ancestries.{IsAncestor, IsClosed, IsAncestry, ancestry_of};
ghost use Rattle.braid_graph.specs.Levels.{greatest_by, level_of};
ghost use Rattle.braid_graph.specs.Frontiers.{IsFrontierOf, frontier_of};
ghost use Rattle.braid_graph.specs.Orders.{SameAnswers};

/// An ancestry has its frontier's members and each parent of a member, and every set with these has all of it.
pub fn ancestry_is_least()
    ensures names { (es : List GraphEntry) (F : List (List ℕ)) (v : List ℕ) → Contains F v → IsAncestor es F v }
    ensures parents { (es : List GraphEntry) (F : List (List ℕ)) (e : GraphEntry) (v : List ℕ) → Contains es e
        → IsAncestor es F e.id → Contains e.parents v → IsAncestor es F v }
    ensures least { (es : List GraphEntry) (F xs : List (List ℕ)) (v : List ℕ) → IsClosed es F xs → IsAncestor es F v
        → Contains xs v }
{}

/// The walk from the newest entry to the oldest finds exactly the ancestry of a held frontier.
pub fn walk_finds_ancestry()
    ensures least { (es : List GraphEntry) (F : List (List ℕ)) → IsHistoryGraph es → HoldsAll es F
        → IsAncestry es F (ancestry_of es F) }
    ensures members { (es : List GraphEntry) (F : List (List ℕ)) → IsHistoryGraph es → HoldsAll es F → (v : List ℕ)
        → Contains (ancestry_of es F) v ↔ IsAncestor es F v }
{}

/// The level of an entry is 1 plus the greatest level of its parents, and above that of every other member of its own
/// ancestry.
pub fn level_is_above_ancestry()
    ensures parents { (es : List GraphEntry) → IsHistoryGraph es → (e : GraphEntry) → Contains es e
        → level_of es e.id ≡ 1 + greatest_by (level_of es) e.parents }
    ensures ancestry { (es : List GraphEntry) → IsHistoryGraph es → (v w : List ℕ) → IsAncestor es (v ∷ []) w → w ≢ v
        → level_of es w < level_of es v }
{}

/// The frontier as a list is the one rising list of the identifiers that are no entry's parent.
pub fn one_frontier()
    ensures listed { (es : List GraphEntry) → IsFrontierOf es (frontier_of es) }
    ensures one { (es : List GraphEntry) (F : List (List ℕ)) → IsFrontierOf es F → F ≡ frontier_of es }
{}

/// The answers do not depend on the order of arrival.
pub fn order_does_not_matter()
    ensures law { (es fs : List GraphEntry) → IsHistoryGraph es → IsHistoryGraph fs → SameEntries es fs
        → SameAnswers es fs }
{}
