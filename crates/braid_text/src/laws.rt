//! Laws of the definitions, each the contract of a function that does nothing.

ghost use Rattle.std.specs.Prelude.{◌≡◌, ◌≢◌, ◌↔◌, ◌+◌, ◌-◌, ◌*◌, ◌++◌, ◌∷◌, [], ℕ, List, Some, IsSome, MatchOption, true, codes, length, map, Contains};
ghost use Rattle.std.specs.declared.cmp.Ordering.TheVariants.{Less};
ghost use Rattle.braid_ids.specs.Identifiers.{IsIdentifier};
ghost use Rattle.braid_ids.specs.Frontiers.{IsRising};
ghost use Rattle.braid_change.specs.Changes.{IsShaped};
ghost use Rattle.braid_change.specs.Updates.{UpdateView, IsBuilt};
ghost use Rattle.braid_change.specs.Splices.{spliced, inserted, removed};
ghost use Rattle.braid_graph.specs.Entries.{Holds, HoldsAll, IsHistoryGraph};
ghost use Rattle.braid_graph.specs.Ancestries.{IsAncestor, ancestry_of};
ghost use Rattle.braid_graph.specs.Levels.{greatest_by, level_of};
ghost use Rattle.braid_graph.specs.Frontiers.{frontier_of};
ghost use Rattle.braid_tree.specs.Keys.{Key, key_cmp};
ghost use Rattle.braid_tree.specs.Nodes.{Node, IsReading, with_nodes};
ghost use Rattle.braid_tree.specs.Elements.{Element, element_of};
ghost use Rattle.braid_tree.specs.Trees.{IsTree};
ghost use Rattle.braid_rebase.specs.Additions.{ranges_at, seen_after};
ghost use Rattle.braid_text.specs.Versions.{Version, has_version, elements_by, deletions_by};
ghost use Rattle.braid_text.specs.Histories.{graph_of, SameGraph, AreCompatible, MayFollow, IsLegal, versions_at, added_by, document_of, ancestors_at, seen_at, text_at, text_of, elements_of, deletions_of};
ghost use Rattle.braid_text.specs.RunCounts.{insertions_of, most_runs};
ghost use Rattle.braid_text.specs.Documents.{IsDocument, IsSeen};
ghost use Rattle.braid_text.specs.Answers.{needs_of, room_of, answer_to, HasRoom, IsAnswer};
ghost use Rattle.braid_text.specs.Alike.{AreAlike};
ghost use Rattle.braid_text.specs.Digested.{id_in, by_identifier, digest_at};
ghost use Rattle.braid_text.specs.Sent.{sent};
ghost use Rattle.braid_text.specs.Worked.{x_1, p_1, q_1, r_1, p_deletes, a_1, b_1, m_1, a_other, x_hello, y_1, z_1, room_for};
ghost use Rattle.braid_text.specs.declared.accept.Accept.{Accept};
ghost use Rattle.braid_text.specs.declared.accept.Accept.TheVariants.{New, Known, Clash, UnknownParent, OutOfRange, Full, Memory};
ghost use Rattle.braid_text.specs.declared.room.Which.TheVariants.{Versions, Elements, Deletions, Width};
ghost use Rattle.braid_text.specs.declared.room.Room.{Room};

/// Two legal histories with the same graph read the same at every frontier within them, in whatever order their updates
/// came.
pub fn same_text()
    ensures law { (H K : List UpdateView) → IsLegal H → IsLegal K → SameGraph H K → (F : List (List ℕ))
        → HoldsAll (graph_of H) F → text_at H F ≡ text_at K F }
{}

/// Two legal histories in which no two updates differ under one identifier see the same nodes, and so the same
/// elements, at every frontier within both.
pub fn shared_text()
    ensures law { (H K : List UpdateView) → IsLegal H → IsLegal K → AreCompatible H K → (F : List (List ℕ))
        → HoldsAll (graph_of H) F → HoldsAll (graph_of K) F → seen_at H F ≡ seen_at K F }
{}

/// What is read at a version is the splice of what is read at its parents, whatever concurrent versions the history
/// also has. What the version sees is what its parents see, with the nodes that the version inserts and without those
/// that it deletes.
pub fn splice_law()
    ensures law { (H : List UpdateView) → IsLegal H → (u : UpdateView) → Contains H u
        → spliced (text_at H u.parents) u.change ≡ Some (text_at H (u.id ∷ [])) }
    ensures seen { (H : List UpdateView) → IsLegal H → (u : UpdateView) → Contains H u
        → seen_at H (u.id ∷ []) ≡ seen_after (level_of (graph_of H) u.id) u.id (seen_at H u.parents) u.change }
{}

/// The legal histories are the empty one, and every legal one with an update behind it that may follow: its identifier is
/// new, its parents are there, it is built, and its change has a splice on the text at its parents.
pub fn legal_law()
    ensures none { IsLegal [] }
    ensures more { (H : List UpdateView) (u : UpdateView) → IsLegal (H ++ u ∷ []) ↔ (IsLegal H × MayFollow H u) }
    ensures may { (H : List UpdateView) (u : UpdateView)
        → MayFollow H u ↔ (¬ (Holds (graph_of H) u.id) × IsIdentifier u.id × HoldsAll (graph_of H) u.parents
        × IsRising u.parents × IsBuilt u.parents u.change × IsSome (spliced (text_at H u.parents) u.change)) }
{}

/// The document, elements and deletions of a longer history are those of the shorter one with what the new update adds.
/// The new level is 1 plus the greatest level of the parents.
pub fn added_law()
    ensures versions { (H : List UpdateView) (u : UpdateView)
        → versions_at (H ++ u ∷ []) ≡ added_by H u ∷ versions_at H }
    ensures document { (H : List UpdateView) (u : UpdateView)
        → document_of (H ++ u ∷ []) ≡ with_nodes key_cmp (added_by H u).nodes (document_of H) }
    ensures elements { (H : List UpdateView) (u : UpdateView)
        → elements_of (H ++ u ∷ []) ≡ elements_of H ++ elements_by (added_by H u) }
    ensures deletions { (H : List UpdateView) (u : UpdateView)
        → deletions_of (H ++ u ∷ []) ≡ deletions_of H ++ deletions_by (added_by H u) }
    ensures level { (H : List UpdateView) (u : UpdateView) → IsLegal H → HoldsAll (graph_of H) u.parents
        → (added_by H u).level ≡ 1 + greatest_by (level_of (graph_of H)) u.parents }
{}

/// The document of a legal history is the one reading of the nodes that its versions insert. It is a tree: what stands
/// above a node is the path of the node that is its origin, or nothing at the root.
pub fn document_law()
    ensures listed { (H : List UpdateView) → IsLegal H → IsDocument H (document_of H) }
    ensures one { (H : List UpdateView) (d e : List (Node Key)) → IsDocument H d → IsDocument H e → d ≡ e }
    ensures tree { (H : List UpdateView) → IsLegal H → IsTree key_cmp (document_of H) }
    ensures counted { (H : List UpdateView) → length (document_of H) ≡ length (elements_of H) }
    ensures keys { (H : List UpdateView) → IsLegal H → (x y : Node Key) → Contains (document_of H) x
        → Contains (document_of H) y → x.key ≡ y.key → x ≡ y }
{}

/// The elements of a legal history are the nodes of its document without their paths. No two have one key, each has the
/// level and the identifier of its version, and its origin is the root or an element with a smaller key.
pub fn elements_law()
    ensures exact { (H : List UpdateView) → IsLegal H → (e : Element)
        → Contains (elements_of H) e ↔ ((x : Node Key) × Contains (document_of H) x × (element_of x ≡ e)) }
    ensures keys { (H : List UpdateView) → IsLegal H → (e f : Element) → Contains (elements_of H) e
        → Contains (elements_of H) f → e.key ≡ f.key → e ≡ f }
    ensures owned { (H : List UpdateView) → IsLegal H → (v : Version) → Contains (versions_at H) v → (e : Element)
        → Contains (elements_by v) e → (e.key.id ≡ v.id) × (e.key.level ≡ v.level) }
    ensures origins { (H : List UpdateView) → IsLegal H → (e : Element) → Contains (elements_of H) e
        → MatchOption e.origin (Unit {0}) (λ k. ((o : Element) × Contains (elements_of H) o × (o.key ≡ k))
        × (key_cmp k e.key ≡ Less)) }
{}

/// Seen at a frontier is what its ancestry inserts and does not delete, in reading order.
pub fn seen_law()
    ensures exact { (H : List UpdateView) → IsLegal H → (F : List (List ℕ)) → HoldsAll (graph_of H) F → (x : Node Key)
        → Contains (seen_at H F) x ↔ IsSeen H F x }
    ensures reading { (H : List UpdateView) → IsLegal H → (F : List (List ℕ)) → IsReading key_cmp (seen_at H F) }
{}

/// The graph of a legal history is a history of the graph, and says the ancestry, the levels and the frontier of its
/// versions.
pub fn graph_law()
    ensures history { (H : List UpdateView) → IsLegal H → IsHistoryGraph (graph_of H) }
    ensures walk { (H : List UpdateView) (F : List (List ℕ))
        → map (λ (v : Version). v.id) (ancestors_at H F) ≡ ancestry_of (graph_of H) F }
    ensures ancestry { (H : List UpdateView) → IsLegal H → (F : List (List ℕ)) → HoldsAll (graph_of H) F
        → (v : List ℕ) → (has_version v (ancestors_at H F) ≡ true) ↔ IsAncestor (graph_of H) F v }
    ensures level { (H : List UpdateView) → IsLegal H → (v : Version) → Contains (versions_at H) v
        → v.level ≡ level_of (graph_of H) v.id }
    ensures frontier { (H : List UpdateView) → IsLegal H → ancestors_at H (frontier_of (graph_of H)) ≡ versions_at H }
{}

/// The answer to an update that has an identifier and rising parents and is built is the one that fits, and no other fits
/// but want of memory; to an update that is held only Known fits. It is New exactly where the longer history is legal and
/// there is room. Needed are as many elements as the ranges insert, as many deletions as they remove, and the width of the
/// frontier afterwards.
pub fn answers_law()
    ensures fits { (room : Room) (H : List UpdateView) (u : UpdateView) → IsLegal H → IsIdentifier u.id
        → IsRising u.parents → IsBuilt u.parents u.change → IsAnswer room H u (answer_to room H u) }
    ensures one { (room : Room) (H : List UpdateView) (u : UpdateView) → IsLegal H → IsRising u.parents → (a : Accept)
        → IsAnswer room H u a → a ≢ Memory → a ≡ answer_to room H u }
    ensures known { (room : Room) (H : List UpdateView) (u : UpdateView) → IsLegal H → IsRising u.parents
        → Contains H u → (a : Accept) → IsAnswer room H u a → a ≡ Known }
    ensures new { (room : Room) (H : List UpdateView) (u : UpdateView) → IsLegal H → IsIdentifier u.id
        → IsRising u.parents → IsBuilt u.parents u.change
        → (answer_to room H u ≡ New) ↔ (IsLegal (H ++ u ∷ []) × HasRoom (needs_of H u) room) }
    ensures elements { (H : List UpdateView) (u : UpdateView)
        → (needs_of H u).elements ≡ inserted (ranges_at (seen_at H u.parents) u.change) }
    ensures deletions { (H : List UpdateView) (u : UpdateView) → IsShaped u.change
        → (needs_of H u).deletions ≡ removed (ranges_at (seen_at H u.parents) u.change) }
    ensures width { (H : List UpdateView) (u : UpdateView)
        → (needs_of H u).width ≡ length (frontier_of (graph_of (H ++ u ∷ []))) }
{}

/// What limits leave beside a history is each of them without what the history has of it: its updates, its elements, its
/// deletions. The width is left whole.
pub fn room_law()
    ensures versions { (limits : Room) (H : List UpdateView)
        → (room_of limits H).versions ≡ limits.versions - length H }
    ensures elements { (limits : Room) (H : List UpdateView)
        → (room_of limits H).elements ≡ limits.elements - length (elements_of H) }
    ensures deletions { (limits : Room) (H : List UpdateView)
        → (room_of limits H).deletions ≡ limits.deletions - length (deletions_of H) }
    ensures width { (limits : Room) (H : List UpdateView) → (room_of limits H).width ≡ limits.width }
{}

/// Legal histories of the same updates agree on everything that does not speak of the order of arrival.
pub fn order_does_not_matter()
    ensures law { (H K : List UpdateView) → IsLegal H → IsLegal K → SameGraph H K → AreAlike H K }
{}

/// Sent past a frontier are the updates outside its ancestry, in their order. What comes to the history later comes behind
/// them.
pub fn sent_law()
    ensures exact { (H : List UpdateView) → IsLegal H → (F : List (List ℕ)) → HoldsAll (graph_of H) F
        → (u : UpdateView) → Contains (sent H F) u ↔ (Contains H u × ¬ (IsAncestor (graph_of H) F u.id)) }
    ensures more { (H : List UpdateView) (F : List (List ℕ)) (u : UpdateView) → IsLegal H → HoldsAll (graph_of H) F
        → ¬ (Holds (graph_of H) u.id) → sent (H ++ u ∷ []) F ≡ sent H F ++ u ∷ [] }
{}

/// The updates by rising identifier are those of the history, and rise; so legal histories of the same updates have one
/// digest.
pub fn one_digest()
    ensures exact { (H : List UpdateView) → IsLegal H → (u : UpdateView) → Contains (by_identifier H) u ↔ Contains H u }
    ensures rising { (H : List UpdateView) → IsRising (map id_in (by_identifier H)) }
    ensures law { (H K : List UpdateView) → IsLegal H → IsLegal K → SameGraph H K → digest_at H ≡ digest_at K }
{}

/// The bound on the runs of a history's document: 0 without updates, and each update adds two for each of its joined ranges
/// that insert text and for each of its deletions.
pub fn runs_law()
    ensures none { most_runs [] ≡ 0 }
    ensures more { (H : List UpdateView) (u : UpdateView) → most_runs (H ++ u ∷ [])
        ≡ most_runs H + 2 * (insertions_of u.change + (needs_of H u).deletions) }
{}

/// What is read of small histories, in each order of arrival.
pub fn rows()
    ensures siblings { text_of (x_1 ∷ p_1 ∷ q_1 ∷ []) ≡ codes "aQPb" }
    ensures siblings_back { text_of (x_1 ∷ q_1 ∷ p_1 ∷ []) ≡ codes "aQPb" }
    ensures between { text_of (x_1 ∷ p_1 ∷ q_1 ∷ r_1 ∷ []) ≡ codes "aQRPb" }
    ensures between_back { text_of (x_1 ∷ q_1 ∷ p_1 ∷ r_1 ∷ []) ≡ codes "aQRPb" }
    ensures concurrent { text_of (x_1 ∷ p_deletes ∷ q_1 ∷ []) ≡ codes "Q" }
    ensures concurrent_back { text_of (x_1 ∷ q_1 ∷ p_deletes ∷ []) ≡ codes "Q" }
    ensures roots { text_of (a_1 ∷ b_1 ∷ []) ≡ codes "BA" }
    ensures roots_back { text_of (b_1 ∷ a_1 ∷ []) ≡ codes "BA" }
    ensures merge { text_of (a_1 ∷ b_1 ∷ m_1 ∷ []) ≡ codes "BA" }
    ensures merge_back { text_of (b_1 ∷ a_1 ∷ m_1 ∷ []) ≡ codes "BA" }
    ensures merge_frontier { frontier_of (graph_of (a_1 ∷ b_1 ∷ m_1 ∷ [])) ≡ codes "m-1" ∷ [] }
    ensures merge_frontier_back { frontier_of (graph_of (b_1 ∷ a_1 ∷ m_1 ∷ [])) ≡ codes "m-1" ∷ [] }
    ensures bodies { text_of (x_hello ∷ y_1 ∷ []) ≡ codes "hello you" }
    ensures sent_past { sent (a_1 ∷ b_1 ∷ m_1 ∷ []) (codes "b-1" ∷ []) ≡ a_1 ∷ m_1 ∷ [] }
    ensures sent_all { sent (b_1 ∷ a_1 ∷ m_1 ∷ []) [] ≡ b_1 ∷ a_1 ∷ m_1 ∷ [] }
    ensures sent_none { sent (b_1 ∷ a_1 ∷ m_1 ∷ []) (codes "m-1" ∷ []) ≡ [] }
{}

/// The answers of small histories to updates.
pub fn answer_rows()
    ensures new { answer_to (room_for 9) (a_1 ∷ []) b_1 ≡ New }
    ensures known { answer_to (room_for 0) (a_1 ∷ b_1 ∷ []) a_1 ≡ Known }
    ensures clash { answer_to (room_for 9) (a_1 ∷ b_1 ∷ []) a_other ≡ Clash (codes "a-1") }
    ensures unknown { answer_to (room_for 9) (b_1 ∷ []) m_1 ≡ UnknownParent (codes "a-1") }
    ensures out_of_range { answer_to (room_for 9) (x_hello ∷ y_1 ∷ []) z_1 ≡ OutOfRange 0 5 }
    ensures no_version { answer_to (room_for 0) (a_1 ∷ []) b_1 ≡ Full Versions 1 0 }
    ensures no_element { answer_to (room_for 8) (x_hello ∷ []) y_1 ≡ Full Elements 9 8 }
    ensures no_deletion { answer_to (room_for 1) (x_1 ∷ []) p_deletes ≡ Full Deletions 2 1 }
    ensures too_wide { answer_to (room_for 1) (a_1 ∷ []) b_1 ≡ Full Width 2 1 }
{}

/// The histories of the rows are legal.
pub fn rows_are_legal()
    ensures siblings { IsLegal (x_1 ∷ p_1 ∷ q_1 ∷ r_1 ∷ []) }
    ensures siblings_back { IsLegal (x_1 ∷ q_1 ∷ p_1 ∷ r_1 ∷ []) }
    ensures concurrent { IsLegal (x_1 ∷ p_deletes ∷ q_1 ∷ []) }
    ensures concurrent_back { IsLegal (x_1 ∷ q_1 ∷ p_deletes ∷ []) }
    ensures merge { IsLegal (a_1 ∷ b_1 ∷ m_1 ∷ []) }
    ensures merge_back { IsLegal (b_1 ∷ a_1 ∷ m_1 ∷ []) }
    ensures bodies { IsLegal (x_hello ∷ y_1 ∷ []) }
{}
