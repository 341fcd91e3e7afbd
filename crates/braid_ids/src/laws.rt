//! Laws of the definitions, each the contract of a function that does nothing.

ghost use Rattle.std.specs.Prelude.{◌≡◌, ◌<◌, ◌≤◌, ◌^◌, ◌++◌, ◌↔◌, List, ℕ, Contains, length};
ghost use Rattle.braid_ids.specs.Agents.{IsAgent, agent_name};
ghost use Rattle.braid_ids.specs.Frontiers.{IsRising, rising_ids};
ghost use Rattle.braid_ids.specs.Identifiers.{spelled_id};

/// Two frontiers with the same members are the same list.
pub fn one_order()
    ensures law { (xs ys : List (List ℕ)) → IsRising xs → IsRising ys
        → ((id : List ℕ) → Contains xs id ↔ Contains ys id) → xs ≡ ys }
{}

/// Identifiers in rising order, each once, are the one rising list with their members, and no longer than theirs.
pub fn one_rising_list()
    ensures rises { (ids : List (List ℕ)) → IsRising (rising_ids ids) }
    ensures same { (ids : List (List ℕ)) (id : List ℕ) → Contains (rising_ids ids) id ↔ Contains ids id }
    ensures one { (F ids : List (List ℕ)) → IsRising F → ((id : List ℕ) → Contains F id ↔ Contains ids id)
        → F ≡ rising_ids ids }
    ensures itself { (F : List (List ℕ)) → IsRising F → rising_ids F ≡ F }
    ensures within { (ids : List (List ℕ)) → length (rising_ids ids) ≤ length ids }
{}

/// No bytes begin with the spellings of two identifiers.
pub fn one_spelling()
    ensures law { (x y front back : List ℕ) → spelled_id x ++ front ≡ spelled_id y ++ back → (x ≡ y) × (front ≡ back) }
{}

/// No two agents have a version's identifier in common, and no agent has one for two numbers.
pub fn one_author()
    ensures law { (a b : List ℕ) (j k : ℕ) → IsAgent a → IsAgent b → j < 2 ^ 64 → k < 2 ^ 64
        → agent_name a j ≡ agent_name b k → (a ≡ b) × (j ≡ k) }
{}
