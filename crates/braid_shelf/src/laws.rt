//! Laws of the definitions, each the contract of a function that does nothing.

ghost use Rattle.std.specs.Prelude.{◌≡◌, ◌⊎◌, ◌∷◌, [], List, ℕ, map};
ghost use Rattle.std.specs.List.{AllByRecursion};
ghost use Rattle.braid_ids.specs.Identifiers.{IsIdentifier, spelled_ids};
ghost use Rattle.braid_shelf.specs.declared.fault.ShelfKind.{ShelfKind};
ghost use Rattle.braid_shelf.specs.declared.member.Member.{Member};
ghost use Rattle.braid_shelf.specs.Lists.{SpellsList, string_member, count_member};
ghost use Rattle.braid_shelf.specs.Faults.{IsListFault, IsStringsFault, IsCountFault};

/// A value is a list of at most one list of members.
pub fn one_reading()
    ensures law { (members others : List Member) (value : List ℕ)
        → SpellsList members value → SpellsList others value → members ≡ others }
{}

/// A value that is a list has no fault.
pub fn not_both()
    ensures law { (members : List Member) (value : List ℕ) (at : ℕ) (kind : ShelfKind)
        → SpellsList members value → IsListFault value at kind → ⊥ }
{}

/// A value has at most one fault: one place and one kind.
pub fn one_fault()
    ensures law { (value : List ℕ) (at other : ℕ) (kind sort : ShelfKind)
        → IsListFault value at kind → IsListFault value other sort → (at ≡ other) × (kind ≡ sort) }
{}

/// A value is a list or has a fault.
pub fn one_of_both()
    ensures law { (value : List ℕ)
        → ((members : List Member) × SpellsList members value)
        ⊎ ((at : ℕ) × (kind : ShelfKind) × IsListFault value at kind) }
{}

/// Identifiers with a comma and a space between them are the list of them as Strings.
pub fn identifiers_are_listed()
    ensures law { (ids : List (List ℕ))
        → AllByRecursion IsIdentifier ids → SpellsList (map string_member ids) (spelled_ids ids) }
{}

/// A value that is no list of Strings has one place and one kind of fault, and one that is has none.
pub fn one_strings_fault()
    ensures fault { (value : List ℕ) (at other : ℕ) (kind sort : ShelfKind)
        → IsStringsFault value at kind → IsStringsFault value other sort → (at ≡ other) × (kind ≡ sort) }
    ensures none { (strings : List (List ℕ)) (value : List ℕ) (at : ℕ) (kind : ShelfKind)
        → SpellsList (map string_member strings) value → IsStringsFault value at kind → ⊥ }
{}

/// A value that is no count has one place and one kind of fault, and one that is has none.
pub fn one_count_fault()
    ensures fault { (value : List ℕ) (at other : ℕ) (kind sort : ShelfKind)
        → IsCountFault value at kind → IsCountFault value other sort → (at ≡ other) × (kind ≡ sort) }
    ensures none { (number : ℕ) (value : List ℕ) (at : ℕ) (kind : ShelfKind)
        → SpellsList (count_member number ∷ []) value → IsCountFault value at kind → ⊥ }
{}
