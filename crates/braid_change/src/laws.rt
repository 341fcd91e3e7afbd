//! Laws of the definitions, each the contract of a function that does nothing.

ghost use Rattle.std.specs.Prelude.{◌≡◌, ◌<◌, ◌^◌, ◌+◌, ◌-◌, ◌↔◌, ◌⊎◌, List, ℕ, [], ◌∷◌, ◌++◌, Some, None, IsSome, take, drop, length};
ghost use Rattle.braid_change.specs.Changes.{IsShaped, AreListed, AreNumbered, AreScalars, patches_of};
ghost use Rattle.braid_change.specs.Updates.{UpdateView, IsBuilt, IsBuildFault};
ghost use Rattle.braid_change.specs.Spellings.{range_text, canonical, canonical_all};
ghost use Rattle.braid_change.specs.RangeForms.{IsRange, IsRangeFault};
ghost use Rattle.braid_change.specs.declared.range.RangeFault.{RangeFault};
ghost use Rattle.std.specs.List.{AllByRecursion};
ghost use Rattle.braid_change.specs.Splices.{ranges, joined, all_within, cut, spliced, first_past, AreRanges, removed, inserted};
ghost use Rattle.braid_change.specs.declared.patch.Patch.{Patch};
ghost use Rattle.braid_change.specs.declared.change.Change.{Change};
ghost use Rattle.braid_change.specs.declared.update.BuildFault.{BuildFault};
ghost use Rattle.braid_change.specs.declared.change.Change.TheVariants.{Body, Patches};

/// A body gives itself, whatever the text was.
pub fn body_gives_itself()
    ensures law { (t body : List ℕ) → spliced t (Body body) ≡ Some body }
{}

/// A change has no splice exactly where there is a first joined patch past the text's end.
pub fn undefined_past_the_end()
    ensures law { (t : List ℕ) (change : Change) → spliced t change ≡ None ↔ IsSome (first_past t change) }
{}

/// The ranges of a change of the accepted shape rise, do not overlap, and lie within the text.
pub fn ranges_rise()
    ensures law { (t : List ℕ) (change : Change) (rs : List Patch) → IsShaped change → ranges t change ≡ Some rs
        → AreRanges 0 (length t) rs }
{}

/// What stands before the first range, between two and after the last is unchanged and in order, and each range
/// gives way to its text: a splice is what stood before a range, cut at the ranges before it, the range's text, and
/// what stood after it, cut at the ranges after it.
pub fn keeps_the_rest()
    ensures each { (t s : List ℕ) (change : Change) (front back : List Patch) (r : Patch) → IsShaped change
        → ranges t change ≡ Some (front ++ r ∷ back) → spliced t change ≡ Some s
        → s ≡ cut 0 (take r.start t) front ++ (r.text ++ cut r.end (drop r.end t) back) }
    ensures before { (t s : List ℕ) (change : Change) (r : Patch) (back : List Patch) → IsShaped change
        → ranges t change ≡ Some (r ∷ back) → spliced t change ≡ Some s
        → s ≡ take r.start t ++ (r.text ++ cut r.end (drop r.end t) back) }
    ensures between { (t s : List ℕ) (change : Change) (front back : List Patch) (q r : Patch) → IsShaped change
        → ranges t change ≡ Some (front ++ q ∷ r ∷ back) → spliced t change ≡ Some s
        → s ≡ cut 0 (take q.start t) front ++ (q.text ++
        (take (r.start - q.end) (drop q.end t) ++ (r.text ++ cut r.end (drop r.end t) back))) }
    ensures after { (t s : List ℕ) (change : Change) (front : List Patch) (r : Patch) → IsShaped change
        → ranges t change ≡ Some (front ++ r ∷ []) → spliced t change ≡ Some s
        → s ≡ cut 0 (take r.start t) front ++ (r.text ++ drop r.end t) }
{}

/// A splice is as long as the text was, less what the ranges replace, with what they put in.
pub fn length_after()
    ensures law { (t s : List ℕ) (change : Change) (rs : List Patch) → IsShaped change → ranges t change ≡ Some rs
        → spliced t change ≡ Some s → length s + removed rs ≡ length t + inserted rs }
{}

/// No bytes begin with the canonical spellings of two updates. So two updates with one spelling are the same, and so
/// are two lists of updates whose spellings are the same one after the other.
pub fn one_spelling()
    ensures one { (u v : UpdateView) (front back : List ℕ) → IsShaped u.change → IsShaped v.change
        → canonical u ++ front ≡ canonical v ++ back → (u ≡ v) × (front ≡ back) }
    ensures all { (us vs : List UpdateView) → AllByRecursion (λ u. IsShaped u.change) us
        → AllByRecursion (λ u. IsShaped u.change) vs → canonical_all us ≡ canonical_all vs → us ≡ vs }
{}

/// A value is one range at most, and none where it has a fault; and what a range is spelled as is that range.
pub fn one_range()
    ensures one { (value : List ℕ) (m n i j : ℕ) → IsRange value m i → IsRange value n j → (m ≡ n) × (i ≡ j) }
    ensures faultless { (value : List ℕ) (m i : ℕ) (fault : RangeFault) → IsRange value m i → IsRangeFault value fault
        → ⊥ }
    ensures spelled { (m i : ℕ) → m < 2 ^ 32 → i < 2 ^ 32 → IsRange (range_text m i) m i }
{}

/// A value that is no range has one fault.
pub fn one_range_fault()
    ensures law { (value : List ℕ) (fault other : RangeFault) → IsRangeFault value fault → IsRangeFault value other
        → fault ≡ other }
{}

/// Parts that make no update have one fault, and those that make one have none. Parts of scalar values and of numbers
/// below 2^32, as those of the program are, make an update or have a fault.
pub fn one_build_fault()
    ensures one { (parents : List (List ℕ)) (change : Change) (fault other : BuildFault)
        → IsBuildFault parents change fault → IsBuildFault parents change other → fault ≡ other }
    ensures faultless { (parents : List (List ℕ)) (change : Change) (fault : BuildFault) → IsBuilt parents change
        → IsBuildFault parents change fault → ⊥ }
    ensures either { (parents : List (List ℕ)) (change : Change) → AreScalars change → AreNumbered (patches_of change)
        → IsBuilt parents change ⊎ ((fault : BuildFault) × IsBuildFault parents change fault) }
{}

/// Joining changes nothing of a splice: for listed patches the text is cut alike at the patches and at the joined ones,
/// and all of the ones are within a text where all of the others are.
pub fn joining_changes_nothing()
    ensures cut { (t : List ℕ) (patches : List Patch) → AreListed 0 patches
        → cut 0 t (joined patches) ≡ cut 0 t patches }
    ensures within { (len : ℕ) (patches : List Patch) → AreListed 0 patches
        → all_within len (joined patches) ≡ all_within len patches }
{}
