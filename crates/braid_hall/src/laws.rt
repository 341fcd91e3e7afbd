//! Laws of the definitions, each the contract of a function that does nothing.

ghost use Rattle.std.specs.Prelude.{◌≡◌, ℕ, ◌+◌, ◌<◌, ◌≤◌, true, List, length, All};
ghost use mathlib.Core.Option.{some};
ghost use lib.ListN.{get_elem?};
ghost use Rattle.atomic_table.specs.Table.{State};
ghost use Rattle.braid_hall.specs.declared.view.View.{View};
ghost use Rattle.braid_hall.specs.Histories.{IsPrefix, longer_of, added, added_by};
ghost use Rattle.braid_hall.specs.Views.{total, ready_of};
ghost use Rattle.braid_hall.specs.Turns.{IsKept};
ghost use Rattle.braid_hall.specs.Passes.{PassView, AddsOne, left_with};

use crate::annals::Annals;
use std::option::Option;

/// Where the rule is kept, at most one pass is in a turn.
pub fn one_turn_at_a_time<B: Annals>()
    ensures law { (start : ℕ) (base : List B.Entry) (s : State (Option B) (View B.Entry)) (i j : ℕ)
        (v w : View B.Entry) → IsKept B.entries B.by start base s → get_elem? s.views i ≡ some v
        → get_elem? s.views j ≡ some w → v.held ≡ true → w.held ≡ true → i ≡ j }
{}

/// Where the rule is kept, the numbers of two passes differ.
pub fn numbers_differ<B: Annals>()
    ensures law { (start : ℕ) (base : List B.Entry) (s : State (Option B) (View B.Entry)) (i j : ℕ)
        (v w : View B.Entry) → IsKept B.entries B.by start base s → get_elem? s.views i ≡ some v
        → get_elem? s.views j ≡ some w → v.live ≡ true → w.live ≡ true → v.number ≡ w.number → i ≡ j }
{}

/// Where the rule is kept, each entry of the history that was not there at the opening has the number of one of the
/// passes.
pub fn each_entry_has_a_pass<B: Annals>()
    ensures law { (start : ℕ) (base : List B.Entry) (s : State (Option B) (View B.Entry))
        (k : IsKept B.entries B.by start base s) → All (λ e. B.by e < length s.views) (added base k.history) }
{}

/// Where the rule is kept and the first ticket is below 2^63, tickets end: the next ticket and the number of passes that
/// are ready to draw make at most 2^63 + 1 and the number of passes that were split off.
pub fn tickets_end<B: Annals>()
    ensures law { (start : ℕ) (base : List B.Entry) (s : State (Option B) (View B.Entry))
        (k : IsKept B.entries B.by start base s) → start < 9223372036854775808
        → k.ticket + total ready_of s.views ≤ 9223372036854775809 + k.rule.numbers.root.1 }
{}

/// Of two prefixes of one history, both are prefixes of the longer.
pub fn longer_begins_with_both<B: Annals>()
    ensures law { (xs ys zs : List B.Entry) → IsPrefix xs zs → IsPrefix ys zs
        → IsPrefix xs (longer_of xs ys) × IsPrefix ys (longer_of xs ys) }
{}

/// Where a pass has seen, of the entries with its number, just those that it added, it has so after it left a book.
pub fn left_entries_are_mine<B: Annals>()
    ensures law { (p : PassView B.Entry) (b : B) → IsPrefix p.opening p.seen
        → added_by B.by p.opening p.number p.seen ≡ p.mine → AddsOne B.entries B.by p.number p.seen b
        → added_by B.by p.opening p.number (left_with p (B.entries b)).seen ≡ (left_with p (B.entries b)).mine }
{}
