ghost use Rattle.std.specs.Prelude.{◌≡◌, ◌≢◌, ℕ, [], ◌∷◌, IfOk, IfErr, MatchOption};
ghost use Rattle.braid_shelf.specs.Lists.{SpellsList, count_member};
ghost use Rattle.braid_shelf.specs.Faults.{IsCountShelfFault};

use crate::fault::{ShelfFault, ShelfKind};
use crate::item::Item;
use crate::list::read_found;
use crate::member::Member;
use std::alloc::Global;

/// The number that members are, where they are one Integer that is not negative, without parameters.
fn count_of(members: &[Member]) -> Option<u64>
    ensures { MatchOption result ((number : ℕ) → members.now ≢ count_member number ∷ [])
        (λ number. members.now ≡ count_member number ∷ []) }
{
    let [member] = members else {
        return None;
    };
    if !member.params.get().is_empty() {
        return None;
    }
    match member.item {
        Item::Int(number) if number >= 0 => Some(number as u64),
        _ => None,
    }
}

/// Reads a List of one Integer that is not negative and has no parameters (RFC 8941, sections 3.1 and 3.3.1).
///
/// `value` is the whole value of the field, its lines joined by commas. The number has at most 15 digits.
///
/// Errors: `Bad` as of `read_list` where the value is no List; else `Bad` with `NotCount` at 0 where it is another
/// List; `Memory` where there was none for the members. Nothing is kept after an error.
pub fn read_count(alloc: Global, value: &[u8]) -> Result<u64, ShelfFault>
    ensures ok { IfOk result (λ number. SpellsList (count_member number ∷ []) value.now) }
    ensures fault { IfErr result (λ fault. IsCountShelfFault value.now fault) }
{
    let members = read_found(alloc, value)?.members();
    match count_of(&members) {
        Some(number) => Ok(number),
        None => Err(ShelfFault::Bad {
            at: 0,
            kind: ShelfKind::NotCount,
        }),
    }
}
