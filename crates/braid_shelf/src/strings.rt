ghost use Rattle.std.specs.Prelude.{◌≡◌, IfOk, IfErr, map};
ghost use Rattle.braid_shelf.specs.Lists.{SpellsList, string_member, strings_in};
ghost use Rattle.braid_shelf.specs.Faults.{IsStringsShelfFault};

use crate::fault::{ShelfFault, ShelfKind};
use crate::item::Item;
use crate::list::read_found;
use crate::member::Member;
use braid_ids::{Bytes, Memory};
use std::alloc::Global;

/// The texts of the members that are Strings, in order.
fn strings_of(alloc: Global, members: Vec<Member>) -> Result<Vec<Bytes>, Memory>
    ensures ok { IfOk result (λ strings. strings.items ≡ strings_in members.items) }
{
    let mut strings = Vec::with_capacity(alloc, members.len())?;
    for member in members {
        let Member { item, params: _ } = member;
        if let Item::Str(text) = item {
            strings.push(text)?;
        }
    }
    Ok(strings)
}

/// Reads a List of Strings without parameters (RFC 8941, sections 3.1 and 3.3.3).
///
/// `value` is the whole value of the field, its lines joined by commas. The empty value is the empty List.
/// The strings come in the order in which they stand, unescaped; repeats are kept.
///
/// Errors: `Bad` as of `read_list` where the value is no List; else `Bad` with `NotString` at the first byte of the
/// first member that is no String or has a parameter; `Memory` where there was none for the strings. Nothing is kept
/// after an error.
pub fn read_strings(alloc: Global, value: &[u8]) -> Result<Vec<Bytes>, ShelfFault>
    ensures ok { IfOk result (λ strings. SpellsList (map string_member strings.items) value.now) }
    ensures fault { IfErr result (λ fault. IsStringsShelfFault value.now fault) }
{
    let found = read_found(alloc, value)?;
    if let Some(left) = found.other() {
        return Err(ShelfFault::Bad {
            at: (value.len() - left) as u64,
            kind: ShelfKind::NotString,
        });
    }
    Ok(strings_of(alloc, found.members())?)
}
