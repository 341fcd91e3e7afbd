ghost use Rattle.std.specs.Prelude.{◌≡◌, IfOk, map};
ghost use Rattle.braid_ids.specs.Identifiers.{IsIdentifier, spelled_id, spelled_ids};
ghost use Rattle.braid_shelf.specs.Lists.{SpellsList, string_member};

use braid_ids::{Bytes, Frontier, Id, Memory};
use std::alloc::Global;

/// An identifier as a String; its bytes are such that a String may hold them.
fn spell(alloc: Global, id: &Id) -> Result<Bytes, Memory>
    ensures ok { IfOk result (λ spelling. spelling ≡ spelled_id id.now) }
    ensures valid { IsIdentifier id.now }
{
    let _bytes = id.bytes();
    id.spell(alloc)
}

/// Writes identifiers as a List of Strings (RFC 8941, section 4.1.1): in rising order, with a comma and a space
/// between them. The empty set is the empty value.
///
/// Errors: `Memory` where there was none for the value.
pub fn write_strings(alloc: Global, list: &Frontier) -> Result<Bytes, Memory>
    ensures ok { IfOk result (λ value. value ≡ spelled_ids list.now) }
    ensures list { IfOk result (λ value. SpellsList (map string_member list.now) value) }
{
    let mut value = Bytes::of(alloc, b"")?;
    for n in 0..list.len() {
        let Some(id) = list.get(n) else { break };
        if n > 0 {
            value.push(b", ")?;
        }
        value.push(spell(alloc, id)?.get())?;
    }
    Ok(value)
}
