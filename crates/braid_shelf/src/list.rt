ghost use Rattle.std.specs.Prelude.{◌≡◌, [], IfOk, IfErr};
ghost use Rattle.braid_shelf.specs.Lists.{SpellsList};
ghost use Rattle.braid_shelf.specs.Faults.{IsShelfFault};
ghost use Rattle.braid_shelf.specs.Stops.{IsOther};
ghost use Rattle.braid_shelf.specs.Reading.{Gives, separator_at, list_at};

use crate::classes::{after_blanks, after_byte, after_spaces};
use crate::fault::{ShelfFault, ShelfKind, Stop};
use crate::found::Found;
use crate::member::{Member, read_member};
use std::alloc::Global;

/// Passes the comma after a member. Nothing is left only where nothing followed the member.
#[tactic(auto, unfolding(crate::specs::Reading::separator_at))]
fn read_separator(bytes: &[u8]) -> Result<&[u8], Stop>
    ensures { Gives (λ read. (tt, read.now)) result (separator_at bytes.now) }
{
    if bytes.is_empty() {
        return Ok(bytes);
    }
    let left = bytes.len();
    let Some(rest) = after_byte(b',', bytes) else {
        return Err(Stop::Bad(left, ShelfKind::MissingComma));
    };
    let rest = after_blanks(rest);
    if rest.is_empty() {
        return Err(Stop::Bad(left, ShelfKind::TrailingComma));
    }
    Ok(rest)
}

/// Reads the members of a whole value.
#[tactic(auto, unfolding(crate::specs::Reading::list_at))]
fn read_members(alloc: Global, value: &[u8]) -> Result<Found, Stop>
    ensures { Gives (λ found. (found, [])) result (list_at value.now) }
{
    let mut found = Found::new(alloc);
    let mut rest = after_spaces(value);
    while !rest.is_empty() {
        let (member, after) = read_member(alloc, rest)?;
        found.put(rest.len(), member)?;
        rest = read_separator(after_blanks(after))?;
    }
    Ok(found)
}

/// Reads a whole value, and remembers the first member that is no String without parameters.
pub(crate) fn read_found(alloc: Global, value: &[u8]) -> Result<Found, ShelfFault>
    ensures ok { IfOk result (λ found. SpellsList found.members value.now) }
    ensures other { IfOk result (λ found. IsOther value.now found.members found.other) }
    ensures fault { IfErr result (λ fault. IsShelfFault value.now fault) }
{
    match read_members(alloc, value) {
        Ok(found) => Ok(found),
        Err(stop) => Err(stop.of(value.len())),
    }
}

/// Reads a List (RFC 8941, section 3.1) of Strings, Tokens, Integers and Booleans with parameters.
///
/// `value` is the whole value of the field, its lines joined by commas. The empty value is the empty List.
/// The members come in the order in which they stand. The value is read in one pass from the left, and not copied.
///
/// Errors: `Bad` with the place and the kind of the first fault from the left; `Memory` where there was none for
/// the members. Nothing is kept after an error.
pub fn read_list(alloc: Global, value: &[u8]) -> Result<Vec<Member>, ShelfFault>
    ensures ok { IfOk result (λ members. SpellsList members.items value.now) }
    ensures fault { IfErr result (λ fault. IsShelfFault value.now fault) }
{
    let found = read_found(alloc, value)?;
    Ok(found.members())
}
