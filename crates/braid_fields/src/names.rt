//! The identifier and the parents of an update.

ghost use Rattle.std.specs.Prelude.{◌≡◌, Ok, IfOk, IfErr};
ghost use Rattle.braid_ids.specs.Frontiers.{rising_ids};
ghost use Rattle.braid_shelf.specs.ByteClasses.{Are, is_printable};
ghost use Rattle.braid_fields.specs.Table.{first_row, first_of, members_of, name_rows, Plans};
ghost use Rattle.braid_fields.specs.Rows.{ArePrintable, one_id_rows, id_rows, version_rows, parent_rows, list_rows, names_of, Refuses};

use crate::joined::members;
use crate::parts::Parts;
use crate::plan::PlanFault;
use crate::reason::Reason;
use braid_change::MOST_PARENTS;
use braid_ids::{Bytes, Frontier, Id, IdFault, ListBytes};
use std::alloc::Global;

/// The most members of a set of identifiers. No memory holds a list of more.
const MOST_MEMBERS: usize = 4_294_967_295;

/// The identifier that a string is.
fn read_id(alloc: Global, string: &[u8]) -> Result<Id, PlanFault>
    requires printable { Are is_printable string.now }
    ensures id { Plans result (first_row (one_id_rows string.now) string.now) }
{
    match Id::read(alloc, string) {
        Ok(id) => Ok(id),
        Err(IdFault::Memory) => Err(PlanFault::Memory),
        Err(_) => Err(PlanFault::Reason(Reason::BadId)),
    }
}

/// The identifier that the only string is.
fn version_id(alloc: Global, strings: &ListBytes) -> Result<Id, PlanFault>
    requires printable { ArePrintable strings.now }
    ensures id { Plans result (first_row (version_rows strings.now) (first_of strings.now)) }
{
    match strings.get() {
        [] => Err(PlanFault::Reason(Reason::NoVersion)),
        [string] => read_id(alloc, string.get()),
        _ => Err(PlanFault::Reason(Reason::ManyVersions)),
    }
}

/// The identifiers that the strings are.
fn read_ids(alloc: Global, strings: &[Bytes]) -> Result<Vec<Id>, PlanFault>
    requires printable { ArePrintable strings.now }
    ensures ok { IfOk result (λ ids. first_row (id_rows strings.now) strings.now ≡ Ok ids.items) }
    ensures fault { IfErr result (λ fault. Refuses fault (first_row (id_rows strings.now) strings.now)) }
{
    let mut ids = Vec::with_capacity(alloc, strings.len())?;
    for string in strings {
        let id = read_id(alloc, string.get())?;
        ids.push(id)?;
    }
    Ok(ids)
}

/// The set of identifiers that the strings are.
fn set_of(alloc: Global, strings: &ListBytes) -> Result<Frontier, PlanFault>
    requires printable { ArePrintable strings.now }
    ensures set { Plans result (first_row (id_rows strings.now) (rising_ids strings.now)) }
{
    let ids = read_ids(alloc, strings.get())?;
    if ids.len() > MOST_MEMBERS {
        return Err(PlanFault::Memory);
    }
    let set = Frontier::of(ids)?;
    Ok(set)
}

/// The parents that the strings are.
fn parents_of(alloc: Global, strings: &ListBytes) -> Result<Frontier, PlanFault>
    requires printable { ArePrintable strings.now }
    ensures parents { Plans result (first_row (parent_rows strings.now) (rising_ids strings.now)) }
{
    let parents = set_of(alloc, strings)?;
    if parents.len() > MOST_PARENTS {
        return Err(PlanFault::Reason(Reason::TooManyParents));
    }
    Ok(parents)
}

/// The identifier and the parents that the lines of `Version` and `Parents` tell.
pub(crate) fn names(alloc: Global, parts: &Parts) -> Result<(Id, Frontier), PlanFault>
    ensures names { Plans result (first_row (name_rows parts.now) (names_of parts.now)) }
{
    let version = members(alloc, &parts.version)?;
    let parents = members(alloc, &parts.parents)?;
    let id = version_id(alloc, &version)?;
    let parents = parents_of(alloc, &parents)?;
    Ok((id, parents))
}

/// The set of identifiers that the lines of a field list, joined by commas (RFC 8941, section 4.2): in rising order, each
/// once; none where there is no line. There is no limit on their number.
///
/// A fault is `BadList` where the joined lines are no List of Strings without parameters, else `BadId` where a member has
/// 0 or more than 128 bytes. Memory may be answered for any lines. The lines stay as they were.
pub fn list_ids(alloc: Global, values: &ListBytes) -> Result<Frontier, PlanFault>
    ensures ids { Plans result (first_row (list_rows values.now) (rising_ids (members_of values.now))) }
{
    let strings = members(alloc, values)?;
    set_of(alloc, &strings)
}
