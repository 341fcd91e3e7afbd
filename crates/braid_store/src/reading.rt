//! What is read of one resource of a book.

ghost use Rattle.std.specs.Prelude.{◌≡◌, MatchOption, IfOk, IfErr};
ghost use Rattle.std.specs.Option.{option_copied};
ghost use Rattle.braid_graph.specs.Ancestries.{IsUnknown};
ghost use Rattle.braid_graph.specs.Frontiers.{IsFrontierOf};
ghost use Rattle.braid_text.specs.Histories.{graph_of};
ghost use Rattle.braid_store.specs.Reads.{ReadsHistory, IsReadFault};
ghost use Rattle.braid_store.specs.Cursors.{FitsHistory};

use crate::cursor::Cursor;
use crate::got::{GetFault, Got};
use braid_ids::{Bytes, Frontier, Memory, Unknown};
use braid_text::Resource;
use std::alloc::Global;

/// The text of a resource at a version, or at its own frontier where none is asked for.
pub fn read_at(alloc: Global, resource: &Resource, at: Option<&Frontier>) -> Result<Got, GetFault>
    ensures ok { IfOk result (λ got. ReadsHistory resource.now (option_copied at.entry) got) }
    ensures fault { IfErr result (λ fault. IsReadFault resource.now (option_copied at.entry) fault) }
{
    let Ok(version) = version_of(alloc, resource, at) else {
        return Err(GetFault::Memory);
    };
    match resource.read(alloc, &version) {
        Ok(text) => Ok(Got { version, text }),
        Err(Unknown::Id { id }) => Err(GetFault::Unknown { id }),
        Err(Unknown::Memory) => Err(GetFault::Memory),
    }
}

/// A copy of the version that is asked for, or the resource's own frontier.
fn version_of(alloc: Global, resource: &Resource, at: Option<&Frontier>) -> Result<Frontier, Memory>
    ensures ok { IfOk result (λ version. MatchOption (option_copied at.entry)
        (IsFrontierOf (graph_of resource.now) version) (λ at. version ≡ at)) }
{
    match at {
        Some(at) => at.copy(alloc),
        None => resource.frontier(alloc),
    }
}

/// A cursor at the beginning of what a resource has outside the ancestry of a frontier.
pub fn open_on(
    alloc: Global,
    resource: &Resource,
    path: &Bytes,
    from: &Frontier,
) -> Result<Cursor, Unknown>
    ensures new { IfOk result (λ cursor. (cursor.path ≡ path.now) × (cursor.from ≡ from.now) × (cursor.passed ≡ 0)) }
    ensures fits { IfOk result (λ cursor. FitsHistory resource.now cursor) }
    ensures fault { IfErr result (λ unknown. IsUnknown (graph_of resource.now) from.now unknown) }
{
    let marks = resource.ancestry(alloc, from)?;
    let Ok(path) = Bytes::of(alloc, path.get()) else {
        return Err(Unknown::Memory);
    };
    let Ok(from) = from.copy(alloc) else {
        return Err(Unknown::Memory);
    };
    Ok(Cursor::new(path, from, marks))
}
