//! How the head of a subscription's reply is judged.

ghost use Rattle.std.specs.Prelude.{◌≡◌, IfOk};
ghost use Rattle.http_header.specs.Token.{lowercase};
ghost use Rattle.braid_sync.specs.Judging.{values_of, judge};
ghost use Rattle.braid_sync.specs.Steps.{Judges};

use crate::end::SyncEnd;
use braid_fields::{PlanFault, is_other_merge_type, list_ids};
use braid_http::ReplyHead;
use braid_ids::{Bytes, Frontier, ListBytes, Memory};
use std::alloc::Global;

/// The status of a subscription's reply.
const SUBSCRIPTION: u16 = 209;

/// The values of the lines of a field.
fn values(alloc: Global, head: &ReplyHead, name: &'static str) -> Result<ListBytes, Memory>
    ensures ok { IfOk result (λ values. values ≡ values_of head.now (lowercase name.now)) }
{
    let mut values = ListBytes::new(alloc);
    for value in head.fields.get_all(name).iter() {
        values.push(Bytes::of(alloc, value.as_bytes())?)?;
    }
    Ok(values)
}

/// The version that the head of a subscription's reply names as the current one, or the end that the head is.
///
/// Errors: the first of these that holds: `Peer` for another status than 209; `OtherMergeType`; `NoCurrent`; `BadCurrent`. Or
/// `Memory`.
pub fn judge(alloc: Global, head: &ReplyHead) -> Result<Frontier, SyncEnd>
    ensures judges { Judges result (judge head.now) }
{
    let status = head.status.as_u16();
    if status != SUBSCRIPTION {
        return Err(SyncEnd::Peer { status });
    }
    let types = values(alloc, head, "merge-type")?;
    if types.get().len() > 1 || is_other_merge_type(&types) {
        return Err(SyncEnd::OtherMergeType);
    }
    let current = values(alloc, head, "current-version")?;
    if current.get().is_empty() {
        return Err(SyncEnd::NoCurrent);
    }
    match list_ids(alloc, &current) {
        Ok(version) => Ok(version),
        Err(PlanFault::Reason(_)) => Err(SyncEnd::BadCurrent),
        Err(PlanFault::Memory) => Err(SyncEnd::Memory),
    }
}
