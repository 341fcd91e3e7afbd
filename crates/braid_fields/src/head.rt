//! Plans of the heads of updates.

ghost use Rattle.std.specs.Prelude.{◌≡◌, List};
ghost use Rattle.braid_fields.specs.Fields.{Field};
ghost use Rattle.braid_fields.specs.Known.{known};
ghost use Rattle.braid_fields.specs.Table.{judged, judge_head, judge_put, Plans};

use crate::checks::check_fields;
use crate::content::content;
use crate::names::names;
use crate::parts::{HeadFields, Parts};
use crate::plan::{Plan, PlanFault};
use std::alloc::Global;

/// The plan of the known fields, by the rows in their order.
fn plan_of(
    alloc: Global,
    transfer: bool,
    given: Option<u64>,
    parts: &Parts,
) -> Result<Plan, PlanFault>
    ensures plan { Plans result (judged transfer given parts.now) }
{
    check_fields(transfer, given, parts)?;
    let (id, parents) = names(alloc, parts)?;
    let asks = content(alloc, given, parts)?;
    Ok(Plan { id, parents, asks })
}

/// What the head of an update in a stream says, from its known fields.
///
/// Errors: the first `Reason` of the table of docs/FORMATS.md that the fields give; `Memory` where there was none for
/// the strings, the identifier or the parents.
#[tactic(auto, unfolding(crate::specs::Table::judge_head))]
pub fn plan_head(alloc: Global, fields: &HeadFields) -> Result<Plan, PlanFault>
    ensures plan { (fs : List Field) → fields.now ≡ known fs → Plans result (judge_head fs) }
{
    plan_of(alloc, fields.has_transfer_encoding, None, &fields.parts)
}

/// What the fields of a PUT say, of which the decoded body has `body_len` bytes.
///
/// They are read as those of a head, but `Content-Length` is not looked at: a body without `Patches` is the content,
/// whole. A `Transfer-Encoding` is none of `Parts`, and so not looked at either.
///
/// Errors: as of `plan_head`.
#[tactic(auto, unfolding(crate::specs::Table::judge_put))]
pub fn plan_put(alloc: Global, parts: &Parts, body_len: u64) -> Result<Plan, PlanFault>
    ensures plan { Plans result (judge_put body_len parts.now) }
{
    plan_of(alloc, false, Some(body_len), parts)
}
