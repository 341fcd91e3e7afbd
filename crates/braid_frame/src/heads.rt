//! The plan of a head, from the bytes of its lines.

ghost use Rattle.std.specs.Prelude.{◌≡◌, IfOk};
ghost use Rattle.braid_fields.specs.Known.{known};
ghost use Rattle.braid_fields.specs.Table.{judge_head, judge_patch, Plans};
ghost use Rattle.braid_grammar.specs.Lines.{lines_of};
ghost use Rattle.braid_frame.specs.HeadLines.{fields_in};

use crate::lines::line_len;
use braid_fields::{HeadFields, PatchPlan, Plan, PlanFault, plan_head, plan_patch, read_field};
use braid_ids::Memory;
use std::alloc::Global;

/// The known fields of a head's lines. This is the second and last look at them.
fn head_fields(alloc: Global, head: &[u8]) -> Result<HeadFields, Memory>
    ensures ok { IfOk result (λ fields. fields ≡ known (fields_in (lines_of head.now))) }
{
    let mut fields = HeadFields::new(alloc);
    let mut rest = head;
    while let Some(len) = line_len(rest) {
        let (line, after) = rest.split_at(len);
        if let Some((name, value)) = read_field(line) {
            fields.add(alloc, name, value)?;
        }
        rest = after;
    }
    Ok(fields)
}

/// What an update's head asks for, by the table of faults.
pub fn plan_update_head(alloc: Global, head: &[u8]) -> Result<Plan, PlanFault>
    ensures plan { Plans result (judge_head (fields_in (lines_of head.now))) }
{
    let Ok(fields) = head_fields(alloc, head) else {
        return Err(PlanFault::Memory);
    };
    plan_head(alloc, &fields)
}

/// What a patch's head asks for, where the contents before it have `used` bytes together and the patch before it ends
/// at `before`.
pub fn plan_patch_head(
    alloc: Global,
    used: u32,
    before: u32,
    head: &[u8],
) -> Result<PatchPlan, PlanFault>
    ensures plan { Plans result (judge_patch used before (fields_in (lines_of head.now))) }
{
    let Ok(fields) = head_fields(alloc, head) else {
        return Err(PlanFault::Memory);
    };
    match plan_patch(&fields, used, before) {
        Ok(plan) => Ok(plan),
        Err(reason) => Err(PlanFault::Reason(reason)),
    }
}
