//! Plans of the heads of patches.

ghost use Rattle.std.specs.Prelude.{◌≡◌, ◌||◌, List, None};
ghost use Rattle.braid_fields.specs.Fields.{Field};
ghost use Rattle.braid_fields.specs.Known.{known};
ghost use Rattle.braid_fields.specs.Table.{first_row, is_encoded, is_repeated, length_of, range_of, patch_field_rows, told_range_rows, patch_rows, patch_plan, judge_patch};

use crate::checks::{is_encoded, is_repeated};
use crate::length::content_len;
use crate::parts::{HeadFields, Parts};
use crate::plan::PatchPlan;
use crate::range::{TextRange, range_of};
use crate::reason::Reason;

/// Whether the content is encoded.
fn is_coded(fields: &HeadFields) -> bool
    ensures { result ≡ (fields.now.has_transfer_encoding || is_encoded fields.now.parts.encoding) }
{
    fields.has_transfer_encoding || is_encoded(&fields.parts.encoding)
}

/// Whether a field that a patch has once has two lines.
fn has_repeats(parts: &Parts) -> bool
    ensures { result ≡ (is_repeated parts.now.length || is_repeated parts.now.range) }
{
    is_repeated(&parts.length) || is_repeated(&parts.range)
}

/// That no field is there that changes the content or stands twice.
fn check_fields(fields: &HeadFields) -> Result<(), Reason>
    ensures rows { result ≡ first_row (patch_field_rows fields.now) tt }
{
    if is_coded(fields) {
        return Err(Reason::Encoded);
    }
    if has_repeats(&fields.parts) {
        return Err(Reason::RepeatedField);
    }
    Ok(())
}

/// The range of a patch.
fn told_range(parts: &Parts) -> Result<TextRange, Reason>
    ensures range { result ≡ first_row (told_range_rows parts.now.range) (range_of parts.now.range) }
{
    match range_of(&parts.range)? {
        Some(range) => Ok(range),
        None => Err(Reason::NoRange),
    }
}

/// The plan of the known fields, by the rows in their order.
fn plan_of(fields: &HeadFields, used: u32, before: u32) -> Result<PatchPlan, Reason>
    ensures plan { result ≡ first_row (patch_rows used before fields.now)
        (patch_plan (range_of fields.now.parts.range) (length_of None fields.now.parts.length)) }
{
    check_fields(fields)?;
    let len = content_len(None, used, &fields.parts.length)?;
    let range = told_range(&fields.parts)?;
    if range.start < before {
        return Err(Reason::Overlap);
    }
    Ok(PatchPlan {
        start: range.start,
        end: range.end,
        len,
    })
}

/// What the head of a patch says, from its known fields.
///
/// The contents of the patches before it have `used` bytes together, and the patch before it ends at character number
/// `before`; both are 0 for the first. It takes no memory.
///
/// Errors: the first `Reason` of the table of docs/FORMATS.md that the fields give.
#[tactic(auto, unfolding(crate::specs::Table::judge_patch))]
pub fn plan_patch(fields: &HeadFields, used: u32, before: u32) -> Result<PatchPlan, Reason>
    ensures plan { (fs : List Field) → fields.now ≡ known fs → result ≡ judge_patch used before fs }
{
    plan_of(fields, used, before)
}
