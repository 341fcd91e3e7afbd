//! The range of a patch.

ghost use Rattle.std.specs.Prelude.{◌≡◌, Ok, true, nat_lt, length};
ghost use Rattle.braid_fields.specs.Values.{range_in_value};
ghost use Rattle.braid_fields.specs.Table.{first_row, told, range_rows, beside_rows};
ghost use Rattle.braid_fields.specs.Rows.{one_range};

use crate::reason::Reason;
use braid_change::{RangeFault, read_range};
use braid_ids::ListBytes;

/// The characters from number `start` up to and without number `end`.
#[derive(Clone, Copy, Debug)]
pub(crate) struct TextRange {
    pub(crate) start: u32,
    pub(crate) end: u32,
}

/// The range that a value is.
fn one_range(value: &[u8]) -> Result<TextRange, Reason>
    ensures range { result ≡ one_range value.now }
{
    match read_range(value) {
        Ok((start, end)) => Ok(TextRange { start, end }),
        Err(RangeFault::Unit) => Err(Reason::OtherUnit),
        Err(RangeFault::Form { .. }) => Err(Reason::BadRange),
        Err(RangeFault::Number) => Err(Reason::BadRange),
    }
}

/// The range that the line of `Content-Range` tells, where there is one.
pub(crate) fn range_of(values: &ListBytes) -> Result<Option<TextRange>, Reason>
    ensures range { result ≡ first_row (range_rows values.now) (told range_in_value values.now) }
{
    let Some(value) = values.get().first() else {
        return Ok(None);
    };
    let range = one_range(value.get())?;
    if range.start > range.end {
        return Err(Reason::Backwards);
    }
    Ok(Some(range))
}

/// That no line of `Content-Range` stands beside `Patches`.
pub(crate) fn check_beside(values: &ListBytes) -> Result<(), Reason>
    ensures rows { result ≡ first_row (beside_rows values.now) tt }
{
    let Some(value) = values.get().first() else {
        return Ok(());
    };
    match one_range(value.get()) {
        Err(Reason::OtherUnit) => Err(Reason::OtherUnit),
        _ => Err(Reason::BadRange),
    }
}
