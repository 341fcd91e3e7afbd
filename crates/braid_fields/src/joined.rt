//! Lists of Strings that stand in one line of a field or in several.

ghost use Rattle.std.specs.Prelude.{◌≡◌, ◌∷◌, IfOk, ok_or};
ghost use Rattle.braid_fields.specs.declared.reason.Reason.TheVariants.{BadList};
ghost use Rattle.braid_fields.specs.Values.{strings_in_value};
ghost use Rattle.braid_fields.specs.Table.{one_value, Plans};

use crate::plan::PlanFault;
use crate::reason::Reason;
use braid_ids::{Bytes, ListBytes, Memory};
use braid_shelf::{ShelfFault, read_strings};
use std::alloc::Global;

/// A line and the lines after it, with a comma between each two.
fn with_commas(alloc: Global, first: &[u8], others: &[Bytes]) -> Result<Bytes, Memory>
    ensures ok { IfOk result (λ joined. joined ≡ one_value (first.now ∷ others.now)) }
{
    let mut joined = Bytes::of(alloc, first)?;
    for other in others {
        joined.push(b",")?;
        joined.push(other.get())?;
    }
    Ok(joined)
}

/// The lines of a field, joined by commas.
fn one_value(alloc: Global, values: &ListBytes) -> Result<Bytes, Memory>
    ensures ok { IfOk result (λ joined. joined ≡ one_value values.now) }
{
    match values.get().split_first() {
        Some((first, others)) => with_commas(alloc, first.get(), others),
        None => Bytes::of(alloc, b""),
    }
}

/// The Strings of joined lines that are a List of Strings without parameters.
pub(crate) fn members(alloc: Global, values: &ListBytes) -> Result<ListBytes, PlanFault>
    ensures strings { Plans result (ok_or (strings_in_value (one_value values.now)) BadList) }
{
    let value = one_value(alloc, values)?;
    match read_strings(alloc, value.get()) {
        Ok(strings) => Ok(ListBytes::of(strings)),
        Err(ShelfFault::Bad { .. }) => Err(PlanFault::Reason(Reason::BadList)),
        Err(ShelfFault::Memory) => Err(PlanFault::Memory),
    }
}
