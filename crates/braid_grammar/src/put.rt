//! PUTs: updates whose fields come with a request, and whose content is the request's body.

ghost use Rattle.std.specs.Prelude.{◌≡◌, ◌↔◌, IsTrue};
ghost use Rattle.braid_grammar.specs.declared.put.PutFault.TheVariants as faults;
ghost use Rattle.braid_grammar.specs.Streams.{IsGap};
ghost use Rattle.braid_grammar.specs.Puts.{fault_of, IsContentReading, IsPutReading};

use crate::found::Found;
use crate::line::after_gap;
use crate::update::read_change;
use braid_change::{Change, Update};
use braid_fields::{Asks, Parts, PlanFault, Reason, plan_put};
use braid_ids::Memory;
use std::alloc::Global;

/// Why a PUT is no update.
#[derive(Clone, Copy, Debug, PartialEq, Eq)]
pub enum PutFault {
    /// The first reason against the fields, and then against the patches or the text of the body, in their order.
    Reason(Reason),
    /// The body ends before the last patch is whole.
    Short,
    /// Behind the last patch stands more than empty lines.
    Extra,
    /// There was no memory for the update.
    Memory,
}

impl From<Memory> for PutFault {
    ghost from_gives = { λ _ e. e ≡ faults.Memory };

    fn from(_memory: Memory) -> PutFault {
        PutFault::Memory
    }
}

impl From<PlanFault> for PutFault {
    ghost from_gives = { λ fault e. e ≡ fault_of fault };

    fn from(fault: PlanFault) -> PutFault {
        match fault {
            PlanFault::Reason(reason) => PutFault::Reason(reason),
            PlanFault::Memory => PutFault::Memory,
        }
    }
}

/// Whether the bytes are empty lines, or none.
fn is_gap(bytes: &[u8]) -> bool
    ensures gap { IsTrue result ↔ IsGap bytes.now }
{
    after_gap(bytes).is_empty()
}

/// The change whose content the bytes are, with a gap behind it.
fn read_content(alloc: Global, asks: Asks, bytes: &[u8]) -> Result<Change, PutFault>
    ensures content { IsContentReading asks bytes.now result }
{
    match read_change(alloc, asks, 0, bytes)? {
        Found::Part => Err(PutFault::Short),
        Found::Bad(_at, reason) => Err(PutFault::Reason(reason)),
        Found::Whole(change, _last, rest) => {
            if is_gap(rest) {
                Ok(change)
            } else {
                Err(PutFault::Extra)
            }
        }
    }
}

/// Reads a PUT from the values of its fields and its whole body (Braid-HTTP, in the profile of docs/FORMATS.md).
///
/// The fields are read as those of an update's head, but for two: the request's own `Transfer-Encoding` and
/// `Content-Length` are not looked at. A body without `Patches` is the content, whole. With `Patches` the body is that
/// many patches, each after empty lines or none, and further empty lines or none. It takes time and memory linear in
/// the body.
///
/// Errors: `Reason` with the first reason of the table of docs/FORMATS.md, against the fields and then against the
/// content; `Short` where the body ends before the last patch is whole, and nothing is wrong before; `Extra` where what
/// follows the last patch is more than empty lines, as a lone CR is; `Memory` where there was none for the update.
/// Nothing is kept then.
pub fn read_put(alloc: Global, parts: &Parts, body: &[u8]) -> Result<Update, PutFault>
    ensures put { IsPutReading parts.now body.now result }
{
    let plan = plan_put(alloc, parts, body.len() as u64)?;
    let change = read_content(alloc, plan.asks, body)?;
    let Ok(update) = Update::build(plan.id, plan.parents, change) else {
        unreachable!();
    };
    Ok(update)
}
