ghost use Rattle.std.specs.Prelude.{◌≡◌};
ghost use Rattle.braid_shelf.specs.Reading.{Gives, boolean_from};

use crate::fault::{ShelfKind, Stop};
use crate::item::Item;

/// Reads the Boolean of which the question mark has been passed, where `first` bytes were left at that mark.
#[tactic(auto, unfolding(crate::specs::Reading::boolean_from))]
pub(crate) fn read_boolean(first: usize, bytes: &[u8]) -> Result<(Item, &[u8]), Stop>
    ensures { Gives (λ read. (read.0, read.1.now)) result (boolean_from first bytes.now) }
{
    match bytes.split_first() {
        Some((b'0', rest)) => Ok((Item::Bool(false), rest)),
        Some((b'1', rest)) => Ok((Item::Bool(true), rest)),
        _ => Err(Stop::Bad(first, ShelfKind::BadItem)),
    }
}
