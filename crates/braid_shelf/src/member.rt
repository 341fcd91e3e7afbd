ghost use Rattle.std.specs.Prelude.{◌≡◌, [], ◌↔◌, IsTrue};
ghost use Rattle.braid_shelf.specs.Lists.{is_string};
ghost use Rattle.braid_shelf.specs.Reading.{Gives, member_at};

use crate::fault::Stop;
use crate::item::{Item, read_item};
use crate::param::{ListParam, read_params};
use std::alloc::Global;

/// A member of a header list (RFC 8941, section 3.1): an item with its parameters.
#[derive(Debug, Drop)]
pub struct Member {
    /// What stands before the parameters.
    pub item: Item,
    /// The parameters behind it, where there are any.
    pub params: ListParam,
}

impl Member {
    /// Whether the member is a String without parameters.
    pub(crate) fn is_string(&self) -> bool
        ensures { result ≡ is_string self.now }
    {
        matches!(self.item, Item::Str(_)) && self.params.get().is_empty()
    }
}

/// Reads an item and its parameters from the front of bytes.
#[tactic(auto, unfolding(crate::specs::Reading::member_at))]
pub(crate) fn read_member(alloc: Global, bytes: &[u8]) -> Result<(Member, &[u8]), Stop>
    ensures { Gives (λ read. (read.0, read.1.now)) result (member_at bytes.now) }
{
    let (item, rest) = read_item(alloc, bytes)?;
    let (params, rest) = read_params(alloc, rest)?;
    Ok((Member { item, params }, rest))
}
