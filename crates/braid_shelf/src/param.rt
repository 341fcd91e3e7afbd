ghost use Rattle.std.specs.Prelude.{◌≡◌, []};
ghost use Rattle.braid_shelf.specs.Reading.{Gives, key_at, value_at, param_at, params_at};

use crate::classes::{after_byte, after_spaces, begins_key, key_len};
use crate::fault::{ShelfKind, Stop};
use crate::item::{Item, read_item};
use crate::param_map::ParamMap;
use braid_ids::Bytes;
use std::alloc::Global;
use std::marker::Model;

/// A parameter of a member (RFC 8941, section 3.1.2). One without a value is true.
#[derive(Debug, Drop)]
pub struct Param {
    /// The key, which begins with a small letter or `*`.
    pub key: Bytes,
    /// The value; true where none is given.
    pub value: Item,
}

/// The parameters of a member. Of a member that was read, the keys differ, and are in the order in which they first
/// stand.
#[derive(Debug, Drop)]
pub struct ListParam {
    params: Vec<Param>,
}

impl Model for ListParam {
    ghost use Rattle.std.specs.Prelude.{List};
    ghost use Rattle.braid_shelf.specs.declared.param.Param.{Param};

    ghost Value = { List Param };

    ghost view = { λ list. list.params.items };
}

impl ListParam {
    /// The list of these parameters. It takes no memory.
    pub fn of(params: Vec<Param>) -> ListParam
        ensures items { result ≡ params.items }
    {
        ListParam { params }
    }

    /// The parameters, lent as a slice. It takes no memory.
    pub fn get(&self) -> &[Param]
        ensures items { result.now ≡ self.now }
    {
        self.params.as_slice()
    }
}

/// Reads a key from the front of bytes.
#[tactic(auto, unfolding(crate::specs::Reading::key_at))]
fn read_key(alloc: Global, bytes: &[u8]) -> Result<(Bytes, &[u8]), Stop>
    ensures { Gives (λ read. (read.0, read.1.now)) result (key_at bytes.now) }
{
    match bytes.first() {
        Some(first) if begins_key(*first) => {
            let (key, rest) = bytes.split_at(key_len(bytes));
            let key = Bytes::of(alloc, key)?;
            Ok((key, rest))
        }
        _ => Err(Stop::Bad(bytes.len(), ShelfKind::BadKey)),
    }
}

/// Reads what follows a key: `=` and an item, or nothing.
#[tactic(auto, unfolding(crate::specs::Reading::value_at))]
fn read_value(alloc: Global, key: Bytes, bytes: &[u8]) -> Result<(Param, &[u8]), Stop>
    ensures { Gives (λ read. (read.0, read.1.now)) result (value_at key bytes.now) }
{
    let Some(rest) = after_byte(b'=', bytes) else {
        let value = Item::Bool(true);
        return Ok((Param { key, value }, bytes));
    };
    let (value, rest) = read_item(alloc, rest)?;
    Ok((Param { key, value }, rest))
}

/// Reads a parameter of which the semicolon has been passed.
#[tactic(auto, unfolding(crate::specs::Reading::param_at))]
fn read_param(alloc: Global, bytes: &[u8]) -> Result<(Param, &[u8]), Stop>
    ensures { Gives (λ read. (read.0, read.1.now)) result (param_at bytes.now) }
{
    let (key, rest) = read_key(alloc, after_spaces(bytes))?;
    read_value(alloc, key, rest)
}

/// Reads parameters from the front of bytes, up to the first byte that begins none.
pub(crate) fn read_params(alloc: Global, bytes: &[u8]) -> Result<(ListParam, &[u8]), Stop>
    ensures { Gives (λ read. (read.0, read.1.now)) result (params_at [] bytes.now) }
{
    let mut params = ParamMap::new(alloc);
    let mut rest = bytes;
    while let Some(after) = after_byte(b';', rest) {
        let (param, after) = read_param(alloc, after)?;
        params.put(param)?;
        rest = after;
    }
    Ok((params.into_list(alloc)?, rest))
}
