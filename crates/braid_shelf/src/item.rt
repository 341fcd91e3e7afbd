ghost use Rattle.std.specs.Prelude.{◌≡◌};
ghost use Rattle.braid_shelf.specs.Reading.{Gives, item_at, front_of, after, Read};
ghost use Rattle.braid_shelf.specs.ByteClasses.{is_in_token};

use crate::boolean::read_boolean;
use crate::classes::{begins_token, token_len};
use crate::fault::{ShelfKind, Stop};
use crate::integer::read_integer;
use crate::string::read_string;
use braid_ids::Bytes;
use std::alloc::Global;

/// An item of a header list (RFC 8941, section 3.3).
#[derive(Debug, Drop)]
pub enum Item {
    /// A String: its characters, without quotes and without the backslashes before `"` and `\`.
    Str(Bytes),
    /// A Token: its characters.
    Token(Bytes),
    /// An Integer of at most 15 digits.
    Int(i64),
    /// A Boolean.
    Bool(bool),
}

/// Reads a Token, whose first byte has been looked at.
fn read_token(alloc: Global, bytes: &[u8]) -> Result<(Item, &[u8]), Stop>
    ensures { Gives (λ read. (read.0, read.1.now)) result
        (Read (Item.Token (front_of is_in_token bytes.now)) (after is_in_token bytes.now)) }
{
    let (token, rest) = bytes.split_at(token_len(bytes));
    let token = Bytes::of(alloc, token)?;
    Ok((Item::Token(token), rest))
}

/// Reads an item from the front of bytes.
#[tactic(auto, unfolding(crate::specs::Reading::item_at))]
pub(crate) fn read_item(alloc: Global, bytes: &[u8]) -> Result<(Item, &[u8]), Stop>
    ensures { Gives (λ read. (read.0, read.1.now)) result (item_at bytes.now) }
{
    let left = bytes.len();
    let Some((first, rest)) = bytes.split_first() else {
        return Err(Stop::Bad(left, ShelfKind::BadItem));
    };
    match *first {
        b'"' => {
            let (text, rest) = read_string(alloc, left, rest)?;
            Ok((Item::Str(text), rest))
        }
        b'-' | b'0'..=b'9' => read_integer(bytes),
        b'?' => read_boolean(left, rest),
        b':' | b'(' => Err(Stop::Bad(left, ShelfKind::NotCarried)),
        first if begins_token(first) => read_token(alloc, bytes),
        _ => Err(Stop::Bad(left, ShelfKind::BadItem)),
    }
}
