//! Header lists: the values of header fields that are Lists of Structured Field Values (RFC 8941).
//!
//! A List has members that are Strings, Tokens, Integers or Booleans, each with parameters. Decimals, Byte Sequences
//! and Inner Lists are not carried. A value that is a List is read into exactly its members; of any other value the
//! reader answers the first fault from the left, by its kind and place. `laws` says that no value has
//! two readings, or both a reading and a fault, or neither. Identifiers are written as Lists of Strings.
//!
//! A value is read in one pass from the left, and only what is kept of it is copied. Nothing here joins the lines of
//! a field, and nothing knows what a member means.
#![tactic(auto)]

mod boolean;
mod classes;
mod count;
mod fault;
mod found;
mod integer;
mod item;
pub mod laws;
mod list;
mod member;
mod param;
mod param_map;
mod string;
mod strings;
mod write;

pub use classes::after_blanks;
pub use count::read_count;
pub use fault::{ShelfFault, ShelfKind};
pub use integer::digits_value;
pub use item::Item;
pub use list::read_list;
pub use member::Member;
pub use param::{ListParam, Param};
pub use strings::read_strings;
pub use write::write_strings;

#[cfg(test)]
mod tests;
