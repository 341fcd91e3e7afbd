ghost use Rattle.std.specs.Prelude.{◌≡◌, ◌≤◌, ◌<◌, ◌^◌, length};
ghost use Rattle.std.specs.Str.Parse.{digits_value};
ghost use Rattle.braid_shelf.specs.ByteClasses.{Are, is_digit};
ghost use Rattle.braid_shelf.specs.Reading.{Gives, integer_at};

use crate::classes::digits_len;
use crate::fault::{ShelfKind, Stop};
use crate::item::Item;

/// The most digits that an Integer has.
const MOST_DIGITS: usize = 15;

/// The number that at most 15 digits write; 0 where there are none. It takes no memory.
pub fn digits_value(digits: &[u8]) -> u64
    requires digits { Are is_digit digits.now }
    requires few { length digits.now ≤ 15 }
    ensures value { result ≡ digits_value 10 digits.now }
    ensures small { result < 10 ^ 15 }
{
    let mut number = 0;
    for digit in digits {
        number = number * 10 + u64::from(*digit - b'0');
    }
    number
}

/// Reads an Integer, which begins with its sign or a digit.
#[tactic(auto, unfolding(crate::specs::Reading::integer_at, crate::specs::Reading::digits_at))]
pub(crate) fn read_integer(bytes: &[u8]) -> Result<(Item, &[u8]), Stop>
    ensures { Gives (λ read. (read.0, read.1.now)) result (integer_at bytes.now) }
{
    let negative = bytes.first() == Some(&b'-');
    let (_, unsigned) = bytes.split_at(usize::from(negative));
    let count = digits_len(unsigned);
    let (digits, rest) = unsigned.split_at(count);
    let left = bytes.len();
    if count == 0 {
        return Err(Stop::Bad(left, ShelfKind::BadItem));
    }
    if count > MOST_DIGITS {
        return Err(Stop::Bad(left, ShelfKind::LongInteger));
    }
    if rest.first() == Some(&b'.') {
        return Err(Stop::Bad(left, ShelfKind::NotCarried));
    }
    let number = digits_value(digits) as i64;
    Ok((Item::Int(if negative { -number } else { number }), rest))
}
