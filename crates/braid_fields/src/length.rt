//! The length of a content.

ghost use Rattle.std.specs.Prelude.{◌≡◌, None};
ghost use Rattle.std.specs.List.{list_all};
ghost use Rattle.braid_shelf.specs.ByteClasses.{is_digit};
ghost use Rattle.braid_fields.specs.Values.{are_length_digits, length_in_value};
ghost use Rattle.braid_fields.specs.Table.{first_row, length_of, len_rows, length_rows};

use crate::reason::Reason;
use braid_change::LONGEST_CONTENT;
use braid_ids::ListBytes;
use braid_shelf::digits_value;

/// The most digits of a length.
const MOST_DIGITS: usize = 15;

/// Whether each of the bytes is a digit.
fn are_digits(bytes: &[u8]) -> bool
    ensures { result ≡ list_all is_digit bytes.now }
{
    bytes.iter().all(|byte| byte.is_ascii_digit())
}

/// Whether a value is 1 to 15 digits. It takes no memory.
pub fn are_length_digits(value: &[u8]) -> bool
    ensures { result ≡ are_length_digits value.now }
{
    1 <= value.len() && value.len() <= MOST_DIGITS && are_digits(value)
}

/// The number of a value that is 1 to 15 digits.
#[tactic(auto, unfolding(crate::specs::Values::length_in_value))]
fn read_length(value: &[u8]) -> Option<u64>
    ensures value { result ≡ length_in_value value.now }
{
    if !are_length_digits(value) {
        return None;
    }
    Some(digits_value(value))
}

/// The length that the line of `Content-Length` tells.
fn told_len(values: &ListBytes) -> Result<u64, Reason>
    ensures len { result ≡ first_row (len_rows None values.now) (length_of None values.now) }
{
    let Some(value) = values.get().first() else {
        return Err(Reason::NoLength);
    };
    match read_length(value.get()) {
        Some(len) => Ok(len),
        None => Err(Reason::BadLength),
    }
}

/// The length that is given or that the line tells.
fn len_of(given: Option<u64>, values: &ListBytes) -> Result<u64, Reason>
    ensures len { result ≡ first_row (len_rows given values.now) (length_of given values.now) }
{
    match given {
        Some(len) => Ok(len),
        None => told_len(values),
    }
}

/// The length of a content behind others of `used` bytes, as it is given or told.
pub(crate) fn content_len(given: Option<u64>, used: u32, values: &ListBytes) -> Result<u32, Reason>
    ensures len { result ≡ first_row (length_rows given used values.now) (length_of given values.now) }
{
    let len = len_of(given, values)?;
    if len.saturating_add(u64::from(used)) > LONGEST_CONTENT {
        return Err(Reason::TooLong);
    }
    Ok(len as u32)
}
