ghost use Rattle.std.specs.Prelude.{◌≡◌, ◌==◌, ◌≤◌, ◌<◌, ◌++◌, ◌∷◌, ◌-◌, List, ℕ, true, false, length, IfOk, IfErr, MatchOption};
ghost use Rattle.std.specs.Char.{is_ascii_digit};
ghost use Rattle.std.specs.Str.{all_ascii_digits};
ghost use Rattle.std.specs.List.{prefix_len};
ghost use Rattle.braid_change.specs.RangeForms.{is_space, starts, IsNumber, IsTooLarge, AfterBracket, IsRange, IsRangeFault, IsByteFault, IsNumberFault};

use braid_ids::after;

/// Why a value is no range of a patch: the first of these from the left.
#[derive(Clone, Copy, Debug, PartialEq, Eq)]
pub enum RangeFault {
    /// The bytes up to the first space are not `text`.
    Unit,
    /// Byte number `at`, from 0, departs from the form; or the value ends there, at its length, too early.
    Form { at: u64 },
    /// A decimal has more than 10 digits or is above 4,294,967,295.
    Number,
}

const MOST_DIGITS: usize = 10;

/// Reads a patch's range, its start and its end, from all of the value: the unit `text`, one or more spaces, `[`,
/// a decimal, `:`, a decimal and `]`. Leading zeros are accepted. It takes no memory.
///
/// Errors: the first of `RangeFault` from the left.
pub fn read_range(value: &[u8]) -> Result<(u32, u32), RangeFault>
    ensures ok { IfOk result (λ range. IsRange value.now range.0 range.1) }
    ensures fault { IfErr result (λ fault. IsRangeFault value.now fault) }
{
    let rest = read_front(value)?;
    let (start, rest) = read_number(value.len(), rest)?;
    let rest = read_byte(value.len(), rest, b':')?;
    let (end, rest) = read_number(value.len(), rest)?;
    let rest = read_byte(value.len(), rest, b']')?;
    if !rest.is_empty() {
        return Err(departs(value.len(), rest));
    }
    Ok((start, end))
}

/// What follows the unit, the spaces and the bracket.
fn read_front(value: &[u8]) -> Result<&[u8], RangeFault>
    ensures ok { IfOk result (λ rest. AfterBracket value.now rest.now) }
    ensures fault { IfErr result (λ fault. IsRangeFault value.now fault) }
{
    let Some(rest) = after(b"text", value) else {
        return Err(RangeFault::Unit);
    };
    if rest.is_empty() {
        return Err(departs(value.len(), rest));
    }
    let (gap, rest) = rest.split_at(count_spaces(rest));
    if gap.is_empty() {
        return Err(RangeFault::Unit);
    }
    read_byte(value.len(), rest, b'[')
}

/// What follows this byte at the front of the end of a value of `len` bytes.
fn read_byte(len: usize, rest: &[u8], byte: u8) -> Result<&[u8], RangeFault>
    requires within { length rest.now ≤ len }
    ensures ok { IfOk result (λ after. rest.now ≡ byte ∷ after.now) }
    ensures fault { IfErr result (λ fault. IsByteFault byte len rest.now fault) }
{
    match rest.split_first() {
        Some((first, after)) if *first == byte => Ok(after),
        _ => Err(departs(len, rest)),
    }
}

/// The number at the front of the end of a value of `len` bytes, and what follows its digits.
fn read_number(len: usize, rest: &[u8]) -> Result<(u32, &[u8]), RangeFault>
    requires within { length rest.now ≤ len }
    ensures ok { IfOk result (λ read. (digits : List ℕ) × IsNumber digits read.0
        × (starts is_ascii_digit read.1.now ≡ false) × (rest.now ≡ digits ++ read.1.now)) }
    ensures fault { IfErr result (λ fault. IsNumberFault len rest.now fault) }
{
    let (digits, after) = rest.split_at(count_digits(rest));
    if digits.is_empty() {
        return Err(departs(len, rest));
    }
    match number_of(digits) {
        Some(n) => Ok((n, after)),
        None => Err(RangeFault::Number),
    }
}

/// The number that digits write, where it fits.
fn number_of(digits: &[u8]) -> Option<u32>
    requires some { 0 < length digits.now }
    requires decimal { all_ascii_digits digits.now ≡ true }
    ensures number { MatchOption result (IsTooLarge digits.now) (λ n. IsNumber digits.now n) }
{
    if digits.len() > MOST_DIGITS {
        return None;
    }
    let Ok(text) = str::from_utf8(digits) else {
        return None;
    };
    match text.parse::<u32>() {
        Ok(n) => Some(n),
        Err(_) => None,
    }
}

/// The fault of a value of `len` bytes that departs from the form where this much is left.
fn departs(len: usize, rest: &[u8]) -> RangeFault
    requires within { length rest.now ≤ len }
    ensures at { result ≡ RangeFault.Form (len - length rest.now) }
{
    RangeFault::Form {
        at: (len - rest.len()) as u64,
    }
}

/// The number of spaces at the front.
fn count_spaces(bytes: &[u8]) -> usize
    ensures len { result ≡ prefix_len is_space bytes.now }
{
    bytes.iter().take_while(|byte| **byte == b' ').count()
}

/// The number of digits at the front.
fn count_digits(bytes: &[u8]) -> usize
    ensures len { result ≡ prefix_len is_ascii_digit bytes.now }
{
    bytes
        .iter()
        .take_while(|byte| byte.is_ascii_digit())
        .count()
}
