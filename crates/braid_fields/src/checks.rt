//! Rows on the fields of a head as such.

ghost use Rattle.std.specs.Prelude.{◌≡◌, ◌||◌, not, codes};
ghost use Rattle.std.specs.List.{list_any};
ghost use Rattle.std.specs.Str.{str_eq_ignore_ascii_case};
ghost use Rattle.braid_fields.specs.Table.{first_row, is_encoded, is_repeated, is_merge_type, is_other_merge_type, length_lines, field_rows};

use crate::parts::Parts;
use crate::reason::Reason;
use braid_ids::{Bytes, ListBytes};

/// Whether a value of `Content-Encoding` says that the content is as it is.
fn is_identity(value: &[u8]) -> bool
    ensures { result ≡ str_eq_ignore_ascii_case value.now (codes "identity") }
{
    value.eq_ignore_ascii_case(b"identity")
}

/// Whether a value is another than `identity`.
fn has_other(values: &[Bytes]) -> bool
    ensures { result ≡ list_any (λ value. not (str_eq_ignore_ascii_case value (codes "identity"))) values.now }
{
    values.iter().any(|value| !is_identity(value.get()))
}

/// Whether a value of `Content-Encoding` is another than `identity`, in any case of its letters. It takes no memory.
#[tactic(auto, unfolding(crate::specs::Table::is_encoded))]
pub fn is_encoded(values: &ListBytes) -> bool
    ensures { result ≡ is_encoded values.now }
{
    has_other(values.get())
}

/// Whether there are two lines or more.
pub(crate) fn is_repeated(values: &ListBytes) -> bool
    ensures { result ≡ is_repeated values.now }
{
    values.get().len() > 1
}

/// Whether `Content-Length` is looked at and has two lines or more.
fn is_length_repeated(given: Option<u64>, values: &ListBytes) -> bool
    ensures { result ≡ is_repeated (length_lines given values.now) }
{
    match given {
        Some(_) => false,
        None => is_repeated(values),
    }
}

/// Whether a value names the merge type of this project.
fn is_merge_type(value: &[u8]) -> bool
    ensures { result ≡ is_merge_type value.now }
{
    value == b"ti-text".as_slice() || value == b"\"ti-text\"".as_slice()
}

/// Whether a value names another merge type.
fn has_other_type(values: &[Bytes]) -> bool
    ensures { result ≡ list_any (λ value. not (is_merge_type value)) values.now }
{
    values.iter().any(|value| !is_merge_type(value.get()))
}

/// Whether a value of `Merge-Type` is neither `ti-text` nor `"ti-text"`. It takes no memory.
#[tactic(auto, unfolding(crate::specs::Table::is_other_merge_type))]
pub fn is_other_merge_type(values: &ListBytes) -> bool
    ensures { result ≡ is_other_merge_type values.now }
{
    has_other_type(values.get())
}

/// Whether a field that may stand once has two lines.
fn has_repeats(given: Option<u64>, parts: &Parts) -> bool
    ensures { result ≡ (is_repeated parts.now.patches || is_repeated (length_lines given parts.now.length)
        || is_repeated parts.now.range || is_repeated parts.now.merge_type) }
{
    is_repeated(&parts.patches)
        || is_length_repeated(given, &parts.length)
        || is_repeated(&parts.range)
        || is_repeated(&parts.merge_type)
}

/// Whether the content is encoded, where `transfer` says that `Transfer-Encoding` is there.
fn is_coded(transfer: bool, parts: &Parts) -> bool
    ensures { result ≡ (transfer || is_encoded parts.now.encoding) }
{
    transfer || is_encoded(&parts.encoding)
}

/// That no field is there that changes the content, that stands twice, or that names another merge type.
pub(crate) fn check_fields(transfer: bool, given: Option<u64>, parts: &Parts) -> Result<(), Reason>
    ensures rows { result ≡ first_row (field_rows transfer given parts.now) tt }
{
    if is_coded(transfer, parts) {
        return Err(Reason::Encoded);
    }
    if has_repeats(given, parts) {
        return Err(Reason::RepeatedField);
    }
    if is_other_merge_type(&parts.merge_type) {
        return Err(Reason::OtherMergeType);
    }
    Ok(())
}
