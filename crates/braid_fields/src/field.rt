//! Field lines: a name, a colon and a value.

ghost use Rattle.std.specs.Prelude.{◌≡◌, ◌↔◌, List, ℕ, MatchOption, IsTrue, option_map};
ghost use Rattle.std.specs.List.{list_all};
ghost use Rattle.braid_shelf.specs.ByteClasses.{is_blank};
ghost use Rattle.braid_fields.specs.Fields.{is_in_name, IsName, is_in_value, IsPadded, trimmed, IsField, field_of};
ghost use Rattle.braid_fields.specs.Cuts.{EndsInBlanks, CutsEnd};

use braid_ids::split_at_byte;
use braid_shelf::after_blanks;

/// Whether a name may have the byte.
fn is_in_name(byte: u8) -> bool
    ensures { result ≡ is_in_name byte }
{
    matches!(
        byte,
        b'a'..=b'z' | b'A'..=b'Z' | b'0'..=b'9' | b'!' | b'#' | b'$' | b'%' | b'&' | b'\'' | b'*' | b'+' | b'-' | b'.' | b'^' | b'_' | b'`' | b'|' | b'~'
    )
}

/// Whether each of the bytes may stand in a name.
fn are_in_name(bytes: &[u8]) -> bool
    ensures { result ≡ list_all is_in_name bytes.now }
{
    bytes.iter().all(|byte| is_in_name(*byte))
}

/// Whether the bytes are a field's name.
fn is_name(bytes: &[u8]) -> bool
    ensures { IsTrue result ↔ IsName bytes.now }
{
    !bytes.is_empty() && are_in_name(bytes)
}

/// Whether a value may have the byte.
fn is_in_value(byte: u8) -> bool
    ensures { result ≡ is_in_value byte }
{
    byte == b'\t' || (byte >= 0x20 && byte != 0x7f)
}

/// Whether each of the bytes may stand in a value.
fn are_in_value(bytes: &[u8]) -> bool
    ensures { result ≡ list_all is_in_value bytes.now }
{
    bytes.iter().all(|byte| is_in_value(*byte))
}

/// Whether the byte is a space or a tab.
fn is_blank(byte: u8) -> bool
    ensures { result ≡ is_blank byte }
{
    byte == b' ' || byte == b'\t'
}

/// The bytes before the spaces and tabs that they end with.
fn without_blanks_behind(bytes: &[u8]) -> &[u8]
    ensures { EndsInBlanks bytes.now result.now }
{
    let mut rest = bytes;
    while let Some((last, front)) = rest.split_last() {
        if !is_blank(*last) {
            return rest;
        }
        rest = front;
    }
    rest
}

/// The bytes without the spaces and tabs at both ends. It takes no memory.
pub fn trimmed(bytes: &[u8]) -> &[u8]
    ensures value { result.now ≡ trimmed bytes.now }
    ensures padded { IsPadded result.now bytes.now }
{
    without_blanks_behind(after_blanks(bytes))
}

/// The name and the value of a field line without its end.
fn field(content: &[u8]) -> Option<(&[u8], &[u8])>
    ensures { MatchOption result ((name value : List ℕ) → IsField name value content.now → ⊥)
        (λ found. IsField found.0.now found.1.now content.now) }
{
    let Some((name, padded)) = split_at_byte(b':', content) else {
        return None;
    };
    let value = trimmed(padded);
    if !is_name(name) {
        return None;
    }
    if !are_in_value(value) {
        return None;
    }
    Some((name, value))
}

/// What stands before the LF of a line without one CR at its end.
fn without_cr(line: &[u8]) -> &[u8]
    ensures { CutsEnd line.now result.now }
{
    match line.split_last() {
        Some((last, content)) if *last == b'\r' => content,
        _ => line,
    }
}

/// The name and the value of a field line (RFC 9112, section 5). It takes no memory.
///
/// `line` is a line with its LF. The value comes without the spaces and tabs at both ends. `None` where the line is no
/// field line: no colon stands behind one or more bytes of a name, or the value has a control byte.
pub fn read_field(line: &[u8]) -> Option<(&[u8], &[u8])>
    ensures value { option_map (λ found. record { name = found.0.now; value = found.1.now }) result
        ≡ field_of line.now }
{
    let Some((last, front)) = line.split_last() else {
        return None;
    };
    if *last != b'\n' {
        return None;
    }
    field(without_cr(front))
}
