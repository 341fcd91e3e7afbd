//! Bytes by where they may stand.

ghost use Rattle.std.specs.Prelude.{◌≡◌, ◌≤◌, ◌==◌, ◌∷◌, false, length, MatchOption};
ghost use Rattle.std.specs.List.{prefix_len};
ghost use Rattle.braid_shelf.specs.ByteClasses.{begins, begins_token, is_in_token, begins_key, is_in_key, is_digit, is_space, is_blank};
ghost use Rattle.braid_shelf.specs.Reading.{after};

/// Whether a Token may begin with the byte.
pub(crate) fn begins_token(byte: u8) -> bool
    ensures { result ≡ begins_token byte }
{
    matches!(byte, b'a'..=b'z' | b'A'..=b'Z' | b'*')
}

/// Whether a Token may go on with the byte.
pub(crate) fn is_in_token(byte: u8) -> bool
    ensures { result ≡ is_in_token byte }
{
    byte.is_ascii_alphanumeric() || b"!#$%&'*+-.^_`|~:/".contains(&byte)
}

/// Whether a key may begin with the byte.
pub(crate) fn begins_key(byte: u8) -> bool
    ensures { result ≡ begins_key byte }
{
    matches!(byte, b'a'..=b'z' | b'*')
}

/// Whether a key may go on with the byte.
pub(crate) fn is_in_key(byte: u8) -> bool
    ensures { result ≡ is_in_key byte }
{
    matches!(byte, b'a'..=b'z' | b'0'..=b'9' | b'_' | b'-' | b'.' | b'*')
}

/// The number of bytes at the front that may stand in a Token.
pub(crate) fn token_len(bytes: &[u8]) -> usize
    ensures count { result ≡ prefix_len is_in_token bytes.now }
    ensures within { result ≤ length bytes.now }
{
    bytes.iter().take_while(|byte| is_in_token(**byte)).count()
}

/// The number of bytes at the front that may stand in a key.
pub(crate) fn key_len(bytes: &[u8]) -> usize
    ensures count { result ≡ prefix_len is_in_key bytes.now }
    ensures within { result ≤ length bytes.now }
{
    bytes.iter().take_while(|byte| is_in_key(**byte)).count()
}

/// The number of digits at the front.
pub(crate) fn digits_len(bytes: &[u8]) -> usize
    ensures count { result ≡ prefix_len is_digit bytes.now }
    ensures within { result ≤ length bytes.now }
{
    bytes
        .iter()
        .take_while(|byte| byte.is_ascii_digit())
        .count()
}

/// The number of spaces at the front.
fn spaces_len(bytes: &[u8]) -> usize
    ensures count { result ≡ prefix_len is_space bytes.now }
    ensures within { result ≤ length bytes.now }
{
    bytes.iter().take_while(|byte| **byte == b' ').count()
}

/// The number of spaces and tabs at the front.
fn blanks_len(bytes: &[u8]) -> usize
    ensures count { result ≡ prefix_len is_blank bytes.now }
    ensures within { result ≤ length bytes.now }
{
    bytes
        .iter()
        .take_while(|byte| matches!(**byte, b' ' | b'\t'))
        .count()
}

/// The bytes after the spaces at the front.
pub(crate) fn after_spaces(bytes: &[u8]) -> &[u8]
    ensures { result.now ≡ after is_space bytes.now }
{
    let (_, rest) = bytes.split_at(spaces_len(bytes));
    rest
}

/// The bytes after the spaces and tabs at the front. It takes no memory.
pub fn after_blanks(bytes: &[u8]) -> &[u8]
    ensures { result.now ≡ after is_blank bytes.now }
{
    let (_, rest) = bytes.split_at(blanks_len(bytes));
    rest
}

/// The bytes after the first, where the first is this byte.
pub(crate) fn after_byte(byte: u8, bytes: &[u8]) -> Option<&[u8]>
    ensures { MatchOption result (begins (λ b. b == byte) bytes.now ≡ false) (λ rest. bytes.now ≡ byte ∷ rest.now) }
{
    let (first, rest) = bytes.split_first()?;
    if *first == byte { Some(rest) } else { None }
}
