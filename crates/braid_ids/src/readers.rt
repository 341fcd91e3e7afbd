//! Readers of bytes that several formats share. Each says both when it finds what it looks for and when it does not.

ghost use Rattle.std.specs.Prelude.{◌≡◌, ◌≢◌, ◌<◌, ◌^◌, ◌++◌, ◌∷◌, List, ℕ, decimal, MatchOption};
ghost use Rattle.braid_ids.specs.Lists.{Lacks};

use itoa::Buffer;

/// The bytes after `front`, where the bytes begin with it. It takes no memory.
pub fn after<'a>(front: &[u8], bytes: &'a [u8]) -> Option<&'a [u8]>
    ensures found { MatchOption result ((rest : List ℕ) → bytes.now ≢ front.now ++ rest)
        (λ rest. bytes.now ≡ front.now ++ rest.now) }
{
    bytes.strip_prefix(front)
}

/// The bytes before the first `byte`, and those after it; `None` where it does not stand there. It takes no memory.
pub fn split_at_byte(byte: u8, bytes: &[u8]) -> Option<(&[u8], &[u8])>
    ensures found { MatchOption result (Lacks byte bytes.now)
        (λ parts. Lacks byte parts.0.now × (bytes.now ≡ parts.0.now ++ byte ∷ parts.1.now)) }
{
    for (at, b) in bytes.iter().enumerate() {
        if *b == byte {
            return Some((&bytes[..at], &bytes[at + 1..]));
        }
    }
    None
}

/// The number below 2 to the 64th that the bytes are in decimal digits without sign or leading zeros; `None` where
/// they are none. It takes no memory.
pub fn read_decimal(digits: &[u8]) -> Option<u64>
    ensures found { MatchOption result ((n : ℕ) → n < 2 ^ 64 → digits.now ≢ decimal n)
        (λ n. (n < 2 ^ 64) × (digits.now ≡ decimal n)) }
{
    let Ok(text) = str::from_utf8(digits) else {
        return None;
    };
    let Ok(n) = text.parse::<u64>() else {
        return None;
    };
    if Buffer::new().format(n).as_bytes() == digits {
        Some(n)
    } else {
        None
    }
}
