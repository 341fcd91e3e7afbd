//! ASCII characters: each is one byte of UTF-8, so many of them are read and written at once.

ghost use Rattle.std.specs.Prelude.{◌≡◌, ◌≤◌, length, take, IfOk};
ghost use Rattle.std.specs.Str.{IsAscii};
ghost use Rattle.braid_change.specs.Texts.{AreAscii};

use braid_ids::Memory;
use std::alloc::Global;

/// How many ASCII characters are written at once.
pub(crate) const ROOM: usize = 64;

/// The characters that ASCII bytes spell: each byte is one.
pub(crate) fn ascii_chars(alloc: Global, bytes: &[u8]) -> Result<Vec<char>, Memory>
    requires ascii { IsAscii bytes.now }
    ensures ok { IfOk result (λ chars. chars.items ≡ bytes.now) }
{
    let mut chars = Vec::with_capacity(alloc, bytes.len())?;
    for byte in bytes {
        chars.push_reserved(*byte as char);
    }
    Ok(chars)
}

/// Puts the ASCII characters at the front into a buffer, as far as it has room: how many.
pub(crate) fn fill_ascii(buffer: &mut [u8; ROOM], chars: &[char]) -> usize
    ensures room { result ≤ 64 }
    ensures within { result ≤ length chars.now }
    ensures filled { take result buffer.new ≡ take result chars.now }
    ensures ascii { AreAscii (take result chars.now) }
{
    let most = chars.len().min(ROOM);
    for n in 0..most {
        let c = chars[n] as u32;
        if c >= 128 {
            return n;
        }
        buffer[n] = c as u8;
    }
    most
}
