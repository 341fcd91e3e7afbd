ghost use Rattle.std.specs.Prelude.{◌≡◌, true, [], ◌∷◌, ◌-◌, ◌<◌, ◌≤◌, ◌++◌, ◌^◌, min, length, take, ◌↔◌, IfOk, IfErr, OnOk, OnErr, IsTrue, encode_utf8_all};
ghost use Rattle.std.specs.Str.{all_scalars, IsAscii};
ghost use Rattle.braid_change.specs.Texts.{IsTextOf, IsTextFault, PutsFront};

use crate::ascii::{ROOM, ascii_chars, fill_ascii};
use braid_ids::{Bytes, Memory};
use std::alloc::Global;
use std::marker::Model;

/// Below so many characters the number of their bytes fits 32 bits.
const FEW: usize = 536_870_912;

/// A text: a list of Unicode scalar values.
#[derive(Debug, Drop)]
pub struct Text {
    chars: Vec<char>,
}

impl Model for Text {
    ghost use Rattle.std.specs.Prelude.{◌≡◌, List, ℕ, true};
    ghost use Rattle.std.specs.Str.{all_scalars};

    ghost Value = { List ℕ };

    ghost view = { λ text. text.chars.items };

    ghost invariant = { λ text. all_scalars text.chars.items ≡ true };
}

/// Why bytes gave no text.
#[derive(Clone, Copy, Debug, PartialEq, Eq)]
pub enum TextFault {
    /// The bytes are not UTF-8.
    NotText,
    /// There was no memory for the text.
    Memory,
}

impl Text {
    /// Reads the text that all of the bytes spell in UTF-8.
    ///
    /// Errors: `NotText` exactly where the bytes are not UTF-8, or `Memory`. Nothing is kept then.
    pub fn read(alloc: Global, bytes: &[u8]) -> Result<Text, TextFault>
        ensures ok { IfOk result (λ text. IsTextOf text bytes.now) }
        ensures fault { IfErr result (λ fault. IsTextFault bytes.now fault) }
    {
        if bytes.is_ascii() {
            return match read_ascii(alloc, bytes) {
                Ok(text) => Ok(text),
                Err(_) => Err(TextFault::Memory),
            };
        }
        let Ok(text) = str::from_utf8(bytes) else {
            return Err(TextFault::NotText);
        };
        match text.chars().collect(alloc) {
            Ok(chars) => Ok(Text { chars }),
            Err(_) => Err(TextFault::Memory),
        }
    }

    /// The text of these characters. It takes no memory.
    pub fn of(chars: Vec<char>) -> Text
        ensures value { result ≡ chars.items }
    {
        for c in &chars {
            is_scalar(*c);
        }
        Text { chars }
    }

    /// The text of these characters, where the proof knows that they are scalar values.
    pub(crate) fn of_scalars(chars: Vec<char>) -> Text
        requires scalar { all_scalars chars.items ≡ true }
        ensures value { result ≡ chars.items }
    {
        Text { chars }
    }

    /// The characters, lent as a slice. It takes no memory.
    pub fn chars(&self) -> &[char]
        ensures value { result.now ≡ self.now }
        ensures valid { all_scalars self.now ≡ true }
    {
        self.chars.as_slice()
    }

    /// Whether both have the same characters. It takes no memory.
    pub fn same(&self, other: &Text) -> bool
        ensures same { IsTrue result ↔ (self.now ≡ other.now) }
    {
        self.chars() == other.chars()
    }

    /// The same text once more.
    ///
    /// Errors: `Memory` where there was none for the copy.
    pub fn copy(&self, alloc: Global) -> Result<Text, Memory>
        ensures ok { IfOk result (λ text. text ≡ self.now) }
    {
        let chars = Vec::from_slice(alloc, self.chars.as_slice())?;
        Ok(Text { chars })
    }

    /// The number of bytes of its UTF-8, or 18,446,744,073,709,551,615 where they are more. It takes no memory.
    pub fn utf8_len(&self) -> u64
        ensures len { result ≡ min (length (encode_utf8_all self.now)) (2 ^ 64 - 1) }
        ensures valid { all_scalars self.now ≡ true }
    {
        let chars = self.chars();
        if chars.len() < FEW {
            return short_len(chars) as u64;
        }
        long_len(chars)
    }

    /// Puts its UTF-8 at the end of `out`.
    ///
    /// Errors: `Memory` where there was none to grow; a front of the UTF-8 was then put there.
    pub fn push_to(&self, out: &mut Bytes) -> Result<(), Memory>
        ensures ok { OnOk result (out.new ≡ out.old ++ encode_utf8_all self.now) }
        ensures err { OnErr result (PutsFront (encode_utf8_all self.now) out.old out.new) }
    {
        let chars = self.chars();
        let mut done = 0;
        while done < chars.len() {
            done += push_front(&chars[done..], out)?;
        }
        Ok(())
    }
}

/// The number of bytes of the UTF-8 of so few characters that a sum of 32 bits holds it.
///
/// Nothing is asked at each character but where it stands, so several are taken at once.
fn short_len(chars: &[char]) -> u32
    requires few { length chars.now < 2 ^ 29 }
    ensures len { result ≡ length (encode_utf8_all chars.now) }
{
    let mut len: u32 = 0;
    for c in chars {
        len += c.len_utf8() as u32;
    }
    len
}

/// The number of bytes of the UTF-8 of any characters, or the greatest `u64` where they are more.
fn long_len(chars: &[char]) -> u64
    ensures len { result ≡ min (length (encode_utf8_all chars.now)) (2 ^ 64 - 1) }
{
    let mut len: u64 = 0;
    for c in chars {
        len = len.saturating_add(c.len_utf8() as u64);
    }
    len
}

/// The text of ASCII bytes.
fn read_ascii(alloc: Global, bytes: &[u8]) -> Result<Text, Memory>
    requires ascii { IsAscii bytes.now }
    ensures ok { IfOk result (λ text. IsTextOf text bytes.now) }
{
    let chars = ascii_chars(alloc, bytes)?;
    Ok(Text { chars })
}

/// Puts the UTF-8 of some of the first characters at the end of `out`: of how many.
///
/// ASCII characters go there many at once, by way of a buffer; any other one alone.
fn push_front(chars: &[char], out: &mut Bytes) -> Result<usize, Memory>
    requires some { 0 < length chars.now }
    ensures ok { IfOk result (λ n. (0 < n) × (n ≤ length chars.now)
        × (out.new ≡ out.old ++ encode_utf8_all (take n chars.now))) }
    ensures err { OnErr result (out.new ≡ out.old) }
{
    let mut buffer = [0; ROOM];
    let count = fill_ascii(&mut buffer, chars);
    if count > 0 {
        out.push(&buffer[..count])?;
        return Ok(count);
    }
    let mut buffer = [0; 4];
    out.push(chars[0].encode_utf8(&mut buffer).as_bytes())?;
    Ok(1)
}

/// Each `char` is a scalar value, which a proof learns of a parameter but not of an item of a list.
fn is_scalar(c: char)
    ensures scalar { all_scalars (c ∷ []) ≡ true }
{
    let _c = c;
}
