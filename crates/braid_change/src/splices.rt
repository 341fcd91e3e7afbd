ghost use Rattle.std.specs.Prelude.{◌≡◌, ◌<◌, ◌≤◌, ◌-◌, ◌^◌, min, true, length, IfOk, IfErr, Some};
ghost use Rattle.std.specs.Str.{all_scalars};
ghost use Rattle.std.specs.List.{position_from};
ghost use Rattle.braid_change.specs.declared.change.Change.TheVariants.{Patches};
ghost use Rattle.braid_change.specs.Changes.{IsShaped, AreListed};
ghost use Rattle.braid_change.specs.Splices.{joined, all_within, is_past, cut, removed, spliced, IsSpliceFault};

use crate::change::Change;
use crate::joins::inserted_len;
use crate::patch::Patch;
use crate::text::Text;
use braid_ids::Memory;
use std::alloc::Global;

/// Why a change could not be made to a text.
#[derive(Clone, Copy, Debug, PartialEq, Eq)]
pub enum SpliceFault {
    /// The end of joined patch number `patch`, from 0, is the first that passes the text's length `len`.
    OutOfRange { patch: u32, len: u32 },
    /// There was no memory for the new text.
    Memory,
}

/// What a change makes of a text: a body gives itself, and patches give the pieces of the text outside their ranges,
/// with each patch's text at its range's start.
///
/// The text has fewer than 4,294,967,296 characters, and the change has the shape that `Update::build` accepts.
///
/// Errors: `OutOfRange` exactly where a joined patch passes the text's end, or `Memory`.
pub fn splice(alloc: Global, text: &Text, change: &Change) -> Result<Text, SpliceFault>
    requires counted { length text.now < 2 ^ 32 }
    requires shaped { IsShaped change.now }
    ensures ok { IfOk result (λ text'. spliced text.now change.now ≡ Some text') }
    ensures fault { IfErr result (λ fault. IsSpliceFault text.now change.now fault) }
{
    match change {
        Change::Body(body) => match body.copy(alloc) {
            Ok(text) => Ok(text),
            Err(_) => Err(SpliceFault::Memory),
        },
        Change::Patches(patches) => splice_patches(alloc, text, patches.get()),
    }
}

/// What patches make of a text, as `splice` says it.
fn splice_patches(alloc: Global, text: &Text, patches: &[Patch]) -> Result<Text, SpliceFault>
    requires counted { length text.now < 2 ^ 32 }
    requires few { length patches.now < 2 ^ 32 }
    requires listed { AreListed 0 patches.now }
    ensures ok { IfOk result (λ text'. spliced text.now (Patches patches.now) ≡ Some text') }
    ensures fault { IfErr result (λ fault. IsSpliceFault text.now (Patches patches.now) fault) }
{
    let len = text.chars().len() as u32;
    if let Some(patch) = find_past(patches, len) {
        return Err(SpliceFault::OutOfRange { patch, len });
    }
    match cut(alloc, text.chars(), patches) {
        Ok(chars) => Ok(Text::of_scalars(chars)),
        Err(_) => Err(SpliceFault::Memory),
    }
}

/// The first joined patch whose end is above `len`.
///
/// An end never falls from one patch to the next, so the first patch past `len` is in the first joined patch past it.
fn find_past(patches: &[Patch], len: u32) -> Option<u32>
    requires few { length patches.now < 2 ^ 32 }
    requires listed { AreListed 0 patches.now }
    ensures found { result ≡ position_from (is_past len) 0 (joined patches.now) }
{
    let Some(first) = patches.first() else {
        return None;
    };
    let mut start = first.start;
    let mut n = 0;
    for patch in patches {
        if patch.start != start {
            start = patch.start;
            n += 1;
        }
        if patch.end > len {
            return Some(n);
        }
    }
    None
}

/// The pieces of the text outside the patches' ranges, with each patch's text at its range's start.
///
/// Patches of one start need not be joined first: all but the last of them replace nothing.
fn cut(alloc: Global, text: &[char], patches: &[Patch]) -> Result<Vec<char>, Memory>
    requires listed { AreListed 0 patches.now }
    requires within { all_within (length text.now) patches.now ≡ true }
    requires scalar { all_scalars text.now ≡ true }
    ensures ok { IfOk result (λ chars. chars.items ≡ cut 0 text.now patches.now) }
    ensures scalar { IfOk result (λ chars. all_scalars chars.items ≡ true) }
{
    let kept = text.len().saturating_sub(removed_len(patches));
    let mut chars = Vec::with_capacity(alloc, kept.saturating_add(inserted_len(patches)))?;
    let mut at = 0;
    for patch in patches {
        chars.extend_from_slice(&text[at..patch.start as usize])?;
        chars.extend_from_slice(patch.text.chars())?;
        at = patch.end as usize;
    }
    chars.extend_from_slice(&text[at..])?;
    Ok(chars)
}

/// The number of characters that the patches replace, or the greatest `usize` where they are more.
fn removed_len(patches: &[Patch]) -> usize
    ensures len { result ≡ min (removed patches.now) (2 ^ 64 - 1) }
{
    let mut len: usize = 0;
    for patch in patches {
        len = len.saturating_add(patch.end.saturating_sub(patch.start) as usize);
    }
    len
}
