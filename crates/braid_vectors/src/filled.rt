//! Long bytes: a filler so many times between a front and a back.

use braid_ids::{Bytes, Memory};
use std::alloc::Global;

/// Adds a filler so many times.
fn push_times(bytes: &mut Bytes, filler: &[u8], times: u32) -> Result<(), Memory> {
    for _ in 0..times {
        bytes.push(filler)?;
    }
    Ok(())
}

/// Adds a filler so many times, and a back.
fn push_filled(bytes: &mut Bytes, filler: &[u8], times: u32, back: &[u8]) -> Result<(), Memory> {
    push_times(bytes, filler, times)?;
    bytes.push(back)
}

/// The filler so many times between the front and the back.
pub fn filled(
    alloc: Global,
    front: &[u8],
    filler: &[u8],
    times: u32,
    back: &[u8],
) -> Result<Bytes, Memory> {
    let mut bytes = Bytes::of(alloc, front)?;
    push_filled(&mut bytes, filler, times, back)?;
    Ok(bytes)
}
