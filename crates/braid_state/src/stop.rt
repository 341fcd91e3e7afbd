//! How reading stops before the end.

ghost use Rattle.std.specs.Prelude.{◌≡◌};
ghost use Rattle.braid_state.specs.declared.stop.Stop.TheVariants as stops;

use braid_ids::Memory;
use std::alloc::AllocFailed;

/// Why reading goes no further.
#[derive(Clone, Copy)]
pub enum Stop<'a> {
    /// What stands here, up to the end of all bytes, is not of the form.
    Bad(&'a [u8]),
    /// There was no memory.
    Memory,
}

impl<'a> From<Memory> for Stop<'a> {
    ghost from_gives = { λ _ e. e ≡ stops.Memory };

    fn from(_memory: Memory) -> Stop<'a> {
        Stop::Memory
    }
}

impl<'a, T: Drop> From<AllocFailed<T>> for Stop<'a> {
    ghost from_gives = { λ _ e. e ≡ stops.Memory };

    fn from(_failed: AllocFailed<T>) -> Stop<'a> {
        Stop::Memory
    }
}
