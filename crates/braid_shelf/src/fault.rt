ghost use Rattle.std.specs.Prelude.{◌≡◌};
ghost use Rattle.braid_shelf.specs.declared.fault.Stop.TheVariants.{Memory as NoMemory};
ghost use Rattle.braid_shelf.specs.declared.fault.ShelfFault.TheVariants.{Memory as NoRoom};
ghost use Rattle.braid_shelf.specs.Stops.{IsWithin, fault_of};

use braid_ids::Memory;
use std::alloc::{AllocError, AllocFailed};

/// What is wrong with the value of a header field that is to be a list.
#[derive(Clone, Copy, Debug, PartialEq, Eq)]
pub enum ShelfKind {
    /// No item begins here, or a byte within an item may not stand there.
    BadItem,
    /// No key of a parameter begins here.
    BadKey,
    /// An Integer has more than 15 digits.
    LongInteger,
    /// The value ends after a comma.
    TrailingComma,
    /// Something else than a comma follows a member.
    MissingComma,
    /// The value ends within a String.
    Unclosed,
    /// A Decimal, a Byte Sequence or an Inner List, which this profile has not.
    NotCarried,
    /// A member is no String without parameters.
    NotString,
    /// The list is not one Integer that is not negative, without parameters.
    NotCount,
}

/// Why a value could not be read.
#[derive(Clone, Copy, Debug, PartialEq, Eq)]
pub enum ShelfFault {
    /// The first fault from the left, and the place of its byte, counted from 0.
    Bad { at: u64, kind: ShelfKind },
    /// There was no memory to keep what was read.
    Memory,
}

impl From<Memory> for ShelfFault {
    ghost from_gives = { λ _ e. e ≡ NoRoom };

    fn from(_memory: Memory) -> ShelfFault {
        ShelfFault::Memory
    }
}

/// Why a reader stopped: a fault, at the byte from which on so many bytes are left, or want of memory.
#[derive(Clone, Copy, Debug, PartialEq, Eq)]
pub(crate) enum Stop {
    Bad(usize, ShelfKind),
    Memory,
}

impl Stop {
    /// The fault of a value of so many bytes.
    pub(crate) fn of(self, len: usize) -> ShelfFault
        requires { IsWithin self len }
        ensures { result ≡ fault_of self len }
    {
        match self {
            Stop::Bad(left, kind) => ShelfFault::Bad {
                at: (len - left) as u64,
                kind,
            },
            Stop::Memory => ShelfFault::Memory,
        }
    }
}

impl From<Memory> for Stop {
    ghost from_gives = { λ _ e. e ≡ NoMemory };

    fn from(_memory: Memory) -> Stop {
        Stop::Memory
    }
}

impl From<AllocError> for Stop {
    ghost from_gives = { λ _ e. e ≡ NoMemory };

    fn from(_error: AllocError) -> Stop {
        Stop::Memory
    }
}

impl<T: Drop> From<AllocFailed<T>> for Stop {
    ghost from_gives = { λ _ e. e ≡ NoMemory };

    fn from(_failed: AllocFailed<T>) -> Stop {
        Stop::Memory
    }
}
