ghost use Rattle.std.specs.Prelude.{◌≡◌};
ghost use Rattle.braid_fields.specs.declared.plan.PlanFault.TheVariants as faults;

use crate::reason::Reason;
use braid_ids::{Frontier, Id, Memory};
use std::alloc::{AllocError, AllocFailed};

/// What an update's head says of it, and what has to follow the head.
#[derive(Debug, Drop)]
pub struct Plan {
    pub id: Id,
    pub parents: Frontier,
    pub asks: Asks,
}

/// The content that a head asks for.
#[derive(Clone, Copy, Debug, PartialEq, Eq)]
pub enum Asks {
    /// A whole body of `len` bytes.
    Body { len: u32 },
    /// One patch, whose range stands in the update's own head.
    OnePatch { patch: PatchPlan },
    /// So many patches, each with a head of its own.
    Patches { count: u32 },
}

/// The range of a patch in characters, and the number of bytes of its content.
#[derive(Clone, Copy, Debug, PartialEq, Eq)]
pub struct PatchPlan {
    pub start: u32,
    pub end: u32,
    pub len: u32,
}

/// Why there is no plan.
#[derive(Clone, Copy, Debug, PartialEq, Eq)]
pub enum PlanFault {
    /// The first reason, in the order of `Reason`.
    Reason(Reason),
    /// There was no memory for the strings, the identifier or the parents.
    Memory,
}

impl From<Reason> for PlanFault {
    ghost from_gives = { λ reason e. e ≡ faults.Reason reason };

    fn from(reason: Reason) -> PlanFault {
        PlanFault::Reason(reason)
    }
}

impl From<Memory> for PlanFault {
    ghost from_gives = { λ _ e. e ≡ faults.Memory };

    fn from(_memory: Memory) -> PlanFault {
        PlanFault::Memory
    }
}

impl From<AllocError> for PlanFault {
    ghost from_gives = { λ _ e. e ≡ faults.Memory };

    fn from(_error: AllocError) -> PlanFault {
        PlanFault::Memory
    }
}

impl<T: Drop> From<AllocFailed<T>> for PlanFault {
    ghost from_gives = { λ _ e. e ≡ faults.Memory };

    fn from(_failed: AllocFailed<T>) -> PlanFault {
        PlanFault::Memory
    }
}
