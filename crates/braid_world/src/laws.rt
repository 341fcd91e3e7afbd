//! The calls of the world's events, and laws of the definitions of both ends, each the contract of a function that does
//! nothing.

ghost use Rattle.braid_world.specs.Events.{HeadIsPosted, FromIsResumed};
ghost use Rattle.braid_world.specs.WholeSyncs.{WholeSync};
ghost use Rattle.braid_world.specs.Progress.{LearningBrings, SentIsLearnt, FrontierIsHeld, FrontIsHad, StaysBeside, PutIsTaken, PutIsConfirmed};

pub use crate::calling::{Called, calls};
pub use crate::reading_back::{Heard, Last, bytes_are_events};

/// What a replica that syncs with a server may count on. All that the server sends past where the replica resumes is learnt,
/// or there is no room for it; once all is learnt, the version that the server named is held, and once that is held, the
/// replica has each update that the server first had. Each unsent update is known to the server or may follow what it has,
/// whatever joined since; and once the server has it, it is confirmed.
///
/// The replica's confirmed updates are in what the server first had, its unsent ones have names of its agent, and the server
/// never has another update with such a name.
pub fn progress()
    ensures learning { LearningBrings }
    ensures sent { SentIsLearnt }
    ensures held { FrontierIsHeld }
    ensures had { FrontIsHad }
    ensures stays { StaysBeside }
    ensures put { PutIsTaken }
    ensures confirmed { PutIsConfirmed }
{}

/// What is told of a Post and of an Open is what these events make: the update of the PUT, where one is made, and where the
/// replica resumes.
pub fn told_is_made()
    ensures head { HeadIsPosted }
    ensures from { FromIsResumed }
{}

/// A sync whose links are given the whole texts of sessions of one server over one history is done, with nothing unsent and the
/// version held that the server named, or there was no memory. It then has each update that the server had at the first mark.
///
/// The marks suffice and never fall, and each new update stands in the history at its mark. No call fails, and no limit is
/// met.
pub fn whole_sync()
    ensures law { WholeSync }
{}
