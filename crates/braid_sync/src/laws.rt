//! Laws of syncs and follows, each the contract of a function that does nothing.

ghost use Rattle.braid_sync.specs.Laws.{OneSync, OneFollow, SyncIsSound, FollowIsSound, CountsRose};
ghost use Rattle.braid_sync.specs.Laws.{FollowCompletes, DialledCompletes, WrittenIsWhole};

/// What was given and which call failed decide what a sync sends, its end and the replica, but for want of memory.
/// Where a read or a write failed, what was sent tells which.
pub fn one_sync()
    ensures law { OneSync }
{}

/// The same of a follow, with its lines. Where a line could not be printed, their number tells which.
pub fn one_follow()
    ensures law { OneFollow }
{}

/// Whatever the links give, the replica of a sync and of a follow stays sound and loses no update.
pub fn stays_sound()
    ensures sync { SyncIsSound }
    ensures follow { FollowIsSound }
{}

/// A follow of a whole reply none of whose updates is refused, in which no call failed, is done, or there was no
/// memory; the same over a dialer, where no count rose. The reply of a subscription as it is written is such a reply.
pub fn follow_completes()
    ensures law { FollowCompletes }
    ensures dialled { DialledCompletes }
    ensures written { WrittenIsWhole }
{}

/// The count that belongs to the call that failed rose, and no other.
pub fn counts_rose()
    ensures law { CountsRose }
{}
