//! Laws of the client's commands, each the contract of a function that does nothing.

ghost use Rattle.braid_client.specs.Laws.{OneForm, OutsideRose, LoadFaultRose, SaveFaultRose, OnlyUsage, NoFormIsUsage, KeepsNone, OneRun, Completes, FollowIsFree};

/// Words are a form of one command at most.
pub fn one_form()
    ensures law { OneForm }
{}

/// A run of the client ends with status Outside only where a load, a save, a dial, a read, a write or a print failed,
/// and tells of a load or a save only where that failed; with status Usage where its words are a form of no command;
/// and where there was no memory, nothing is kept.
pub fn causes()
    ensures outside { OutsideRose }
    ensures load { LoadFaultRose }
    ensures save { SaveFaultRose }
    ensures usage { OnlyUsage }
    ensures no_form { NoFormIsUsage }
    ensures memory { KeepsNone }
{}

/// The words, what is kept, and what was said on the links decide what a run leaves and its status, where no call of
/// the outside failed and there was memory.
pub fn one_run()
    ensures law { OneRun }
{}

/// A command with nothing in its way is done where no call of the outside failed, or there was no memory. Nothing is in
/// the way of a `follow` of a whole reply none of whose updates is refused.
pub fn completes()
    ensures law { Completes }
    ensures follow { FollowIsFree }
{}
