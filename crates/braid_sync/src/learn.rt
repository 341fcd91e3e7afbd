//! What is made of an update that comes.

ghost use Rattle.std.specs.Prelude.{◌≡◌};
ghost use Rattle.braid_sync.specs.Steps.{Takes, taken_word};

use crate::end::SyncEnd;
use braid_change::Update;
use braid_outbox::{Learn, Replica};
use std::alloc::Global;

/// What a replica made of an update that it has learnt.
#[derive(Clone, Copy, Debug, PartialEq, Eq)]
pub enum Taken {
    New,
    Known,
    Confirmed,
}

impl Taken {
    /// Its name, as it is printed.
    pub fn name(self) -> &'static str
        ensures value { result.now ≡ taken_word self }
    {
        match self {
            Taken::New => "New",
            Taken::Known => "Known",
            Taken::Confirmed => "Confirmed",
        }
    }
}

/// Lets a replica learn an update.
///
/// Errors: the end that says why it is refused. The replica is then as it was.
pub fn take(alloc: Global, replica: &mut Replica, update: Update) -> Result<Taken, SyncEnd>
    ensures takes { Takes result replica.old update replica.new }
{
    match replica.learn(alloc, update) {
        Learn::New => Ok(Taken::New),
        Learn::Known => Ok(Taken::Known),
        Learn::Confirmed => Ok(Taken::Confirmed),
        Learn::Clash { id } => Err(SyncEnd::Clash { id }),
        Learn::UnknownParent { id } => Err(SyncEnd::UnknownParent { id }),
        Learn::OutOfRange { patch, len } => Err(SyncEnd::OutOfRange { patch, len }),
        Learn::Full { which, limit } => Err(SyncEnd::Full { which, limit }),
        Learn::Memory => Err(SyncEnd::Memory),
    }
}
