ghost use Rattle.std.specs.Prelude.{◌≡◌, ◌≢◌, ◌++◌, ◌∷◌, []};
ghost use Rattle.braid_text.specs.Answers.{IsAnswer, room_of};
ghost use Rattle.braid_text.specs.Rooms.{replica_limits};
ghost use Rattle.braid_text.specs.declared.accept.Accept.TheVariants.{New};
ghost use Rattle.braid_check.specs.Kept.{IsWithin};

use braid_change::Update;
use braid_text::{Accept, REPLICA_LIMITS, Resource, Room};
use std::alloc::Global;

/// Takes an update within the limits of a replica, or says why not.
///
/// An answer other than New leaves the resource as it was.
pub fn take_update(alloc: Global, resource: &mut Resource, update: Update) -> Accept
    requires within { IsWithin resource.old }
    ensures answer { IsAnswer (room_of replica_limits resource.old) resource.old update result }
    ensures taken { result ≡ New → resource.new ≡ resource.old ++ update ∷ [] }
    ensures kept { result ≢ New → resource.new ≡ resource.old }
{
    let room = room_beside(resource);
    resource.accept(alloc, update, &room)
}

/// What the limits of a replica leave beside a resource.
fn room_beside(resource: &Resource) -> Room
    ensures room { result ≡ room_of replica_limits resource.now }
{
    Room {
        versions: REPLICA_LIMITS
            .versions
            .saturating_sub(resource.entries() as u64),
        elements: REPLICA_LIMITS
            .elements
            .saturating_sub(resource.elements() as u64),
        deletions: REPLICA_LIMITS
            .deletions
            .saturating_sub(resource.deletions() as u64),
        width: REPLICA_LIMITS.width,
    }
}
