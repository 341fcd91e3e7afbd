ghost use Rattle.std.specs.Prelude.{◌≡◌, ◌≢◌, []};
ghost use Rattle.braid_sync.specs.Opening.{IsPlace};
ghost use Rattle.braid_sync.specs.Syncs.{Syncs};
ghost use Rattle.braid_sync.specs.Laws.{GoesOnFrom};
ghost use Rattle.braid_sync.specs.Steps.{end_of};
ghost use Rattle.braid_sync.specs.Links.{SyncsAs, Talks, DialsTo};
ghost use Rattle.braid_sync.specs.Syncs.{Subscribes};
ghost use Rattle.braid_sync.specs.Posting.{Posts};

use crate::end::SyncEnd;
use crate::place::Place;
use crate::post::post;
use crate::subscribe::subscribe;
use braid_io::{Dialed, Dialer};
use braid_outbox::Replica;
use std::alloc::Global;

/// Learns what a server has of a text until the version that it names as the current one is held, and then sends it what is
/// unsent, each update as a PUT, in order. A PUT that is answered with status 200 is confirmed.
///
/// One link is dialled for the subscription; one for the first PUT, where something is unsent, and one after each 1,000 of
/// them. Each is hung up before the next is dialled, at every end.
///
/// `Done` exactly where the version is held and nothing is unsent. What was learnt or confirmed before another end stays. It
/// never answers `OutFault`.
pub fn sync<D: Dialer>(
    alloc: Global,
    replica: &mut Replica,
    place: &Place,
    dialer: &mut D,
) -> SyncEnd
    requires place { IsPlace place.now }
    ensures text { Syncs place.now replica.old replica.new result (D.dialing dialer.old) (D.dialing dialer.new) }
    ensures hung_up { (D.dialing dialer.new).servers ≡ (D.dialing dialer.old).servers }
    ensures never { result ≢ SyncEnd.OutFault }
    ensures sound { GoesOnFrom replica.old replica.new }
{
    let ended = sync_all(alloc, replica, place, dialer);
    // Each replica is sound: its count is read so that a proof learns it.
    let _confirmed = replica.confirmed();
    match ended {
        Ok(()) => SyncEnd::Done,
        Err(end) => end,
    }
}

/// Learns, and then sends what is unsent.
fn sync_all<D: Dialer>(
    alloc: Global,
    replica: &mut Replica,
    place: &Place,
    dialer: &mut D,
) -> Result<(), SyncEnd>
    requires place { IsPlace place.now }
    ensures text { SyncsAs place.now replica.old replica.new result (D.dialing dialer.old) (D.dialing dialer.new) }
{
    subscribe_over(alloc, replica, place, dialer)?;
    'posting: loop {
        if replica.unsent() == 0 {
            return Ok(());
        }
        post_over(alloc, replica, place, dialer)?;
    }
}

/// Learns over a link of its own.
fn subscribe_over<D: Dialer>(
    alloc: Global,
    replica: &mut Replica,
    place: &Place,
    dialer: &mut D,
) -> Result<(), SyncEnd>
    requires place { IsPlace place.now }
    ensures text { Talks place.now result (λ said. Subscribes place.now replica.old said replica.new (end_of result))
        (replica.new ≡ replica.old) (D.dialing dialer.old) (D.dialing dialer.new) }
{
    let mut link = dial(alloc, place, dialer)?;
    let learnt = subscribe(alloc, replica, place, &mut link);
    dialer.hang_up(link);
    learnt
}

/// Sends what is unsent over a link of its own, at most as many updates as are sent on one.
fn post_over<D: Dialer>(
    alloc: Global,
    replica: &mut Replica,
    place: &Place,
    dialer: &mut D,
) -> Result<(), SyncEnd>
    requires place { IsPlace place.now }
    requires some { replica.old.unsent ≢ [] }
    ensures text { Talks place.now result (λ said. Posts place.now replica.old said replica.new (end_of result))
        (replica.new ≡ replica.old) (D.dialing dialer.old) (D.dialing dialer.new) }
{
    let mut link = dial(alloc, place, dialer)?;
    let posted = post(alloc, replica, place, &mut link);
    dialer.hang_up(link);
    posted
}

/// A new link to the server of a place.
pub(crate) fn dial<D: Dialer>(
    alloc: Global,
    place: &Place,
    dialer: &mut D,
) -> Result<D::Link, SyncEnd>
    ensures dials { DialsTo D.Link.intake D.Link.outflow place.now result (D.dialing dialer.old)
        (D.dialing dialer.new) }
{
    match dialer.dial(alloc, &place.server) {
        Dialed::Up(link) => Ok(link),
        Dialed::Failed => Err(SyncEnd::DialFault),
        Dialed::Memory => Err(SyncEnd::Memory),
    }
}
