//! The subscription of a sync.

ghost use Rattle.std.specs.Prelude.{◌≡◌, ◌↔◌, ℕ, List, IsTrue};
ghost use Rattle.braid_graph.specs.Entries.{HoldsAll};
ghost use Rattle.braid_text.specs.Histories.{graph_of};
ghost use Rattle.braid_sync.specs.Syncs.{Subscribes};
ghost use Rattle.braid_sync.specs.Steps.{Does, said_on, end_of, failing_in};
ghost use Rattle.braid_sync.specs.Links.{HeardInSync};

use crate::end::SyncEnd;
use crate::hear::Heard;
use crate::learn::take;
use crate::opening::open;
use crate::place::Place;
use braid_change::Update;
use braid_http::Refusal;
use braid_ids::Frontier;
use braid_io::Link;
use braid_outbox::Replica;
use std::alloc::Global;

/// Learns the updates of a subscription on a new link, until the version that its reply names as the current one is held.
///
/// Where it is held already, no update is read. Each identifier of the version is looked up until it is held, and once more at
/// last, however many updates come. Errors: the end that came before.
pub(crate) fn subscribe<K: Link>(
    alloc: Global,
    replica: &mut Replica,
    place: &Place,
    link: &mut K,
) -> Result<(), SyncEnd>
    ensures text { (sent : List ℕ) × (given : List ℕ) × Does sent given (failing_in result) (K.intake link.old)
        (K.intake link.new) (K.outflow link.old) (K.outflow link.new)
        × Subscribes place.now replica.old (said_on place.now sent given
        (K.intake link.new)) replica.new (end_of result) }
{
    let mut subscription = open(alloc, replica, place, link)?;
    let mut seen = 0;
    'learning: loop {
        if holds_from(replica, &subscription.current, &mut seen) {
            return Ok(());
        }
        let update = update_of(subscription.stream.next(link))?;
        let _taken = take(alloc, replica, update)?;
    }
}

/// Whether a replica has confirmed each identifier of a version. Those before the place `seen` were confirmed when they were
/// looked at; it moves on to the first one that is not.
fn holds_from(replica: &Replica, current: &Frontier, seen: &mut u32) -> bool
    ensures holds { IsTrue result ↔ HoldsAll (graph_of replica.now.confirmed) current.now }
{
    for n in *seen..current.len() {
        let Some(id) = current.get(n) else {
            unreachable!()
        };
        if !replica.is_confirmed(id) {
            *seen = n;
            return false;
        }
    }
    *seen = current.len();
    replica.holds(current)
}

/// The update that was heard, or the end of a sync that is there in its place.
fn update_of(heard: Heard) -> Result<Update, SyncEnd>
    ensures heard { HeardInSync result heard }
{
    match heard {
        Heard::Update(update) => Ok(update),
        Heard::Whole | Heard::Cut => Err(SyncEnd::Cut),
        Heard::BadChunk => Err(SyncEnd::BadHead(Refusal::BadChunk)),
        Heard::Fault(fault) => Err(SyncEnd::BadStream(fault)),
        Heard::ReadFault => Err(SyncEnd::ReadFault),
        Heard::Spent => Err(SyncEnd::Spent),
        Heard::Memory => Err(SyncEnd::Memory),
    }
}
