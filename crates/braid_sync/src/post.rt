//! The PUTs of a sync.

ghost use Rattle.std.specs.Prelude.{◌≡◌, ◌≢◌, ◌++◌, ℕ, List, [], None, IfOk, OnOk};
ghost use Rattle.braid_sync.specs.Posting.{put_text, Posts};
ghost use Rattle.braid_sync.specs.Steps.{Does, said_on, end_of, failing_in};
ghost use Rattle.braid_sync.specs.Links.{PostsOne};

use crate::end::SyncEnd;
use crate::opening::send;
use crate::place::Place;
use crate::reply::read_reply;
use braid_change::Update;
use braid_http::{Call, Wire, request_bytes};
use braid_ids::{Bytes, Memory};
use braid_io::Link;
use braid_outbox::Replica;
use std::alloc::Global;

/// The most PUTs that are sent on one link.
const MOST_PUTS: u32 = 1_000;

/// The status of a PUT that was taken.
const TAKEN: u16 = 200;

/// Sends the first unsent updates on a new link, each as a PUT whose reply is read whole before the next is sent: all of them,
/// or 1,000 where there are more. Each that is taken is confirmed.
///
/// Errors: the end that came before.
pub(crate) fn post<K: Link>(
    alloc: Global,
    replica: &mut Replica,
    place: &Place,
    link: &mut K,
) -> Result<(), SyncEnd>
    requires some { replica.old.unsent ≢ [] }
    ensures text { (sent : List ℕ) × (given : List ℕ) × Does sent given (failing_in result) (K.intake link.old)
        (K.intake link.new) (K.outflow link.old) (K.outflow link.new)
        × Posts place.now replica.old (said_on place.now sent given (K.intake link.new)) replica.new (end_of result) }
{
    let mut wire = Wire::new(alloc);
    for _ in 0..MOST_PUTS {
        if replica.unsent() == 0 {
            return Ok(());
        }
        post_next(alloc, replica, place, &mut wire, link)?;
    }
    Ok(())
}

/// Sends the first unsent update, reads its reply whole, and confirms it where it was taken.
fn post_next<K: Link>(
    alloc: Global,
    replica: &mut Replica,
    place: &Place,
    wire: &mut Wire,
    link: &mut K,
) -> Result<(), SyncEnd>
    requires some { replica.old.unsent ≢ [] }
    requires going { wire.old.over ≡ None }
    ensures posts { (sent : List ℕ) × (given : List ℕ) × Does sent given (failing_in result) (K.intake link.old)
        (K.intake link.new) (K.outflow link.old) (K.outflow link.new)
        × PostsOne place.now replica.old result sent (wire.old.held ++ given) wire.new.held
        (K.intake link.new).left replica.new }
    ensures going { OnOk result (wire.new.over ≡ None) }
{
    let Some(update) = replica.next_out() else {
        unreachable!()
    };
    let id = update.id().copy(alloc)?;
    let request = put_bytes(alloc, update, place)?;
    send(wire, link, &request)?;
    let status = read_reply(alloc, wire, link)?;
    if status != TAKEN {
        return Err(SyncEnd::Peer { status });
    }
    let _moved = replica.acked(&id);
    Ok(())
}

/// The bytes that send an update.
fn put_bytes(alloc: Global, update: &Update, place: &Place) -> Result<Bytes, Memory>
    ensures ok { IfOk result (λ bytes. bytes ≡ put_text place.now update.now) }
{
    let call = Call::Put {
        server: Bytes::of(alloc, place.server.get())?,
        path: Bytes::of(alloc, place.path.get())?,
        update: update.copy(alloc)?,
    };
    request_bytes(alloc, &call)
}
